//! Whether a ring is made for a packet.

ghost use Rattle.std.specs.Prelude.{◌≡◌, true, not};
ghost use Rattle.sb_packet.specs.Journals.{is_request};
ghost use Rattle.sb_packet.specs.Messages.{message_of};
ghost use Rattle.sb_link.specs.Traffic.{IsCarriable};
ghost use Rattle.sb_link.specs.PlanOf.{plan_of};

use sb_link::LinkPlan;
use sb_packet::{Op, Packet, span};

/// The plan is made for such a packet, which isn't an exclusive access.
pub(crate) fn carries(plan: &LinkPlan, packet: &Packet) -> bool
    ensures carriable { result ≡ true → IsCarriable (plan_of plan.now) (message_of packet.now) }
{
    if is_answer(packet.cmd.op) != plan.up {
        return false;
    }
    if !plan.flows.allows(packet) {
        return false;
    }
    if span(&packet.cmd) > u32::from(plan.width) {
        return false;
    }
    !packet.cmd.ex
}

fn is_answer(op: Op) -> bool
    ensures answer { result ≡ not (is_request op) }
{
    matches!(op, Op::RespRd | Op::RespWr)
}
