//! How a device serves what comes in.

ghost use Rattle.std.specs.Prelude.{◌≡◌, ◌≢◌, ◌<◌, IsTrue, false};
ghost use Rattle.sb_link.specs.declared.answers.Turn.TheVariants.{Moved};
ghost use Rattle.sb_packet.specs.Accesses.{accesses_of};
ghost use Rattle.sb_packet.specs.Journals.{is_request, with_entry};
ghost use Rattle.sb_packet.specs.Memories.{memory_after};
ghost use Rattle.sb_mem.specs.AnswerPackets.{IsInRange};
ghost use Rattle.sb_port.specs.Ports.{IsFit, owes};
ghost use Rattle.sb_node.specs.Kept.{IsKeptPort};
ghost use Rattle.sb_device.specs.Sides.{held_bytes};
ghost use Rattle.sb_device.specs.SideOf.{side_of};
ghost use Rattle.sb_device.specs.Requests.{IsServedBy};
ghost use Rattle.sb_device.specs.Steps.{IsRingHandled};
ghost use Rattle.sb_device.specs.Devices.{IsDeviceTurn, IsKeptDevice, IsWholeDevice};
ghost use Rattle.sb_device.specs.Rested.{IsRestedDevice};

use crate::device_state::DeviceState;
use sb_link::{RxEnd, Turn, TxEnd};
use sb_mem::serve;
use sb_node::{Findings, hand_on, pop_ring, turn_port};
use sb_packet::{Entry, Item, Packet};
use sb_port::OutPort;

// serves a request, and hands its answer on
#[tactic(auto, using(crate::proofs::Requests::sent_as_before, crate::proofs::Requests::served_by_answer))]
fn serve_request<T: TxEnd>(
    state: &mut DeviceState,
    answers: &mut OutPort<T>,
    round: u32,
    request: &Packet,
)
    requires request { IsTrue (is_request request.now.cmd.op) }
    requires within { IsInRange state.old.memory request.now }
    requires room { 0 < state.old.journal.spare }
    requires fit { IsFit answers.old.plan answers.old.state }
    requires ready { owes answers.old.state ≡ false }
    requires untold { answers.old.state.close_requested ≡ false }
    ensures served { IsServedBy state.old.memory answers.old answers.new request.now }
    ensures sent { answers.new.state.sent ≡ answers.old.state.sent }
    ensures memory { state.new.memory ≡ memory_after state.old.memory (accesses_of request.now) }
    ensures base { state.new.memory.base ≡ state.old.memory.base }
    ensures size { held_bytes state.new.memory ≡ held_bytes state.old.memory }
    ensures readonly { state.new.memory.readonly ≡ state.old.memory.readonly }
    ensures journal { state.new.journal
        ≡ with_entry state.old.journal (record { round = round; device = state.old.number; packet = request.now }) }
    ensures number { state.new.number ≡ state.old.number }
    ensures kept { IsKeptPort answers.old answers.new }
    ensures told { answers.new.state.close_requested ≡ false }
    ensures fit { IsFit answers.new.plan answers.new.state }
{
    let entry = Entry {
        round,
        device: state.number,
        packet: *request,
    };
    if let Some(answer) = serve(&mut state.memory, &mut state.journal, &entry) {
        hand_on(answers, &answer);
    }
}

/// Pops a request where the answers' port is ready, serves it and hands its answer on; at the Close it tells the port to
/// close. Says whether it popped an item. Takes no memory.
pub(crate) fn serve_ring<T: TxEnd, U: RxEnd>(
    state: &mut DeviceState,
    requests: &mut U,
    answers: &mut OutPort<T>,
    round: u32,
    found: &mut Findings,
) -> bool
    requires whole { IsWholeDevice (side_of U.RxEnd state.old requests.old answers.old) }
    ensures handled { IsRingHandled (side_of U.RxEnd state.old requests.old answers.old)
        (side_of U.RxEnd state.new requests.new answers.new) found.old found.new result }
    ensures kept { IsKeptDevice round (side_of U.RxEnd state.old requests.old answers.old)
        (side_of U.RxEnd state.new requests.new answers.new) }
    ensures left { result ≡ false → state.new ≡ state.old }
    ensures sent { answers.new.state.sent ≡ answers.old.state.sent }
    ensures whole { IsWholeDevice (side_of U.RxEnd state.new requests.new answers.new) }
{
    if !answers.ready() {
        return false;
    }
    match pop_ring(requests, found) {
        Some(Item::Packet(request)) => serve_request(state, answers, round, &request),
        Some(Item::Close) => answers.close(),
        None => return false,
    }
    true
}

/// One turn of a device at its two ends: it serves its ring, and then turns its port. Takes no memory.
pub(crate) fn turn_ends<T: TxEnd, U: RxEnd>(
    state: &mut DeviceState,
    requests: &mut U,
    answers: &mut OutPort<T>,
    round: u32,
) -> Turn
    requires whole { IsWholeDevice (side_of U.RxEnd state.old requests.old answers.old) }
    ensures turned { IsDeviceTurn (side_of U.RxEnd state.old requests.old answers.old) result
        (side_of U.RxEnd state.new requests.new answers.new) }
    ensures kept { IsKeptDevice round (side_of U.RxEnd state.old requests.old answers.old)
        (side_of U.RxEnd state.new requests.new answers.new) }
    ensures rested { result ≢ Moved
        → IsRestedDevice (side_of U.RxEnd state.old requests.old answers.old) (side_of U.RxEnd state.new requests.new answers.new) }
    ensures whole { IsWholeDevice (side_of U.RxEnd state.new requests.new answers.new) }
{
    let mut found = Findings::new();
    let popped = serve_ring(state, requests, answers, round, &mut found);
    turn_port(answers, popped, &mut found);
    if found.moved {
        return Turn::Moved;
    }
    found.turn(answers.closed())
}
