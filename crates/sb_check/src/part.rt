//! Whether a packet is a part of a transaction.

ghost use Rattle.std.specs.Prelude.{◌≡◌, ◌≢◌, ◌≤◌, ◌<◌, ◌+◌, ◌-◌, ◌*◌, ◌^◌, ℕ, drop, length, take};
ghost use Rattle.std.specs.Bool.{OnFalse, OnTrue};
ghost use Rattle.sb_packet.specs.Messages.{atomic_of, message_of};
ghost use Rattle.sb_packet.specs.Spans.{word_count_of};
ghost use Rattle.sb_packet.specs.Scripts.{IsTransaction, atomic_of_kind, reply_address, request_of, transaction_message};
ghost use Rattle.sb_flow.specs.Rows.{host_of};
ghost use Rattle.sb_check.specs.Progresses.{IsPartFrom, SharesFields};

use crate::unread::are_same;
use sb_flow::HostPlan;
use sb_packet::{Cmd, Kind, Op, Packet, Txn, carried, word_count, words_span};

/// The addresses to which the answers to one host go.
const HOST_ADDRESSES: u64 = 1 << 40;

/// Those to which the answers to one transaction go.
const TRANSACTION_ADDRESSES: u64 = 1 << 11;

/// Whether a command asks for a kind of transaction.
fn asks_for(kind: Kind, cmd: &Cmd) -> bool
    ensures yes { OnTrue result
        ((cmd.now.op ≡ request_of kind) × (atomic_of cmd.now.op cmd.now.len ≡ atomic_of_kind kind)) }
    ensures no { OnFalse result
        (cmd.now.op ≡ request_of kind → atomic_of cmd.now.op cmd.now.len ≢ atomic_of_kind kind) }
{
    match kind {
        Kind::Read => matches!(cmd.op, Op::ReqRd),
        Kind::Write => matches!(cmd.op, Op::ReqWr),
        Kind::Posted => matches!(cmd.op, Op::ReqWrPosted),
        Kind::Atomic(atomic) => matches!(cmd.op, Op::ReqAtomic) && cmd.len == atomic.number(),
    }
}

/// Whether a packet has the fields that all packets of a transaction share.
fn shares_fields(plan: &HostPlan, txn: &Txn, packet: &Packet) -> bool
    ensures yes { (i : ℕ) → OnTrue result (SharesFields (transaction_message (host_of plan.now) i txn.now) (message_of packet.now)) }
    ensures no { (i : ℕ) → OnFalse result
        (¬ SharesFields (transaction_message (host_of plan.now) i txn.now) (message_of packet.now)) }
{
    let cmd = &packet.cmd;
    asks_for(txn.kind, cmd)
        && cmd.size == txn.size
        && cmd.host == plan.id
        && cmd.qos == plan.qos
        && cmd.prot == plan.prot
        && !cmd.eof
        && !cmd.ex
        && cmd.tail == 0
}

/// Whether a packet goes to a transaction's word `from`, and is answered where that is.
fn lies_at(plan: &HostPlan, number: usize, txn: &Txn, from: u32, packet: &Packet) -> bool
    requires id { plan.now.id ≤ 31 }
    requires number { number < 65536 }
    requires txn { IsTransaction txn.now }
    requires from { from ≤ 256 }
    ensures yes { OnTrue result ((packet.now.dst ≡ txn.now.addr + from * 2 ^ txn.now.size)
        × (packet.now.src ≡ reply_address plan.now.id number + from * 2 ^ txn.now.size)) }
    ensures no { OnFalse result (packet.now.dst ≡ txn.now.addr + from * 2 ^ txn.now.size
        → packet.now.src ≢ reply_address plan.now.id number + from * 2 ^ txn.now.size) }
{
    let start = u64::from(words_span(txn.size, from));
    let reply = u64::from(plan.id) * HOST_ADDRESSES + number as u64 * TRANSACTION_ADDRESSES;
    packet.dst == txn.addr + start && packet.src == reply + start
}

/// What so many words of a transaction carry, from word `from` on: nothing where it is a read.
fn share(txn: &Txn, from: u32, count: u32) -> &[u8]
    requires txn { IsTransaction txn.now }
    requires within { from + count ≤ txn.now.count }
    ensures { result.now ≡ take (count * 2 ^ txn.now.size) (drop (from * 2 ^ txn.now.size) txn.now.body) }
{
    let body = txn.body.as_slice();
    let start = words_span(txn.size, from) as usize;
    let end = words_span(txn.size, from + count) as usize;
    &body[start.min(body.len())..end.min(body.len())]
}

/// Whether a packet is a part of a transaction, which has that number in its host's script, from word `from` on.
pub fn is_part(plan: &HostPlan, number: usize, txn: &Txn, from: u16, packet: &Packet) -> bool
    requires id { plan.now.id ≤ 31 }
    requires number { number < 65536 }
    requires txn { IsTransaction txn.now }
    ensures yes { OnTrue result
        (IsPartFrom (transaction_message (host_of plan.now) number txn.now) from (message_of packet.now)) }
    ensures no { OnFalse result
        (¬ IsPartFrom (transaction_message (host_of plan.now) number txn.now) from (message_of packet.now)) }
{
    let first = u32::from(from);
    let count = word_count(&packet.cmd);
    let words = u32::from(txn.count);
    if first + count > words {
        return false;
    }
    if packet.cmd.eom != (first + count == words) {
        return false;
    }
    if !shares_fields(plan, txn, packet) {
        return false;
    }
    if !lies_at(plan, number, txn, first, packet) {
        return false;
    }
    are_same(carried(packet), share(txn, first, count))
}
