//! The next word of a host that is to come at a device.

ghost use Rattle.std.specs.Prelude.{◌≡◌, ◌≤◌, ◌<◌, ◌++◌, ℕ, false, length, slice_get, true, Some, IfNone, IfSome};
ghost use Rattle.sb_packet.specs.Accesses.{accesses_of};
ghost use Rattle.sb_packet.specs.Journals.{flow_part};
ghost use Rattle.sb_packet.specs.declared.transaction.Txn.{Txn as AnyTxn};
ghost use Rattle.sb_flow.specs.NetworkOf.{network_of};
ghost use Rattle.sb_flow.specs.Rows.{host_of};
ghost use Rattle.sb_flow.specs.Ways.{is_aimed_at};
ghost use Rattle.sb_link.specs.Prefixes.{IsPrefix};
ghost use Rattle.sb_check.specs.Progresses.{IsWordAt, script_from, words_left};

use crate::part::is_part;
use sb_flow::{Bundle, HostPlan, target};
use sb_packet::{Packet, Txn, word_count};

/// The next word of a host that is to come at a device, as its place in the host's script.
#[derive(Clone, Copy, Debug, PartialEq, Eq)]
pub struct NextWord {
    /// The number of its transaction, from 0; that of all of them where no word is left.
    pub transaction: usize,
    /// Its place among the words of that transaction, from 0.
    pub word: u16,
}

/// Whether a transaction is aimed at a device.
fn is_aimed(bundle: &Bundle, device: u8, txn: &Txn) -> bool
    ensures { result ≡ is_aimed_at (network_of bundle.now) device txn.now }
{
    match target(bundle, txn.addr) {
        None => false,
        Some(place) => place == device,
    }
}

/// The first transaction of a script from one on that is aimed at a device; the number of all where none is.
fn first_aimed(bundle: &Bundle, script: &[Txn], device: u8, from: usize) -> usize
    requires within { from ≤ length script.now }
    ensures onward { from ≤ result }
    ensures within { result ≤ length script.now }
    ensures passed { (i : ℕ) (t : AnyTxn) → from ≤ i → i < result → slice_get script.now i ≡ Some t
        → is_aimed_at (network_of bundle.now) device t ≡ false }
    ensures aimed { (t : AnyTxn) → slice_get script.now result ≡ Some t → is_aimed_at (network_of bundle.now) device t ≡ true }
{
    let mut number = from;
    while number < script.len() && !is_aimed(bundle, device, &script[number]) {
        number += 1;
    }
    number
}

impl NextWord {
    /// The first word at a device from a host's transaction `from` on.
    pub fn first(bundle: &Bundle, plan: &HostPlan, device: u8, from: usize) -> NextWord
        requires within { from ≤ length plan.now.script }
        ensures place { IsWordAt (network_of bundle.now) (host_of plan.now) device result }
        ensures left { let network = network_of bundle.now in let host = host_of plan.now in
            words_left network host device result ≡ flow_part network host device (script_from host from) }
    {
        NextWord {
            transaction: first_aimed(bundle, plan.script.as_slice(), device, from),
            word: 0,
        }
    }

    /// The next word behind those of a packet; None exactly where the packet's words aren't the next ones.
    pub fn behind(
        self,
        bundle: &Bundle,
        plan: &HostPlan,
        device: u8,
        packet: &Packet,
    ) -> Option<NextWord>
        requires id { plan.now.id ≤ 31 }
        requires few { length plan.now.script ≤ 65536 }
        ensures place { let network = network_of bundle.now in let host = host_of plan.now in
            IsWordAt network host device self → IfSome result (IsWordAt network host device) }
        ensures left { let network = network_of bundle.now in let host = host_of plan.now in
            IsWordAt network host device self → IfSome result (λ next. words_left network host device self
            ≡ accesses_of packet.now ++ words_left network host device next) }
        ensures none { let network = network_of bundle.now in let host = host_of plan.now in
            IsWordAt network host device self
            → IfNone result (¬ IsPrefix (accesses_of packet.now) (words_left network host device self)) }
    {
        let script = plan.script.as_slice();
        let txn = script.get(self.transaction)?;
        if !is_part(plan, self.transaction, txn, self.word, packet) {
            return None;
        }
        let word = u32::from(self.word) + word_count(&packet.cmd);
        if word < u32::from(txn.count) {
            return Some(NextWord {
                transaction: self.transaction,
                word: word as u16,
            });
        }
        Some(NextWord::first(bundle, plan, device, self.transaction + 1))
    }
}
