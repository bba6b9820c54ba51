//! What a host's script asks of one device.

ghost use Rattle.std.specs.Prelude.{◌≡◌, ◌≤◌, sum_by};
ghost use Rattle.std.specs.List.{list_any};
ghost use Rattle.sb_packet.specs.Networks.{has_address};
ghost use Rattle.sb_flow.specs.Rows.{device_of};
ghost use Rattle.sb_flow.specs.Rings.{answered_at, is_answered_kind, words_at};

use crate::addresses::has;
use crate::device_plan::DevicePlan;
use sb_packet::{Kind, Txn};

/// Some transaction's address lies in a device's range.
pub fn aims(script: &[Txn], device: &DevicePlan) -> bool
    ensures { result ≡ list_any (λ t. has_address t.addr (device_of device.now)) script.now }
{
    script.iter().any(|txn| has(device, txn.addr))
}

/// The words of a transaction, where it is at a device.
fn words_of(txn: &Txn, device: &DevicePlan) -> u32
    ensures { result ≡ words_at (device_of device.now) txn.now }
{
    if has(device, txn.addr) {
        u32::from(txn.count)
    } else {
        0
    }
}

/// A device answers transactions of that kind.
fn is_answered(kind: Kind) -> bool
    ensures { result ≡ is_answered_kind kind }
{
    match kind {
        Kind::Read | Kind::Write | Kind::Atomic(_) => true,
        Kind::Posted => false,
    }
}

/// The words of a transaction, where it is at a device that answers it.
fn answered_words_of(txn: &Txn, device: &DevicePlan) -> u32
    ensures { result ≡ answered_at (device_of device.now) txn.now }
{
    if is_answered(txn.kind) {
        words_of(txn, device)
    } else {
        0
    }
}

/// The words of the transactions at a device.
pub fn words(script: &[Txn], device: &DevicePlan) -> u32
    requires { sum_by (λ t. t.count) script.now ≤ 262144 }
    ensures { result ≡ sum_by (words_at (device_of device.now)) script.now }
{
    let mut words = 0;
    for txn in script {
        words += words_of(txn, device);
    }
    words
}

/// The words of the transactions at a device that it answers.
pub fn answered_words(script: &[Txn], device: &DevicePlan) -> u32
    requires { sum_by (λ t. t.count) script.now ≤ 262144 }
    ensures { result ≡ sum_by (answered_at (device_of device.now)) script.now }
{
    let mut words = 0;
    for txn in script {
        words += answered_words_of(txn, device);
    }
    words
}
