//! The transactions of a host, taken from a bundle.

ghost use Rattle.std.specs.Prelude.{◌≡◌, ◌<◌, IfOk, Some, is_some, length, map, slice_get};
ghost use Rattle.sb_packet.specs.Networks.{NetHost, device_at};
ghost use Rattle.sb_flow.specs.NetworkOf.{network_of};
ghost use Rattle.sb_host.specs.Asked.{asked_by, line_in};
ghost use Rattle.sb_host.specs.Places.{asked_of};

use crate::script_plan::ScriptPlan;
use crate::transaction_plan::TransactionPlan;
use sb_flow::{Bundle, target};
use sb_packet::{Bytes, Txn};
use std::alloc::{AllocError, Global};

// a copy of a transaction
fn copy_of(alloc: Global, txn: &Txn) -> Result<Txn, AllocError>
    ensures copy { IfOk result (λ t. t ≡ txn.now) }
{
    let bytes = txn.body.as_slice();
    let mut body = Vec::with_capacity(alloc, bytes.len())?;
    body.extend_from_slice(bytes)?;
    Ok(Txn {
        kind: txn.kind,
        size: txn.size,
        addr: txn.addr,
        count: txn.count,
        body: Bytes::new(body),
    })
}

// a device has the address
fn is_aimed(bundle: &Bundle, txn: &Txn) -> bool
    ensures aimed { result ≡ is_some (device_at (network_of bundle.now) txn.now.addr) }
{
    target(bundle, txn.addr).is_some()
}

// a transaction, and whether a device has its address
fn line_of(alloc: Global, bundle: &Bundle, txn: &Txn) -> Result<TransactionPlan, AllocError>
    ensures line { IfOk result (λ l. l ≡ line_in (network_of bundle.now) txn.now) }
{
    let aimed = is_aimed(bundle, txn);
    Ok(TransactionPlan {
        txn: copy_of(alloc, txn)?,
        aimed,
    })
}

// all transactions of a script
fn lines_of(
    alloc: Global,
    bundle: &Bundle,
    script: &[Txn],
) -> Result<Vec<TransactionPlan>, AllocError>
    ensures lines { IfOk result (λ v. v.items ≡ map (line_in (network_of bundle.now)) script.now) }
{
    let mut lines = Vec::with_capacity(alloc, script.len())?;
    for txn in script {
        lines.push(line_of(alloc, bundle, txn)?)?;
    }
    Ok(lines)
}

/// What the host at that place of a bundle asks for.
///
/// # Errors
///
/// `AllocError` where there isn't enough memory.
pub(crate) fn script_plan_of(
    alloc: Global,
    bundle: &Bundle,
    number: u8,
) -> Result<ScriptPlan, AllocError>
    requires number { number < length bundle.now.hosts.items }
    ensures asked { IfOk result (λ o. (host : NetHost) → slice_get (network_of bundle.now).hosts number ≡ Some host
        → asked_of o ≡ asked_by (network_of bundle.now) host) }
{
    let plan = &bundle.hosts[usize::from(number)];
    let lines = lines_of(alloc, bundle, plan.script.as_slice())?;
    Ok(ScriptPlan {
        id: plan.id,
        qos: plan.qos,
        prot: plan.prot,
        lines,
    })
}
