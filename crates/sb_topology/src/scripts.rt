//! The scripts of a bundle's hosts, read line by line.

ghost use Rattle.std.specs.Prelude.{◌≡◌, ◌≢◌, ◌≤◌, ◌+◌, ◌++◌, [], All, length, map, vec_len, IfOk, IfErr, IfSome, OnOk, Ok, Err};
ghost use Rattle.sb_packet.specs.Scripts.{IsTransaction};
ghost use Rattle.sb_text.specs.Scripts.{before};
ghost use Rattle.sb_text.specs.Sentences.{line_of};
ghost use Rattle.sb_text.specs.declared.line_fault.LineFault.TheVariants as line_faults;
ghost use Rattle.sb_flow.specs.Rows.{host_of};
ghost use Rattle.sb_fields.specs.declared.fault.LoadFault.TheVariants as faults;
ghost use Rattle.sb_topology.specs.Held.{draft_host};
ghost use Rattle.sb_topology.specs.Lines.{hosts_by, said_by, script_by, told_host as told_host_by};

use crate::host_draft::HostDraft;
use sb_fields::LoadFault;
use sb_flow::HostPlan;
use sb_packet::{Script, Txn};
use sb_text::{LineFault, read_line};
use std::alloc::{AllocError, Global};

/// `Script` of a line, unless memory was missing.
fn line_fault(host: u8, line: u32, fault: LineFault) -> LoadFault
    ensures memory { fault ≡ line_faults.Memory → result ≡ faults.Memory }
    ensures script { result ≢ faults.Memory → (result ≡ faults.Script host line fault) }
{
    match fault {
        LineFault::Memory => LoadFault::Memory,
        LineFault::Verb
        | LineFault::Number
        | LineFault::Size
        | LineFault::Data
        | LineFault::Length
        | LineFault::Aligned
        | LineFault::Page
        | LineFault::Range => LoadFault::Script { host, line, fault },
    }
}

/// What a line of a host's script says.
fn said(alloc: Global, host: u8, line: u32, text: &str) -> Result<Option<Txn>, LoadFault>
    ensures ok { IfOk result (λ txn. said_by host line (line_of text.now) ≡ Ok txn) }
    ensures transaction { IfOk result (λ txn. IfSome txn IsTransaction) }
    ensures err { IfErr result (λ fault. fault ≢ faults.Memory → (said_by host line (line_of text.now) ≡ Err fault)) }
{
    match read_line(alloc, text.as_bytes()) {
        Ok(txn) => Ok(txn),
        Err(fault) => Err(line_fault(host, line, fault)),
    }
}

/// Puts a transaction, if there is one, behind others.
fn keep(txns: &mut Vec<Txn>, txn: Option<Txn>) -> Result<(), AllocError>
    requires one { IfSome txn IsTransaction }
    requires all { All IsTransaction txns.old.items }
    ensures items { OnOk result (txns.new.items ≡ txns.old.items ++ before txn []) }
    ensures transactions { OnOk result (All IsTransaction txns.new.items) }
    ensures many { OnOk result (vec_len txns.new ≤ vec_len txns.old + 1) }
{
    if let Some(txn) = txn {
        txns.push(txn)?;
    }
    Ok(())
}

/// The transactions of a host's lines.
fn transactions(alloc: Global, host: u8, lines: &[&str]) -> Result<Vec<Txn>, LoadFault>
    requires { length lines.now ≤ 65536 }
    ensures ok { IfOk result (λ txns. script_by host 1 [] (map (λ line. line.now) lines.now) ≡ Ok txns.items) }
    ensures transactions { IfOk result (λ txns. All IsTransaction txns.items) }
    ensures many { IfOk result (λ txns. vec_len txns ≤ length lines.now) }
    ensures err { IfErr result (λ fault. fault ≢ faults.Memory
        → (script_by host 1 [] (map (λ line. line.now) lines.now) ≡ Err fault)) }
{
    let mut txns = Vec::new(alloc);
    for (index, line) in lines.iter().enumerate() {
        let txn = said(alloc, host, index as u32 + 1, line)?;
        match keep(&mut txns, txn) {
            Ok(()) => {}
            Err(_) => return Err(LoadFault::Memory),
        }
    }
    Ok(txns)
}

/// A host with its script.
fn told_host(alloc: Global, number: u8, host: &HostDraft<'_>) -> Result<HostPlan, LoadFault>
    ensures ok { IfOk result (λ plan. told_host_by number (draft_host host.now) ≡ Ok (host_of plan)) }
    ensures many { IfOk result (λ plan. length plan.script ≤ 65536) }
    ensures err { IfErr result (λ fault. fault ≢ faults.Memory
        → (told_host_by number (draft_host host.now) ≡ Err fault)) }
{
    match transactions(alloc, number, host.lines.as_slice()) {
        Ok(txns) => Ok(HostPlan {
            name: host.name,
            id: host.id,
            qos: host.qos,
            prot: host.prot,
            script: Script::new(txns),
        }),
        Err(fault) => Err(fault),
    }
}

/// The hosts of a bundle with their scripts; `Script` is the one error but `Memory`.
pub fn told_hosts(alloc: Global, hosts: &[HostDraft<'_>]) -> Result<Vec<HostPlan>, LoadFault>
    requires { length hosts.now ≤ 32 }
    ensures ok { IfOk result (λ plans. hosts_by 0 [] (map draft_host hosts.now) ≡ Ok (map host_of plans.items)) }
    ensures scripts { IfOk result (λ plans. All (λ h. length h.script ≤ 65536) plans.items) }
    ensures hosts { IfOk result (λ plans. vec_len plans ≡ length hosts.now) }
    ensures err { IfErr result (λ fault. fault ≢ faults.Memory
        → (hosts_by 0 [] (map draft_host hosts.now) ≡ Err fault)) }
{
    let mut plans = Vec::new(alloc);
    for (number, host) in hosts.iter().enumerate() {
        let plan = told_host(alloc, number as u8, host)?;
        match plans.push(plan) {
            Ok(()) => {}
            Err(_) => return Err(LoadFault::Memory),
        }
    }
    Ok(plans)
}
