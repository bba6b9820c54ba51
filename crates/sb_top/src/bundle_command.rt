//! The commands that run a bundle: `replay` on one thread, and `run` on several.

ghost use Rattle.std.specs.Prelude.{◌≡◌, ◌≢◌, ◌≤◌, ◌^◌, ◌⊎◌, ℕ, [], None, length};
ghost use Rattle.sb_io.specs.Counts.{FaultsIncreased};
ghost use Rattle.sb_io.specs.Written.{Gains, GainsPart};
ghost use Rattle.sb_fields.specs.declared.fault.LoadFault.TheVariants as faults;
ghost use Rattle.sb_flow.specs.NetworkOf.{network_of};
ghost use Rattle.sb_text.specs.Reports.{run_report};
ghost use Rattle.sb_top.specs.BundleRuns.{IsUntouched, RanNetwork, effects_in};
ghost use Rattle.sb_top.specs.Refusals.{RefusedBundle, load_fault_words, refusal_text};
ghost use Rattle.sb_top.specs.Schedules.{HasWorkers};
ghost use Rattle.sb_top.specs.TopCall.{RanBundle, Wrote, WrotePart};

use crate::bundle_run::run_bundle;
use crate::refusal::refuse_bundle;
use crate::schedule::Schedule;
use crate::status::{DONE, OUT_OF_MEMORY, REFUSED, WRITE_FAILED, status_of};
use sb_drive::Gate;
use sb_flow::Bundle;
use sb_io::Sink;
use sb_link::MeetFabric;
use sb_packet::Journal;
use sb_text::print;
use sb_topology::{LoadFault, load};
use std::alloc::{AllocError, Global};
use std::thread::Threads;

/// Runs a bundle, and prints its report, with its history where that is asked for. It gives the status.
fn report<R: Threads + Sync, K: Sink, F: MeetFabric, G: Gate + Sync>(
    rt: &R,
    alloc: Global,
    bundle: &Bundle,
    schedule: Schedule,
    history: bool,
    sink: &mut K,
    fabric: &mut F,
    gate: &G,
    journal: &mut Journal,
) -> u8
    requires workers { HasWorkers schedule }
    requires empty { journal.old.entries ≡ [] }
    requires unused { F.made fabric.old ≡ [] }
    ensures ran { (result ≡ DONE) ⊎ (result ≡ WRITE_FAILED)
        → RanNetwork (network_of bundle.now) (effects_in F.Fabric fabric.new journal.new.entries) }
    ensures done { result ≡ DONE →
        Gains (K.held sink.old) (K.held sink.new) (run_report (network_of bundle.now) journal.new.entries history None) }
    ensures part { result ≡ WRITE_FAILED →
        GainsPart (K.held sink.old) (K.held sink.new) (run_report (network_of bundle.now) journal.new.entries history None) }
    ensures silent { result ≡ OUT_OF_MEMORY → K.held sink.new ≡ K.held sink.old }
    ensures no_run { result ≡ OUT_OF_MEMORY → journal.new.entries ≡ [] }
    ensures not_begun { result ≡ OUT_OF_MEMORY → (ring : ℕ) → F.carried fabric.new ring ≡ F.carried fabric.old ring }
    ensures cause { result ≡ WRITE_FAILED → FaultsIncreased (K.faults sink.old) (K.faults sink.new) }
    ensures clean { result ≢ WRITE_FAILED → K.faults sink.new ≡ K.faults sink.old }
    ensures others { (result ≡ DONE) ⊎ (result ≡ WRITE_FAILED) ⊎ (result ≡ OUT_OF_MEMORY) }
{
    match run_bundle(rt, alloc, bundle, schedule, fabric, gate, journal) {
        Ok(settled) => status_of(print(sink, bundle, &settled, journal, history, None), DONE),
        Err(AllocError) => OUT_OF_MEMORY,
    }
}

/// Says why the text of a bundle is refused, unless memory was missing. It gives the status.
pub fn refuse<K: Sink>(sink: &mut K, fault: &LoadFault) -> u8
    ensures refused { result ≡ REFUSED → (fault.now ≢ faults.Memory)
        × Gains (K.held sink.old) (K.held sink.new) (refusal_text (load_fault_words fault.now)) }
    ensures part { result ≡ WRITE_FAILED → (fault.now ≢ faults.Memory)
        × GainsPart (K.held sink.old) (K.held sink.new) (refusal_text (load_fault_words fault.now)) }
    ensures silent { result ≡ OUT_OF_MEMORY → K.held sink.new ≡ K.held sink.old }
    ensures cause { result ≡ WRITE_FAILED → FaultsIncreased (K.faults sink.old) (K.faults sink.new) }
    ensures clean { result ≢ WRITE_FAILED → K.faults sink.new ≡ K.faults sink.old }
    ensures others { (result ≡ REFUSED) ⊎ (result ≡ WRITE_FAILED) ⊎ (result ≡ OUT_OF_MEMORY) }
{
    if let LoadFault::Memory = fault {
        return OUT_OF_MEMORY;
    }
    status_of(refuse_bundle(sink, fault), REFUSED)
}

/// Runs the bundle that an input spells, and prints its report; or says why the input is refused. It gives the status.
pub fn run_input<R: Threads + Sync, K: Sink, F: MeetFabric, G: Gate + Sync>(
    rt: &R,
    alloc: Global,
    input: &[u8],
    schedule: Schedule,
    history: bool,
    sink: &mut K,
    fabric: &mut F,
    gate: &G,
    journal: &mut Journal,
) -> u8
    requires workers { HasWorkers schedule }
    requires short { length input.now ≤ 2 ^ 26 }
    requires empty { journal.old.entries ≡ [] }
    requires unused { F.made fabric.old ≡ [] }
    ensures done { result ≡ DONE → Wrote (RanBundle history input.now (effects_in F.Fabric fabric.new journal.new.entries))
        (K.held sink.old) (K.held sink.new) }
    ensures refused { result ≡ REFUSED → Wrote (RefusedBundle input.now) (K.held sink.old) (K.held sink.new) }
    ensures untouched { result ≡ REFUSED → IsUntouched (effects_in F.Fabric fabric.new journal.new.entries) }
    ensures part { result ≡ WRITE_FAILED
        → WrotePart (λ text. RanBundle history input.now (effects_in F.Fabric fabric.new journal.new.entries) text
        ⊎ (RefusedBundle input.now text × IsUntouched (effects_in F.Fabric fabric.new journal.new.entries)))
        (K.held sink.old) (K.held sink.new) }
    ensures silent { result ≡ OUT_OF_MEMORY → K.held sink.new ≡ K.held sink.old }
    ensures no_run { result ≡ OUT_OF_MEMORY → journal.new.entries ≡ [] }
    ensures not_begun { result ≡ OUT_OF_MEMORY → (ring : ℕ) → F.carried fabric.new ring ≡ F.carried fabric.old ring }
    ensures cause { result ≡ WRITE_FAILED → FaultsIncreased (K.faults sink.old) (K.faults sink.new) }
    ensures clean { result ≢ WRITE_FAILED → K.faults sink.new ≡ K.faults sink.old }
    ensures others { (result ≡ DONE) ⊎ (result ≡ REFUSED) ⊎ (result ≡ WRITE_FAILED) ⊎ (result ≡ OUT_OF_MEMORY) }
{
    match load(alloc, input) {
        Ok(bundle) => report(
            rt, alloc, &bundle, schedule, history, sink, fabric, gate, journal,
        ),
        Err(fault) => refuse(sink, &fault),
    }
}
