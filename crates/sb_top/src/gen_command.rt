//! The command `gen`: a bundle that is generated runs on threads.

ghost use Rattle.std.specs.Prelude.{◌≡◌, ◌≢◌, ◌⊎◌, ℕ, []};
ghost use Rattle.sb_io.specs.Counts.{FaultsIncreased};
ghost use Rattle.sb_top.specs.BundleRuns.{effects_in};
ghost use Rattle.sb_top.specs.TopCall.{RanGenerated, Wrote, WrotePart};

use crate::bundle_run::run_bundle;
use crate::schedule::Schedule;
use crate::status::{DONE, OUT_OF_MEMORY, WRITE_FAILED, status_of};
use sb_drive::Gate;
use sb_gen::{gen_bundle, print_summary};
use sb_io::Sink;
use sb_link::MeetFabric;
use sb_packet::Journal;
use std::alloc::{AllocError, Global};
use std::thread::Threads;

/// The number of groups that its nodes are dealt to.
const WORKERS: u32 = 4;

/// Runs the bundle that a number generates, and prints a summary of the bundle. It gives the status.
pub fn generate<R: Threads + Sync, K: Sink, F: MeetFabric, G: Gate + Sync>(
    rt: &R,
    alloc: Global,
    number: u32,
    sink: &mut K,
    fabric: &mut F,
    gate: &G,
    journal: &mut Journal,
) -> u8
    requires empty { journal.old.entries ≡ [] }
    requires unused { F.made fabric.old ≡ [] }
    ensures done { result ≡ DONE → Wrote (RanGenerated number (effects_in F.Fabric fabric.new journal.new.entries))
        (K.held sink.old) (K.held sink.new) }
    ensures part { result ≡ WRITE_FAILED → WrotePart (RanGenerated number (effects_in F.Fabric fabric.new journal.new.entries))
        (K.held sink.old) (K.held sink.new) }
    ensures silent { result ≡ OUT_OF_MEMORY → K.held sink.new ≡ K.held sink.old }
    ensures no_run { result ≡ OUT_OF_MEMORY → journal.new.entries ≡ [] }
    ensures not_begun { result ≡ OUT_OF_MEMORY → (ring : ℕ) → F.carried fabric.new ring ≡ F.carried fabric.old ring }
    ensures cause { result ≡ WRITE_FAILED → FaultsIncreased (K.faults sink.old) (K.faults sink.new) }
    ensures clean { result ≢ WRITE_FAILED → K.faults sink.new ≡ K.faults sink.old }
    ensures others { (result ≡ DONE) ⊎ (result ≡ WRITE_FAILED) ⊎ (result ≡ OUT_OF_MEMORY) }
{
    let Ok(bundle) = gen_bundle(alloc, number) else {
        return OUT_OF_MEMORY;
    };
    let schedule = Schedule::SideBySide { workers: WORKERS };
    match run_bundle(rt, alloc, &bundle, schedule, fabric, gate, journal) {
        Ok(_) => status_of(print_summary(sink, number), DONE),
        Err(AllocError) => OUT_OF_MEMORY,
    }
}
