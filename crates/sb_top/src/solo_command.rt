//! The command `solo`.

ghost use Rattle.std.specs.Prelude.{◌≡◌, ◌≢◌, ◌≤◌, ◌^◌, ◌⊎◌, [], All, IfOk, None, OnErr, OnOk, false, length, sum_by};
ghost use Rattle.sb_io.specs.Counts.{FaultsIncreased};
ghost use Rattle.sb_io.specs.Written.{Gains, GainsPart};
ghost use Rattle.sb_packet.specs.Answers.{run_results};
ghost use Rattle.sb_packet.specs.Scripts.{IsTransaction};
ghost use Rattle.sb_flow.specs.NetworkOf.{network_of};
ghost use Rattle.sb_text.specs.Reports.{run_report};
ghost use Rattle.sb_text.specs.Told.{FitsNetwork};
ghost use Rattle.sb_top.specs.Refusals.{RefusedScript};
ghost use Rattle.sb_solo.specs.Solo.{IsSoloJournal, solo_network};
ghost use Rattle.sb_solo.specs.SoloRuns.{TellsAlone};
ghost use Rattle.sb_top.specs.TopCall.{RanScript, Wrote, WrotePart};

use crate::refusal::refuse_script;
use crate::status::{DONE, OUT_OF_MEMORY, REFUSED, WRITE_FAILED, status_of};
use sb_flow::Bundle;
use sb_io::Sink;
use sb_packet::{Journal, Script};
use sb_solo::{ScriptRun, run_script, solo_bundle};
use sb_text::{ScriptFault, print, read_script};
use std::alloc::{AllocError, Global};

/// Runs a script against one memory. It gives the bundle that has the script, and what the run came to.
fn run(
    alloc: Global,
    script: Script,
    journal: &mut Journal,
) -> Result<(Bundle, ScriptRun), AllocError>
    requires transactions { All IsTransaction script }
    requires few { length script ≤ 65536 }
    requires words { sum_by (λ t. t.count) script ≤ 262144 }
    requires empty { journal.old.entries ≡ [] }
    ensures network { IfOk result (λ ran. network_of ran.0 ≡ solo_network script) }
    ensures packets { OnOk result (IsSoloJournal script journal.new.entries) }
    ensures tells { IfOk result (λ ran. TellsAlone ran.1 (run_results (solo_network script) journal.new.entries)) }
    ensures fits { OnOk result (FitsNetwork (solo_network script) (run_results (solo_network script) journal.new.entries)) }
    ensures no_run { OnErr result (journal.new.entries ≡ []) }
{
    let bundle = solo_bundle(alloc, script)?;
    let run = run_script(alloc, bundle.hosts[0].script.as_slice(), journal)?;
    Ok((bundle, run))
}

/// Runs a script, and prints its report.
fn report<K: Sink>(alloc: Global, script: Script, sink: &mut K, journal: &mut Journal) -> u8
    requires transactions { All IsTransaction script }
    requires few { length script ≤ 65536 }
    requires words { sum_by (λ t. t.count) script ≤ 262144 }
    requires empty { journal.old.entries ≡ [] }
    ensures packets { (result ≡ DONE) ⊎ (result ≡ WRITE_FAILED) → IsSoloJournal script journal.new.entries }
    ensures done { result ≡ DONE →
        Gains (K.held sink.old) (K.held sink.new) (run_report (solo_network script) journal.new.entries false None) }
    ensures part { result ≡ WRITE_FAILED →
        GainsPart (K.held sink.old) (K.held sink.new) (run_report (solo_network script) journal.new.entries false None) }
    ensures silent { result ≡ OUT_OF_MEMORY → K.held sink.new ≡ K.held sink.old }
    ensures no_run { result ≡ OUT_OF_MEMORY → journal.new.entries ≡ [] }
    ensures cause { result ≡ WRITE_FAILED → FaultsIncreased (K.faults sink.old) (K.faults sink.new) }
    ensures clean { result ≢ WRITE_FAILED → K.faults sink.new ≡ K.faults sink.old }
    ensures others { (result ≡ DONE) ⊎ (result ≡ WRITE_FAILED) ⊎ (result ≡ OUT_OF_MEMORY) }
{
    match run(alloc, script, journal) {
        Ok((bundle, run)) => status_of(print(sink, &bundle, &run, journal, false, None), DONE),
        Err(AllocError) => OUT_OF_MEMORY,
    }
}

/// Runs the script that an input spells, and prints its report; or says why the input is refused. It gives the status.
pub fn solo<K: Sink>(alloc: Global, input: &[u8], sink: &mut K, journal: &mut Journal) -> u8
    requires short { length input.now ≤ 2 ^ 26 }
    requires empty { journal.old.entries ≡ [] }
    ensures done { result ≡ DONE → Wrote (RanScript input.now journal.new.entries) (K.held sink.old) (K.held sink.new) }
    ensures refused { result ≡ REFUSED → Wrote (RefusedScript input.now) (K.held sink.old) (K.held sink.new) }
    ensures part { result ≡ WRITE_FAILED → WrotePart (λ text. RanScript input.now journal.new.entries text
        ⊎ (RefusedScript input.now text × journal.new.entries ≡ [])) (K.held sink.old) (K.held sink.new) }
    ensures silent { result ≡ OUT_OF_MEMORY → K.held sink.new ≡ K.held sink.old }
    ensures no_run { (result ≡ REFUSED) ⊎ (result ≡ OUT_OF_MEMORY) → journal.new.entries ≡ [] }
    ensures cause { result ≡ WRITE_FAILED → FaultsIncreased (K.faults sink.old) (K.faults sink.new) }
    ensures clean { result ≢ WRITE_FAILED → K.faults sink.new ≡ K.faults sink.old }
    ensures others { (result ≡ DONE) ⊎ (result ≡ REFUSED) ⊎ (result ≡ WRITE_FAILED) ⊎ (result ≡ OUT_OF_MEMORY) }
{
    match read_script(alloc, input) {
        Ok(script) => report(alloc, script, sink, journal),
        Err(ScriptFault::Memory) => OUT_OF_MEMORY,
        Err(fault) => status_of(refuse_script(sink, fault), REFUSED),
    }
}
