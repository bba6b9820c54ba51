//! The run of a bundle.

ghost use Rattle.std.specs.Prelude.{◌≡◌, ◌<◌, ℕ, [], List, IfOk, OnErr, length};
ghost use Rattle.sb_packet.specs.Networks.{Network};
ghost use Rattle.sb_flow.specs.NetworkOf.{network_of};
ghost use Rattle.sb_net.specs.Nets.{CanRun, RanToTheEnd};
ghost use Rattle.sb_top.specs.Schedules.{HasWorkers, groups_by};
ghost use Rattle.sb_top.specs.BundleRuns.{HasRunAs, effects_in};

use crate::schedule::Schedule;
use sb_drive::Gate;
use sb_flow::{Bundle, bundle_words};
use sb_link::MeetFabric;
use sb_net::{Net, SettledNet, build};
use sb_packet::Journal;
use std::alloc::{AllocError, Global};
use std::thread::Threads;

/// Runs a network to its end by a schedule, and fills the journal.
fn run_net<R: Threads + Sync, F: MeetFabric, G: Gate + Sync>(
    rt: &R,
    alloc: Global,
    net: &mut Net<F>,
    schedule: Schedule,
    gate: &G,
    journal: &mut Journal,
)
    requires groups { length net.old.groups ≡ groups_by schedule }
    requires ready { (network : Network) × CanRun network net.old journal.old }
    ensures run { (network : Network) → CanRun network net.old journal.old → RanToTheEnd network net.new journal.new.entries }
{
    match schedule {
        Schedule::InTurn { order } => net.replay(order, journal),
        Schedule::SideBySide { workers } => net.run(rt, alloc, workers, gate, journal),
    }
}

/// Runs a bundle to its end over rings of the fabric, by a schedule, and fills the journal. All memory that it needs is
/// taken before the first round; what it takes for threads then it can do without.
///
/// # Errors
///
/// `AllocError` where there isn't enough memory; then the journal has no entry, and no ring was given back to the fabric.
pub fn run_bundle<R: Threads + Sync, F: MeetFabric, G: Gate + Sync>(
    rt: &R,
    alloc: Global,
    bundle: &Bundle,
    schedule: Schedule,
    fabric: &mut F,
    gate: &G,
    journal: &mut Journal,
) -> Result<SettledNet, AllocError>
    requires workers { HasWorkers schedule }
    requires empty { journal.old.entries ≡ [] }
    requires unused { F.made fabric.old ≡ [] }
    ensures run { IfOk result (HasRunAs (network_of bundle.now) (effects_in F.Fabric fabric.new journal.new.entries)) }
    ensures no_run { OnErr result (journal.new.entries ≡ []) }
    ensures not_begun { OnErr result ((ring : ℕ) → F.carried fabric.new ring ≡ F.carried fabric.old ring) }
{
    let mut net = build(alloc, bundle, schedule.groups(), fabric)?;
    journal.reserve(bundle_words(bundle))?;
    run_net(rt, alloc, &mut net, schedule, gate, journal);
    Ok(net.settle(fabric))
}
