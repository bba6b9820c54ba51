//! The links of a small network, and its nodes at them.

ghost use Rattle.std.specs.Prelude.{◌≡◌, [], ◌∷◌, ◌++◌, IfOk};
ghost use Rattle.sb_flow.specs.Rings.{ring_plan};
ghost use Rattle.sb_link.specs.Ends.{IsNewRing};
ghost use Rattle.sb_link.specs.PlanOf.{plan_of};
ghost use Rattle.sb_port.specs.Ports.{fresh_port};
ghost use Rattle.sb_node.specs.Sides.{ring_side};
ghost use Rattle.sb_flow.specs.NetworkOf.{network_of};
ghost use Rattle.sb_device.specs.Devices.{IsWholeDevice};
ghost use Rattle.sb_host.specs.Asked.{asked_by};
ghost use Rattle.sb_host.specs.Hosts.{IsWholeHost};
ghost use Rattle.sb_flow.specs.Tables.{paths_of};
ghost use Rattle.sb_router.specs.Lanes.{IsFreshPair, fresh_inlet};
ghost use Rattle.sb_router.specs.Routers.{IsWholeRouter};
ghost use Rattle.sb_tests.specs.Samples.{sample, sample_host};

use crate::sample::PAGE;
use sb_device::Device;
use sb_flow::{Bundle, Paths};
use sb_host::Host;
use sb_link::{Fabric, LinkPlan};
use sb_mem::Memory;
use sb_port::{InLeg, OutLeg};
use sb_router::Router;
use std::alloc::{AllocError, Global};

/// Both legs of a link, at whose ends nothing was sent or received.
pub fn link<F: Fabric>(
    alloc: Global,
    fabric: &mut F,
    number: u8,
    down: &LinkPlan,
    up: &LinkPlan,
) -> Result<(OutLeg<F>, InLeg<F>), AllocError>
    requires down { IsNewRing down.now.ring (F.made fabric.old) }
    requires up { IsNewRing up.now.ring (F.made fabric.old ++ plan_of down.now ∷ []) }
    ensures made { IfOk result (λ legs. F.made fabric.new ≡ (F.made fabric.old ++ plan_of down.now ∷ []) ++ plan_of up.now ∷ []) }
    ensures requests_out { IfOk result (λ legs. F.Tx.planned legs.0.requests ≡ plan_of down.now) }
    ensures requests_in { IfOk result (λ legs. F.Rx.planned legs.1.requests ≡ plan_of down.now) }
    ensures answers_out { IfOk result (λ legs. F.Tx.planned legs.1.answers ≡ plan_of up.now) }
    ensures answers_in { IfOk result (λ legs. F.Rx.planned legs.0.answers ≡ plan_of up.now) }
    ensures requests_unsent { IfOk result (λ legs. F.Tx.sent legs.0.requests ≡ []) }
    ensures requests_unreceived { IfOk result (λ legs. F.Rx.received legs.1.requests ≡ []) }
    ensures answers_unsent { IfOk result (λ legs. F.Tx.sent legs.1.answers ≡ []) }
    ensures answers_unreceived { IfOk result (λ legs. F.Rx.received legs.0.answers ≡ []) }
    ensures requests_mark { IfOk result (λ legs. F.Tx.mark legs.0.requests ≡ F.Rx.mark legs.1.requests) }
    ensures answers_mark { IfOk result (λ legs. F.Tx.mark legs.1.answers ≡ F.Rx.mark legs.0.answers) }
    ensures link_out { IfOk result (λ legs. legs.0.link ≡ number) }
    ensures link_in { IfOk result (λ legs. legs.1.link ≡ number) }
{
    let (ask, hear) = fabric.make(alloc, down)?;
    let (answer, learn) = fabric.make(alloc, up)?;
    let out = OutLeg {
        link: number,
        requests: ask,
        answers: learn,
    };
    let into = InLeg {
        link: number,
        requests: hear,
        answers: answer,
    };
    Ok((out, into))
}

/// The host at its leg.
pub fn host_at<F: Fabric>(
    alloc: Global,
    bundle: &Bundle,
    leg: OutLeg<F>,
) -> Result<Host<F>, AllocError>
    requires network { network_of bundle.now ≡ sample }
    requires unsent { F.Tx.sent leg.requests ≡ [] }
    requires unreceived { F.Rx.received leg.answers ≡ [] }
    requires first { leg.link ≡ 0 }
    requires planned { F.Tx.planned leg.requests ≡ ring_plan sample 0 }
    ensures whole { IfOk result (λ h. IsWholeHost h) }
    ensures asked { IfOk result (λ h. h.transactions.asked ≡ asked_by sample sample_host) }
    ensures requests { IfOk result (λ h. h.requests ≡ fresh_port F.Tx.TxEnd leg.requests) }
    ensures answers { IfOk result (λ h. h.answers ≡ ring_side F.Rx.RxEnd leg.answers) }
{
    let host = Host::<F>::new(alloc, 0, bundle, leg)?;
    Ok(host)
}

/// The router at its legs.
pub fn router_at<F: Fabric>(
    alloc: Global,
    bundle: &Bundle,
    paths: &Paths,
    leg_in: InLeg<F>,
    leg_out: OutLeg<F>,
) -> Result<Router<F>, AllocError>
    requires made { paths.now ≡ paths_of (network_of bundle.now) }
    requires near { IsFreshPair F.Tx.TxEnd F.Rx.RxEnd leg_in.answers leg_in.requests }
    requires far { IsFreshPair F.Tx.TxEnd F.Rx.RxEnd leg_out.requests leg_out.answers }
    ensures whole { IfOk result (λ r. IsWholeRouter r) }
    ensures requests_in { IfOk result (λ r. r.requests.lane.inlets ≡ fresh_inlet F.Rx.RxEnd leg_in.requests ∷ []) }
    ensures requests_out { IfOk result (λ r. r.requests.lane.outlets ≡ fresh_port F.Tx.TxEnd leg_out.requests ∷ []) }
    ensures answers_in { IfOk result (λ r. r.answers.lane.inlets ≡ fresh_inlet F.Rx.RxEnd leg_out.answers ∷ []) }
    ensures answers_out { IfOk result (λ r. r.answers.lane.outlets ≡ fresh_port F.Tx.TxEnd leg_in.answers ∷ []) }
{
    let mut ins = Vec::new(alloc);
    ins.push(leg_in)?;
    let mut outs = Vec::new(alloc);
    outs.push(leg_out)?;
    let router = Router::<F>::new(alloc, 0, bundle, paths, ins, outs)?;
    Ok(router)
}

/// The device at its leg.
pub fn device_at<F: Fabric>(alloc: Global, leg: InLeg<F>) -> Result<Device<F>, AllocError>
    requires unreceived { F.Rx.received leg.requests ≡ [] }
    requires unsent { F.Tx.sent leg.answers ≡ [] }
    requires requests { F.Rx.planned leg.requests ≡ ring_plan sample 2 }
    requires answers { F.Tx.planned leg.answers ≡ ring_plan sample 3 }
    ensures whole { IfOk result (λ d. IsWholeDevice d) }
    ensures requests { IfOk result (λ d. d.requests ≡ ring_side F.Rx.RxEnd leg.requests) }
    ensures answers { IfOk result (λ d. d.answers ≡ fresh_port F.Tx.TxEnd leg.answers) }
{
    let memory = Memory::new(alloc, PAGE, 1, false, &[])?;
    Device::<F>::new(alloc, 0, memory, leg)
}
