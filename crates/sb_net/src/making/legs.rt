//! The two legs of a link.

ghost use Rattle.std.specs.Prelude.{◌≡◌, ℕ, ◌+◌, ◌*◌, ◌<◌, false, length, IfOk};
ghost use Rattle.sb_flow.specs.NetworkOf.{network_of};
ghost use Rattle.sb_flow.specs.Tables.{paths_of};
ghost use Rattle.sb_net.specs.Legs.{AreLegsOf, first_plans};

use sb_flow::{Bundle, Paths};
use sb_link::Fabric;
use sb_port::{InLeg, OutLeg};
use std::alloc::{AllocError, Global};

/// Makes the two rings of a link, behind those of all earlier links.
///
/// # Errors
///
/// `AllocError` where there isn't enough memory; then the ends that were made are dropped.
pub fn make_legs<F: Fabric>(
    alloc: Global,
    fabric: &mut F,
    bundle: &Bundle,
    paths: &Paths,
    link: u8,
) -> Result<(OutLeg<F>, InLeg<F>), AllocError>
    requires paths { paths.now ≡ paths_of (network_of bundle.now) }
    requires link { link < length (network_of bundle.now).links }
    requires made { F.made fabric.old ≡ first_plans (network_of bundle.now) (2 * link) }
    requires unsettled { (ring : ℕ) → ring < 2 * link → F.settled fabric.old ring ≡ false }
    ensures made { IfOk result (λ legs. F.made fabric.new ≡ first_plans (network_of bundle.now) (2 * link + 2)) }
    ensures unsettled { IfOk result (λ legs. (ring : ℕ) → ring < 2 * link + 2 → F.settled fabric.new ring ≡ false) }
    ensures carried { (ring : ℕ) → F.carried fabric.new ring ≡ F.carried fabric.old ring }
    ensures legs { IfOk result (λ legs. AreLegsOf F.Tx.TxEnd F.Rx.RxEnd (network_of bundle.now) link legs.0 legs.1) }
{
    let down = paths.plan(bundle, 2 * u16::from(link));
    let up = paths.plan(bundle, 2 * u16::from(link) + 1);
    let (ask, hear) = fabric.make(alloc, &down)?;
    let (tell, learn) = fabric.make(alloc, &up)?;
    let out = OutLeg {
        link,
        requests: ask,
        answers: learn,
    };
    let into = InLeg {
        link,
        requests: hear,
        answers: tell,
    };
    Ok((out, into))
}
