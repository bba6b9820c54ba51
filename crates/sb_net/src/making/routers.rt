//! Routers at their legs.

ghost use Rattle.std.specs.Prelude.{◌≡◌, ◌<◌, length, IfOk};
ghost use Rattle.sb_flow.specs.NetworkOf.{network_of};
ghost use Rattle.sb_flow.specs.Tables.{paths_of};
ghost use Rattle.sb_net.specs.Legs.{AreLegsAt, IsMadeAt};
ghost use Rattle.sb_net.specs.Standing.{router_number};

use sb_flow::{Bundle, Paths};
use sb_link::Fabric;
use sb_member::Member;
use sb_port::{InLeg, OutLeg};
use sb_router::Router;
use std::alloc::{AllocError, Global};

/// The router at that place of a bundle, at all its legs.
pub fn router_at<F: Fabric>(
    alloc: Global,
    bundle: &Bundle,
    paths: &Paths,
    number: u8,
    outs: Vec<OutLeg<F>>,
    ins: Vec<InLeg<F>>,
) -> Result<Member<F>, AllocError>
    requires paths { paths.now ≡ paths_of (network_of bundle.now) }
    requires number { number < length (network_of bundle.now).routers }
    requires legs { AreLegsAt F.Tx.TxEnd F.Rx.RxEnd (network_of bundle.now) (router_number (network_of bundle.now) number)
        outs.items ins.items }
    ensures made { IfOk result (λ node. IsMadeAt F.Tx.TxEnd F.Rx.RxEnd (network_of bundle.now)
        (router_number (network_of bundle.now) number) outs.items ins.items node) }
{
    let router = Router::new(alloc, number, bundle, paths, ins, outs)?;
    Ok(Member::Router(router))
}
