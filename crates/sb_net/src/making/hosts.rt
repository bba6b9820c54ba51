//! Hosts at their legs.

ghost use Rattle.std.specs.Prelude.{◌<◌, [], length, IfOk};
ghost use Rattle.sb_flow.specs.NetworkOf.{network_of};
ghost use Rattle.sb_net.specs.Legs.{AreLegsAt, IsMadeAt};

use sb_flow::Bundle;
use sb_host::Host;
use sb_link::Fabric;
use sb_member::Member;
use sb_port::OutLeg;
use std::alloc::{AllocError, Global};

/// The host at that place of a bundle, at the one leg that is its own.
pub fn host_at<F: Fabric>(
    alloc: Global,
    bundle: &Bundle,
    number: u8,
    outs: Vec<OutLeg<F>>,
) -> Result<Member<F>, AllocError>
    requires number { number < length (network_of bundle.now).hosts }
    requires legs { AreLegsAt F.Tx.TxEnd F.Rx.RxEnd (network_of bundle.now) number outs.items [] }
    ensures made { IfOk result (λ node. IsMadeAt F.Tx.TxEnd F.Rx.RxEnd (network_of bundle.now) number outs.items [] node) }
{
    let mut outs = outs;
    let Some(leg) = outs.pop() else {
        unreachable!()
    };
    let host = Host::new(alloc, number, bundle, leg)?;
    Ok(Member::Host(host))
}
