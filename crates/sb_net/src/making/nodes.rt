//! The nodes of a network at their legs.

ghost use Rattle.std.specs.Prelude.{◌≡◌, ◌<◌, length, IfOk};
ghost use Rattle.sb_flow.specs.NetworkOf.{network_of};
ghost use Rattle.sb_flow.specs.Tables.{paths_of};
ghost use Rattle.sb_net.specs.Legs.{AreDealt, AreLegsAt, AreMadeAt, IsMadeAt, piles_of};
ghost use Rattle.sb_net.specs.Standing.{node_count};

use super::dealing::Dealt;
use super::devices::device_at;
use super::hosts::host_at;
use super::routers::router_at;
use sb_flow::{Bundle, Paths};
use sb_link::Fabric;
use sb_member::Member;
use sb_port::{InLeg, OutLeg};
use std::alloc::{AllocError, Global};

/// The node with that number, at its legs.
fn node_at<F: Fabric>(
    alloc: Global,
    bundle: &Bundle,
    paths: &Paths,
    number: usize,
    outs: Vec<OutLeg<F>>,
    ins: Vec<InLeg<F>>,
) -> Result<Member<F>, AllocError>
    requires paths { paths.now ≡ paths_of (network_of bundle.now) }
    requires number { number < node_count (network_of bundle.now) }
    requires legs { AreLegsAt F.Tx.TxEnd F.Rx.RxEnd (network_of bundle.now) number outs.items ins.items }
    ensures made { IfOk result (λ node. IsMadeAt F.Tx.TxEnd F.Rx.RxEnd (network_of bundle.now) number outs.items ins.items node) }
{
    let hosts = bundle.hosts.len();
    let routers = bundle.routers.len();
    if number < hosts {
        host_at(alloc, bundle, number as u8, outs)
    } else if number < hosts + routers {
        router_at(alloc, bundle, paths, (number - hosts) as u8, outs, ins)
    } else {
        device_at(alloc, bundle, (number - hosts - routers) as u8, ins)
    }
}

/// All nodes of a network, in the order of their numbers.
///
/// # Errors
///
/// `AllocError` where there isn't enough memory; then the legs are dropped.
pub fn nodes_at<F: Fabric>(
    alloc: Global,
    bundle: &Bundle,
    paths: &Paths,
    dealt: Dealt<F>,
) -> Result<Vec<Member<F>>, AllocError>
    requires paths { paths.now ≡ paths_of (network_of bundle.now) }
    requires dealt { AreDealt F.Tx.TxEnd F.Rx.RxEnd (network_of bundle.now) (length (network_of bundle.now).links)
        (piles_of dealt.outs.items) (piles_of dealt.ins.items) }
    ensures made { IfOk result (λ nodes. AreMadeAt F.Tx.TxEnd F.Rx.RxEnd (network_of bundle.now) (node_count (network_of bundle.now))
        (piles_of dealt.outs.items) (piles_of dealt.ins.items) nodes.items) }
{
    let mut nodes = Vec::new(alloc);
    let mut outs = dealt.outs.into_iter();
    let mut ins = dealt.ins.into_iter();
    let count = outs.len();
    for number in 0..count {
        let Some(out) = outs.next() else {
            unreachable!()
        };
        let Some(into) = ins.next() else {
            unreachable!()
        };
        let node = node_at(alloc, bundle, paths, number, out, into)?;
        nodes.push(node)?;
    }
    Ok(nodes)
}
