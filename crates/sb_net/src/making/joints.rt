//! Where the rings of a network stand.

ghost use Rattle.std.specs.Prelude.{◌≡◌, length, map, IfOk};
ghost use Rattle.std.specs.List.{range_with_len};
ghost use Rattle.sb_flow.specs.NetworkOf.{network_of};
ghost use Rattle.sb_net.specs.Legs.{AreDealt, network_joints, piles_of, request_joint};

use super::dealing::Dealt;
use sb_flow::Bundle;
use sb_link::Fabric;
use sb_member::Joint;
use std::alloc::{AllocError, Global};

/// Where all rings of a network stand, in the order of their numbers.
///
/// # Errors
///
/// `AllocError` where there isn't enough memory.
pub fn joints_of<F: Fabric>(
    alloc: Global,
    bundle: &Bundle,
    dealt: &Dealt<F>,
) -> Result<Vec<Joint>, AllocError>
    requires dealt { AreDealt F.Tx.TxEnd F.Rx.RxEnd (network_of bundle.now) (length (network_of bundle.now).links)
        (piles_of dealt.now.outs.items) (piles_of dealt.now.ins.items) }
    requires seats { dealt.now.seats.items
        ≡ map (request_joint (network_of bundle.now)) (range_with_len 0 (length (network_of bundle.now).links)) }
    ensures joints { IfOk result (λ joints. joints.items ≡ network_joints (network_of bundle.now)) }
{
    let mut joints = Vec::new(alloc);
    for link in 0..bundle.links.len() {
        let seat = dealt.seats[link];
        joints.push(seat)?;
        joints.push(Joint {
            from: seat.to,
            out: dealt.outs[seat.to].len() + seat.into,
            to: seat.from,
            into: dealt.ins[seat.from].len() + seat.out,
        })?;
    }
    Ok(joints)
}
