//! The legs of all links, dealt to the nodes.

ghost use Rattle.std.specs.Prelude.{◌≡◌, ℕ, ◌+◌, ◌*◌, ◌<◌, ◌++◌, [], ◌∷◌, false, length, map, set, IfOk};
ghost use Rattle.std.specs.List.{range_with_len};
ghost use Rattle.sb_flow.specs.NetworkOf.{network_of};
ghost use Rattle.sb_flow.specs.Rows.{place_of};
ghost use Rattle.sb_flow.specs.Tables.{paths_of};
ghost use Rattle.sb_laws.specs.NetworkLayouts.{ring_count};
ghost use Rattle.sb_net.specs.Legs.{AreDealt, first_plans, pile_at, piles_of, place_number, request_joint};
ghost use Rattle.sb_net.specs.Standing.{node_count};

use super::legs::make_legs;
use sb_flow::{Bundle, Paths, Place};
use sb_link::Fabric;
use sb_member::Joint;
use sb_port::{InLeg, OutLeg};
use std::alloc::{AllocError, Global};

/// The legs of a network's links, in a pile for each node, and where the ring of requests of each link stands.
#[derive(Drop)]
pub struct Dealt<F: Fabric> {
    pub outs: Vec<Vec<OutLeg<F>>>,
    pub ins: Vec<Vec<InLeg<F>>>,
    pub seats: Vec<Joint>,
}

/// The number of the node that is an end of a link.
fn number_of(bundle: &Bundle, place: Place) -> usize
    requires there { place_number (network_of bundle.now) (place_of place) < node_count (network_of bundle.now) }
    ensures number { result ≡ place_number (network_of bundle.now) (place_of place) }
{
    match place {
        Place::Host(host) => usize::from(host),
        Place::Router(router) => bundle.hosts.len() + usize::from(router),
        Place::Device(device) => bundle.hosts.len() + bundle.routers.len() + usize::from(device),
    }
}

/// How many nodes there are.
fn count_nodes(bundle: &Bundle) -> usize
    ensures count { result ≡ node_count (network_of bundle.now) }
{
    bundle.hosts.len() + bundle.routers.len() + bundle.devices.len()
}

/// So many empty piles.
fn empty_piles<A: Drop>(alloc: Global, count: usize) -> Result<Vec<Vec<A>>, AllocError>
    ensures count { IfOk result (λ piles. length piles.items ≡ count) }
    ensures empty { IfOk result (λ piles. (m : ℕ) → pile_at (piles_of piles.items) m ≡ []) }
{
    let mut piles = Vec::new(alloc);
    for _ in 0..count {
        piles.push(Vec::new(alloc))?;
    }
    Ok(piles)
}

/// Puts a thing onto a node's pile, and gives its place there.
fn deal<A: Drop>(piles: &mut Vec<Vec<A>>, node: usize, thing: A) -> Result<usize, AllocError>
    requires within { node < length piles.old.items }
    ensures place { IfOk result (λ place. place ≡ length (pile_at (piles_of piles.old.items) node)) }
    ensures dealt { IfOk result (λ place. piles_of piles.new.items
        ≡ set (piles_of piles.old.items) node (pile_at (piles_of piles.old.items) node ++ thing ∷ [])) }
{
    let pile = &mut piles[node];
    let place = pile.len();
    pile.push(thing)?;
    Ok(place)
}

/// Makes the legs of the next link, and deals them to its nodes.
fn deal_link<F: Fabric>(
    alloc: Global,
    fabric: &mut F,
    bundle: &Bundle,
    paths: &Paths,
    link: u8,
    dealt: &mut Dealt<F>,
) -> Result<(), AllocError>
    requires paths { paths.now ≡ paths_of (network_of bundle.now) }
    requires link { link < length (network_of bundle.now).links }
    requires made { F.made fabric.old ≡ first_plans (network_of bundle.now) (2 * link) }
    requires unsettled { (ring : ℕ) → ring < 2 * link → F.settled fabric.old ring ≡ false }
    requires dealt { AreDealt F.Tx.TxEnd F.Rx.RxEnd (network_of bundle.now) link
        (piles_of dealt.old.outs.items) (piles_of dealt.old.ins.items) }
    requires seats { dealt.old.seats.items ≡ map (request_joint (network_of bundle.now)) (range_with_len 0 link) }
    ensures made { IfOk result (λ _. F.made fabric.new ≡ first_plans (network_of bundle.now) (2 * link + 2)) }
    ensures unsettled { IfOk result (λ _. (ring : ℕ) → ring < 2 * link + 2 → F.settled fabric.new ring ≡ false) }
    ensures carried { (ring : ℕ) → F.carried fabric.new ring ≡ F.carried fabric.old ring }
    ensures dealt { IfOk result (λ _. AreDealt F.Tx.TxEnd F.Rx.RxEnd (network_of bundle.now) (link + 1)
        (piles_of dealt.new.outs.items) (piles_of dealt.new.ins.items)) }
    ensures seats { IfOk result (λ _. dealt.new.seats.items ≡ map (request_joint (network_of bundle.now)) (range_with_len 0 (link + 1))) }
{
    let (out_leg, in_leg) = make_legs(alloc, fabric, bundle, paths, link)?;
    let row = &bundle.links[usize::from(link)];
    let from = number_of(bundle, row.from);
    let to = number_of(bundle, row.to);
    let out = deal(&mut dealt.outs, from, out_leg)?;
    let into = deal(&mut dealt.ins, to, in_leg)?;
    dealt.seats.push(Joint {
        from,
        out,
        to,
        into,
    })?;
    Ok(())
}

/// Makes the legs of all links, and deals them to the nodes.
///
/// # Errors
///
/// `AllocError` where there isn't enough memory; then what was made is dropped.
pub fn deal_links<F: Fabric>(
    alloc: Global,
    fabric: &mut F,
    bundle: &Bundle,
    paths: &Paths,
) -> Result<Dealt<F>, AllocError>
    requires paths { paths.now ≡ paths_of (network_of bundle.now) }
    requires made { F.made fabric.old ≡ [] }
    ensures made { IfOk result (λ _. F.made fabric.new ≡ first_plans (network_of bundle.now) (ring_count (network_of bundle.now))) }
    ensures unsettled { IfOk result (λ _. (ring : ℕ) → ring < ring_count (network_of bundle.now) → F.settled fabric.new ring ≡ false) }
    ensures carried { (ring : ℕ) → F.carried fabric.new ring ≡ F.carried fabric.old ring }
    ensures dealt { IfOk result (λ dealt. AreDealt F.Tx.TxEnd F.Rx.RxEnd (network_of bundle.now) (length (network_of bundle.now).links)
        (piles_of dealt.outs.items) (piles_of dealt.ins.items)) }
    ensures seats { IfOk result (λ dealt. dealt.seats.items
        ≡ map (request_joint (network_of bundle.now)) (range_with_len 0 (length (network_of bundle.now).links))) }
{
    let count = count_nodes(bundle);
    let mut dealt = Dealt {
        outs: empty_piles(alloc, count)?,
        ins: empty_piles(alloc, count)?,
        seats: Vec::new(alloc),
    };
    for link in 0..bundle.links.len() {
        deal_link(alloc, fabric, bundle, paths, link as u8, &mut dealt)?;
    }
    Ok(dealt)
}
