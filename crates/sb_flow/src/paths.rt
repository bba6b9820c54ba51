//! By which links packets go, and what each ring is made for.

ghost use Rattle.std.specs.Prelude.{◌≡◌, option_copied, option_map, IfOk, IsSome, if◌then◌else◌};
ghost use Rattle.std.specs.List.{find};
ghost use Rattle.sb_flow.specs.Ways.{is_some_number, link_down, link_up};
ghost use Rattle.sb_flow.specs.Rings.{is_upward, ring_link, ring_plan};
ghost use Rattle.sb_link.specs.PlanOf.{plan_of};
ghost use Rattle.sb_flow.specs.NetworkOf.{network_of};
ghost use Rattle.sb_flow.specs.Tables.{paths_of};
ghost use Rattle.sb_flow.specs.declared.bundle.Bundle.{Bundle as AnyBundle};

use crate::bundle::Bundle;
use crate::gather::loads;
use crate::host_paths::{HostPaths, all_paths, legs_of};
use crate::leg::Leg;
use crate::load::Load;
use crate::ranges::flows;
use crate::walk::is_number;
use sb_link::LinkPlan;
use std::alloc::{AllocError, Global};
use std::marker::Model;

/// The first of some legs that leaves a router.
fn leg_from(legs: &[Leg], router: u8) -> Option<&Leg>
    ensures { option_copied result ≡ find (λ leg. is_some_number router leg.from) legs.now }
{
    legs.iter().find(|leg| is_number(leg.from, router))
}

/// The first of some legs that leads to a router.
fn leg_to(legs: &[Leg], router: u8) -> Option<&Leg>
    ensures { option_copied result ≡ find (λ leg. is_some_number router leg.to) legs.now }
{
    legs.iter().find(|leg| is_number(leg.to, router))
}

/// The link of the leg that leaves a router.
fn link_from(legs: &[Leg], router: u8) -> Option<u8>
    ensures { result ≡ option_map (λ leg. leg.link) (find (λ leg. is_some_number router leg.from) legs.now) }
{
    let leg = leg_from(legs, router)?;
    Some(leg.link)
}

/// The link of the leg that leads to a router.
fn link_to(legs: &[Leg], router: u8) -> Option<u8>
    ensures { result ≡ option_map (λ leg. leg.link) (find (λ leg. is_some_number router leg.to) legs.now) }
{
    let leg = leg_to(legs, router)?;
    Some(leg.link)
}

/// The link whose ring it is.
fn link_of(bundle: &Bundle, ring: u16) -> Option<u8>
    ensures { result ≡ ring_link (network_of bundle.now) ring }
{
    let link = usize::from(ring / 2);
    if link < bundle.links.len() {
        Some(link as u8)
    } else if link == bundle.links.len() {
        bundle.wire
    } else {
        None
    }
}

/// A ring carries answers.
fn is_up(ring: u16) -> bool
    ensures { result ≡ is_upward ring }
{
    ring % 2 == 1
}

/// The words over a link, where requests go or where answers go.
fn budget(load: &Load, up: bool) -> u32
    ensures { result ≡ (if up then load.now.answers else load.now.requests) }
{
    if up { load.answers } else { load.requests }
}

/// The ways of all flows of a bundle. Contracts see them as a table that the bundle's network determines.
#[derive(Drop)]
pub struct Paths {
    hosts: Vec<HostPaths>,
    links: Vec<Load>,
}

impl Model for Paths {
    ghost use Rattle.std.specs.Prelude.{map};
    ghost use Rattle.sb_flow.specs.Tables.{PathTable};
    ghost use Rattle.sb_flow.specs.Gathered.{load_of};

    ghost Value = { PathTable };

    ghost view = { λ p. record { hosts = p.hosts.items; links = map load_of p.links.items } };
}

impl Paths {
    /// Follows the routes of each host to each device that its script aims at.
    pub fn new(alloc: Global, bundle: &Bundle) -> Result<Paths, AllocError>
        ensures { IfOk result (λ paths. paths ≡ paths_of (network_of bundle.now)) }
    {
        let hosts = all_paths(alloc, bundle)?;
        let links = loads(alloc, &hosts, bundle.links.len())?;
        Ok(Paths { hosts, links })
    }

    /// The link by which the flow of a host, named by its id, to a device leaves a router towards the device. None
    /// exactly where the flow doesn't pass this router. It takes no memory.
    pub fn down(&self, router: u8, host: u8, device: u8) -> Option<u8>
        ensures { (bundle : AnyBundle) → self.now ≡ paths_of (network_of bundle)
            → result ≡ link_down (network_of bundle) router (record { host = host; device = device }) }
    {
        link_from(legs_of(&self.hosts, host, device), router)
    }

    /// The link by which this flow leaves the router towards the host.
    pub fn up(&self, router: u8, host: u8, device: u8) -> Option<u8>
        ensures { (bundle : AnyBundle) → self.now ≡ paths_of (network_of bundle)
            → result ≡ link_up (network_of bundle) router (record { host = host; device = device }) }
    {
        link_to(legs_of(&self.hosts, host, device), router)
    }

    /// What a ring is made for. The paths are those of the bundle. Link `k` has ring `2k` for requests and ring
    /// `2k + 1` for answers; with `n` links, the far ends of the wire have rings `2n` and `2n + 1`. It takes no memory.
    pub fn plan(&self, bundle: &Bundle, ring: u16) -> LinkPlan
        requires made { self.now ≡ paths_of (network_of bundle.now) }
        requires there { IsSome (ring_link (network_of bundle.now) ring) }
        ensures { plan_of result ≡ ring_plan (network_of bundle.now) ring }
    {
        let Some(link) = link_of(bundle, ring) else {
            unreachable!()
        };
        let row = &bundle.links[usize::from(link)];
        let load = &self.links[usize::from(link)];
        let up = is_up(ring);
        LinkPlan {
            ring,
            up,
            width: row.width,
            capacity: row.capacity,
            budget: budget(load, up),
            flows: flows(bundle, load.through),
        }
    }
}
