//! The widths of links.

ghost use Rattle.std.specs.Prelude.{◌≡◌, ◌≢◌, ◌≤◌, ◌<◌, length, map, not, vec_len, IfOk, IfErr, Ok, Err, None};
ghost use Rattle.std.specs.Bool.{OnTrue};
ghost use Rattle.std.specs.List.{position_from};
ghost use Rattle.sb_flow.specs.Ends.{is_link_width, odd_width};
ghost use Rattle.sb_flow.specs.Rows.{link_of};
ghost use Rattle.sb_fields.specs.declared.fault.LoadFault.TheVariants as faults;
ghost use Rattle.sb_topology.specs.Held.{draft_link, draft_network, plan_network};
ghost use Rattle.sb_topology.specs.Tests.{unless_found};

use crate::link_draft::LinkDraft;
use crate::plan::{Draft, Plan};
use sb_fields::LoadFault;
use sb_flow::LinkRow;
use std::alloc::Global;

/// A link may have that width.
#[tactic(auto, using(crate::proofs::SmallWidths::widths_are_small))]
fn is_width(width: u64) -> bool
    ensures test { result ≡ is_link_width width }
    ensures narrow { OnTrue result (width < 256) }
{
    width == 8 || width == 16 || width == 32
}

/// A link with its width.
fn link_row(link: &LinkDraft) -> LinkRow
    requires { link.now.width < 256 }
    ensures { link_of result ≡ draft_link link.now }
{
    LinkRow {
        name: link.name,
        from: link.from,
        to: link.to,
        width: link.width as u8,
        capacity: link.capacity,
    }
}

/// Links, if all of them have a width that links may have.
#[tactic(auto, unfolding(crate::specs::Tests::unless_found))]
fn link_rows(alloc: Global, links: &[LinkDraft]) -> Result<Vec<LinkRow>, LoadFault>
    requires { length links.now ≤ 128 }
    ensures widths { IfOk result (λ rows. position_from (λ l. not (is_link_width l.width)) 0 (map draft_link links.now)
        ≡ None) }
    ensures rows { IfOk result (λ rows. map link_of rows.items ≡ map draft_link links.now) }
    ensures err { IfErr result (λ fault. fault ≢ faults.Memory
        → (unless_found faults.Width (position_from (λ l. not (is_link_width l.width)) 0 (map draft_link links.now))
        ≡ Err fault)) }
{
    let mut rows = Vec::new(alloc);
    for (number, link) in links.iter().enumerate() {
        if !is_width(link.width) {
            return Err(LoadFault::Width { link: number as u8 });
        }
        match rows.push(link_row(link)) {
            Ok(()) => {}
            Err(_) => return Err(LoadFault::Memory),
        }
    }
    Ok(rows)
}

/// A network whose links have widths that links may have; `Width` is the one error but `Memory`.
#[tactic(auto, unfolding(crate::specs::Tests::unless_found))]
pub fn sized_plan(alloc: Global, draft: Draft<'_>) -> Result<Plan<'_>, LoadFault>
    ensures network { IfOk result (λ plan. plan_network plan ≡ draft_network draft.entry) }
    ensures hosts { IfOk result (λ plan. plan.hosts ≡ draft.entry.hosts) }
    ensures devices { IfOk result (λ plan. plan.devices ≡ draft.entry.devices) }
    ensures ok { IfOk result (λ plan. unless_found faults.Width (odd_width (draft_network draft.entry)) ≡ Ok tt) }
    ensures err { IfErr result (λ fault. fault ≢ faults.Memory
        → (unless_found faults.Width (odd_width (draft_network draft.entry)) ≡ Err fault)) }
{
    match link_rows(alloc, draft.links.as_slice()) {
        Ok(links) => Ok(Plan {
            hosts: draft.hosts,
            routers: draft.routers,
            devices: draft.devices,
            links,
            wire: draft.wire,
        }),
        Err(fault) => Err(fault),
    }
}
