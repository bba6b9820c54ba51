//! The names of the things in a list.

ghost use Rattle.std.specs.Prelude.{◌≡◌, ◌≢◌, ◌≤◌, ℕ, List, length, map, vec_len, IfOk, IfErr};
ghost use Rattle.sb_fields.specs.Written.{WrittenDevice, WrittenHost, WrittenLink, WrittenRouter};
ghost use Rattle.sb_fields.specs.Counted.{counted_device, counted_host, counted_link, counted_router};
ghost use Rattle.sb_topology.specs.Held.{given_names as given_of};
ghost use Rattle.sb_topology.specs.Names.{names_of};
ghost use Rattle.sb_fields.specs.Counted.{counted_bundle};

use crate::name_lists::NameLists;
use sb_fields::{CountedBundle, CountedDevice, CountedHost, CountedLink, CountedRouter};
use std::alloc::{AllocError, Global};

/// What has a name.
pub trait Named<'v> {
    // what it is as its text writes it, and the name of that
    ghost Written: { Type 0 };

    ghost written: { Self → Written };

    ghost name_of: { Written → List ℕ };

    fn name(&self) -> &'v str
        ensures { result.now ≡ name_of (written self.now) };
}

impl<'v> Named<'v> for CountedHost<'v> {
    ghost Written = { WrittenHost };

    ghost written = { counted_host };

    ghost name_of = { λ h. h.name };

    fn name(&self) -> &'v str {
        self.name
    }
}

impl<'v> Named<'v> for CountedRouter<'v> {
    ghost Written = { WrittenRouter };

    ghost written = { counted_router };

    ghost name_of = { λ r. r.name };

    fn name(&self) -> &'v str {
        self.name
    }
}

impl<'v> Named<'v> for CountedDevice<'v> {
    ghost Written = { WrittenDevice };

    ghost written = { counted_device };

    ghost name_of = { λ d. d.name };

    fn name(&self) -> &'v str {
        self.name
    }
}

impl<'v> Named<'v> for CountedLink<'v> {
    ghost Written = { WrittenLink };

    ghost written = { counted_link };

    ghost name_of = { λ l. l.name };

    fn name(&self) -> &'v str {
        self.name
    }
}

/// The names of some things, in order.
fn names<'v, T: Named<'v>>(alloc: Global, things: &[T]) -> Result<Vec<&'v str>, AllocError>
    ensures names { IfOk result (λ names. map (λ name. name.now) names.items
        ≡ map T.Named.name_of (map T.Named.written things.now)) }
    ensures many { IfOk result (λ names. vec_len names ≡ length things.now) }
{
    let mut names = Vec::new(alloc);
    for thing in things {
        names.push(thing.name())?;
    }
    Ok(names)
}

/// The names that a bundle gives.
pub fn given_names<'v>(
    alloc: Global,
    bundle: &CountedBundle<'v>,
) -> Result<NameLists<'v>, AllocError>
    ensures names { IfOk result (λ names. given_of names ≡ names_of (counted_bundle bundle.now)) }
    ensures hosts { IfOk result (λ names. vec_len names.hosts ≡ vec_len bundle.now.hosts) }
    ensures routers { IfOk result (λ names. vec_len names.routers ≡ vec_len bundle.now.routers) }
    ensures devices { IfOk result (λ names. vec_len names.devices ≡ vec_len bundle.now.devices) }
    ensures links { IfOk result (λ names. vec_len names.links ≡ vec_len bundle.now.links) }
{
    let hosts = names(alloc, bundle.hosts.as_slice())?;
    let routers = names(alloc, bundle.routers.as_slice())?;
    let devices = names(alloc, bundle.devices.as_slice())?;
    let links = names(alloc, bundle.links.as_slice())?;
    Ok(NameLists {
        hosts,
        routers,
        devices,
        links,
    })
}
