//! New names, and places among names.

ghost use Rattle.std.specs.Prelude.{◌≡◌, ◌≢◌, ◌<◌, ◌&&◌, codes, length, map, not, IfOk, IfErr, IfSome, Ok, Err, Some, None, if◌then◌else◌};
ghost use Rattle.sb_packet.specs.Names.{is_name};
ghost use Rattle.sb_fields.specs.declared.fault.LoadFault.TheVariants as faults;
ghost use Rattle.sb_fields.specs.Paths.{item_of, member_of};
ghost use Rattle.sb_topology.specs.Names.{is_among as is_among_by, new_name as new_name_by, place_among as place_among_by};

use sb_fields::{LoadFault, item_path, name_fault};
use sb_packet::Name;
use std::alloc::Global;

/// The place of a name among others.
#[tactic(auto, unfolding(crate::specs::Names::place_among))]
pub fn place_among(names: &[&str], name: &str) -> Option<usize>
    ensures place { result ≡ place_among_by (map (λ n. n.now) names.now) name.now }
    ensures there { IfSome result (λ place. place < length names.now) }
{
    for (place, other) in names.iter().enumerate() {
        if name == *other {
            return Some(place);
        }
    }
    None
}

/// A name is one of some names.
pub fn is_among(names: &[&str], name: &str) -> bool
    ensures { result ≡ is_among_by (map (λ n. n.now) names.now) name.now }
{
    place_among(names, name).is_some()
}

/// A text as a name, if it is one and none of some earlier ones.
fn made_name(earlier: &[&str], text: &str) -> Option<Name>
    ensures { result ≡ (if is_name text.now && not (is_among_by (map
        (λ n. n.now) earlier.now) text.now) then Some text.now else None) }
{
    let name = Name::new(text.as_bytes())?;
    if is_among(earlier, text) {
        None
    } else {
        Some(name)
    }
}

/// `Name` at a member of an item of a list, or want of memory.
pub fn item_name_fault(alloc: Global, list: &str, number: usize, field: &str) -> LoadFault
    ensures { result ≢ faults.Memory → (result ≡ faults.Name (member_of (item_of list.now number) field.now)) }
{
    match item_path(alloc, list, number) {
        Ok(path) => name_fault(alloc, path.as_str(), field),
        Err(_) => LoadFault::Memory,
    }
}

/// The name of an item of a list, if it is one and none of some earlier ones.
#[tactic(auto, unfolding(crate::specs::Names::new_name))]
pub fn new_name(
    alloc: Global,
    list: &str,
    number: usize,
    earlier: &[&str],
    text: &str,
) -> Result<Name, LoadFault>
    ensures ok { IfOk result (λ name. new_name_by (item_of list.now number) (map (λ n. n.now) earlier.now) text.now
        ≡ Ok tt) }
    ensures name { IfOk result (λ name. name ≡ text.now) }
    ensures err { IfErr result (λ fault. fault ≢ faults.Memory
        → (new_name_by (item_of list.now number) (map (λ n. n.now) earlier.now) text.now ≡ Err fault)) }
{
    match made_name(earlier, text) {
        Some(name) => Ok(name),
        None => Err(item_name_fault(alloc, list, number, "name")),
    }
}
