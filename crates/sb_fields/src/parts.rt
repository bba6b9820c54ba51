//! One reader for the lists of a bundle's objects.

ghost use Rattle.std.specs.Prelude.{◌≡◌, ◌≢◌, ℕ, List, [], codes, Result, map, IfOk, IfErr, Ok, Err};
ghost use Rattle.serde_json.specs.Data.{Data};
ghost use Rattle.serde_json.specs.View.{view, items_view, members_view};
ghost use Rattle.serde_json.specs.Find.{as_array, as_object};
ghost use Rattle.sb_fields.specs.declared.fault.LoadFault.{LoadFault as AnyFault};
ghost use Rattle.sb_fields.specs.declared.fault.LoadFault.TheVariants as faults;
ghost use Rattle.sb_fields.specs.Paths.{item_of};
ghost use Rattle.sb_fields.specs.Fields.{required};
ghost use Rattle.sb_fields.specs.FieldLists.{items_by, list_of, routes_by, routes_of as routes_in, text_item};
ghost use Rattle.sb_fields.specs.Held.{written_route};

use crate::fault::LoadFault;
use crate::paths::{field_fault, item_fault, item_path, member_path};
use crate::texts::RouteText;
use serde_json::{Map, Value};
use std::alloc::Global;

/// What stands in a list of a bundle.
pub trait Part<'v>: Drop {
    // what a part is, as its text writes it
    ghost Written: { Type 0 };

    ghost written: { Self → Written };

    // what the value at a path writes, or its first fault
    ghost reads: { List ℕ → Data → Result Written AnyFault };

    fn read(alloc: Global, at: &str, value: &'v Value) -> Result<Self, LoadFault>
        ensures ok { IfOk result (λ part. reads at.now (view value.now) ≡ Ok (written part)) }
        ensures err { IfErr result (λ fault. fault ≢ faults.Memory → (reads at.now (view value.now) ≡ Err fault)) };
}

/// A list that has to be there.
#[tactic(auto, unfolding(crate::specs::Fields::required))]
fn list<'v>(
    alloc: Global,
    at: &str,
    name: &str,
    object: &'v Value,
) -> Result<&'v Vec<Value>, LoadFault>
    ensures ok { IfOk result (λ list. required as_array at.now name.now (view object.now)
        ≡ Ok (items_view list.now.items)) }
    ensures err { IfErr result (λ fault. fault ≢ faults.Memory
        → (required as_array at.now name.now (view object.now) ≡ Err fault)) }
{
    match object.get(name).and_then(Value::as_array) {
        Some(list) => Ok(list),
        None => Err(field_fault(alloc, at, name)),
    }
}

/// The items of the list at a path.
fn parts<'v, T: Part<'v>>(alloc: Global, at: &str, values: &'v [Value]) -> Result<Vec<T>, LoadFault>
    ensures ok { IfOk result (λ found. items_by T.Part.reads at.now 0 [] (items_view values.now)
        ≡ Ok (map T.Part.written found.items)) }
    ensures err { IfErr result (λ fault. fault ≢ faults.Memory
        → (items_by T.Part.reads at.now 0 [] (items_view values.now) ≡ Err fault)) }
{
    let mut found = Vec::new(alloc);
    for (number, value) in values.iter().enumerate() {
        let Ok(path) = item_path(alloc, at, number) else {
            return Err(LoadFault::Memory);
        };
        let part = T::read(alloc, path.as_str(), value)?;
        match found.push(part) {
            Ok(()) => {}
            Err(_) => return Err(LoadFault::Memory),
        }
    }
    Ok(found)
}

/// The items of the list at a member.
#[tactic(auto, unfolding(crate::specs::FieldLists::list_of))]
pub fn listed<'v, T: Part<'v>>(
    alloc: Global,
    at: &str,
    name: &str,
    object: &'v Value,
) -> Result<Vec<T>, LoadFault>
    ensures ok { IfOk result (λ found. list_of T.Part.reads at.now name.now (view object.now)
        ≡ Ok (map T.Part.written found.items)) }
    ensures err { IfErr result (λ fault. fault ≢ faults.Memory
        → (list_of T.Part.reads at.now name.now (view object.now) ≡ Err fault)) }
{
    let values = list(alloc, at, name, object)?;
    match member_path(alloc, at, name) {
        Ok(path) => parts(alloc, path.as_str(), values.as_slice()),
        Err(_) => Err(LoadFault::Memory),
    }
}

/// An item that is a text. Its path is made only where it is none.
fn text_at<'v>(
    alloc: Global,
    at: &str,
    number: usize,
    value: &'v Value,
) -> Result<&'v str, LoadFault>
    ensures ok { IfOk result (λ text. text_item (item_of at.now number) (view value.now) ≡ Ok text.now) }
    ensures err { IfErr result (λ fault. fault ≢ faults.Memory
        → (text_item (item_of at.now number) (view value.now) ≡ Err fault)) }
{
    match value.as_str() {
        Some(text) => Ok(text),
        None => Err(item_fault(alloc, at, number)),
    }
}

/// The texts of the list at a path.
fn text_items<'v>(alloc: Global, at: &str, values: &'v [Value]) -> Result<Vec<&'v str>, LoadFault>
    ensures ok { IfOk result (λ texts. items_by text_item at.now 0 [] (items_view values.now)
        ≡ Ok (map (λ text. text.now) texts.items)) }
    ensures err { IfErr result (λ fault. fault ≢ faults.Memory
        → (items_by text_item at.now 0 [] (items_view values.now) ≡ Err fault)) }
{
    let Ok(mut texts) = Vec::with_capacity(alloc, values.len()) else {
        return Err(LoadFault::Memory);
    };
    for (number, value) in values.iter().enumerate() {
        let text = text_at(alloc, at, number, value)?;
        match texts.push(text) {
            Ok(()) => {}
            Err(_) => return Err(LoadFault::Memory),
        }
    }
    Ok(texts)
}

/// The texts of the list at a member.
#[tactic(auto, unfolding(crate::specs::FieldLists::list_of))]
pub fn texts<'v>(
    alloc: Global,
    at: &str,
    name: &str,
    object: &'v Value,
) -> Result<Vec<&'v str>, LoadFault>
    ensures ok { IfOk result (λ texts. list_of text_item at.now name.now (view object.now)
        ≡ Ok (map (λ text. text.now) texts.items)) }
    ensures err { IfErr result (λ fault. fault ≢ faults.Memory
        → (list_of text_item at.now name.now (view object.now) ≡ Err fault)) }
{
    let values = list(alloc, at, name, object)?;
    match member_path(alloc, at, name) {
        Ok(path) => text_items(alloc, path.as_str(), values.as_slice()),
        Err(_) => Err(LoadFault::Memory),
    }
}

/// The members of the object of routes at a path.
fn route_texts<'v>(
    alloc: Global,
    at: &str,
    object: &'v Map<String, Value>,
) -> Result<Vec<RouteText<'v>>, LoadFault>
    ensures ok { IfOk result (λ routes. routes_by at.now [] (members_view object.now.entries)
        ≡ Ok (map written_route routes.items)) }
    ensures err { IfErr result (λ fault. fault ≢ faults.Memory
        → (routes_by at.now [] (members_view object.now.entries) ≡ Err fault)) }
{
    let mut found = Vec::new(alloc);
    for (name, value) in object.iter() {
        let device = name.as_str();
        let Some(link) = value.as_str() else {
            return Err(field_fault(alloc, at, device));
        };
        match found.push(RouteText { device, link }) {
            Ok(()) => {}
            Err(_) => return Err(LoadFault::Memory),
        }
    }
    Ok(found)
}

/// An object that has to be there, at `routes`.
#[tactic(auto, unfolding(crate::specs::Fields::required))]
fn routes_object<'v>(
    alloc: Global,
    at: &str,
    object: &'v Value,
) -> Result<&'v Map<String, Value>, LoadFault>
    ensures ok { IfOk result (λ routes. required as_object at.now (codes "routes") (view object.now)
        ≡ Ok (members_view routes.now.entries)) }
    ensures err { IfErr result (λ fault. fault ≢ faults.Memory
        → (required as_object at.now (codes "routes") (view object.now) ≡ Err fault)) }
{
    match object.get("routes").and_then(Value::as_object) {
        Some(routes) => Ok(routes),
        None => Err(field_fault(alloc, at, "routes")),
    }
}

/// The routes of the router at a path.
#[tactic(auto, unfolding(crate::specs::FieldLists::routes_of))]
pub fn routes<'v>(
    alloc: Global,
    at: &str,
    object: &'v Value,
) -> Result<Vec<RouteText<'v>>, LoadFault>
    ensures ok { IfOk result (λ routes. routes_in at.now (view object.now) ≡ Ok (map written_route routes.items)) }
    ensures err { IfErr result (λ fault. fault ≢ faults.Memory → (routes_in at.now (view object.now) ≡ Err fault)) }
{
    let members = routes_object(alloc, at, object)?;
    match member_path(alloc, at, "routes") {
        Ok(path) => route_texts(alloc, path.as_str(), members),
        Err(_) => Err(LoadFault::Memory),
    }
}
