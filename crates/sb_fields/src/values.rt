//! The fields of an object, one by one.

ghost use Rattle.std.specs.Prelude.{◌≡◌, ◌≢◌, map, string_bytes, bytes_eq, IfOk, IfErr, Ok, Err, option_map};
ghost use Rattle.std.specs.List.{list_any};
ghost use Rattle.std.specs.Result.{result_ok};
ghost use Rattle.hex.specs.Hex.{decode_of};
ghost use Rattle.serde_json.specs.View.{view, items_view, members_view};
ghost use Rattle.serde_json.specs.Find.{as_array, as_bool, as_object, as_str};
ghost use Rattle.sb_fields.specs.declared.fault.LoadFault.TheVariants as faults;
ghost use Rattle.sb_fields.specs.Fields.{an_object as an_object_by, bytes_in, first_unknown as first_unknown_by, number_in, numeral_in, only_fields as only_fields_by, optional, required};

use crate::fault::LoadFault;
use crate::paths::{field_fault, whole_fault};
use hex::FromHexError;
use sb_text::numeral;
use serde_json::{Map, Value};
use std::alloc::Global;

/// A value that is an object.
#[tactic(auto, unfolding(crate::specs::Fields::an_object))]
pub fn an_object<'v>(
    alloc: Global,
    at: &str,
    value: &'v Value,
) -> Result<&'v Map<String, Value>, LoadFault>
    ensures ok { IfOk result (λ object. an_object_by at.now (view value.now) ≡ Ok (members_view object.now.entries)) }
    ensures err { IfErr result (λ fault. fault ≢ faults.Memory → (an_object_by at.now (view value.now) ≡ Err fault)) }
{
    match value.as_object() {
        Some(object) => Ok(object),
        None => Err(whole_fault(alloc, at)),
    }
}

/// A text that has to be there.
#[tactic(auto, unfolding(crate::specs::Fields::required))]
pub fn text<'v>(
    alloc: Global,
    at: &str,
    name: &str,
    object: &'v Value,
) -> Result<&'v str, LoadFault>
    ensures ok { IfOk result (λ text. required as_str at.now name.now (view object.now) ≡ Ok text.now) }
    ensures err { IfErr result (λ fault. fault ≢ faults.Memory
        → (required as_str at.now name.now (view object.now) ≡ Err fault)) }
{
    match object.get(name).and_then(Value::as_str) {
        Some(text) => Ok(text),
        None => Err(field_fault(alloc, at, name)),
    }
}

/// A text that may be missing.
#[tactic(auto, unfolding(crate::specs::Fields::optional))]
pub fn optional_text<'v>(
    alloc: Global,
    at: &str,
    name: &str,
    object: &'v Value,
) -> Result<Option<&'v str>, LoadFault>
    ensures ok { IfOk result (λ found. optional as_str at.now name.now (view object.now)
        ≡ Ok (option_map (λ text. text.now) found)) }
    ensures err { IfErr result (λ fault. fault ≢ faults.Memory
        → (optional as_str at.now name.now (view object.now) ≡ Err fault)) }
{
    let Some(value) = object.get(name) else {
        return Ok(None);
    };
    match value.as_str() {
        Some(text) => Ok(Some(text)),
        None => Err(field_fault(alloc, at, name)),
    }
}

/// A whole number that has to be there.
#[tactic(auto, unfolding(crate::specs::Fields::required))]
pub fn number(alloc: Global, at: &str, name: &str, object: &Value) -> Result<u64, LoadFault>
    ensures ok { IfOk result (λ number. required number_in at.now name.now (view object.now) ≡ Ok number) }
    ensures err { IfErr result (λ fault. fault ≢ faults.Memory
        → (required number_in at.now name.now (view object.now) ≡ Err fault)) }
{
    match object.get(name).and_then(Value::as_u64) {
        Some(number) => Ok(number),
        None => Err(field_fault(alloc, at, name)),
    }
}

/// A whole number that may be missing.
#[tactic(auto, unfolding(crate::specs::Fields::optional))]
pub fn optional_number(
    alloc: Global,
    at: &str,
    name: &str,
    object: &Value,
) -> Result<Option<u64>, LoadFault>
    ensures ok { IfOk result (λ found. optional number_in at.now name.now (view object.now) ≡ Ok found) }
    ensures err { IfErr result (λ fault. fault ≢ faults.Memory
        → (optional number_in at.now name.now (view object.now) ≡ Err fault)) }
{
    let Some(value) = object.get(name) else {
        return Ok(None);
    };
    match value.as_u64() {
        Some(number) => Ok(Some(number)),
        None => Err(field_fault(alloc, at, name)),
    }
}

/// A truth value that may be missing.
#[tactic(auto, unfolding(crate::specs::Fields::optional))]
pub fn optional_truth(
    alloc: Global,
    at: &str,
    name: &str,
    object: &Value,
) -> Result<Option<bool>, LoadFault>
    ensures ok { IfOk result (λ found. optional as_bool at.now name.now (view object.now) ≡ Ok found) }
    ensures err { IfErr result (λ fault. fault ≢ faults.Memory
        → (optional as_bool at.now name.now (view object.now) ≡ Err fault)) }
{
    let Some(value) = object.get(name) else {
        return Ok(None);
    };
    match value.as_bool() {
        Some(truth) => Ok(Some(truth)),
        None => Err(field_fault(alloc, at, name)),
    }
}

/// The value of a text that is a number as scripts write it.
#[tactic(auto, unfolding(crate::specs::Fields::numeral_in))]
fn numeral_in_text(value: &Value) -> Option<u64>
    ensures { result ≡ numeral_in (view value.now) }
{
    match value.as_str() {
        Some(text) => numeral(text.as_bytes()),
        None => None,
    }
}

/// A number in a text that has to be there.
#[tactic(auto, unfolding(crate::specs::Fields::required))]
pub fn numeral_text(alloc: Global, at: &str, name: &str, object: &Value) -> Result<u64, LoadFault>
    ensures ok { IfOk result (λ number. required numeral_in at.now name.now (view object.now) ≡ Ok number) }
    ensures err { IfErr result (λ fault. fault ≢ faults.Memory
        → (required numeral_in at.now name.now (view object.now) ≡ Err fault)) }
{
    let Some(value) = object.get(name) else {
        return Err(field_fault(alloc, at, name));
    };
    match numeral_in_text(value) {
        Some(number) => Ok(number),
        None => Err(field_fault(alloc, at, name)),
    }
}

/// The bytes that a text of digits spells, two digits for each; None where it spells none.
fn decoded(alloc: Global, text: &str) -> Result<Option<Vec<u8>>, LoadFault>
    ensures ok { IfOk result (λ found. option_map (λ bytes. bytes.items) found ≡ result_ok (decode_of text.now)) }
    ensures err { IfErr result (λ fault. fault ≡ faults.Memory) }
{
    match hex::decode(alloc, text) {
        Ok(bytes) => Ok(Some(bytes)),
        Err(FromHexError::OutOfMemory) => Err(LoadFault::Memory),
        Err(_) => Ok(None),
    }
}

/// The bytes that a value's text of digits spells; None where it is no such text.
#[tactic(auto, unfolding(crate::specs::Fields::bytes_in))]
fn bytes_in_text(alloc: Global, value: &Value) -> Result<Option<Vec<u8>>, LoadFault>
    ensures ok { IfOk result (λ found. option_map (λ bytes. bytes.items) found ≡ bytes_in (view value.now)) }
    ensures err { IfErr result (λ fault. fault ≡ faults.Memory) }
{
    match value.as_str() {
        Some(text) => decoded(alloc, text),
        None => Ok(None),
    }
}

/// Bytes in a text that may be missing.
#[tactic(auto, unfolding(crate::specs::Fields::optional))]
pub fn optional_bytes(
    alloc: Global,
    at: &str,
    name: &str,
    object: &Value,
) -> Result<Option<Vec<u8>>, LoadFault>
    ensures ok { IfOk result (λ found. optional bytes_in at.now name.now (view object.now)
        ≡ Ok (option_map (λ bytes. bytes.items) found)) }
    ensures err { IfErr result (λ fault. fault ≢ faults.Memory
        → (optional bytes_in at.now name.now (view object.now) ≡ Err fault)) }
{
    let Some(value) = object.get(name) else {
        return Ok(None);
    };
    match bytes_in_text(alloc, value) {
        Ok(Some(bytes)) => Ok(Some(bytes)),
        Ok(None) => Err(field_fault(alloc, at, name)),
        Err(fault) => Err(fault),
    }
}

/// One of some names.
fn is_known(known: &[&str], name: &str) -> bool
    ensures { result ≡ list_any (bytes_eq name.now) (map (λ k. k.now) known.now) }
{
    for k in known {
        if name == *k {
            return true;
        }
    }
    false
}

/// The least name of an object that isn't known.
fn first_unknown<'v>(known: &[&str], object: &'v Map<String, Value>) -> Option<&'v String>
    ensures { option_map (λ name. string_bytes name.now) result
        ≡ first_unknown_by (map (λ k. k.now) known.now) (members_view object.now.entries) }
{
    for (name, _value) in object.iter() {
        if !is_known(known, name.as_str()) {
            return Some(name);
        }
    }
    None
}

/// An object has no other fields than these.
#[tactic(auto, unfolding(crate::specs::Fields::only_fields))]
pub fn only_fields(
    alloc: Global,
    at: &str,
    known: &[&str],
    object: &Map<String, Value>,
) -> Result<(), LoadFault>
    ensures ok { IfOk result (λ done. only_fields_by (map
        (λ k. k.now) known.now) at.now (members_view object.now.entries) ≡ Ok done) }
    ensures err { IfErr result (λ fault. fault ≢ faults.Memory
        → (only_fields_by (map (λ k. k.now) known.now) at.now (members_view object.now.entries) ≡ Err fault)) }
{
    match first_unknown(known, object) {
        Some(name) => Err(field_fault(alloc, at, name.as_str())),
        None => Ok(()),
    }
}
