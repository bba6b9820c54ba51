//! Where in a bundle something stands, and the faults that tell it.

ghost use Rattle.std.specs.Prelude.{◌≡◌, ◌≢◌, string_bytes, IfOk};
ghost use Rattle.sb_fields.specs.declared.fault.LoadFault.TheVariants as faults;
ghost use Rattle.sb_fields.specs.Paths.{item_of, member_of, shown_path};

use crate::fault::LoadFault;
use itoa::Buffer;
use sb_packet::Path;
use std::alloc::{AllocError, Global};

/// The path of a member of the object at a path; that of the whole bundle is empty.
pub fn member_path(alloc: Global, at: &str, name: &str) -> Result<String, AllocError>
    ensures { IfOk result (λ path. string_bytes path ≡ member_of at.now name.now) }
{
    let mut path = String::from_str(alloc, at)?;
    if !at.is_empty() {
        path.push('.')?;
    }
    path.push_str(name)?;
    Ok(path)
}

/// The path of an item, counted from 0, of the list at a path.
pub fn item_path(alloc: Global, at: &str, number: usize) -> Result<String, AllocError>
    ensures { IfOk result (λ path. string_bytes path ≡ item_of at.now number) }
{
    let mut buffer = Buffer::new();
    let mut path = String::from_str(alloc, at)?;
    path.push('[')?;
    path.push_str(buffer.format(number))?;
    path.push(']')?;
    Ok(path)
}

/// `Field` at a member, or want of memory.
pub fn field_fault(alloc: Global, at: &str, name: &str) -> LoadFault
    ensures { result ≢ faults.Memory → (result ≡ faults.Field (member_of at.now name.now)) }
{
    match member_path(alloc, at, name) {
        Ok(path) => LoadFault::Field {
            path: Path::new(path),
        },
        Err(_) => LoadFault::Memory,
    }
}

/// `Count` at a member, or want of memory.
pub fn count_fault(alloc: Global, at: &str, name: &str) -> LoadFault
    ensures { result ≢ faults.Memory → (result ≡ faults.Count (member_of at.now name.now)) }
{
    match member_path(alloc, at, name) {
        Ok(path) => LoadFault::Count {
            path: Path::new(path),
        },
        Err(_) => LoadFault::Memory,
    }
}

/// `Name` at a member, or want of memory.
pub fn name_fault(alloc: Global, at: &str, name: &str) -> LoadFault
    ensures { result ≢ faults.Memory → (result ≡ faults.Name (member_of at.now name.now)) }
{
    match member_path(alloc, at, name) {
        Ok(path) => LoadFault::Name {
            path: Path::new(path),
        },
        Err(_) => LoadFault::Memory,
    }
}

/// `Field` at an item of a list, or want of memory.
pub fn item_fault(alloc: Global, at: &str, number: usize) -> LoadFault
    ensures { result ≢ faults.Memory → (result ≡ faults.Field (item_of at.now number)) }
{
    match item_path(alloc, at, number) {
        Ok(path) => LoadFault::Field {
            path: Path::new(path),
        },
        Err(_) => LoadFault::Memory,
    }
}

/// `Field` at a value as a whole, or want of memory.
pub fn whole_fault(alloc: Global, at: &str) -> LoadFault
    ensures { result ≢ faults.Memory → (result ≡ faults.Field (shown_path at.now)) }
{
    let shown = if at.is_empty() { "-" } else { at };
    match String::from_str(alloc, shown) {
        Ok(path) => LoadFault::Field {
            path: Path::new(path),
        },
        Err(_) => LoadFault::Memory,
    }
}
