//! One test for the lists of a bundle's objects.

ghost use Rattle.std.specs.Prelude.{◌≡◌, ◌≢◌, ℕ, List, Result, map, IfOk, IfErr, Ok, Err};
ghost use Rattle.sb_fields.specs.declared.fault.LoadFault.{LoadFault as AnyFault};
ghost use Rattle.sb_fields.specs.declared.fault.LoadFault.TheVariants as faults;
ghost use Rattle.sb_fields.specs.Counts.{each_item};

use crate::fault::LoadFault;
use crate::paths::item_path;
use std::alloc::Global;

/// What stands in a list of a bundle, whose numbers have ranges.
pub trait Countable: Drop {
    /// The same with its numbers narrowed.
    type Counted: Drop;

    // what it is as its text writes it, before it is counted and after
    ghost Written: { Type 0 };

    ghost before: { Self → Written };

    ghost after: { Self.Counted → Written };

    // the first number out of range
    ghost counts: { List ℕ → Written → Result (Unit {0}) AnyFault };

    fn counted(self, alloc: Global, at: &str) -> Result<Self::Counted, LoadFault>
        ensures ok { IfOk result (λ part. counts at.now (before self) ≡ Ok tt) }
        ensures same { IfOk result (λ part. after part ≡ before self) }
        ensures err { IfErr result (λ fault. fault ≢ faults.Memory → (counts at.now (before self) ≡ Err fault)) };
}

/// The items of the list at a path.
pub fn counted_items<T: Countable>(
    alloc: Global,
    at: &str,
    items: Vec<T>,
) -> Result<Vec<T::Counted>, LoadFault>
    ensures ok { IfOk result (λ found. each_item T.Countable.counts at.now 0 (map T.Countable.before items.items)
        ≡ Ok tt) }
    ensures same { IfOk result (λ found. map T.Countable.after found.items ≡ map T.Countable.before items.items) }
    ensures err { IfErr result (λ fault. fault ≢ faults.Memory
        → (each_item T.Countable.counts at.now 0 (map T.Countable.before items.items) ≡ Err fault)) }
{
    let mut found = Vec::new(alloc);
    for (number, item) in items.into_iter().enumerate() {
        let Ok(path) = item_path(alloc, at, number) else {
            return Err(LoadFault::Memory);
        };
        let part = item.counted(alloc, path.as_str())?;
        match found.push(part) {
            Ok(()) => {}
            Err(_) => return Err(LoadFault::Memory),
        }
    }
    Ok(found)
}
