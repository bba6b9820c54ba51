//! A list of items that no memory holds.

ghost use Rattle.std.specs.Prelude.{◌≡◌, List, [], ◌∷◌, ◌++◌, IfOk};

use atomic_table::{Play, Seat, Table, TableRule};
use sb_packet::Item;
use std::alloc::{AllocError, Global};
use std::collections::LinkedList;
use std::marker::Model;

// whatever stands in the table, any list may stand beside it
struct AnyList;

impl TableRule<Item, LinkedList<Item>, ()> for AnyList {
    ghost use Rattle.std.specs.Prelude.{[]};

    ghost holds = { λ _ _. Unit {0} };

    ghost first = { λ _. [] };
}

// the item that a step announces comes to the end of the list
struct Appends;

impl Play<Item, LinkedList<Item>> for Appends {
    ghost use Rattle.sb_link.specs.GhostHistory.{IsAppended};

    ghost then = { λ s v n w. IsAppended s.said v.0 w.0 × (w.1 ≡ v.1) };
}

/// A list of items that stands in proofs alone: it is the view of the only seat of a table of one word.
#[derive(Drop)]
pub(crate) struct GhostHistory {
    table: Table<Item, LinkedList<Item>, (), AnyList, Global>,
    seat: Seat<Item, LinkedList<Item>>,
}

impl Model for GhostHistory {
    ghost use Rattle.std.specs.Prelude.{◌≡◌, List, []};
    ghost use Rattle.sb_packet.specs.declared.item.Item.{Item};

    ghost Value = { List Item };

    ghost view = { λ t. t.seat.me.0 };

    ghost invariant = { λ t. (t.seat.table_id ≡ t.table.shared.table_id) × (t.table.shared.table_id.words ≡ 1) × (t.seat.me.1 ≡ []) };
}

impl GhostHistory {
    // an empty list
    pub(crate) fn new(alloc: Global) -> Result<GhostHistory, AllocError>
        ensures empty { IfOk result (λ history. history ≡ []) }
    {
        let (table, seat) = Table::<Item, LinkedList<Item>, (), AnyList, Global>::of_words(
            alloc,
            &[0],
            &(),
        )?;
        Ok(GhostHistory { table, seat })
    }

    // the item comes to the end of the list
    pub(crate) fn add(&mut self, item: &Item)
        ensures added { self.new ≡ self.old ++ item.now ∷ [] }
    {
        let table = &self.table;
        let _found = table
            .shared
            .compare_exchange_with::<Appends>(&mut self.seat, 0, 0, 0, item);
    }
}
