//! The ids of a list as linked slots.

ghost use Rattle.std.specs.Prelude.{◌≡◌, [], IfSome, Some, slice_get};
ghost use Rattle.list_order.specs.Entries.{present_of};

use crate::marks::Marks;
use crate::slots::{Chain, SlotNumber};
use lamport_id::Id;
use presence_set::IdBlocks;
use std::alloc::Global;
use std::marker::Model;

/// The ids of a list in its order, deleted ones included, each with whether it is present: linked
/// slots, an index from id to slot in blocks, and the marks of the slots. Clauses see a pair: the
/// entries, and how many of them the reserved memory can hold.
pub struct LinkedOrder {
    pub chain: Chain,
    pub index: IdBlocks<SlotNumber>,
    pub marks: Marks,
}

impl Model for LinkedOrder {
    ghost use Rattle.std.specs.Prelude.{List, ℕ, Bool, min, vec_capacity};
    ghost use Rattle.lamport_id.specs.declared.id.Id.{Id};
    ghost use Rattle.list_order.specs.Slots.{room_in};
    ghost use Rattle.list_order.specs.Marks.{entries_in, FitsOrder};

    ghost Value = { List (Id × Bool) × ℕ };

    ghost view = { λ o. (
      entries_in o.chain o.marks,
      min (vec_capacity o.chain.slots) (min (room_in o.index) (vec_capacity o.marks.by_slot)),
    ) };

    ghost invariant = { λ o. FitsOrder o.chain o.index.0 o.marks };
}

impl Drop for LinkedOrder {
    fn drop(self) {
        let LinkedOrder {
            chain: _,
            index: _,
            marks: _,
        } = self;
    }
}

impl LinkedOrder {
    /// The empty list. It takes no memory yet.
    pub fn new(alloc: Global) -> LinkedOrder
        ensures { result.0 ≡ [] }
    {
        LinkedOrder {
            chain: Chain::new(alloc),
            index: IdBlocks::new(alloc),
            marks: Marks::new(alloc),
        }
    }

    /// The newest id, if none is behind it and it is the i-th present one.
    pub fn newest_at_end(&self, i: usize) -> Option<Id>
        ensures { IfSome result (λ id. slice_get (present_of self.now.0) i ≡ Some id) }
    {
        let len = self.chain.slots.len();
        if len == 0 {
            return None;
        }
        let newest = SlotNumber(len - 1);
        let slot = self.chain.slot_at(newest);
        let is_present = self.marks.at(newest).is_present;
        let present = self.marks.present;
        if slot.next.is_none() && is_present && i < present && present - i == 1 {
            Some(slot.id)
        } else {
            None
        }
    }
}
