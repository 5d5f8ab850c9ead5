//! Linked slots, and an index from id to slot.
ghost use Rattle.std.specs.Prelude.{◌≡◌, ◌+◌, ◌<◌, ◌≤◌, [], length, true, None, Some, IfOk, IsOk};
ghost use Rattle.std.specs.Prelude.{OnOk, vec_capacity};
ghost use Rattle.std.specs.Option.{ForSome};
ghost use Rattle.std.specs.Ordering.{is_lt};
ghost use Rattle.lamport_id.specs.declared.id.Id.{Id};
ghost use Rattle.lamport_id.specs.Order.{id_cmp};
ghost use Rattle.presence_set.specs.ById.{get, put_at_id};
ghost use Rattle.list_order.specs.Slots.{fresh_in, ids_along, linked, linked_first, passed};
ghost use Rattle.list_order.specs.Slots.{room_in, slots_from, LinksEnd};
ghost use Rattle.list_order.specs.Slots as Spec;

use lamport_id::Id;
use presence_set::IdBlocks;
use std::alloc::{AllocError, Global};

/// The number of a slot.
#[derive(Clone, Copy)]
pub struct SlotNumber(pub usize);

/// An id of the list, and the slot of the id after it.
#[derive(Clone, Copy)]
pub(crate) struct Slot {
    pub id: Id,
    pub next: Option<SlotNumber>,
}

/// The slots of a list, linked in its order.
#[derive(Drop)]
pub struct Chain {
    /// In the order in which they came.
    pub(crate) slots: Vec<Slot>,
    pub first: Option<SlotNumber>,
}

impl Chain {
    /// No slots. They take no memory yet.
    pub fn new(alloc: Global) -> Chain
        ensures slots { result.slots.items ≡ [] }
        ensures first { result.first ≡ None }
    {
        Chain {
            slots: Vec::new(alloc),
            first: None,
        }
    }

    /// The slot with a number.
    pub fn slot_at(&self, n: SlotNumber) -> &Slot
        requires { n.0 < length self.now.slots.items }
        ensures { result.now ≡ Spec.slot_at self.now.slots.items n }
    {
        &self.slots[n.0]
    }

    /// The slot behind a slot, or the first.
    pub fn behind(&self, previous: Option<SlotNumber>) -> Option<SlotNumber>
        requires { ForSome previous (λ p. p.0 < length self.now.slots.items) }
        ensures { result ≡ Spec.behind self.now.slots.items self.now.first previous }
    {
        match previous {
            None => self.first,
            Some(p) => self.slot_at(p).next,
        }
    }

    /// The slot behind that of an id, or the first. There is none behind an id without a slot.
    pub fn slot_after(&self, index: &IdBlocks<SlotNumber>, after: Option<Id>) -> Option<SlotNumber>
        requires { (id : Id) (p : SlotNumber) → get index.now.0 id ≡ Some p
            → p.0 < length self.now.slots.items }
        ensures { result ≡ Spec.slot_after self.now.slots.items self.now.first index.now.0 after }
    {
        let Some(id) = after else {
            return self.first;
        };
        let Some(p) = number_of(index, &id) else {
            return None;
        };
        self.slot_at(p).next
    }

    /// Links a new id in behind a slot, or as the first. The answer is its slot.
    pub fn link(&mut self, previous: Option<SlotNumber>, id: &Id) -> SlotNumber
        requires known { ForSome previous (λ p. p.0 < length self.old.slots.items) }
        requires room { length self.old.slots.items < vec_capacity self.old.slots }
        ensures fresh { result ≡ fresh_in self.old.slots.items }
        ensures slots { self.new.slots.items
            ≡ linked self.old.slots.items self.old.first previous id.now }
        ensures first { self.new.first ≡ linked_first self.old.slots.items self.old.first previous }
        ensures capacity { vec_capacity self.new.slots ≡ vec_capacity self.old.slots }
    {
        let last = self.slots.len();
        let fresh = SlotNumber(last);
        let next = self.behind(previous);
        match previous {
            None => self.first = Some(fresh),
            Some(p) => self.slots[p.0].next = Some(fresh),
        }
        match self.slots.insert(last, Slot { id: *id, next }) {
            Ok(()) => {}
            Err(_) => unreachable!(),
        }
        fresh
    }

    /// The ids in the order of the links.
    pub fn ids(&self, alloc: Global) -> Result<Vec<Id>, AllocError>
        requires { LinksEnd self.now.slots.items self.now.first }
        ensures { IfOk result (λ ids. ids.items
            ≡ ids_along self.now.slots.items (slots_from self.now.slots.items self.now.first)) }
    {
        let mut ids = Vec::new(alloc);
        let mut at = self.first;
        while let Some(n) = at {
            let slot = self.slot_at(n);
            ids.push(slot.id)?;
            at = slot.next;
        }
        Ok(ids)
    }
}

/// The slot of an id.
pub fn number_of(index: &IdBlocks<SlotNumber>, id: &Id) -> Option<SlotNumber>
    ensures { result ≡ get index.now.0 id.now }
{
    match index.get(id) {
        None => None,
        Some(number) => Some(*number),
    }
}

/// The slot of the id that a new one comes after, if that is not the head.
pub fn number_for(index: &IdBlocks<SlotNumber>, after: Option<Id>) -> Option<SlotNumber>
    ensures { result ≡ Spec.number_for index.now.0 after }
{
    match after {
        None => None,
        Some(id) => number_of(index, &id),
    }
}

/// Makes room for one more id in the index. It never fails where there is room.
pub fn reserve_entry(index: &mut IdBlocks<SlotNumber>) -> Result<(), AllocError>
    ensures same { index.new.0 ≡ index.old.0 }
    ensures grows { room_in index.old ≤ room_in index.new }
    ensures room { OnOk result (length index.new.0 < room_in index.new) }
    ensures succeeds { length index.old.0 < room_in index.old → IsOk result }
{
    index.reserve_one()
}

/// Adds a new id to the index.
pub fn add_entry(index: &mut IdBlocks<SlotNumber>, id: &Id, number: SlotNumber)
    requires room { index.old.1 ≡ true }
    requires new { get index.old.0 id.now ≡ None }
    ensures items { index.new.0 ≡ put_at_id index.old.0 id.now number }
    ensures len { length index.new.0 ≡ length index.old.0 + 1 }
    ensures room { room_in index.new ≡ room_in index.old }
{
    index.put(*id, number);
}
