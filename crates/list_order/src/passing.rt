//! Where a new id comes: behind the greater ids that follow its reference.
ghost use Rattle.std.specs.Prelude.{◌≡◌, ◌<◌, ℕ, length, true, false, Some, None, Contains};
ghost use Rattle.std.specs.Option.{ForSome};
ghost use Rattle.std.specs.Ordering.{is_lt};
ghost use Rattle.lamport_id.specs.Order.{id_cmp};
ghost use Rattle.list_order.specs.Slots.{ids_along, passed, place_in, slots_from, IsOnPath};
ghost use Rattle.list_order.specs.Slots as Spec;
ghost use Rattle.list_order.specs.Marks.{block_at, FitsChain, FitsOrder, PassesOn, SkipsTo};
ghost use Rattle.list_order.specs.declared.slots.SlotNumber.{SlotNumber};

use crate::marks::Marks;
use crate::slots::{Chain, SlotNumber, number_for};
use lamport_id::Id;
use presence_set::IdBlocks;

// Whether the id of a slot isn't less.
fn is_passed(chain: &Chain, n: SlotNumber, id: &Id) -> bool
    requires { n.0 < length chain.now.slots.items }
    ensures { result ≡ true
        → is_lt (id_cmp (Spec.slot_at chain.now.slots.items n).id id.now) ≡ false }
{
    !(chain.slot_at(n).id < *id)
}

// The slot behind the block of a slot, if the ids of the block and of that slot are greater.
fn skipped_to(chain: &Chain, marks: &Marks, n: SlotNumber, id: &Id) -> Option<SlotNumber>
    requires within { n.0 < length marks.now.by_slot.items }
    requires ends { (k : ℕ) → k < length marks.now.blocks.items
        → ForSome (block_at marks.now.blocks.items k).end
        (λ m. m.0 < length chain.now.slots.items) }
    ensures { ForSome result (λ m.
        SkipsTo chain.now.slots.items marks.now.by_slot.items marks.now.blocks.items id.now n m) }
{
    let k = marks.at(n).block;
    if k < marks.blocks.len() && id.counter < marks.blocks[k].least_counter {
        match marks.blocks[k].end {
            None => None,
            Some(m) => {
                if is_passed(chain, m, id) {
                    Some(m)
                } else {
                    None
                }
            }
        }
    } else {
        None
    }
}

// The slot to look at behind one that is passed: the next one, or the one behind its
// block, if all up to it are passed.
fn next_to_pass(chain: &Chain, marks: &Marks, n: SlotNumber, id: &Id) -> Option<SlotNumber>
    requires fits { FitsChain chain.now marks.now }
    requires within { n.0 < length chain.now.slots.items }
    ensures { PassesOn chain.now.slots.items marks.now.by_slot.items marks.now.blocks.items id.now n result }
{
    match skipped_to(chain, marks, n, id) {
        None => chain.slot_at(n).next,
        Some(m) => Some(m),
    }
}

// The slot that a new id comes behind: from the slot behind its reference on, it passes greater
// ids. Blocks of which all ids have greater counters are passed at once, but for the last of them.
fn last_passed(
    chain: &Chain,
    marks: &Marks,
    reference: Option<SlotNumber>,
    id: &Id,
) -> Option<SlotNumber>
    requires fits { FitsChain chain.now marks.now }
    requires known { IsOnPath chain.now.slots.items chain.now.first reference }
    ensures { let slots = chain.now.slots.items in
        result ≡ passed slots id.now reference (slots_from slots (Spec.behind slots chain.now.first reference)) }
{
    let mut previous = reference;
    let mut at = chain.behind(reference);
    while let Some(n) = at {
        if chain.slot_at(n).id < *id {
            break;
        }
        previous = at;
        at = next_to_pass(chain, marks, n, id);
    }
    previous
}

/// The slot that a new id after another, or at the head, comes behind, if it isn't to be the first.
pub fn place_for(
    chain: &Chain,
    index: &IdBlocks<SlotNumber>,
    marks: &Marks,
    after: Option<Id>,
    id: &Id,
) -> Option<SlotNumber>
    requires fits { FitsOrder chain.now index.now.0 marks.now }
    requires known { let slots = chain.now.slots.items in
        ForSome after (Contains (ids_along slots (slots_from slots chain.now.first))) }
    ensures { result ≡ place_in chain.now.slots.items chain.now.first index.now.0 after id.now }
{
    let reference = number_for(index, after);
    last_passed(chain, marks, reference, id)
}
