//! The ids that are present, read block by block.
ghost use Rattle.std.specs.Prelude.{◌≡◌, ◌++◌, ◌∷◌, [], length, take, IfOk, if◌then◌else◌};
ghost use Rattle.list_order.specs.Slots.{LinksEnd};
ghost use Rattle.list_order.specs.Marks.{present_from, FitsChain};

use crate::marks::{Marks, bit};
use crate::slots::{Chain, SlotNumber};
use lamport_id::Id;
use std::alloc::{AllocError, Global};

// Adds an id, if it is present.
fn push_if(ids: &mut Vec<Id>, id: &Id, is_present: bool) -> Result<(), AllocError>
    ensures { IfOk result (λ _. ids.new.items
        ≡ ids.old.items ++ (if is_present then id.now ∷ [] else [])) }
{
    if is_present {
        ids.push(*id)?;
    }
    Ok(())
}

// Adds the first present ids from a slot on, so many at most. It goes no
// further than to the last of them.
fn push_present(
    ids: &mut Vec<Id>,
    chain: &Chain,
    marks: &Marks,
    start: Option<SlotNumber>,
    most: usize,
) -> Result<(), AllocError>
    requires walk { LinksEnd chain.now.slots.items start }
    requires marked { length marks.now.by_slot.items ≡ length chain.now.slots.items }
    ensures { IfOk result
        (λ _. ids.new.items ≡ ids.old.items ++ take most (present_from chain.now marks.now start)) }
{
    let mut left = most;
    let mut at = start;
    while let Some(n) = at {
        if left == 0 {
            break;
        }
        let slot = chain.slot_at(n);
        let is_present = marks.at(n).is_present;
        push_if(ids, &slot.id, is_present)?;
        left -= bit(is_present);
        at = slot.next;
    }
    Ok(())
}

/// The present ids in the order of the links. Of each block it goes no further than to its last
/// present one. Memory is asked for once.
pub fn present_ids(alloc: Global, chain: &Chain, marks: &Marks) -> Result<Vec<Id>, AllocError>
    requires { FitsChain chain.now marks.now }
    ensures { IfOk result (λ ids. ids.items ≡ present_from chain.now marks.now chain.now.first) }
{
    let mut ids = Vec::new(alloc);
    ids.reserve(marks.present)?;
    let mut at = chain.first;
    for block in marks.blocks.as_slice() {
        push_present(&mut ids, chain, marks, at, block.present)?;
        at = block.end;
    }
    push_present(&mut ids, chain, marks, at, chain.slots.len())?;
    Ok(ids)
}
