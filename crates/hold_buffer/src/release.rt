//! What a logged id releases.
ghost use Rattle.std.specs.Prelude.{◌≡◌, ◌≢◌, ◌<◌, ◌==◌, true, length, map, Contains};
ghost use Rattle.std.specs.Prelude.{slice_index_or, slice_set};
ghost use Rattle.doc_api.specs.Words.{id_cmp};
ghost use Rattle.doc_rules.specs.Sorted.{IsRising};
ghost use Rattle.hold_buffer.specs.declared.entry.Entry.{Entry};
ghost use Rattle.hold_buffer.specs.Order.{IsOrdered, ListsFree, is_free, without_id};

use crate::entry::Entry;
use crate::order::search;
use crate::ready::put;
use lamport_id::Id;
use op_core::Operation;
use slab::Slab;
use std::collections::VecDeque;

/// Notes that the operation of this id was logged, with those of these keys, which are all that
/// wait for it. Those that wait for nothing now are ready.
pub fn release(
    slots: &Slab<Operation>,
    order: &mut VecDeque<Entry>,
    ready: &mut Vec<Id>,
    keys: &[usize],
    id: &Id,
)
    requires ordered { IsOrdered slots.now order.old.items }
    requires ready { ListsFree order.old.items ready.old }
    requires noted { (t : Entry) → Contains order.old.items t → Contains t.missing id.now
        → Contains keys.now t.key }
    ensures order { order.new.items ≡ map (without_id id.now) order.old.items }
    ensures ready { ListsFree order.new.items ready.new }
{
    for key in keys {
        release_one(slots, order, ready, *key, id);
    }
}

// Notes the logged id at the operation of this key, if it is still there.
fn release_one(
    slots: &Slab<Operation>,
    order: &mut VecDeque<Entry>,
    ready: &mut Vec<Id>,
    key: usize,
    id: &Id,
)
    requires ordered { IsOrdered slots.now order.old.items }
    requires ready { ListsFree order.old.items ready.old }
    ensures same { map (without_id id.now) order.new.items
        ≡ map (without_id id.now) order.old.items }
    ensures released { (t : Entry) → Contains order.new.items t → Contains t.missing id.now
        → Contains order.old.items t × (t.key ≢ key) }
    ensures ready { ListsFree order.new.items ready.new }
{
    if let Some(op) = slots.get(key) {
        if let Ok(at) = search(order, &op.id()) {
            release_at(order, ready, at, id);
        }
    }
}

// Notes the logged id at the operation at an index, which is ready if it then waits for nothing.
fn release_at(order: &mut VecDeque<Entry>, ready: &mut Vec<Id>, at: usize, id: &Id)
    requires within { at < length order.old.items }
    requires rising { IsRising id_cmp (λ t. t.id) order.old.items }
    requires ready { ListsFree order.old.items ready.old }
    ensures order { (d : Entry) → order.new.items
        ≡ slice_set order.old.items at (without_id id.now (slice_index_or order.old.items at d)) }
    ensures ready { ListsFree order.new.items ready.new }
{
    if order[at].missing.is_empty() {
        return;
    }
    arrive(order, at, id);
    if order[at].missing.is_empty() {
        put(ready, &order[at].id);
    }
}

// Takes an id out of those that the operation at an index waits for.
fn arrive(order: &mut VecDeque<Entry>, at: usize, id: &Id)
    requires { at < length order.old.items }
    ensures { (d : Entry) → order.new.items
        ≡ slice_set order.old.items at (without_id id.now (slice_index_or order.old.items at d)) }
{
    order[at].missing.remove(id);
}
