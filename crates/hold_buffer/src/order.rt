//! The order of the held operations.
ghost use Rattle.std.specs.Prelude.{◌≡◌, ◌≢◌, ◌<◌, ◌+◌, not, length, filter, map, ◌≤◌, ℕ, insert};
ghost use Rattle.std.specs.Prelude.{List, ◌++◌};
ghost use Rattle.std.specs.Prelude.{◌∷◌, [], true, OnOk, OnSome, IfOk, IfErr, Ok, Err, MatchResult};
ghost use Rattle.std.specs.Prelude.{Some, Contains};
ghost use Rattle.std.specs.Vec.{vec_capacity};
ghost use Rattle.std.specs.VecDeque.{deque_len, deque_capacity};
ghost use Rattle.std.specs.Option.{option_map};
ghost use Rattle.slab.specs.Slab.{HasRoomFor, get};
ghost use Rattle.doc_api.specs.Words.{id_cmp, UnlessMemory, Id, Op};
ghost use Rattle.crdt_rules.specs.Dependencies as deps;
ghost use Rattle.version_vector.specs.Front.{is_ascending};
ghost use Rattle.crdt_rules.specs.Same.{id_eq};
ghost use Rattle.doc_rules.specs.Sorted.{IsRising};
ghost use Rattle.list_laws.specs.Sorted.{IsIndexOf, IsGap};
ghost use Rattle.doc_rules.specs.Replica.{find_id, put_among};
ghost use Rattle.hold_buffer.specs.Held.{hold_cause};
ghost use Rattle.hold_buffer.specs.Order.{operations_of, IsOrdered, AreNoted};
ghost use Rattle.hold_buffer.specs.Waiters.{waiters_of};
ghost use Rattle.hold_buffer.specs.declared.entry.Entry.{Entry};

use crate::entry::Entry;
use crate::missing::Missing;
use crate::waiters::Waiters;
use doc_api::{Ids, Waiting};
use json_scalar::Refusal;
use lamport_id::Id;
use op_core::{Operation, keeps_shape};
use slab::Slab;
use std::alloc::{AllocError, Global};
use std::cmp::Ordering;
use std::collections::VecDeque;

/// The most operations that are held.
pub const MAX_HELD: usize = 256;

/// The index of the id in the order, or where it would go.
pub fn search(order: &VecDeque<Entry>, id: &Id) -> Result<usize, usize>
    requires { IsRising id_cmp (λ t. t.id) order.now.items }
    ensures { MatchResult result (IsIndexOf id_cmp (λ t. t.id) order.now.items id.now)
        (IsGap id_cmp (λ t. t.id) order.now.items id.now) }
{
    // Usually the id is the least: of an operation that arrives backwards, or that is released.
    match order.front() {
        None => Err(0),
        Some(least) => match id.cmp(&least.id) {
            Ordering::Less => Err(0),
            Ordering::Equal => Ok(0),
            Ordering::Greater => bisect(order, id),
        },
    }
}

// The index of the id in the order, or where it would go, by bisection.
fn bisect(order: &VecDeque<Entry>, id: &Id) -> Result<usize, usize>
    requires { IsRising id_cmp (λ t. t.id) order.now.items }
    ensures { MatchResult result (IsIndexOf id_cmp (λ t. t.id) order.now.items id.now)
        (IsGap id_cmp (λ t. t.id) order.now.items id.now) }
{
    // `binary_search_by_key` would copy the id of each entry that it compares.
    order.binary_search_by(
        |entry: &Entry| -> Ordering
            ensures { result ≡ id_cmp entry.now.id id.entry.now }
        { entry.id.cmp(id) },
    )
}

/// The ids of the entries.
pub fn ids_of(alloc: Global, order: &VecDeque<Entry>) -> Result<Vec<Id>, AllocError>
    ensures { IfOk result (λ ids. ids.items ≡ map (λ t. t.id) order.now.items) }
{
    order.iter().map(|entry| entry.id).collect(alloc)
}

/// Where an operation of this id is to be stored, with room for it; or the first cause against it.
pub fn prepare(
    slots: &mut Slab<Operation>,
    order: &mut VecDeque<Entry>,
    ready: &mut Vec<Id>,
    id: Id,
) -> Result<usize, Refusal>
    requires { IsOrdered slots.old order.old.items }
    ensures order { order.new.items ≡ order.old.items }
    ensures slots { slots.new ≡ record slots.old { capacity = slots.new.capacity } }
    ensures ready { (ready.new.items ≡ ready.old.items)
        × (vec_capacity ready.old ≤ vec_capacity ready.new) }
    ensures gap { IfOk result (IsGap id_cmp (λ t. t.id) order.old.items id) }
    ensures slot { OnOk result (HasRoomFor slots.new 1) }
    ensures entry { OnOk result (deque_len order.new < deque_capacity order.new) }
    ensures room { OnOk result (deque_len order.new < vec_capacity ready.new) }
    ensures cause { MatchResult result
        (λ _. hold_cause id (operations_of slots.old order.old.items) ≡ Ok tt)
        (λ e. e ≢ Refusal.NoMemory
        → hold_cause id (operations_of slots.old order.old.items) ≡ Err e) }
{
    match search(order, &id) {
        Ok(_) => Err(Refusal::IdConflict),
        Err(at) => {
            if order.len() >= MAX_HELD {
                return Err(Refusal::HeldFull);
            }
            slots.reserve(1)?;
            order.reserve(1)?;
            ready.reserve(order.len() + 1)?;
            Ok(at)
        }
    }
}

// The ids that an operation waits for, noted in the index under the key of the next slot.
fn await_ids(
    op: &Operation,
    missing: &Ids,
    slots: &Slab<Operation>,
    waiters: &mut Waiters,
    alloc: Global,
) -> Result<Missing, Refusal>
    requires { (log : List Op) × (missing.now ≡ deps.missing op.now log) }
    ensures missing { UnlessMemory result (Ok missing.now) }
    ensures kept { (i : Id) (k : ℕ) (o : Op) → get slots.now k ≡ Some o
        → Contains (waiters_of waiters.old i) k → Contains (waiters_of waiters.new i) k }
    ensures noted { OnOk result ((i : Id) → Contains missing.now i
        → Contains (waiters_of waiters.new i) slots.now.vacant_key) }
{
    keeps_shape(op);
    let awaited = Missing::of(alloc, missing)?;
    waiters.note_all(alloc, missing.as_slice(), slots.vacant_key())?;
    Ok(awaited)
}

/// Makes room for one more operation that waits for these ids, notes it at each of them, and
/// returns where it is to be stored, and the ids; or the first cause against it.
pub fn admit(
    op: &Operation,
    missing: &Ids,
    slots: &mut Slab<Operation>,
    order: &mut VecDeque<Entry>,
    ready: &mut Vec<Id>,
    waiters: &mut Waiters,
) -> Result<(usize, Missing), Refusal>
    requires ordered { IsOrdered slots.old order.old.items }
    requires missed { (log : List Op) × (missing.now ≡ deps.missing op.now log) }
    ensures order { order.new.items ≡ order.old.items }
    ensures slots { slots.new ≡ record slots.old { capacity = slots.new.capacity } }
    ensures ready { (ready.new.items ≡ ready.old.items)
        × (vec_capacity ready.old ≤ vec_capacity ready.new) }
    ensures kept { (i : Id) (k : ℕ) (o : Op) → get slots.old k ≡ Some o
        → Contains (waiters_of waiters.old i) k → Contains (waiters_of waiters.new i) k }
    ensures gap { IfOk result (λ r. IsGap id_cmp (λ t. t.id) order.old.items op.now.id r.0) }
    ensures missing { IfOk result (λ r. r.1 ≡ missing.now) }
    ensures noted { OnOk result ((i : Id) → Contains missing.now i
        → Contains (waiters_of waiters.new i) slots.new.vacant_key) }
    ensures slot { OnOk result (HasRoomFor slots.new 1) }
    ensures entry { OnOk result (deque_len order.new < deque_capacity order.new) }
    ensures room { OnOk result (deque_len order.new < vec_capacity ready.new) }
    ensures cause { MatchResult result
        (λ _. hold_cause op.now.id (operations_of slots.old order.old.items) ≡ Ok tt)
        (λ e. e ≢ Refusal.NoMemory
        → hold_cause op.now.id (operations_of slots.old order.old.items) ≡ Err e) }
{
    let alloc = *order.allocator();
    match prepare(slots, order, ready, op.id()) {
        Ok(at) => match await_ids(op, missing, slots, waiters, alloc) {
            Ok(awaited) => Ok((at, awaited)),
            Err(_) => Err(Refusal::NoMemory),
        },
        Err(cause) => Err(cause),
    }
}

/// Stores an operation where it belongs, with the ids that it waits for.
pub fn store(
    slots: &mut Slab<Operation>,
    order: &mut VecDeque<Entry>,
    at: usize,
    op: Operation,
    missing: Missing,
)
    requires ordered { IsOrdered slots.old order.old.items }
    requires gap { IsGap id_cmp (λ t. t.id) order.old.items op.id at }
    requires slot { HasRoomFor slots.old 1 }
    requires entry { deque_len order.old < deque_capacity order.old }
    ensures ascending { is_ascending op.front ≡ true }
    ensures ordered { IsOrdered slots.new order.new.items }
    ensures operations { operations_of slots.new order.new.items
        ≡ put_among op (operations_of slots.old order.old.items) }
    ensures entry { order.new.items ≡ insert order.old.items at
        (record { id = op.id; key = slots.old.vacant_key; missing = missing }) }
{
    let id = op.id();
    let key = slots.insert_reserved(op);
    let entry = Entry { id, key, missing };
    order.insert(at, entry).unwrap();
}

/// Takes the operation of the entry at an index out.
pub fn take_at(
    slots: &mut Slab<Operation>,
    order: &mut VecDeque<Entry>,
    at: usize,
) -> Option<Operation>
    requires ordered { IsOrdered slots.old order.old.items }
    requires within { at < length order.old.items }
    ensures ordered { IsOrdered slots.new order.new.items }
    ensures value { (id : Id) → IsIndexOf id_cmp (λ t. t.id) order.old.items id at
        → result ≡ find_id (operations_of slots.old order.old.items) id }
    ensures len { length (operations_of slots.new order.new.items) + 1
        ≡ length (operations_of slots.old order.old.items) }
    ensures operations { (id : Id) → IsIndexOf id_cmp (λ t. t.id) order.old.items id at
        → operations_of slots.new order.new.items
        ≡ filter (λ o. not (id_eq o.id id)) (operations_of slots.old order.old.items) }
    ensures entries { (id : Id) → IsIndexOf id_cmp (λ t. t.id) order.old.items id at
        → order.new.items ≡ filter (λ t. not (id_eq t.id id)) order.old.items }
{
    let entry = order.remove(at).unwrap();
    slots.try_remove(entry.key)
}

/// The ids of the entries, each with those that its operation waits for. The only error is
/// out of memory.
pub fn waiting_of(alloc: Global, order: &VecDeque<Entry>) -> Result<Waiting, Refusal>
    ensures { UnlessMemory result (Ok (map (λ t. (t.id, t.missing)) order.now.items)) }
{
    let mut waiting = Vec::with_capacity(alloc, order.len())?;
    for at in 0..order.len() {
        push_waiting(alloc, &mut waiting, &order[at])?;
    }
    Ok(Waiting::from(waiting))
}

// One more of them. The only error is out of memory.
fn push_waiting(alloc: Global, waiting: &mut Vec<(Id, Ids)>, entry: &Entry) -> Result<(), Refusal>
    ensures ok { OnOk result (waiting.new.items ≡ waiting.old.items
        ++ (entry.now.id, entry.now.missing) ∷ []) }
    ensures err { IfErr result (λ e. e ≡ Refusal.NoMemory) }
{
    let missing = entry.missing.ids(alloc)?;
    waiting.push((entry.id, missing))?;
    Ok(())
}

/// Takes the key of the entry at an index out of the index.
pub fn forget_waits(order: &VecDeque<Entry>, waiters: &mut Waiters, at: usize)
    requires within { at < length order.now.items }
    requires apart { (t u : Entry) → Contains order.now.items t → Contains order.now.items u
        → t.key ≡ u.key → t.id ≡ u.id }
    requires noted { AreNoted order.now.items waiters.old }
    ensures { (id : Id) → IsIndexOf id_cmp (λ t. t.id) order.now.items id at
        → AreNoted (filter (λ t. not (id_eq t.id id)) order.now.items) waiters.new }
{
    let entry = &order[at];
    waiters.forget_all(entry.missing.among(), entry.key);
}
