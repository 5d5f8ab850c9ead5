//! What a log keeps for each replica, as the counter of its last operation,
//! and the front that these make.
ghost use Rattle.std.specs.Prelude.{[], Contains, IsTrue, Some, get_or, ◌≡◌, ◌+◌, ◌<◌, ◌≤◌, true};
ghost use Rattle.std.specs.Prelude.{length, vec_len};
ghost use Rattle.std.specs.Prelude.{bytes_eq};
ghost use Rattle.std.specs.Prelude.{MatchResult, Ok};
ghost use Rattle.std.specs.List.{zip};
ghost use Rattle.std.specs.Option.{option_copied};
ghost use Rattle.op_core.specs.Op.{Op};
ghost use Rattle.std.specs.Vec.{vec_capacity};
ghost use Rattle.json_scalar.specs.Refusal.{UnlessMemory};
ghost use Rattle.lamport_id.specs.Order.{name_cmp};
ghost use Rattle.version_vector.specs.Front.{id_of, is_ascending, is_le};
ghost use Rattle.crdt_rules.specs.Dependencies.{entry_of};
ghost use Rattle.op_log.specs.Front.{PutsEntry};
ghost use Rattle.list_laws.specs.Sorted.{IsIndexOf, IsGap, KeysRise, get_by};

use json_scalar::Refusal;
use lamport_id::ReplicaName;
use op_core::{Counters, Front, Operation, id_of};
use std::alloc::Global;
use std::cmp::Ordering;

/// A replica, and the counter of its last operation.
pub type Entry = (ReplicaName, u64);

// The index of the replica's pair, or where it would go.
fn search<X>(pairs: &[(ReplicaName, X)], name: ReplicaName) -> Result<usize, usize>
    requires { KeysRise name_cmp pairs.now }
    ensures { MatchResult result
        (IsIndexOf name_cmp (λ e. e.0) pairs.now name) (IsGap name_cmp (λ e. e.0) pairs.now name) }
{
    pairs.binary_search_by_key(&name, |pair| pair.0)
}

/// The counter or the position of the replica's last operation, if it has one.
pub fn last_of<X: Copy>(pairs: &[(ReplicaName, X)], name: ReplicaName) -> Option<X>
    requires { KeysRise name_cmp pairs.now }
    ensures { result ≡ get_by bytes_eq pairs.now name }
{
    match search(pairs, name) {
        Ok(at) => Some(pairs[at].1),
        Err(_) => None,
    }
}

/// Makes the counter or the position the last of the replica, in room that was reserved, and
/// returns the one that it had, if it had one.
pub fn put_last<X: Copy>(pairs: &mut Vec<(ReplicaName, X)>, name: ReplicaName, last: X) -> Option<X>
    requires rising { KeysRise name_cmp pairs.old.items }
    requires room { vec_len pairs.old < vec_capacity pairs.old }
    ensures before { result ≡ get_by bytes_eq pairs.old.items name }
    ensures rising { KeysRise name_cmp pairs.new.items }
    ensures puts { PutsEntry pairs.old.items pairs.new.items name last }
    ensures len { vec_len pairs.new ≤ vec_len pairs.old + 1 }
    ensures capacity { vec_capacity pairs.old ≤ vec_capacity pairs.new }
{
    match search(pairs, name) {
        Ok(at) => {
            let before = pairs[at].1;
            pairs[at] = (name, last);
            Some(before)
        }
        Err(at) => {
            pairs.insert(at, (name, last)).unwrap();
            None
        }
    }
}

/// The counter of the replica in a front, if it names it.
pub fn counter_in(front: &Front, name: ReplicaName) -> Option<u64>
    requires { is_ascending front.now ≡ true }
    ensures { result ≡ entry_of front.now name }
{
    let (names, counters) = front.parts();
    counter_among(names, counters, name)
}

/// The counter of the replica in a front, if it names it. Where the front's pairs ascend, it is
/// searched.
pub fn counter_of(front: &Front, name: &ReplicaName) -> Option<u64>
    ensures { result ≡ entry_of front.now name.now }
{
    if front.is_ascending() {
        return counter_in(front, *name);
    }
    first_counter_of(front, name)
}

// The counter of the replica's first pair, if the front names it.
fn first_counter_of(front: &Front, name: &ReplicaName) -> Option<u64>
    ensures { result ≡ entry_of front.now name.now }
{
    for at in 0..front.len() {
        let (other, last) = front.pair_at(at);
        if other == *name {
            return Some(last);
        }
    }
    None
}

/// The counter of the replica in a front, if it names it. The pair at this index is looked at
/// before the others.
pub fn counter_near(front: &Front, index: usize, name: ReplicaName) -> Option<u64>
    requires { is_ascending front.now ≡ true }
    ensures { result ≡ entry_of front.now name }
{
    if index < front.len() {
        let (near, counter) = front.pair_at(index);
        if near == name {
            return Some(counter);
        }
    }
    counter_in(front, name)
}

fn counter_among(names: &[ReplicaName], counters: &Counters, name: ReplicaName) -> Option<u64>
    requires len { length names.now ≡ length counters.now }
    requires ascending { is_ascending (zip names.now counters.now) ≡ true }
    ensures { result ≡ entry_of (zip names.now counters.now) name }
{
    match names.binary_search(&name) {
        Ok(at) => Some(counters.at(at)),
        Err(_) => None,
    }
}

/// Whether the other front covers the id of each pair. Both ascend, so
/// they are compared pair by pair.
pub fn is_at_most(front: &Front, other: &Front) -> bool
    requires ascending { is_ascending front.now ≡ true }
    requires other_ascending { is_ascending other.now ≡ true }
    ensures { result ≡ is_le front.now other.now }
{
    let (names, counters) = front.parts();
    let (others, reached) = other.parts();
    are_at_most(names, counters, others, reached)
}

fn are_at_most(
    names: &[ReplicaName],
    counters: &Counters,
    others: &[ReplicaName],
    reached: &Counters,
) -> bool
    requires len { length names.now ≡ length counters.now }
    requires other_len { length others.now ≡ length reached.now }
    requires ascending { is_ascending (zip names.now counters.now) ≡ true }
    requires other_ascending { is_ascending (zip others.now reached.now) ≡ true }
    ensures { result ≡ is_le (zip names.now counters.now) (zip others.now reached.now) }
{
    let mut first = 0;
    for at in 0..others.len() {
        if first >= names.len() {
            return true;
        }
        match names[first].cmp(&others[at]) {
            Ordering::Less => return false,
            Ordering::Equal if reached.at(at) < counters.at(first) => return false,
            Ordering::Equal => first += 1,
            Ordering::Greater => {}
        }
    }
    first >= names.len()
}

/// The front of these pairs, which shares its names with that of the last operation where they have
/// the same, and the chunks of counters that both have. The only error is out of memory.
pub fn beside_last(alloc: Global, pairs: &[Entry], entries: &[Operation]) -> Result<Front, Refusal>
    ensures { UnlessMemory result (Ok pairs.now) }
{
    match entries.last() {
        Some(last) => Front::from_pairs_beside(alloc, pairs, last.front()),
        None => Front::from_pairs(alloc, pairs),
    }
}

/// Returns the operation as it was. Where it has no clones, it shares the names of its front with
/// the operation at a position, the one of its replica before it, or with the last one, where they
/// have the same, and the keys of its path where they begin the other's. It shares the chunks of
/// counters that the last one has too.
pub fn sharing(op: Operation, entries: &[Operation], at: usize) -> Operation
    ensures { result ≡ op }
{
    let Some(last) = entries.last() else {
        return op;
    };
    let other = alike(op.front(), entries, at, last);
    op.sharing(other, last)
}

// The operation whose names a front may share. The fronts of a replica lose no name, so as many as
// before it are the same. Otherwise they may be those of the last operation.
fn alike<'a>(
    front: &Front,
    entries: &'a [Operation],
    at: usize,
    last: &'a Operation,
) -> &'a Operation {
    match entries.get(at) {
        Some(before) if before.front().len() == front.len() => before,
        _ => last,
    }
}

/// Whether the operation's front has the pair at this index of a front, at the same index.
pub fn has_pair(op: Option<&Operation>, front: &Front, at: usize) -> bool
    requires { at < length front.now }
    ensures { IsTrue result
        → (o : Op) × (option_copied op.entry ≡ Some o)
        × Contains o.front (get_or front.now at ([], 0)) }
{
    match op {
        Some(op) => has_pair_at(op.front(), at, front.pair_at(at)),
        None => false,
    }
}

/// Whether the pair at this index of a front is the operation's id.
pub fn is_pair(op: Option<&Operation>, front: &Front, at: usize) -> bool
    requires { at < length front.now }
    ensures { IsTrue result
        → (o : Op) × (option_copied op.entry ≡ Some o)
        × (o.id ≡ id_of (get_or front.now at ([], 0))) }
{
    match op {
        Some(op) => has_id(op, front.pair_at(at)),
        None => false,
    }
}

fn has_id(op: &Operation, pair: Entry) -> bool
    ensures { IsTrue result → op.now.id ≡ id_of pair }
{
    op.id() == id_of(pair.0, pair.1)
}

fn has_pair_at(front: &Front, at: usize, pair: Entry) -> bool
    ensures { IsTrue result → Contains front.now pair }
{
    at < front.len() && front.pair_at(at) == pair
}
