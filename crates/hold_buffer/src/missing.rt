//! What one held operation waits for.
ghost use Rattle.std.specs.Prelude.{◌≡◌, true, ◌↔◌, ◌<◌, IsTrue, Contains, slice_index_or};
ghost use Rattle.std.specs.Prelude.{slice_set, not, length};
ghost use Rattle.std.specs.Prelude.{filter, ◌==◌, Ok, MatchResult, MatchOption, IfOk};
ghost use Rattle.doc_api.specs.Words.{Id, UnlessMemory, name_cmp};
ghost use Rattle.crdt_rules.specs.Same.{id_eq};
ghost use Rattle.doc_rules.specs.Sorted.{IsRising};
ghost use Rattle.list_laws.specs.Sorted.{IsIndexOf, IsGap};
ghost use Rattle.hold_buffer.specs.Missing.{is_left, left_of, arrived};

use doc_api::Ids;
use json_scalar::Refusal;
use lamport_id::{Id, ReplicaName};
use std::alloc::{AllocError, Global};
use std::marker::Model;

/// The ids for which one operation waits, of different replicas, in the order of its front.
/// A contract sees them as a list.
#[derive(Debug)]
pub struct Missing {
    // all that it waited for at first; what was logged since has a counter that no operation has
    ids: Vec<Id>,
    // how many were not logged since
    count: usize,
}

impl Model for Missing {
    ghost use Rattle.std.specs.Prelude.{List};
    ghost use Rattle.doc_api.specs.Words.{Id};
    ghost use Rattle.hold_buffer.specs.Missing.{left_of, HasLeft};

    ghost Value = { List Id };

    ghost view = { λ l. left_of l.ids.items };

    ghost invariant = { λ l. HasLeft l.count l.ids.items };
}

impl Missing {
    /// These ids, in no more room than they take. The only error is out of memory.
    pub fn of(alloc: Global, missing: &Ids) -> Result<Missing, Refusal>
        requires rising { IsRising name_cmp (λ i. i.replica) missing.now }
        requires left { left_of missing.now ≡ missing.now }
        ensures { UnlessMemory result (Ok missing.now) }
    {
        let ids = missing.as_slice().to_vec(alloc)?;
        let count = ids.len();
        Ok(Missing { ids, count })
    }

    /// Whether there is none.
    pub fn is_empty(&self) -> bool
        ensures { result ≡ (length self.now == 0) }
    {
        self.count == 0
    }

    /// The ids, in their order. The only error is out of memory.
    pub fn ids(&self, alloc: Global) -> Result<Ids, Refusal>
        ensures { UnlessMemory result (Ok self.now) }
    {
        Ok(Ids::from(left_of(alloc, &self.ids)?))
    }

    /// The ids, in their order, among those that were logged since: these have greater
    /// counters than operations have.
    pub fn among(&self) -> &[Id]
        ensures { left_of result.now ≡ self.now }
    {
        self.ids.as_slice()
    }

    /// Takes an id out, if it is there: in time by one search, since
    /// the others stay where they are.
    pub fn remove(&mut self, id: &Id)
        ensures { self.new ≡ filter (λ i. not (id_eq i id.now)) self.old }
    {
        if let Some(at) = index_of(&self.ids, id) {
            if id.counter < LOGGED {
                clear(&mut self.ids, at);
                self.count -= 1;
            }
        }
    }
}

// Added to the counter of an id that was logged: no operation has such a counter.
const LOGGED: u64 = 4_294_967_296;

// Those that were not logged since.
fn left_of(alloc: Global, ids: &[Id]) -> Result<Vec<Id>, AllocError>
    ensures { IfOk result (λ left. left.items ≡ left_of ids.now) }
{
    ids.iter()
        .filter(|id| id.counter < LOGGED)
        .map(|id| *id)
        .collect(alloc)
}

// Notes that the id at an index was logged.
fn clear(ids: &mut Vec<Id>, at: usize)
    requires within { at < length ids.old.items }
    requires left { (d : Id) → is_left (slice_index_or ids.old.items at d) ≡ true }
    ensures { (d : Id)
        → ids.new.items ≡ slice_set ids.old.items at (arrived (slice_index_or ids.old.items at d)) }
{
    ids[at].counter += LOGGED;
}

// Up to so many ids are compared one by one: most have another counter, which takes less time to
// compare than a name.
const FEW: usize = 8;

// The index of the id.
fn index_of(ids: &[Id], id: &Id) -> Option<usize>
    requires { IsRising name_cmp (λ i. i.replica) ids.now }
    ensures { MatchOption result (¬ (Contains ids.now id.now))
        (λ at. (at < length ids.now) × ((d : Id) → slice_index_or ids.now at d ≡ id.now)) }
{
    if ids.len() <= FEW {
        scanned_index(ids, id)
    } else {
        searched_index(ids, id)
    }
}

// The index of the id, by a look at each.
fn scanned_index(ids: &[Id], id: &Id) -> Option<usize>
    ensures { MatchOption result (¬ (Contains ids.now id.now))
        (λ at. (at < length ids.now) × ((d : Id) → slice_index_or ids.now at d ≡ id.now)) }
{
    for at in 0..ids.len() {
        if is_same(&ids[at], id) {
            return Some(at);
        }
    }
    None
}

// Whether two ids are one, by the counters first.
fn is_same(id: &Id, other: &Id) -> bool
    ensures { IsTrue result ↔ (id.now ≡ other.now) }
{
    id.counter == other.counter && id.replica == other.replica
}

// The index of the id, by one search.
fn searched_index(ids: &[Id], id: &Id) -> Option<usize>
    requires { IsRising name_cmp (λ i. i.replica) ids.now }
    ensures { MatchOption result (¬ (Contains ids.now id.now))
        (λ at. (at < length ids.now) × ((d : Id) → slice_index_or ids.now at d ≡ id.now)) }
{
    match search(ids, id.replica) {
        Ok(at) if ids[at].counter == id.counter => Some(at),
        _ => None,
    }
}

// The index of a replica's id, or where it would go.
fn search(ids: &[Id], name: ReplicaName) -> Result<usize, usize>
    requires { IsRising name_cmp (λ i. i.replica) ids.now }
    ensures { MatchResult result
        (IsIndexOf name_cmp (λ i. i.replica) ids.now name) (IsGap name_cmp
        (λ i. i.replica) ids.now name) }
{
    ids.binary_search_by_key(&name, |id| id.replica)
}

// By hand, so that it is called and not written out where it is dropped.
impl Drop for Missing {
    fn drop(self) {
        let Missing { ids: _, count: _ } = self;
    }
}
