//! Values by the ids of operations at a place: the roles in which they make it
//! present, their scalars, their numbers.
#![tactic(auto)]

ghost use Rattle.std.specs.Prelude.{◌≡◌, ◌+◌, ◌<◌, ◌≤◌, ◌↔◌, [], length, take, drop, max, not};
ghost use Rattle.std.specs.Prelude.{true, IsTrue, IfOk, IsOk, MatchOption, None, Some, OnOk, OnErr};
ghost use Rattle.std.specs.Ordering.{is_lt};
ghost use Rattle.version_vector.specs.Front.{covers};
ghost use Rattle.lamport_id.specs.Order.{id_cmp};
ghost use Rattle.presence_set.specs.ById.{put_at_id, get, contains, uncovered, rank, IsAscending};
ghost use Rattle.small_values.specs.SmallVec.{elements, room};

mod blocks;
mod empty_put;
mod id_blocks;
mod lack;
mod later;

pub use crate::blocks::{Entries, Presence};
pub use crate::empty_put::EmptyPut;
pub use crate::id_blocks::IdBlocks;
pub use doc_api::Role;
use lamport_id::Id;
use small_values::SmallVec;
use std::alloc::{AllocError, Global};
use std::cmp::Ordering;
use std::marker::Model;
use version_vector::Front;

/// At most one value for each id, in id order; one alone takes no memory of its own. Clauses see a
/// pair: the ids with their values, and how many of them there is room for.
pub struct ById<X> {
    entries: SmallVec<(Id, X)>,
    alloc: Global,
}

impl<X> Model for ById<X> {
    ghost use Rattle.std.specs.Prelude.{List, ℕ};
    ghost use Rattle.lamport_id.specs.declared.id.Id.{Id};
    ghost use Rattle.presence_set.specs.ById.{IsAscending};
    ghost use Rattle.small_values.specs.SmallVec.{elements, room};

    ghost Value = { List (Id × X) × ℕ };

    ghost view = { λ p. (elements p.entries, room p.entries) };

    ghost invariant = { λ p. IsAscending (elements p.entries) };
}

impl<X: Drop> Drop for ById<X> {
    fn drop(self) {
        let ById {
            entries: _,
            alloc: _,
        } = self;
    }
}

impl<X: Drop> ById<X> {
    /// No id. It takes no memory yet.
    pub fn new(alloc: Global) -> ById<X>
        ensures { result.0 ≡ [] }
    {
        ById {
            entries: SmallVec::new(),
            alloc,
        }
    }

    /// Makes room for one more id. It never fails where there is room. Out of
    /// memory, the entries stay as they are.
    pub fn reserve_one(&mut self) -> Result<(), AllocError>
        ensures same { self.new.0 ≡ self.old.0 }
        ensures grows { self.old.1 ≤ self.new.1 }
        ensures room { OnOk result (length self.new.0 < self.new.1) }
        ensures succeeds { length self.old.0 < self.old.1 → IsOk result }
    {
        self.entries.reserve_one(self.alloc)
    }

    /// Gives the id this value, in place of any other.
    pub fn put(&mut self, id: Id, value: X)
        requires { length self.old.0 < self.old.1 }
        ensures { self.new ≡ (put_at_id self.old.0 id value, self.old.1) }
    {
        put_listed(&mut self.entries, id, value);
    }

    // Moves the entries from a place on into a set of their own. Out of memory, they stay.
    fn split_off(&mut self, at: usize) -> Result<ById<X>, AllocError>
        requires { at ≤ length self.old.0 }
        ensures low { OnOk result (self.new.0 ≡ take at self.old.0) }
        ensures high { IfOk result (λ b. b.0 ≡ drop at self.old.0) }
        ensures room { OnOk result (at < length self.old.0 → at < self.new.1) }
        ensures err { OnErr result (self.new ≡ self.old) }
    {
        Ok(ById {
            entries: self.entries.split_off(at)?,
            alloc: self.alloc,
        })
    }

    /// Drops the ids that the front covers.
    pub fn retain_uncovered(&mut self, front: &Front)
        ensures { self.new ≡ (uncovered front.now self.old.0, self.old.1) }
    {
        self.entries.retain(
            |entry: &(Id, X)| -> bool
                ensures { result ≡ not (covers front.entry.now entry.now.0) }
            { !front.covers(entry.0) },
        );
    }

    /// Whether there is no id.
    pub fn is_empty(&self) -> bool
        ensures { IsTrue result ↔ (self.now.0 ≡ []) }
    {
        self.entries().is_empty()
    }

    // Whether there is room for one more id.
    fn has_room(&self) -> bool
        ensures { IsTrue result ↔ (length self.now.0 < self.now.1) }
    {
        self.entries.has_room()
    }

    /// The ids with their values, in id order.
    pub fn entries(&self) -> &[(Id, X)]
        ensures value { result.now ≡ self.now.0 }
        ensures ascending { IsAscending result.now }
    {
        self.entries.as_slice()
    }

    /// Whether some entry has this id. It is found by bisection.
    pub fn contains(&self, id: Id) -> bool
        ensures { result ≡ contains self.now.0 id }
    {
        let entries = self.entries();
        let at = rank_of(entries, &id);
        at < entries.len() && entries[at].0 == id
    }

    /// The value of an id. It is found by bisection.
    pub fn get(&self, id: &Id) -> Option<&X>
        ensures { MatchOption result (get self.now.0 id.now ≡ None)
            (λ x. get self.now.0 id.now ≡ Some x.now) }
    {
        let entries = self.entries();
        let at = rank_of(entries, id);
        if at < entries.len() && entries[at].0 == *id {
            Some(&entries[at].1)
        } else {
            None
        }
    }
}

// Gives the id this value, in place of any other, where there is room.
fn put_listed<X: Drop>(entries: &mut SmallVec<(Id, X)>, id: Id, value: X)
    requires rising { IsAscending (elements entries.old) }
    requires room { length (elements entries.old) < room entries.old }
    ensures items { elements entries.new ≡ put_at_id (elements entries.old) id value }
    ensures room { room entries.new ≡ room entries.old }
{
    let listed = entries.as_slice();
    let at = rank_of(listed, &id);
    if at < listed.len() && listed[at].0 == id {
        entries.set(at, (id, value));
    } else {
        entries.insert_reserved(at, (id, value));
    }
}

/// How many entries have a lesser id, found by bisection.
pub fn rank_of<X>(entries: &[(Id, X)], id: &Id) -> usize
    requires { IsAscending entries.now }
    ensures value { result ≡ rank entries.now id.now }
    ensures within { result ≤ length entries.now }
{
    // Most ids come behind all others, or are the last.
    if entries.is_empty() {
        return 0;
    }
    let last = entries.len() - 1;
    match entries[last].0.cmp(id) {
        Ordering::Less => entries.len(),
        Ordering::Equal => last,
        Ordering::Greater => entries.partition_point(|entry| entry.0 < *id),
    }
}
