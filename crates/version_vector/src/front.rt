//! Fronts.
ghost use Rattle.std.specs.Prelude.{◌≡◌, ◌↔◌, ◌<◌, ℕ, List, Ok, IfOk, IfErr, IsTrue, true, length};
ghost use Rattle.std.specs.Prelude.{map, get_or};
ghost use Rattle.std.specs.List.{zip};
ghost use Rattle.std.specs.Arc.{arc_slice_items};
ghost use Rattle.std.specs.Cmp.{partial_equiv_from_equiv};
ghost use Rattle.std.specs.Cmp.Lexicographic.{pointwise};
ghost use Rattle.std.specs.Str.{bytes_eq};
ghost use Rattle.json_scalar.specs.Refusal.{UnlessMemory};
ghost use Rattle.version_vector.specs.Front.{front_eq, front_eq_equiv, reaches, id_of, covers};
ghost use Rattle.version_vector.specs.Front.{max_counter, is_le};
ghost use Rattle.version_vector.specs.Front.{is_ascending};

use crate::counters::{Counters, are_equal};
use json_scalar::Refusal;
use lamport_id::{Id, ReplicaName};
use std::alloc::Global;
use std::marker::Model;
use std::sync::ArcSlice;

/// A front: pairs of a replica's name and a counter, which stand for all ids of the replica up to
/// that counter. A contract sees it as the list of its pairs.
#[derive(Debug)]
pub struct Front {
    // the names stand apart from the counters, so that the fronts of a log can share them
    names: ArcSlice<ReplicaName>,
    // many of them are in chunks, which the fronts of a log share too
    counters: Counters,
    // whether the pairs ascend, so that one search finds a name
    in_order: bool,
}

impl Model for Front {
    ghost use Rattle.std.specs.Prelude.{◌≡◌, ℕ, List, length};
    ghost use Rattle.std.specs.List.{zip};
    ghost use Rattle.std.specs.Arc.{arc_slice_items};
    ghost use Rattle.version_vector.specs.Front.{is_ascending};

    ghost Value = { List (List ℕ × ℕ) };

    ghost view = { λ f. zip (arc_slice_items f.names) f.counters };

    ghost invariant = { λ f. (length (arc_slice_items f.names) ≡ length f.counters)
        × (f.in_order ≡ is_ascending (zip (arc_slice_items f.names) f.counters)) };
}

// One function for all the places where a front is dropped: a derived
// `drop` is written out at each.
impl Drop for Front {
    fn drop(self) {
        let Front {
            names: _,
            counters: _,
            in_order: _,
        } = self;
    }
}

impl Front {
    /// The front of these pairs. The only refusal is `NoMemory`.
    pub fn from_pairs(alloc: Global, pairs: &[(ReplicaName, u64)]) -> Result<Front, Refusal>
        ensures { UnlessMemory result (Ok pairs.now) }
    {
        let names = names_of(alloc, pairs)?;
        Front::with_names(alloc, names, pairs, &[])
    }

    /// The front of these pairs, which shares its names with another one where they have the same,
    /// and of more than 16 counters the chunks that both have. The only refusal is `NoMemory`.
    pub fn from_pairs_beside(
        alloc: Global,
        pairs: &[(ReplicaName, u64)],
        other: &Front,
    ) -> Result<Front, Refusal>
        ensures { UnlessMemory result (Ok pairs.now) }
    {
        let names = names_beside(alloc, pairs, &other.names)?;
        Front::with_names(alloc, names, pairs, other.counters.chunks())
    }

    // The front of these pairs, given their names and chunks of counters that it may share.
    fn with_names(
        alloc: Global,
        names: ArcSlice<ReplicaName>,
        pairs: &[(ReplicaName, u64)],
        others: &[ArcSlice<u64>],
    ) -> Result<Front, Refusal>
        requires { arc_slice_items names ≡ map (λ (e : List ℕ × ℕ). e.0) pairs.now }
        ensures { UnlessMemory result (Ok pairs.now) }
    {
        let counters = Counters::from_pairs_beside(alloc, pairs, others)?;
        let in_order = ascends(pairs);
        Ok(Front {
            names,
            counters,
            in_order,
        })
    }

    /// How many pairs there are.
    pub fn len(&self) -> usize
        ensures { result ≡ length self.now }
    {
        self.names.len()
    }

    /// The pair at a place.
    pub fn pair_at(&self, at: usize) -> (ReplicaName, u64)
        requires { at < length self.now }
        ensures { (d : List ℕ × ℕ) → result ≡ get_or self.now at d }
    {
        let (names, counters) = self.parts();
        pair_of(names, counters, at)
    }

    /// The names of the pairs, and their counters.
    pub fn parts(&self) -> (&[ReplicaName], &Counters)
        ensures pairs { zip result.0.now result.1.now ≡ self.now }
        ensures len { length result.0.now ≡ length result.1.now }
    {
        (self.names.as_slice(), &self.counters)
    }

    /// Whether a pair of the id's replica has the id's counter or a greater one, by one
    /// search where the pairs ascend.
    pub fn covers(&self, id: Id) -> bool
        ensures { result ≡ covers self.now id }
    {
        let (names, counters) = self.parts();
        if self.in_order {
            covers_in_order(names, counters, &id)
        } else {
            covers_anywhere(names, counters, &id)
        }
    }

    /// The greatest counter, or 0.
    pub fn max_counter(&self) -> u64
        ensures { result ≡ max_counter self.now }
    {
        self.counters.greatest()
    }

    /// Whether the other front covers the id of each pair. The program doesn't call it.
    pub fn le(&self, other: &Front) -> bool
        ensures { result ≡ is_le self.now other.now }
    {
        covers_all(other, self)
    }

    /// Whether the pairs ascend strictly by name.
    pub fn is_ascending(&self) -> bool
        ensures { result ≡ is_ascending self.now }
    {
        self.in_order
    }

    /// A copy. The only refusal is `NoMemory`.
    pub fn try_clone(&self) -> Result<Front, Refusal>
        ensures { UnlessMemory result (Ok self.now) }
    {
        Ok(Front {
            names: self.names.clone()?,
            counters: self.counters.try_clone()?,
            in_order: self.in_order,
        })
    }

    /// Shares the names with another front where it has the same, and nothing
    /// shares them yet. Allocates nothing.
    pub fn share_names(&mut self, other: &Front)
        ensures { self.new ≡ self.old }
    {
        share(&mut self.names, &other.names);
    }

    /// Shares the chunks of counters that another front has too, and that nothing
    /// shares yet. Allocates nothing.
    pub fn share_counters(&mut self, other: &Front)
        ensures { self.new ≡ self.old }
    {
        self.counters.share(&other.counters);
    }
}

// Puts the other's names in place of equal ones that nothing shares yet.
fn share(names: &mut ArcSlice<ReplicaName>, other: &ArcSlice<ReplicaName>)
    ensures { arc_slice_items names.new ≡ arc_slice_items names.old }
{
    if ArcSlice::strong_count(names) == 1 && have_equal_names(names.as_slice(), other.as_slice()) {
        put_in_place(names, other);
    }
}

// The other names in place of the first, which stay where the others can't be shared.
fn put_in_place(names: &mut ArcSlice<ReplicaName>, other: &ArcSlice<ReplicaName>)
    requires { arc_slice_items names.old ≡ arc_slice_items other.now }
    ensures { arc_slice_items names.new ≡ arc_slice_items names.old }
{
    if let Ok(shared) = other.clone() {
        *names = shared;
    }
}

fn have_equal_names(names: &[ReplicaName], others: &[ReplicaName]) -> bool
    ensures { result ≡ pointwise bytes_eq names.now others.now }
{
    names == others
}

fn names_of(alloc: Global, pairs: &[(ReplicaName, u64)]) -> Result<ArcSlice<ReplicaName>, Refusal>
    ensures ok { IfOk result
        (λ names. arc_slice_items names ≡ map (λ (e : List ℕ × ℕ). e.0) pairs.now) }
    ensures err { IfErr result (λ e. e ≡ Refusal.NoMemory) }
{
    let mut names = Vec::with_capacity(alloc, pairs.len())?;
    for pair in pairs {
        names.push_reserved(pair.0);
    }
    Ok(ArcSlice::from_vec(names)?)
}

// The names of the pairs, in the other's place where they are those.
fn names_beside(
    alloc: Global,
    pairs: &[(ReplicaName, u64)],
    other: &ArcSlice<ReplicaName>,
) -> Result<ArcSlice<ReplicaName>, Refusal>
    ensures ok { IfOk result
        (λ names. arc_slice_items names ≡ map (λ (e : List ℕ × ℕ). e.0) pairs.now) }
    ensures err { IfErr result (λ e. e ≡ Refusal.NoMemory) }
{
    if are_names_of(other.as_slice(), pairs) {
        Ok(other.clone()?)
    } else {
        names_of(alloc, pairs)
    }
}

fn are_names_of(names: &[ReplicaName], pairs: &[(ReplicaName, u64)]) -> bool
    ensures { IsTrue result → names.now ≡ map (λ (e : List ℕ × ℕ). e.0) pairs.now }
{
    if names.len() != pairs.len() {
        return false;
    }
    for at in 0..names.len() {
        if names[at] != pairs[at].0 {
            return false;
        }
    }
    true
}

fn reaches(name: &ReplicaName, counter: u64, id: &Id) -> bool
    ensures { result ≡ reaches id.now (name.now, counter) }
{
    *name == id.replica && id.counter <= counter
}

// Whether a pair reaches the id, by one search.
fn covers_in_order(names: &[ReplicaName], counters: &Counters, id: &Id) -> bool
    requires len { length names.now ≡ length counters.now }
    requires ascending { is_ascending (zip names.now counters.now) ≡ true }
    ensures { result ≡ covers (zip names.now counters.now) id.now }
{
    let at = names.partition_point(|name| *name < id.replica);
    if at < names.len() {
        reaches(&names[at], counters.at(at), id)
    } else {
        false
    }
}

// Whether a pair reaches the id, by a look at each.
fn covers_anywhere(names: &[ReplicaName], counters: &Counters, id: &Id) -> bool
    requires { length names.now ≡ length counters.now }
    ensures { result ≡ covers (zip names.now counters.now) id.now }
{
    for at in 0..names.len() {
        if reaches(&names[at], counters.at(at), id) {
            return true;
        }
    }
    false
}

fn pair_of(names: &[ReplicaName], counters: &Counters, at: usize) -> (ReplicaName, u64)
    requires len { length names.now ≡ length counters.now }
    requires at { at < length counters.now }
    ensures { (d : List ℕ × ℕ) → result ≡ get_or (zip names.now counters.now) at d }
{
    (names[at], counters.at(at))
}

// Whether the front covers the id of each pair of the other.
fn covers_all(front: &Front, other: &Front) -> bool
    ensures { result ≡ is_le other.now front.now }
{
    for at in 0..other.len() {
        let (name, counter) = other.pair_at(at);
        if !front.covers(id_of(name, counter)) {
            return false;
        }
    }
    true
}

/// The id of a replica's name and a counter.
pub fn id_of(name: ReplicaName, counter: u64) -> Id
    ensures { result ≡ id_of (name, counter) }
{
    Id {
        counter,
        replica: name,
    }
}

fn ascends(entries: &[(ReplicaName, u64)]) -> bool
    ensures { result ≡ is_ascending entries.now }
{
    for i in 1..entries.len() {
        if entries[i - 1].0 >= entries[i].0 {
            return false;
        }
    }
    true
}

impl PartialEq for Front {
    ghost eq = { front_eq };

    ghost laws = { partial_equiv_from_equiv front_eq_equiv };

    #[tactic(auto, using(crate::proofs::Equality::fronts))]
    fn eq(&self, other: &Front) -> bool
        ensures value { result ≡ front_eq self.now other.now }
        ensures same { IsTrue result ↔ (self.now ≡ other.now) }
    {
        have_equal_entries(self, other)
    }
}

fn have_equal_entries(a: &Front, b: &Front) -> bool
    ensures { result ≡ front_eq a.now b.now }
{
    a.names == b.names && are_equal(&a.counters, &b.counters, a.names.len())
}

impl Eq for Front {
    ghost laws = { front_eq_equiv };
}
