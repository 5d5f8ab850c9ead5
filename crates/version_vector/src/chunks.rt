//! Counters in chunks, which fronts share.
ghost use Rattle.std.specs.Prelude.{◌≡◌, ◌<◌, ℕ, List, [], ◌∷◌, ◌++◌, true, length, map, get_or};
ghost use Rattle.std.specs.Prelude.{Ok, OnOk, IfOk, IfErr, IsTrue};
ghost use Rattle.std.specs.Arc.{arc_slice_items};
ghost use Rattle.std.specs.List.{concat};
ghost use Rattle.json_scalar.specs.Refusal.{UnlessMemory};
ghost use Rattle.version_vector.specs.Chunks.{are_full};
ghost use Rattle.version_vector.specs.Front.{greatest};

use json_scalar::Refusal;
use lamport_id::ReplicaName;
use std::alloc::Global;
use std::marker::Model;
use std::sync::ArcSlice;

// How many counters a chunk has.
pub const CHUNK: usize = 16;

// Counters in chunks, all of which but the last are full.
#[derive(Debug)]
pub struct Chunks {
    chunks: Vec<ArcSlice<u64>>,
}

impl Model for Chunks {
    ghost use Rattle.std.specs.Prelude.{◌≡◌, ℕ, List, true, map};
    ghost use Rattle.std.specs.List.{concat};
    ghost use Rattle.std.specs.Arc.{arc_slice_items};
    ghost use Rattle.version_vector.specs.Chunks.{are_full};

    ghost Value = { List ℕ };

    ghost view = { λ c. concat (map arc_slice_items c.chunks.items) };

    ghost invariant = { λ c. are_full (map arc_slice_items c.chunks.items) ≡ true };
}

// One function for all the places where they are dropped: a derived `drop` is written out at each.
impl Drop for Chunks {
    fn drop(self) {
        let Chunks { chunks: _ } = self;
    }
}

impl Chunks {
    // The counters of these pairs, in chunks of the others' where those have the same at their
    // place. The only refusal is `NoMemory`.
    pub fn from_pairs_beside(
        alloc: Global,
        pairs: &[(ReplicaName, u64)],
        others: &[ArcSlice<u64>],
    ) -> Result<Chunks, Refusal>
        ensures { UnlessMemory result (Ok (map (λ (e : List ℕ × ℕ). e.1) pairs.now)) }
    {
        Ok(Chunks {
            chunks: chunks_of(alloc, pairs, others)?,
        })
    }

    // The chunks.
    pub fn as_slice(&self) -> &[ArcSlice<u64>] {
        self.chunks.as_slice()
    }

    // The counter at a place.
    pub fn at(&self, at: usize) -> u64
        requires { at < length self.now }
        ensures { result ≡ get_or self.now at 0 }
    {
        counter_at(self.chunks.as_slice(), at)
    }

    // The greatest, or 0.
    pub fn greatest(&self) -> u64
        ensures { result ≡ greatest self.now }
    {
        greatest_of_all(self.chunks.as_slice())
    }

    // A copy, which shares the chunks. The only refusal is `NoMemory`.
    pub fn try_clone(&self) -> Result<Chunks, Refusal>
        ensures { UnlessMemory result (Ok self.now) }
    {
        Ok(Chunks {
            chunks: cloned(&self.chunks)?,
        })
    }

    // Shares the chunks that are among the others at their place, and that nothing
    // shares yet. Allocates nothing.
    pub fn share(&mut self, others: &[ArcSlice<u64>])
        ensures { self.new ≡ self.old }
    {
        share_chunks(&mut self.chunks, others);
    }
}

// The counters of the pairs in chunks, which are the others' where
// those have the same at their place.
fn chunks_of(
    alloc: Global,
    pairs: &[(ReplicaName, u64)],
    others: &[ArcSlice<u64>],
) -> Result<Vec<ArcSlice<u64>>, Refusal>
    ensures ok { IfOk result
        (λ chunks. concat (map arc_slice_items chunks.items)
        ≡ map (λ (e : List ℕ × ℕ). e.1) pairs.now) }
    ensures full { IfOk result (λ chunks. are_full (map arc_slice_items chunks.items) ≡ true) }
    ensures err { IfErr result (λ e. e ≡ Refusal.NoMemory) }
{
    let mut chunks = Vec::with_capacity(alloc, pairs.len().div_ceil(CHUNK))?;
    let mut rest = pairs;
    while rest.len() > CHUNK {
        let (first, behind) = rest.split_at(CHUNK);
        push_chunk(alloc, &mut chunks, first, others)?;
        rest = behind;
    }
    push_chunk(alloc, &mut chunks, rest, others)?;
    Ok(chunks)
}

// One chunk more, of these pairs, in the place of the other's there.
fn push_chunk(
    alloc: Global,
    chunks: &mut Vec<ArcSlice<u64>>,
    pairs: &[(ReplicaName, u64)],
    others: &[ArcSlice<u64>],
) -> Result<(), Refusal>
    ensures ok { OnOk result (map arc_slice_items chunks.new.items
        ≡ map arc_slice_items chunks.old.items ++ map (λ (e : List ℕ × ℕ). e.1) pairs.now ∷ []) }
    ensures err { IfErr result (λ e. e ≡ Refusal.NoMemory) }
{
    let chunk = chunk_beside(alloc, pairs, others.get(chunks.len()))?;
    chunks.push(chunk)?;
    Ok(())
}

// The counters of the pairs, in the other's place where they are those.
fn chunk_beside(
    alloc: Global,
    pairs: &[(ReplicaName, u64)],
    other: Option<&ArcSlice<u64>>,
) -> Result<ArcSlice<u64>, Refusal>
    ensures ok { IfOk result
        (λ chunk. arc_slice_items chunk ≡ map (λ (e : List ℕ × ℕ). e.1) pairs.now) }
    ensures err { IfErr result (λ e. e ≡ Refusal.NoMemory) }
{
    if let Some(chunk) = other
        && are_counters_of(chunk.as_slice(), pairs)
    {
        return Ok(chunk.clone()?);
    }
    Ok(ArcSlice::from_vec(counters_of(alloc, pairs)?)?)
}

fn are_counters_of(counters: &[u64], pairs: &[(ReplicaName, u64)]) -> bool
    ensures { IsTrue result → counters.now ≡ map (λ (e : List ℕ × ℕ). e.1) pairs.now }
{
    if counters.len() != pairs.len() {
        return false;
    }
    for at in 0..counters.len() {
        if counters[at] != pairs[at].1 {
            return false;
        }
    }
    true
}

fn counter_at(chunks: &[ArcSlice<u64>], at: usize) -> u64
    requires full { are_full (map arc_slice_items chunks.now) ≡ true }
    requires within { at < length (concat (map arc_slice_items chunks.now)) }
    ensures { result ≡ get_or (concat (map arc_slice_items chunks.now)) at 0 }
{
    chunks[at / CHUNK].as_slice()[at % CHUNK]
}

fn greatest_of_all(chunks: &[ArcSlice<u64>]) -> u64
    ensures { result ≡ greatest (concat (map arc_slice_items chunks.now)) }
{
    let mut most = 0;
    for chunk in chunks {
        most = most.max(greatest(chunk.as_slice()));
    }
    most
}

// A clone of the chunks, which both then share.
fn cloned(chunks: &Vec<ArcSlice<u64>>) -> Result<Vec<ArcSlice<u64>>, Refusal>
    ensures ok { IfOk result
        (λ copy. map arc_slice_items copy.items ≡ map arc_slice_items chunks.now.items) }
    ensures err { IfErr result (λ e. e ≡ Refusal.NoMemory) }
{
    Ok(chunks.clone()?)
}

fn share_chunks(chunks: &mut Vec<ArcSlice<u64>>, others: &[ArcSlice<u64>])
    ensures { map arc_slice_items chunks.new.items ≡ map arc_slice_items chunks.old.items }
{
    for at in 0..chunks.len().min(others.len()) {
        share_chunk(&mut chunks[at], &others[at]);
    }
}

// Puts the other's counters in place of equal ones that nothing shares yet.
fn share_chunk(chunk: &mut ArcSlice<u64>, other: &ArcSlice<u64>)
    ensures { arc_slice_items chunk.new ≡ arc_slice_items chunk.old }
{
    if ArcSlice::strong_count(chunk) == 1 && are_same(chunk.as_slice(), other.as_slice()) {
        put_in_place(chunk, other);
    }
}

fn are_same(counters: &[u64], others: &[u64]) -> bool
    ensures { IsTrue result → counters.now ≡ others.now }
{
    counters == others
}

// The other counters in place of the first, which stay where the others can't be shared.
fn put_in_place(chunk: &mut ArcSlice<u64>, other: &ArcSlice<u64>)
    requires { arc_slice_items chunk.old ≡ arc_slice_items other.now }
    ensures { arc_slice_items chunk.new ≡ arc_slice_items chunk.old }
{
    if let Ok(shared) = other.clone() {
        *chunk = shared;
    }
}

// The counters of these pairs.
pub fn counters_of(alloc: Global, pairs: &[(ReplicaName, u64)]) -> Result<Vec<u64>, Refusal>
    ensures ok { IfOk result
        (λ counters. counters.items ≡ map (λ (e : List ℕ × ℕ). e.1) pairs.now) }
    ensures err { IfErr result (λ e. e ≡ Refusal.NoMemory) }
{
    let mut counters = Vec::with_capacity(alloc, pairs.len())?;
    for pair in pairs {
        counters.push_reserved(pair.1);
    }
    Ok(counters)
}

// The greatest of these, or 0.
pub fn greatest(counters: &[u64]) -> u64
    ensures { result ≡ greatest counters.now }
{
    let mut most = 0;
    for counter in counters {
        most = most.max(*counter);
    }
    most
}
