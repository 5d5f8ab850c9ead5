//! The counters of fronts.
ghost use Rattle.std.specs.Prelude.{◌≡◌, ◌<◌, ℕ, List, nat_eq, length, map, get_or, Ok, IfOk};
ghost use Rattle.std.specs.Prelude.{IfErr};
ghost use Rattle.std.specs.Cmp.Lexicographic.{pointwise};
ghost use Rattle.json_scalar.specs.Refusal.{UnlessMemory};
ghost use Rattle.version_vector.specs.Front.{greatest};
ghost use Rattle.version_vector.specs.KeptCounters.{kept_counters};

use crate::chunks::{CHUNK, Chunks, counters_of, greatest};
use json_scalar::Refusal;
use lamport_id::ReplicaName;
use std::alloc::Global;
use std::marker::Model;
use std::slice;
use std::sync::ArcSlice;

/// The counters of a front, in the order of its names. A contract sees them as their list.
#[derive(Debug)]
pub struct Counters {
    kept: Kept,
}

// How the counters are kept: most fronts are of one or two replicas.
#[derive(Debug, Drop)]
enum Kept {
    /// One, in place.
    One(u64),
    /// Two, in place.
    Two([u64; 2]),
    /// At most a chunk, in memory of their own.
    Listed(Vec<u64>),
    /// More, in chunks that fronts may share.
    Chunked(Chunks),
}

impl Model for Counters {
    ghost use Rattle.std.specs.Prelude.{ℕ, List};
    ghost use Rattle.version_vector.specs.KeptCounters.{kept_counters};

    ghost Value = { List ℕ };

    ghost view = { λ c. kept_counters c.kept };
}

// One function for all the places where counters are dropped: a derived
// `drop` is written out at each.
impl Drop for Counters {
    fn drop(self) {
        let Counters { kept: _ } = self;
    }
}

impl Counters {
    // The counters of these pairs, which share the chunks that the others have too.
    // The only refusal is `NoMemory`.
    pub(crate) fn from_pairs_beside(
        alloc: Global,
        pairs: &[(ReplicaName, u64)],
        others: &[ArcSlice<u64>],
    ) -> Result<Counters, Refusal>
        ensures { UnlessMemory result (Ok (map (λ (e : List ℕ × ℕ). e.1) pairs.now)) }
    {
        Ok(Counters {
            kept: in_form(alloc, pairs, others)?,
        })
    }

    // The chunks, where they are in chunks.
    pub(crate) fn chunks(&self) -> &[ArcSlice<u64>] {
        match &self.kept {
            Kept::Chunked(chunks) => chunks.as_slice(),
            Kept::One(_) | Kept::Two(_) | Kept::Listed(_) => &[],
        }
    }

    /// The counter at a place.
    pub fn at(&self, at: usize) -> u64
        requires { at < length self.now }
        ensures { result ≡ get_or self.now at 0 }
    {
        match &self.kept {
            Kept::One(counter) => item(slice::from_ref(counter), at),
            Kept::Two(counters) => item(counters, at),
            Kept::Listed(counters) => item(counters.as_slice(), at),
            Kept::Chunked(chunks) => chunks.at(at),
        }
    }

    // The greatest, or 0.
    pub(crate) fn greatest(&self) -> u64
        ensures { result ≡ greatest self.now }
    {
        match &self.kept {
            Kept::One(counter) => *counter,
            Kept::Two(counters) => greatest(counters),
            Kept::Listed(counters) => greatest(counters.as_slice()),
            Kept::Chunked(chunks) => chunks.greatest(),
        }
    }

    // A copy, which shares the chunks. The only refusal is `NoMemory`.
    pub(crate) fn try_clone(&self) -> Result<Counters, Refusal>
        ensures { UnlessMemory result (Ok self.now) }
    {
        let kept = match &self.kept {
            Kept::One(counter) => Kept::One(*counter),
            Kept::Two(counters) => Kept::Two(*counters),
            Kept::Listed(counters) => Kept::Listed(counters.clone()?),
            Kept::Chunked(chunks) => Kept::Chunked(chunks.try_clone()?),
        };
        Ok(Counters { kept })
    }

    // Shares the chunks that the other has too, and that nothing shares yet. Allocates nothing.
    pub(crate) fn share(&mut self, other: &Counters)
        ensures { self.new ≡ self.old }
    {
        if let Kept::Chunked(chunks) = &mut self.kept {
            chunks.share(other.chunks());
        }
    }
}

fn item(counters: &[u64], at: usize) -> u64
    requires { at < length counters.now }
    ensures { result ≡ get_or counters.now at 0 }
{
    counters[at]
}

// The counters of these pairs, in the form that their number asks for.
fn in_form(
    alloc: Global,
    pairs: &[(ReplicaName, u64)],
    others: &[ArcSlice<u64>],
) -> Result<Kept, Refusal>
    ensures ok { IfOk result
        (λ kept. kept_counters kept ≡ map (λ (e : List ℕ × ℕ). e.1) pairs.now) }
    ensures err { IfErr result (λ e. e ≡ Refusal.NoMemory) }
{
    if pairs.len() > CHUNK {
        Ok(Kept::Chunked(Chunks::from_pairs_beside(alloc, pairs, others)?))
    } else {
        few(alloc, pairs)
    }
}

fn few(alloc: Global, pairs: &[(ReplicaName, u64)]) -> Result<Kept, Refusal>
    ensures ok { IfOk result
        (λ kept. kept_counters kept ≡ map (λ (e : List ℕ × ℕ). e.1) pairs.now) }
    ensures err { IfErr result (λ e. e ≡ Refusal.NoMemory) }
{
    match pairs {
        [one] => Ok(Kept::One(one.1)),
        [first, second] => Ok(Kept::Two([first.1, second.1])),
        [] | [_, _, _, ..] => Ok(Kept::Listed(counters_of(alloc, pairs)?)),
    }
}

// Whether two fronts of so many pairs have the same counters.
pub fn are_equal(a: &Counters, b: &Counters, len: usize) -> bool
    requires len { length a.now ≡ len }
    requires other_len { length b.now ≡ len }
    ensures { result ≡ pointwise nat_eq a.now b.now }
{
    for at in 0..len {
        if a.at(at) != b.at(at) {
            return false;
        }
    }
    true
}
