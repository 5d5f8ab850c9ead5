//! A vector with one element in place.
ghost use Rattle.std.specs.Prelude.{◌≡◌, ◌+◌, ◌<◌, ◌≤◌, ◌↔◌, ◌++◌, ◌∷◌, [], List, length, take};
ghost use Rattle.std.specs.Prelude.{drop, set, insert, true, IsTrue, IfOk, IsOk, OnOk, OnErr};
ghost use Rattle.std.specs.Prelude.{if◌then◌else◌};
ghost use Rattle.std.specs.Vec.{vec_capacity};
ghost use Rattle.std.specs.Fn.{CalledAt};
ghost use Rattle.std.specs.List.Retain.{IsFiltered};
ghost use Rattle.small_values.specs.SmallVec.{elements, elements_by, room, is_one};

use std::alloc::{AllocError, Global};
use std::mem;

/// At most one element in place, or any in memory of their own, or another value in
/// place of elements. That shares the tag of the others: in an enum around a small
/// vector it would take a word more.
#[derive(Drop)]
pub enum SmallVec<X, O = ()> {
    /// No element of its own, and what is in place of them: by default
    /// nothing. The next one is in place.
    Other(O),
    /// One element, in place.
    One([X; 1]),
    /// Any elements, in memory of their own.
    Listed(Vec<X>),
}

impl<X: Drop, O: Drop> SmallVec<X, O> {
    /// Its own elements.
    pub fn as_slice(&self) -> &[X]
        ensures { result.now ≡ elements self.now }
    {
        match self {
            SmallVec::Other(_) => &[],
            SmallVec::One(element) => element.as_slice(),
            SmallVec::Listed(elements) => elements.as_slice(),
        }
    }

    /// Makes room for so many elements more, and for no others. It never fails where there is room.
    /// Out of memory, the elements stay as they are.
    pub fn reserve_exact(&mut self, alloc: Global, additional: usize) -> Result<(), AllocError>
        ensures same { (other : O → List X) → elements_by other self.old ≡ elements self.old
            → elements_by other self.new ≡ elements self.old }
        ensures room { OnOk result (length (elements self.new) + additional ≤ room self.new) }
        ensures succeeds { length (elements self.old) + additional ≤ room self.old → IsOk result }
    {
        match self {
            SmallVec::Other(_) => {
                if additional > 1 {
                    *self = SmallVec::Listed(Vec::with_capacity(alloc, additional)?);
                }
                Ok(())
            }
            SmallVec::One(_) => {
                if additional > 0 {
                    return self.move_out(alloc, additional);
                }
                Ok(())
            }
            SmallVec::Listed(elements) => elements.reserve_exact(additional),
        }
    }

    /// One element more, at the end, for which there is room.
    pub fn push_reserved(&mut self, element: X)
        requires { length (elements self.old) < room self.old }
        ensures elements { (other : O → List X)
            → elements_by other self.new ≡ elements self.old ++ element ∷ [] }
        ensures room { room self.new ≡ room self.old }
    {
        match self {
            SmallVec::Other(_) => *self = SmallVec::One([element]),
            SmallVec::One(_) => unreachable!(),
            SmallVec::Listed(elements) => elements.push_reserved(element),
        }
    }

    // Moves the element in place into memory with room for so many more.
    fn move_out(&mut self, alloc: Global, additional: usize) -> Result<(), AllocError>
        requires { is_one self.old ≡ true }
        ensures same { (other : O → List X) → elements_by other self.new ≡ elements self.old }
        ensures room { OnOk result (length (elements self.new) + additional ≤ room self.new) }
        ensures grows { room self.old ≤ room self.new }
    {
        if additional == usize::MAX {
            return Err(AllocError);
        }
        let memory = Vec::with_capacity(alloc, additional + 1)?;
        let one = mem::replace(self, SmallVec::Listed(Vec::new(alloc)));
        *self = SmallVec::Listed(moved(one, memory));
        Ok(())
    }
}

impl<X: Drop> SmallVec<X> {
    /// No element. It takes no memory yet.
    pub fn new() -> SmallVec<X>
        ensures elements { elements result ≡ [] }
        ensures room { room result ≡ 1 }
    {
        SmallVec::Other(())
    }

    /// Whether there is room for one element more.
    pub fn has_room(&self) -> bool
        ensures { IsTrue result ↔ (length (elements self.now) < room self.now) }
    {
        match self {
            SmallVec::Other(_) => true,
            SmallVec::One(_) => false,
            SmallVec::Listed(elements) => elements.len() < elements.capacity(),
        }
    }

    /// Makes room for one element more, and in memory for some others. It never fails where there
    /// is room. Out of memory, the elements stay as they are.
    pub fn reserve_one(&mut self, alloc: Global) -> Result<(), AllocError>
        ensures same { elements self.new ≡ elements self.old }
        ensures grows { room self.old ≤ room self.new }
        ensures room { OnOk result (length (elements self.new) < room self.new) }
        ensures succeeds { length (elements self.old) < room self.old → IsOk result }
    {
        match self {
            SmallVec::Other(_) => Ok(()),
            SmallVec::One(_) => self.move_out(alloc, 1),
            SmallVec::Listed(elements) => elements.reserve(1),
        }
    }

    /// One element more, before the one at this place, for which there is room.
    pub fn insert_reserved(&mut self, at: usize, element: X)
        requires within { at ≤ length (elements self.old) }
        requires room { length (elements self.old) < room self.old }
        ensures elements { elements self.new ≡ insert (elements self.old) at element }
        ensures room { room self.new ≡ room self.old }
    {
        match self {
            SmallVec::Other(_) => *self = SmallVec::One([element]),
            SmallVec::One(_) => unreachable!(),
            SmallVec::Listed(elements) => match elements.insert(at, element) {
                Ok(()) => {}
                Err(_) => unreachable!(),
            },
        }
    }

    /// Puts an element in place of the one there.
    pub fn set(&mut self, at: usize, element: X)
        requires { at < length (elements self.old) }
        ensures elements { elements self.new ≡ set (elements self.old) at element }
        ensures room { room self.new ≡ room self.old }
    {
        match self {
            SmallVec::Other(_) => unreachable!(),
            SmallVec::One(one) => one[0] = element,
            SmallVec::Listed(elements) => elements[at] = element,
        }
    }

    /// Keeps the elements at which the test answers `true`, in their order. The memory stays.
    pub fn retain<F: FnMut(&X) -> bool + Drop>(&mut self, keep: F)
        requires { F.IsAlwaysCallable keep }
        ensures filtered { IsFiltered (CalledAt F.FnMut) keep (elements self.old) (elements self.new) }
        ensures room { room self.new ≡ room self.old }
    {
        match self {
            SmallVec::Other(_) => {}
            SmallVec::One(one) => {
                if !keeps_first(one, keep) {
                    *self = SmallVec::new();
                }
            }
            SmallVec::Listed(elements) => elements.retain(keep),
        }
    }

    /// Moves the elements from a place on into a vector of their own. Out of memory, they stay.
    pub fn split_off(&mut self, at: usize) -> Result<SmallVec<X>, AllocError>
        requires { at ≤ length (elements self.old) }
        ensures low { OnOk result (elements self.new ≡ take at (elements self.old)) }
        ensures high { IfOk result (λ tail. elements tail ≡ drop at (elements self.old)) }
        ensures err { OnErr result (self.new ≡ self.old) }
        ensures room { OnOk result (at < length (elements self.old) → at < room self.new) }
    {
        match self {
            SmallVec::Other(_) => Ok(SmallVec::new()),
            SmallVec::One(one) => {
                if at == len_of_one(one) {
                    return Ok(SmallVec::new());
                }
                Ok(mem::replace(self, SmallVec::new()))
            }
            SmallVec::Listed(elements) => Ok(SmallVec::Listed(elements.split_off(at)?)),
        }
    }
}

// The element that was in place, in memory that has room for it.
fn moved<X: Drop, O: Drop>(one: SmallVec<X, O>, memory: Vec<X>) -> Vec<X>
    requires one { is_one one ≡ true }
    requires empty { memory.items ≡ [] }
    requires room { 0 < vec_capacity memory }
    ensures items { result.items ≡ elements one }
    ensures room { vec_capacity result ≡ vec_capacity memory }
{
    match one {
        SmallVec::One([element]) => {
            let mut elements = memory;
            elements.push_reserved(element);
            elements
        }
        SmallVec::Other(_other) => unreachable!(),
        SmallVec::Listed(_listed) => unreachable!(),
    }
}

// How many elements an array of one has.
fn len_of_one<X>(one: &[X; 1]) -> usize
    ensures value { result ≡ length one.now }
    ensures one { result ≡ 1 }
{
    one.len()
}

// Whether a test keeps the one element.
fn keeps_first<X, F: FnMut(&X) -> bool + Drop>(one: &[X; 1], mut keep: F) -> bool
    requires { F.IsAlwaysCallable keep }
    ensures filtered { IsFiltered (CalledAt F.FnMut) keep one.now (if result then one.now else []) }
    ensures len { length one.now ≡ 1 }
{
    keep(&one[0])
}
