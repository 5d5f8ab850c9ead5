//! The numbers that operations add at a place.
ghost use Rattle.std.specs.Prelude.{◌≡◌, ◌<◌, [], length, true, false, IsOk, OnOk};
ghost use Rattle.presence_set.specs.ById.{put_at_id, uncovered, IsAscending};

use lamport_id::Id;
use op_core::Front;
use presence_set::{Entries, IdBlocks};
use small_values::Lazy;
use std::alloc::{AllocError, Global};
use std::marker::Model;

// At most one number for each id, in blocks, and fewer than 2^64, so that
// their total is within 128 bits.
struct Numbers {
    entries: IdBlocks<i64>,
    // There are no more entries than this: it counts each that was put.
    most: u64,
}

impl Model for Numbers {
    ghost use Rattle.std.specs.Prelude.{List, Bool, ℤ};
    ghost use Rattle.lamport_id.specs.declared.id.Id.{Id};
    ghost use Rattle.doc_nodes.specs.Numbers.{AreCounted};

    ghost Value = { List (Id × ℤ) × Bool };

    ghost view = { λ n. n.entries };

    ghost invariant = { λ n. AreCounted n.entries n.most };
}

impl Drop for Numbers {
    fn drop(self) {
        let Numbers {
            entries: _,
            most: _,
        } = self;
    }
}

impl Numbers {
    // No number. It takes no memory yet.
    fn new(alloc: Global) -> Numbers
        ensures { result.0 ≡ [] }
    {
        Numbers {
            entries: IdBlocks::new(alloc),
            most: 0,
        }
    }
}

/// The numbers that operations add at a place, by the operations' ids. Few places of a document are
/// counters, so this takes memory only from the first reservation on. Clauses see a pair: the ids
/// with their numbers, and whether there is room for one more.
pub struct Counter {
    numbers: Lazy<Numbers>,
}

impl Model for Counter {
    ghost use Rattle.std.specs.Prelude.{List, Bool, ℤ, [], false, unwrap_or};
    ghost use Rattle.lamport_id.specs.declared.id.Id.{Id};

    ghost Value = { List (Id × ℤ) × Bool };

    ghost view = { λ c. unwrap_or c.numbers ([], false) };
}

impl Drop for Counter {
    fn drop(self) {
        let Counter { numbers: _ } = self;
    }
}

impl Counter {
    /// No number. It takes no memory yet.
    pub fn new(alloc: Global) -> Counter
        ensures { result.0 ≡ [] }
    {
        Counter {
            numbers: Lazy::new(alloc),
        }
    }

    /// Makes room for one more number. It never fails where there is room. Out of
    /// memory, the numbers stay as they are.
    pub fn reserve_one(&mut self) -> Result<(), AllocError>
        ensures same { self.new.0 ≡ self.old.0 }
        ensures grows { self.old.1 ≡ true → self.new.1 ≡ true }
        ensures room { OnOk result (self.new.1 ≡ true) }
        ensures succeeds { self.old.1 ≡ true → IsOk result }
    {
        let numbers = self.numbers.get_or_make(Numbers::new)?;
        if numbers.most == u64::MAX {
            return Err(AllocError);
        }
        numbers.entries.reserve_one()
    }

    /// Gives the id this number, in place of any other. The room for one more is taken by it.
    pub fn put(&mut self, id: Id, number: i64)
        requires { self.old.1 ≡ true }
        ensures { self.new ≡ (put_at_id self.old.0 id number, false) }
    {
        match self.numbers.get_mut() {
            // There is room.
            None => unreachable!(),
            Some(numbers) => {
                numbers.most += 1;
                numbers.entries.put(id, number);
            }
        }
    }

    /// Drops the ids that the front covers.
    pub fn retain_uncovered(&mut self, front: &Front)
        ensures { self.new ≡ (uncovered front.now self.old.0, self.old.1) }
    {
        match self.numbers.get_mut() {
            None => {}
            Some(numbers) => numbers.entries.retain_uncovered(front),
        }
    }

    /// The ids with their numbers, in id order.
    pub fn entries(&self) -> Entries<'_, i64>
        ensures value { result ≡ self.now.0 }
        ensures ascending { IsAscending result }
        ensures few { length result < 18446744073709551616 }
    {
        let Some(numbers) = self.numbers.get() else {
            return Entries::none();
        };
        numbers.entries.entries()
    }
}
