//! Values by ids, in blocks, so that one more moves few others.
ghost use Rattle.std.specs.Prelude.{◌≡◌, [], true, false, MatchOption, None, Some, IsOk, OnOk};
ghost use Rattle.presence_set.specs.ById.{put_at_id, get, uncovered, IsAscending};

use crate::ById;
use crate::blocks::{
    Entries, blocks_by, entries_among, later_blocks, make_room_for_one, put_among, retain_among,
};
use crate::later::LaterBlocks;
use lamport_id::Id;
use small_values::Lazy;
use std::alloc::{AllocError, Global};
use std::marker::Model;
use version_vector::Front;

/// At most one value for each id, in id order, in blocks, of which the first may be empty. The
/// others are in a box that is made with the second. Clauses see a pair: the ids with their values,
/// and whether there is room for one more.
pub struct IdBlocks<X> {
    first: ById<X>,
    later: Lazy<LaterBlocks<ById<X>>>,
    has_room: bool,
}

impl<X> Model for IdBlocks<X> {
    ghost use Rattle.std.specs.Prelude.{List, Bool, ◌++◌};
    ghost use Rattle.lamport_id.specs.declared.id.Id.{Id};
    ghost use Rattle.presence_set.specs.Blocks.{pairs_in, blocks_in, lack_in, IsInBlocks};

    ghost Value = { List (Id × X) × Bool };

    ghost view = { λ p. (p.first.0 ++ pairs_in (blocks_in p.later), p.has_room) };

    ghost invariant = { λ p. IsInBlocks p.first (blocks_in p.later) p.has_room (lack_in p.later) };
}

impl<X: Drop> Drop for IdBlocks<X> {
    fn drop(self) {
        let IdBlocks {
            first: _,
            later: _,
            has_room: _,
        } = self;
    }
}

impl<X: Drop> IdBlocks<X> {
    /// No id. It takes no memory yet.
    pub fn new(alloc: Global) -> IdBlocks<X>
        ensures { result.0 ≡ [] }
    {
        IdBlocks {
            first: ById::new(alloc),
            later: Lazy::new(alloc),
            has_room: false,
        }
    }

    /// Makes room for one more id. It never fails where there is room. Out of
    /// memory, the entries stay as they are.
    pub fn reserve_one(&mut self) -> Result<(), AllocError>
        ensures same { self.new.0 ≡ self.old.0 }
        ensures grows { self.old.1 ≡ true → self.new.1 ≡ true }
        ensures room { OnOk result (self.new.1 ≡ true) }
        ensures succeeds { self.old.1 ≡ true → IsOk result }
    {
        if self.has_room {
            return Ok(());
        }
        make_room_for_one(&mut self.first, &mut self.later)?;
        self.has_room = true;
        Ok(())
    }

    /// Gives the id this value, in place of any other. The room for one more is taken by it.
    pub fn put(&mut self, id: Id, value: X)
        requires { self.old.1 ≡ true }
        ensures { self.new ≡ (put_at_id self.old.0 id value, false) }
    {
        self.has_room = false;
        put_among(&mut self.first, &mut self.later, id, value);
    }

    /// Drops the ids that the front covers.
    pub fn retain_uncovered(&mut self, front: &Front)
        ensures { self.new ≡ (uncovered front.now self.old.0, self.old.1) }
    {
        retain_among(&mut self.first, &mut self.later, front);
    }

    /// The value of an id. Its block is found by bisection, and then its place in the block.
    pub fn get(&self, id: &Id) -> Option<&X>
        ensures { MatchOption result (get self.now.0 id.now ≡ None)
            (λ x. get self.now.0 id.now ≡ Some x.now) }
    {
        let blocks = later_blocks(&self.later);
        match blocks_by(blocks, id).checked_sub(1) {
            None => self.first.get(id),
            Some(at) => blocks[at].get(id),
        }
    }

    /// The ids with their values, in id order.
    pub fn entries(&self) -> Entries<'_, X>
        ensures value { result ≡ self.now.0 }
        ensures ascending { IsAscending result }
    {
        entries_among(&self.first, &self.later)
    }
}
