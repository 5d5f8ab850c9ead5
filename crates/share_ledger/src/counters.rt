ghost use Rattle.std.specs.Prelude.{◌≡◌, ℕ, ◌+◌, ◌^◌, ◌<◌, ◌≤◌, [], ◌++◌, length, map};
ghost use Rattle.share_ledger.specs.Begun.{Origin, empty_origin};
ghost use Rattle.share_ledger.specs.Counters.{seat_counter, counter_number, AreOfOneCounter};

use crate::halves::{Half, Rest};
use lamport_id::Id;
use op_core::Operation;
use std::marker::{Brand, Model, PhantomData};

/// Which table a counter is of. A type that is a marker ties the books of a program to its shares:
/// `Book<M>` and `Share<M>` are of the one table that `M` names. It has no member at run time, and
/// a caller that makes a table picks the name by `Brand`.
pub trait Marker {
    ghost name: { ℕ };

    /// The initial log of the document of each number, and the name of its replica. No counter
    /// depends on it: the documents of the table do.
    ghost origin: { ℕ → Origin };
}

impl Marker for Brand {
    ghost name = { 0 };

    ghost origin = { λ _. empty_origin };
}

/// A new table, which no marker names yet. Contracts see it as its name. It takes no bytes.
#[derive(Drop)]
pub struct Blank {
    rest: Rest,
}

impl Model for Blank {
    ghost use Rattle.std.specs.Prelude.{◌≡◌, ℕ};

    ghost Value = { ℕ };

    ghost view = { λ b. b.rest.table };

    ghost invariant = { λ b. b.rest.next ≡ 0 };
}

/// The counters that are not opened yet, in the order of `counter_number`: by document number, then
/// by seat. Contracts see it as the first number of which that is known. It takes no bytes.
#[derive(Drop)]
pub struct Table<M: Marker> {
    pub(crate) rest: Rest,
    of: PhantomData<M>,
}

impl<M: Marker> Model for Table<M> {
    ghost use Rattle.std.specs.Prelude.{◌≡◌, ℕ};

    ghost Value = { ℕ };

    ghost view = { λ t. t.rest.next };

    ghost invariant = { λ t. t.rest.table ≡ M.name };
}

/// The half of a counter that a document keeps. It can't be copied, and it changes by `credit`,
/// `acknowledge` and `follow` alone. The ids in it take no bytes: only contracts see them.
#[derive(Drop)]
pub struct Book<M: Marker> {
    number: u16,
    seat: u16,
    count: u64,
    half: Half,
    of: PhantomData<M>,
}

impl<M: Marker> Model for Book<M> {
    ghost use Rattle.std.specs.Prelude.{◌≡◌};
    ghost use Rattle.share_ledger.specs.Counters.{Counter, seat_counter, counter_number};

    ghost Value = { Counter };

    ghost view = { λ b. seat_counter b.number b.seat b.count b.half.ids };

    ghost invariant = { λ b. (b.half.table ≡ M.name)
        × (b.half.counter ≡ counter_number b.number b.seat)
        × (b.half.count ≡ b.count) };
}

/// The half of a counter that a seat keeps. It can't be copied, and it changes by `Book::credit`,
/// `Book::acknowledge` and `Book::follow` alone. The ids in it take no bytes.
#[derive(Drop)]
pub struct Share<M: Marker> {
    number: u16,
    seat: u16,
    count: u64,
    half: Half,
    of: PhantomData<M>,
}

impl<M: Marker> Model for Share<M> {
    ghost use Rattle.std.specs.Prelude.{◌≡◌};
    ghost use Rattle.share_ledger.specs.Counters.{Counter, seat_counter, counter_number};

    ghost Value = { Counter };

    ghost view = { λ s. seat_counter s.number s.seat s.count s.half.ids };

    ghost invariant = { λ s. (s.half.table ≡ M.name)
        × (s.half.counter ≡ counter_number s.number s.seat)
        × (s.half.count ≡ s.count) };
}

impl Blank {
    /// A table with no counter opened. It takes no memory.
    pub fn new() -> Blank {
        Blank { rest: Rest::new() }
    }

    /// The table under its marker, with every counter still to be opened.
    pub fn named<M: Marker>(self) -> Table<M>
        requires { self ≡ M.name }
        ensures { result ≡ 0 }
    {
        let Blank { rest } = self;
        Table {
            rest,
            of: PhantomData,
        }
    }
}

impl<M: Marker> Table<M> {
    /// Two halves of one counter at 0 with no ids, under the number of a document number
    /// and a seat, which comes after every opened one. So no third half of a counter is
    /// ever made. It takes no memory.
    pub fn open(&mut self, number: u16, seat: u16) -> (Book<M>, Share<M>)
        requires { self.old ≤ counter_number number seat }
        ensures table { self.new ≡ counter_number number seat + 1 }
        ensures book { result.0 ≡ seat_counter number seat 0 [] }
        ensures share { result.1 ≡ seat_counter number seat 0 [] }
    {
        let (one, other) = self.rest.open(u64::from(number) * 65537 + u64::from(seat));
        (
            Book {
                number,
                seat,
                count: 0,
                half: one,
                of: PhantomData,
            },
            Share {
                number,
                seat,
                count: 0,
                half: other,
                of: PhantomData,
            },
        )
    }
}

impl<M: Marker> Book<M> {
    /// The number of the document whose book it is.
    pub fn number(&self) -> u16
        ensures { result ≡ self.now.number }
    {
        self.number
    }

    /// The seat that the document keeps it for.
    pub fn seat(&self) -> u16
        ensures { result ≡ self.now.seat }
    {
        self.seat
    }

    /// How much was credited to it.
    pub fn count(&self) -> u64
        ensures { result ≡ self.now.count }
    {
        self.count
    }

    /// Adds the amount to both halves of one counter; their sum stays below 2^64. It ensures that
    /// they had one count before. Their ids stay.
    pub fn credit(&mut self, share: &mut Share<M>, amount: u64)
        requires counter { AreOfOneCounter self.old share.old }
        requires fits { self.old.count + amount < 2 ^ 64 }
        ensures book { self.new
            ≡ seat_counter self.old.number self.old.seat (self.old.count + amount) self.old.ids }
        ensures share { share.new
            ≡ seat_counter share.old.number share.old.seat (share.old.count + amount) share.old.ids }
        ensures agree { self.old.count ≡ share.old.count }
    {
        self.half.credit(&mut share.half, amount);
        self.count += amount;
        share.count += amount;
    }

    /// Adds ids to both halves of one counter: those acknowledged to its seat. It ensures that the
    /// halves were equal before. At run time it does nothing.
    pub fn acknowledge(&mut self, share: &mut Share<M>, ids: &[Id])
        requires { AreOfOneCounter self.old share.old }
        ensures book { self.new
            ≡ seat_counter self.old.number self.old.seat self.old.count (self.old.ids ++ ids.now) }
        ensures share { share.new
            ≡ seat_counter share.old.number share.old.seat share.old.count (share.old.ids
            ++ ids.now) }
        ensures agree { self.old ≡ share.old }
    {
        self.half.acknowledge(&mut share.half, ids);
    }

    /// Adds the ids of operations to both halves of one counter, and how many they are to both
    /// counts. It ensures that the halves were equal before. At run time only the counts change.
    pub fn follow(&mut self, share: &mut Share<M>, operations: &[Operation])
        requires counter { AreOfOneCounter self.old share.old }
        requires fits { self.old.count + length operations.now < 2 ^ 64 }
        ensures book { self.new ≡ seat_counter self.old.number self.old.seat
            (self.old.count + length operations.now) (self.old.ids
            ++ map (λ op. op.id) operations.now) }
        ensures share { share.new ≡ seat_counter share.old.number share.old.seat
            (share.old.count + length operations.now) (share.old.ids
            ++ map (λ op. op.id) operations.now) }
        ensures agree { self.old ≡ share.old }
    {
        self.half.follow(&mut share.half, operations);
        self.credit(share, operations.len() as u64);
    }

    /// Tells that both halves of one counter have one count and the same ids. At run time it does
    /// nothing.
    pub fn agree(&self, share: &Share<M>)
        requires { AreOfOneCounter self.now share.now }
        ensures { self.now ≡ share.now }
    {
        self.half.agree(&share.half);
    }

    /// The count for good, which both halves had, as they had the same ids.
    pub fn close(self, share: Share<M>) -> u64
        requires { AreOfOneCounter self share }
        ensures count { result ≡ self.count }
        ensures agree { self ≡ share }
    {
        self.agree(&share);
        self.count
    }
}

impl<M: Marker> Share<M> {
    /// The number of the document whose seat keeps it.
    pub fn number(&self) -> u16
        ensures { result ≡ self.now.number }
    {
        self.number
    }

    /// The seat that keeps it.
    pub fn seat(&self) -> u16
        ensures { result ≡ self.now.seat }
    {
        self.seat
    }

    /// How much the seat was credited.
    pub fn count(&self) -> u64
        ensures { result ≡ self.now.count }
    {
        self.count
    }
}
