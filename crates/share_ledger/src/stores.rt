ghost use Rattle.std.specs.Prelude.{◌≡◌, ◌+◌, ◌^◌, ◌<◌, ◌≤◌, [], ◌++◌, length, map};
ghost use Rattle.share_ledger.specs.Counters.{store_number, stored_ids};

use crate::counters::{Marker, Table};
use crate::halves::Half;
use op_core::Operation;
use std::marker::{Model, PhantomData};

/// The copier's half of what is stored of a document: its first operations, by their ids, and how
/// many they are. It can't be copied, and it changes by `grow` alone. The ids take no bytes: only
/// contracts see them.
#[derive(Drop)]
pub struct StoreBook<M: Marker> {
    number: u16,
    count: u64,
    half: Half,
    of: PhantomData<M>,
}

impl<M: Marker> Model for StoreBook<M> {
    ghost use Rattle.std.specs.Prelude.{◌≡◌, length};
    ghost use Rattle.share_ledger.specs.Counters.{StoredIds, store_number, stored_ids};

    ghost Value = { StoredIds };

    ghost view = { λ b. stored_ids b.number b.half.ids };

    ghost invariant = { λ b. (b.half.table ≡ M.name) × (b.half.counter ≡ store_number b.number)
        × (b.count ≡ length b.half.ids) };
}

/// The sessions' half of what is stored of a document. It can't be copied, and it changes by
/// `StoreBook::grow` alone.
#[derive(Drop)]
pub struct StoreShare<M: Marker> {
    number: u16,
    count: u64,
    half: Half,
    of: PhantomData<M>,
}

impl<M: Marker> Model for StoreShare<M> {
    ghost use Rattle.std.specs.Prelude.{◌≡◌, length};
    ghost use Rattle.share_ledger.specs.Counters.{StoredIds, store_number, stored_ids};

    ghost Value = { StoredIds };

    ghost view = { λ s. stored_ids s.number s.half.ids };

    ghost invariant = { λ s. (s.half.table ≡ M.name) × (s.half.counter ≡ store_number s.number)
        × (s.count ≡ length s.half.ids) };
}

impl<M: Marker> Table<M> {
    /// Two halves of what is stored of the document of this number: of no operation. Their number
    /// comes after every opened one, so no third half is ever made. It takes no memory.
    pub fn open_store(&mut self, number: u16) -> (StoreBook<M>, StoreShare<M>)
        requires { self.old ≤ store_number number }
        ensures table { self.new ≡ store_number number + 1 }
        ensures book { result.0 ≡ stored_ids number [] }
        ensures share { result.1 ≡ stored_ids number [] }
    {
        let (one, other) = self.rest.open(u64::from(number) * 65537 + 65536);
        (
            StoreBook {
                number,
                count: 0,
                half: one,
                of: PhantomData,
            },
            StoreShare {
                number,
                count: 0,
                half: other,
                of: PhantomData,
            },
        )
    }
}

impl<M: Marker> StoreBook<M> {
    /// The number of the document whose book it is.
    pub fn number(&self) -> u16
        ensures { result ≡ self.now.number }
    {
        self.number
    }

    /// How many operations are stored.
    pub fn count(&self) -> u64
        ensures { result ≡ length self.now.ids }
    {
        self.count
    }

    /// Adds the ids of operations to both halves: those that were stored behind the others, fewer
    /// than 2^64 together. It ensures that the halves were equal before. At run time only the counts
    /// change.
    pub fn grow(&mut self, share: &mut StoreShare<M>, operations: &[Operation])
        requires number { self.old.number ≡ share.old.number }
        requires fits { length self.old.ids + length operations.now < 2 ^ 64 }
        ensures book { self.new ≡ stored_ids self.old.number
            (self.old.ids ++ map (λ op. op.id) operations.now) }
        ensures share { share.new ≡ self.new }
        ensures agree { self.old ≡ share.old }
    {
        self.half.follow(&mut share.half, operations);
        self.count += operations.len() as u64;
        share.count = self.count;
    }

    /// Tells that both halves have the same ids. At run time it does nothing.
    pub fn agree(&self, share: &StoreShare<M>)
        requires { self.now.number ≡ share.now.number }
        ensures { self.now ≡ share.now }
    {
        self.half.agree(&share.half);
    }
}

impl<M: Marker> StoreShare<M> {
    /// The number of the document that it is of.
    pub fn number(&self) -> u16
        ensures { result ≡ self.now.number }
    {
        self.number
    }

    /// How many operations are stored.
    pub fn count(&self) -> u64
        ensures { result ≡ length self.now.ids }
    {
        self.count
    }
}
