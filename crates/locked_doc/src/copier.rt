//! The seat of a document's copier: what it has read of the log, and what is stored of it.
ghost use Rattle.std.specs.Prelude.{◌≡◌, length};
ghost use Rattle.doc_rules.specs.Seats.{operation_ids};
ghost use Rattle.share_ledger.specs.Counters.{seat_counter, AreOfOneCounter};
ghost use Rattle.locked_doc.specs.Followed.{IsPrefix};

use crate::doc::LockedDoc;
use doc_api::Operations;
use json_scalar::Refusal;
use op_core::Operation;
use share_ledger::{Book, Marker, Share, StoreBook, StoreShare};
use std::marker::Model;

/// The handle of a document's copier: the document's number, the ids of the operations that the
/// copier has read, in the order of the log, and the ids of those that are stored. It can't be
/// copied. The ids take no memory: only contracts see them.
#[derive(Drop)]
pub struct CopierSeat<M: Marker> {
    share: Share<M>,
    store: StoreBook<M>,
}

impl<M: Marker> Model for CopierSeat<M> {
    ghost use Rattle.std.specs.Prelude.{◌≡◌};
    ghost use Rattle.locked_doc.specs.Followed.{Copying, copying};

    ghost Value = { Copying };

    ghost view = { λ s. copying s.share.number s.share.ids s.store.ids };

    ghost invariant = { λ s. (s.share.seat ≡ 0) × (s.store.number ≡ s.share.number) };
}

/// What a gathered document leaves for its copier: the same number and ids as the copier's seat.
/// It can't be copied, and only `LockedDoc::gather_followed` makes one.
#[derive(Drop)]
pub struct CopierBook<M: Marker> {
    pub(crate) book: Book<M>,
}

impl<M: Marker> Model for CopierBook<M> {
    ghost use Rattle.std.specs.Prelude.{◌≡◌};
    ghost use Rattle.locked_doc.specs.Followed.{Followed};

    ghost Value = { Followed };

    ghost view = { λ b. record { number = b.book.number; ids = b.book.ids } };

    ghost invariant = { λ b. b.book.seat ≡ 0 };
}

impl<M: Marker> CopierSeat<M> {
    ghost use Rattle.std.specs.Prelude.{◌≡◌, ◌+◌, ◌^◌, ◌<◌, ◌++◌};
    ghost use Rattle.share_ledger.specs.Counters.{stored_ids};
    ghost use Rattle.locked_doc.specs.Followed.{copying};

    // The seat of these halves.
    pub(crate) fn of(share: Share<M>, store: StoreBook<M>) -> CopierSeat<M>
        requires seat { share.seat ≡ 0 }
        requires number { store.number ≡ share.number }
        ensures { result ≡ copying share.number share.ids store.ids }
    {
        CopierSeat { share, store }
    }

    /// The number of its document.
    pub fn number(&self) -> u16
        ensures { result ≡ self.now.number }
    {
        self.share.number()
    }

    /// How many operations of its document are stored.
    pub fn stored(&self) -> u64
        ensures { result ≡ length self.now.stored }
    {
        self.store.count()
    }

    /// Adds operations to what is stored of its document, at the copier's half and at the sessions':
    /// those that were stored behind the others, fewer than 2^64 together. It ensures that the
    /// halves were equal before. At run time only the counts change.
    pub fn grow(&mut self, share: &mut StoreShare<M>, operations: &[Operation])
        requires number { self.old.number ≡ share.old.number }
        requires fits { length self.old.stored + length operations.now < 2 ^ 64 }
        ensures seat { self.new ≡ copying self.old.number self.old.ids
            (self.old.stored ++ operation_ids operations.now) }
        ensures share { share.new ≡ stored_ids self.new.number self.new.stored }
        ensures agree { self.old.stored ≡ share.old.ids }
    {
        self.store.grow(share, operations);
    }
}

impl<M: Marker> CopierBook<M> {
    ghost use Rattle.std.specs.Prelude.{◌≡◌};

    /// The number of its document.
    pub fn number(&self) -> u16
        ensures { result ≡ self.now.number }
    {
        self.book.number()
    }

    /// Tells that the copier's seat of the same document has the same ids. At run time it does
    /// nothing.
    pub fn agree(&self, copier: &CopierSeat<M>)
        requires { self.now.number ≡ copier.now.number }
        ensures { self.now.ids ≡ copier.now.ids }
    {
        self.book.agree(&copier.share);
    }
}

// Adds what was logged since to both halves of the copier's counter.
fn follow_log<M: Marker>(log: &[Operation], book: &mut Book<M>, share: &mut Share<M>)
    requires halves { AreOfOneCounter book.old share.old }
    requires counted { book.old.count ≡ length book.old.ids }
    requires prefix { IsPrefix book.old.ids (operation_ids log.now) }
    ensures book { book.new ≡ seat_counter book.old.number book.old.seat (length log.now)
        (operation_ids log.now) }
    ensures share { share.new ≡ seat_counter share.old.number share.old.seat (length log.now)
        (operation_ids log.now) }
    ensures agree { book.old ≡ share.old }
{
    let read = book.count() as usize;
    book.follow(share, &log[read..]);
}

impl<M: Marker> LockedDoc<M> {
    ghost use Rattle.std.specs.Prelude.{◌≡◌, Ok, true, is_none, IfSome};
    ghost use Rattle.share_ledger.specs.Counters.{stored_ids};
    ghost use Rattle.json_scalar.specs.Refusal.{UnlessMemory};
    ghost use Rattle.doc_rules.specs.Document.{tail};
    ghost use Rattle.doc_rules.specs.Seats.{operation_ids};
    ghost use Rattle.locked_doc.specs.Followed.{IsPrefix};

    /// The copier's seat, which has read the whole log, and the sessions' half of what is stored:
    /// the operations that the document began with. None where it was opened before. It takes no
    /// memory.
    pub fn open_copier(&mut self) -> Option<(CopierSeat<M>, StoreShare<M>)>
        ensures seat { IfSome result (λ c. (c.0.number ≡ self.old.number)
            × (c.0.ids ≡ operation_ids self.old.document.replica.log)) }
        ensures stored { IfSome result (λ c. (c.0.stored ≡ operation_ids (M.origin self.old.number).log)
            × (c.1 ≡ stored_ids self.old.number (operation_ids (M.origin self.old.number).log))) }
        ensures once { is_none result ≡ self.old.followed }
        ensures document { (self.new.number ≡ self.old.number)
            × (self.new.document ≡ self.old.document) }
        ensures followed { self.new.followed ≡ true }
    {
        let (mut copier, share) = self.unopened_copier.take()?;
        self.follow(&mut copier);
        Some((copier, share))
    }

    // Lets the copier read the whole log.
    fn follow(&mut self, copier: &mut CopierSeat<M>)
        requires { copier.old.number ≡ self.old.number }
        ensures document { self.new ≡ self.old }
        ensures known { (copier.new.number ≡ self.old.number)
            × (copier.new.ids ≡ operation_ids self.old.document.replica.log) }
        ensures grows { IsPrefix copier.old.ids copier.new.ids }
        ensures stored { copier.new.stored ≡ copier.old.stored }
    {
        let log = self.replica.log();
        follow_log(log.as_slice(), &mut self.copier_book, &mut copier.share);
    }

    /// The logged operations after the first `from`, in order, at most `most` of them, for the
    /// document's copier: it then has read the whole log, of which what it had read before is a
    /// prefix. The one error is `NoMemory`.
    pub fn tail_for(
        &mut self,
        copier: &mut CopierSeat<M>,
        from: usize,
        most: usize,
    ) -> Result<Operations, Refusal>
        requires { copier.old.number ≡ self.old.number }
        ensures tail { UnlessMemory result (Ok (tail from most self.old.document)) }
        ensures document { self.new ≡ self.old }
        ensures known { copier.new.ids ≡ operation_ids self.old.document.replica.log }
        ensures number { copier.new.number ≡ copier.old.number }
        ensures grows { IsPrefix copier.old.ids copier.new.ids }
        ensures stored { copier.new.stored ≡ copier.old.stored }
    {
        self.follow(copier);
        self.tail(from, most)
    }
}
