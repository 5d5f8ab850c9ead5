//! A seat's queries.
use crate::answer::Answer;
use crate::doc::{LockedDoc, turned_away};
use crate::seat::Seat;
use doc_api::{Counts, Query, Reply, State};
use share_ledger::Marker;
use std::marker::PhantomData;

impl<M: Marker> LockedDoc<M> {
    ghost use Rattle.std.specs.Prelude.{◌≡◌, length};
    ghost use Rattle.doc_rules.specs.Answers.{GoesByCounts, Reads};
    ghost use Rattle.doc_rules.specs.Document.{counts_for, logged_by};
    ghost use Rattle.doc_rules.specs.Seats.{IsSeatOf, AnswersFor, TurnsAway, operation_ids};
    ghost use Rattle.locked_doc.specs.Places.{IsReadInEachOrder, IsReadOfSet};

    /// Answers a seat's query, with the document unchanged. It adds one to the seat's calls. Its
    /// answer about a place follows from the facts that the logged operations make, in every causal
    /// order of them, and from those of their set alone. An account, a size and whether an
    /// operation is copied take no memory. A seat of
    /// another document is turned away by `NotOpen`, its calls as they were, and the answer is of
    /// call 0. The ids acknowledged to a seat are just those of its operations in the document.
    pub fn read(&self, seat: &mut Seat<M>, query: Query) -> Answer<M>
        ensures own { IsSeatOf self.now.number self.now.document seat.old
            → AnswersFor self.now.document seat.old query result seat.new }
        ensures other { ¬ IsSeatOf self.now.number self.now.document seat.old
            → TurnsAway self.now.document seat.old result self.now.document seat.new }
        ensures account { IsSeatOf self.now.number self.now.document seat.old
            → query ≡ Query.State State.Account → result.reply ≡ Reply.Account (length seat.old.told) }
        ensures counted { IsSeatOf self.now.number self.now.document seat.old → GoesByCounts query
            → Reads self.now.document.replica (counts_for seat.old.seat self.now.document) query result.reply }
        ensures orders { IsSeatOf self.now.number self.now.document seat.old
            → IsReadInEachOrder self.now.document.replica.log query result.reply }
        ensures free { IsSeatOf self.now.number self.now.document seat.old
            → IsReadOfSet self.now.document.replica.log query result.reply }
        ensures told { IsSeatOf self.now.number self.now.document seat.old
            → operation_ids (logged_by seat.old.seat self.now.document) ≡ seat.old.told }
    {
        if self.has_opened(seat) {
            self.read_for(seat, query)
        } else {
            turned_away(seat.number(), seat.seat())
        }
    }

    // `read`, for a seat of the document.
    fn read_for(&self, seat: &mut Seat<M>, query: Query) -> Answer<M>
        requires { IsSeatOf self.now.number self.now.document seat.old }
        ensures answers { AnswersFor self.now.document seat.old query result seat.new }
        ensures account { query ≡ Query.State State.Account
            → result.reply ≡ Reply.Account (length seat.old.told) }
        ensures counted { GoesByCounts query
            → Reads self.now.document.replica (counts_for seat.old.seat self.now.document) query result.reply }
        ensures told { operation_ids (logged_by seat.old.seat self.now.document) ≡ seat.old.told }
    {
        let number = seat.share.number();
        let seat_number = seat.share.seat();
        self.books[seat_number as usize - 1].agree(&seat.share);
        let counts = Counts {
            mine: seat.share.count(),
            copied: self.copied as u64,
        };
        let reply = self.replica.read(counts, query);
        Answer {
            reply,
            number,
            seat: seat_number,
            stamp: seat.calls.count(),
            of: PhantomData,
        }
    }
}
