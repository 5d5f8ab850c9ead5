//! The documents of a run, each with a ledger of one seat.
ghost use Rattle.std.specs.Prelude.{◌≡◌, ◌-◌};
ghost use Rattle.share_ledger.specs.Begun.{BeginEmpty};
ghost use Rattle.locked_doc.specs.Numbers.{greatest_number};
ghost use Rattle.run_core.specs.HasTold.{HasTold};

use crate::run::Maker;
use doc_api::{Command, Query, Reply};
use json_scalar::Refusal;
use lamport_id::ReplicaName;
use locked_doc::{Answer, Gathering, Ledger, LockedDoc, Seat, SeatEnd, Totals};
use session_core::Document;
use share_ledger::{Blank, Marker};
use std::alloc::Global;
use std::marker::Model;

/// A document with a ledger of one seat, as a session reaches it.
#[derive(Drop)]
pub struct Seated<M: Marker> {
    locked: LockedDoc<M>,
    ghost one_seat: { locked.document.seats ≡ 1 },
}

impl<M: Marker> Document for Seated<M> {
    type Seat = Seat<M>;

    type Answer = Answer<M>;

    type End = SeatEnd<M>;

    ghost document = { λ d. d.locked.document };

    ghost seat_view = { λ s. s };

    ghost answer_view = { λ a. a };

    ghost has_seat = { λ d s. HasTold d.locked.number d.locked.document s };

    ghost seat_of = { λ e. e };

    fn seat_number(seat: &Seat<M>) -> u64 {
        seat.seat() as u64
    }

    fn into_reply(answer: Answer<M>) -> Reply {
        answer.into_reply()
    }

    fn end(seat: Seat<M>) -> SeatEnd<M> {
        seat.end()
    }

    fn open_seat(&mut self) -> Result<Seat<M>, Refusal> {
        self.locked.keeps_sound();
        self.locked.open_seat()
    }

    fn act(&mut self, seat: &mut Seat<M>, command: Command) -> Answer<M> {
        self.locked.keeps_sound();
        self.locked.act(seat, command)
    }

    fn read(&self, seat: &mut Seat<M>, query: Query) -> Answer<M> {
        self.locked.read(seat, query)
    }
}

impl<M: Marker> Seated<M> {
    ghost use Rattle.std.specs.Prelude.{◌≡◌, ◌⊎◌, ◌∷◌, [], IfErr, IfOk};
    ghost use Rattle.doc_rules.specs.Seats as seats;
    ghost use Rattle.doc_rules.specs.Seats.{AreEndsOf, totals_of};
    ghost use Rattle.locked_doc.specs.Sums.{totals_view};
    ghost use Rattle.run_core.specs.HasTold.{HasTold};

    /// Adds up what was done at the document, given the end of its seat, if that was opened. The
    /// end that a session gave back lists just the ids that are logged for it, so the only
    /// refusal is out of memory, and so is no end where no seat was opened. Each refusal hands
    /// everything back. Only tests call it.
    pub fn gather(self, alloc: Global, ends: Vec<SeatEnd<M>>) -> Result<Totals, Gathering<M>>
        ensures ok { IfOk result (λ t. AreEndsOf self.locked.number self.locked.document ends.items
            × (totals_view t ≡ totals_of self.locked.document ends.items)) }
        ensures err { IfErr result (λ g. (g.doc ≡ self.locked) × (g.ends.items ≡ ends.items)
            × ((g.refusal ≡ Refusal.NoMemory)
            ⊎ ((g.refusal ≡ Refusal.ListsDiffer)
            × ¬ AreEndsOf self.locked.number self.locked.document ends.items))) }
        ensures given_back { IfErr result (λ g. (end : seats.Seat) → ends.items ≡ end ∷ []
            → HasTold self.locked.number self.locked.document end
            → g.refusal ≡ Refusal.NoMemory) }
        ensures unopened { IfErr result (λ g. self.locked.document.opened ≡ 0 → ends.items ≡ []
            → g.refusal ≡ Refusal.NoMemory) }
    {
        self.locked.keeps_sound();
        self.locked.gather(alloc, ends)
    }
}

/// A ledger whose documents all begin with nothing. Contracts see it as the number of the next one.
#[derive(Drop)]
pub struct NewDocuments<M: Marker> {
    ledger: Ledger<M>,
}

impl<M: Marker> Model for NewDocuments<M> {
    ghost use Rattle.std.specs.Prelude.{ℕ};
    ghost use Rattle.share_ledger.specs.Begun.{BeginEmpty};

    ghost Value = { ℕ };

    ghost view = { λ d. d.ledger };

    ghost invariant = { λ d. BeginEmpty M.origin };
}

impl<M: Marker> NewDocuments<M> {
    /// One that has made no document yet. It takes no memory.
    pub fn new(blank: Blank) -> NewDocuments<M>
        requires blank { blank ≡ M.name }
        requires begun { BeginEmpty M.origin }
        ensures { result ≡ 0 }
    {
        NewDocuments {
            ledger: Ledger::new(blank),
        }
    }
}

impl<M: Marker> Maker for NewDocuments<M> {
    type Made = Seated<M>;

    ghost room = { λ d. greatest_number - d };

    fn make(&mut self, alloc: Global, name: &ReplicaName) -> Result<Seated<M>, Refusal> {
        let locked = self.ledger.locked(alloc, name, 1)?;
        Ok(Seated { locked })
    }
}
