//! The handles by which a copier reads documents.
ghost use Rattle.std.specs.Prelude.{◌≡◌, ◌<◌, ℕ, length, get_or};
ghost use Rattle.server_core.specs.Sums.{AreBooksFrom};
ghost use Rattle.served_log.specs.Known.{no_book, nothing_read};

use locked_doc::{CopierBook, CopierSeat};
use share_ledger::Marker;
use std::alloc::Global;
use std::marker::Model;
use stored_log::Fault;

/// The seats of a copier, one in each of some documents, in their order: each has the number of its
/// place. Contracts see what the copier has read of each document, and what counts as stored.
#[derive(Drop)]
pub struct CopierSeats<M: Marker> {
    pub(crate) seats: Vec<CopierSeat<M>>,
}

impl<M: Marker> Model for CopierSeats<M> {
    ghost use Rattle.std.specs.Prelude.{List};
    ghost use Rattle.locked_doc.specs.Followed.{Copying};
    ghost use Rattle.served_log.specs.Known.{AreNumbered};

    ghost Value = { List Copying };

    ghost view = { λ s. s.seats.items };

    ghost invariant = { λ s. AreNumbered s.seats.items };
}

impl<M: Marker> CopierSeats<M> {
    ghost use Rattle.std.specs.Prelude.{◌≡◌, ◌++◌, ◌∷◌, [], length, IfErr, OnOk};

    // No seats.
    pub(crate) fn new(alloc: Global) -> CopierSeats<M>
        ensures { result ≡ [] }
    {
        CopierSeats {
            seats: Vec::new(alloc),
        }
    }

    // Puts the seat of the next document behind the others.
    pub(crate) fn push(&mut self, seat: CopierSeat<M>) -> Result<(), Fault>
        requires { seat.number ≡ length self.old }
        ensures ok { OnOk result (self.new ≡ self.old ++ seat ∷ []) }
        ensures err { IfErr result (λ e. e ≡ Fault.Memory) }
    {
        match self.seats.push(seat) {
            Ok(()) => Ok(()),
            Err(_) => Err(Fault::Memory),
        }
    }
}

// What the document of this place left for its copier agrees with the copier's seat there.
fn agree_at<M: Marker>(books: &[CopierBook<M>], seats: &CopierSeats<M>, i: usize)
    requires books { AreBooksFrom 0 books.now }
    requires there { (i < length books.now) × (i < length seats.now) }
    ensures { (get_or books.now i no_book).ids ≡ (get_or seats.now i nothing_read).ids }
{
    books[i].agree(&seats.seats[i]);
}

// What each document left for its copier agrees with the copier's seat there: both have read the
// same operations. At run time it does nothing.
pub(crate) fn agree_each<M: Marker>(books: &[CopierBook<M>], seats: &CopierSeats<M>)
    requires { AreBooksFrom 0 books.now }
    ensures { (k : ℕ) → k < length books.now → k < length seats.now
        → (get_or books.now k no_book).ids ≡ (get_or seats.now k nothing_read).ids }
{
    let both = books.len().min(seats.seats.len());
    for i in 0..both {
        agree_at(books, seats, i);
    }
}
