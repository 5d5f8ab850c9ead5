//! Documents as a session reaches them: each call takes one document's lock.
ghost use Rattle.std.specs.Prelude.{◌≡◌, ◌<◌, length};
ghost use Rattle.share_ledger.specs.Begun.{BeginEmpty};

use super::samples::{did, shared_documents};
use crate::checks::holds;
use doc_api::{Command, Look, Place, Query, Reply, Steps};
use json_scalar::{Refusal, Scalar, Val};
use locked_doc::{LockedDoc, SeatEnd};
use op_core::{Cursor, Key, Mutation, Path};
use server_core::{OnShelf, OpenGate, SharedDocuments};
use session_core::DocAccess;
use share_ledger::{Blank, Marker};
use std::alloc::Global;
use std::marker::Brand;
use std::process::Abort;
use std::sync::{Mutex, Wait};

// The whole document.
fn whole(alloc: Global) -> Place {
    let start = Cursor {
        path: Path::new(alloc),
        key: Key::Doc,
    };
    Place {
        start,
        steps: Steps::from(Vec::new(alloc)),
    }
}

// The reply to an assignment of 7 to the whole document.
fn assigns<A: DocAccess>(alloc: Global, access: &mut A, number: usize, seat: &mut A::Seat) -> Reply
    requires { A.has_seat access.old number seat.old }
    ensures { A.has_seat access.new number seat.new }
{
    let assignment = Mutation::Assign(Val::Scalar(Scalar::Int(7)));
    let command = Command::Change(whole(alloc), assignment);
    A::into_reply(access.act(number, seat, command))
}

// The reply to a query for the values of the whole document.
fn reads<A: DocAccess>(alloc: Global, access: &mut A, number: usize, seat: &mut A::Seat) -> Reply
    requires { A.has_seat access.old number seat.old }
{
    let query = Query::Look(Look::Values, whole(alloc));
    A::into_reply(access.read(number, seat, query))
}

fn is_seven(reply: &Reply) -> bool {
    match reply {
        Reply::Values(scalars) => match scalars.as_slice() {
            [scalar] => *scalar == Scalar::Int(7),
            _ => false,
        },
        _ => false,
    }
}

fn is_first(reply: &Reply) -> bool {
    match reply {
        Reply::Applied { count, dropped, id } => (*count, *dropped, id.counter) == (1, 0, 1),
        _ => false,
    }
}

// What a seat assigns by one call it reads by the next.
fn assigns_and_reads<R: Abort, A: DocAccess>(
    rt: &R,
    alloc: Global,
    access: &mut A,
    number: usize,
    seat: &mut A::Seat,
)
    requires { A.has_seat access.old number seat.old }
{
    let here = assigns(alloc, access, number, seat);
    holds(rt, is_first(&here), "here");
    let values = reads(alloc, access, number, seat);
    holds(rt, is_seven(&values), "values");
}

// The ends of both seats of the first document, of which there is no third.
fn both_of_first<M: Marker, R: Abort + Wait>(
    rt: &R,
    alloc: Global,
    shared: &SharedDocuments<M>,
) -> Result<Vec<SeatEnd<M>>, Refusal>
    requires { 1 < length shared.now.names.items }
{
    let mut access = OnShelf::new(alloc, rt, shared, &OpenGate, 1)?;
    let one = access.open(0)?;
    let two = access.open(0)?;
    let is_full = matches!(access.open(0), Err(Refusal::SeatsFull));
    holds(rt, is_full, "no third seat");
    Ok(vec![in alloc; one.end(), two.end()]?)
}

// The end of the one opened seat of the second document, which assigned and read.
fn one_of_second<M: Marker, R: Abort + Wait>(
    rt: &R,
    alloc: Global,
    shared: &SharedDocuments<M>,
) -> Result<Vec<SeatEnd<M>>, Refusal>
    requires { 1 < length shared.now.names.items }
{
    let mut access = OnShelf::new(alloc, rt, shared, &OpenGate, 1)?;
    let mut seat = access.open(1)?;
    assigns_and_reads(rt, alloc, &mut access, 1, &mut seat);
    let counts = (seat.number(), seat.account());
    holds(rt, counts == (1, 1), "number and account");
    Ok(vec![in alloc; seat.end()]?)
}

// Whether the ends of a document's seats add up to so many operations, these by each seat.
fn adds_up<M: Marker>(
    alloc: Global,
    lock: Option<Mutex<LockedDoc<M>>>,
    ends: Vec<SeatEnd<M>>,
    all: u64,
    shares: &[u64],
) -> bool {
    match lock {
        Some(lock) => match lock.into_inner().gather(alloc, ends) {
            Ok(totals) => did(&totals, all, shares),
            Err(_) => false,
        },
        None => false,
    }
}

// Two documents with two seats each: one has both opened and does nothing, one has one opened,
// which assigns once.
fn asks<M: Marker, R: Abort + Wait>(rt: &R, alloc: Global, blank: Blank) -> Result<(), Refusal>
    requires blank { blank ≡ M.name }
    requires begun { BeginEmpty M.origin }
{
    let shared = shared_documents::<M>(alloc, blank, &["a", "b"], 2)?;
    let first = both_of_first(rt, alloc, &shared)?;
    let second = one_of_second(rt, alloc, &shared)?;
    let mut docs = shared.shelf.into_docs();
    let is_second = adds_up(alloc, docs.pop(), second, 1, &[1]);
    let is_first = adds_up(alloc, docs.pop(), first, 0, &[0, 0]);
    holds(rt, is_first && is_second, "what the seats did");
    Ok(())
}

/// Documents that are asked through their locks, and what their seats did.
pub fn asks_through_the_lock<R: Abort + Wait>(rt: &R, alloc: Global) -> Result<(), Refusal> {
    asks::<Brand, R>(rt, alloc, Blank::new())
}
