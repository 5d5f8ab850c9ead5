//! Operations and commands by their written forms, digests of the answers, and a replica and a
//! document to try them on.
ghost use Rattle.std.specs.Prelude.{◌≡◌, [], ◌+◌, ◌≤◌, IfOk, OnOk};
ghost use Rattle.share_ledger.specs.Begun.{BeginEmpty, MayBeNamed};
ghost use Rattle.share_ledger.specs.Counters.{counter_number};

use doc_api::{Command, Look, Place, Query, Reply, Steps};
use json_scalar::{Refusal, Scalar};
use lamport_id::{Id, ReplicaName};
use locked_doc::{Ledgers, LockedDoc, Seat, SeatEnd, Totals};
use op_core::{Cursor, Front, Key, KeyText, Mutation, Operation, Path, Tagged, read_wire};
use replica_core::{Delivered, Misfit, Replica};
use serde_json::Value;
use share_ledger::{Marker, Table};
use std::alloc::Global;
use std::process::Abort;

/// Asserts that this is so. It is proved once, where an assertion in each test would be proved in
/// each.
pub fn holds<R: Abort>(rt: &R, is: bool, what: &str) {
    assert!(rt; is, "{what}");
}

/// Asserts that there are so many of what is named.
pub fn is_count<R: Abort>(rt: &R, count: usize, expected: usize, what: &str) {
    assert_eq!(rt; count, expected, "{what}");
}

/// Asserts that an answer is the one that is expected of this operation, in the case of this name.
pub fn is_digest<R: Abort>(rt: &R, digest: Digest, expected: Digest, case: &str, text: &str) {
    assert_eq!(rt; digest, expected, "{case}: {text}");
}

/// An answer without its lists: of a logged operation how many were logged and how many dropped,
/// and its counter.
#[derive(Clone, Copy, Debug, PartialEq, Eq)]
pub enum Digest {
    Applied(u64, u64, u64),
    Known,
    Held,
    Forgotten,
    Account(u64),
    Refused(Refusal),
    Other,
}

pub fn digest_of(reply: Reply) -> Digest {
    match &reply {
        Reply::Applied { count, dropped, id } => Digest::Applied(*count, *dropped, id.counter),
        Reply::Known => Digest::Known,
        Reply::Held(_) => Digest::Held,
        Reply::Forgotten => Digest::Forgotten,
        Reply::Account(count) => Digest::Account(*count),
        Reply::Refused(refusal) => Digest::Refused(*refusal),
        _ => Digest::Other,
    }
}

/// What is done with an operation that is given by its written form.
#[derive(Clone, Copy)]
pub enum Deed {
    /// It is delivered.
    Deliver,
    /// The change that makes it is asked for.
    Make,
    /// It is dropped.
    Forget,
}

pub fn operation(alloc: Global, text: &str) -> Result<Operation, Refusal> {
    match Value::from_str(alloc, text) {
        Ok(value) => read_wire(alloc, &value),
        Err(_) => Err(Refusal::NoMemory),
    }
}

/// The replica of this name with these in its log.
pub fn restored(alloc: Global, name: &[u8], texts: &[&str]) -> Result<Replica, Misfit> {
    let Some(name) = ReplicaName::read(name) else {
        return Err(Misfit::NoMemory);
    };
    match operations(alloc, texts) {
        Ok(ops) => Replica::restore(alloc, name, ops.as_slice()),
        Err(_) => Err(Misfit::NoMemory),
    }
}

fn operations(alloc: Global, texts: &[&str]) -> Result<Vec<Operation>, Refusal> {
    let mut ops = Vec::new(alloc);
    for text in texts {
        ops.push(operation(alloc, text)?)?;
    }
    Ok(ops)
}

pub fn command(alloc: Global, deed: Deed, text: &str) -> Result<Command, Refusal> {
    let op = operation(alloc, text)?;
    match deed {
        Deed::Deliver => Ok(Command::Deliver(op)),
        Deed::Make => change(alloc, &op),
        Deed::Forget => Ok(Command::Forget(op.id())),
    }
}

// The change that makes an operation, at its cursor.
fn change(alloc: Global, op: &Operation) -> Result<Command, Refusal> {
    let start = op.cursor().try_clone()?;
    let mutation = op.mutation().try_clone()?;
    let steps = Steps::from(Vec::new(alloc));
    Ok(Command::Change(Place { start, steps }, mutation))
}

/// Hands in the operations of p from the second up to this counter, each of which knows the one
/// before it, and answers how many of them are held.
pub fn delivers_up_to(alloc: Global, replica: &mut Replica, last: u64) -> Result<u64, Refusal> {
    let mut held = 0u64;
    for counter in 2..=last {
        if is_held(&replica.deliver(later(alloc, counter)?)) {
            held = held.saturating_add(1);
        }
    }
    Ok(held)
}

fn is_held(answer: &Result<Delivered, Refusal>) -> bool {
    matches!(answer, Ok(Delivered::Held(_)))
}

/// The place of the whole document.
pub fn whole(alloc: Global) -> Place {
    let start = Cursor {
        path: Path::new(alloc),
        key: Key::Doc,
    };
    Place {
        start,
        steps: Steps::from(Vec::new(alloc)),
    }
}

/// The place of this member of the document.
pub fn member(alloc: Global, name: &str) -> Result<Place, Refusal> {
    let mut path = Path::new(alloc);
    path.push(Tagged::Map(Key::Doc))?;
    let key = Key::Text(KeyText::new(alloc, name)?);
    Ok(Place {
        start: Cursor { path, key },
        steps: Steps::from(Vec::new(alloc)),
    })
}

/// The query that looks so at this member.
pub fn look_at(alloc: Global, look: Look, name: &str) -> Result<Query, Refusal> {
    Ok(Query::Look(look, member(alloc, name)?))
}

/// Whether this number is the one scalar.
pub fn is_number(reply: Reply, expected: i64) -> bool {
    match &reply {
        Reply::Values(scalars) => match scalars.as_slice() {
            [scalar] => *scalar == Scalar::Int(expected),
            _ => false,
        },
        _ => false,
    }
}

/// Whether these are the ids.
pub fn are_ids(ids: &[Id], expected: &[(u64, &str)]) -> bool {
    if ids.len() != expected.len() {
        return false;
    }
    for (id, (counter, name)) in ids.iter().zip(expected) {
        if id.counter != *counter || *id.replica.as_bytes() != *name.as_bytes() {
            return false;
        }
    }
    true
}

/// A replica of this name whose log is empty.
pub fn named(alloc: Global, name: &[u8]) -> Result<Replica, Refusal>
    ensures { IfOk result (λ replica. replica.log ≡ []) }
{
    let name = ReplicaName::read(name).ok_or(Refusal::BadRequest)?;
    Replica::new(alloc, name)
}

/// A replica named srv-1 whose log is empty.
pub fn server(alloc: Global) -> Result<Replica, Refusal>
    ensures { IfOk result (λ replica. replica.log ≡ []) }
{
    named(alloc, b"srv-1")
}

// The operation of p with this counter, above 1, which knows the one before it.
fn later(alloc: Global, counter: u64) -> Result<Operation, Refusal> {
    let replica = ReplicaName::read(b"p").ok_or(Refusal::BadRequest)?;
    let mut entries = Vec::new(alloc);
    entries.push((replica, counter.saturating_sub(1)))?;
    let cursor = Cursor {
        path: Path::new(alloc),
        key: Key::Doc,
    };
    Operation::shaped(
        alloc,
        Id { counter, replica },
        Front::from_pairs(alloc, &entries)?,
        cursor,
        Mutation::Delete,
    )
}

/// Delivers an operation through a document's seat, and asserts the answer.
pub fn delivers<M: Marker, R: Abort>(
    rt: &R,
    alloc: Global,
    doc: &mut LockedDoc<M>,
    seat: &mut Seat<M>,
    expected: (&str, Digest),
) -> Result<(), Refusal> {
    let delivery = command(alloc, Deed::Deliver, expected.0)?;
    let digest = digest_of(doc.act(seat, delivery).into_reply());
    is_digest(rt, digest, expected.1, "delivered", expected.0);
    Ok(())
}

/// A list of one end, which finds room at the second try at the latest.
pub fn alone<M: Marker>(alloc: Global, end: SeatEnd<M>) -> Result<Vec<SeatEnd<M>>, Refusal> {
    let mut ends = Vec::new(alloc);
    if ends.reserve(1).is_err() {
        ends.reserve(1)?;
    }
    ends.push_reserved(end);
    Ok(ends)
}

/// How many operations a document returns of those logged from this index on, if at most so many
/// are asked for.
pub fn tail_count<M: Marker>(
    doc: &LockedDoc<M>,
    from: usize,
    most: usize,
) -> Result<usize, Refusal> {
    Ok(doc.tail(from, most)?.as_slice().len())
}

/// Whether the ends of a document's seats are gathered, and add up to this.
pub fn adds_up<M: Marker>(
    alloc: Global,
    doc: LockedDoc<M>,
    ends: Vec<SeatEnd<M>>,
    by_seat: &[u64],
    sums: (u64, u64, u64),
) -> bool {
    match doc.gather(alloc, ends) {
        Ok(totals) => are_totals(&totals, by_seat, sums),
        Err(_) => false,
    }
}

/// Whether so many were logged for each seat, and in sum so many are accepted, logged and copied.
pub fn are_totals(totals: &Totals, by_seat: &[u64], sums: (u64, u64, u64)) -> bool {
    *totals.by_seat.as_slice() == *by_seat
        && (totals.accepted, totals.logged, totals.copied) == sums
}

/// A document of the replica `srv-1` with so many seats.
pub fn document<M: Marker>(
    alloc: Global,
    table: &mut Table<M>,
    number: u16,
    seats: u16,
) -> Result<LockedDoc<M>, Refusal>
    requires place { table.old ≤ counter_number number 0 }
    requires begun { BeginEmpty M.origin }
    ensures ok { IfOk result (λ d. d.number ≡ number) }
    ensures table { OnOk result (table.new ≤ counter_number (number + 1) 0) }
{
    let ledgers = Ledgers::make(alloc, table, number, seats)?;
    holding(alloc, server(alloc)?, ledgers)
}

/// A document of this replica.
pub fn holding<M: Marker>(
    alloc: Global,
    replica: Replica,
    ledgers: Ledgers<M>,
) -> Result<LockedDoc<M>, Refusal>
    requires begun { replica.log ≡ (M.origin ledgers.number).log }
    requires named { MayBeNamed (M.origin ledgers.number) replica.name }
    ensures { IfOk result (λ d. d.number ≡ ledgers.number) }
{
    match LockedDoc::new(alloc, replica, ledgers) {
        Ok(doc) => Ok(doc),
        Err((_replica, _ledgers)) => Err(Refusal::NoMemory),
    }
}
