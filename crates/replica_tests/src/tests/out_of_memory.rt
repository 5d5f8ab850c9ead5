//! One allocation is refused, whichever it is. The call that it hits leaves all as it was, and made
//! again it does what it does with ample memory. Held operations may be dropped instead.
//!
//! `rt test` refuses none. `tests/each-allocation replica_tests TEST..` runs a test of this file
//! once for each of its allocations, with that one refused. `rt try --test --fail-alloc N` refuses
//! the Nth of each test, for one N a run, and the tests of the other files fail under it, since
//! they expect ample memory.
ghost use Rattle.std.specs.Prelude.{◌≡◌, ◌≤◌, ℕ, IfOk};
ghost use Rattle.share_ledger.specs.Begun.{MayBeNamed};
ghost use Rattle.share_ledger.specs.Counters.{counter_number};

use super::is_conflict_at;
use super::samples::{
    Deed, Digest, adds_up, alone, are_totals, command, digest_of, holding, holds, is_count,
    is_digest, look_at, member, restored, server, tail_count, whole,
};
use doc_api::{Command, Look, Query, Reply, State};
use json_scalar::Refusal;
use lamport_id::ReplicaName;
use locked_doc::{Gathering, Ledgers, LockedDoc, Seat, SeatEnd, Shelf};
use op_core::Front;
use replica_core::{Misfit, Replica};
use share_ledger::{Blank, Marker, Table};
use std::alloc::Global;
use std::marker::Brand;
use std::process::Abort;
use std::test::*;

const RESTORED: [&str; 2] = [
    r#"["op",[1,"o"],[],[[],0],["assign",{}]]"#,
    r#"["op",[2,"o"],[["o",1]],[[["m",0]],"l"],["assign",[]]]"#,
];

const SECOND: &str = r#"["op",[2,"p"],[["p",1]],[[["m",0]],"k"],["assign",2]]"#;

const THIRD: &str = r#"["op",[3,"p"],[["p",2]],[[["m",0]],"k"],["assign",3]]"#;

// What is asked of the document, and what is expected where memory is ample.
const STEPS: [(Deed, &str, Digest); 12] = [
    (
        Deed::Make,
        r#"["op",[3,"srv-1"],[["o",2]],[[["m",0],["l","l"]],1],["insert","eggs"]]"#,
        Digest::Applied(1, 0, 3),
    ),
    (
        Deed::Make,
        r#"["op",[4,"srv-1"],[["o",2],["srv-1",3]],[[["m",0]],"n"],["add",5]]"#,
        Digest::Applied(1, 0, 4),
    ),
    (
        Deed::Make,
        r#"["op",[5,"srv-1"],[["o",2],["srv-1",4]],[[["m",0]],"k"],["delete"]]"#,
        Digest::Applied(1, 0, 5),
    ),
    (Deed::Deliver, THIRD, Digest::Held),
    (Deed::Deliver, THIRD, Digest::Held),
    (Deed::Forget, THIRD, Digest::Forgotten),
    (Deed::Forget, THIRD, Digest::Refused(Refusal::NotHeld)),
    (Deed::Deliver, THIRD, Digest::Held),
    (Deed::Deliver, SECOND, Digest::Held),
    (
        Deed::Deliver,
        r#"["op",[1,"p"],[],[[["m",0]],"k"],["assign",1]]"#,
        Digest::Applied(3, 0, 1),
    ),
    (
        Deed::Deliver,
        r#"["op",[1,"p"],[],[[["m",0]],"k"],["assign",1]]"#,
        Digest::Known,
    ),
    (
        Deed::Deliver,
        r#"["op",[1,"p"],[],[[["m",0]],"k"],["assign","Z"]]"#,
        Digest::Refused(Refusal::IdConflict),
    ),
];

// What the document shows at the end.
const SHOWN: &str =
    r#"[["map",[["k",[["val",[3,"p"],3]]],["l",[["list",[[["val",[3,"srv-1"],"eggs"]]]]]],["n",[["cnt","5"]]]]]]"#;

fn command_again(alloc: Global, deed: Deed, text: &str) -> Result<Command, Refusal> {
    match command(alloc, deed, text) {
        Ok(made) => Ok(made),
        Err(_) => command(alloc, deed, text),
    }
}

// How many readings there are.
const READINGS: usize = 12;

fn query(alloc: Global, which: usize) -> Result<Query, Refusal> {
    match which {
        0 => Ok(Query::Look(Look::Show, whole(alloc))),
        1 => Ok(Query::Look(Look::Keys, whole(alloc))),
        2 => look_at(alloc, Look::Values, "k"),
        3 => look_at(alloc, Look::Items, "l"),
        4 => look_at(alloc, Look::Conflicts, "k"),
        5 => look_at(alloc, Look::Sum, "n"),
        6 => Ok(Query::Resolve(member(alloc, "k")?)),
        7 => Ok(Query::Operations(Front::from_pairs(alloc, &[])?, 100)),
        8 => chains(alloc),
        9 => Ok(Query::State(State::Front)),
        10 => Ok(Query::State(State::Held)),
        _ => Ok(Query::State(State::Account)),
    }
}

fn chains(alloc: Global) -> Result<Query, Refusal> {
    let name = ReplicaName::read(b"p").ok_or(Refusal::BadRequest)?;
    let front = Front::from_pairs(alloc, &[(name, 3u64)])?;
    Ok(Query::Chains(Front::from_pairs(alloc, &[])?, front))
}

// The text of a reading, which is refused only if out of memory.
fn reading<M: Marker>(
    alloc: Global,
    doc: &LockedDoc<M>,
    seat: &mut Seat<M>,
    which: usize,
) -> Result<String, Refusal> {
    let asked = query(alloc, which)?;
    match &doc.read(seat, asked).into_reply() {
        Reply::Refused(refusal) => Err(*refusal),
        reply => Ok(format!(in alloc; "{reply:?}\n")?),
    }
}

// All readings of a document, each a line.
fn picture<M: Marker>(
    alloc: Global,
    doc: &LockedDoc<M>,
    seat: &mut Seat<M>,
) -> Result<String, Refusal> {
    let mut text = String::new(alloc);
    for which in 0..READINGS {
        text.push_str(reading(alloc, doc, seat, which)?.as_str())?;
    }
    Ok(text)
}

fn picture_again<M: Marker>(
    alloc: Global,
    doc: &LockedDoc<M>,
    seat: &mut Seat<M>,
) -> Result<String, Refusal> {
    match picture(alloc, doc, seat) {
        Ok(text) => Ok(text),
        Err(_) => picture(alloc, doc, seat),
    }
}

// Does a deed, and returns the answer.
fn acts<M: Marker>(
    alloc: Global,
    doc: &mut LockedDoc<M>,
    seat: &mut Seat<M>,
    deed: Deed,
    text: &str,
) -> Result<Digest, Refusal> {
    let command = command_again(alloc, deed, text)?;
    Ok(digest_of(doc.act(seat, command).into_reply()))
}

// Does a deed, and returns the answer, and whether all readings are as
// before if it was out of memory.
fn acts_or_leaves<M: Marker>(
    alloc: Global,
    doc: &mut LockedDoc<M>,
    seat: &mut Seat<M>,
    deed: Deed,
    text: &str,
) -> Result<(Digest, bool), Refusal> {
    let before = picture_again(alloc, doc, seat)?;
    let answer = acts(alloc, doc, seat, deed, text)?;
    if answer != Digest::Refused(Refusal::NoMemory) {
        return Ok((answer, true));
    }
    let after = picture_again(alloc, doc, seat)?;
    Ok((answer, after == before))
}

// Does one step. If out of memory nothing has changed, and the step succeeds when it is done again.
fn obeys<M: Marker, R: Abort>(
    rt: &R,
    alloc: Global,
    doc: &mut LockedDoc<M>,
    seat: &mut Seat<M>,
    step: &(Deed, &str, Digest),
) -> Result<(), Refusal> {
    let (deed, text, expected) = *step;
    let (answer, is_left) = acts_or_leaves(alloc, doc, seat, deed, text)?;
    holds(rt, is_left, text);
    if answer == Digest::Refused(Refusal::NoMemory) {
        let second = acts(alloc, doc, seat, deed, text)?;
        is_digest(rt, second, expected, "the second time", text);
    } else if !drops_held(answer, expected) {
        is_digest(rt, answer, expected, "at once", text);
    }
    Ok(())
}

// Whether fewer were logged than expected, since a held one was dropped.
fn drops_held(answer: Digest, expected: Digest) -> bool {
    match (answer, expected) {
        (Digest::Applied(count, dropped, counter), Digest::Applied(all, _, first)) => {
            0 < count && count < all && dropped == 1 && counter == first
        }
        _ => false,
    }
}

// Delivers again what may have been dropped, and returns whether it is logged now.
fn delivers_again<M: Marker>(
    alloc: Global,
    doc: &mut LockedDoc<M>,
    seat: &mut Seat<M>,
    text: &str,
) -> Result<bool, Refusal> {
    let mut answer = acts(alloc, doc, seat, Deed::Deliver, text)?;
    if answer == Digest::Refused(Refusal::NoMemory) {
        answer = acts(alloc, doc, seat, Deed::Deliver, text)?;
    }
    Ok(matches!(&answer, Digest::Known | Digest::Applied(_, 0, _)))
}

// Whether all readings are the same three times over, of which at most one was out of memory.
fn stays_alike<M: Marker>(
    alloc: Global,
    doc: &LockedDoc<M>,
    seat: &mut Seat<M>,
) -> Result<bool, Refusal> {
    let first = picture_again(alloc, doc, seat)?;
    let second = picture_again(alloc, doc, seat)?;
    let third = picture_again(alloc, doc, seat)?;
    Ok(first == second && second == third)
}

fn shows<M: Marker>(alloc: Global, doc: &LockedDoc<M>, seat: &mut Seat<M>, expected: &str) -> bool {
    let asked = Query::Look(Look::Show, whole(alloc));
    match &doc.read(seat, asked).into_reply() {
        Reply::Show(text) => text.as_str() == expected,
        _ => false,
    }
}

// The replica `srv-1` with these in its log.
fn restored_again(alloc: Global, texts: &[&str]) -> Result<Replica, Misfit> {
    match restored(alloc, b"srv-1", texts) {
        Err(Misfit::NoMemory) => restored(alloc, b"srv-1", texts),
        other => other,
    }
}

// The replica with the restored operations, which is made at the second try at the latest.
fn replica_again(alloc: Global) -> Result<Replica, Refusal> {
    restored_again(alloc, &RESTORED)
        .ok()
        .ok_or(Refusal::NoMemory)
}

fn ledgers_again<M: Marker>(alloc: Global, table: &mut Table<M>) -> Result<Ledgers<M>, Refusal>
    requires { table.old ≤ counter_number 0 0 }
    ensures { IfOk result (λ l. l.number ≡ 0) }
{
    match Ledgers::make(alloc, table, 0, 2) {
        Ok(ledgers) => Ok(ledgers),
        Err(_) => Ledgers::make(alloc, table, 0, 2),
    }
}

// If out of memory, a second document is made of what is returned.
fn document_again<M: Marker, R: Abort>(
    rt: &R,
    alloc: Global,
    replica: Replica,
    ledgers: Ledgers<M>,
) -> Result<LockedDoc<M>, Refusal>
    requires begun { replica.log ≡ (M.origin ledgers.number).log }
    requires named { MayBeNamed (M.origin ledgers.number) replica.name }
{
    match LockedDoc::new(alloc, replica, ledgers) {
        Ok(doc) => Ok(doc),
        Err((replica, ledgers)) => {
            is_count(rt, replica.log().len(), 2, "logged operations returned");
            holding(alloc, replica, ledgers)
        }
    }
}

// A replica with an empty log is made at the second try.
#[test]
fn new_replica(rt: HostRuntime) -> Result<(), Fail> {
    is_count(&rt, server_again(rt.alloc())?, 0, "logged operations");
    Ok(())
}

// How many operations a new replica has logged.
fn server_again(alloc: Global) -> Result<usize, Refusal> {
    match server(alloc) {
        Ok(replica) => Ok(replica.log().len()),
        Err(_) => Ok(server(alloc)?.log().len()),
    }
}

// A list whose last operation has the id of one before it is a misfit, whatever allocation is
// refused.
#[test]
fn misfit(rt: HostRuntime) -> Result<(), Fail> {
    let twice = [RESTORED[0], RESTORED[1], RESTORED[1]];
    let is = is_conflict_at(restored_again(rt.alloc(), &twice), 2);
    holds(&rt, is, "an operation twice");
    Ok(())
}

#[test]
fn each_step(rt: HostRuntime) -> Result<(), Fail> {
    let replica = replica_again(rt.alloc())?;
    wants::<Brand, _>(&rt, rt.alloc(), Blank::new(), replica)?;
    Ok(())
}

fn wants<M: Marker, R: Abort>(
    rt: &R,
    alloc: Global,
    blank: Blank,
    replica: Replica,
) -> Result<(), Refusal>
    requires blank { blank ≡ M.name }
    requires begun { (number : ℕ) → (M.origin number).log ≡ replica.log }
    requires named { (number : ℕ) → MayBeNamed (M.origin number) replica.name }
{
    let mut table = blank.named::<M>();
    let ledgers = ledgers_again(alloc, &mut table)?;
    let mut doc = document_again(rt, alloc, replica, ledgers)?;
    let end = works(rt, alloc, &mut doc)?;
    gathers(rt, alloc, doc, end)
}

// The end of a seat that did all steps, and read all in the end.
fn works<M: Marker, R: Abort>(
    rt: &R,
    alloc: Global,
    doc: &mut LockedDoc<M>,
) -> Result<SeatEnd<M>, Refusal> {
    let mut seat = doc.open_seat()?;
    for step in &STEPS {
        obeys(rt, alloc, doc, &mut seat, step)?;
    }
    ends_well(rt, alloc, doc, &mut seat)?;
    Ok(seat.end())
}

fn ends_well<M: Marker, R: Abort>(
    rt: &R,
    alloc: Global,
    doc: &mut LockedDoc<M>,
    seat: &mut Seat<M>,
) -> Result<(), Refusal> {
    holds(rt, delivers_again(alloc, doc, seat, SECOND)?, SECOND);
    holds(rt, delivers_again(alloc, doc, seat, THIRD)?, THIRD);
    let is = stays_alike(alloc, doc, seat)?;
    holds(rt, is, "readings that are the same again");
    let is = shows(alloc, doc, seat, SHOWN) || shows(alloc, doc, seat, SHOWN);
    holds(rt, is, "what is shown");
    is_count(rt, tail_again(doc)?, 8, "logged operations");
    holds(rt, seat.account() == 6, "account");
    Ok(())
}

fn tail_again<M: Marker>(doc: &LockedDoc<M>) -> Result<usize, Refusal> {
    match tail_count(doc, 0, 100) {
        Ok(count) => Ok(count),
        Err(_) => tail_count(doc, 0, 100),
    }
}

// Gathers, and once more with what is returned if out of memory.
fn gathers<M: Marker, R: Abort>(
    rt: &R,
    alloc: Global,
    doc: LockedDoc<M>,
    end: SeatEnd<M>,
) -> Result<(), Refusal> {
    let ends = alone(alloc, end)?;
    let is = match doc.gather(alloc, ends) {
        Ok(totals) => are_totals(&totals, &[6], (6, 8, 2)),
        Err(back) => gathers_again(alloc, back),
    };
    holds(rt, is, "what the seat did");
    Ok(())
}

fn gathers_again<M: Marker>(alloc: Global, back: Gathering<M>) -> bool {
    let Gathering { refusal, doc, ends } = back;
    let is_all = refusal == Refusal::NoMemory && ends.len() == 1;
    adds_up(alloc, doc, ends, &[6], (6, 8, 2)) && is_all
}

// A document that finds no room on a shelf is returned.
#[test]
fn room_on_a_shelf(rt: HostRuntime) -> Result<(), Fail> {
    let replica = replica_again(rt.alloc())?;
    puts::<Brand, _>(&rt, rt.alloc(), Blank::new(), replica)?;
    Ok(())
}

fn puts<M: Marker, R: Abort>(
    rt: &R,
    alloc: Global,
    blank: Blank,
    replica: Replica,
) -> Result<(), Refusal>
    requires blank { blank ≡ M.name }
    requires begun { (number : ℕ) → (M.origin number).log ≡ replica.log }
    requires named { (number : ℕ) → MayBeNamed (M.origin number) replica.name }
{
    let mut table = blank.named::<M>();
    let ledgers = ledgers_again(alloc, &mut table)?;
    let doc = document_again(rt, alloc, replica, ledgers)?;
    let mut shelf = Shelf::new(alloc);
    holds(rt, finds_room(&mut shelf, doc), "room at the second try");
    is_count(rt, shelf.len(), 1, "documents on the shelf");
    Ok(())
}

fn finds_room<M: Marker>(shelf: &mut Shelf<M>, doc: LockedDoc<M>) -> bool {
    match shelf.put(doc) {
        Ok(()) => true,
        Err(doc) => {
            let is_all = shelf.len() == 0 && matches!(tail_again(&doc), Ok(2));
            shelf.put(doc).is_ok() && is_all
        }
    }
}
