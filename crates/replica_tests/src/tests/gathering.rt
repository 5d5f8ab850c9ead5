//! Seats of a document and of another, and what their ends add up to.
ghost use Rattle.std.specs.Prelude.{◌≡◌, ◌≤◌};
ghost use Rattle.share_ledger.specs.Counters.{counter_number};
ghost use Rattle.share_ledger.specs.Begun.{BeginEmpty};

use super::samples::{
    Deed, Digest, adds_up, are_ids, command, delivers, digest_of, document, holds, is_count,
    tail_count,
};
use doc_api::{Query, State};
use json_scalar::Refusal;
use locked_doc::{Gathering, LockedDoc, Seat, SeatEnd};
use share_ledger::{Blank, Marker, Table};
use std::alloc::Global;
use std::marker::Brand;
use std::process::Abort;
use std::test::*;

const ASSIGNMENT: &str = r#"["op",[1,"srv-1"],[],[[["m",0]],"k"],["assign",7]]"#;

const FIRST: &str = r#"["op",[1,"p"],[],[[["m",0]],"k"],["assign",1]]"#;

const SECOND: &str = r#"["op",[2,"p"],[["p",1]],[[["m",0]],"k"],["assign",2]]"#;

// Assigns so often for a seat, and answers whether each was logged alone.
fn assigns<M: Marker>(
    alloc: Global,
    doc: &mut LockedDoc<M>,
    seat: &mut Seat<M>,
    counters: &[u64],
) -> Result<bool, Refusal> {
    for counter in counters {
        let assignment = command(alloc, Deed::Make, ASSIGNMENT)?;
        if digest_of(doc.act(seat, assignment).into_reply()) != Digest::Applied(1, 0, *counter) {
            return Ok(false);
        }
    }
    Ok(true)
}

// Whether a seat's end was digest of these operations of its document.
fn has_ids<M: Marker>(end: &SeatEnd<M>, seat: u16, ids: &[(u64, &str)]) -> bool {
    end.number() == 0 && end.seat() == seat && are_ids(end.acknowledged(), ids)
}

// Gathers ends that don't fit the document, and returns what comes back.
fn refuses<M: Marker, R: Abort>(
    rt: &R,
    alloc: Global,
    doc: LockedDoc<M>,
    ends: Vec<SeatEnd<M>>,
) -> Result<Gathering<M>, Refusal> {
    let count = ends.len();
    match doc.gather(alloc, ends) {
        Ok(_) => {
            holds(rt, false, "gathered");
            Err(Refusal::ListsDiffer)
        }
        Err(back) => {
            holds(rt, is_all(&back, count), "what is returned");
            Ok(back)
        }
    }
}

// Whether all that was given is returned, since the ends were not those of the document's seats.
fn is_all<M: Marker>(back: &Gathering<M>, count: usize) -> bool {
    back.refusal == Refusal::ListsDiffer
        && back.ends.len() == count
        && (back.doc.number(), back.doc.opened()) == (0, 2)
}

// Whether all is returned where one more end is given behind those that were returned.
fn refuses_with<M: Marker, R: Abort>(
    rt: &R,
    alloc: Global,
    back: Gathering<M>,
    end: SeatEnd<M>,
) -> Result<Gathering<M>, Refusal> {
    let Gathering {
        refusal: _,
        doc,
        mut ends,
    } = back;
    ends.push(end)?;
    refuses(rt, alloc, doc, ends)
}

// A list of the end of a seat of the document of number 1.
fn elsewhere<M: Marker>(alloc: Global, table: &mut Table<M>) -> Result<Vec<SeatEnd<M>>, Refusal>
    requires place { table.old ≤ counter_number 1 0 }
    requires begun { BeginEmpty M.origin }
{
    let mut ends = Vec::new(alloc);
    ends.reserve(1)?;
    let mut doc = document(alloc, table, 1, 1)?;
    let seat = doc.open_seat()?;
    ends.push_reserved(seat.end());
    Ok(ends)
}

#[test]
fn gather_totals(rt: HostRuntime) -> Result<(), Fail> {
    gathers::<Brand, _>(&rt, rt.alloc(), Blank::new())?;
    Ok(())
}

// A document with 3 seats: seat 1 assigns three times, seat 2 twice, seat 3 isn't opened.
fn gathers<M: Marker, R: Abort>(rt: &R, alloc: Global, blank: Blank) -> Result<(), Refusal>
    requires blank { blank ≡ M.name }
    requires begun { BeginEmpty M.origin }
{
    let mut table = blank.named::<M>();
    let mut doc = document(alloc, &mut table, 0, 3)?;
    let mut ends = elsewhere(alloc, &mut table)?;
    assigned(rt, alloc, &mut doc, &mut ends)?;
    refuses_each(rt, alloc, doc, ends)
}

// Puts the ends of two seats that assigned around that of another document, the last of them first.
fn assigned<M: Marker, R: Abort>(
    rt: &R,
    alloc: Global,
    doc: &mut LockedDoc<M>,
    ends: &mut Vec<SeatEnd<M>>,
) -> Result<(), Refusal> {
    let mut one = doc.open_seat()?;
    let mut two = doc.open_seat()?;
    both_assign(rt, alloc, doc, &mut one, &mut two)?;
    around(ends, two.end(), one.end())
}

fn around<M: Marker>(
    ends: &mut Vec<SeatEnd<M>>,
    before: SeatEnd<M>,
    after: SeatEnd<M>,
) -> Result<(), Refusal> {
    ends.reserve(2)?;
    ends.push_reserved(before);
    ends.reverse();
    ends.push_reserved(after);
    Ok(())
}

fn both_assign<M: Marker, R: Abort>(
    rt: &R,
    alloc: Global,
    doc: &mut LockedDoc<M>,
    one: &mut Seat<M>,
    two: &mut Seat<M>,
) -> Result<(), Refusal> {
    holds(rt, assigns(alloc, doc, one, &[1, 2, 3])?, "seat 1 assigns");
    holds(rt, assigns(alloc, doc, two, &[4, 5])?, "seat 2 assigns");
    Ok(())
}

// Without an end, with that of seat 1 alone, with the end of another document in the place of one,
// and with that one too many.
fn refuses_each<M: Marker, R: Abort>(
    rt: &R,
    alloc: Global,
    doc: LockedDoc<M>,
    last_first: Vec<SeatEnd<M>>,
) -> Result<(), Refusal> {
    let mut left = last_first;
    let mut back = refuses(rt, alloc, doc, Vec::new(alloc))?;
    for _ in 0..left.len() {
        if let Some(end) = left.pop() {
            back = refuses_with(rt, alloc, back, end)?;
        }
    }
    gathers_all(rt, alloc, back)
}

// With seat 1 behind seat 2, and then before it.
fn gathers_all<M: Marker, R: Abort>(
    rt: &R,
    alloc: Global,
    back: Gathering<M>,
) -> Result<(), Refusal> {
    let Gathering {
        refusal: _,
        doc,
        mut ends,
    } = back;
    holds(rt, turns(&mut ends), "three ends");
    let turned = refuses(rt, alloc, doc, ends)?;
    gathers_turned(rt, alloc, turned);
    Ok(())
}

// Takes out the middle of three ends, and turns the others around.
fn turns<M: Marker>(ends: &mut Vec<SeatEnd<M>>) -> bool {
    if ends.len() != 3 {
        return false;
    }
    drop(ends.remove(1));
    ends.reverse();
    true
}

fn gathers_turned<M: Marker, R: Abort>(rt: &R, alloc: Global, turned: Gathering<M>) {
    let Gathering {
        refusal: _,
        doc,
        mut ends,
    } = turned;
    ends.reverse();
    holds(rt, are_both(ends.as_slice()), "what both were digest");
    let is = adds_up(alloc, doc, ends, &[3, 2], (5, 5, 0));
    holds(rt, is, "what they add up to");
}

fn are_both<M: Marker>(ends: &[SeatEnd<M>]) -> bool {
    match ends {
        [one, two] => has_ids(one, 1, &[(1, "srv-1"), (2, "srv-1"), (3, "srv-1")])
            && has_ids(two, 2, &[(4, "srv-1"), (5, "srv-1")]),
        _ => false,
    }
}

#[test]
fn release_counts_for_releaser(rt: HostRuntime) -> Result<(), Fail> {
    second_seat_releases::<Brand, _>(&rt, rt.alloc(), Blank::new())?;
    Ok(())
}

// What one seat delivered and another seat's call released is the second seat's.
fn second_seat_releases<M: Marker, R: Abort>(
    rt: &R,
    alloc: Global,
    blank: Blank,
) -> Result<(), Refusal>
    requires blank { blank ≡ M.name }
    requires begun { BeginEmpty M.origin }
{
    let mut table = blank.named::<M>();
    let mut doc = document(alloc, &mut table, 0, 2)?;
    let mut other = document(alloc, &mut table, 1, 1)?;
    seats_are_opened(rt, alloc, &mut doc, &mut other)
}

fn seats_are_opened<M: Marker, R: Abort>(
    rt: &R,
    alloc: Global,
    doc: &mut LockedDoc<M>,
    other: &mut LockedDoc<M>,
) -> Result<(), Refusal> {
    let mut one = doc.open_seat()?;
    let mut two = doc.open_seat()?;
    second_releases(rt, alloc, doc, other, &mut one, &mut two)
}

fn second_releases<M: Marker, R: Abort>(
    rt: &R,
    alloc: Global,
    doc: &mut LockedDoc<M>,
    other: &mut LockedDoc<M>,
    one: &mut Seat<M>,
    two: &mut Seat<M>,
) -> Result<(), Refusal> {
    delivers(rt, alloc, doc, one, (SECOND, Digest::Held))?;
    delivers(rt, alloc, doc, two, (FIRST, Digest::Applied(2, 0, 1)))?;
    holds(rt, have_accounts(doc, one, two, (0, 2)), "accounts");
    holds(rt, is_full(doc), "no seat is left");
    turns_away(rt, alloc, other, one)?;
    holds(rt, have_accounts(doc, one, two, (0, 2)), "accounts again");
    doc.note_copied(2);
    is_count(rt, tail_count(doc, 1, 5)?, 1, "operations behind the first");
    Ok(())
}

fn is_full<M: Marker>(doc: &mut LockedDoc<M>) -> bool {
    matches!(&doc.open_seat(), Err(Refusal::SeatsFull))
}

// Whether two seats are digest these as their accounts, which are their shares.
fn have_accounts<M: Marker>(
    doc: &LockedDoc<M>,
    one: &mut Seat<M>,
    two: &mut Seat<M>,
    expected: (u64, u64),
) -> bool {
    is_account(doc, one, expected.0) && is_account(doc, two, expected.1)
}

fn is_account<M: Marker>(doc: &LockedDoc<M>, seat: &mut Seat<M>, expected: u64) -> bool {
    let digest = digest_of(doc.read(seat, Query::State(State::Account)).into_reply());
    digest == Digest::Account(expected) && seat.account() == expected
}

// A document answers a seat that isn't its own by not-open, with nothing changed, its own first
// seat not opened.
fn turns_away<M: Marker, R: Abort>(
    rt: &R,
    alloc: Global,
    doc: &mut LockedDoc<M>,
    seat: &mut Seat<M>,
) -> Result<(), Refusal> {
    let away = Digest::Refused(Refusal::NotOpen);
    let before = seat.account();
    delivers(rt, alloc, doc, seat, (FIRST, away))?;
    let read = digest_of(doc.read(seat, Query::State(State::Account)).into_reply());
    holds(rt, read == away, "account elsewhere");
    let counts = (seat.account(), doc.opened(), tail_count(doc, 0, 5)?);
    holds(rt, counts == (before, 0, 0), "nothing is changed elsewhere");
    Ok(())
}
