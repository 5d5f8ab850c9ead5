//! What a copier's seat has read of its document, and what is stored of it.
ghost use Rattle.std.specs.Prelude.{◌≡◌};
ghost use Rattle.share_ledger.specs.Begun.{BeginEmpty};

use super::samples::{Digest, alone, delivers, document, holds, is_count};
use json_scalar::Refusal;
use locked_doc::{CopierBook, CopierSeat, LockedDoc, SeatEnd};
use share_ledger::{Blank, Marker, StoreShare};
use std::alloc::Global;
use std::marker::Brand;
use std::process::Abort;
use std::test::*;

const FIRST: &str = r#"["op",[1,"p"],[],[[["m",0]],"k"],["assign",1]]"#;

#[test]
fn copier_reads_log(rt: HostRuntime) -> Result<(), Fail> {
    copies::<Brand, _>(&rt, rt.alloc(), Blank::new())?;
    Ok(())
}

// A copier's seat is opened once, reads what is logged, and agrees at the end.
fn copies<M: Marker, R: Abort>(rt: &R, alloc: Global, blank: Blank) -> Result<(), Refusal>
    requires blank { blank ≡ M.name }
    requires begun { BeginEmpty M.origin }
{
    let mut table = blank.named::<M>();
    let mut doc = document(alloc, &mut table, 0, 1)?;
    let (mut copier, mut share) = doc.open_copier().ok_or(Refusal::SeatsFull)?;
    holds(rt, doc.open_copier().is_none(), "opened once");
    logs_one(rt, alloc, doc, &mut copier, &mut share)
}

fn logs_one<M: Marker, R: Abort>(
    rt: &R,
    alloc: Global,
    mut doc: LockedDoc<M>,
    copier: &mut CopierSeat<M>,
    share: &mut StoreShare<M>,
) -> Result<(), Refusal> {
    let mut seat = doc.open_seat()?;
    let applied = Digest::Applied(1, 0, 1);
    delivers(rt, alloc, &mut doc, &mut seat, (FIRST, applied))?;
    is_count(
        rt,
        stored_count(&mut doc, copier, share)?,
        1,
        "read and stored",
    );
    let agrees = agrees(alloc, doc, seat.end(), copier)?;
    holds(rt, agrees, "the copier's book");
    Ok(())
}

// How many operations the copier reads, which then are stored: as many as both halves say.
fn stored_count<M: Marker>(
    doc: &mut LockedDoc<M>,
    copier: &mut CopierSeat<M>,
    share: &mut StoreShare<M>,
) -> Result<usize, Refusal> {
    if copier.number() != doc.number() || copier.number() != share.number() {
        return Err(Refusal::NotOpen);
    }
    let read = doc.tail_for(copier, 0, 5)?;
    if copier.stored() == 0 {
        copier.grow(share, read.as_slice());
    }
    if copier.stored() != share.count() {
        return Err(Refusal::ListsDiffer);
    }
    Ok(share.count() as usize)
}

// Whether one operation was logged, of which the book knows what the copier does.
fn agrees<M: Marker>(
    alloc: Global,
    doc: LockedDoc<M>,
    end: SeatEnd<M>,
    copier: &CopierSeat<M>,
) -> Result<bool, Refusal> {
    let ends = alone(alloc, end)?;
    match doc.gather_followed(alloc, ends) {
        Ok((totals, book)) => Ok(totals.logged == 1 && is_book_of(&book, copier)),
        Err(back) => Err(back.refusal),
    }
}

fn is_book_of<M: Marker>(book: &CopierBook<M>, copier: &CopierSeat<M>) -> bool {
    if book.number() != copier.number() {
        return false;
    }
    book.agree(copier);
    true
}
