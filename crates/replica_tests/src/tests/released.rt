//! The worked row on operations that are delivered out of order, through a document's seat.
ghost use Rattle.std.specs.Prelude.{◌≡◌};
ghost use Rattle.share_ledger.specs.Begun.{BeginEmpty};

use super::samples::{Digest, are_ids, delivers, digest_of, document, holds, is_number, look_at};
use doc_api::{Look, Query, Reply, State};
use json_scalar::Refusal;
use locked_doc::{LockedDoc, Seat};
use share_ledger::{Blank, Marker};
use std::alloc::Global;
use std::marker::Brand;
use std::process::Abort;
use std::test::*;

const THIRD: (&str, Digest) = (
    r#"["op",[3,"p"],[["p",2]],[[["m",0]],"k"],["assign",3]]"#,
    Digest::Held,
);

const SECOND: (&str, Digest) = (
    r#"["op",[2,"p"],[["p",1]],[[["m",0]],"k"],["assign",2]]"#,
    Digest::Held,
);

const FIRST: (&str, Digest) = (
    r#"["op",[1,"p"],[],[[["m",0]],"k"],["assign",1]]"#,
    Digest::Applied(3, 0, 1),
);

// Whether the second of p waits for its first, and the third for the second.
fn are_waiting(reply: Reply) -> bool {
    match &reply {
        Reply::Waiting(waiting) => match waiting.as_slice() {
            [second, third] => {
                are_ids(&[second.0, third.0], &[(2, "p"), (3, "p")])
                    && are_ids(second.1.as_slice(), &[(1, "p")])
                    && are_ids(third.1.as_slice(), &[(2, "p")])
            }
            _ => false,
        },
        _ => false,
    }
}

#[test]
fn buffer_release(rt: HostRuntime) -> Result<(), Fail> {
    delivers_in_reverse::<Brand, _>(&rt, rt.alloc(), Blank::new())?;
    Ok(())
}

fn delivers_in_reverse<M: Marker, R: Abort>(
    rt: &R,
    alloc: Global,
    blank: Blank,
) -> Result<(), Refusal>
    requires blank { blank ≡ M.name }
    requires begun { BeginEmpty M.origin }
{
    let mut table = blank.named::<M>();
    let mut doc = document(alloc, &mut table, 0, 1)?;
    let mut seat = doc.open_seat()?;
    third_first(rt, alloc, &mut doc, &mut seat)
}

fn third_first<M: Marker, R: Abort>(
    rt: &R,
    alloc: Global,
    doc: &mut LockedDoc<M>,
    seat: &mut Seat<M>,
) -> Result<(), Refusal> {
    delivers(rt, alloc, doc, seat, THIRD)?;
    delivers(rt, alloc, doc, seat, SECOND)?;
    let held = doc.read(seat, Query::State(State::Held)).into_reply();
    holds(rt, are_waiting(held), "what is held");
    delivers(rt, alloc, doc, seat, FIRST)?;
    let account = digest_of(doc.read(seat, Query::State(State::Account)).into_reply());
    holds(rt, account == Digest::Account(3), "account");
    let values = doc
        .read(seat, look_at(alloc, Look::Values, "k")?)
        .into_reply();
    holds(rt, is_number(values, 3), "values at k");
    Ok(())
}
