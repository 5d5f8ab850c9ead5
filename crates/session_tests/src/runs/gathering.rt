//! Sessions whose seats are returned and gathered.
ghost use Rattle.std.specs.Prelude.{◌≡◌};
ghost use Rattle.share_ledger.specs.Begun.{BeginEmpty};

use crate::checks::holds;
use crate::servers::samples::names_of;
use json_scalar::Refusal;
use lamport_id::ReplicaName;
use line_feed::doubles::FailAfter;
use line_feed::{Reader, Writer};
use locked_doc::{SeatEnd, Totals};
use run_core::{Maker, NewDocuments, Seated};
use session_core::{Alone, Ended, run_alone};
use session_rules::Ending;
use share_ledger::{Blank, Marker};
use std::alloc::Global;
use std::marker::Brand;
use std::process::Abort;

// New documents `d` and `e`.
fn two_documents<M: Marker>(
    alloc: Global,
    maker: &mut NewDocuments<M>,
) -> Result<Alone<Seated<M>>, Refusal>
    requires { maker.old ≡ 0 }
{
    let replica = ReplicaName::read(b"srv-1").ok_or(Refusal::BadRequest)?;
    let names = names_of(alloc, &["d", "e"])?;
    let documents = vec![in alloc; maker.make(alloc, &replica)?, maker.make(alloc, &replica)?]?;
    Ok(Alone { names, documents })
}

// A session over new documents `d` and `e`, with a sink that fails after so many bytes.
fn session<M: Marker>(
    alloc: Global,
    blank: Blank,
    input: &[u8],
    write_after: usize,
) -> Option<Ended<Seated<M>>>
    requires blank { blank ≡ M.name }
    requires begun { BeginEmpty M.origin }
{
    let mut maker = NewDocuments::<M>::new(blank);
    let documents = two_documents(alloc, &mut maker).ok()?;
    let mut out = Vec::new(alloc);
    let mut sink = FailAfter::new(Writer::new(&mut out), write_after);
    run_alone(alloc, &mut Reader::new(input), &mut sink, documents).ok()
}

// What was done at the document that is last, gathered with its end.
fn last_totals<M: Marker>(
    alloc: Global,
    documents: &mut Vec<Seated<M>>,
    ends: &mut Vec<Option<SeatEnd<M>>>,
) -> Option<Totals> {
    let mut list = Vec::with_capacity(alloc, 1).ok()?;
    if let Some(end) = ends.pop()? {
        list.push_reserved(end);
    }
    documents.pop()?.gather(alloc, list).ok()
}

// How a session over new documents `d` and `e` ends, and what was done at either. Its sink fails
// after so many bytes.
fn gathered<M: Marker>(
    alloc: Global,
    blank: Blank,
    input: &[u8],
    write_after: usize,
) -> Option<(Ending, Totals, Totals)>
    requires blank { blank ≡ M.name }
    requires begun { BeginEmpty M.origin }
{
    let Ended {
        why,
        documents,
        mut ends,
    } = session::<M>(alloc, blank, input, write_after)?;
    let Alone {
        names: _,
        mut documents,
    } = documents;
    let second = last_totals(alloc, &mut documents, &mut ends)?;
    let first = last_totals(alloc, &mut documents, &mut ends)?;
    if !documents.is_empty() || !ends.is_empty() {
        return None;
    }
    Some((why, first, second))
}

// A session over new documents `d` and `e`, whose sink fails after so many bytes: how it ends, and
// of how many operations each opened seat of either document was told, which are all that is
// logged.
struct Row {
    name: &'static str,
    input: &'static str,
    write_after: usize,
    why: Ending,
    first: (&'static [u64], u64),
    second: (&'static [u64], u64),
}

static ROWS: [Row; 3] = [
    // the document `e` isn't opened
    Row {
        name: "first_run",
        input: "[\"open\",\"d\"]\n[\"assign\",\"d\",[0],{}]\n",
        write_after: usize::MAX,
        why: Ending::End,
        first: (&[1], 1),
        second: (&[], 0),
    },
    // what is released counts for the seat, and a seat that did nothing for nothing
    Row {
        name: "release",
        input: r#"["open","e"]
["open","d"]
["deliver","d",["op",[3,"p"],[["p",2]],[[["m",0]],"k"],["assign",3]]]
["deliver","d",["op",[2,"p"],[["p",1]],[[["m",0]],"k"],["assign",2]]]
["deliver","d",["op",[1,"p"],[],[[["m",0]],"k"],["assign",1]]]
["quit"]
"#,
        write_after: usize::MAX,
        why: Ending::Quit,
        first: (&[3], 3),
        second: (&[0], 0),
    },
    // what was done counts, though its reply could not be written
    Row {
        name: "unwritten",
        input: "[\"open\",\"e\"]\n[\"assign\",\"e\",[0],{}]\n",
        write_after: 13,
        why: Ending::WriteFault,
        first: (&[], 0),
        second: (&[1], 1),
    },
];

// Whether the seats were told of so many operations, which are all that is logged.
fn adds_up(totals: &Totals, due: (&[u64], u64)) -> bool {
    totals.by_seat.as_slice() == due.0 && totals.accepted == due.1 && totals.logged == due.1
}

fn gathers<R: Abort>(rt: &R, alloc: Global, row: &Row) {
    let found = gathered::<Brand>(alloc, Blank::new(), row.input.as_bytes(), row.write_after);
    let is = match &found {
        Some((why, first, second)) => {
            *why == row.why && adds_up(first, row.first) && adds_up(second, row.second)
        }
        None => false,
    };
    holds(rt, is, row.name);
}

#[test]
fn sessions_gathered(rt: HostRuntime) {
    for row in &ROWS {
        gathers(&rt, rt.alloc(), row);
    }
}
