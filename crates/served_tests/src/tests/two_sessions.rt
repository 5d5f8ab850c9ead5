//! The worked history of two sessions at one document, over a log in memory: the replies to each,
//! whichever is first, and the totals.
use super::checks::{bytes_are, counts, holds};
use super::places::new_list;
use super::serving::serve_all;
use log::Log;
use server_core::Pace;
use server_core::doubles::Script;
use std::alloc::{AllocError, Global};
use std::process::Abort;
use std::str;
use std::sync::{Mutex, Wait};
use std::test::Fail;
use std::thread::Threads;
use std::time::Clock;

/// A session of three assignments.
pub const THREE: &[u8] = br#"["open","d"]
["assign","d",[0,"a"],1]
["assign","d",[0,"a"],2]
["assign","d",[0,"a"],3]
["values","d",[0,"a"]]
"#;

/// A session of two assignments, whose last line has no newline.
pub const TWO: &[u8] = br#"["open","d"]
["assign","d",[0,"b"],1]
["assign","d",[0,"b"],2]
["values","d",[0,"b"]]"#;

/// The totals of both.
pub const TOTALS: &[u8] = b"[\"total\",\"d\",5,5,5]\n";

// A session of so many assignments had replies of its seat, of each of them, and at the end this.
// The counters are not its own alone.
fn has_all_replies<R: Abort>(rt: &R, replies: &str, done: usize, last: &str) {
    let mut lines = replies.lines();
    let opened = lines.next().unwrap_or("");
    holds(rt, opened.starts_with("[\"opened\","), opened);
    for _ in 0..done {
        let line = lines.next().unwrap_or("");
        let is = line.starts_with("[\"applied\",1,0,[") && line.ends_with(",\"srv-1\"]]");
        holds(rt, is, line);
    }
    let line = lines.next().unwrap_or("").as_bytes();
    bytes_are(
        rt,
        "one of two sessions",
        "the last line",
        line,
        last.as_bytes(),
    );
    holds(rt, lines.next().is_none(), "no further reply");
}

// Which of two sessions has which of the two seats is open.
fn have_both_seats(first: &str, second: &str) -> bool {
    if first.starts_with("[\"opened\",1]\n") {
        second.starts_with("[\"opened\",2]\n")
    } else {
        second.starts_with("[\"opened\",1]\n")
    }
}

/// These are the replies to the session of three assignments, and to that of two.
pub fn have_replies<R: Abort>(rt: &R, first: &str, second: &str) {
    has_all_replies(rt, first, 3, "[\"values\",[3]]");
    has_all_replies(rt, second, 2, "[\"values\",[2]]");
    let seats = have_both_seats(first, second);
    holds(rt, seats, "each has a seat of its own");
}

// The status of a server with these sessions, its totals, and the replies to each.
#[derive(Drop)]
struct Served {
    status: u8,
    totals: Vec<u8>,
    first: Vec<u8>,
    second: Vec<u8>,
}

fn serve_both<R: Threads + Wait + Sync + Log + Clock>(
    rt: &R,
    alloc: Global,
) -> Result<Served, AllocError> {
    let first = Mutex::new(Vec::new(alloc));
    let second = Mutex::new(Vec::new(alloc));
    let scripts = vec![in alloc;
        Script::new(rt, THREE, &first),
        Script::new(rt, TWO, &second),
    ]?;
    let served = serve_all(
        rt,
        alloc,
        "srv",
        &["d"],
        Pace::Behind(4096),
        scripts,
        new_list(alloc),
    );
    Ok(Served {
        status: served.status,
        totals: served.totals,
        first: first.into_inner(),
        second: second.into_inner(),
    })
}

fn did<R: Abort>(rt: &R, served: &Served) {
    let case = "two_sessions_over_a_copy";
    counts(rt, case, "status", u64::from(served.status), 0);
    bytes_are(rt, case, "totals", served.totals.as_slice(), TOTALS);
    have_replies(
        rt,
        str::from_utf8(served.first.as_slice()).unwrap_or(""),
        str::from_utf8(served.second.as_slice()).unwrap_or(""),
    );
}

#[test]
fn two_sessions_over_a_copy(rt: HostRuntime) -> Result<(), Fail> {
    did(&rt, &serve_both(&rt, rt.alloc())?);
    Ok(())
}
