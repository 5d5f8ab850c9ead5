//! Sessions whose connection fails: they end alone, and what they did is in the totals.
use super::samples::{Fault, NO_FAULT, Ran, ended_so, first_did, run_two};
use crate::checks::holds;
use json_scalar::Refusal;
use server_core::OpenGate;
use session_rules::Ending;
use std::alloc::Global;
use std::process::Abort;
use std::sync::Wait;
use std::thread::Threads;

const TWO: &[u8] = br#"["open","a"]
["assign","a",[0,"b"],1]
["assign","a",[0,"b"],2]
"#;

// A fault of the first of two sessions of the same lines, how many of its assignments that one
// does, and how it ends. What each seat did, where the first session took its seat first, and
// where it did not.
struct Row {
    name: &'static str,
    fault: Fault,
    done: u64,
    why: Option<Ending>,
    seated_first: &'static [u64],
    seated_second: &'static [u64],
}

static ROWS: [Row; 3] = [
    Row {
        name: "source_fails_in_mid_line",
        fault: Fault {
            read_after: 50,
            ..NO_FAULT
        },
        done: 1,
        why: Some(Ending::ReadFault),
        seated_first: &[1, 2],
        seated_second: &[2, 1],
    },
    Row {
        name: "sink_fails_in_mid_reply",
        fault: Fault {
            write_after: 20,
            ..NO_FAULT
        },
        // Replies go out once no whole line is buffered, so all lines are answered before.
        done: 2,
        why: Some(Ending::WriteFault),
        seated_first: &[2, 2],
        seated_second: &[2, 2],
    },
    Row {
        name: "connection_cannot_be_opened",
        fault: Fault {
            opens: false,
            ..NO_FAULT
        },
        done: 0,
        why: None,
        seated_first: &[2],
        seated_second: &[2],
    },
];

// The session that fails does so much, and ends so; the other one does both assignments, up to the
// end. A connection that can't be opened has no reply, and then there is one seat.
fn fails_alone<R: Abort>(rt: &R, row: &Row, ran: &Ran) {
    let endings = [row.why, Some(Ending::End)];
    let is = ended_so(&ran.gathered, &endings) && ran.first.is_empty() != row.fault.opens;
    holds(rt, is, row.name);
    let shares = if ran.first.as_slice().starts_with(b"[\"opened\",1]\n") {
        row.seated_first
    } else {
        row.seated_second
    };
    let all = row.done.saturating_add(2);
    first_did(rt, row.name, &ran.gathered, all, shares);
}

/// In each of these rows the session that fails ends alone, and the other one goes on.
pub fn fail_alone<R: Threads + Wait + Abort + Sync>(rt: &R, alloc: Global) -> Result<(), Refusal> {
    for row in &ROWS {
        let ran = run_two(rt, alloc, &OpenGate, [TWO, TWO], row.fault)?;
        fails_alone(rt, row, &ran);
    }
    Ok(())
}
