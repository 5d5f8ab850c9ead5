//! Worked rows, each as the one session of a server of two documents, and that no lock is taken
//! while a line is read or a reply is written.
ghost use Rattle.std.specs.Prelude.{◌≡◌};
ghost use Rattle.share_ledger.specs.Begun.{BeginEmpty};

use super::samples::{NO_FAULT, replies_alone, run_two, shared_documents};
use crate::checks::{holds, replies_are};
use crate::shopping::{SHOPPED, SHOPPING};
use json_scalar::Refusal;
use line_feed::{DeviceFault, Reader, Sink, Source, Writer};
use server_core::{OpenGate, Settles, SharedDocuments, serve_session};
use session_rules::Ending;
use share_ledger::{Blank, Marker};
use std::alloc::Global;
use std::marker::Brand;
use std::process::Abort;
use std::sync::Wait;
use std::thread::Threads;

const RELEASING: &str = r#"["open","b"]
["deliver","b",["op",[3,"p"],[["p",2]],[[["m",0]],"k"],["assign",3]]]
["deliver","b",["op",[2,"p"],[["p",1]],[[["m",0]],"k"],["assign",2]]]
["held","b"]
["deliver","b",["op",[1,"p"],[],[[["m",0]],"k"],["assign",1]]]
["account","b"]
["values","b",[0,"k"]]
"#;

const RELEASED: &str = r#"["opened",1]
["held",[[2,"p"]]]
["held",[[1,"p"]]]
["waiting",[[[2,"p"],[[1,"p"]]],[[3,"p"],[[2,"p"]]]]]
["applied",3,0,[1,"p"]]
["account",3]
["values",[3]]
"#;

// A session at two documents, and its replies.
struct Row {
    name: &'static str,
    input: &'static str,
    output: &'static str,
}

static ROWS: [Row; 2] = [
    Row {
        name: "shopping",
        input: SHOPPING,
        output: SHOPPED,
    },
    Row {
        name: "buffer_release",
        input: RELEASING,
        output: RELEASED,
    },
];

/// Each of these rows has its replies.
pub fn rows_over_two_documents<R: Threads + Wait + Abort + Sync>(
    rt: &R,
    alloc: Global,
) -> Result<(), Refusal> {
    for row in &ROWS {
        let replies = replies_alone(rt, alloc, &["d", "b"], row.input.as_bytes())?;
        replies_are(rt, &row.name, replies.as_slice(), row.output.as_bytes());
    }
    Ok(())
}

/// What is held stays held while a document has a seat that no session opened.
pub fn held_beside_a_free_seat<R: Threads + Wait + Abort + Sync>(
    rt: &R,
    alloc: Global,
) -> Result<(), Refusal> {
    let lines = [RELEASING.as_bytes(), b"[\"quit\"]\n"];
    let ran = run_two(rt, alloc, &OpenGate, lines, NO_FAULT)?;
    let case = "held_beside_a_free_seat";
    replies_are(rt, &case, ran.first.as_slice(), RELEASED.as_bytes());
    replies_are(rt, &case, ran.second.as_slice(), b"[\"bye\"]\n");
    Ok(())
}

// A device that looks, at each call, whether a document is locked.
#[derive(Drop)]
struct Looking<'a, M: Marker, D> {
    shared: &'a SharedDocuments<M>,
    device: D,
    found: bool,
}

// Whether the lock of a document is taken.
fn is_locked<M: Marker>(shared: &SharedDocuments<M>) -> bool {
    for place in 0..shared.shelf.len() {
        if shared.shelf.doc(place).try_lock().is_none() {
            return true;
        }
    }
    false
}

impl<M: Marker, D: Source> Source for Looking<'_, M, D> {
    ghost remaining = { λ s. D.remaining s.device };

    ghost has_failed = { λ s. D.has_failed s.device };

    ghost reads = { λ s. D.reads s.device };

    fn read_some(&mut self, buf: &mut [u8]) -> Result<usize, DeviceFault> {
        if is_locked(self.shared) {
            self.found = true;
        }
        self.device.read_some(buf)
    }

    fn failed(&self) -> bool {
        Source::failed(&self.device)
    }
}

impl<M: Marker, D: Sink> Settles for Looking<'_, M, D> {
    ghost pace = { λ s. s.shared.now.progress.pace };
}

impl<M: Marker, D: Sink> Sink for Looking<'_, M, D> {
    ghost contents = { λ s. D.contents s.device };

    ghost has_failed = { λ s. D.has_failed s.device };

    ghost unflushed = { λ s. D.unflushed s.device };

    ghost covers = { λ s. D.covers s.device };

    ghost covers_none = { λ s. D.covers_none s.device };

    fn owe(&mut self, document: usize, count: u64) {
        self.device.owe(document, count);
    }

    fn write_some(&mut self, bytes: &[u8]) -> Result<usize, DeviceFault> {
        if is_locked(self.shared) {
            self.found = true;
        }
        self.device.write_some(bytes)
    }

    fn flush(&mut self) -> Result<(), DeviceFault> {
        self.device.flush()
    }

    fn failed(&self) -> bool {
        Sink::failed(&self.device)
    }
}

// Why the session of the shopping list ended, and whether a lock was taken while a line was read,
// or a reply written.
fn looks<M: Marker, R: Wait>(
    rt: &R,
    alloc: Global,
    blank: Blank,
) -> Result<(Ending, bool, bool), Refusal>
    requires blank { blank ≡ M.name }
    requires begun { BeginEmpty M.origin }
{
    let shared = shared_documents::<M>(alloc, blank, &["d", "b"], 1)?;
    let mut source = Looking {
        shared: &shared,
        device: Reader::new(SHOPPING.as_bytes()),
        found: false,
    };
    let mut sink = Looking {
        shared: &shared,
        device: Writer::new(Vec::new(alloc)),
        found: false,
    };
    let served = serve_session(rt, alloc, &shared, &OpenGate, 1, &mut source, &mut sink)?;
    Ok((served.why, source.found, sink.found))
}

/// No lock is taken while the shopping list is read, or a reply to it is written.
pub fn no_lock_while_reading_or_writing<R: Wait + Abort>(
    rt: &R,
    alloc: Global,
) -> Result<(), Refusal> {
    let found = looks::<Brand, R>(rt, alloc, Blank::new())?;
    let is = found == (Ending::End, false, false);
    holds(rt, is, "no_lock_while_reading_or_writing");
    Ok(())
}
