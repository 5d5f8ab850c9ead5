//! Runs over bytes in memory: the worked rows, the order of causes, pieces of 1, 7 and 4,096 bytes,
//! faults, and names.
ghost use Rattle.std.specs.Prelude.{◌≡◌, ◌<◌};
ghost use Rattle.share_ledger.specs.Begun.{BeginEmpty};

mod causes;
mod gathering;
mod limits;
mod names;
mod pieces;
mod rows;
mod waiting;

use crate::checks::{holds, replies_are};
use crate::servers::samples::replies_alone;
use json_scalar::Refusal;
use line_feed::doubles::{FailAfter, InPieces};
use line_feed::{Reader, Writer};
use run_core::{NewDocuments, run_over};
use share_ledger::{Blank, Marker};
use std::alloc::Global;
use std::marker::Brand;
use std::process::Abort;
use std::sync::Wait;
use std::thread::Threads;

// A run over bytes in memory.
#[derive(Clone, Copy)]
struct Run<'a> {
    server: &'a str,
    documents: &'a [&'a str],
    input: &'a [u8],
    /// Of how many bytes its devices take a piece at most.
    piece: usize,
    /// The source fails once so many bytes were read.
    read_after: usize,
    /// The sink fails once so many bytes were written.
    write_after: usize,
}

// A run of the document `d` by the server `srv`, whose devices never fail.
fn run_of(input: &[u8]) -> Run<'_>
    ensures { 0 < result.piece }
{
    Run {
        server: "srv",
        documents: &["d"],
        input,
        piece: 4096,
        read_after: usize::MAX,
        write_after: usize::MAX,
    }
}

// The status of a run, and what it wrote.
fn written_over<M: Marker>(alloc: Global, blank: Blank, run: Run<'_>) -> (u8, Vec<u8>)
    requires blank { blank ≡ M.name }
    requires begun { BeginEmpty M.origin }
    requires some { 0 < run.piece }
{
    let mut out = Vec::new(alloc);
    let mut source = FailAfter::new(
        InPieces::new(Reader::new(run.input), run.piece),
        run.read_after,
    );
    let mut sink = FailAfter::new(
        InPieces::new(Writer::new(&mut out), run.piece),
        run.write_after,
    );
    let mut made = NewDocuments::<M>::new(blank);
    let status = run_over(
        alloc,
        &mut made,
        run.server,
        run.documents,
        &mut source,
        &mut sink,
    );
    (status, out)
}

// The run of this name has this status, and writes this.
fn writes<R: Abort>(rt: &R, alloc: Global, name: &str, run: Run<'_>, status: u8, output: &[u8])
    requires { 0 < run.piece }
{
    let (ended, out) = written_over::<Brand>(alloc, Blank::new(), run);
    replies_are(
        rt,
        &format_args!(
            "{name}, {} bytes in pieces of {}, failing once {} are read or {} written",
            run.input.len(),
            run.piece,
            run.read_after,
            run.write_after
        ),
        out.as_slice(),
        output,
    );
    holds(rt, ended == status, name);
}

// A session at the document `d`, and its replies.
struct Row {
    name: &'static str,
    input: &'static str,
    output: &'static str,
}

// A run of one document gives this output, and so does the one session of a server.
fn gives<R: Abort + Threads + Wait + Sync>(
    rt: &R,
    alloc: Global,
    name: &'static str,
    input: &[u8],
    output: &[u8],
) -> Result<(), Refusal> {
    writes(rt, alloc, name, run_of(input), 0, output);
    let replies = replies_alone(rt, alloc, &["d"], input)?;
    replies_are(
        rt,
        &format_args!("{name}, over a shelf"),
        replies.as_slice(),
        output,
    );
    Ok(())
}

// Each of these rows gives its output, by a run and by a server.
fn give_all<R: Abort + Threads + Wait + Sync>(rt: &R, alloc: Global, rows: &[Row]) {
    for row in rows {
        let name = row.name;
        let given = gives(rt, alloc, name, row.input.as_bytes(), row.output.as_bytes());
        holds(rt, given.is_ok(), name);
    }
}
