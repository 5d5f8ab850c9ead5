//! Why a server ends with status 1, in words: one cause each.
use super::checks::holds;
use commands::run_failure;
use served_log::{Failure, Step};
use std::alloc::{AllocError, Global};
use std::fmt::Display;
use std::io;
use std::process::Abort;
use stored_log::StoredFault;

// Whether this is shown as the text.
fn is_shown<F: Display>(alloc: Global, failure: &F, text: &str) -> Result<bool, AllocError> {
    let shown = format!(in alloc; "{failure}")?;
    Ok(shown.as_str() == text)
}

// Stops unless this is shown as the text.
fn shows<R: Abort, F: Display>(rt: &R, alloc: Global, failure: &F, text: &str) {
    holds(rt, matches!(is_shown(alloc, failure, text), Ok(true)), text);
}

#[test]
fn steps(rt: HostRuntime) {
    for (step, text) in [
        (Step::Epoch, "out of memory while a new epoch was started"),
        (
            Step::Restore,
            "out of memory while the documents were restored",
        ),
        (Step::Begin, "out of memory before the first session"),
        (Step::Totals, "out of memory while the totals were added up"),
    ] {
        shows(&rt, rt.alloc(), &Failure::Memory(step), text);
    }
}

#[test]
fn failures_of_the_file(rt: HostRuntime) {
    let full = StoredFault::DiskFull;
    for (failure, text) in [
        (
            Failure::Store(Step::Epoch, full),
            "the file failed while a new epoch was started: the disk is full",
        ),
        (
            Failure::Store(Step::Fold, full),
            "the file failed while its log was folded in: the disk is full",
        ),
        (
            Failure::Stopped(full),
            "copying stopped while sessions ran: the disk is full",
        ),
        (
            Failure::Stopped(StoredFault::NoMemory),
            "copying stopped while sessions ran: out of memory",
        ),
        (
            Failure::Recovered(full),
            "the file failed while sessions ran: the disk is full; all is in it now",
        ),
        (
            Failure::Stopped(StoredFault::Moved),
            "copying stopped while sessions ran: the file was removed or replaced, or has a second name",
        ),
        (
            Failure::Stopped(StoredFault::Changed),
            "copying stopped while sessions ran: the file has something else than what was stored before",
        ),
        (
            Failure::Epochs,
            "all 9999999 epochs of the file are given out",
        ),
    ] {
        shows(&rt, rt.alloc(), &failure, text);
    }
}

#[test]
fn failures_of_the_output(rt: HostRuntime) {
    let broken: io::Error = io::ErrorKind::BrokenPipe.into();
    shows(
        &rt,
        rt.alloc(),
        &Failure::Output(broken),
        "standard output failed: broken pipe",
    );
    let memory: io::Error = io::ErrorKind::OutOfMemory.into();
    shows(
        &rt,
        rt.alloc(),
        &Failure::Output(memory),
        "out of memory while the totals were written",
    );
}

#[test]
fn failures_of_a_run(rt: HostRuntime) {
    for (input, output, text) in [
        (true, false, "jcrdt: standard input failed"),
        (false, true, "jcrdt: standard output failed"),
        (
            false,
            false,
            "jcrdt: out of memory before the first line was read",
        ),
    ] {
        shows(&rt, rt.alloc(), &run_failure(input, output), text);
    }
}
