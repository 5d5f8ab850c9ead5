//! What is reported of a stored log that was opened, and of one that was not.
use super::super::disks::{connected, new_files};
use line_feed::Writer;
use line_feed::doubles::FailAfter;
use log_copy::{Fault, Foldable, LogCopy};
use sqlite::{Alter, Connection};
use sqlite_disk::{Disk, Files};
use std::alloc::{AllocError, Global};
use stored_log::{CheckFailure, ListLog, StoredFault, check_opened};

// What a check answers.
type Answer = Result<(), CheckFailure>;

// What is answered, and what a sink has taken that fails after so many bytes.
fn reported<S: Foldable + Drop>(
    alloc: Global,
    opened: Result<LogCopy<S>, Fault>,
    after: usize,
) -> (Answer, Vec<u8>) {
    let mut out = Vec::<u8>::new(alloc);
    let mut sink = FailAfter::new(Writer::new(&mut out), after);
    let answer = check_opened(alloc, opened, &mut sink);
    (answer, out)
}

// The stored log over a connection, after these statements.
fn opened<S: Alter + Drop>(
    alloc: Global,
    mut conn: Connection<S>,
    sql: &str,
) -> Result<Result<LogCopy<S>, Fault>, AllocError> {
    if conn.execute_batch(sql).is_err() {
        return Err(AllocError);
    }
    match LogCopy::adopt(alloc, conn) {
        Ok(copy) => Ok(Ok(copy)),
        Err((fault, _, _)) => Ok(Err(fault)),
    }
}

// The reports of a stored log over a connection.
fn reported_over<S: Foldable + Drop>(
    alloc: Global,
    conn: Connection<S>,
    sql: &str,
    after: usize,
) -> Result<(Answer, Vec<u8>), AllocError> {
    let found = opened(alloc, conn, sql)?;
    Ok(reported(alloc, found, after))
}

// Those of one in these files. This names a store in files, which is dear to prove.
fn reported_in<D: Disk + Drop>(
    alloc: Global,
    files: Files<D>,
    sql: &str,
    after: usize,
) -> Result<(Answer, Vec<u8>), AllocError> {
    match connected(alloc, files) {
        Ok(conn) => reported_over(alloc, conn, sql, after),
        Err(_) => Err(AllocError),
    }
}

// Those of one in new files, whose database file stops after so many calls.
fn reported_of_new(
    alloc: Global,
    calls: u64,
    sql: &str,
    after: usize,
) -> Result<(Answer, Vec<u8>), AllocError> {
    reported_in(alloc, new_files(alloc, u64::MAX, calls), sql, after)
}

// Whether this is answered and this text reported of a stored log in memory after these statements,
// by a sink that fails after so many bytes.
fn is_answered(
    alloc: Global,
    sql: &str,
    after: usize,
    due: Answer,
    text: &[u8],
) -> Result<bool, AllocError> {
    let (answer, out) = reported_of_new(alloc, u64::MAX, sql, after)?;
    Ok(answer == due && *out.as_slice() == *text)
}

const OTHER_TABLE: &str = "CREATE TABLE meta (name TEXT)";

// What each is, the statements, the bytes after which the sink fails, and what is reported.
static REPORTS: [(&str, &str, usize, Answer, &[u8]); 4] = [
    ("an_empty_copy", "", usize::MAX, Ok(()), b"[\"epoch\",0]\n"),
    (
        "a_refused_copy",
        OTHER_TABLE,
        usize::MAX,
        Err(CheckFailure::Unopened),
        b"[\"no\",26,\"copy-refused\"]\n",
    ),
    (
        "a_sink_that_fails",
        "",
        5,
        Err(CheckFailure::Output),
        b"[\"epo",
    ),
    (
        "a_sink_that_fails_within_the_refusal",
        OTHER_TABLE,
        6,
        Err(CheckFailure::Unopened),
        b"[\"no\",",
    ),
];

#[test]
fn reports(rt: HostRuntime) {
    for (case, sql, after, due, text) in &REPORTS {
        let is = is_answered(rt.alloc(), sql, *after, *due, text);
        assert!(rt; matches!(is, Ok(true)), "{case}");
    }
}

// What is answered of a stored log whose database file stops after so many calls,
// and how many bytes are reported.
fn reported_of_a_stop(alloc: Global, calls: u64) -> Option<(Answer, usize)> {
    match reported_of_new(alloc, calls, "", usize::MAX) {
        Ok((answer, out)) => Some((answer, out.len())),
        Err(_) => None,
    }
}

// A database file that stops while it is closed is reported as a fault, and nothing else is.
#[test]
fn a_fault_of_closing(rt: HostRuntime) {
    let mut faults = 0u64;
    for calls in 0u64..40 {
        match reported_of_a_stop(rt.alloc(), calls) {
            Some((Err(CheckFailure::Unclosed(StoredFault::Io)), 0)) => {
                faults = faults.wrapping_add(1);
            }
            Some((Ok(()), reported)) => assert!(rt;
                reported == 12 && faults > 2,
                "{calls}: {faults}"
            ),
            Some((Err(CheckFailure::Unopened), _)) | None => assert!(rt; faults == 0, "{calls}"),
            other => assert!(rt; false, "{calls}: {other:?}"),
        }
    }
}

// Whether nothing is reported where a stored log could not be opened, for another cause than a
// refusal.
fn is_silent(alloc: Global) -> bool {
    let none: Result<ListLog, Fault> = Err(Fault::Store);
    let mut out = Vec::<u8>::new(alloc);
    let answer = check_opened(alloc, none, &mut Writer::new(&mut out));
    answer == Err(CheckFailure::Unopened) && out.is_empty()
}

#[test]
fn another_fault(rt: HostRuntime) {
    assert!(rt; is_silent(rt.alloc()));
}
