//! A stop at each call of the disks: afterwards all that was answered is there, and of a batch all
//! or nothing.
use super::super::disks::{Stopping, crash, new_files, without_log};
use super::samples;
use super::steps::{Step, StepAnswer};
use super::walks::walked_over;
use json_scalar::Refusal;
use log_copy::Fault;
use op_core::Operation;
use sqlite_disk::Files;
use std::alloc::Global;
use std::process::Abort;
use std::test::Fail;

// A stop is a fault of the store, and never a refusal.
fn is_stop(other: Option<(usize, StepAnswer)>) -> bool {
    matches!(
        other,
        None | Some((_, StepAnswer::NoSql | StepAnswer::Fault(Fault::Store)))
    )
}

// Whether these steps pass when the machine has come back, at one of so many tries, with the
// database file alone if it is said so.
fn passes(
    alloc: Global,
    stopped: Files<Stopping>,
    log: &[Operation],
    due: &[(Step<'_>, StepAnswer)],
    tries: u32,
    is_alone: bool,
) -> bool {
    let mut files = stopped;
    for _ in 0..tries {
        crash(&mut files);
        if is_alone {
            files = without_log(alloc, files);
        }
        let (left, other) = walked_over(alloc, files, log, due);
        if other.is_none() {
            return true;
        }
        files = left;
    }
    false
}

// How many steps of the case were taken before disks stopped that stop after so many calls, if the
// steps that then have to pass do. These are the first list where the first step was stopped, and
// the last list where none was.
fn steps_taken(
    alloc: Global,
    log: &[Operation],
    case: &StopCase<'_>,
    (log_calls, db_calls): (u64, u64),
    tries: u32,
) -> Option<usize> {
    let (files, other) = walked_over(
        alloc,
        new_files(alloc, log_calls, db_calls),
        log,
        case.steps,
    );
    if !is_stop(other) {
        return None;
    }
    let taken = match other {
        Some((at, _)) => at,
        None => case.steps.len(),
    };
    let due = case.after.get(taken)?;
    if due.is_empty() || passes(alloc, files, log, due, tries, case.is_alone) {
        Some(taken)
    } else {
        None
    }
}

// After how many calls of one of the disks nothing is stopped, if what has to pass after each stop
// does.
fn calls_in_all(
    alloc: Global,
    log: &[Operation],
    case: &StopCase<'_>,
    is_log: bool,
) -> Option<u64> {
    for calls in 1u64..200 {
        let both = if is_log {
            (calls, u64::MAX)
        } else {
            (u64::MAX, calls)
        };
        if steps_taken(alloc, log, case, both, 1)? == case.steps.len() {
            return Some(calls);
        }
    }
    None
}

const BATCHES: [(Step<'static>, StepAnswer); 5] = [
    (Step::Open, StepAnswer::Done),
    (Step::Up, StepAnswer::Number(1)),
    (Step::Add("d", 0, 0, 5), StepAnswer::Done),
    (Step::Add("d", 5, 5, 7), StepAnswer::Done),
    (Step::Add("d", 7, 7, 9), StepAnswer::Done),
];

const AS_NEW: [(Step<'static>, StepAnswer); 3] = [
    (Step::Open, StepAnswer::Done),
    (Step::Restore("d", 0, 0), StepAnswer::Done),
    (Step::UpFrom(0), StepAnswer::Done),
];

const AFTER_BATCHES: [&[(Step<'static>, StepAnswer)]; 6] = [
    &AS_NEW,
    &AS_NEW,
    &[
        (Step::Open, StepAnswer::Done),
        (Step::Restore("d", 0, 5), StepAnswer::Done),
        (Step::UpFrom(1), StepAnswer::Done),
    ],
    &[
        (Step::Open, StepAnswer::Done),
        (Step::Restore("d", 5, 7), StepAnswer::Done),
        (Step::UpFrom(1), StepAnswer::Done),
    ],
    &[
        (Step::Open, StepAnswer::Done),
        (Step::Restore("d", 7, 9), StepAnswer::Done),
        (Step::UpFrom(1), StepAnswer::Done),
    ],
    &[
        (Step::Open, StepAnswer::Done),
        (Step::Restore("d", 9, 9), StepAnswer::Done),
        (Step::UpFrom(1), StepAnswer::Done),
    ],
];

fn log_again(alloc: Global) -> Result<Vec<Operation>, Refusal> {
    match samples::operations(alloc, &samples::CONCURRENT_LIST_EDITS) {
        Ok(log) => Ok(log),
        Err(_) => samples::operations(alloc, &samples::CONCURRENT_LIST_EDITS),
    }
}

// `tests/each-allocation served_tests tests::copies::stops::batches_out_of_memory` runs it
// once for each of its allocations, with that one refused: in the steps, or in what has to pass
// after them, which then passes at the second try.
#[test]
fn batches_out_of_memory(rt: HostRuntime) -> Result<(), Fail> {
    let log = log_again(rt.alloc())?;
    let both = (u64::MAX, u64::MAX);
    let taken = steps_taken(rt.alloc(), log.as_slice(), &STOPS[0], both, 2);
    assert!(rt; taken.is_some());
    Ok(())
}

// The stored log of `restart_from_copy` before its second start, in the old
// format: one entry and the epoch 1.
const MIGRATE: [(Step<'static>, StepAnswer); 2] = [
    (
        Step::Run(
            r#"BEGIN;
            CREATE TABLE meta (name TEXT NOT NULL PRIMARY KEY, value INTEGER NOT NULL) STRICT;
            CREATE TABLE entry (doc TEXT NOT NULL, place INTEGER NOT NULL, text TEXT NOT NULL, PRIMARY KEY (doc, place)) STRICT;
            INSERT INTO meta (name, value) VALUES ('format', 1), ('epoch', 1);
            INSERT INTO entry (doc, place, text) VALUES ('d', 1, '["op",[1,"srv-1"],[],[[],0],["assign",{}]]');
            COMMIT"#,
        ),
        StepAnswer::Done,
    ),
    (Step::Open, StepAnswer::Done),
];

const ROWS: &str = "SELECT count(*) FROM entry";

const SAME_ROWS: &str =
    r#"SELECT count(*) FROM entry WHERE doc = 'd' AND place = 1 AND text = '["op",[1,"srv-1"],[],[[],0],["assign",{}]]'"#;

const FORMATS: &str = "SELECT count(*) FROM meta WHERE name = 'format' AND value IN (1, 2)";

const FORMAT: &str = "SELECT value FROM meta WHERE name = 'format'";

// The rows stay byte for byte, in the old format or the new one, and in the new one
// where the stored log was opened.
const AFTER_MIGRATION: [&[(Step<'static>, StepAnswer)]; 3] = [
    &[],
    &[
        (Step::Ask(FORMATS), StepAnswer::Number(1)),
        (Step::Ask(ROWS), StepAnswer::Number(1)),
        (Step::Ask(SAME_ROWS), StepAnswer::Number(1)),
        (Step::Open, StepAnswer::Done),
        (Step::Restore("d", 1, 1), StepAnswer::Done),
        (Step::UpFrom(1), StepAnswer::Done),
        (Step::Ask(FORMAT), StepAnswer::Number(2)),
        (Step::Ask(SAME_ROWS), StepAnswer::Number(1)),
    ],
    &[
        (Step::Ask(FORMAT), StepAnswer::Number(2)),
        (Step::Ask(ROWS), StepAnswer::Number(1)),
        (Step::Ask(SAME_ROWS), StepAnswer::Number(1)),
        (Step::Open, StepAnswer::Done),
        (Step::Restore("d", 1, 1), StepAnswer::Done),
        (Step::UpFrom(1), StepAnswer::Done),
    ],
];

// Beside a further table.
const BESIDE: [(Step<'static>, StepAnswer); 5] = [
    (
        Step::Run(
            "BEGIN; CREATE TABLE note (size INTEGER NOT NULL) STRICT; INSERT INTO note (size) VALUES (41); COMMIT",
        ),
        StepAnswer::Done,
    ),
    (Step::Open, StepAnswer::Done),
    (Step::Up, StepAnswer::Number(1)),
    (Step::Add("d", 0, 0, 5), StepAnswer::Done),
    (Step::Add("d", 5, 5, 9), StepAnswer::Done),
];

const NOTE: &str = "SELECT size FROM note";

const AFTER_BESIDE: [&[(Step<'static>, StepAnswer)]; 6] = [
    &[(Step::Open, StepAnswer::Done)],
    &[
        (Step::Ask(NOTE), StepAnswer::Number(41)),
        (Step::Open, StepAnswer::Done),
        (Step::Restore("d", 0, 0), StepAnswer::Done),
    ],
    &[
        (Step::Ask(NOTE), StepAnswer::Number(41)),
        (Step::Open, StepAnswer::Done),
        (Step::Restore("d", 0, 0), StepAnswer::Done),
    ],
    &[
        (Step::Ask(NOTE), StepAnswer::Number(41)),
        (Step::Open, StepAnswer::Done),
        (Step::Restore("d", 0, 5), StepAnswer::Done),
        (Step::UpFrom(1), StepAnswer::Done),
    ],
    &[
        (Step::Ask(NOTE), StepAnswer::Number(41)),
        (Step::Open, StepAnswer::Done),
        (Step::Restore("d", 5, 9), StepAnswer::Done),
        (Step::UpFrom(1), StepAnswer::Done),
    ],
    &[
        (Step::Ask(NOTE), StepAnswer::Number(41)),
        (Step::Open, StepAnswer::Done),
        (Step::Restore("d", 9, 9), StepAnswer::Done),
        (Step::UpFrom(1), StepAnswer::Done),
    ],
];

// As a server and a check take them: the log is copied into the database file once the epoch is
// raised, and at the end.
const FOLDS: [(Step<'static>, StepAnswer); 7] = [
    (Step::Open, StepAnswer::Done),
    (Step::Up, StepAnswer::Number(1)),
    (Step::Fold, StepAnswer::Done),
    (Step::Add("d", 0, 0, 5), StepAnswer::Done),
    (Step::Up, StepAnswer::Number(2)),
    (Step::Fold, StepAnswer::Done),
    (Step::Close, StepAnswer::Done),
];

const UP_FROM_1: [(Step<'static>, StepAnswer); 3] = [
    (Step::Open, StepAnswer::Done),
    (Step::Restore("d", 0, 0), StepAnswer::Done),
    (Step::UpFrom(1), StepAnswer::Done),
];

const ROWS_FROM_2: [(Step<'static>, StepAnswer); 3] = [
    (Step::Open, StepAnswer::Done),
    (Step::Restore("d", 5, 5), StepAnswer::Done),
    (Step::UpFrom(2), StepAnswer::Done),
];

// While the log is copied no row is lost, and the epoch does not sink.
const AFTER_FOLDS: [&[(Step<'static>, StepAnswer)]; 8] = [
    &AS_NEW,
    &AS_NEW,
    &UP_FROM_1,
    &[
        (Step::Open, StepAnswer::Done),
        (Step::Restore("d", 0, 5), StepAnswer::Done),
        (Step::UpFrom(1), StepAnswer::Done),
    ],
    &[
        (Step::Open, StepAnswer::Done),
        (Step::Restore("d", 5, 5), StepAnswer::Done),
        (Step::UpFrom(1), StepAnswer::Done),
    ],
    &ROWS_FROM_2,
    &ROWS_FROM_2,
    &ROWS_FROM_2,
];

// Once it is copied the database file alone has the epoch, and the rows of that time. While it is
// copied that file is of two ages, of which nothing is said here.
const ALONE_AFTER_FOLDS: [&[(Step<'static>, StepAnswer)]; 8] = [
    &[],
    &[],
    &[],
    &UP_FROM_1,
    &UP_FROM_1,
    &[],
    &ROWS_FROM_2,
    &ROWS_FROM_2,
];

// Steps that are stopped at each call of a disk.
struct StopCase<'a> {
    name: &'a str,
    steps: &'a [(Step<'a>, StepAnswer)],
    after: &'a [&'a [(Step<'a>, StepAnswer)]],
    // The log is lost when the machine comes back, and the database file is there alone.
    is_alone: bool,
    // More calls than so many are made of the log, and than so many of the database.
    least: (u64, u64),
}

static STOPS: [StopCase<'static>; 2] = [
    StopCase {
        name: "batches",
        steps: &BATCHES,
        after: &AFTER_BATCHES,
        is_alone: false,
        least: (20, 2),
    },
    StopCase {
        name: "beside_a_table",
        steps: &BESIDE,
        after: &AFTER_BESIDE,
        is_alone: false,
        least: (20, 2),
    },
];

// The format is migrated where the stored log is opened.
static MIGRATION: StopCase<'static> = StopCase {
    name: "while_migrated",
    steps: &MIGRATE,
    after: &AFTER_MIGRATION,
    is_alone: false,
    least: (5, 1),
};

// Those whose log is copied into the database file.
static FOLD_STOPS: [StopCase<'static>; 2] = [
    StopCase {
        name: "while_folded",
        steps: &FOLDS,
        after: &AFTER_FOLDS,
        is_alone: false,
        least: (20, 6),
    },
    StopCase {
        name: "with_the_file_alone",
        steps: &FOLDS,
        after: &ALONE_AFTER_FOLDS,
        is_alone: true,
        least: (20, 6),
    },
];

// So many calls are more than that.
fn are_more<R: Abort>(rt: &R, case: &str, disk: &str, calls: Option<u64>, least: u64) {
    assert!(rt; calls > Some(least), "{case}, {disk}: {calls:?}");
}

fn stopped<R: Abort>(rt: &R, alloc: Global, log: &[Operation], case: &StopCase<'_>) {
    let log_calls = calls_in_all(alloc, log, case, true);
    are_more(rt, case.name, "log", log_calls, case.least.0);
    let db_calls = calls_in_all(alloc, log, case, false);
    are_more(rt, case.name, "database", db_calls, case.least.1);
}

#[test]
fn stops(rt: HostRuntime) -> Result<(), Fail> {
    let log = samples::operations(rt.alloc(), &samples::CONCURRENT_LIST_EDITS)?;
    for case in &STOPS {
        stopped(&rt, rt.alloc(), log.as_slice(), case);
    }
    Ok(())
}

#[test]
fn migration(rt: HostRuntime) -> Result<(), Fail> {
    let log = samples::operations(rt.alloc(), &samples::FIRST_RUN)?;
    stopped(&rt, rt.alloc(), log.as_slice(), &MIGRATION);
    Ok(())
}

#[test]
fn folds(rt: HostRuntime) -> Result<(), Fail> {
    let log = samples::operations(rt.alloc(), &samples::CONCURRENT_LIST_EDITS)?;
    for case in &FOLD_STOPS {
        stopped(&rt, rt.alloc(), log.as_slice(), case);
    }
    Ok(())
}
