//! Steps over one database. Each call of the stored log is in a function of its own that promises
//! nothing, so that the proof of a list of steps carries none of its clauses.
use super::super::disks::new_files;
use super::restored::{is_edited_after, is_restored};
use super::samples;
use super::walks::walked_over;
use json_scalar::Refusal;
use line_feed::Writer;
use log_copy::{Fault, Foldable, LogCopy};
use op_core::Operation;
use sqlite::{Alter, Connection};
use std::alloc::Global;
use std::process::Abort;
use stored_log::check_over;

/// What is done with the database.
#[derive(Clone, Copy)]
pub enum Step<'a> {
    /// The stored log takes the tables over, once more if it has them.
    Open,
    /// A new epoch is started.
    Up,
    Epoch,
    /// The entries of the log between two places are added to the document, behind so many rows.
    Add(&'a str, usize, usize, usize),
    Load(&'a str),
    Docs,
    /// What a check of the stored log prints.
    Check(&'a str),
    /// A replica is restored from the document, and its next change is this operation.
    Edit(&'a str, &'a str),
    /// The document has as many entries as one of these numbers says, the first ones of the log,
    /// and a replica is restored from them.
    Restore(&'a str, usize, usize),
    /// A new epoch is started, greater than this.
    UpFrom(u64),
    /// The log of the commits is copied into the database file. A stored log goes on, and tables
    /// that are none are closed.
    Fold,
    /// The log of the commits is copied into the database file, and the stored log is closed.
    Close,
    /// The stored log gives the tables back, and these statements run over them.
    Run(&'a str),
    /// The stored log gives the tables back, and this query finds a number in them.
    Ask(&'a str),
}

/// The answer to a step.
#[derive(Clone, Copy, Debug, PartialEq, Eq)]
pub enum StepAnswer {
    Done,
    Number(u64),
    /// The document has so many entries, the first ones of the log.
    Rows(usize),
    /// There are other entries, or other words are printed.
    Other,
    Fault(Fault),
    /// The statement was refused.
    NoSql,
    /// There is no stored log that could be asked.
    NoCopy,
}

/// What the entries that are added are taken from.
#[derive(Clone, Copy)]
pub enum Log<'a> {
    /// The operations of these texts.
    Texts(&'a [&'a str]),
    /// Those of one replica with the counters up to the first number, but for the second one.
    Numbered(u64, u64),
}

/// Steps over one database, each with its expected answer.
#[derive(Clone, Copy)]
pub struct Case<'a> {
    pub name: &'a str,
    pub log: Log<'a>,
    pub steps: &'a [(Step<'a>, StepAnswer)],
}

pub const REFUSED: StepAnswer = StepAnswer::Fault(Fault::Refused);

// A stored log, a connection that is none, or a store that was closed.
#[derive(Drop)]
enum Held<S: Alter> {
    Copy(LogCopy<S>),
    Tables(Connection<S>),
    Closed(S),
}

// ---- the calls of the stored log

fn number_answer(answer: Result<u64, Fault>) -> StepAnswer {
    match answer {
        Ok(number) => StepAnswer::Number(number),
        Err(fault) => StepAnswer::Fault(fault),
    }
}

fn up<S: Alter>(copy: &mut LogCopy<S>) -> StepAnswer {
    number_answer(copy.epoch_up())
}

fn epoch<S: Alter>(copy: &LogCopy<S>) -> StepAnswer {
    number_answer(copy.epoch())
}

fn add<S: Alter>(
    copy: &mut LogCopy<S>,
    doc: &str,
    from: usize,
    entries: &[Operation],
) -> StepAnswer {
    match copy.add_batch(doc, from, entries) {
        Ok(()) => StepAnswer::Done,
        Err(fault) => StepAnswer::Fault(fault),
    }
}

fn check<S: Foldable + Drop>(alloc: Global, copy: &LogCopy<S>, due: &str) -> StepAnswer {
    let mut out = Vec::<u8>::new(alloc);
    let status = check_over(alloc, copy, &mut Writer::new(&mut out));
    done_if(status == 0 && out.as_slice() == due.as_bytes())
}

fn edit<S: Alter>(alloc: Global, copy: &LogCopy<S>, doc: &str, due: &str) -> StepAnswer {
    match copy.load(alloc, doc) {
        Ok(loaded) => done_if(is_edited_after(alloc, loaded.as_slice(), due)),
        Err(fault) => StepAnswer::Fault(fault),
    }
}

fn done_if(is_so: bool) -> StepAnswer {
    if is_so {
        StepAnswer::Done
    } else {
        StepAnswer::Other
    }
}

fn restore<S: Alter>(
    alloc: Global,
    copy: &LogCopy<S>,
    doc: &str,
    log: &[Operation],
    due: (usize, usize),
) -> StepAnswer {
    match copy.load(alloc, doc) {
        Ok(loaded) => done_if(
            is_due(loaded.as_slice(), log, due) && is_restored(alloc, loaded.as_slice()),
        ),
        Err(fault) => StepAnswer::Fault(fault),
    }
}

fn is_due(loaded: &[Operation], log: &[Operation], due: (usize, usize)) -> bool {
    (loaded.len() == due.0 || loaded.len() == due.1)
        && rows_answer(loaded, log) == StepAnswer::Rows(loaded.len())
}

fn up_from<S: Alter>(copy: &mut LogCopy<S>, last: u64) -> StepAnswer {
    match copy.epoch_up() {
        Ok(number) => done_if(number > last),
        Err(fault) => StepAnswer::Fault(fault),
    }
}

fn docs<S: Alter>(copy: &LogCopy<S>) -> StepAnswer {
    match copy.docs() {
        Ok(docs) => StepAnswer::Rows(docs.len()),
        Err(fault) => StepAnswer::Fault(fault),
    }
}

fn load<S: Alter>(alloc: Global, copy: &LogCopy<S>, doc: &str, log: &[Operation]) -> StepAnswer {
    match copy.load(alloc, doc) {
        Ok(loaded) => rows_answer(loaded.as_slice(), log),
        Err(fault) => StepAnswer::Fault(fault),
    }
}

fn rows_answer(loaded: &[Operation], log: &[Operation]) -> StepAnswer {
    if loaded.len() <= log.len() && loaded == &log[..loaded.len()] {
        StepAnswer::Rows(loaded.len())
    } else {
        StepAnswer::Other
    }
}

fn adopt<S: Alter + Drop>(alloc: Global, conn: Connection<S>) -> (Held<S>, StepAnswer) {
    match LogCopy::adopt(alloc, conn) {
        Ok(copy) => (Held::Copy(copy), StepAnswer::Done),
        Err((fault, conn, _)) => (Held::Tables(conn), StepAnswer::Fault(fault)),
    }
}

fn fold<S: Foldable + Drop>(copy: LogCopy<S>) -> (Held<S>, StepAnswer) {
    match copy.fold() {
        Ok(copy) => (Held::Copy(copy), StepAnswer::Done),
        Err((_, store)) => (Held::Closed(store), StepAnswer::Fault(Fault::Store)),
    }
}

fn close<S: Foldable + Drop>(copy: LogCopy<S>) -> (Held<S>, StepAnswer) {
    match copy.close() {
        Ok(store) => (Held::Closed(store), StepAnswer::Done),
        Err((_, store)) => (Held::Closed(store), StepAnswer::Fault(Fault::Store)),
    }
}

// ---- the calls of the connection

fn run<S: Alter>(conn: &mut Connection<S>, sql: &str) -> StepAnswer {
    match conn.execute_batch(sql) {
        Ok(()) => StepAnswer::Done,
        Err(_) => StepAnswer::NoSql,
    }
}

fn ask<S: Alter>(conn: &mut Connection<S>, sql: &str) -> StepAnswer {
    match conn.query_row(sql, &[]) {
        Ok(row) => {
            let number: u64 = row.get(0).unwrap_or(u64::MAX);
            StepAnswer::Number(number)
        }
        Err(_) => StepAnswer::NoSql,
    }
}

fn fold_tables<S: Foldable + Drop>(conn: Connection<S>) -> (Held<S>, StepAnswer) {
    let mut store = conn.into_store();
    let answer = match store.fold() {
        Ok(()) => StepAnswer::Done,
        Err(_) => StepAnswer::Fault(Fault::Store),
    };
    (Held::Closed(store), answer)
}

// ---- steps

fn asked<S: Foldable + Drop>(
    alloc: Global,
    copy: &mut LogCopy<S>,
    log: &[Operation],
    step: Step<'_>,
) -> StepAnswer {
    match step {
        Step::Up => up(copy),
        Step::Epoch => epoch(copy),
        Step::Add(doc, from, start, end) => {
            if start <= end && end <= log.len() {
                add(copy, doc, from, &log[start..end])
            } else {
                StepAnswer::Other
            }
        }
        Step::Load(doc) => load(alloc, copy, doc, log),
        Step::Docs => docs(copy),
        Step::Check(due) => check(alloc, copy, due),
        Step::Edit(doc, due) => edit(alloc, copy, doc, due),
        Step::Restore(doc, least, most) => restore(alloc, copy, doc, log, (least, most)),
        Step::UpFrom(last) => up_from(copy, last),
        _ => StepAnswer::NoCopy,
    }
}

fn over_tables<S: Foldable + Drop>(
    alloc: Global,
    mut conn: Connection<S>,
    step: Step<'_>,
) -> (Held<S>, StepAnswer) {
    let answer = match step {
        Step::Open => return adopt(alloc, conn),
        Step::Fold => return fold_tables(conn),
        Step::Run(sql) => run(&mut conn, sql),
        Step::Ask(sql) => ask(&mut conn, sql),
        _ => StepAnswer::NoCopy,
    };
    (Held::Tables(conn), answer)
}

fn over_copy<S: Foldable + Drop>(
    alloc: Global,
    copy: LogCopy<S>,
    log: &[Operation],
    step: Step<'_>,
) -> (Held<S>, StepAnswer) {
    match step {
        Step::Open | Step::Run(_) | Step::Ask(_) => {
            over_tables(alloc, copy.into_connection(), step)
        }
        Step::Fold => fold(copy),
        Step::Close => close(copy),
        _ => over_open(alloc, copy, log, step),
    }
}

fn over_open<S: Foldable + Drop>(
    alloc: Global,
    mut copy: LogCopy<S>,
    log: &[Operation],
    step: Step<'_>,
) -> (Held<S>, StepAnswer) {
    let answer = asked(alloc, &mut copy, log, step);
    (Held::Copy(copy), answer)
}

fn take<S: Foldable + Drop>(
    alloc: Global,
    held: Held<S>,
    log: &[Operation],
    step: Step<'_>,
) -> (Held<S>, StepAnswer) {
    match held {
        Held::Copy(copy) => over_copy(alloc, copy, log, step),
        Held::Tables(conn) => over_tables(alloc, conn, step),
        Held::Closed(store) => (Held::Closed(store), StepAnswer::NoCopy),
    }
}

// If out of memory nothing has changed, so the step is taken once more.
fn take_patiently<S: Foldable + Drop>(
    alloc: Global,
    held: Held<S>,
    log: &[Operation],
    step: Step<'_>,
) -> (Held<S>, StepAnswer) {
    let (held, answer) = take(alloc, held, log, step);
    if answer == StepAnswer::Fault(Fault::Memory) {
        return take(alloc, held, log, step);
    }
    (held, answer)
}

fn given_back<S: Alter + Drop>(held: Held<S>) -> S {
    match held {
        Held::Copy(copy) => copy.into_connection().into_store(),
        Held::Tables(conn) => conn.into_store(),
        Held::Closed(store) => store,
    }
}

/// The index of the first step with another answer than expected, and that answer. Each gets what
/// the one before it left, and the last leaves the store.
pub fn walked<S: Foldable + Drop>(
    alloc: Global,
    conn: Connection<S>,
    log: &[Operation],
    steps: &[(Step<'_>, StepAnswer)],
) -> (S, Option<(usize, StepAnswer)>) {
    let mut held = Held::Tables(conn);
    for (at, (step, due)) in steps.iter().enumerate() {
        let (next, answer) = take_patiently(alloc, held, log, *step);
        held = next;
        if answer != *due {
            return (given_back(held), Some((at, answer)));
        }
    }
    (given_back(held), None)
}

fn log_of(alloc: Global, log: Log<'_>) -> Result<Vec<Operation>, Refusal> {
    match log {
        Log::Texts(texts) => samples::operations(alloc, texts),
        Log::Numbered(most, left_out) => samples::log_without(alloc, most, left_out),
    }
}

fn walked_in_memory(
    alloc: Global,
    case: &Case<'_>,
) -> Result<Option<(usize, StepAnswer)>, Refusal> {
    let log = log_of(alloc, case.log)?;
    let files = new_files(alloc, u64::MAX, u64::MAX);
    let (_, other) = walked_over(alloc, files, log.as_slice(), case.steps);
    Ok(other)
}

/// Over an empty database in files in memory each step of each of these cases has its answer.
pub fn all_answer<R: Abort>(rt: &R, alloc: Global, cases: &[Case<'_>]) {
    for case in cases {
        let name = case.name;
        let other = walked_in_memory(alloc, case);
        assert!(rt; matches!(other, Ok(None)), "{name}: {other:?}");
    }
}
