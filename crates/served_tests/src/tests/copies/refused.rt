//! Databases that are no stored log, each made for what is wrong with it. A file that is
//! refused has each byte that it had.
use super::super::disks::Stopping;
use super::steps::{REFUSED, Step, StepAnswer};
use super::walks::{made, walked_over};
use sqlite_disk::Files;
use std::alloc::{AllocError, Global};
use std::test::Fail;

const COPY: &str =
    r#"CREATE TABLE meta (name TEXT NOT NULL PRIMARY KEY, value INTEGER NOT NULL) STRICT;
    CREATE TABLE entry (doc TEXT NOT NULL, place INTEGER NOT NULL, text TEXT NOT NULL, PRIMARY KEY (doc, place)) STRICT;
    INSERT INTO meta (name, value) VALUES ('format', 2), ('epoch', 0);
    INSERT INTO entry (doc, place, text) VALUES ('d', 1, '["op",[1,"p"],[],[[["m",0]],"k"],["assign",1]]')"#;

// The answer if a stored log is opened in the files, if these then have each byte that they had.
fn answer_unchanged(alloc: Global, files: Files<Stopping>) -> Result<StepAnswer, AllocError> {
    let log = Vec::from_slice(alloc, files.log.inner().bytes())?;
    let db = Vec::from_slice(alloc, files.db.inner().bytes())?;
    let (files, other) = walked_over(alloc, files, &[], &[(Step::Open, StepAnswer::Done)]);
    if files.log.inner().bytes() != log.as_slice() || files.db.inner().bytes() != db.as_slice() {
        return Ok(StepAnswer::Other);
    }
    match other {
        Some((_, answer)) => Ok(answer),
        None => Ok(StepAnswer::Done),
    }
}

// A stored log with one entry of `d`, changed so.
fn answer_after(alloc: Global, change: &str) -> Result<StepAnswer, AllocError> {
    match made(
        alloc,
        &[
            (Step::Run(COPY), StepAnswer::Done),
            (Step::Run(change), StepAnswer::Done),
            (Step::Fold, StepAnswer::Done),
        ],
    ) {
        Some(files) => answer_unchanged(alloc, files),
        None => Ok(StepAnswer::NoSql),
    }
}

// The first change after which the answer is another than this.
fn first_other(
    alloc: Global,
    changes: &[&str],
    due: StepAnswer,
) -> Result<Option<(usize, StepAnswer)>, AllocError> {
    for (at, change) in changes.iter().enumerate() {
        let answer = answer_after(alloc, change)?;
        if answer != due {
            return Ok(Some((at, answer)));
        }
    }
    Ok(None)
}

// Changes of a stored log with one entry, each by itself, and the answer after each of them.
static CHANGES: [(&str, &[&str], StepAnswer); 13] = [
    // Changes after which it is a stored log still: what is refused below is refused
    // for the one thing that differs.
    (
        "sound_copies",
        &[
            "UPDATE meta SET value = 9999999 WHERE name = 'epoch'",
            r#"INSERT INTO entry (doc, place, text) VALUES ('d', 2, '["op",[2,"p"],[["p",1]],[[["m",0]],"k"],["assign",2]]')"#,
            r#"INSERT INTO entry (doc, place, text) VALUES ('e', 1, '["op",[1,"p"],[],[[["m",0]],"k"],["assign",1]]')"#,
        ],
        StepAnswer::Done,
    ),
    (
        "a_missing_table",
        &["DROP TABLE entry", "DROP TABLE meta"],
        REFUSED,
    ),
    (
        "other_columns",
        &[
            "DROP TABLE entry; CREATE TABLE entry (doc TEXT, place INTEGER) STRICT",
            "DROP TABLE meta; CREATE TABLE meta (name TEXT, value TEXT) STRICT",
        ],
        REFUSED,
    ),
    (
        "a_view_for_a_table",
        &[
            "DROP TABLE entry; CREATE VIEW entry AS SELECT name AS doc, value AS place, name AS text FROM meta",
            "DROP TABLE meta; CREATE VIEW meta AS SELECT doc AS name, place AS value FROM entry",
        ],
        REFUSED,
    ),
    // The tables are right but for the letters of a name.
    (
        "a_name_in_other_letters",
        &[
            "DROP TABLE meta; CREATE TABLE META (name TEXT NOT NULL PRIMARY KEY, value INTEGER NOT NULL) STRICT;
     INSERT INTO META (name, value) VALUES ('format', 2), ('epoch', 0)",
            "DROP TABLE entry;
     CREATE TABLE Entry (doc TEXT NOT NULL, place INTEGER NOT NULL, text TEXT NOT NULL, PRIMARY KEY (doc, place)) STRICT",
        ],
        REFUSED,
    ),
    (
        "numbers_missing_or_more",
        &[
            "DELETE FROM meta WHERE name = 'epoch'",
            "DELETE FROM meta WHERE name = 'format'",
            "DELETE FROM meta",
            "INSERT INTO meta (name, value) VALUES ('more', 1)",
        ],
        REFUSED,
    ),
    (
        "another_format",
        &[
            "UPDATE meta SET value = 0 WHERE name = 'format'",
            "UPDATE meta SET value = 3 WHERE name = 'format'",
        ],
        REFUSED,
    ),
    (
        "an_epoch_out_of_range",
        &[
            "UPDATE meta SET value = -1 WHERE name = 'epoch'",
            "UPDATE meta SET value = 10000000 WHERE name = 'epoch'",
        ],
        REFUSED,
    ),
    (
        "a_gap_in_the_places",
        &[
            r#"INSERT INTO entry (doc, place, text) VALUES ('d', 3, '["op",[2,"p"],[["p",1]],[[["m",0]],"k"],["assign",2]]')"#,
            r#"INSERT INTO entry (doc, place, text) VALUES ('d', 0, '["op",[2,"p"],[["p",1]],[[["m",0]],"k"],["assign",2]]')"#,
            r#"INSERT INTO entry (doc, place, text) VALUES ('d', -1, '["op",[2,"p"],[["p",1]],[[["m",0]],"k"],["assign",2]]')"#,
        ],
        REFUSED,
    ),
    (
        "a_bad_document_name",
        &[
            r#"INSERT INTO entry (doc, place, text) VALUES ('E', 1, '["op",[1,"p"],[],[[["m",0]],"k"],["assign",1]]')"#,
            r#"INSERT INTO entry (doc, place, text) VALUES ('', 1, '["op",[1,"p"],[],[[["m",0]],"k"],["assign",1]]')"#,
            r#"INSERT INTO entry (doc, place, text) VALUES ('aaaaaaaaaaaaaaaaaaaaaaaaaaaaaaaaa', 1, '["op",[1,"p"],[],[[["m",0]],"k"],["assign",1]]')"#,
        ],
        REFUSED,
    ),
    // No JSON; no operation; another text of the same JSON.
    (
        "a_text_that_is_not_written_so",
        &[
            "INSERT INTO entry (doc, place, text) VALUES ('d', 2, '[')",
            "INSERT INTO entry (doc, place, text) VALUES ('d', 2, '[]')",
            r#"INSERT INTO entry (doc, place, text) VALUES ('d', 2, '["op", [2,"p"],[["p",1]],[[["m",0]],"k"],["assign",2]]')"#,
        ],
        REFUSED,
    ),
    // An id that is there already; one that needs what is not there.
    (
        "an_operation_that_does_not_fit",
        &[
            r#"INSERT INTO entry (doc, place, text) VALUES ('d', 2, '["op",[1,"p"],[],[[["m",0]],"k"],["assign",1]]')"#,
            r#"INSERT INTO entry (doc, place, text) VALUES ('d', 2, '["op",[3,"p"],[["p",2]],[[["m",0]],"k"],["assign",2]]')"#,
        ],
        REFUSED,
    ),
    // A table beside the two changes nothing of what is refused.
    (
        "beside_a_table",
        &[
            "CREATE TABLE note (id INTEGER PRIMARY KEY) STRICT; DROP TABLE entry",
            "CREATE TABLE note (id INTEGER PRIMARY KEY) STRICT; UPDATE meta SET value = 3 WHERE name = 'format'",
            "CREATE TABLE note (id INTEGER PRIMARY KEY) STRICT; INSERT INTO entry (doc, place, text) VALUES ('d', 2, '[]')",
            r#"CREATE TABLE note (id INTEGER PRIMARY KEY) STRICT; UPDATE meta SET value = 1 WHERE name = 'format';
            INSERT INTO entry (doc, place, text) VALUES ('d', 2, '["op",[2,"p"],[["p",1]],[[["m",0]],"k"],["add",1]]')"#,
        ],
        REFUSED,
    ),
];

#[test]
fn changes(rt: HostRuntime) {
    for (case, changes, due) in &CHANGES {
        let other = first_other(rt.alloc(), changes, *due);
        assert!(rt; matches!(other, Ok(None)), "{case}: {other:?}");
    }
}

// A connection in the middle of a transaction.
#[test]
fn transaction_under_way(rt: HostRuntime) -> Result<(), Fail> {
    let begun = [
        (Step::Run("BEGIN"), StepAnswer::Done),
        (Step::Open, REFUSED),
        (Step::Fold, StepAnswer::Done),
    ];
    assert!(rt; made(rt.alloc(), &begun).is_some());
    Ok(())
}
