//! What is said of a database that is refused.
use super::super::disks::{connected, new_files};
use log_files::adopted;
use sqlite::{Alter, Connection};
use sqlite_disk::{Disk, Files};
use std::alloc::{AllocError, Global};

const COPY: &str =
    r#"CREATE TABLE meta (name TEXT NOT NULL PRIMARY KEY, value INTEGER NOT NULL) STRICT;
    CREATE TABLE entry (doc TEXT NOT NULL, place INTEGER NOT NULL, text TEXT NOT NULL, PRIMARY KEY (doc, place)) STRICT;
    INSERT INTO meta (name, value) VALUES ('format', 2), ('epoch', 0);
    INSERT INTO entry (doc, place, text) VALUES ('d', 1, '["op",[1,"p"],[],[[["m",0]],"k"],["assign",1]]')"#;

// What is said of the database of a connection, once it is a stored log with one entry of `d`,
// changed so.
fn said_of<S: Alter + Drop>(
    alloc: Global,
    mut conn: Connection<S>,
    change: &str,
) -> Result<String, AllocError> {
    if conn.execute_batch(COPY).is_err() || conn.execute_batch(change).is_err() {
        return Err(AllocError);
    }
    match adopted(alloc, conn) {
        Ok(_) => format!(in alloc; "nothing"),
        Err(cause) => format!(in alloc; "{cause}"),
    }
}

// The same of the database in these files. This names a store in files, which is dear to prove.
fn said_in<D: Disk + Drop>(
    alloc: Global,
    files: Files<D>,
    change: &str,
) -> Result<String, AllocError> {
    match connected(alloc, files) {
        Ok(conn) => said_of(alloc, conn, change),
        Err(_) => Err(AllocError),
    }
}

// Changes, and what is then said.
static SAID: [(&str, &str); 12] = [
    ("UPDATE meta SET value = 3 WHERE name = 'epoch'", "nothing"),
    (
        "DROP TABLE meta",
        "it is no stored log: the table meta is missing",
    ),
    (
        "DROP TABLE entry",
        "it is no stored log: the table entry is missing",
    ),
    (
        "DROP TABLE entry; CREATE VIEW entry AS SELECT name AS doc, value AS place, name AS text FROM meta",
        "it is no stored log: its table meta or entry has another form",
    ),
    (
        "DELETE FROM meta WHERE name = 'epoch'",
        "it is no stored log: its table meta has other rows than format and epoch",
    ),
    (
        "UPDATE meta SET value = 3 WHERE name = 'format'",
        "it is no stored log: its format is 3, and 1 and 2 are read",
    ),
    (
        "UPDATE meta SET value = 10000000 WHERE name = 'epoch'",
        "it is no stored log: its epoch in meta is none that can be given out",
    ),
    (
        r#"INSERT INTO entry (doc, place, text) VALUES ('E', 1, '["op",[1,"p"],[],[[["m",0]],"k"],["assign",1]]')"#,
        "it is no stored log: row no. 1 of entry, by doc and place: doc is no name of a document",
    ),
    (
        r#"INSERT INTO entry (doc, place, text) VALUES ('d', 3, '["op",[2,"p"],[["p",1]],[[["m",0]],"k"],["assign",2]]')"#,
        "it is no stored log: row no. 2 of entry, by doc and place: place is not the next one of its document",
    ),
    (
        "INSERT INTO entry (doc, place, text) VALUES ('d', 2, '[]')",
        "it is no stored log: row no. 2 of entry, by doc and place: text is no operation of this format",
    ),
    (
        r#"UPDATE meta SET value = 1 WHERE name = 'format';
        INSERT INTO entry (doc, place, text) VALUES ('d', 2, '["op",[2,"p"],[["p",1]],[[["m",0]],"k"],["add",1]]')"#,
        "it is no stored log: row no. 2 of entry, by doc and place: text is no operation of this format",
    ),
    (
        r#"INSERT INTO entry (doc, place, text) VALUES ('d', 2, '["op",[3,"p"],[["p",2]],[[["m",0]],"k"],["assign",2]]')"#,
        "it is no stored log: row no. 2 of entry, by doc and place: text is an operation that does not fit behind the rows before it",
    ),
];

fn is_said(alloc: Global, change: &str, due: &str) -> Result<bool, AllocError> {
    let files = new_files(alloc, u64::MAX, u64::MAX);
    Ok(said_in(alloc, files, change)?.as_str() == due)
}

#[test]
fn causes(rt: HostRuntime) {
    for (change, due) in &SAID {
        let is = is_said(rt.alloc(), change, due);
        assert!(rt; matches!(is, Ok(true)), "{due}");
    }
}
