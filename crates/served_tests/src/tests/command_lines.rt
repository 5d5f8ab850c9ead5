//! Command lines, each a text with a space between two words: what a run of one writes, what a
//! check of one prints, which of them ask for no server, and which say how the program is
//! called.
ghost use Rattle.std.specs.Prelude.{◌≡◌};
ghost use Rattle.share_ledger.specs.Begun.{BeginEmpty};

mod loopback;

use super::checks::holds;
use super::places::NewLists;
use command_line::is_version;
use commands::{parse_and_check, parse_and_serve, run_words};
use line_feed::{Reader, Writer};
use log::Log;
use log_files::SqliteFiles;
use run_core::NewDocuments;
use share_ledger::{Blank, Marker};
use std::alloc::{AllocError, Global};
use std::fs;
use std::marker::Brand;
use std::net::{Net, TcpListener, TcpStream};
use std::sync::Wait;
use std::test::Fail;
use std::thread::Threads;
use std::time::Clock;
use stored_log::Fault;

// The arguments of a line. Between two spaces is an empty one.
fn words_of<'a>(alloc: Global, line: &'a str) -> Result<Vec<&'a str>, AllocError> {
    if line.is_empty() {
        return Ok(Vec::new(alloc));
    }
    line.split(' ').collect(alloc)
}

// The status of a run of these words over these bytes, and what it wrote.
fn written<M: Marker>(alloc: Global, blank: Blank, words: &[&str], input: &[u8]) -> (u8, Vec<u8>)
    requires blank { blank ≡ M.name }
    requires begun { BeginEmpty M.origin }
{
    let mut out = Vec::new(alloc);
    let mut documents = NewDocuments::<M>::new(blank);
    let status = run_words(
        alloc,
        &mut documents,
        words,
        &mut Reader::new(input),
        &mut Writer::new(&mut out),
    );
    (status, out)
}

// Whether a run of this line over this input has this status, and writes this.
fn gives(
    alloc: Global,
    line: &str,
    input: &str,
    status: u8,
    output: &str,
) -> Result<bool, AllocError> {
    let words = words_of(alloc, line)?;
    let (found, out) = written::<Brand>(alloc, Blank::new(), &words, input.as_bytes());
    Ok(found == status && *out.as_slice() == *output.as_bytes())
}

const OPENS_B: &str = "[\"open\",\"b\"]\n[\"assign\",\"b\",[0],{}]\n";

// Runs: what each is, its line, its input, its status, and what it writes.
static RUNS: [(&str, &str, &str, u8, &str); 15] = [
    (
        "the server srv",
        "run a b",
        OPENS_B,
        0,
        "[\"opened\",1]\n[\"applied\",1,0,[1,\"srv-1\"]]\n",
    ),
    (
        "a server of another name",
        "run --name peer a b",
        OPENS_B,
        0,
        "[\"opened\",1]\n[\"applied\",1,0,[1,\"peer-1\"]]\n",
    ),
    ("two documents", "run a b-2", "", 0, ""),
    ("a name", "run --name peer a", "", 0, ""),
    (
        "a name of 24 bytes",
        "run --name a-name-of-24-bytes-whole a",
        "",
        0,
        "",
    ),
    (
        "a name of 25 bytes",
        "run --name a-name-of-25-bytes-in-all a",
        "",
        2,
        "",
    ),
    ("a document twice", "run a a", "", 2, ""),
    ("a capital", "run A", "", 2, ""),
    ("no document", "run", "", 2, ""),
    ("help", "run --help", "", 2, ""),
    ("no word", "", "", 2, ""),
    ("another first word", "walk a", "", 2, ""),
    ("an empty name", "run --name  a", "", 2, ""),
    (
        "16 documents",
        "run a b c d e f g h i j k l m n o p",
        "",
        0,
        "",
    ),
    (
        "17 documents",
        "run a b c d e f g h i j k l m n o p q",
        "",
        2,
        "",
    ),
];

#[test]
fn runs(rt: HostRuntime) {
    for (what, line, input, status, output) in &RUNS {
        let given = gives(rt.alloc(), line, input, *status, output);
        holds(&rt, matches!(given, Ok(true)), what);
    }
}

// Whether a check of this line has this status, and prints this.
fn prints(rt: &HostRuntime, line: &str, status: u8, text: &str) -> Result<bool, AllocError> {
    let words = words_of(rt.alloc(), line)?;
    let mut out = Vec::<u8>::new(rt.alloc());
    let files = SqliteFiles::present(rt, rt);
    let found = parse_and_check(rt, rt.alloc(), &words, &files, &mut Writer::new(&mut out));
    Ok(found == status && *out.as_slice() == *text.as_bytes())
}

// Checks: what each is, its line, its status, and what it prints.
static CHECKS: [(&str, &str, u8, &str); 11] = [
    (
        "an empty file",
        "check --file jcrdt-check-test.db",
        0,
        "[\"epoch\",0]\n",
    ),
    (
        "a file without rows",
        "check --file jcrdt-check-test.db",
        0,
        "[\"epoch\",0]\n",
    ),
    (
        "a file that is not there",
        "check --file jcrdt-no-such-test.db",
        1,
        "",
    ),
    (
        "it was not made",
        "check --file jcrdt-no-such-test.db",
        1,
        "",
    ),
    (
        "a folder that is not there",
        "check --file no-such-folder/copy.db",
        1,
        "",
    ),
    ("no word", "", 2, ""),
    ("no option", "check", 2, ""),
    ("no file", "check --file", 2, ""),
    ("a document", "check --file jcrdt-check-test.db d", 2, ""),
    ("help", "check --help", 2, ""),
    (
        "another first word",
        "run --file jcrdt-check-test.db",
        2,
        "",
    ),
];

#[test]
fn checks(rt: HostRuntime) {
    let is_made = fs::write(&rt, "jcrdt-check-test.db", "".as_bytes()).is_ok();
    holds(&rt, is_made, "an empty file is made");
    for (what, line, status, text) in &CHECKS {
        let printed = prints(&rt, line, *status, text);
        holds(&rt, matches!(printed, Ok(true)), what);
    }
    let is_removed = fs::remove_file(&rt, "jcrdt-check-test.db").is_ok();
    holds(&rt, is_removed, "the file is removed");
    let _log = fs::remove_file(&rt, "jcrdt-check-test.db-wal");
}

// A folder of this test alone, and a file in it.
const FOLDER: &str = "jcrdt-no-database-test";

const NO_DATABASE: &str = "jcrdt-no-database-test/copy.db";

const BYTES: &str = "no database, but some bytes that a person wrote";

// A file that is no database is refused, and has each byte that it had.
#[test]
fn no_database(rt: HostRuntime) -> Result<(), Fail> {
    let _ = fs::remove_dir_all(&rt, FOLDER);
    fs::create_dir(&rt, FOLDER)?;
    fs::write(&rt, NO_DATABASE, BYTES.as_bytes())?;
    let line = "check --file jcrdt-no-database-test/copy.db";
    let printed = prints(&rt, line, 1, "[\"no\",26,\"copy-refused\"]\n");
    holds(&rt, matches!(printed, Ok(true)), "it is refused");
    let bytes = fs::read(&rt, NO_DATABASE)?;
    assert_eq!(rt; bytes.as_slice(), BYTES.as_bytes());
    fs::remove_dir_all(&rt, FOLDER)?;
    Ok(())
}

// Whether a line that is served over new logs in memory, or over none, has this status, and what it
// writes.
fn is_served<
    R: Net<Listener = TcpListener, Stream = TcpStream>
        + Threads
        + Wait
        + Eprint
        + Sync
        + Log
        + Clock,
>(
    host: &HostRuntime,
    rt: &R,
    line: &str,
    fault: Option<Fault>,
    status: u8,
    output: &str,
) -> Result<bool, AllocError> {
    let alloc = host.alloc();
    let words = words_of(alloc, line)?;
    let mut out = Vec::<u8>::new(alloc);
    let lists = NewLists { alloc, fault };
    let found = parse_and_serve(host, rt, alloc, &words, &lists, &mut out);
    Ok(found == status && *out.as_slice() == *output.as_bytes())
}

// Lines that ask for no server: what is wrong with each, and the line.
static NO_SERVERS: [(&str, &str); 11] = [
    (
        "no session",
        "serve --addr 127.0.0.1:0 --sessions 0 --file f d",
    ),
    (
        "257 sessions",
        "serve --addr 127.0.0.1:0 --sessions 257 --file f d",
    ),
    (
        "no number of sessions",
        "serve --addr 127.0.0.1:0 --file f d",
    ),
    (
        "both numbers of sessions",
        "serve --addr 127.0.0.1:0 --sessions 1 --clients 1 --file f d",
    ),
    ("no address", "serve --sessions 1 --file f d"),
    (
        "no document",
        "serve --addr 127.0.0.1:0 --sessions 1 --file f",
    ),
    ("no file", "serve --addr 127.0.0.1:0 --sessions 1 d"),
    (
        "a capital",
        "serve --addr 127.0.0.1:0 --sessions 1 --file f D",
    ),
    (
        "a document twice",
        "serve --addr 127.0.0.1:0 --sessions 1 --file f d d",
    ),
    (
        "a number in letters",
        "serve --addr 127.0.0.1:0 --sessions one --file f d",
    ),
    (
        "another first word",
        "run --addr 127.0.0.1:0 --sessions 1 --file f d",
    ),
];

#[test]
fn lines_that_ask_for_no_server(rt: HostRuntime) {
    for (what, line) in &NO_SERVERS {
        let is = is_served(&rt, &rt, line, None, 2, "");
        holds(&rt, matches!(is, Ok(true)), what);
    }
}

// Why a stored log can't be opened, and what a server then writes.
static UNOPENED: [(Fault, &str); 2] = [
    (Fault::Refused, "[\"no\",26,\"copy-refused\"]\n"),
    (Fault::Store, ""),
];

#[test]
fn logs_that_are_not_opened(rt: HostRuntime) {
    let line = "serve --addr 127.0.0.1:0 --sessions 1 --file f d";
    for (fault, output) in &UNOPENED {
        let is = is_served(&rt, &rt, line, Some(*fault), 1, output);
        holds(&rt, matches!(is, Ok(true)), output);
    }
}

// Lines, and whether each asks for the version.
static VERSIONS: [(&str, bool); 6] = [
    ("--version", true),
    ("-V", true),
    ("version d", true),
    ("run --version", false),
    ("--help", false),
    ("", false),
];

fn asks_for_version(alloc: Global, line: &str) -> Result<bool, AllocError> {
    Ok(is_version(&words_of(alloc, line)?))
}

#[test]
fn first_words_that_ask_for_the_version(rt: HostRuntime) {
    for (line, asks) in &VERSIONS {
        let found = asks_for_version(rt.alloc(), line);
        holds(&rt, matches!(found, Ok(it) if it == *asks), line);
    }
}
