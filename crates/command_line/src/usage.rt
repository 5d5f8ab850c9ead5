//! Messages for a command line that asks for nothing. The status says that it does; no clause says
//! anything of the texts, and `tests/whole-program` has one for each mistake.
use crate::matches::{
    DEFAULT_BACKLOG, DEFAULT_DRAIN, DEFAULT_NAME, DEFAULT_PATIENCE, check_matches, run_matches,
    serve_matches,
};
use crate::numbers::{backlog_of, seconds_of, sessions_of};
use clap::error::ErrorKind;
use clap::{ArgMatches, Error};
use run_core::{MAX_DOCUMENTS, MAX_NAME_BYTES, is_among, is_name};
use std::alloc::{AllocError, Global};

/// How the program is called.
pub const USAGE: &str = "usage: jcrdt run [--name NAME] DOC..\n\
    \x20      jcrdt serve --addr A --clients N --file F [--name NAME] [--backlog M] [--durable]\n\
    \x20            [--patience S] [--until-input-ends] [--drain S] [--health A] DOC..\n\
    \x20      jcrdt serve --addr A --sessions N --file F ... DOC..\n\
    \x20      jcrdt check --file F\n\
    \x20 NAME: 1 to 24, DOC: 1 to 32 of a-z, 0-9 and -; 1 to 16 documents of different names\n\
    \x20 A: HOST:PORT to listen at\n\
    \x20 --clients N: 1 to 256 at once, one after another; --sessions N: 1 to 256 in all, and then the end\n\
    \x20 F: the file of what is stored, which serve makes where it isn't there\n\
    \x20 M: 1 to 100000 operations of a document that may be answered and not yet in F; 4096 if not given\n\
    \x20 --durable: a change is answered once it is in F\n\
    \x20 --until-input-ends: when standard input ends, sessions end and what they logged is stored\n\
    \x20 --patience S: 1 to 3600 seconds of silence before the first line and within one, and between\n\
    \x20   lines while others wait; 30 if not given. --drain S: seconds that sessions have to end; 10\n\
    \x20 --health A: where monitors may ask for /health and /metrics by HTTP, beside all sessions\n\
    \x20 Lines of JSON in, lines of JSON out: see docs/FORMATS.md.";

/// The program, its version as in the file VERSION, and the commit of the sources that it was
/// released from. `tools/release` refuses another one.
pub const VERSION: &str = "jcrdt 1.4.3 (commit 0f629a74598f)";

/// The message where memory runs out before anything was asked for.
pub const NO_MEMORY: &str = "jcrdt: out of memory while the command line was read";

// What clap says was wrong, without its own usage. None where help was asked for.
fn clap_cause(alloc: Global, error: &Error) -> Result<Option<String>, AllocError> {
    if error.kind() == ErrorKind::DisplayHelp {
        return Ok(None);
    }
    let text = format!(in alloc; "{error}")?;
    let said = text.as_str();
    let cause = match said.split_once("\n\nUsage:") {
        Some((cause, _)) => cause,
        None => said,
    };
    Ok(Some(String::from_str(alloc, cause)?))
}

// The first thing that is wrong with the server's name.
fn name_cause(alloc: Global, name: &str) -> Result<Option<String>, AllocError> {
    if is_name(name) && name.len() <= MAX_NAME_BYTES {
        return Ok(None);
    }
    let cause = format!(in alloc; "error: the name {name:?} isn't 1 to 24 of a-z, 0-9 and -")?;
    Ok(Some(cause))
}

// The first thing that is wrong with the documents' names.
fn documents_cause(alloc: Global, names: &[&str]) -> Result<Option<String>, AllocError> {
    let number = names.len();
    if number > MAX_DOCUMENTS {
        return Ok(Some(format!(in alloc; "error: {number} documents are more than 16")?));
    }
    for i in 0..number {
        let name = names[i];
        if !is_name(name) {
            let cause = format!(in alloc;
                "error: the document's name {name:?} isn't 1 to 32 of a-z, 0-9 and -"
            )?;
            return Ok(Some(cause));
        }
        if is_among(name.as_bytes(), &names[..i]) {
            return Ok(Some(format!(in alloc; "error: the document {name:?} stands twice")?));
        }
    }
    Ok(None)
}

// The first thing that is wrong with the names that clap found.
fn names_cause(alloc: Global, matches: &ArgMatches<'_>) -> Result<Option<String>, AllocError> {
    match name_cause(alloc, matches.get_str("name").unwrap_or(DEFAULT_NAME))? {
        Some(cause) => Ok(Some(cause)),
        None => documents_cause(alloc, matches.get_strs("doc").unwrap_or(&[])),
    }
}

// The first thing that is wrong with the arguments of `run`.
fn run_cause(alloc: Global, args: &[&str]) -> Result<Option<String>, AllocError> {
    match run_matches(alloc, args) {
        Ok(matches) => names_cause(alloc, &matches),
        Err(error) => clap_cause(alloc, &error),
    }
}

// What is wrong with a number of sessions.
fn count_cause(alloc: Global, text: &str) -> Result<Option<String>, AllocError> {
    if sessions_of(text).is_some() {
        return Ok(None);
    }
    let cause = format!(in alloc; "error: {text:?} isn't a number of sessions from 1 to 256")?;
    Ok(Some(cause))
}

// What is wrong with `--sessions` and `--clients`.
fn sessions_cause(alloc: Global, matches: &ArgMatches<'_>) -> Result<Option<String>, AllocError> {
    match (matches.get_str("sessions"), matches.get_str("clients")) {
        (Some(text), None) => count_cause(alloc, text),
        (None, Some(text)) => count_cause(alloc, text),
        (None, None) => Ok(Some(String::from_str(
            alloc,
            "error: one of --sessions and --clients is wanted",
        )?)),
        (Some(_), Some(_)) => Ok(Some(String::from_str(
            alloc,
            "error: --sessions and --clients exclude each other",
        )?)),
    }
}

// What is wrong with a number of seconds.
fn seconds_cause(alloc: Global, text: &str) -> Result<Option<String>, AllocError> {
    if seconds_of(text).is_some() {
        return Ok(None);
    }
    let cause = format!(in alloc; "error: {text:?} isn't a number of seconds from 1 to 3600")?;
    Ok(Some(cause))
}

// What is wrong with `--backlog`.
fn backlog_cause(alloc: Global, text: &str) -> Result<Option<String>, AllocError> {
    if backlog_of(text).is_some() {
        return Ok(None);
    }
    let cause = format!(in alloc; "error: {text:?} isn't a number of operations from 1 to 100000")?;
    Ok(Some(cause))
}

// The first thing that is wrong with the numbers of `serve`.
fn numbers_cause(alloc: Global, matches: &ArgMatches<'_>) -> Result<Option<String>, AllocError> {
    if let Some(cause) = sessions_cause(alloc, matches)? {
        return Ok(Some(cause));
    }
    let backlog = matches.get_str("backlog").unwrap_or(DEFAULT_BACKLOG);
    if let Some(cause) = backlog_cause(alloc, backlog)? {
        return Ok(Some(cause));
    }
    let patience = matches.get_str("patience").unwrap_or(DEFAULT_PATIENCE);
    if let Some(cause) = seconds_cause(alloc, patience)? {
        return Ok(Some(cause));
    }
    seconds_cause(alloc, matches.get_str("drain").unwrap_or(DEFAULT_DRAIN))
}

// The first thing that is wrong with the arguments of `serve`.
fn serve_cause(alloc: Global, args: &[&str]) -> Result<Option<String>, AllocError> {
    match serve_matches(alloc, args) {
        Ok(matches) => match numbers_cause(alloc, &matches)? {
            Some(cause) => Ok(Some(cause)),
            None => names_cause(alloc, &matches),
        },
        Err(error) => clap_cause(alloc, &error),
    }
}

// The first thing that is wrong with the arguments of `check`.
fn check_cause(alloc: Global, args: &[&str]) -> Result<Option<String>, AllocError> {
    match check_matches(alloc, args) {
        Ok(_) => Ok(None),
        Err(error) => clap_cause(alloc, &error),
    }
}

/// The first thing that is wrong with the arguments, as a line that names the argument and says
/// what is right. None where nothing is wrong, where there are no arguments, and where help is
/// asked for.
///
/// It parses them a second time: a command answers by its status alone.
pub fn cause_of(alloc: Global, args: &[&str]) -> Result<Option<String>, AllocError> {
    match args {
        [] => Ok(None),
        [first, ..] => match *first {
            "run" => run_cause(alloc, args),
            "serve" => serve_cause(alloc, args),
            "check" => check_cause(alloc, args),
            "help" | "--help" | "-h" => Ok(None),
            other => Ok(Some(format!(in alloc;
                "error: {other:?} is none of run, serve and check"
            )?)),
        },
    }
}
