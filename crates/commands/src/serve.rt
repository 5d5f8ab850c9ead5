//! Serving over TCP, from a stored log.
ghost use Rattle.std.specs.Prelude.{◌≡◌, ◌⊎◌, ◌≤◌, length, map, false, IfErr, MatchResult};
ghost use Rattle.locked_doc.specs.Numbers.{greatest_number};
ghost use Rattle.command_line.specs.CommandLine.{AsksToServe, WantedServer, is_serve};
ghost use Rattle.commands.specs.Server.{ServesAt, ServesFrom};

use crate::health::Inspection;
use crate::host::ServerHost;
use command_line::{ArgsFault, NO_MEMORY, ServeArgs, Terms, parse_serve};
use served_log::{Failure, FileState, Serving, Step, report_fault, serve_over};
use std::alloc::Global;
use std::io;
use std::rt::HostRuntime;
use stored_log::{Fault, OpenLog, StoredFault, StoredLog};
use tcp_server::{
    Admission, Entrance, HttpListener, MOST_SESSIONS, connections, drain_when_input_ends, listen,
    listen_for_monitors,
};

// An address can't be listened at.
#[derive(Clone, Copy)]
struct NotListening;

// Reports on standard error why the stored log was not closed, if it was not. An error there
// changes nothing.
fn report_unclosed<R: Eprint>(rt: &R, closed: &Result<(), StoredFault>) {
    if let Err(why) = closed {
        let _ = rt.eprintln(format_args!("jcrdt: the file failed while it was closed: {why}"));
    }
}

// Closes the stored log. Where that fails it is reported on standard error.
fn close<R: Eprint, L: StoredLog>(rt: &R, stored: L) {
    let closed = match stored.close() {
        Ok(_) => Ok(()),
        Err((why, _)) => Err(why),
    };
    report_unclosed(rt, &closed);
}

// Whether this failure also says why the file was not closed.
fn is_of_folding(failure: &Failure) -> bool {
    matches!(failure, Failure::Store(Step::Fold, _))
}

// Reports on standard error why a server ended with status 1: one line a cause.
fn report_causes<R: Eprint>(
    rt: &R,
    served: &Result<(), Failure>,
    closed: &Result<(), StoredFault>,
) {
    match served {
        Ok(()) => report_unclosed(rt, closed),
        Err(failure) => {
            let _ = rt.eprintln(format_args!("jcrdt: {failure}"));
            if !is_of_folding(failure) {
                report_unclosed(rt, closed);
            }
        }
    }
}

// How the sessions of a server are let in.
fn admission_of(terms: &Terms) -> Admission
    ensures stays { result.stays ≡ terms.now.stays }
    ensures sessions { result.sessions ≡ terms.now.sessions }
    ensures seconds { (result.patience ≡ terms.now.patience) × (result.drain ≡ terms.now.drain) }
{
    Admission {
        sessions: terms.sessions,
        stays: terms.stays,
        patience: terms.patience,
        drain: terms.drain,
    }
}

// How many seats a document has: one for each session.
fn seats_for(terms: &Terms) -> u16 {
    if terms.stays {
        MOST_SESSIONS
    } else {
        terms.sessions
    }
}

// Listens for monitors, if an address for them is asked for. It fails where that can't be listened
// at; standard error says why.
fn monitors_of<R: ServerHost>(
    host: &HostRuntime,
    rt: &R,
    address: Option<&str>,
) -> Result<Option<HttpListener>, NotListening> {
    match address {
        None => Ok(None),
        Some(address) => match listen_for_monitors(host, rt, address) {
            Some(listener) => Ok(Some(listener)),
            None => Err(NotListening),
        },
    }
}

// Listens at the address that is asked for, writes where, and serves so many sessions from the
// stored log, if it could be opened. It reports on standard error why it ended with status 1.
fn listen_and_serve<R: ServerHost, L: StoredLog, W: io::Write>(
    host: &HostRuntime,
    rt: &R,
    asked: &ServeArgs<'_>,
    opened: Result<L, Fault>,
    out: &mut W,
) -> u8
    requires few { length asked.now.documents.items ≤ greatest_number }
    ensures status { result ≤ 1 }
    ensures served { result ≡ 0 → MatchResult opened (λ it. ServesFrom L.StoredLog it
        asked.now.name.now (map (λ s. s.now) asked.now.documents.items)
        asked.now.terms.sessions asked.now.terms.stays (W.contents out.old) (W.contents out.new)) (λ _. ⊥) }
    ensures unwritten { IfErr opened (λ fault. (fault ≡ Fault.Refused) ⊎ (out.new ≡ out.old)) }
{
    let alloc = *asked.documents.allocator();
    let stored = match opened {
        Ok(stored) => stored,
        Err(fault) => {
            // What opens stored logs has reported why.
            let _ = report_fault(fault, out);
            return 1;
        }
    };
    let Ok(monitors) = monitors_of(host, rt, asked.health) else {
        close(rt, stored);
        return 1;
    };
    let Some(listener) = listen(host, rt, alloc, asked.address, out) else {
        close(rt, stored);
        return 1;
    };
    let entrance = Entrance::new(rt, &listener, admission_of(&asked.terms));
    let Ok(all) = connections(alloc, &entrance, asked.terms.sessions) else {
        let _ = rt.eprintln("jcrdt: out of memory while the sessions were prepared");
        close(rt, stored);
        return 1;
    };
    let Ok(file) = FileState::new(alloc, asked.documents.len()) else {
        let _ = rt.eprintln("jcrdt: out of memory while the sessions were prepared");
        close(rt, stored);
        return 1;
    };
    let gate = Inspection {
        rt,
        alloc,
        listener: monitors,
        entrance: &entrance,
        file: &file,
    };
    if asked.terms.until_input_ends {
        drain_when_input_ends(rt, &listener);
    }
    let serving = Serving {
        name: asked.name,
        documents: &asked.documents,
        pace: asked.pace,
        seats: seats_for(&asked.terms),
        connections: all,
        gate: &gate,
        file: &file,
    };
    let (status, ended) = serve_over(rt, alloc, serving, stored, out);
    report_causes(rt, &ended.served, &ended.closed);
    status
}

/// Serves what the arguments ask for, and returns the program's status.
///
/// It is 0 if all sessions have ended and all they logged is stored, and 2 if the arguments ask for
/// no server; nothing is written then. It is 1 where the file can't be opened or holds no stored
/// log, where the address can't be listened at, where the stored log or the writer fails, or where
/// memory runs out. Standard error says why it is 1.
pub fn parse_and_serve<R: ServerHost, O: OpenLog, W: io::Write>(
    host: &HostRuntime,
    rt: &R,
    alloc: Global,
    args: &[&str],
    files: &O,
    out: &mut W,
) -> u8
    ensures status { result ≤ 2 }
    ensures first_word { is_serve (map (λ s. s.now) args.now) ≡ false → result ≡ 2 }

    // As many threads with sessions as the arguments say, over their documents as some start found
    // them: with `--sessions` each has one session at most. What was written is where the server
    // listens, and then the totals of what these sessions did.
    ensures served { result ≡ 0 → (wanted : WantedServer)
        × AsksToServe (map (λ s. s.now) args.now) wanted
        × ServesAt O.Opened.StoredLog O.finds wanted.name wanted.documents
        wanted.terms.sessions wanted.terms.stays (W.contents out.old) (W.contents out.new) }

    // The arguments asked for a server, or nothing was written.
    ensures failed { result ≡ 1
        → ((wanted : WantedServer) × AsksToServe (map (λ s. s.now) args.now) wanted)
        ⊎ (out.new ≡ out.old) }

    ensures refused { result ≡ 2 → (wanted : WantedServer)
        → AsksToServe (map (λ s. s.now) args.now) wanted → ⊥ }
    ensures untouched { result ≡ 2 → out.new ≡ out.old }
{
    match parse_serve(alloc, args) {
        Ok(asked) => listen_and_serve(host, rt, &asked, files.open(asked.file), out),
        Err(ArgsFault::Refused) => 2,
        Err(ArgsFault::Memory) => {
            let _ = rt.eprintln(NO_MEMORY);
            1
        }
    }
}
