//! Arguments as plain records.
ghost use Rattle.std.specs.Prelude.{◌≡◌, ◌≢◌, ℕ, Bool, false, true, codes, map, IfOk, IfErr};
ghost use Rattle.std.specs.Prelude.{MatchOption, OnOk, option_map, unwrap_or};
ghost use Rattle.clap.specs.Words.{first_of, found_of, kind_of, matches_of, rows_of};
ghost use Rattle.run_core.specs.Names.{Wanted, is_good};
ghost use Rattle.command_line.specs.CommandLine.{AsksToCheck, AsksToRun, AsksToServe, NamesServer};
ghost use Rattle.command_line.specs.CommandLine.{IsSeconds, SaysCount, SaysPace, SaysTerms};
ghost use Rattle.command_line.specs.CommandLine.{WantedServer, asked_of, check_command, is_check};
ghost use Rattle.command_line.specs.CommandLine.{is_run, is_serve};
ghost use Rattle.command_line.specs.CommandLine.{run_of, serve_command, server_of, argument_of};

use crate::args::{ArgsFault, CheckArgs, RunArgs, ServeArgs, Terms};
use crate::first_word::{is_check, is_run, is_serve};
use crate::matches::{
    DEFAULT_BACKLOG, DEFAULT_DRAIN, DEFAULT_NAME, DEFAULT_PATIENCE, argument_of, check_matches,
    run_matches, serve_matches,
};
use crate::numbers::{Count, backlog_of, counted_of, is_given, pace_of, seconds_of};
use clap::error::ErrorKind;
use clap::{ArgMatches, Error};
use run_core::is_good;
use server_core::Pace;
use std::alloc::Global;

// The fault of arguments that clap doesn't take.
fn clap_fault(error: &Error) -> ArgsFault
    ensures { result ≡ ArgsFault.Refused → kind_of error.now ≢ ErrorKind.OutOfMemory }
{
    if error.kind() == ErrorKind::OutOfMemory {
        ArgsFault::Memory
    } else {
        ArgsFault::Refused
    }
}

// A list of the same texts.
fn list_of<'a>(alloc: Global, texts: &[&'a str]) -> Result<Vec<&'a str>, ArgsFault>
    ensures same { IfOk result (λ list. list.items ≡ texts.now) }
    ensures memory { IfErr result (λ fault. fault ≡ ArgsFault.Memory) }
{
    match Vec::from_slice(alloc, texts) {
        Ok(list) => Ok(list),
        Err(_) => Err(ArgsFault::Memory),
    }
}

// What clap's matches of a `run` ask for. It is refused where a name is bad or there are too many
// documents.
fn run_args<'a>(alloc: Global, matches: &ArgMatches<'a>) -> Result<RunArgs<'a>, ArgsFault>
    ensures asked { IfOk result (λ it. run_of it ≡ asked_of matches.now) }
    ensures good { IfOk result (λ it. is_good (run_of it).name (run_of it).documents ≡ true) }
    ensures refused { result ≡ Err ArgsFault.Refused
        → is_good (asked_of matches.now).name (asked_of matches.now).documents ≡ false }
{
    let name = matches.get_str("name").unwrap_or(DEFAULT_NAME);
    let documents = matches.get_strs("doc").unwrap_or(&[]);
    if !is_good(name, documents) {
        return Err(ArgsFault::Refused);
    }
    let documents = list_of(alloc, documents)?;
    Ok(RunArgs { name, documents })
}

/// What the arguments ask `run` for: `run [--name NAME] DOC..`.
pub fn parse_run<'a>(alloc: Global, args: &'a [&'a str]) -> Result<RunArgs<'a>, ArgsFault>
    ensures asked { IfOk result (λ it. AsksToRun (map (λ s. s.now) args.entry.now) (run_of it)) }
    ensures refused { result ≡ Err ArgsFault.Refused
        → (wanted : Wanted) → AsksToRun (map (λ s. s.now) args.entry.now) wanted → ⊥ }
    ensures first_word { is_run (map (λ s. s.now) args.entry.now) ≡ false
        → result ≡ Err ArgsFault.Refused }
{
    if !is_run(args) {
        return Err(ArgsFault::Refused);
    }
    match run_matches(alloc, args) {
        Ok(matches) => run_args(alloc, &matches),
        Err(error) => Err(clap_fault(&error)),
    }
}

// When replies to changes go out, where the number of operations is 1 to 100,000.
fn pace_in(matches: &ArgMatches<'_>) -> Option<Pace>
    ensures { MatchOption result ((pace : Pace) → SaysPace (rows_of (found_of matches.now)) pace
        → ⊥)
        (SaysPace (rows_of (found_of matches.now))) }
{
    match backlog_of(matches.get_str("backlog").unwrap_or(DEFAULT_BACKLOG)) {
        Some(backlog) => Some(pace_of(argument_of(matches, "durable"), backlog)),
        None => None,
    }
}

// How many sessions there are, where one of the two options says it.
fn count_in(matches: &ArgMatches<'_>) -> Option<Count>
    ensures { MatchOption result
        ((n : ℕ) → (b : Bool) → SaysCount (first_of (codes "sessions") (rows_of (found_of matches.now)))
        (first_of (codes "clients") (rows_of (found_of matches.now))) n b → ⊥)
        (λ count. SaysCount (first_of (codes "sessions") (rows_of (found_of matches.now)))
        (first_of (codes "clients") (rows_of (found_of matches.now))) count.sessions count.stays) }
{
    counted_of(matches.get_str("sessions"), matches.get_str("clients"))
}

// The seconds of an option, where they are 1 to 3,600.
fn seconds_in(matches: &ArgMatches<'_>, id: &str, default: &str) -> Option<u16>
    ensures { MatchOption result
        ((n : ℕ) → IsSeconds (unwrap_or (first_of id.now (rows_of (found_of matches.now))) default.now) n → ⊥)
        (IsSeconds (unwrap_or (first_of id.now (rows_of (found_of matches.now))) default.now)) }
{
    seconds_of(matches.get_str(id).unwrap_or(default))
}

// On which terms there are sessions, where their numbers are good.
fn terms_in(matches: &ArgMatches<'_>) -> Option<Terms>
    ensures { MatchOption result ((terms : Terms) → SaysTerms (rows_of (found_of matches.now)) terms → ⊥)
        (SaysTerms (rows_of (found_of matches.now))) }
{
    let Some(Count { sessions, stays }) = count_in(matches) else {
        return None;
    };
    let Some(patience) = seconds_in(matches, "patience", DEFAULT_PATIENCE) else {
        return None;
    };
    let Some(drain) = seconds_in(matches, "drain", DEFAULT_DRAIN) else {
        return None;
    };
    Some(Terms {
        sessions,
        stays,
        patience,
        until_input_ends: is_given(argument_of(matches, "until-input-ends")),
        drain,
    })
}

// Where monitors may ask, if anywhere.
fn health_in<'a>(matches: &ArgMatches<'a>) -> Option<&'a str>
    ensures { option_map (λ s. s.now) result
        ≡ first_of (codes "health") (rows_of (found_of matches.now)) }
{
    matches.get_str("health")
}

// What clap's matches of a `serve` ask for. It is refused where a name is bad, there are too many
// documents, or a number isn't one that it may be.
fn serve_args<'a>(alloc: Global, matches: &ArgMatches<'a>) -> Result<ServeArgs<'a>, ArgsFault>
    ensures asked { IfOk result
        (λ it. NamesServer (rows_of (found_of matches.now)) (server_of it)) }
    ensures refused { result ≡ Err ArgsFault.Refused
        → (wanted : WantedServer) → NamesServer (rows_of (found_of matches.now)) wanted → ⊥ }
    ensures file { IfOk result
        (λ it. it.file.now ≡ argument_of (codes "file") (rows_of (found_of matches.now))) }
{
    let terms = match terms_in(matches) {
        Some(terms) => terms,
        None => return Err(ArgsFault::Refused),
    };
    let pace = match pace_in(matches) {
        Some(pace) => pace,
        None => return Err(ArgsFault::Refused),
    };
    let RunArgs { name, documents } = run_args(alloc, matches)?;
    Ok(ServeArgs {
        name,
        documents,
        address: argument_of(matches, "addr"),
        terms,
        pace,
        file: argument_of(matches, "file"),
        health: health_in(matches),
    })
}

/// What the arguments ask `serve` for:
/// `serve --addr A (--sessions N | --clients N) --file F [--name NAME] [--backlog M] [--durable]
/// [--patience S] [--until-input-ends] [--drain S] [--health A] DOC..`.
pub fn parse_serve<'a>(alloc: Global, args: &'a [&'a str]) -> Result<ServeArgs<'a>, ArgsFault>
    ensures asked { IfOk result
        (λ it. AsksToServe (map (λ s. s.now) args.entry.now) (server_of it)) }
    ensures refused { result ≡ Err ArgsFault.Refused
        → (wanted : WantedServer) → AsksToServe (map (λ s. s.now) args.entry.now) wanted → ⊥ }
    ensures first_word { is_serve (map (λ s. s.now) args.entry.now) ≡ false
        → result ≡ Err ArgsFault.Refused }
    ensures file { IfOk result (λ it. it.file.now
        ≡ argument_of (codes "file") (matches_of serve_command (map (λ s. s.now) args.entry.now))) }
{
    if !is_serve(args) {
        return Err(ArgsFault::Refused);
    }
    match serve_matches(alloc, args) {
        Ok(matches) => serve_args(alloc, &matches),
        Err(error) => Err(clap_fault(&error)),
    }
}

/// What the arguments ask `check` for: `check --file F`.
pub fn parse_check<'a>(alloc: Global, args: &'a [&'a str]) -> Result<CheckArgs<'a>, ArgsFault>
    ensures asked { OnOk result (AsksToCheck (map (λ s. s.now) args.entry.now)) }
    ensures refused { result ≡ Err ArgsFault.Refused
        → ¬ AsksToCheck (map (λ s. s.now) args.entry.now) }
    ensures first_word { is_check (map (λ s. s.now) args.entry.now) ≡ false
        → result ≡ Err ArgsFault.Refused }
    ensures file { IfOk result (λ it. it.file.now
        ≡ argument_of (codes "file") (matches_of check_command (map (λ s. s.now) args.entry.now))) }
{
    if !is_check(args) {
        return Err(ArgsFault::Refused);
    }
    match check_matches(alloc, args) {
        Ok(matches) => Ok(CheckArgs {
            file: argument_of(&matches, "file"),
        }),
        Err(error) => Err(clap_fault(&error)),
    }
}
