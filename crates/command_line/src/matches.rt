//! The commands, and what clap finds in the arguments of each.
ghost use Rattle.std.specs.Prelude.{◌≡◌, ◌≢◌, [], false, codes, map, IfOk, IfErr};
ghost use Rattle.clap.specs.Words.{app_of, fault_of, found_of, kind_of, matches_of, new_app, rows_of};
ghost use Rattle.clap.specs.Words.{rule_of, with_rule};
ghost use Rattle.command_line.specs.CommandLine.{check_command, document_rule, flag_rule};
ghost use Rattle.command_line.specs.CommandLine.{option_rule, required_rule, run_command};
ghost use Rattle.command_line.specs.CommandLine.{serve_command, argument_of};

use clap::error::ErrorKind;
use clap::{Arg, ArgAction, ArgMatches, Command, Error};
use std::alloc::{AllocError, Global};

/// By how many operations of a document the file may be behind if nothing is said.
pub(crate) const DEFAULT_BACKLOG: &str = "4096";

/// For how many seconds a client may be silent if nothing is said.
pub(crate) const DEFAULT_PATIENCE: &str = "30";

/// How many seconds sessions have to end if nothing is said.
pub(crate) const DEFAULT_DRAIN: &str = "10";

/// The name of a server that is given none.
pub(crate) const DEFAULT_NAME: &str = "srv";

// A required option.
fn required_option<'a>(alloc: Global, name: &'a str) -> Arg<'a>
    ensures rule { rule_of result ≡ required_rule name.entry.now }
    ensures local { result.global ≡ false }
{
    Arg::new(alloc, name).long(name).required(true)
}

// An option that may be left out.
fn optional<'a>(alloc: Global, name: &'a str) -> Arg<'a>
    ensures rule { rule_of result ≡ option_rule name.entry.now }
    ensures local { result.global ≡ false }
{
    Arg::new(alloc, name).long(name)
}

// An option without a value.
fn flag<'a>(alloc: Global, name: &'a str) -> Arg<'a>
    ensures rule { rule_of result ≡ flag_rule name.entry.now }
    ensures local { result.global ≡ false }
{
    Arg::new(alloc, name).long(name).action(ArgAction::SetTrue)
}

// `DOC..`.
fn documents_argument<'a>(alloc: Global) -> Arg<'a>
    ensures rule { rule_of result ≡ document_rule }
    ensures local { result.global ≡ false }
{
    Arg::new(alloc, "doc")
        .required(true)
        .action(ArgAction::Append)
}

/// What clap finds in the arguments of `run [--name NAME] DOC..`.
pub(crate) fn run_matches<'a>(alloc: Global, args: &'a [&'a str]) -> Result<ArgMatches<'a>, Error>
    ensures taken { IfOk result (λ m. fault_of run_command (map (λ s. s.now) args.entry.now) ≡ []) }
    ensures rows { IfOk result
        (λ m. rows_of (found_of m) ≡ matches_of run_command (map (λ s. s.now) args.entry.now)) }
    ensures refused { IfErr result (λ e. kind_of e ≢ ErrorKind.OutOfMemory
        → fault_of run_command (map (λ s. s.now) args.entry.now) ≢ []) }
{
    let command = Command::new(alloc, "run")
        .arg(optional(alloc, "name"))?
        .arg(documents_argument(alloc))?;
    command.try_get_matches_from(args)
}

// `serve`, with what it must be told and how it has sessions.
fn begun_command<'a>(alloc: Global) -> Result<Command<'a>, AllocError>
    ensures { IfOk result (λ command. app_of command ≡ with_rule (with_rule (with_rule (with_rule (new_app (codes "serve"))
        (required_rule (codes "addr"))) (required_rule (codes "file"))) (option_rule (codes "sessions")))
        (option_rule (codes "clients"))) }
{
    Command::new(alloc, "serve")
        .arg(required_option(alloc, "addr"))?
        .arg(required_option(alloc, "file"))?
        .arg(optional(alloc, "sessions"))?
        .arg(optional(alloc, "clients"))
}

// `serve --addr A (--sessions N | --clients N) --file F [--name NAME] [--backlog M] [--durable]
// [--patience S] [--until-input-ends] [--drain S] [--health A] DOC..`.
fn server_command<'a>(alloc: Global) -> Result<Command<'a>, AllocError>
    ensures { IfOk result (λ command. app_of command ≡ serve_command) }
{
    begun_command(alloc)?
        .arg(optional(alloc, "name"))?
        .arg(optional(alloc, "backlog"))?
        .arg(flag(alloc, "durable"))?
        .arg(optional(alloc, "patience"))?
        .arg(flag(alloc, "until-input-ends"))?
        .arg(optional(alloc, "drain"))?
        .arg(optional(alloc, "health"))?
        .arg(documents_argument(alloc))
}

/// What clap finds in the arguments of `serve --addr A (--sessions N | --clients N) --file F
/// [--name NAME] [--backlog M] [--durable] [--patience S] [--until-input-ends] [--drain S]
/// [--health A] DOC..`.
pub(crate) fn serve_matches<'a>(alloc: Global, args: &'a [&'a str]) -> Result<ArgMatches<'a>, Error>
    ensures taken { IfOk result
        (λ m. fault_of serve_command (map (λ s. s.now) args.entry.now) ≡ []) }
    ensures rows { IfOk result (λ m.
        rows_of (found_of m) ≡ matches_of serve_command (map (λ s. s.now) args.entry.now)) }
    ensures refused { IfErr result (λ e. kind_of e ≢ ErrorKind.OutOfMemory
        → fault_of serve_command (map (λ s. s.now) args.entry.now) ≢ []) }
{
    server_command(alloc)?.try_get_matches_from(args)
}

/// What clap finds in the arguments of `check --file F`.
pub(crate) fn check_matches<'a>(alloc: Global, args: &'a [&'a str]) -> Result<ArgMatches<'a>, Error>
    ensures taken { IfOk result
        (λ m. fault_of check_command (map (λ s. s.now) args.entry.now) ≡ []) }
    ensures rows { IfOk result (λ m.
        rows_of (found_of m) ≡ matches_of check_command (map (λ s. s.now) args.entry.now)) }
    ensures refused { IfErr result (λ e. kind_of e ≢ ErrorKind.OutOfMemory
        → fault_of check_command (map (λ s. s.now) args.entry.now) ≢ []) }
{
    let command = Command::new(alloc, "check").arg(required_option(alloc, "file"))?;
    command.try_get_matches_from(args)
}

/// The text of an argument, none if it was not given.
pub(crate) fn argument_of<'a>(matches: &ArgMatches<'a>, id: &str) -> &'a str
    ensures { result.now ≡ argument_of id.now (rows_of (found_of matches.now)) }
{
    matches.get_str(id).unwrap_or("")
}
