//! A run: one session over two devices.
ghost use Rattle.std.specs.Prelude.{◌≡◌, ◌⊎◌, ◌≤◌, [], false, map};
ghost use Rattle.run_core.specs.Limits.{most_documents};
ghost use Rattle.run_core.specs.Names.{Wanted};
ghost use Rattle.run_core.specs.Served.{ServesAll, ServesUntilFault};
ghost use Rattle.command_line.specs.CommandLine.{AsksToRun, is_run};

use command_line::{ArgsFault, RunArgs, parse_run};
use line_feed::{Sink, Source};
use run_core::{Maker, run_over};
use std::alloc::Global;

/// Why a run ended with status 1: a device failed, or memory ran out before it began.
pub fn run_failure(has_input_failed: bool, has_output_failed: bool) -> &'static str {
    if has_input_failed {
        "jcrdt: standard input failed"
    } else if has_output_failed {
        "jcrdt: standard output failed"
    } else {
        "jcrdt: out of memory before the first line was read"
    }
}

/// Runs the session that the arguments ask for, and returns the program's status.
///
/// It is 0 after a whole session, and 2 if the arguments ask for no session; nothing is read or
/// written then. It is 1 where a device failed, or where memory ran out before anything was read or
/// written.
pub fn run_words<M: Maker, R: Source, W: Sink>(
    alloc: Global,
    maker: &mut M,
    args: &[&str],
    source: &mut R,
    sink: &mut W,
) -> u8
    requires room { most_documents ≤ M.room maker.old }
    requires source_works { R.has_failed source.old ≡ false }
    requires sink_works { W.has_failed sink.old ≡ false }

    ensures status { result ≤ 2 }
    ensures first_word { is_run (map (λ s. s.now) args.now) ≡ false → result ≡ 2 }

    // What was written is a whole transcript, for the name and the documents of the arguments.
    ensures served { result ≡ 0 → (wanted : Wanted) × AsksToRun (map (λ s. s.now) args.now) wanted
        × ServesAll wanted
        (R.remaining source.old) (R.remaining source.new) (W.contents sink.old) (W.contents sink.new) }
    ensures no_fault { result ≡ 0 → (R.has_failed source.new ≡ false)
        × (W.has_failed sink.new ≡ false) }
    ensures flushed { W.unflushed sink.old ≡ [] → result ≡ 0 → W.unflushed sink.new ≡ [] }

    // What was written is a transcript up to a device's fault, or memory ran out before it began.
    ensures failed { result ≡ 1 → ((wanted : Wanted) × AsksToRun (map (λ s. s.now) args.now) wanted
        × ServesUntilFault wanted (R.has_failed source.new) (W.has_failed sink.new)
        (R.remaining source.old) (R.remaining source.new) (W.contents sink.old) (W.contents sink.new))
        ⊎ ((source.new ≡ source.old) × (sink.new ≡ sink.old)) }

    ensures refused { result ≡ 2 → (wanted : Wanted) → AsksToRun (map (λ s. s.now) args.now) wanted
        → ⊥ }
    ensures untouched { result ≡ 2 → (source.new ≡ source.old) × (sink.new ≡ sink.old) }
{
    match parse_run(alloc, args) {
        Ok(RunArgs { name, documents }) => {
            run_over(alloc, maker, name, &documents, source, sink)
        }
        Err(ArgsFault::Refused) => 2,
        Err(ArgsFault::Memory) => 1,
    }
}
