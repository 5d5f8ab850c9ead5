//! Reporting what a stored log holds.
ghost use Rattle.std.specs.Prelude.{◌≡◌, ◌⊎◌, ◌≤◌, map, false};
ghost use Rattle.stored_log.specs.Report.{Reports, StopsShort};
ghost use Rattle.command_line.specs.CommandLine.{AsksToCheck, is_check};

use command_line::{ArgsFault, NO_MEMORY, parse_check};
use line_feed::Sink;
use std::alloc::Global;
use std::rt::HostRuntime;
use stored_log::{CheckFailure, Fault, OpenLog, StoredLog, check_opened};

// Reports on standard error why there is no report, unless the stored log could not be opened,
// which is reported already. An error there changes nothing.
fn report_failure(rt: &HostRuntime, why: CheckFailure) {
    let _ = match why {
        CheckFailure::Unopened => Ok(()),
        CheckFailure::Memory => rt.eprintln("jcrdt: out of memory while the report was written"),
        CheckFailure::Output => rt.eprintln("jcrdt: standard output failed"),
        CheckFailure::Unclosed(cause) => {
            rt.eprintln(format_args!("jcrdt: the file failed while it was closed: {cause}"))
        }
    };
}

// Reports what the stored log holds, as `check_opened`. Standard error says why the status is 1.
fn report_opened<L: StoredLog, W: Sink>(
    rt: &HostRuntime,
    alloc: Global,
    opened: Result<L, Fault>,
    sink: &mut W,
) -> u8
    requires { W.has_failed sink.old ≡ false }
    ensures status { (result ≡ 0) ⊎ (result ≡ 1) }
    ensures reported { result ≡ 0 → Reports (W.contents sink.old) (W.contents sink.new) }
    ensures stopped { result ≡ 1 → StopsShort (W.contents sink.old) (W.contents sink.new)
        ⊎ (sink.new ≡ sink.old) }
{
    match check_opened(alloc, opened, sink) {
        Ok(()) => 0,
        Err(why) => {
            report_failure(rt, why);
            1
        }
    }
}

/// Reports what the stored log of the arguments holds, which it opens and closes, and returns the
/// program's status.
///
/// It is 0 after a whole report, and 2 if the arguments ask for no check; nothing is written then.
/// It is 1 where the file can't be opened or holds no stored log, where the sink fails, or where
/// memory runs out. Standard error says why it is 1. No clause can say that the report is of the
/// file of the arguments.
pub fn parse_and_check<O: OpenLog, W: Sink>(
    rt: &HostRuntime,
    alloc: Global,
    args: &[&str],
    files: &O,
    sink: &mut W,
) -> u8
    requires { W.has_failed sink.old ≡ false }

    ensures status { result ≤ 2 }
    ensures first_word { is_check (map (λ s. s.now) args.now) ≡ false → result ≡ 2 }

    // What was written is a report of some stored log.
    ensures reported { result ≡ 0
        → AsksToCheck (map (λ s. s.now) args.now)
        × Reports (W.contents sink.old) (W.contents sink.new) }

    // What was written is the refusal of a stored log, a part of it or of a report, or nothing.
    ensures failed { result ≡ 1 → StopsShort (W.contents sink.old) (W.contents sink.new)
        ⊎ (sink.new ≡ sink.old) }

    ensures refused { result ≡ 2 → ¬ AsksToCheck (map (λ s. s.now) args.now) }
    ensures untouched { result ≡ 2 → sink.new ≡ sink.old }
{
    match parse_check(alloc, args) {
        Ok(asked) => report_opened(rt, alloc, files.open(asked.file), sink),
        Err(ArgsFault::Refused) => 2,
        Err(ArgsFault::Memory) => {
            // An error of standard error changes nothing.
            let _ = rt.eprintln(NO_MEMORY);
            1
        }
    }
}
