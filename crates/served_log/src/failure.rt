//! Why a server ends with status 1.
ghost use Rattle.std.specs.Prelude.{◌≡◌};
ghost use Rattle.served_log.specs.Unwritten.{IsUnwritten};

use json_scalar::Refusal;
use server_core::Ungathered;
use share_ledger::Marker;
use std::fmt::{Display, Formatter};
use std::io::ErrorKind;
use std::{fmt, io};
use stored_log::{Fault, LAST_EPOCH, StoredFault, StoredLog, reason_of};

/// What was under way.
#[derive(Clone, Copy, Debug, PartialEq, Eq)]
pub enum Step {
    /// A new epoch was started.
    Epoch,
    /// The file's log was folded in.
    Fold,
    /// The documents were restored.
    Restore,
    /// The first session was about to begin.
    Begin,
    /// The totals of sessions were added up.
    Totals,
}

impl Display for Step {
    fn fmt<W: fmt::Write>(&self, f: &mut Formatter<W>) -> fmt::Result {
        let words = match self {
            Step::Epoch => "while a new epoch was started",
            Step::Fold => "while its log was folded in",
            Step::Restore => "while the documents were restored",
            Step::Begin => "before the first session",
            Step::Totals => "while the totals were added up",
        };
        f.write_str(words)
    }
}

/// The one cause for which a server ends with status 1.
#[derive(Debug, Drop)]
pub enum Failure {
    /// All epochs of the file are given out.
    Epochs,
    /// The name with the epoch behind it is no name of a replica.
    Name,
    /// Memory ran out.
    Memory(Step),
    /// The stored log failed.
    Store(Step, StoredFault),
    /// The ids acknowledged to sessions differ from the log.
    Lists,
    /// The totals could not be written.
    Output(io::Error),
    /// The stored log lacks operations that sessions logged.
    Unstored,
    /// Copying stopped while sessions ran.
    Stopped(StoredFault),
    /// The stored log failed while sessions ran, and was opened again. It has all that they logged.
    Recovered(StoredFault),
}

impl Failure {
    // The failure of a call of the stored log that answered this fault.
    fn of_fault<L: StoredLog>(step: Step, fault: Fault, stored: &L) -> Failure {
        match fault {
            Fault::Memory => Failure::Memory(step),
            Fault::Refused | Fault::Store => Failure::Store(step, reason_of(fault, stored)),
        }
    }

    /// Why no new epoch was started.
    pub(crate) fn of_epoch<L: StoredLog>(fault: Fault, stored: &L) -> Failure
        ensures { fault ≡ Fault.Refused → ¬ IsUnwritten result }
    {
        if fault != Fault::Refused {
            return Failure::of_fault(Step::Epoch, fault, stored);
        }
        match stored.epoch() {
            Ok(epoch) if epoch >= u64::from(LAST_EPOCH) => Failure::Epochs,
            _ => Failure::Name,
        }
    }

    /// Why the documents were not restored.
    pub(crate) fn of_restoring<L: StoredLog>(fault: Fault, stored: &L) -> Failure {
        Failure::of_fault(Step::Restore, fault, stored)
    }

    /// Why the totals of sessions were not added up. Where no session has begun there are no ends
    /// of seats.
    pub(crate) fn of_gathering<M: Marker>(left: &Ungathered<M>) -> Failure {
        match left.refusal {
            Refusal::ListsDiffer => Failure::Lists,
            _ => if left.sessions.is_empty() {
                Failure::Memory(Step::Begin)
            } else {
                Failure::Memory(Step::Totals)
            },
        }
    }

    /// Why copying stopped.
    pub(crate) fn of_copying<L: StoredLog>(fault: Fault, stored: &L) -> Failure
        ensures { ¬ IsUnwritten result }
    {
        Failure::Stopped(reason_of(fault, stored))
    }
}

impl Display for Failure {
    fn fmt<W: fmt::Write>(&self, f: &mut Formatter<W>) -> fmt::Result {
        match self {
            Failure::Epochs => write!(f, "all {LAST_EPOCH} epochs of the file are given out"),
            Failure::Name => f.write_str("the name with its epoch is too long"),
            Failure::Memory(step) => write!(f, "out of memory {step}"),
            Failure::Store(step, why) => write!(f, "the file failed {step}: {why}"),
            Failure::Lists => f.write_str("what the sessions were told differs from the log"),
            Failure::Output(error) => fmt_output(error, f),
            Failure::Unstored => f.write_str("not all operations were stored"),
            Failure::Stopped(why) => write!(f, "copying stopped while sessions ran: {why}"),
            Failure::Recovered(why) => write!(
                f,
                "the file failed while sessions ran: {why}; all is in it now"
            ),
        }
    }
}

// Why the totals could not be written, as a message.
fn fmt_output<W: fmt::Write>(error: &io::Error, f: &mut Formatter<W>) -> fmt::Result {
    match error.kind() {
        ErrorKind::OutOfMemory => f.write_str("out of memory while the totals were written"),
        _ => write!(f, "standard output failed: {error}"),
    }
}
