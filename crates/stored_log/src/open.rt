//! The port's other end: what opens a stored log by its name.
ghost use Rattle.std.specs.Prelude.{◌≡◌, false, IfOk};
ghost use Rattle.stored_log.specs.Log.{HasSame, LogState};

use crate::Fault;
use crate::port::StoredLog;

/// Where stored logs have names, as files have paths.
pub trait OpenLog {
    type Opened: StoredLog;

    // What was opened found this, as the last one left it.
    ghost finds: { Self.Opened → LogState → Type 0 };

    /// Opens the stored log of this name, or makes it. Where that fails it reports why to who runs
    /// the program, as on standard error: `Refused` where what is there is no stored log.
    fn open(&self, name: &str) -> Result<Self::Opened, Fault>
        ensures works { IfOk result (λ it. (Self.Opened.log it).has_failed ≡ false) }
        // It has what it found, and a crash leaves just that.
        ensures found { IfOk result (λ it. finds it (Self.Opened.log it)) }
        ensures stays { IfOk result
            (λ it. Self.Opened.survives it (HasSame (Self.Opened.log it))) };
}
