//! The way to a device. Only this module calls one, and it lets bytes out only where they may go.
ghost use Rattle.std.specs.Prelude.{◌≡◌, ◌<◌, false, length, is_err, IfOk, OnOk, OnErr, List, []};
ghost use Rattle.std.specs.Io.{WritesAtMost};
ghost use Rattle.std.specs.Io.KnownBytes.{Keeps, WriteAppends};
ghost use Rattle.line_feed.specs.Cut.{LosesLast};
ghost use Rattle.server_core.specs.Pacing.{ArePaid};

use crate::due::Due;
use crate::progress::Progress;
use line_feed::{DeviceFault, Sink};
use share_ledger::Marker;

/// A device that is called from here alone.
#[derive(Drop)]
pub(crate) struct Outlet<W> {
    device: W,
}

impl<W: Sink> Outlet<W> {
    /// The way to this device.
    pub(crate) fn to(device: W) -> Outlet<W>
        ensures { result.device ≡ device }
    {
        Outlet { device }
    }

    /// Has the device take a prefix of the bytes, where all that is due may go out.
    pub(crate) fn send<M: Marker>(
        &mut self,
        _progress: &Progress<M>,
        _dues: &[Due],
        bytes: &[u8],
    ) -> Result<usize, DeviceFault>
        requires paid { ArePaid _progress.now.pace _dues.now }
        requires works { W.has_failed self.old.device ≡ false }
        requires some { 0 < length bytes.now }
        ensures at_least { IfOk result (λ n. 0 < n) }
        ensures bound { WritesAtMost result bytes.now }
        ensures bytes { WriteAppends (W.contents self.old.device) (W.contents self.new.device) result bytes.now }
        ensures failed { W.has_failed self.new.device ≡ is_err result }
    {
        self.device.write_some(bytes)
    }

    /// Has the device write what it has taken.
    pub(crate) fn flush(&mut self) -> Result<(), DeviceFault>
        requires works { W.has_failed self.old.device ≡ false }
        ensures bytes { OnOk result (Keeps (W.contents self.old.device) (W.contents self.new.device)) }
        ensures lost { OnErr result (LosesLast (W.contents self.old.device) (W.contents self.new.device)) }
        ensures empty { OnOk result (W.unflushed self.new.device ≡ []) }
        ensures failed { W.has_failed self.new.device ≡ is_err result }
    {
        self.device.flush()
    }

    /// Whether a call of the device has failed.
    pub(crate) fn failed(&self) -> bool
        ensures { result ≡ W.has_failed self.now.device }
    {
        Sink::failed(&self.device)
    }
}
