//! Replies wait for the file.
ghost use Rattle.std.proofs.Common.{inl, inr, refl};
ghost use Rattle.std.specs.Prelude.{◌≡◌, ◌⊎◌, ◌<◌, ◌||◌, true, false, length, is_err, IfOk, IsTrue};
ghost use Rattle.std.specs.Io.{WritesAtMost};
ghost use Rattle.std.specs.Io.KnownBytes.{WriteAppends};
ghost use Rattle.line_feed.specs.Covered.{StaysCovered};
ghost use Rattle.server_core.specs.Pacing.{ArePaid, Waits};
ghost use Rattle.server_core.specs.declared.progress.Pace.{Pace};

use crate::due::Due;
use crate::dues::{no_dues, pay_all, raise};
use crate::outlet::Outlet;
use crate::progress::{Pace, Progress};
use crate::signal::Signal;
use line_feed::{DeviceFault, Outbox, Sink};
use share_ledger::Marker;
use std::alloc::{AllocError, Global};
use std::sync::Wait;

/// A sink that lets replies out at a pace.
pub trait Settles: Sink {
    /// When the reply to a change may go out.
    ghost pace: { Self → Pace };
}

/// A sink over a device: it writes nothing before the file has what it was told to wait for. Where
/// the file never has it, the sink fails, and its device gets nothing.
#[derive(Drop)]
pub struct Settling<'a, M: Marker, R, W> {
    rt: &'a R,
    signal: &'a Signal,
    progress: &'a Progress<M>,
    // One for each document.
    dues: Vec<Due>,
    outlet: Outlet<W>,
    // It was told to wait for a document that it doesn't have.
    is_shut: bool,
    failed: bool,
}

impl<'a, M: Marker, R: Wait, W: Sink + Drop> Settling<'a, M, R, W> {
    /// A sink over the device, for so many documents. It waits for nothing yet. `AllocError` if
    /// there is no memory for what it will wait for.
    pub fn new(
        alloc: Global,
        rt: &'a R,
        signal: &'a Signal,
        progress: &'a Progress<M>,
        documents: usize,
        device: W,
    ) -> Result<Settling<'a, M, R, W>, AllocError>
        ensures device { IfOk result (λ settling. settling.outlet.device ≡ device) }
        ensures pace { IfOk result (λ settling. settling.progress.now.pace ≡ progress.now.pace) }
        ensures works { IfOk result (λ settling. settling.failed ≡ false) }
    {
        let dues = no_dues(alloc, documents)?;
        Ok(Settling {
            rt,
            signal,
            progress,
            dues,
            outlet: Outlet::to(device),
            is_shut: false,
            failed: false,
        })
    }
}

impl<M: Marker, R: Wait, W: Sink> Settling<'_, M, R, W> {
    // Waits until all that is due may go out. False where some of it never may.
    fn settle(&mut self) -> bool
        ensures shut { IsTrue result → self.new.is_shut ≡ false }
        // Where something may copy later it waits.
        ensures gives_up { result ≡ false
            → (self.new.is_shut ≡ true) ⊎ (self.new.progress.now.pace ≡ Pace.Durable) }
        ensures paid { IsTrue result → ArePaid self.new.progress.now.pace self.new.dues.items }
        ensures stay { StaysCovered (Waits self.old.is_shut self.old.dues.items)
            (Waits self.new.is_shut self.new.dues.items) }
        ensures outlet { self.new.outlet ≡ self.old.outlet }
        ensures failed { self.new.failed ≡ self.old.failed }
    {
        if self.is_shut {
            return false;
        }
        pay_all(
            self.rt,
            self.signal,
            self.progress,
            self.dues.as_mut_slice(),
        )
    }
}

impl<M: Marker, R: Wait, W: Sink> Settles for Settling<'_, M, R, W> {
    ghost pace = { λ s. s.progress.now.pace };
}

impl<W: Settles> Settles for Outbox<W> {
    ghost pace = { λ s. W.pace s.sink };
}

impl<M: Marker, R: Wait, W: Sink> Sink for Settling<'_, M, R, W> {
    ghost contents = { λ s. W.contents s.outlet.device };

    ghost has_failed = { λ s. s.failed || W.has_failed s.outlet.device };

    ghost unflushed = { λ s. W.unflushed s.outlet.device };

    ghost covers = { λ s. Waits s.is_shut s.dues.items };

    ghost covers_none = { λ s document. inr (inl refl) };

    fn owe(&mut self, document: usize, count: u64) {
        if count == 0 {
            return;
        }
        if !raise(self.dues.as_mut_slice(), document, count) {
            self.is_shut = true;
            return;
        }
    }

    fn write_some(&mut self, bytes: &[u8]) -> Result<usize, DeviceFault>
        requires works { (self.old.failed || W.has_failed self.old.outlet.device) ≡ false }
        requires some { 0 < length bytes.now }
        ensures at_least { IfOk result (λ n. 0 < n) }
        ensures bound { WritesAtMost result bytes.now }
        ensures bytes { WriteAppends (W.contents self.old.outlet.device) (W.contents self.new.outlet.device) result bytes.now }
        // The device takes bytes only where all that is waited for is paid by what was read.
        ensures paid { IfOk result (λ _. (self.new.is_shut ≡ false)
            × ArePaid self.new.progress.now.pace self.new.dues.items) }
        ensures covered { StaysCovered (Waits self.old.is_shut self.old.dues.items)
            (Waits self.new.is_shut self.new.dues.items) }
        ensures failed { (self.new.failed || W.has_failed self.new.outlet.device) ≡ is_err result }
    {
        if !self.settle() {
            self.failed = true;
            return Err(DeviceFault);
        }
        self.outlet.send(self.progress, self.dues.as_slice(), bytes)
    }

    fn flush(&mut self) -> Result<(), DeviceFault> {
        self.outlet.flush()
    }

    fn failed(&self) -> bool {
        self.failed || self.outlet.failed()
    }
}
