//! The draining of the held operations.
ghost use Rattle.std.specs.Prelude.{◌≡◌, ℕ, suc, List, ◌+◌, ◌≤◌, MatchBool, OnErr, IfOk, IfErr};
ghost use Rattle.op_core.specs.Limits.{most_held};
ghost use Rattle.crdt_rules.specs.Fits.{Fits};
ghost use Rattle.doc_rules.specs.Replica.{Drains};
ghost use Rattle.replica_core.specs.Whole.{replica_with, with_logged};

use crate::body::Body;
use crate::outcome::Applied;
use json_scalar::Refusal;
use op_core::Operation;

// How many held operations were logged, and how many were dropped.
#[derive(Drop)]
struct Drained {
    logged: usize,
    dropped: usize,
}

impl Body {
    /// Logs an operation that fits, and then the held ones that it releases. The only error is out
    /// of memory, which changes nothing.
    pub fn log_and_drain(&mut self, op: Operation) -> Result<Applied, Refusal>
        requires { Fits op self.old.log }
        ensures ok { (name : List ℕ)
            → IfOk result (λ a. (n : ℕ) × (a.count ≡ suc n) × (a.id ≡ op.id)
            × Drains (replica_with name (with_logged op self.old)) n a.dropped (replica_with name self.new)) }
        ensures err { IfErr result (λ e. e ≡ Refusal.NoMemory) }
        ensures same { OnErr result (self.new ≡ self.old) }
    {
        let id = op.id();
        self.append(op)?;
        let drained = self.drain();
        Ok(Applied {
            count: drained.logged as u64 + 1,
            dropped: drained.dropped as u64,
            id,
        })
    }

    // Takes the ready operations out of the buffer, the least id first, until none is ready. Each
    // is logged if it fits and there is memory, and dropped otherwise.
    fn drain(&mut self) -> Drained
        ensures drained { (name : List ℕ)
            → Drains (replica_with name self.old) result.logged result.dropped (replica_with name self.new) }
        ensures few { result.logged + result.dropped ≤ most_held }
    {
        let mut logged = 0;
        let mut dropped = 0;
        for _ in 0..self.held().len() {
            let Some(id) = self.next_ready() else {
                break;
            };
            if let Some(op) = self.remove(id) {
                if self.release(op) {
                    logged += 1;
                } else {
                    dropped += 1;
                }
            }
        }
        Drained { logged, dropped }
    }

    // Logs an operation if it fits and there is memory, and returns whether it did.
    fn release(&mut self, op: Operation) -> bool
        ensures { MatchBool result (Fits op self.old.log
            × (self.new ≡ with_logged op self.old)) (self.new ≡ self.old) }
    {
        match self.log().check(&op) {
            Ok(()) => self.append(op).is_ok(),
            Err(_) => false,
        }
    }
}
