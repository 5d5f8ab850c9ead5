//! The port: what a server needs of the store of its operations.
ghost use Rattle.std.specs.Prelude.{◌≡◌, ◌≢◌, ◌⊎◌, ◌+◌, ◌≤◌, ◌↔◌, ℕ, List, [], length, true, false};
ghost use Rattle.std.specs.Prelude.{IfOk, IfErr, OnOk, OnErr, Err, Ok, map, string_bytes};
ghost use Rattle.std.specs.List.{list_any};
ghost use Rattle.op_core.specs.Op.{Op};
ghost use Rattle.crdt_rules.specs.Pull.{front_of};
ghost use Rattle.stored_log.specs.Docs.{AreGood, AreInOrder, AreSound, Doc, IsBatch, add_batch, is_by};
ghost use Rattle.stored_log.specs.Docs.{log_of};
ghost use Rattle.stored_log.specs.Limits.{last_epoch};
ghost use Rattle.stored_log.specs.Log.{HasBatchAgain, HasSame, IsAddedOrNot, IsRaisedOrNot, KeepsAll};
ghost use Rattle.stored_log.specs.Log.{LeavesOne, LogState, ShowsBatchOrNot};

use crate::Fault;
use crate::stored_fault::StoredFault;
use lamport_id::ReplicaName;
use op_core::{Front, Operation};
use op_log::OpLog;
use std::alloc::Global;

/// A stored log: the number of the last start (the epoch), and the operations of documents, by
/// name. After a fault of its store each call answers `Store`, until it is opened again.
pub trait StoredLog: Drop {
    /// What is left of it once it is closed: the store alone, to be opened again.
    type Left: Drop;

    ghost log: { Self → LogState };

    // The premise of all that is said of crashes, as that its disk returns what was written.
    ghost is_sure: { Self → Type 0 };

    // Whatever a crash leaves of it now is such an epoch and such documents.
    ghost survives: { Self → (ℕ → List Doc → Type 0) → Type 0 };

    // Between the two, the file alone held the epoch and the documents of the
    // first alone, without a log of commits beside it.
    ghost was_alone: { Self → Self → Type 0 };

    // The store that is left holds the epoch and the documents alone.
    ghost is_in_file: { Self → Self.Left → Type 0 };

    // The store that is left holds what was last stored, also after a
    // fault and beside further content.
    ghost has_moved: { Self → Self.Left → Type 0 };

    // Whatever a crash leaves of the store that is left is the epoch and the documents.
    ghost is_in_store: { Self → Self.Left → Type 0 };

    // The premise of what is said of the store that is left, as `is_sure`.
    ghost is_left_sure: { Self.Left → Type 0 };

    // Whatever a crash leaves of the store that is left is such an epoch and such documents.
    ghost left_survives: { Self.Left → (ℕ → List Doc → Type 0) → Type 0 };

    /// Why it failed, if it has failed and the reason is known. No clause speaks of it.
    fn cause(&self) -> Option<StoredFault>;

    /// The last epoch that was given out, 0 if none was.
    fn epoch(&self) -> Result<u64, Fault>
        ensures failed { (result ≡ Err Fault.Store) ↔ ((log self.now).has_failed ≡ true) }
        ensures only { (result ≡ Err Fault.Store) ⊎ (result ≡ Ok (log self.now).epoch) }
        // The documents have different names, in their order, and each has a valid log.
        ensures in_order { AreInOrder (log self.now).docs }
        ensures good { AreGood (log self.now).docs }
        // Laws of crashes: one leaves something, and what it leaves has one epoch.
        ensures some { is_sure self.now → survives self.now (λ _ _. ⊥) → ⊥ }
        ensures one { (it other : LogState) → is_sure self.now → survives self.now (HasSame it)
            → survives self.now (HasSame other) → it.epoch ≡ other.epoch }
        // It has one list of documents, too, and until a fault that is what the log has.
        ensures one_docs { (it other : LogState) → is_sure self.now → survives self.now (HasSame it)
            → survives self.now (HasSame other) → AreSound it.docs → AreSound other.docs
            → it.docs ≡ other.docs }
        ensures stays { (log self.now).has_failed ≡ false
            → survives self.now (HasSame (log self.now)) };

    /// Stores and answers one more than the stored epoch. It is refused from 9,999,999 on.
    fn epoch_up(&mut self) -> Result<u64, Fault>
        ensures ok { IfOk result (λ n. (n ≡ (log self.old).epoch + 1) × ((log self.new).epoch ≡ n)
            × ((log self.new).docs ≡ (log self.old).docs) × ((log self.new).has_failed ≡ false)) }
        ensures alone { (log self.new).is_alone ≡ (log self.old).is_alone }
        ensures refused { (result ≡ Err Fault.Refused) ↔ (((log self.old).has_failed ≡ false)
            × (last_epoch ≤ (log self.old).epoch)) }
        ensures never_else { IfErr result (λ e. (e ≡ Fault.Refused) ⊎ (e ≡ Fault.Store)) }
        ensures unchanged { result ≡ Err Fault.Refused → self.new ≡ self.old }
        ensures failed { (result ≡ Err Fault.Store) ↔ ((log self.new).has_failed ≡ true) }
        ensures shut { (log self.old).has_failed ≡ true → (result ≡ Err Fault.Store)
            × (self.new ≡ self.old) }
        // A crash leaves all as it was, or the new epoch; and the new one once it was answered.
        ensures crash { (log self.old).has_failed ≡ false
            → survives self.new (IsRaisedOrNot (log self.old)) }
        ensures stays { OnOk result (survives self.new (HasSame (log self.new))) };

    /// How many entries of the document of this name are stored.
    fn rows(&self, doc: &str) -> Result<usize, Fault>
        ensures ok { IfOk result (λ rows. rows ≡ length (log_of doc.now (log self.now).docs)) }
        ensures failed { (result ≡ Err Fault.Store) ↔ ((log self.now).has_failed ≡ true) }
        ensures never_else { IfErr result (λ e. e ≡ Fault.Store) };

    /// Whether the replica has made one of the entries of the document of this name.
    fn has_made(&self, doc: &str, replica: &ReplicaName) -> Result<bool, Fault>
        ensures ok { IfOk result
            (λ made. made ≡ list_any (is_by replica.now) (log_of doc.now (log self.now).docs)) }
        ensures failed { (result ≡ Err Fault.Store) ↔ ((log self.now).has_failed ≡ true) }
        ensures never_else { IfErr result (λ e. e ≡ Fault.Store) };

    /// The front (a version vector) of the entries of the document of this name.
    fn front(&self, doc: &str) -> Result<Front, Fault>
        ensures ok { IfOk result (λ front. front ≡ front_of (log_of doc.now (log self.now).docs)) }
        ensures failed { (result ≡ Err Fault.Store) ↔ ((log self.now).has_failed ≡ true) }
        ensures never_refused { IfErr result (λ e. (e ≡ Fault.Store) ⊎ (e ≡ Fault.Memory)) };

    /// The names of the documents with entries, in their order.
    fn names(&self, alloc: Global) -> Result<Vec<String>, Fault>
        ensures ok { IfOk result
            (λ names. map string_bytes names.items ≡ map (λ d. d.name) (log self.now).docs) }
        ensures failed { (result ≡ Err Fault.Store) ↔ ((log self.now).has_failed ≡ true) }
        ensures never_refused { IfErr result (λ e. (e ≡ Fault.Store) ⊎ (e ≡ Fault.Memory)) };

    /// The log of the document, as a clone; empty where no entry of it is
    /// stored. No entry is checked again.
    fn load(&self, alloc: Global, doc: &str) -> Result<OpLog, Fault>
        ensures ok { IfOk result
            (λ loaded. loaded.operations ≡ log_of doc.now (log self.now).docs) }
        ensures failed { (result ≡ Err Fault.Store) ↔ ((log self.now).has_failed ≡ true) }
        ensures never_refused { IfErr result (λ e. (e ≡ Fault.Store) ⊎ (e ≡ Fault.Memory)) };

    /// Adds a batch: the entries behind the `from` entries of the document, all of them or none. It
    /// is refused where no document has such a name, where there are more than 256 entries, where
    /// the document has more or fewer entries than `from`, and where an entry doesn't fit those
    /// before it.
    fn append(&mut self, doc: &str, from: usize, entries: &[Operation]) -> Result<(), Fault>
        ensures ok { OnOk result (((log self.new).docs ≡ add_batch doc.now entries.now (log self.old).docs)
            × ((log self.new).epoch ≡ (log self.old).epoch) × ((log self.new).has_failed ≡ false)) }
        ensures batch { OnOk result (IsBatch doc.now from entries.now (log self.old).docs) }
        ensures empty { entries.now ≡ [] → self.new ≡ self.old }
        ensures alone { (log self.new).is_alone ≡ (log self.old).is_alone }
        ensures refused { result ≡ Err Fault.Refused
            → ¬ IsBatch doc.now from entries.now (log self.old).docs }
        ensures unchanged { (result ≡ Err Fault.Refused) ⊎ (result ≡ Err Fault.Memory)
            → self.new ≡ self.old }
        ensures failed { (result ≡ Err Fault.Store) ↔ ((log self.new).has_failed ≡ true) }
        ensures shut { (log self.old).has_failed ≡ true → (result ≡ Err Fault.Store)
            × (self.new ≡ self.old) }
        // A crash leaves all as it was, or the whole batch; and the batch once it was answered.
        ensures crash { (log self.old).has_failed ≡ false
            → survives self.new (IsAddedOrNot doc.now entries.now (log self.old)) }
        ensures stays { OnOk result (survives self.new (HasSame (log self.new))) }
        // It keeps its epoch and its documents when it fails, perhaps with the batch.
        ensures shows { result ≡ Err Fault.Store → (log self.old).has_failed ≡ false
            → ShowsBatchOrNot doc.now from entries.now (log self.old) (log self.new) };

    /// After a batch that failed, which was of these entries behind the `from` entries of the
    /// document: opens the store again, under the lock that is held all along, and adds the batch
    /// if it isn't there. `Refused` where the store has something else than the epoch and the
    /// entries that were stored before: it is never to be used again. Any other error: it may be
    /// opened later.
    fn resume(&mut self, doc: &str, from: usize, entries: &[Operation]) -> Result<(), Fault>
        requires failed { (log self.old).has_failed ≡ true }
        ensures ok { OnOk result
            (HasBatchAgain doc.now from entries.now (log self.old) (log self.new)) }
        ensures alone { (log self.new).is_alone ≡ (log self.old).is_alone }
        ensures stays { OnOk result (survives self.new (HasSame (log self.new))) }
        ensures unchanged { OnErr result (log self.new ≡ log self.old) };

    /// Moves all that is stored to the file alone, and goes on from there. A fault
    /// leaves the store.
    fn fold(self) -> Result<Self, (StoredFault, Self::Left)>
        ensures same { IfOk result (λ it. log it ≡ log self) }
        ensures folded { IfOk result (λ it. (log self).has_failed ≡ false → was_alone self it) }
        // Nothing is lost.
        ensures left { IfErr result (λ e. (log self).has_failed ≡ false → is_in_store self e.1) }
        ensures sure { IfErr result (λ e. is_left_sure e.1 → LeavesOne (left_survives e.1)) };

    /// Moves all that is stored to the file alone, and leaves the store; after a
    /// fault too.
    fn close(self) -> Result<Self::Left, (StoredFault, Self::Left)>
        ensures folded { IfOk result
            (λ last. (log self).has_failed ≡ false → is_in_file self last) }
        ensures copied { IfOk result (has_moved self) }
        // Nothing is lost.
        ensures left { IfErr result (λ e. (log self).has_failed ≡ false → is_in_store self e.1) }
        // A crash leaves something of the store, of one epoch and with one list of documents.
        ensures one { IfOk result (λ last. is_left_sure last → LeavesOne (left_survives last)) }
        ensures sure { IfErr result (λ e. is_left_sure e.1 → LeavesOne (left_survives e.1)) };

    // What a crash leaves behind a new epoch keeps what was kept before it.
    ghost still_keeps: { (it : Self) (first last : LogState) → KeepsAll first last.epoch last.docs
        → survives it (IsRaisedOrNot last) → survives it (KeepsAll first) };

    // What the file alone holds a crash leaves.
    ghost is_left: { (it : Self) (last : Self.Left) → is_in_file it last → is_in_store it last };

    // What the store holds that is left a crash leaves of it.
    ghost is_kept: { (it : Self) (last : Self.Left) → is_in_store it last
        → (log it).is_alone ≡ true → left_survives last (HasSame (log it)) };

    // Where nothing failed, the store to which it has moved holds what the log has.
    ghost has_all: { (it : Self) (last : Self.Left) → has_moved it last
        → (log it).has_failed ≡ false → is_in_store it last };

    // After a fault, too, a crash leaves of that store what one left of the log: what it
    // had, or a new epoch, or a batch, which may have failed.
    ghost moved_same: { (it : Self) (last : Self.Left) (kept : LogState) → has_moved it last
        → (log it).is_alone ≡ true → survives it (HasSame kept) → left_survives last (HasSame kept) };

    ghost moved_epoch: { (it : Self) (last : Self.Left) (old : LogState) → has_moved it last
        → (log it).is_alone ≡ true → survives it (IsRaisedOrNot old)
        → left_survives last (IsRaisedOrNot old) };

    ghost moved_batch: { (it : Self) (last : Self.Left) (name : List ℕ) (ops : List Op) (old : LogState)
        → has_moved it last → (log it).is_alone ≡ true → survives it (IsAddedOrNot name ops old)
        → left_survives last (IsAddedOrNot name ops old) };

    // A log whose file was alone has what it had before, and in between there was a store as
    // `close` leaves it.
    ghost still_same: { (old new : Self) → was_alone old new → log new ≡ log old };

    ghost was_left: { (old new : Self) → was_alone old new → is_sure new
        → (last : Self.Left) × is_in_file old last × has_moved old last };
}
