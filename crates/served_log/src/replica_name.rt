//! The replica name of a start: NAME-E, for a new epoch E of the stored log.
ghost use Rattle.std.specs.Prelude.{◌≡◌, ◌⊎◌, ◌≤◌, ◌↔◌, ℕ, true, false, map, IfOk, IfErr, OnOk};
ghost use Rattle.std.specs.Prelude.{Err};
ghost use Rattle.lamport_id.specs.Name.{is_name};
ghost use Rattle.stored_log.specs.Limits.{last_epoch};
ghost use Rattle.stored_log.specs.Log.{KeepsAll};
ghost use Rattle.served_log.specs.Named.{IsRaised, is_known, replica_name};

use lamport_id::ReplicaName;
use std::alloc::Global;
use stored_log::{Fault, StoredLog};

// The replica name of a server of this name in this epoch. `Refused` where that is no name.
fn replica_at(alloc: Global, name: &str, epoch: u64) -> Result<ReplicaName, Fault>
    ensures ok { IfOk result (λ replica. replica ≡ replica_name name.now epoch) }
    ensures err { IfErr result (λ e. (e ≡ Fault.Memory) ⊎ (e ≡ Fault.Refused)) }
    ensures refused { result ≡ Err Fault.Refused → is_name (replica_name name.now epoch) ≡ false }
{
    let Ok(text) = format!(in alloc; "{name}-{epoch}") else {
        return Err(Fault::Memory);
    };
    match ReplicaName::read(text.as_bytes()) {
        Some(replica) => Ok(replica),
        None => Err(Fault::Refused),
    }
}

// Whether the stored log has operations of the replica in one of these documents.
fn is_known<L: StoredLog>(stored: &L, names: &[&str], replica: &ReplicaName) -> Result<bool, Fault>
    ensures ok { IfOk result (λ known. known
        ≡ is_known replica.now (L.log stored.now).docs (map (λ s. s.now) names.now)) }
    ensures failed { result ≡ Err Fault.Store → (L.log stored.now).has_failed ≡ true }
    ensures never_else { IfErr result (λ e. e ≡ Fault.Store) }
{
    for name in names {
        if stored.has_made(name, replica)? {
            return Ok(true);
        }
    }
    Ok(false)
}

/// Starts a new epoch E, which it writes to the stored log, and returns the replica name
/// NAME-E. If one of the documents already has operations of that name (a peer may have forged
/// some), it skips to the next epoch.
///
/// The error is `Refused` where all epochs are given out or NAME-E is no name,
/// `Memory`, or `Store` once the stored log has failed. After an error the rows are as
/// they were; the epoch may be greater.
pub fn next_replica_name<L: StoredLog>(
    alloc: Global,
    stored: &mut L,
    name: &str,
    documents: &[&str],
) -> Result<ReplicaName, Fault>
    ensures raised { IfOk result (λ replica.
        IsRaised name.now (map (λ s. s.now) documents.now) replica (L.log stored.old) (L.log stored.new)) }
    ensures refused { result ≡ Err Fault.Refused
        → (last_epoch ≤ (L.log stored.new).epoch)
        ⊎ (is_name (replica_name name.now (L.log stored.new).epoch) ≡ false) }
    ensures failed { (result ≡ Err Fault.Store) ↔ ((L.log stored.new).has_failed ≡ true) }
    ensures works { OnOk result ((L.log stored.new).has_failed ≡ false) }
    ensures kept { (result ≡ Err Fault.Store)
        ⊎ KeepsAll (L.log stored.old) (L.log stored.new).epoch (L.log stored.new).docs }
    ensures alone { (L.log stored.new).is_alone ≡ (L.log stored.old).is_alone }
    // A crash leaves the rows that were there, under an epoch that is not smaller.
    ensures crash { (L.log stored.old).has_failed ≡ false
        → L.survives stored.new (KeepsAll (L.log stored.old)) }
{
    loop {
        let epoch = stored.epoch_up()?;
        let replica = replica_at(alloc, name, epoch)?;
        let known = is_known(stored, documents, &replica)?;
        if !known {
            return Ok(replica);
        }
    }
}
