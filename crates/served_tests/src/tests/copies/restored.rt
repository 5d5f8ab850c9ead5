//! Replicas that are restored from a stored log.
use super::samples::operation;
use doc_api::{Place, Steps};
use json_scalar::Refusal;
use lamport_id::ReplicaName;
use op_core::Operation;
use replica_core::{Applied, Replica};
use std::alloc::Global;

// The replica named srv-2 whose log is these entries.
fn restored(alloc: Global, entries: &[Operation]) -> Result<Replica, Refusal> {
    let Some(name) = ReplicaName::read(b"srv-2") else {
        return Err(Refusal::BadRequest);
    };
    match Replica::restore(alloc, name, entries) {
        Ok(replica) => Ok(replica),
        Err(_) => Err(Refusal::NoMemory),
    }
}

/// Whether a replica is restored from these entries.
pub fn is_restored(alloc: Global, entries: &[Operation]) -> bool {
    restored(alloc, entries).is_ok()
}

// Asks for the change that makes an operation, at its cursor.
fn make(alloc: Global, replica: &mut Replica, op: &Operation) -> Result<Applied, Refusal> {
    let start = op.cursor().try_clone()?;
    let mutation = op.mutation().try_clone()?;
    let steps = Steps::from(Vec::new(alloc));
    replica.local(Place { start, steps }, mutation)
}

fn is_last(replica: &Replica, op: &Operation) -> bool {
    match replica.log().as_slice().last() {
        Some(last) => last == op,
        None => false,
    }
}

fn edited(alloc: Global, entries: &[Operation], due: &str) -> Result<bool, Refusal> {
    let op = operation(alloc, due)?;
    let mut replica = restored(alloc, entries)?;
    let Applied { count, dropped, .. } = make(alloc, &mut replica, &op)?;
    Ok(count == 1 && dropped == 0 && is_last(&replica, &op))
}

/// Whether a change by a replica that is restored from these entries makes just this operation.
pub fn is_edited_after(alloc: Global, entries: &[Operation], due: &str) -> bool {
    matches!(edited(alloc, entries, due), Ok(true))
}
