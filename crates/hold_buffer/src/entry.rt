//! Under which keys the operations are held, and what they wait for.
use crate::missing::Missing;
use lamport_id::Id;

/// The key under which the operation of an id is held, and the ids that it still waits for: those
/// of its front that are not logged.
#[derive(Debug, Drop)]
pub struct Entry {
    pub id: Id,
    pub key: usize,
    pub missing: Missing,
}
