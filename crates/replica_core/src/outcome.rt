//! The answers of a replica's changes.
use doc_api::Ids;
use lamport_id::Id;

/// An operation was logged.
#[derive(Clone, Copy, Debug)]
pub struct Applied {
    /// How many operations were logged: it, and those that it released.
    pub count: u64,
    /// How many that it released were dropped.
    pub dropped: u64,
    /// Its id.
    pub id: Id,
}

/// What became of an operation that was delivered.
#[derive(Debug, Drop)]
pub enum Delivered {
    /// It was logged.
    Applied(Applied),
    /// It was logged before.
    Known,
    /// It is held, until these ids are logged.
    Held(Ids),
}
