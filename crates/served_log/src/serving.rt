//! What a server is started with.
use crate::FileState;
use lamport_id::ReplicaName;
use server_core::Pace;

/// What a server is started with: its name, its documents, its sessions, and who looks on.
#[derive(Drop)]
pub struct Serving<'a, C, G> {
    /// The name of the server.
    pub name: &'a str,
    /// The names of its documents.
    pub documents: &'a [&'a str],
    /// When replies to changes go out.
    pub pace: Pace,
    /// How many seats each document has: a session takes one of each that it opens.
    pub seats: u16,
    /// The connections, one for each thread.
    pub connections: Vec<C>,
    /// The hooks of who looks on.
    pub gate: &'a G,
    /// How the stored log is, for as many documents.
    pub file: &'a FileState,
}

// A start that has its epoch.
#[derive(Drop)]
pub(crate) struct Begun<'a, C, G> {
    // The replica that the server is in this epoch.
    pub(crate) replica: ReplicaName,
    pub(crate) serving: Serving<'a, C, G>,
}
