//! The requests of a client.
use crate::name::Name;
use doc_api::{Look, State, Steps};
use lamport_id::Id;
use op_core::{Front, Mutation, Operation};

/// Where a cursor expression starts.
#[derive(Drop)]
pub enum Start {
    /// The document itself.
    Document,
    /// The cursor to which this name is bound. A name that was read has at most 128 bytes.
    Variable(Name),
}

/// A cursor expression: where it starts, and the steps from there.
#[derive(Drop)]
pub struct CursorExpr {
    /// Where it starts.
    pub start: Start,
    /// The steps from there, in order.
    pub steps: Steps,
}

/// A request on a document.
#[derive(Drop)]
pub enum DocRequest {
    /// A seat at the document.
    Open,
    /// A query of the document as a whole.
    State(State),
    /// A local change at a cursor.
    Change(CursorExpr, Mutation),
    /// A query at a cursor.
    Look(CursorExpr, Look),
    /// Bind a name to a cursor. A name that was read has at most 128 bytes.
    Let(Name, CursorExpr),
    /// Deliver an operation of another replica.
    Deliver(Operation),
    /// The first so many of the logged operations that the front doesn't cover: 1 to
    /// 64 in a request that was read.
    Operations(Front, u64),
    /// For each pair of the second front a digest of its replica's operations, behind what the first
    /// front has of the replica. Both ascend in a request that was read.
    Chains(Front, Front),
    /// Whether the stored log has an operation.
    IsCopied(Id),
    /// Drop a held operation.
    Forget(Id),
}

/// A request.
#[derive(Drop)]
pub enum Request {
    /// The session's end.
    Quit,
    /// The number of the forms of requests and replies.
    Version,
    /// A request on the document of this name.
    Of(Name, DocRequest),
}
