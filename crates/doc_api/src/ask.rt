//! Commands and queries.
use crate::place::Place;
use lamport_id::Id;
use op_core::{Front, Mutation, Operation};

/// What changes a document.
#[derive(Debug, Drop)]
pub enum Command {
    /// A change of one's own at a place.
    Change(Place, Mutation),
    /// An operation that was made elsewhere is delivered.
    Deliver(Operation),
    /// A held operation is dropped.
    Forget(Id),
}

/// What is read at a place.
#[derive(Clone, Copy, Debug, PartialEq, Eq)]
pub enum Look {
    /// The names of the present members of the map.
    Keys,
    /// The scalars of the register.
    Values,
    /// The present elements of the list, each with the scalars of its register.
    Items,
    /// The present values, each with the id of the operation that put it.
    Conflicts,
    /// All that is there and below, as JSON text.
    Show,
    /// The sum of the counter.
    Sum,
}

/// What is read of a document as a whole.
#[derive(Clone, Copy, Debug, PartialEq, Eq)]
pub enum State {
    /// The front (a version vector) of the whole log.
    Front,
    /// The held operations, and what each waits for.
    Held,
    /// How many of the logged operations are the asking seat's.
    Account,
    /// How many operations are logged, how many of them the stored log has, and of how many
    /// replicas they are.
    Size,
}

/// What a document knows of its log, and its replica doesn't.
#[derive(Clone, Copy, Debug, PartialEq, Eq)]
pub struct Counts {
    /// How many of the logged operations are the asking seat's.
    pub mine: u64,
    /// How many of the logged operations, the first ones, the stored log has.
    pub copied: u64,
}

/// What a document is asked, with nothing changed.
#[derive(Debug, Drop)]
pub enum Query {
    /// Where the steps lead.
    Resolve(Place),
    /// How many present elements come up to the one at the place.
    Index(Place),
    /// What is at the place.
    Look(Look, Place),
    /// The first so many of the logged operations that the front does not cover.
    Operations(Front, u64),
    /// For each pair of the second front a digest of the operations of its replica, up to its
    /// counter and behind the counter that the first front has of the replica, or 0.
    Chains(Front, Front),
    /// Whether the stored log has the operation of this id.
    IsCopied(Id),
    /// The document as a whole.
    State(State),
}
