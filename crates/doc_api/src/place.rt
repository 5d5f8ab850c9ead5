//! Places, as cursors and steps from them.
use crate::lists::Listed;
use op_core::{Cursor, KeyText};

/// A step of a cursor: down to a member of a map, or to an element of a list or its head.
#[derive(Debug, Drop)]
pub enum Step {
    /// The member of this name.
    Get(KeyText),
    /// 0 is the head, and 1 the first of the present elements.
    Index(u64),
}

/// The steps of a cursor, in order.
pub type Steps = Listed<Step>;

/// A place in a document: steps from a start.
#[derive(Debug, Drop)]
pub struct Place {
    /// Where the steps start.
    pub start: Cursor,
    /// The steps from there, in order.
    pub steps: Steps,
}
