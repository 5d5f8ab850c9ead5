//! Which blocks may have no room for one more id.

/// Which blocks may have no room for one more id, where it isn't known that each has.
#[derive(Clone, Copy)]
pub enum Lack {
    /// The first alone.
    InFirst,
    /// The one at this place among the others alone.
    InRest(usize),
    /// Any of them.
    Anywhere,
}
