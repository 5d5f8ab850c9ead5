//! What an operation does at a place.

/// What an operation did at a place that it makes present.
#[derive(Clone, Copy, Debug, PartialEq, Eq)]
pub enum Role {
    /// It passed on its way to a place below.
    Through,
    /// It put an empty map there.
    Map,
    /// It put an empty list there.
    List,
    /// It put a scalar there.
    Scalar,
    /// It added to the counter there.
    Counter,
}
