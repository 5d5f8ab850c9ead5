//! Lists in replies.
ghost use Rattle.std.specs.Prelude.{◌≡◌};

use json_scalar::{Scalar, Val};
use lamport_id::Id;
use op_core::{KeyText, Operation};
use std::marker::Model;

/// A list in a reply, in its order. A contract sees it as the list of its entries.
#[derive(Debug, Drop)]
pub struct Listed<X> {
    entries: Vec<X>,
}

impl<X> Model for Listed<X> {
    ghost use Rattle.std.specs.Prelude.{List};

    ghost Value = { List X };

    ghost view = { λ l. l.entries.items };
}

impl<X> Listed<X> {
    /// The entries, in order.
    pub fn as_slice(&self) -> &[X]
        ensures { result.now ≡ self.now }
    {
        self.entries.as_slice()
    }
}

impl<X> From<Vec<X>> for Listed<X> {
    ghost from_gives = { λ entries all. all ≡ entries.items };

    fn from(entries: Vec<X>) -> Listed<X> {
        Listed { entries }
    }
}

/// Ids, in the order in which a reply has them.
pub type Ids = Listed<Id>;

/// Texts of a map, in byte order.
pub type Texts = Listed<KeyText>;

/// Scalars of a register, in the order of their ids.
pub type Scalars = Listed<Scalar>;

/// Elements of a list in its order, each with the scalars of its register.
pub type Items = Listed<(Id, Scalars)>;

/// Ids in their order, each with the value that its operation put.
pub type Conflicts = Listed<(Id, Val)>;

/// Operations, in the order of the log.
pub type Operations = Listed<Operation>;

/// Held ids in their order, each with the ids that it waits for.
pub type Waiting = Listed<(Id, Ids)>;
