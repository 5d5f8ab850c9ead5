//! What a document answers.
ghost use Rattle.std.specs.Prelude.{◌≡◌};
ghost use Rattle.doc_api.specs.Resolved.{resolved_or};

use crate::lists::{Ids, Scalars, Waiting};
use json_scalar::Refusal;
use lamport_id::Id;
use op_core::{Cursor, Front};
use std::marker::Model;

/// The compact JSON text of an answer. A contract sees it as its bytes.
#[derive(Debug, Drop)]
pub struct CompactText {
    text: String,
}

impl Model for CompactText {
    ghost use Rattle.std.specs.Prelude.{ℕ, List, string_bytes};

    ghost Value = { List ℕ };

    ghost view = { λ t. string_bytes t.text };
}

impl CompactText {
    /// The text.
    pub fn as_str(&self) -> &str
        ensures { result.now ≡ self.now }
    {
        self.text.as_str()
    }
}

impl From<String> for CompactText {
    ghost use Rattle.std.specs.Prelude.{string_bytes};

    ghost from_gives = { λ text told. told ≡ string_bytes text };

    fn from(text: String) -> CompactText {
        CompactText { text }
    }
}

/// What a document answers.
#[derive(Debug)]
pub enum Reply {
    /// The operation is logged, and with it the held ones that it released.
    Applied {
        /// How many operations were logged, the first included.
        count: u64,
        /// How many held operations were dropped.
        dropped: u64,
        /// The id of the first.
        id: Id,
    },
    /// The operation is logged already.
    Known,
    /// To a delivery: the operation is held, and waits for these ids.
    Held(Ids),
    /// The operation is held no longer.
    Forgotten,
    /// Where the steps led.
    Resolved(Cursor),
    /// How many present elements come up to the one at the place, itself included where it is
    /// present.
    Index(u64),
    /// The names of the present members of the map, as JSON text.
    Keys(CompactText),
    /// The scalars of the register.
    Values(Scalars),
    /// The present elements of the list, each with the scalars of its register, as JSON text.
    Items(CompactText),
    /// The present values, each with the id of the operation that put it, as JSON text.
    Conflicts(CompactText),
    /// All that is at the place and below, as JSON text.
    Show(CompactText),
    /// The sum of the counter.
    Sum(i128),
    /// Logged operations that the front doesn't cover, in the order of the log, as JSON text.
    Operations(CompactText),
    /// Pairs of a front, each with a digest of its replica's operations, as JSON text.
    Chains(CompactText),
    /// The front of the whole log.
    Front(Front),
    /// To the query `Held`: the held operations, and what each waits for.
    Waiting(Waiting),
    /// How many of the logged operations are the asking seat's.
    Account(u64),
    /// How much the document has.
    Size {
        /// How many operations are logged.
        logged: u64,
        /// How many of them the stored log has.
        copied: u64,
        /// Of how many replicas the logged ones are.
        replicas: u64,
    },
    /// Whether the stored log has the operation.
    Copied(bool),
    /// It is refused for this cause, with nothing changed.
    Refused(Refusal),
}

// One function for all the places where a reply is dropped: a derived
// `drop` is written out at each.
impl Drop for Reply {
    fn drop(self) {
        match self {
            Reply::Applied {
                count: _,
                dropped: _,
                id: _,
            } => {}
            Reply::Known => {}
            Reply::Held(_) => {}
            Reply::Forgotten => {}
            Reply::Resolved(_) => {}
            Reply::Index(_) => {}
            Reply::Keys(_) => {}
            Reply::Values(_) => {}
            Reply::Items(_) => {}
            Reply::Conflicts(_) => {}
            Reply::Show(_) => {}
            Reply::Sum(_) => {}
            Reply::Operations(_) => {}
            Reply::Chains(_) => {}
            Reply::Front(_) => {}
            Reply::Waiting(_) => {}
            Reply::Account(_) => {}
            Reply::Size {
                logged: _,
                copied: _,
                replicas: _,
            } => {}
            Reply::Copied(_) => {}
            Reply::Refused(_) => {}
        }
    }
}

impl Reply {
    /// The cursor to which the steps led, or the reply as it is.
    pub fn into_cursor(self) -> Result<Cursor, Reply>
        ensures { result ≡ resolved_or self }
    {
        match self {
            Reply::Resolved(cursor) => Ok(cursor),
            other => Err(other),
        }
    }
}
