//! What a line asks of a replica.
ghost use Rattle.std.specs.Prelude.{◌≡◌, length};

use doc_api::{Command, Place, Query};
use json_scalar::Val;
use std::marker::Model;

/// What a line asks of a replica.
#[derive(Drop)]
pub enum Ask {
    /// Something that may change it.
    Act(Command),
    /// Changes of one's own, one after another.
    Run(Run),
    /// Something that changes nothing.
    Read(Query),
}

/// Changes of one's own that are made one after another.
#[derive(Drop)]
pub enum Run {
    /// Each value is inserted behind the one before, the first behind what is at the place.
    Inserts(Place, Vals),
    /// So many times what is at the place is deleted. The place is resolved anew each time.
    Deletes(Place, u64),
}

/// Values in their order. A contract sees the list of them.
#[derive(Drop)]
pub struct Vals {
    entries: Vec<Val>,
}

impl Model for Vals {
    ghost use Rattle.std.specs.Prelude.{List};
    ghost use Rattle.json_scalar.specs.declared.scalar.Val.{Val};

    ghost Value = { List Val };

    ghost view = { λ v. v.entries.items };
}

impl Vals {
    /// How many there are.
    pub(crate) fn count(&self) -> u64
        ensures { result ≡ length self.now }
    {
        self.entries.len() as u64
    }

    /// The values.
    pub(crate) fn into_entries(self) -> Vec<Val>
        ensures { result.items ≡ self }
    {
        self.entries
    }
}

impl From<Vec<Val>> for Vals {
    ghost from_gives = { λ entries vals. vals ≡ entries.items };

    fn from(entries: Vec<Val>) -> Vals {
        Vals { entries }
    }
}

impl Ask {
    ghost use Rattle.std.specs.Prelude.{ℕ, List, Some, Ok};
    ghost use Rattle.serde_json.specs.Data.{Data};
    ghost use Rattle.line_proto.specs.Reading.{line_data};
    ghost use Rattle.replica_c.specs.Asking.{ask_of};
    ghost use Rattle.replica_c.specs.Written.{AsksFor};
    ghost use Rattle.replica_c.specs.declared.ask.Ask.{Ask};

    /// The law that `ask_of`, by which a line is answered, is what the written forms say: a line
    /// asks what its JSON writes, and nothing else.
    pub fn read_as_written()
        ensures reads { (line : List ℕ) (asked : Ask) → ask_of line ≡ Ok asked
            → (d : Data) × (line_data line ≡ Some d) × AsksFor d asked }
        ensures complete { (line : List ℕ) (d : Data) (asked : Ask) → line_data line ≡ Some d
            → AsksFor d asked → ask_of line ≡ Ok asked }
    {}
}
