//! What can be asked of a document, and what it answers.
#![tactic(auto)]

mod ask;
mod lists;
mod place;
mod reply;
mod role;

pub use ask::{Command, Counts, Look, Query, State};
pub use lists::{Conflicts, Ids, Items, Listed, Operations, Scalars, Texts, Waiting};
pub use place::{Place, Step, Steps};
pub use reply::{CompactText, Reply};
pub use role::Role;
