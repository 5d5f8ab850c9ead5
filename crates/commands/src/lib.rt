//! The three commands of the program: a session over two devices (`run`), a server over TCP that
//! starts from a stored log (`serve`), and a report of what a stored log holds (`check`).
#![tactic(auto)]

mod check;
mod health;
mod host;
mod run;
mod serve;

pub use check::parse_and_check;
pub use host::ServerHost;
pub use run::{run_failure, run_words};
pub use serve::parse_and_serve;
