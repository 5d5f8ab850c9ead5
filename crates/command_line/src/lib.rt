//! The command line: what its arguments ask for, as plain records, and what is wrong with arguments
//! that ask for nothing. No other crate reads arguments by `clap`.
#![tactic(auto)]

mod args;
mod first_word;
mod matches;
mod numbers;
mod parse;
mod usage;

pub use args::{ArgsFault, CheckArgs, RunArgs, ServeArgs, Terms};
pub use first_word::{is_check, is_run, is_serve, is_version};
pub use numbers::limits_as_defined;
pub use parse::{parse_check, parse_run, parse_serve};
pub use usage::{NO_MEMORY, USAGE, VERSION, cause_of};
