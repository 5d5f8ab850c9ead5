//! The lines of a session as JSON: a client's requests, and the server's replies.
#![tactic(auto)]

mod cursor;
mod heap_line;
mod line_reply;
mod name;
mod parse;
mod pending;
mod request;
mod stack_line;
mod text_line;
mod write;

pub use cursor::read_steps;
pub use line_reply::{LineReply, VERSION};
pub use name::Name;
pub use parse::{look_of, read_ascending, read_fronts, read_json, read_limit, read_mutation};
pub use request::{CursorExpr, DocRequest, Request, Start};
pub use write::WriteFault;
