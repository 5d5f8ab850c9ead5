//! Where a server listens, and the connections that it accepts there.
#![tactic(auto)]

mod accepting;
mod entrance;
mod http;
mod keep_alive;
mod listening;
mod talking;
mod waiting;

pub use accepting::{Accepting, connections};
pub use entrance::{Admission, Entrance, MOST_SESSIONS, SessionCount};
pub use http::{HttpListener, Page, Pages};
pub use listening::{drain_when_input_ends, hint_of, listen, listen_for_monitors};
pub use talking::{Received, Sent};
