//! What the commands are asked for.
use server_core::Pace;

/// What `run` is asked for.
#[derive(Debug, Drop)]
pub struct RunArgs<'a> {
    /// The name of the server, `srv` if none was given.
    pub name: &'a str,
    /// The names of its documents: 1 to 16, of which no two are the same.
    pub documents: Vec<&'a str>,
}

/// On which terms a server has sessions.
#[derive(Clone, Copy, Debug, PartialEq, Eq)]
pub struct Terms {
    /// The number of sessions, or of those at once: 1 to 256.
    pub sessions: u16,
    /// Whether others follow a session that has ended.
    pub stays: bool,
    /// For how many seconds a client may be silent before it has sent its first whole line, within
    /// a line, and between lines while others wait: 1 to 3,600.
    pub patience: u16,
    /// Whether the server drains when its standard input ends.
    pub until_input_ends: bool,
    /// How many seconds sessions have to end while it drains: 1 to 3,600.
    pub drain: u16,
}

/// What `serve` is asked for.
#[derive(Drop)]
pub struct ServeArgs<'a> {
    /// The name of the server, `srv` if none was given.
    pub name: &'a str,
    /// The names of its documents: 1 to 16, of which no two are the same.
    pub documents: Vec<&'a str>,
    /// The address to listen at.
    pub address: &'a str,
    /// On which terms it has sessions.
    pub terms: Terms,
    /// When replies to changes go out.
    pub pace: Pace,
    /// The file of the stored log.
    pub file: &'a str,
    /// The address at which monitors may ask, if there is one.
    pub health: Option<&'a str>,
}

/// What `check` is asked for.
#[derive(Clone, Copy, Debug)]
pub struct CheckArgs<'a> {
    /// The file of the stored log.
    pub file: &'a str,
}

/// Why arguments were not taken.
#[derive(Clone, Copy, Debug, PartialEq, Eq)]
pub enum ArgsFault {
    /// They ask for no such command.
    Refused,
    /// Out of memory while they were read.
    Memory,
}
