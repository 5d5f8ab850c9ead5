//! The numbers and flags of a `serve`.
ghost use Rattle.std.specs.Prelude.{◌≡◌, ℕ, Bool, MatchOption, option_map};
ghost use Rattle.command_line.specs.CommandLine.{IsBacklog, IsCount, IsSeconds, SaysCount};
ghost use Rattle.command_line.specs.CommandLine.{is_given, pace_of};
ghost use Rattle.command_line.specs.Limits.{most_backlog, most_seconds, most_sessions};

use server_core::Pace;

/// The most sessions of a server.
pub const MAX_SESSIONS: u16 = 256;

/// The greatest number of operations of a document by which the file may be behind.
pub const MAX_BACKLOG: u64 = 100_000;

/// The most seconds of patience, or of a drain.
pub const MAX_SECONDS: u16 = 3600;

/// The law that these limits are those of the definitions.
pub fn limits_as_defined()
    ensures sessions { MAX_SESSIONS ≡ most_sessions }
    ensures backlog { MAX_BACKLOG ≡ most_backlog }
    ensures seconds { MAX_SECONDS ≡ most_seconds }
{}

/// The number of sessions in the text: 1 to 256, or none.
pub fn sessions_of(text: &str) -> Option<u16>
    ensures { MatchOption result ((n : ℕ) → IsCount text.now n → ⊥) (IsCount text.now) }
{
    match text.parse::<u16>() {
        Ok(sessions) if sessions >= 1 && sessions <= MAX_SESSIONS => Some(sessions),
        _ => None,
    }
}

/// The number in the text by which the file may be behind: 1 to 100,000, or none.
pub fn backlog_of(text: &str) -> Option<u64>
    ensures { MatchOption result ((n : ℕ) → IsBacklog text.now n → ⊥) (IsBacklog text.now) }
{
    match text.parse::<u64>() {
        Ok(backlog) if backlog >= 1 && backlog <= MAX_BACKLOG => Some(backlog),
        _ => None,
    }
}

/// The number of seconds in the text: 1 to 3,600, or none.
pub fn seconds_of(text: &str) -> Option<u16>
    ensures { MatchOption result ((n : ℕ) → IsSeconds text.now n → ⊥) (IsSeconds text.now) }
{
    match text.parse::<u16>() {
        Ok(seconds) if seconds >= 1 && seconds <= MAX_SECONDS => Some(seconds),
        _ => None,
    }
}

/// How many sessions there are, at once or in all.
#[derive(Clone, Copy)]
pub struct Count {
    /// The number: 1 to 256.
    pub sessions: u16,
    /// Whether others follow one that has ended.
    pub stays: bool,
}

// So many sessions, where the text says it.
fn count_of(text: &str, stays: bool) -> Option<Count>
    ensures { MatchOption result ((n : ℕ) → IsCount text.now n → ⊥)
        (λ count. IsCount text.now count.sessions × (count.stays ≡ stays)) }
{
    match sessions_of(text) {
        Some(sessions) => Some(Count { sessions, stays }),
        None => None,
    }
}

/// What the texts of `--sessions` and `--clients` say, of which one must be given.
pub fn counted_of(sessions: Option<&str>, clients: Option<&str>) -> Option<Count>
    ensures { MatchOption result
        ((n : ℕ) → (b : Bool) → SaysCount (option_map (λ s. s.now) sessions.entry) (option_map (λ s. s.now) clients.entry) n b → ⊥)
        (λ count. SaysCount (option_map (λ s. s.now) sessions.entry) (option_map (λ s. s.now) clients.entry) count.sessions count.stays) }
{
    match (sessions, clients) {
        (Some(text), None) => count_of(text, false),
        (None, Some(text)) => count_of(text, true),
        (None, None) => None,
        (Some(_), Some(_)) => None,
    }
}

/// Whether this is the text that stands for a flag that was given.
pub fn is_given(text: &str) -> bool
    ensures { result ≡ is_given text.now }
{
    text == "true"
}

/// When replies to changes go out, where the text of `--durable` is this one.
pub fn pace_of(durable: &str, backlog: u64) -> Pace
    ensures { result ≡ pace_of (is_given durable.now) backlog }
{
    if is_given(durable) {
        Pace::Durable
    } else {
        Pace::Behind(backlog)
    }
}
