//! The replies of a session.
use doc_api::Reply;

/// The number of the forms of requests and replies.
pub const VERSION: u64 = 2;

/// The reply to a line.
pub enum LineReply {
    /// The session has this seat at the document.
    Opened(u64),
    /// The name is bound to the cursor.
    Bound,
    /// The number of the forms, `VERSION`.
    Version,
    /// The session ends.
    Bye,
    /// What the document answered, or why the request was refused.
    Answered(Reply),
}

// By hand: a derived `drop` is written out at each place where a value is dropped.
impl Drop for LineReply {
    fn drop(self) {
        match self {
            LineReply::Opened(_) => {}
            LineReply::Bound => {}
            LineReply::Version => {}
            LineReply::Bye => {}
            LineReply::Answered(_) => {}
        }
    }
}
