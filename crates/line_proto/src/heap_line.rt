//! Lines that are built on the heap before they are written.
ghost use Rattle.std.specs.Prelude.{◌≡◌, [], ◌∷◌, true, IfOk};
ghost use Rattle.line_feed.specs.Cut.{line_of};
ghost use Rattle.line_proto.specs.Replies.{line_text, worded, reply_text};
ghost use Rattle.line_proto.specs.Writing.{needs_heap};

use doc_api::Reply;
use json_scalar::Refusal;
use json_text::{AsJson, JsonText};
use std::alloc::Global;

// Room at first, in bytes. Most lines have less.
const FIRST_ROOM: usize = 256;

/// The line of a reply of many parts. A refusal is `NoMemory`.
pub(crate) fn heap_line(alloc: Global, reply: &Reply) -> Result<Vec<u8>, Refusal>
    requires { needs_heap reply.now ≡ true }
    ensures { IfOk result (λ line. line.items ≡ line_of (reply_text reply.now)) }
{
    match reply {
        Reply::Resolved(cursor) => tagged_line(alloc, "cursor", cursor),
        Reply::Values(scalars) => tagged_line(alloc, "values", scalars),
        Reply::Sum(total) => tagged_line(alloc, "sum", total),
        Reply::Front(front) => tagged_line(alloc, "front", front),
        _ => unreachable!(),
    }
}

fn tagged_line<X: AsJson>(alloc: Global, word: &str, part: &X) -> Result<Vec<u8>, Refusal>
    ensures { IfOk result
        (λ line. line.items ≡ line_text (worded word.now (X.json part.now ∷ []))) }
{
    let mut text = JsonText::with_room(alloc, FIRST_ROOM)?;
    text.tagged(word, part)?;
    let mut line = text.into_bytes();
    line.push(b'\n')?;
    Ok(line)
}
