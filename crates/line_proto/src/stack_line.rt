//! Lines that are built on the stack, so that writing them allocates nothing.
ghost use Rattle.std.specs.Prelude.{◌≡◌, ◌≤◌, ◌+◌, ◌++◌, length, decimal, IsTrue, codes, [], ◌∷◌};
ghost use Rattle.json.specs.Print.{quoted};
ghost use Rattle.lamport_id.specs.Name.{is_name};
ghost use Rattle.serde_json.specs.Written.{compact_text};
ghost use Rattle.serde_json.specs.Data.{string};
ghost use Rattle.op_core.specs.Wire.{id_data};
ghost use Rattle.doc_api.specs.declared.reply.Reply.TheVariants.{Applied, Refused, Size};
ghost use Rattle.line_proto.specs.Replies.{line_text, around, reply_data, worded, count_data};
ghost use Rattle.line_feed.specs.Cut.{line_of};
ghost use Rattle.line_proto.specs.declared.stack_line.TheConstants.{SHORT_LINE};

use arrayvec::ArrayString;
use itoa::Buffer;
use json_scalar::Refusal;
use lamport_id::Id;

/// The most bytes of a line of a fixed number of parts.
pub(crate) const SHORT_LINE: usize = 128;

/// Room for the longest line of a fixed number of parts.
pub(crate) type Line = ArrayString<SHORT_LINE>;

/// Room for a dozen ids.
pub(crate) type Piece = ArrayString<1024>;

#[tactic(auto, using(crate::proofs::Texts::digits))]
fn put_number(line: &mut Line, n: u64)
    requires { length line.old.bytes + 20 ≤ SHORT_LINE }
    ensures bytes { line.new.bytes ≡ line.old.bytes ++ decimal n }
    ensures len { length line.new.bytes ≤ length line.old.bytes + 20 }
{
    let mut digits = Buffer::new();
    line.push_str(digits.format(n));
}

// A word that needs no escapes, in quotes.
#[tactic(auto, using(crate::proofs::Texts::words))]
fn put_word(line: &mut Line, word: &str)
    requires room { length line.old.bytes + 34 ≤ SHORT_LINE }
    requires name { IsTrue (is_name word.now) }
    ensures bytes { line.new.bytes ≡ line.old.bytes ++ quoted word.now }
    ensures len { length line.new.bytes ≤ length line.old.bytes + 34 }
{
    line.push_str("\"");
    line.push_str(word);
    line.push_str("\"");
}

pub(crate) fn put_id(line: &mut Line, id: &Id)
    requires { length line.old.bytes + 57 ≤ SHORT_LINE }
    ensures bytes { line.new.bytes ≡ line.old.bytes ++ compact_text (id_data id.now) }
    ensures len { length line.new.bytes ≤ length line.old.bytes + 57 }
{
    line.push_str("[");
    put_number(line, id.counter);
    line.push_str(",");
    put_word(line, id.replica.as_str());
    line.push_str("]");
}

/// The line of a word and a number. `prefix` comes before the number.
#[tactic(auto, using(crate::proofs::Texts::around))]
pub(crate) fn numbered(prefix: &str, n: u64) -> Line
    requires { length prefix.now + 22 ≤ SHORT_LINE }
    ensures { result.bytes ≡ line_of (around prefix.now (decimal n)) }
{
    let mut line = Line::new();
    line.push_str(prefix);
    put_number(&mut line, n);
    line.push_str("]\n");
    line
}

#[tactic(auto, unfolding(json::specs::Print::escape_byte))]
pub(crate) fn applied(count: u64, dropped: u64, id: &Id) -> Line
    ensures { result.bytes ≡ line_text (reply_data (Applied count dropped id.now)) }
{
    let mut line = Line::new();
    line.push_str("[\"applied\",");
    put_number(&mut line, count);
    line.push_str(",");
    put_number(&mut line, dropped);
    line.push_str(",");
    put_id(&mut line, id);
    line.push_str("]\n");
    line
}

#[tactic(auto, unfolding(json::specs::Print::escape_byte))]
pub(crate) fn size(logged: u64, copied: u64, replicas: u64) -> Line
    ensures { result.bytes ≡ line_text (reply_data (Size logged copied replicas)) }
{
    let mut line = Line::new();
    line.push_str("[\"size\",");
    put_number(&mut line, logged);
    line.push_str(",");
    put_number(&mut line, copied);
    line.push_str(",");
    put_number(&mut line, replicas);
    line.push_str("]\n");
    line
}

pub(crate) fn fixed(text: &str) -> Line
    requires { length text.now ≤ SHORT_LINE }
    ensures { result.bytes ≡ text.now }
{
    let mut line = Line::new();
    line.push_str(text);
    line
}

#[tactic(auto, using(crate::proofs::Texts::causes))]
pub(crate) fn no(refusal: Refusal) -> Line
    ensures { result.bytes ≡ line_text (reply_data (Refused refusal)) }
{
    match refusal {
        Refusal::Forked { last } => forked(last),
        _ => refused(refusal.number(), refusal.name()),
    }
}

fn forked(last: u64) -> Line
    ensures { result.bytes ≡ line_text (reply_data (Refused (Refusal.Forked last))) }
{
    let mut line = Line::new();
    line.push_str("[\"no\",");
    put_number(&mut line, 14);
    line.push_str(",");
    put_word(&mut line, "forked");
    line.push_str(",");
    put_number(&mut line, last);
    line.push_str("]\n");
    line
}

fn refused(number: u64, name: &str) -> Line
    requires { IsTrue (is_name name.now) }
    ensures { result.bytes
        ≡ line_text (worded (codes "no") (count_data number ∷ string name.now ∷ [])) }
{
    let mut line = Line::new();
    line.push_str("[\"no\",");
    put_number(&mut line, number);
    line.push_str(",");
    put_word(&mut line, name);
    line.push_str("]\n");
    line
}
