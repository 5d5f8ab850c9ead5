//! How replies are written as lines.
ghost use Rattle.std.specs.Prelude.{◌≡◌, ◌≢◌, [], ◌∷◌, true, false, codes, MatchOption, OnOk};
ghost use Rattle.std.specs.Io.KnownBytes.{Appends};
ghost use Rattle.serde_json.specs.Data.{Data};
ghost use Rattle.serde_json.specs.Written.{compact_text};
ghost use Rattle.doc_api.specs.declared.reply.Reply.TheVariants.{Conflicts, Items, Keys};
ghost use Rattle.doc_api.specs.declared.reply.Reply.TheVariants.{Chains, Operations, Show};
ghost use Rattle.line_feed.specs.Covered.{StaysCovered};
ghost use Rattle.line_feed.specs.Cut.{AppendsCut, line_of};
ghost use Rattle.line_proto.specs.Replies.{reply_text, line_reply_text, reply_line, worded};
ghost use Rattle.line_proto.specs.Writing.{needs_heap, is_in_pieces, line_needs_heap, is_device};
ghost use Rattle.line_proto.specs.declared.line_reply.LineReply.TheVariants.{Answered};

use crate::heap_line::heap_line;
use crate::line_reply::{LineReply, VERSION};
use crate::pending::{write_held, write_waiting};
use crate::stack_line::{Line, applied, fixed, no, numbered, size};
use crate::text_line::write_text_line;
use doc_api::Reply;
use line_feed::{DeviceFault, Sink, write_all};
use std::alloc::Global;

/// Why a line wasn't written to its end.
#[derive(Clone, Copy, Debug, PartialEq, Eq)]
pub enum WriteFault {
    /// Out of memory; nothing was written.
    NoMemory,
    /// The sink failed; it has taken a proper prefix of the line.
    Device,
}

impl From<DeviceFault> for WriteFault {
    ghost use Rattle.std.specs.Prelude.{◌≡◌};
    ghost use Rattle.line_proto.specs.declared.write.WriteFault.TheVariants.{Device};

    ghost from_gives = { λ _ fault. fault ≡ Device };

    fn from(_fault: DeviceFault) -> WriteFault {
        WriteFault::Device
    }
}

impl LineReply {
    /// Writes the reply as a line, with its newline.
    ///
    /// - `Device`: the sink failed. It has taken a proper prefix of the line.
    /// - `NoMemory`: nothing was written. It can come only for a cursor, values, a sum and a front:
    ///   their lines are built on the heap before the first byte is written. All others allocate
    ///   nothing. A text that was read of a document, which may have megabytes, is not copied.
    pub fn write<W: Sink>(&self, alloc: Global, sink: &mut W) -> Result<(), WriteFault>
        requires works { W.has_failed sink.old ≡ false }
        ensures ok { OnOk result (Appends (W.contents sink.old) (W.contents sink.new) (reply_line self.now)) }
        ensures device { result ≡ Err WriteFault.Device
            → AppendsCut (W.contents sink.old) (W.contents sink.new) (reply_line self.now) }
        ensures memory { result ≡ Err WriteFault.NoMemory → (sink.new ≡ sink.old)
            × (line_needs_heap self.now ≡ true) }
        ensures covered { StaysCovered (W.covers sink.old) (W.covers sink.new) }
        ensures failed { W.has_failed sink.new ≡ is_device result }
    {
        match self {
            LineReply::Answered(reply) => write_reply(alloc, reply, sink),
            _ => write_stack_line(sink, &own_line(self)),
        }
    }

    /// The law that a shown element is written as JSON: for the compact text of
    /// an element, `["show",ELEMENT]`.
    pub fn shown_as_json()
        ensures { (d : Data) →
            line_reply_text (Answered (Show (compact_text d)))
            ≡ compact_text (worded (codes "show") (d ∷ [])) }
    {}

    /// The law that keys, the elements of a list, conflicts, operations and chains are written as
    /// JSON: for the compact text of their array, an array of the word and that array.
    pub fn listed_as_json()
        ensures keys { (d : Data) →
            line_reply_text (Answered (Keys (compact_text d)))
            ≡ compact_text (worded (codes "keys") (d ∷ [])) }
        ensures items { (d : Data) →
            line_reply_text (Answered (Items (compact_text d)))
            ≡ compact_text (worded (codes "items") (d ∷ [])) }
        ensures conflicts { (d : Data) → line_reply_text (Answered (Conflicts (compact_text d)))
            ≡ compact_text (worded (codes "conflicts") (d ∷ [])) }
        ensures ops { (d : Data) →
            line_reply_text (Answered (Operations (compact_text d)))
            ≡ compact_text (worded (codes "ops") (d ∷ [])) }
        ensures chains { (d : Data) →
            line_reply_text (Answered (Chains (compact_text d)))
            ≡ compact_text (worded (codes "chains") (d ∷ [])) }
    {}
}

// The line of a reply that doesn't come from a document.
#[tactic(auto, unfolding(json::specs::Print::escape_byte))]
fn own_line(reply: &LineReply) -> Line
    requires { (answer : Reply) → reply.now ≢ Answered answer }
    ensures { result.bytes ≡ reply_line reply.now }
{
    match reply {
        LineReply::Opened(seat) => numbered("[\"opened\",", *seat),
        LineReply::Bound => fixed("[\"bound\"]\n"),
        LineReply::Version => numbered("[\"version\",", VERSION),
        LineReply::Bye => fixed("[\"bye\"]\n"),
        LineReply::Answered(_) => unreachable!(),
    }
}

fn write_reply<W: Sink>(alloc: Global, reply: &Reply, sink: &mut W) -> Result<(), WriteFault>
    requires works { W.has_failed sink.old ≡ false }
    ensures ok { OnOk result (Appends (W.contents sink.old) (W.contents sink.new) (line_of (reply_text reply.now))) }
    ensures device { result ≡ Err WriteFault.Device
        → AppendsCut (W.contents sink.old) (W.contents sink.new) (line_of (reply_text reply.now)) }
    ensures memory { result ≡ Err WriteFault.NoMemory → (sink.new ≡ sink.old)
        × (needs_heap reply.now ≡ true) }
    ensures covered { StaysCovered (W.covers sink.old) (W.covers sink.new) }
    ensures failed { W.has_failed sink.new ≡ is_device result }
{
    match reply {
        Reply::Held(missing) => Ok(write_held(missing.as_slice(), sink)?),
        Reply::Waiting(waiting) => Ok(write_waiting(waiting.as_slice(), sink)?),
        Reply::Keys(text) => Ok(write_text_line("[\"keys\",", text, sink)?),
        Reply::Items(text) => Ok(write_text_line("[\"items\",", text, sink)?),
        Reply::Conflicts(text) => Ok(write_text_line("[\"conflicts\",", text, sink)?),
        Reply::Show(text) => Ok(write_text_line("[\"show\",", text, sink)?),
        Reply::Operations(text) => Ok(write_text_line("[\"ops\",", text, sink)?),
        Reply::Chains(text) => Ok(write_text_line("[\"chains\",", text, sink)?),
        _ => write_whole(alloc, reply, sink),
    }
}

// Writes a line that isn't written in pieces.
fn write_whole<W: Sink>(alloc: Global, reply: &Reply, sink: &mut W) -> Result<(), WriteFault>
    requires works { W.has_failed sink.old ≡ false }
    requires whole { is_in_pieces reply.now ≡ false }
    ensures ok { OnOk result (Appends (W.contents sink.old) (W.contents sink.new) (line_of (reply_text reply.now))) }
    ensures device { result ≡ Err WriteFault.Device
        → AppendsCut (W.contents sink.old) (W.contents sink.new) (line_of (reply_text reply.now)) }
    ensures memory { result ≡ Err WriteFault.NoMemory → (sink.new ≡ sink.old)
        × (needs_heap reply.now ≡ true) }
    ensures covered { StaysCovered (W.covers sink.old) (W.covers sink.new) }
    ensures failed { W.has_failed sink.new ≡ is_device result }
{
    match stack_line(reply) {
        Some(line) => write_stack_line(sink, &line),
        None => write_heap_line(alloc, reply, sink),
    }
}

// The line of a reply of a fixed number of parts, or None for another reply.
#[tactic(auto, unfolding(json::specs::Print::escape_byte))]
fn stack_line(reply: &Reply) -> Option<Line>
    ensures { MatchOption result (is_in_pieces reply.now ≡ false → needs_heap reply.now ≡ true)
        (λ line. line.bytes ≡ line_of (reply_text reply.now)) }
{
    match reply {
        Reply::Applied { count, dropped, id } => Some(applied(*count, *dropped, id)),
        Reply::Known => Some(fixed("[\"known\"]\n")),
        Reply::Forgotten => Some(fixed("[\"forgotten\"]\n")),
        Reply::Index(n) => Some(numbered("[\"index\",", *n)),
        Reply::Account(n) => Some(numbered("[\"account\",", *n)),
        Reply::Size {
            logged,
            copied,
            replicas,
        } => Some(size(*logged, *copied, *replicas)),
        Reply::Copied(true) => Some(fixed("[\"copied\",true]\n")),
        Reply::Copied(false) => Some(fixed("[\"copied\",false]\n")),
        Reply::Refused(refusal) => Some(no(*refusal)),
        _ => None,
    }
}

fn write_stack_line<W: Sink>(sink: &mut W, line: &Line) -> Result<(), WriteFault>
    requires { W.has_failed sink.old ≡ false }
    ensures ok { OnOk result (Appends (W.contents sink.old) (W.contents sink.new) line.now.bytes) }
    ensures device { result ≡ Err WriteFault.Device
        → AppendsCut (W.contents sink.old) (W.contents sink.new) line.now.bytes }
    ensures memory { result ≢ Err WriteFault.NoMemory }
    ensures covered { StaysCovered (W.covers sink.old) (W.covers sink.new) }
    ensures failed { W.has_failed sink.new ≡ is_device result }
{
    Ok(write_all(sink, line.as_str().as_bytes())?)
}

// Builds the whole line, and then writes it.
fn write_heap_line<W: Sink>(alloc: Global, reply: &Reply, sink: &mut W) -> Result<(), WriteFault>
    requires works { W.has_failed sink.old ≡ false }
    requires lengthy { needs_heap reply.now ≡ true }
    ensures ok { OnOk result (Appends (W.contents sink.old) (W.contents sink.new) (line_of (reply_text reply.now))) }
    ensures device { result ≡ Err WriteFault.Device
        → AppendsCut (W.contents sink.old) (W.contents sink.new) (line_of (reply_text reply.now)) }
    ensures memory { result ≡ Err WriteFault.NoMemory → sink.new ≡ sink.old }
    ensures covered { StaysCovered (W.covers sink.old) (W.covers sink.new) }
    ensures failed { W.has_failed sink.new ≡ is_device result }
{
    let Ok(line) = heap_line(alloc, reply) else {
        return Err(WriteFault::NoMemory);
    };
    Ok(write_all(sink, line.as_slice())?)
}
