//! How ids of pending operations are written: in pieces, since there may
//! be many, and without allocating.
ghost use Rattle.std.specs.Prelude.{◌≡◌, ◌≤◌, ◌++◌, ℕ, List, [], ◌∷◌, length, map, false, is_err};
ghost use Rattle.std.specs.Prelude.{OnOk, OnErr};
ghost use Rattle.std.specs.Io.KnownBytes.{Appends};
ghost use Rattle.serde_json.specs.View.{items_of};
ghost use Rattle.serde_json.specs.Written.{comma_if, compact_text, items_text};
ghost use Rattle.op_core.specs.Wire.{id_data};
ghost use Rattle.doc_api.specs.declared.reply.Reply.TheVariants.{Held, Waiting};
ghost use Rattle.line_feed.specs.Covered.{StaysCovered};
ghost use Rattle.line_feed.specs.Cut.{AppendsCut};
ghost use Rattle.line_proto.specs.declared.stack_line.TheConstants.{SHORT_LINE};
ghost use Rattle.line_proto.specs.Replies.{line_text, reply_data, waiting_data};
ghost use Rattle.line_proto.specs.Writing.{WritesText};

use crate::stack_line::{Line, Piece, put_id};
use doc_api::Ids;
use lamport_id::Id;
use line_feed::{DeviceFault, Sink, write_all};

/// Writes the ids that a held operation waits for.
pub(crate) fn write_held<W: Sink>(missing: &[Id], sink: &mut W) -> Result<(), DeviceFault>
    requires { W.has_failed sink.old ≡ false }
    ensures ok { OnOk result (Appends (W.contents sink.old) (W.contents sink.new)
        (line_text (reply_data (Held missing.now)))) }
    ensures cut { OnErr result (AppendsCut (W.contents sink.old) (W.contents sink.new)
        (line_text (reply_data (Held missing.now)))) }
    ensures covered { StaysCovered (W.covers sink.old) (W.covers sink.new) }
    ensures failed { W.has_failed sink.new ≡ is_err result }
{
    let mut piece = Piece::new();
    piece.push_str("[\"held\",[");
    put_ids(missing, &mut piece, sink)?;
    write_end(&mut piece, sink)
}

/// Writes the ids of the held operations, each with the ids that it waits for.
pub(crate) fn write_waiting<W: Sink>(waiting: &[(Id, Ids)], sink: &mut W) -> Result<(), DeviceFault>
    requires { W.has_failed sink.old ≡ false }
    ensures ok { OnOk result (Appends (W.contents sink.old) (W.contents sink.new)
        (line_text (reply_data (Waiting waiting.now)))) }
    ensures cut { OnErr result (AppendsCut (W.contents sink.old) (W.contents sink.new)
        (line_text (reply_data (Waiting waiting.now)))) }
    ensures covered { StaysCovered (W.covers sink.old) (W.covers sink.new) }
    ensures failed { W.has_failed sink.new ≡ is_err result }
{
    let mut piece = Piece::new();
    piece.push_str("[\"waiting\",[");
    put_all_waiting(waiting, &mut piece, sink)?;
    write_end(&mut piece, sink)
}

// Ends the line, and writes its last piece.
fn write_end<W: Sink>(piece: &mut Piece, sink: &mut W) -> Result<(), DeviceFault>
    requires { W.has_failed sink.old ≡ false }
    ensures ok { OnOk result (Appends (W.contents sink.old) (W.contents sink.new) (piece.old.bytes ++ 93 ∷ 10 ∷ [])) }
    ensures cut { OnErr result (AppendsCut (W.contents sink.old) (W.contents sink.new)
        (piece.old.bytes ++ 93 ∷ 10 ∷ [])) }
    ensures covered { StaysCovered (W.covers sink.old) (W.covers sink.new) }
    ensures failed { W.has_failed sink.new ≡ is_err result }
{
    put("]\n", piece, sink)?;
    write_all(sink, piece.as_str().as_bytes())
}

// The held operations, to the end of their array.
fn put_all_waiting<W: Sink>(
    waiting: &[(Id, Ids)],
    piece: &mut Piece,
    sink: &mut W,
) -> Result<(), DeviceFault>
    requires { W.has_failed sink.old ≡ false }
    ensures ok { OnOk result (WritesText (W.contents sink.old) (W.contents sink.new)
        piece.old.bytes piece.new.bytes (items_text false (items_of (map waiting_data waiting.now)))) }
    ensures cut { OnErr result (AppendsCut (W.contents sink.old) (W.contents sink.new)
        (piece.old.bytes ++ items_text false (items_of (map waiting_data waiting.now)))) }
    ensures covered { StaysCovered (W.covers sink.old) (W.covers sink.new) }
    ensures failed { W.has_failed sink.new ≡ is_err result }
{
    for i in 0..waiting.len() {
        put_waiting(0 < i, &waiting[i], piece, sink)?;
    }
    put("]", piece, sink)
}

// A held operation, after a comma if it isn't the first.
fn put_waiting<W: Sink>(
    later: bool,
    entry: &(Id, Ids),
    piece: &mut Piece,
    sink: &mut W,
) -> Result<(), DeviceFault>
    requires { W.has_failed sink.old ≡ false }
    ensures ok { OnOk result (WritesText (W.contents sink.old) (W.contents sink.new)
        piece.old.bytes piece.new.bytes (comma_if later ++ compact_text (waiting_data entry.now))) }
    ensures cut { OnErr result (AppendsCut (W.contents sink.old) (W.contents sink.new)
        (piece.old.bytes ++ (comma_if later ++ compact_text (waiting_data entry.now)))) }
    ensures covered { StaysCovered (W.covers sink.old) (W.covers sink.new) }
    ensures failed { W.has_failed sink.new ≡ is_err result }
{
    put(waiting_start(later, &entry.0).as_str(), piece, sink)?;
    put_ids(entry.1.as_slice(), piece, sink)?;
    put("]", piece, sink)
}

// The ids, to the end of their array.
fn put_ids<W: Sink>(ids: &[Id], piece: &mut Piece, sink: &mut W) -> Result<(), DeviceFault>
    requires { W.has_failed sink.old ≡ false }
    ensures ok { OnOk result (WritesText (W.contents sink.old) (W.contents sink.new)
        piece.old.bytes piece.new.bytes (items_text false (items_of (map id_data ids.now)))) }
    ensures cut { OnErr result (AppendsCut (W.contents sink.old) (W.contents sink.new)
        (piece.old.bytes ++ items_text false (items_of (map id_data ids.now)))) }
    ensures covered { StaysCovered (W.covers sink.old) (W.covers sink.new) }
    ensures failed { W.has_failed sink.new ≡ is_err result }
{
    for i in 0..ids.len() {
        put(id_item(0 < i, &ids[i]).as_str(), piece, sink)?;
    }
    put("]", piece, sink)
}

// A short text after the piece, which is written first if the text has no room in it.
fn put<W: Sink>(text: &str, piece: &mut Piece, sink: &mut W) -> Result<(), DeviceFault>
    requires works { W.has_failed sink.old ≡ false }
    requires short { length text.now ≤ SHORT_LINE }
    ensures ok { OnOk result (WritesText (W.contents sink.old) (W.contents sink.new)
        piece.old.bytes piece.new.bytes text.now) }
    ensures cut { OnErr result (AppendsCut (W.contents sink.old) (W.contents sink.new) (piece.old.bytes ++ text.now)) }
    ensures covered { StaysCovered (W.covers sink.old) (W.covers sink.new) }
    ensures failed { W.has_failed sink.new ≡ is_err result }
{
    make_room(piece, sink)?;
    piece.push_str(text);
    Ok(())
}

// A held operation's id, and the beginning of the array of those that it waits for.
fn waiting_start(later: bool, id: &Id) -> Line
    ensures bytes { result.bytes ≡ comma_if later
        ++ (91 ∷ (compact_text (id_data id.now) ++ 44 ∷ 91 ∷ [])) }
    ensures len { length result.bytes ≤ SHORT_LINE }
{
    let mut line = Line::new();
    if later {
        line.push_str(",");
    }
    line.push_str("[");
    put_id(&mut line, id);
    line.push_str(",[");
    line
}

// Writes the piece and empties it, if it has no room for one more short text.
fn make_room<W: Sink>(piece: &mut Piece, sink: &mut W) -> Result<(), DeviceFault>
    requires { W.has_failed sink.old ≡ false }
    ensures ok { OnOk result ((written : List ℕ)
        × Appends (W.contents sink.old) (W.contents sink.new) written
        × (piece.old.bytes ≡ written ++ piece.new.bytes) × (length piece.new.bytes ≤ 896)) }
    ensures cut { OnErr result (AppendsCut (W.contents sink.old) (W.contents sink.new) piece.old.bytes) }
    ensures covered { StaysCovered (W.covers sink.old) (W.covers sink.new) }
    ensures failed { W.has_failed sink.new ≡ is_err result }
{
    if piece.len() > 896 {
        write_all(sink, piece.as_str().as_bytes())?;
        piece.clear();
    }
    Ok(())
}

// An id of an array, after a comma if it isn't the first.
fn id_item(later: bool, id: &Id) -> Line
    ensures bytes { result.bytes ≡ comma_if later ++ compact_text (id_data id.now) }
    ensures len { length result.bytes ≤ 58 }
{
    let mut line = Line::new();
    if later {
        line.push_str(",");
    }
    put_id(&mut line, id);
    line
}
