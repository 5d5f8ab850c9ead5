//! How a text that was read of a document is written: in pieces, and without allocating.
ghost use Rattle.std.specs.Prelude.{◌≡◌, ◌++◌, false, is_err, OnOk, OnErr};
ghost use Rattle.std.specs.Io.KnownBytes.{Appends};
ghost use Rattle.line_feed.specs.Covered.{StaysCovered};
ghost use Rattle.line_feed.specs.Cut.{AppendsCut, line_of};
ghost use Rattle.line_proto.specs.Replies.{around};

use doc_api::CompactText;
use line_feed::{DeviceFault, Sink, write_all};

/// Writes the line of a text, which may be long: it is not copied. `prefix` comes before it.
pub(crate) fn write_text_line<W: Sink>(
    prefix: &str,
    text: &CompactText,
    sink: &mut W,
) -> Result<(), DeviceFault>
    requires { W.has_failed sink.old ≡ false }
    ensures ok { OnOk result (Appends (W.contents sink.old) (W.contents sink.new)
        (line_of (around prefix.now text.now))) }
    ensures cut { OnErr result (AppendsCut (W.contents sink.old) (W.contents sink.new)
        (line_of (around prefix.now text.now))) }
    ensures covered { StaysCovered (W.covers sink.old) (W.covers sink.new) }
    ensures failed { W.has_failed sink.new ≡ is_err result }
{
    write_both(prefix.as_bytes(), text.as_str().as_bytes(), sink)?;
    write_all(sink, b"]\n")
}

// Writes these bytes, and others behind them.
fn write_both<W: Sink>(first: &[u8], second: &[u8], sink: &mut W) -> Result<(), DeviceFault>
    requires { W.has_failed sink.old ≡ false }
    ensures ok { OnOk result (Appends (W.contents sink.old) (W.contents sink.new) (first.now ++ second.now)) }
    ensures cut { OnErr result (AppendsCut (W.contents sink.old) (W.contents sink.new) (first.now ++ second.now)) }
    ensures covered { StaysCovered (W.covers sink.old) (W.covers sink.new) }
    ensures failed { W.has_failed sink.new ≡ is_err result }
{
    write_all(sink, first)?;
    write_all(sink, second)
}
