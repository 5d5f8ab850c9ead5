//! What a server writes: the refusal of its file, or the totals of its documents.
ghost use Rattle.std.specs.Prelude.{◌≡◌, ◌⊎◌, length, map, OnOk};
ghost use Rattle.std.specs.Io.KnownBytes.{Appends};
ghost use Rattle.stored_log.specs.Report.{refusal_line};
ghost use Rattle.served_log.specs.Totals.{total_line, total_lines};

use locked_doc::Totals;
use std::alloc::Global;
use std::io;
use stored_log::{Fault, REFUSED_LINE};

// Writes the refusal of the file, and flushes.
fn write_refusal<W: io::Write>(out: &mut W) -> io::Result<()>
    ensures { OnOk result (Appends (W.contents out.old) (W.contents out.new) refusal_line) }
{
    out.write_all(REFUSED_LINE)?;
    out.flush()
}

/// Writes the refusal of the file for `Refused`, and nothing for another fault. The error is the
/// writer's.
pub fn report_fault<W: io::Write>(fault: Fault, out: &mut W) -> io::Result<()>
    ensures refused { OnOk result (fault ≡ Fault.Refused
        → Appends (W.contents out.old) (W.contents out.new) refusal_line) }
    ensures unwritten { (fault ≡ Fault.Refused) ⊎ (out.new ≡ out.old) }
{
    match fault {
        Fault::Refused => write_refusal(out),
        Fault::Store | Fault::Memory => Ok(()),
    }
}

// Writes the totals of a document.
fn write_total<W: io::Write>(
    alloc: Global,
    name: &str,
    totals: &Totals,
    out: &mut W,
) -> io::Result<()>
    ensures { OnOk result (Appends (W.contents out.old) (W.contents out.new) (total_line name.now totals.now)) }
{
    let accepted = totals.accepted;
    let logged = totals.logged;
    let copied = totals.copied;
    let line = format!(in alloc; "[\"total\",\"{name}\",{accepted},{logged},{copied}]\n")?;
    out.write_all(line.as_bytes())
}

/// Writes a line with the totals of each document, in order, and flushes. The error is the
/// writer's, or `OutOfMemory`.
pub fn write_totals<W: io::Write>(
    alloc: Global,
    names: &[&str],
    totals: &[Totals],
    out: &mut W,
) -> io::Result<()>
    requires { length totals.now ≡ length names.now }
    ensures { OnOk result (Appends (W.contents out.old) (W.contents out.new)
        (total_lines (map (λ s. s.now) names.now) totals.now)) }
{
    for i in 0..names.len() {
        write_total(alloc, names[i], &totals[i], out)?;
    }
    out.flush()
}
