//! The report of what a stored log holds, as lines of JSON.

ghost use Rattle.std.specs.Prelude.{◌≡◌, ◌≢◌, ◌⊎◌, ◌++◌, true, false, Err};
ghost use Rattle.std.specs.Prelude.{IfOk, IfErr, IsOkAnd, OnOk, string_bytes};
ghost use Rattle.std.specs.Io.KnownBytes.{Appends};
ghost use Rattle.serde_json.specs.Data.{Data};
ghost use Rattle.serde_json.specs.Written.{compact_text};
ghost use Rattle.json_text.specs.Tokens.{data_tokens};
ghost use Rattle.line_feed.specs.Cut.{AppendsCut, line_of};
ghost use Rattle.stored_log.specs.Docs.{AreInOrder, AreGood};
ghost use Rattle.stored_log.specs.Report.{epoch_data, line_by, report, refusal_line, rows_data};
ghost use Rattle.stored_log.specs.Report.{StopsShort};

use crate::{Fault, StoredFault, StoredLog};
use json_scalar::Refusal;
use json_text::{AsJson, JsonText};
use line_feed::{Sink, write_all};
use op_core::Front;
use std::alloc::Global;

/// What is reported instead of a report where a file holds no stored log.
pub const REFUSED_LINE: &[u8] = b"[\"no\",26,\"copy-refused\"]\n";

/// Why there is no whole report.
#[derive(Clone, Copy, Debug, PartialEq, Eq)]
pub enum CheckFailure {
    /// The stored log could not be opened; the caller knows why.
    Unopened,
    /// Out of memory for the text.
    Memory,
    /// The stored log could not be closed.
    Unclosed(StoredFault),
    /// The sink has failed.
    Output,
}

/// Closes the stored log that was opened, and writes the report of what it holds, as
/// `check_over`. If it was refused a line says so. If it could not be opened for
/// another cause, nothing is written.
pub fn check_opened<L: StoredLog, W: Sink>(
    alloc: Global,
    opened: Result<L, Fault>,
    sink: &mut W,
) -> Result<(), CheckFailure>
    requires { W.has_failed sink.old ≡ false }
    ensures reported { OnOk result (IsOkAnd opened (λ copy.
        Appends (W.contents sink.old) (W.contents sink.new) (report (L.log copy).docs (L.log copy).epoch))) }
    ensures good { IfOk opened (λ copy. AreInOrder (L.log copy).docs × AreGood (L.log copy).docs) }
    // The store that is left has all of it, also beside further content.
    ensures closed { OnOk result (IsOkAnd opened
        (λ copy. (last : L.Left) × L.has_moved copy last × L.is_in_file copy last)) }
    ensures refused { opened ≡ Err Fault.Refused
        → Appends (W.contents sink.old) (W.contents sink.new) refusal_line
        ⊎ AppendsCut (W.contents sink.old) (W.contents sink.new) refusal_line }
    ensures whole { opened ≡ Err Fault.Refused → W.has_failed sink.new ≡ false
        → Appends (W.contents sink.old) (W.contents sink.new) refusal_line }
    ensures unwritten { IfErr opened (λ fault. (fault ≡ Fault.Refused) ⊎ (sink.new ≡ sink.old)) }
    ensures stopped { IfErr result (λ _. StopsShort (W.contents sink.old) (W.contents sink.new)
        ⊎ (sink.new ≡ sink.old)) }
    ensures unopened { IfErr opened (λ _. result ≡ Err CheckFailure.Unopened) }
    ensures opened { IfOk opened (λ _. result ≢ Err CheckFailure.Unopened) }
{
    match opened {
        Ok(copy) => check_closed(alloc, copy, sink),
        Err(fault) => {
            report_fault(fault, sink);
            Err(CheckFailure::Unopened)
        }
    }
}

// Closes the stored log, and then writes the report of what it held.
fn check_closed<L: StoredLog, W: Sink>(
    alloc: Global,
    copy: L,
    sink: &mut W,
) -> Result<(), CheckFailure>
    requires { W.has_failed sink.old ≡ false }
    ensures reported { OnOk result (Appends (W.contents sink.old) (W.contents sink.new)
        (report (L.log copy).docs (L.log copy).epoch)) }
    ensures good { AreInOrder (L.log copy).docs × AreGood (L.log copy).docs }
    ensures closed { OnOk result ((last : L.Left) × L.has_moved copy last
        × L.is_in_file copy last) }
    ensures cut { IfErr result (λ _. AppendsCut (W.contents sink.old) (W.contents sink.new)
        (report (L.log copy).docs (L.log copy).epoch) ⊎ (sink.new ≡ sink.old)) }
    ensures opened { result ≢ Err CheckFailure.Unopened }
{
    let text = match report_of(alloc, &copy) {
        Ok(text) => text,
        Err(_) => return Err(CheckFailure::Memory),
    };
    match copy.close() {
        Ok(_left) => write_text(sink, text.as_bytes()),
        Err((why, _left)) => Err(CheckFailure::Unclosed(why)),
    }
}

// Writes these bytes, up to a fault of the sink.
fn write_text<W: Sink>(sink: &mut W, text: &[u8]) -> Result<(), CheckFailure>
    requires { W.has_failed sink.old ≡ false }
    ensures written { OnOk result (Appends (W.contents sink.old) (W.contents sink.new) text.now) }
    ensures cut { IfErr result
        (λ _. AppendsCut (W.contents sink.old) (W.contents sink.new) text.now) }
    ensures output { IfErr result (λ failure. failure ≡ CheckFailure.Output) }
{
    match write_all(sink, text) {
        Ok(()) => Ok(()),
        Err(_) => Err(CheckFailure::Output),
    }
}

// Writes the refusal of a stored log, and nothing for another fault.
fn report_fault<W: Sink>(fault: Fault, sink: &mut W)
    requires { W.has_failed sink.old ≡ false }
    ensures refused { fault ≡ Fault.Refused
        → Appends (W.contents sink.old) (W.contents sink.new) refusal_line
        ⊎ AppendsCut (W.contents sink.old) (W.contents sink.new) refusal_line }
    ensures whole { fault ≡ Fault.Refused → W.has_failed sink.new ≡ false
        → Appends (W.contents sink.old) (W.contents sink.new) refusal_line }
    ensures unwritten { (fault ≡ Fault.Refused) ⊎ (sink.new ≡ sink.old) }
    ensures stopped { StopsShort (W.contents sink.old) (W.contents sink.new)
        ⊎ (sink.new ≡ sink.old) }
{
    match fault {
        Fault::Refused => write_refusal(sink),
        Fault::Store | Fault::Memory => {}
    }
}

// Writes the refusal of a stored log, up to a fault of the sink.
fn write_refusal<W: Sink>(sink: &mut W)
    requires { W.has_failed sink.old ≡ false }
    ensures written { Appends (W.contents sink.old) (W.contents sink.new) refusal_line
        ⊎ AppendsCut (W.contents sink.old) (W.contents sink.new) refusal_line }
    ensures whole { W.has_failed sink.new ≡ false
        → Appends (W.contents sink.old) (W.contents sink.new) refusal_line }
{
    match write_all(sink, REFUSED_LINE) {
        Ok(()) => {}
        // Nothing more can be written.
        Err(_) => {}
    }
}

/// Writes a line for each document of the stored log, in the order of their names, with its
/// rows and its front (a version vector), and then a line with the epoch. The status is 0,
/// or 1 where the sink or the stored log has failed, or memory runs out. Only tests call
/// it: the program calls `check_opened`.
pub fn check_over<L: StoredLog, W: Sink>(alloc: Global, copy: &L, sink: &mut W) -> u8
    requires { W.has_failed sink.old ≡ false }
    ensures status { (result ≡ 0) ⊎ (result ≡ 1) }
    ensures reported { result ≡ 0
        → Appends (W.contents sink.old) (W.contents sink.new) (report (L.log copy.now).docs (L.log copy.now).epoch) }
    ensures good { AreInOrder (L.log copy.now).docs × AreGood (L.log copy.now).docs }
    ensures failed { W.has_failed sink.new ≡ true → result ≡ 1 }
    ensures shut { (L.log copy.now).has_failed ≡ true → (result ≡ 1) × (sink.new ≡ sink.old) }
    // What was written then is a part of the lines, from their beginning on.
    ensures cut { result ≡ 1 → AppendsCut (W.contents sink.old) (W.contents sink.new)
        (report (L.log copy.now).docs (L.log copy.now).epoch) ⊎ (sink.new ≡ sink.old) }
{
    match report_of(alloc, copy) {
        Ok(text) => match write_all(sink, text.as_bytes()) {
            Ok(()) => 0,
            Err(_) => 1,
        },
        Err(_) => 1,
    }
}

fn report_of<L: StoredLog>(alloc: Global, copy: &L) -> Result<String, Refusal>
    ensures text { IfOk result
        (λ text. string_bytes text ≡ report (L.log copy.now).docs (L.log copy.now).epoch) }
    ensures good { AreInOrder (L.log copy.now).docs × AreGood (L.log copy.now).docs }
    ensures works { IfOk result (λ text. (L.log copy.now).has_failed ≡ false) }
{
    match copy.epoch() {
        Ok(epoch) => lines_of(alloc, copy, epoch),
        Err(_) => Err(Refusal::CopyRefused),
    }
}

fn lines_of<L: StoredLog>(alloc: Global, copy: &L, epoch: u64) -> Result<String, Refusal>
    requires { AreInOrder (L.log copy.now).docs }
    ensures { IfOk result (λ text. string_bytes text ≡ report (L.log copy.now).docs epoch) }
{
    let Ok(names) = copy.names(alloc) else {
        return Err(Refusal::CopyRefused);
    };
    let mut text = String::new(alloc);
    for name in &names {
        add_doc(alloc, &mut text, copy, name.as_str())?;
    }
    add_epoch(alloc, &mut text, epoch)?;
    Ok(text)
}

// Adds the line of the document of this name.
fn add_doc<L: StoredLog>(
    alloc: Global,
    text: &mut String,
    copy: &L,
    name: &str,
) -> Result<(), Refusal>
    ensures { OnOk result (string_bytes text.new
        ≡ string_bytes text.old ++ line_by (L.log copy.now).docs name.now) }
{
    let Ok(rows) = copy.rows(name) else {
        return Err(Refusal::CopyRefused);
    };
    let Ok(front) = copy.front(name) else {
        return Err(Refusal::CopyRefused);
    };
    add_rows(alloc, text, name, rows, &front)
}

// Adds a line with this name, so many rows and their front.
fn add_rows(
    alloc: Global,
    text: &mut String,
    name: &str,
    rows: usize,
    front: &Front,
) -> Result<(), Refusal>
    ensures { OnOk result (string_bytes text.new ≡ string_bytes text.old
        ++ line_of (compact_text (rows_data name.now rows front.now))) }
{
    let mut line = JsonText::new(alloc);
    put_rows(&mut line, name, rows, front)?;
    add_line(text, line)
}

fn add_epoch(alloc: Global, text: &mut String, epoch: u64) -> Result<(), Refusal>
    ensures { OnOk result (string_bytes text.new ≡ string_bytes text.old
        ++ line_of (compact_text (epoch_data epoch))) }
{
    let mut line = JsonText::new(alloc);
    put_epoch(&mut line, epoch)?;
    add_line(text, line)
}

// Adds the text of a value, and a newline.
fn add_line(text: &mut String, line: JsonText) -> Result<(), Refusal>
    ensures { (d : Data) → line ≡ data_tokens d
        → OnOk result (string_bytes text.new ≡ string_bytes text.old ++ line_of (compact_text d)) }
{
    text.push_str(line.into_string().as_str())?;
    Ok(text.push('\n')?)
}

#[tactic(auto, using(crate::proofs::Lines::fours))]
fn put_rows(line: &mut JsonText, name: &str, rows: usize, front: &Front) -> Result<(), Refusal>
    ensures { OnOk result (line.new ≡ line.old ++ data_tokens (rows_data name.now rows front.now)) }
{
    line.begin_list()?;
    line.text("doc")?;
    line.text(name)?;
    line.count(rows as u64)?;
    front.put_in(line)?;
    line.end_list()
}

fn put_epoch(line: &mut JsonText, epoch: u64) -> Result<(), Refusal>
    ensures { OnOk result (line.new ≡ line.old ++ data_tokens (epoch_data epoch)) }
{
    line.begin_list()?;
    line.text("epoch")?;
    line.count(epoch)?;
    line.end_list()
}
