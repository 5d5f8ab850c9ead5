//! The texts of entries.
ghost use Rattle.std.specs.Prelude.{◌≡◌, ◌≢◌, map, string_bytes, IfOk, IfErr, Ok, IsTrue};
ghost use Rattle.serde_json.specs.View.{view};
ghost use Rattle.serde_json.specs.Errors.{IsMemory};
ghost use Rattle.op_core.specs.Op.{Op};
ghost use Rattle.op_core.specs.Shape.{is_shaped};
ghost use Rattle.op_core.specs.Wire.{wire};
ghost use Rattle.stored_log.specs.Docs.{op_text, UnlessNoMemory};

use crate::fault::Fault;
use json_scalar::Refusal;
use json_text::{AsJson, JsonText};
use op_core::{Operation, read_wire};
use serde_json::{Error, Value};
use std::alloc::Global;

// The room of a text at first, in bytes. Most texts have less.
const FIRST_ROOM: usize = 128;

// How many bytes more than it writes a writer may want at the end of a text.
const SPARE: usize = 32;

// Room for a text of the same length.
fn room_like(text: &str) -> usize {
    text.len().saturating_add(SPARE)
}

/// The text of an operation.
pub fn text_of(alloc: Global, op: &Operation) -> Result<String, Fault>
    ensures ok { IfOk result (λ text. string_bytes text ≡ op_text op.now) }
    ensures err { IfErr result (λ e. e ≡ Fault.Memory) }
{
    text_in(alloc, op, FIRST_ROOM)
}

// The text of an operation, which has room for so many bytes at first.
fn text_in(alloc: Global, op: &Operation, room: usize) -> Result<String, Fault>
    ensures ok { IfOk result (λ text. string_bytes text ≡ op_text op.now) }
    ensures err { IfErr result (λ e. e ≡ Fault.Memory) }
{
    let Ok(mut text) = JsonText::with_room(alloc, room) else {
        return Err(Fault::Memory);
    };
    match op.put_in(&mut text) {
        Ok(()) => Ok(text.into_string()),
        Err(_) => Err(Fault::Memory),
    }
}

/// The texts of these operations.
pub fn texts_of(alloc: Global, ops: &[Operation]) -> Result<Vec<String>, Fault>
    ensures ok { IfOk result (λ texts. map string_bytes texts.items ≡ map op_text ops.now) }
    ensures err { IfErr result (λ e. e ≡ Fault.Memory) }
{
    let mut texts = Vec::new(alloc);
    let mut room = FIRST_ROOM;
    for op in ops {
        let text = text_in(alloc, op, room)?;
        room = room_like(text.as_str());
        if texts.push(text).is_err() {
            return Err(Fault::Memory);
        }
    }
    Ok(texts)
}

/// The operation whose text this is. Another text, though it has the same JSON, is refused.
pub fn operation_of(alloc: Global, text: &str) -> Result<Operation, Fault>
    ensures ok { IfOk result (λ op. op_text op ≡ text.now) }
    ensures err { IfErr result (λ e. e ≢ Fault.Store) }
    // Each text that is written is read.
    ensures accepts { (op : Op) → IsTrue (is_shaped op) → op_text op ≡ text.now
        → UnlessNoMemory result (Ok op) }
{
    let op = read(alloc, text)?;
    let again = text_in(alloc, &op, room_like(text))?;
    if again.as_str() != text {
        return Err(Fault::Refused);
    }
    Ok(op)
}

fn read(alloc: Global, text: &str) -> Result<Operation, Fault>
    ensures err { IfErr result (λ e. e ≢ Fault.Store) }
    ensures accepts { (op : Op) → IsTrue (is_shaped op) → op_text op ≡ text.now
        → UnlessNoMemory result (Ok op) }
{
    match Value::from_str(alloc, text) {
        Ok(value) => read_value(alloc, &value),
        Err(error) => Err(fault_of(&error)),
    }
}

fn read_value(alloc: Global, value: &Value) -> Result<Operation, Fault>
    ensures err { IfErr result (λ e. e ≢ Fault.Store) }
    ensures accepts { (op : Op) → IsTrue (is_shaped op) → wire op ≡ view value.now
        → UnlessNoMemory result (Ok op) }
{
    match read_wire(alloc, value) {
        Ok(op) => Ok(op),
        Err(Refusal::NoMemory) => Err(Fault::Memory),
        Err(_) => Err(Fault::Refused),
    }
}

fn fault_of(error: &Error) -> Fault
    ensures never_store { result ≢ Fault.Store }
    ensures memory { IsMemory error.now → result ≡ Fault.Memory }
{
    if error.is_memory() {
        Fault::Memory
    } else {
        Fault::Refused
    }
}
