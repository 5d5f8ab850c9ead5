//! How places are read from JSON: a start, which may be a cursor in its written form, and steps.
ghost use Rattle.std.specs.Prelude.{◌≡◌, ok_or, None};
ghost use Rattle.serde_json.specs.View.{view, items_view};
ghost use Rattle.json_scalar.specs.Refusal.{UnlessMemory};
ghost use Rattle.json_scalar.specs.declared.refusal.Refusal.TheVariants.{BadRequest};
ghost use Rattle.op_core.specs.Reading.{cursor_within};
ghost use Rattle.replica_c.specs.Places.{in_a_place, whole_document, place_start_number};
ghost use Rattle.replica_c.specs.Places.{place_start, place_items, place_from};

use doc_api::Place;
use json_scalar::Refusal;
use line_proto::read_steps;
use op_core::{Cursor, Key, Path, read_cursor};
use serde_json::Value;
use std::alloc::Global;

/// The place that this JSON writes: an array of a start and steps.
pub(crate) fn read_place(alloc: Global, value: &Value) -> Result<Place, Refusal>
    ensures { UnlessMemory result (ok_or (place_from (view value.now)) BadRequest) }
{
    let Some(items) = value.as_array() else {
        return Err(Refusal::BadRequest);
    };
    read_place_items(alloc, items.as_slice())
}

fn read_place_items(alloc: Global, items: &[Value]) -> Result<Place, Refusal>
    ensures { UnlessMemory result (ok_or (place_items (items_view items.now)) BadRequest) }
{
    match items {
        [] => Err(Refusal::BadRequest),
        [first, rest @ ..] => {
            let start = read_start(alloc, first)?;
            let steps = read_steps(alloc, rest)?;
            Ok(Place { start, steps })
        }
    }
}

fn read_start(alloc: Global, value: &Value) -> Result<Cursor, Refusal>
    ensures { UnlessMemory result (ok_or (place_start (view value.now)) BadRequest) }
{
    match value {
        Value::Number(number) => start_of_number(alloc, number.as_u64()).ok_or(Refusal::BadRequest),
        Value::Array(_) => read_written(alloc, value),
        Value::Null | Value::Bool(_) | Value::String(_) | Value::Object(_) => {
            Err(Refusal::BadRequest)
        }
    }
}

fn start_of_number(alloc: Global, number: Option<u64>) -> Option<Cursor>
    ensures { result ≡ place_start_number number }
{
    match number {
        Some(0) => Some(root(alloc)),
        _ => None,
    }
}

// The cursor of the document itself.
fn root(alloc: Global) -> Cursor
    ensures { result ≡ whole_document }
{
    Cursor {
        path: Path::new(alloc),
        key: Key::Doc,
    }
}

// Texts of any length: `resolve` refuses a long one by the cause that is due.
fn read_written(alloc: Global, value: &Value) -> Result<Cursor, Refusal>
    ensures { UnlessMemory result (ok_or (cursor_within None (view value.now)) BadRequest) }
{
    match read_cursor(alloc, value, None) {
        Ok(cursor) => Ok(cursor),
        Err(cause) => Err(in_a_place(cause)),
    }
}

// The cause against a place with a cursor that was refused for this one.
fn in_a_place(cause: Refusal) -> Refusal
    ensures { result ≡ in_a_place cause }
{
    match cause {
        Refusal::NoMemory => Refusal::NoMemory,
        _ => Refusal::BadRequest,
    }
}
