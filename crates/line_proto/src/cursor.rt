//! How cursor expressions are read from JSON.
ghost use Rattle.std.specs.Prelude.{◌≡◌, option_map, ok_or};
ghost use Rattle.serde_json.specs.View.{view, items_view};
ghost use Rattle.json_scalar.specs.Refusal.{UnlessMemory};
ghost use Rattle.json_scalar.specs.declared.refusal.Refusal.TheVariants.{BadRequest};
ghost use Rattle.line_proto.specs.Reading.{step_from, steps_from, variable_of, variable_from};
ghost use Rattle.line_proto.specs.Reading.{start_of_number};
ghost use Rattle.line_proto.specs.Reading.{start_from, expr_items, expr_from};

use crate::name::Name;
use crate::request::{CursorExpr, Start};
use doc_api::{Step, Steps};
use json_scalar::Refusal;
use op_core::KeyText;
use serde_json::Value;
use std::alloc::Global;

/// The most bytes of the name of a variable.
pub(crate) const MAX_VARIABLE_LEN: usize = 128;

/// The cursor expression that this JSON writes.
pub(crate) fn read_expr(alloc: Global, value: &Value) -> Result<CursorExpr, Refusal>
    ensures { UnlessMemory result (ok_or (expr_from (view value.now)) BadRequest) }
{
    let Some(items) = value.as_array() else {
        return Err(Refusal::BadRequest);
    };
    read_expr_items(alloc, items.as_slice())
}

fn read_expr_items(alloc: Global, items: &[Value]) -> Result<CursorExpr, Refusal>
    ensures { UnlessMemory result (ok_or (expr_items (items_view items.now)) BadRequest) }
{
    match items {
        [] => Err(Refusal::BadRequest),
        [first, rest @ ..] => {
            let start = read_start(alloc, first)?;
            let steps = read_steps(alloc, rest)?;
            Ok(CursorExpr { start, steps })
        }
    }
}

fn read_start(alloc: Global, value: &Value) -> Result<Start, Refusal>
    ensures { UnlessMemory result (ok_or (start_from (view value.now)) BadRequest) }
{
    match value {
        Value::Number(number) => start_of_number(number.as_u64()).ok_or(Refusal::BadRequest),
        Value::String(text) => Ok(Start::Variable(variable(alloc, text.as_str())?)),
        Value::Null | Value::Bool(_) | Value::Array(_) | Value::Object(_) => {
            Err(Refusal::BadRequest)
        }
    }
}

fn start_of_number(number: Option<u64>) -> Option<Start>
    ensures { result ≡ start_of_number number }
{
    match number {
        Some(0) => Some(Start::Document),
        _ => None,
    }
}

/// The name of a variable that this JSON writes.
pub(crate) fn read_variable(alloc: Global, value: &Value) -> Result<Name, Refusal>
    ensures { UnlessMemory result (ok_or (variable_from (view value.now)) BadRequest) }
{
    match value.as_str() {
        Some(text) => variable(alloc, text),
        None => Err(Refusal::BadRequest),
    }
}

fn variable(alloc: Global, text: &str) -> Result<Name, Refusal>
    ensures { UnlessMemory result (ok_or (variable_of text.now) BadRequest) }
{
    if text.len() > MAX_VARIABLE_LEN {
        return Err(Refusal::BadRequest);
    }
    Name::new(alloc, text)
}

/// The steps that these items write. `BadRequest` where one writes none, `NoMemory` when out of memory.
pub fn read_steps(alloc: Global, items: &[Value]) -> Result<Steps, Refusal>
    ensures { UnlessMemory result (ok_or (steps_from (items_view items.now)) BadRequest) }
{
    let mut steps = Vec::with_capacity(alloc, items.len())?;
    for item in items {
        steps.push(read_step(alloc, item)?)?;
    }
    Ok(Steps::from(steps))
}

fn read_step(alloc: Global, value: &Value) -> Result<Step, Refusal>
    ensures { UnlessMemory result (ok_or (step_from (view value.now)) BadRequest) }
{
    match value {
        Value::Number(number) => match number.as_u64() {
            Some(index) => Ok(Step::Index(index)),
            None => Err(Refusal::BadRequest),
        },
        Value::String(text) => Ok(Step::Get(KeyText::new(alloc, text.as_str())?)),
        Value::Null | Value::Bool(_) | Value::Array(_) | Value::Object(_) => {
            Err(Refusal::BadRequest)
        }
    }
}
