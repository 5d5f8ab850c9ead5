//! How values are read from JSON, and written as JSON. They are functions beside the types: a
//! method would carry the library of JSON into each crate that names a value.
ghost use Rattle.std.specs.Prelude.{◌≡◌, Ok, IsTrue};
ghost use Rattle.serde_json.specs.Data.{Data};
ghost use Rattle.serde_json.specs.View.{view, items_view, members_view};
ghost use Rattle.json_scalar.specs.Refusal.{UnlessMemory};
ghost use Rattle.json_scalar.specs.Scalar.{ReadsVal, is_val, scalar_data, val_data, val_of};
ghost use Rattle.json_scalar.specs.Scalar.{list_of, map_of};
ghost use Rattle.json_scalar.specs.Writing.{Writes};
ghost use Rattle.json_scalar.specs.declared.scalar.Val.{Val};

use crate::refusal::Refusal;
use crate::scalar::{Scalar, Text, Val};
use serde_json::{Map, Value};
use std::alloc::Global;

/// The value that this JSON writes. `BadValue` where it writes none: a number that is no integer
/// of 64 bits, a text of more than 4,096 bytes, a map with members or a list with items.
/// `NoMemory` when out of memory.
pub fn val_from_json(alloc: Global, value: &Value) -> Result<Val, Refusal>
    ensures reads { ReadsVal (view value.now) result }
    ensures complete { (v : Val) → IsTrue (is_val v) → val_data v ≡ view value.now
        → UnlessMemory result (Ok v) }
    ensures answer { UnlessMemory result (val_of (view value.now)) }
{
    read_val(alloc, value)
}

/// The value's JSON. The only refusal is `NoMemory`.
pub fn val_to_json(alloc: Global, val: &Val) -> Result<Value, Refusal>
    ensures { Writes (val_data val.now) result }
{
    match val {
        Val::Scalar(scalar) => Ok(scalar_to_json(alloc, scalar)?),
        Val::EmptyMap => Ok(Value::Object(Map::new(alloc))),
        Val::EmptyList => Ok(Value::Array(Vec::new(alloc))),
    }
}

/// The law that each value has one JSON of its own. No two values have the same one, a value is
/// read from its own, and nothing else is read as that value.
pub fn one_json_each()
    ensures one { (v other : Val) → IsTrue (is_val v) → IsTrue (is_val other)
        → val_data v ≡ val_data other → v ≡ other }
    ensures back { (v : Val) → IsTrue (is_val v) → val_of (val_data v) ≡ Ok v }
    ensures only { (d : Data) (v : Val) → val_of d ≡ Ok v → val_data v ≡ d }
{}

fn scalar_to_json(alloc: Global, scalar: &Scalar) -> Result<Value, Refusal>
    ensures { Writes (scalar_data scalar.now) result }
{
    match scalar {
        Scalar::Int(n) => Ok(Value::from(*n)),
        Scalar::Text(text) => Ok(Value::try_from_str(alloc, text.as_str())?),
        Scalar::Bool(b) => Ok(Value::Bool(*b)),
        Scalar::Null => Ok(Value::Null),
    }
}

fn read_val(alloc: Global, value: &Value) -> Result<Val, Refusal>
    ensures { UnlessMemory result (val_of (view value.now)) }
{
    match value {
        Value::Null => Ok(Val::Scalar(Scalar::Null)),
        Value::Bool(b) => Ok(Val::Scalar(Scalar::Bool(*b))),
        Value::Number(number) => {
            let n = number.as_i64().ok_or(Refusal::BadValue)?;
            Ok(Val::Scalar(Scalar::Int(n)))
        }
        Value::String(text) => {
            let text = Text::new(alloc, text.as_str())?;
            Ok(Val::Scalar(Scalar::Text(text)))
        }
        Value::Array(items) => read_list(items.as_slice()),
        Value::Object(members) => read_map(members),
    }
}

#[tactic(auto, using(crate::proofs::Readings::list_steps))]
fn read_list(items: &[Value]) -> Result<Val, Refusal>
    ensures { result ≡ list_of (items_view items.now) }
{
    match items {
        [] => Ok(Val::EmptyList),
        _ => Err(Refusal::BadValue),
    }
}

#[tactic(auto, using(crate::proofs::Readings::map_steps))]
fn read_map(members: &Map<String, Value>) -> Result<Val, Refusal>
    ensures { result ≡ map_of (members_view members.now.entries) }
{
    if members.is_empty() {
        Ok(Val::EmptyMap)
    } else {
        Err(Refusal::BadValue)
    }
}
