//! How a line is read.
ghost use Rattle.std.specs.Prelude.{◌≡◌, ◌≢◌, ℕ, List, Some, None, Err, ok_or};
ghost use Rattle.serde_json.specs.Data.{Data};
ghost use Rattle.serde_json.specs.View.{view, items_view};
ghost use Rattle.json_scalar.specs.Refusal.{UnlessMemory, and_then};
ghost use Rattle.json_scalar.specs.declared.refusal.Refusal.TheVariants.{BadRequest, NotJson, NoMemory};
ghost use Rattle.op_core.specs.Written.{ReadsOp};
ghost use Rattle.line_proto.specs.Reading.{line_data};
ghost use Rattle.replica_c.specs.Asking.{plain_ask, ask_look, ask_where, ask_index};
ghost use Rattle.replica_c.specs.Asking.{ask_deletion, ask_delivery};
ghost use Rattle.replica_c.specs.Asking.{ask_forgetting, short_ask, ask_ops, ask_chains, ask_change};
ghost use Rattle.replica_c.specs.Asking.{ask_inserts, ask_deletes, vals_from, vals_of, some_items};
ghost use Rattle.replica_c.specs.Asking.{count_from, some_count, long_ask};
ghost use Rattle.replica_c.specs.Asking.{ask_by};
ghost use Rattle.replica_c.specs.Asking.{ask_items, ask_from, ask_of, op_of_line};

use crate::ask::{Ask, Run, Vals};
use crate::place::read_place;
use doc_api::{Command, Query, State};
use json_scalar::{Refusal, val_from_json};
use line_proto::{look_of, read_ascending, read_fronts, read_json, read_limit, read_mutation};
use op_core::{Mutation, Operation, read_id, read_wire};
use serde_json::Value;
use std::alloc::Global;

/// What a line asks, or the first cause against it.
pub(crate) fn read_ask(alloc: Global, line: &[u8]) -> Result<Ask, Refusal>
    ensures { UnlessMemory result (ask_of line.now) }
{
    let value = read_json(alloc, line)?;
    read_value(alloc, &value)
}

/// The operation that a line writes, or the first cause against it.
pub(crate) fn read_operation(alloc: Global, line: &[u8]) -> Result<Operation, Refusal>
    ensures { UnlessMemory result (op_of_line line.now) }
{
    let value = read_json(alloc, line)?;
    read_wire(alloc, &value)
}

/// The law that `op_of_line`, by which the lines of a log are read, is what the written form says.
pub fn operation_as_written()
    ensures reads { (line : List ℕ) (d : Data) → line_data line ≡ Some d
        → ReadsOp d (op_of_line line) }
    ensures no_json { (line : List ℕ) → line_data line ≡ None → op_of_line line ≡ Err NotJson }
    ensures sure { (line : List ℕ) → op_of_line line ≢ Err NoMemory }
{}

fn read_value(alloc: Global, value: &Value) -> Result<Ask, Refusal>
    ensures { UnlessMemory result (ask_from (view value.now)) }
{
    let Some(items) = value.as_array() else {
        return Err(Refusal::BadRequest);
    };
    read_items(alloc, items.as_slice())
}

fn read_items(alloc: Global, items: &[Value]) -> Result<Ask, Refusal>
    ensures { UnlessMemory result (ask_items (items_view items.now)) }
{
    match items {
        [] => Err(Refusal::BadRequest),
        [verb, rest @ ..] => {
            let Some(verb) = verb.as_str() else {
                return Err(Refusal::BadRequest);
            };
            read_by(alloc, verb, rest)
        }
    }
}

fn read_by(alloc: Global, verb: &str, items: &[Value]) -> Result<Ask, Refusal>
    ensures { UnlessMemory result (ask_by verb.now (items_view items.now)) }
{
    match items {
        [] => plain_ask(verb).ok_or(Refusal::BadRequest),
        [first] => short_ask(alloc, verb, first),
        [first, second] => long_ask(alloc, verb, first, second),
        [_, _, _, ..] => Err(Refusal::BadRequest),
    }
}

fn plain_ask(verb: &str) -> Option<Ask>
    ensures { result ≡ plain_ask verb.now }
{
    match verb {
        "front" => Some(Ask::Read(Query::State(State::Front))),
        "held" => Some(Ask::Read(Query::State(State::Held))),
        _ => None,
    }
}

fn short_ask(alloc: Global, verb: &str, item: &Value) -> Result<Ask, Refusal>
    ensures { UnlessMemory result (short_ask verb.now (view item.now)) }
{
    match verb {
        "delete" => read_deletion(alloc, item),
        "deliver" => read_delivery(alloc, item),
        "forget" => read_forgetting(item),
        "cursor" => read_where(alloc, item),
        "index" => read_index(alloc, item),
        _ => read_look(alloc, verb, item),
    }
}

fn read_deletion(alloc: Global, place: &Value) -> Result<Ask, Refusal>
    ensures { UnlessMemory result (ask_deletion (view place.now)) }
{
    Ok(Ask::Act(Command::Change(read_place(alloc, place)?, Mutation::Delete)))
}

fn read_delivery(alloc: Global, op: &Value) -> Result<Ask, Refusal>
    ensures { UnlessMemory result (ask_delivery (view op.now)) }
{
    Ok(Ask::Act(Command::Deliver(read_wire(alloc, op)?)))
}

fn read_forgetting(id: &Value) -> Result<Ask, Refusal>
    ensures { result ≡ ask_forgetting (view id.now) }
{
    match read_id(id) {
        Some(id) => Ok(Ask::Act(Command::Forget(id))),
        None => Err(Refusal::BadRequest),
    }
}

fn read_where(alloc: Global, place: &Value) -> Result<Ask, Refusal>
    ensures { UnlessMemory result (ask_where (view place.now)) }
{
    Ok(Ask::Read(Query::Resolve(read_place(alloc, place)?)))
}

fn read_index(alloc: Global, place: &Value) -> Result<Ask, Refusal>
    ensures { UnlessMemory result (ask_index (view place.now)) }
{
    Ok(Ask::Read(Query::Index(read_place(alloc, place)?)))
}

fn read_look(alloc: Global, verb: &str, place: &Value) -> Result<Ask, Refusal>
    ensures { UnlessMemory result (ask_look verb.now (view place.now)) }
{
    let Some(look) = look_of(verb) else {
        return Err(Refusal::BadRequest);
    };
    Ok(Ask::Read(Query::Look(look, read_place(alloc, place)?)))
}

fn long_ask(alloc: Global, verb: &str, first: &Value, second: &Value) -> Result<Ask, Refusal>
    ensures { UnlessMemory result (long_ask verb.now (view first.now) (view second.now)) }
{
    match verb {
        "ops" => read_ops(alloc, first, second),
        "chains" => read_chains(alloc, first, second),
        "inserts" => read_inserts(alloc, first, second),
        "deletes" => read_deletes(alloc, first, second),
        _ => read_change(alloc, verb, first, second),
    }
}

fn read_ops(alloc: Global, front: &Value, limit: &Value) -> Result<Ask, Refusal>
    ensures { UnlessMemory result (ask_ops (view front.now) (view limit.now)) }
{
    let Some(limit) = read_limit(limit) else {
        return Err(Refusal::BadRequest);
    };
    Ok(Ask::Read(Query::Operations(read_ascending(alloc, front)?, limit)))
}

fn read_chains(alloc: Global, after: &Value, front: &Value) -> Result<Ask, Refusal>
    ensures { UnlessMemory result (ask_chains (view after.now) (view front.now)) }
{
    let (after, front) = read_fronts(alloc, after, front)?;
    Ok(Ask::Read(Query::Chains(after, front)))
}

fn read_inserts(alloc: Global, place: &Value, vals: &Value) -> Result<Ask, Refusal>
    ensures { UnlessMemory result (ask_inserts (view place.now) (view vals.now)) }
{
    let place = read_place(alloc, place)?;
    Ok(Ask::Run(Run::Inserts(place, read_vals(alloc, vals)?)))
}

fn read_deletes(alloc: Global, place: &Value, count: &Value) -> Result<Ask, Refusal>
    ensures { UnlessMemory result (ask_deletes (view place.now) (view count.now)) }
{
    let Some(count) = read_count(count) else {
        return Err(Refusal::BadRequest);
    };
    Ok(Ask::Run(Run::Deletes(read_place(alloc, place)?, count)))
}

fn read_count(count: &Value) -> Option<u64>
    ensures { result ≡ count_from (view count.now) }
{
    some_count(count.as_u64()?)
}

fn some_count(count: u64) -> Option<u64>
    ensures { result ≡ some_count count }
{
    if 1 <= count { Some(count) } else { None }
}

// The values of a run: at least one.
fn read_vals(alloc: Global, value: &Value) -> Result<Vals, Refusal>
    ensures { UnlessMemory result (vals_from (view value.now)) }
{
    let Some(items) = value.as_array() else {
        return Err(Refusal::BadRequest);
    };
    read_some(alloc, items.as_slice())
}

fn read_some(alloc: Global, items: &[Value]) -> Result<Vals, Refusal>
    ensures { UnlessMemory result
        (and_then (ok_or (some_items (items_view items.now)) BadRequest) vals_of) }
{
    match items {
        [] => Err(Refusal::BadRequest),
        [_, ..] => read_each(alloc, items),
    }
}

fn read_each(alloc: Global, items: &[Value]) -> Result<Vals, Refusal>
    ensures { UnlessMemory result (vals_of (items_view items.now)) }
{
    let mut entries = Vec::with_capacity(alloc, items.len())?;
    for item in items {
        entries.push(val_from_json(alloc, item)?)?;
    }
    Ok(Vals::from(entries))
}

fn read_change(alloc: Global, verb: &str, place: &Value, value: &Value) -> Result<Ask, Refusal>
    ensures { UnlessMemory result (ask_change verb.now (view place.now) (view value.now)) }
{
    let place = read_place(alloc, place)?;
    Ok(Ask::Act(Command::Change(place, read_mutation(alloc, verb, value)?)))
}
