//! How requests are parsed from lines.
ghost use Rattle.std.specs.Prelude.{◌≡◌, ok_or};
ghost use Rattle.serde_json.specs.Read.{read};
ghost use Rattle.serde_json.specs.View.{view, items_view};
ghost use Rattle.json_scalar.specs.Refusal.{UnlessMemory};
ghost use Rattle.json_scalar.specs.declared.refusal.Refusal.TheVariants.{BadRequest, BadValue};
ghost use Rattle.json_scalar.specs.declared.refusal.Refusal.TheVariants.{NotJson, NoMemory};
ghost use Rattle.op_core.specs.Reading.{front_of_json};
ghost use Rattle.line_proto.specs.Reading.{bare_request, state_of_word, plain_request, look_of};
ghost use Rattle.line_proto.specs.Reading.{look_from};
ghost use Rattle.line_proto.specs.Reading.{deletion_request};
ghost use Rattle.line_proto.specs.Reading.{copied_from, delivery_from, forgetting_from, short_request};
ghost use Rattle.line_proto.specs.Reading.{naming_from, limit_of};
ghost use Rattle.line_proto.specs.Reading.{limit_from, in_order, ascending_from, ops_from};
ghost use Rattle.line_proto.specs.Reading.{both_in_order, fronts_from, chains_from};
ghost use Rattle.line_proto.specs.Reading.{addition_of};
ghost use Rattle.line_proto.specs.Reading.{mutation_of_verb, amount_of};
ghost use Rattle.line_proto.specs.Reading.{change_request, long_request, doc_request_items};
ghost use Rattle.line_proto.specs.Reading.{bare_from, named_from};
ghost use Rattle.line_proto.specs.Reading.{request_items, request_from, line_data, request_of};
ghost use Rattle.line_proto.specs.Loading.{Loads};

use crate::cursor::{read_expr, read_variable};
use crate::name::Name;
use crate::request::{DocRequest, Request};
use doc_api::{Look, State};
use json_scalar::{Refusal, Val, val_from_json};
use op_core::{Front, Mutation, read_front, read_id, read_wire};
use serde_json::Value;
use std::alloc::Global;
use std::str;

// The most operations that one request asks for.
const MAX_LIMIT: u64 = 64;

impl Request {
    ghost use Rattle.std.specs.Prelude.{◌≢◌, ℕ, List, Some, Ok, Err, IfOk, IfErr, IsTrue};
    ghost use Rattle.json_scalar.specs.declared.refusal.Refusal.{Refusal};
    ghost use Rattle.line_proto.specs.Written.{request_data, is_request};
    ghost use Rattle.line_proto.specs.Refused.{IsLineRefusedFor};
    ghost use Rattle.line_proto.specs.declared.request.Request.{Request};

    /// Parses a line, without its newline, as a request. The line's length is checked by the line
    /// feed, the document by the session.
    ///
    /// `NotJson` where the bytes aren't JSON text, are nested more than 127 deep or have a
    /// number that is neither a finite float nor an integer; then `BadRequest` where no request
    /// has this form: not an array, an unknown word, a wrong number of items, an item of a
    /// wrong kind, a name of a variable of more than 128 bytes, a limit outside 1 to 64; then
    /// `BadValue` for what is assigned, inserted or added; `TooDeep`, `BadOperation` or
    /// `BadFront` for an operation to deliver; `BadFront` for a front that doesn't ascend.
    /// `NoMemory` may come in place of any answer.
    pub fn read(alloc: Global, line: &[u8]) -> Result<Request, Refusal>
        ensures reads { IfOk result
            (λ r. (line_data line.now ≡ Some (request_data r)) × IsTrue (is_request r)) }
        ensures refuses { IfErr result (IsLineRefusedFor (line_data line.now)) }
        ensures complete { (r : Request) → IsTrue (is_request r)
            → line_data line.now ≡ Some (request_data r)
            → UnlessMemory result (Ok r) }
        ensures due { (cause : Refusal) → cause ≢ NoMemory
            → IsLineRefusedFor (line_data line.now) cause
            → UnlessMemory result (Err cause) }
        ensures answer { UnlessMemory result (request_of line.now) }
    {
        read_line(alloc, line)
    }

    /// The law that no two requests have the same written form.
    pub fn one_form_each()
        ensures { (r other : Request) → IsTrue (is_request r) → IsTrue (is_request other)
            → request_data r ≡ request_data other → r ≡ other }
    {}

    /// The law that `request_of`, by which a session is defined, is what the written forms say: a
    /// line is the request that has its JSON, or is refused for the cause that no request has it.
    pub fn read_as_written()
        ensures reads { (line : List ℕ) (r : Request) → request_of line ≡ Ok r
            → (line_data line ≡ Some (request_data r)) × IsTrue (is_request r) }
        ensures complete { (line : List ℕ) (r : Request) → IsTrue (is_request r)
            → line_data line ≡ Some (request_data r) → request_of line ≡ Ok r }
        ensures refuses { (line : List ℕ) (cause : Refusal) → request_of line ≡ Err cause
            → (cause ≢ NoMemory) × IsLineRefusedFor (line_data line) cause }
        ensures due { (line : List ℕ) (cause : Refusal) → cause ≢ NoMemory
            → IsLineRefusedFor (line_data line) cause → request_of line ≡ Err cause }
    {}
}

// Apart from `Request::read`, so that its clauses are proved at one exit.
fn read_line(alloc: Global, line: &[u8]) -> Result<Request, Refusal>
    ensures { UnlessMemory result (request_of line.now) }
{
    let value = read_json(alloc, line)?;
    read_request(alloc, &value)
}

/// The JSON that a line's bytes are. `NotJson` where they aren't JSON text, are nested more than 127
/// deep or have a number that is neither a finite float nor an integer; `NoMemory` when out of memory.
pub fn read_json(alloc: Global, line: &[u8]) -> Result<Value, Refusal>
    ensures { Loads (line_data line.now) result }
{
    match str::from_utf8(line) {
        Ok(text) => read_text(alloc, text),
        Err(_) => Err(Refusal::NotJson),
    }
}

fn read_text(alloc: Global, text: &str) -> Result<Value, Refusal>
    ensures { Loads (read text.now) result }
{
    match Value::from_str(alloc, text) {
        Ok(value) => Ok(value),
        Err(error) => {
            if error.is_memory() {
                Err(Refusal::NoMemory)
            } else {
                Err(Refusal::NotJson)
            }
        }
    }
}

fn read_request(alloc: Global, value: &Value) -> Result<Request, Refusal>
    ensures { UnlessMemory result (request_from (view value.now)) }
{
    let Some(items) = value.as_array() else {
        return Err(Refusal::BadRequest);
    };
    read_items(alloc, items.as_slice())
}

fn read_items(alloc: Global, items: &[Value]) -> Result<Request, Refusal>
    ensures { UnlessMemory result (request_items (items_view items.now)) }
{
    match items {
        [] => Err(Refusal::BadRequest),
        [verb] => read_bare(verb),
        [verb, document, rest @ ..] => read_named(alloc, verb, document, rest),
    }
}

fn read_bare(verb: &Value) -> Result<Request, Refusal>
    ensures { result ≡ bare_from (view verb.now) }
{
    let Some(verb) = verb.as_str() else {
        return Err(Refusal::BadRequest);
    };
    bare_request(verb).ok_or(Refusal::BadRequest)
}

fn bare_request(verb: &str) -> Option<Request>
    ensures { result ≡ bare_request verb.now }
{
    match verb {
        "quit" => Some(Request::Quit),
        "version" => Some(Request::Version),
        _ => None,
    }
}

// The request on a document, with the items after its name.
fn read_named(
    alloc: Global,
    verb: &Value,
    document: &Value,
    rest: &[Value],
) -> Result<Request, Refusal>
    ensures { UnlessMemory result (named_from (view verb.now) (view document.now) (items_view rest.now)) }
{
    let Some(verb) = verb.as_str() else {
        return Err(Refusal::BadRequest);
    };
    let Some(document) = document.as_str() else {
        return Err(Refusal::BadRequest);
    };
    let name = Name::new(alloc, document)?;
    let ask = read_doc_request(alloc, verb, rest)?;
    Ok(Request::Of(name, ask))
}

fn read_doc_request(alloc: Global, verb: &str, items: &[Value]) -> Result<DocRequest, Refusal>
    ensures { UnlessMemory result (doc_request_items verb.now (items_view items.now)) }
{
    match items {
        [] => plain_request(verb).ok_or(Refusal::BadRequest),
        [third] => short_request(alloc, verb, third),
        [third, fourth] => long_request(alloc, verb, third, fourth),
        [_, _, _, ..] => Err(Refusal::BadRequest),
    }
}

fn plain_request(verb: &str) -> Option<DocRequest>
    ensures { result ≡ plain_request verb.now }
{
    match verb {
        "open" => Some(DocRequest::Open),
        _ => Some(DocRequest::State(state_of_word(verb)?)),
    }
}

fn state_of_word(verb: &str) -> Option<State>
    ensures { result ≡ state_of_word verb.now }
{
    match verb {
        "front" => Some(State::Front),
        "held" => Some(State::Held),
        "account" => Some(State::Account),
        "size" => Some(State::Size),
        _ => None,
    }
}

fn short_request(alloc: Global, verb: &str, third: &Value) -> Result<DocRequest, Refusal>
    ensures { UnlessMemory result (short_request verb.now (view third.now)) }
{
    match verb {
        "delete" => read_deletion(alloc, third),
        "deliver" => read_delivery(alloc, third),
        "forget" => read_forgetting(third),
        "copied" => read_copied(third),
        _ => read_look(alloc, verb, third),
    }
}

fn read_deletion(alloc: Global, cursor: &Value) -> Result<DocRequest, Refusal>
    ensures { UnlessMemory result (deletion_request (view cursor.now)) }
{
    Ok(DocRequest::Change(read_expr(alloc, cursor)?, Mutation::Delete))
}

fn read_delivery(alloc: Global, op: &Value) -> Result<DocRequest, Refusal>
    ensures { UnlessMemory result (delivery_from (view op.now)) }
{
    Ok(DocRequest::Deliver(read_wire(alloc, op)?))
}

fn read_forgetting(id: &Value) -> Result<DocRequest, Refusal>
    ensures { result ≡ forgetting_from (view id.now) }
{
    match read_id(id) {
        Some(id) => Ok(DocRequest::Forget(id)),
        None => Err(Refusal::BadRequest),
    }
}

fn read_copied(id: &Value) -> Result<DocRequest, Refusal>
    ensures { result ≡ copied_from (view id.now) }
{
    match read_id(id) {
        Some(id) => Ok(DocRequest::IsCopied(id)),
        None => Err(Refusal::BadRequest),
    }
}

fn read_look(alloc: Global, verb: &str, cursor: &Value) -> Result<DocRequest, Refusal>
    ensures { UnlessMemory result (look_from verb.now (view cursor.now)) }
{
    let Some(look) = look_of(verb) else {
        return Err(Refusal::BadRequest);
    };
    Ok(DocRequest::Look(read_expr(alloc, cursor)?, look))
}

/// What the word of a request reads at a place, if it does.
pub fn look_of(verb: &str) -> Option<Look>
    ensures { result ≡ look_of verb.now }
{
    match verb {
        "keys" => Some(Look::Keys),
        "values" => Some(Look::Values),
        "items" => Some(Look::Items),
        "conflicts" => Some(Look::Conflicts),
        "show" => Some(Look::Show),
        "sum" => Some(Look::Sum),
        _ => None,
    }
}

fn long_request(
    alloc: Global,
    verb: &str,
    third: &Value,
    fourth: &Value,
) -> Result<DocRequest, Refusal>
    ensures { UnlessMemory result (long_request verb.now (view third.now) (view fourth.now)) }
{
    match verb {
        "let" => read_naming(alloc, third, fourth),
        "ops" => read_ops(alloc, third, fourth),
        "chains" => read_chains(alloc, third, fourth),
        _ => read_change(alloc, verb, third, fourth),
    }
}

fn read_naming(alloc: Global, name: &Value, cursor: &Value) -> Result<DocRequest, Refusal>
    ensures { UnlessMemory result (naming_from (view name.now) (view cursor.now)) }
{
    let name = read_variable(alloc, name)?;
    Ok(DocRequest::Let(name, read_expr(alloc, cursor)?))
}

fn read_ops(alloc: Global, front: &Value, limit: &Value) -> Result<DocRequest, Refusal>
    ensures { UnlessMemory result (ops_from (view front.now) (view limit.now)) }
{
    let Some(limit) = read_limit(limit) else {
        return Err(Refusal::BadRequest);
    };
    Ok(DocRequest::Operations(read_ascending(alloc, front)?, limit))
}

/// The limit that this JSON writes, if it writes one: 1 to 64.
pub fn read_limit(limit: &Value) -> Option<u64>
    ensures { result ≡ limit_from (view limit.now) }
{
    limit_of(limit.as_u64()?)
}

fn limit_of(limit: u64) -> Option<u64>
    ensures { result ≡ limit_of limit }
{
    if 1 <= limit && limit <= MAX_LIMIT {
        Some(limit)
    } else {
        None
    }
}

/// The front that this JSON writes. `BadRequest` where it writes none, `BadFront` where that doesn't
/// ascend, `NoMemory` when out of memory.
pub fn read_ascending(alloc: Global, value: &Value) -> Result<Front, Refusal>
    ensures { UnlessMemory result (ascending_from (view value.now)) }
{
    in_order(read_any_front(alloc, value)?)
}

fn in_order(front: Front) -> Result<Front, Refusal>
    ensures { result ≡ in_order front }
{
    if front.is_ascending() {
        Ok(front)
    } else {
        Err(Refusal::BadFront)
    }
}

fn read_chains(alloc: Global, after: &Value, front: &Value) -> Result<DocRequest, Refusal>
    ensures { UnlessMemory result (chains_from (view after.now) (view front.now)) }
{
    let (after, front) = read_fronts(alloc, after, front)?;
    Ok(DocRequest::Chains(after, front))
}

/// The two fronts that these JSON values write. `BadRequest` where one of them writes none,
/// `BadFront` where one doesn't ascend, `NoMemory` when out of memory.
pub fn read_fronts(alloc: Global, first: &Value, second: &Value) -> Result<(Front, Front), Refusal>
    ensures { UnlessMemory result (fronts_from (view first.now) (view second.now)) }
{
    let first = read_any_front(alloc, first)?;
    let second = read_any_front(alloc, second)?;
    both_in_order(first, second)
}

fn both_in_order(first: Front, second: Front) -> Result<(Front, Front), Refusal>
    ensures { result ≡ both_in_order first second }
{
    if !(first.is_ascending() && second.is_ascending()) {
        return Err(Refusal::BadFront);
    }
    Ok((first, second))
}

fn read_any_front(alloc: Global, value: &Value) -> Result<Front, Refusal>
    ensures { UnlessMemory result (ok_or (front_of_json (view value.now)) BadRequest) }
{
    match read_front(alloc, value) {
        Ok(front) => Ok(front),
        Err(Refusal::NoMemory) => Err(Refusal::NoMemory),
        Err(_) => Err(Refusal::BadRequest),
    }
}

fn read_change(
    alloc: Global,
    verb: &str,
    cursor: &Value,
    value: &Value,
) -> Result<DocRequest, Refusal>
    ensures { UnlessMemory result (change_request verb.now (view cursor.now) (view value.now)) }
{
    let cursor = read_expr(alloc, cursor)?;
    Ok(DocRequest::Change(cursor, read_mutation(alloc, verb, value)?))
}

/// What a change with a value does, by the request's word: to assign, to insert or to add it.
/// `BadRequest` for another word, `BadValue` for a value of a wrong kind, `NoMemory` when out of
/// memory.
pub fn read_mutation(alloc: Global, verb: &str, value: &Value) -> Result<Mutation, Refusal>
    ensures { UnlessMemory result (mutation_of_verb verb.now (view value.now)) }
{
    match verb {
        "assign" => Ok(Mutation::Assign(val_from_json(alloc, value)?)),
        "insert" => Ok(Mutation::Insert(val_from_json(alloc, value)?)),
        "add" => read_addition(value),
        _ => Err(Refusal::BadRequest),
    }
}

fn read_addition(value: &Value) -> Result<Mutation, Refusal>
    ensures { result ≡ addition_of (view value.now) }
{
    match amount_of(value) {
        Some(amount) => Ok(Mutation::Add(amount)),
        None => Err(Refusal::BadValue),
    }
}

fn amount_of(value: &Value) -> Option<i64>
    ensures { result ≡ amount_of (view value.now) }
{
    match value {
        Value::Number(number) => number.as_i64(),
        Value::Null | Value::Bool(_) | Value::String(_) | Value::Array(_) | Value::Object(_) => {
            None
        }
    }
}
