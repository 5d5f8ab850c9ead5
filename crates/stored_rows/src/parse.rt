//! The rows of both tables, checked and taken apart.
ghost use Rattle.std.specs.Prelude.{◌≡◌, ◌≢◌, ◌≤◌, ◌<◌, ◌^◌, [], ◌∷◌, ◌++◌, ◌⊎◌, ◌↔◌, codes, false};
ghost use Rattle.std.specs.Prelude.{length, IfOk, OnOk};
ghost use Rattle.std.specs.Prelude.{IfErr, Ok, IsTrue, IsUtf8, ℕ, ℤ, List};
ghost use Rattle.sqlite.specs.declared.types.Value.TheVariants.{Text};
ghost use Rattle.sqlite_value.specs.Order.{column};
ghost use Rattle.stored_rows.specs.Content.{meta_row, entry_row};
ghost use Rattle.op_core.specs.Op.{Op};
ghost use Rattle.op_core.specs.Shape.{is_shaped};
ghost use Rattle.crdt_rules.specs.Effect.{is_add};
ghost use Rattle.stored_log.specs.Docs.{AreInOrder, op_text, add_log, UnlessNoMemory};
ghost use Rattle.stored_log.specs.Limits.{last_epoch};
ghost use Rattle.stored_rows.specs.Accepted.{IsNext};
ghost use Rattle.stored_rows.specs.Parsed.{IsMeta, AddsRow};

use op_core::{Mutation, Operation};
use sqlite::types::{FromSql, ValueRef};
use sqlite::{Error, ErrorCode, Row};
use std::alloc::Global;
use stored_log::{Fault, LAST_EPOCH, StoredDoc, add_one, may_follow, operation_of};

/// The format that is written.
pub const FORMAT: u32 = 2;

/// The format from before there were additions.
pub const OLD_FORMAT: u32 = 1;

// A value of another type than a text is refused.
fn text_at(row: &Row, at: usize) -> Result<&str, Fault>
    ensures ok { IfOk result (λ text. (column row.now at ≡ Text text.now) × IsUtf8 text.now) }
    ensures err { IfErr result (λ e. e ≢ Fault.Store) }
    ensures accepts { (text : List ℕ) → at < length row.now → column row.now at ≡ Text text
        → IsUtf8 text
        → IfErr result (λ e. e ≡ Fault.Memory) }
{
    let Ok(ValueRef::Text(bytes)) = row.get_ref(at) else {
        return Err(Fault::Refused);
    };
    match str::from_utf8(bytes) {
        Ok(text) => Ok(text),
        Err(_) => Err(Fault::Refused),
    }
}

// A value of another type is refused.
fn get<T: FromSql>(row: &Row, at: usize) -> Result<T, Fault>
    ensures ok { IfOk result (T.FromSql.reads_as (column row.now at)) }
    ensures err { IfErr result (λ e. e ≢ Fault.Store) }
    ensures accepts { at < length row.now → T.FromSql.is_readable (column row.now at)
        → IfErr result (λ e. e ≡ Fault.Memory) }
{
    match row.get(at) {
        Ok(value) => Ok(value),
        Err(Error::SqliteFailure(ErrorCode::OutOfMemory)) => Err(Fault::Memory),
        Err(_) => Err(Fault::Refused),
    }
}

// The rowid and the value of the row of `meta` with this name.
fn meta_value(row: &Row, name: &str) -> Result<(i64, u32), Fault>
    ensures ok { IfOk result (λ p. row.now ≡ meta_row p.0 name.now p.1) }
    ensures err { IfErr result (λ e. e ≢ Fault.Store) }
    ensures accepts { (id : ℤ) (value : ℕ) → value < 2 ^ 32 → row.now ≡ meta_row id name.now value
        → IfErr result (λ e. e ≡ Fault.Memory) }
{
    if row.column_count() != 3 {
        return Err(Fault::Refused);
    }
    let id: i64 = get(row, 0)?;
    let found = text_at(row, 1)?;
    let value: u32 = get(row, 2)?;
    if found != name {
        return Err(Fault::Refused);
    }
    Ok((id, value))
}

/// The two numbers of `meta`.
#[derive(Clone, Copy, Debug)]
pub struct Meta {
    pub format: u32,
    pub epoch: u32,
}

// Whether this is a format that is known, and an epoch that may have been given out.
fn are_known(format: u32, epoch: u32) -> bool
    ensures { IsTrue result ↔ ((epoch ≤ last_epoch) × ((format ≡ 2) ⊎ (format ≡ 1))) }
{
    epoch <= LAST_EPOCH && (format == FORMAT || format == OLD_FORMAT)
}

/// What the rows of `meta` name: a format that is known, and an epoch that may have been given out.
pub fn meta_in(rows: &[Row]) -> Result<Meta, Fault>
    ensures ok { IfOk result (λ meta. (meta.epoch ≤ last_epoch)
        × ((meta.format ≡ 2) ⊎ (meta.format ≡ 1)) × IsMeta meta.format meta.epoch rows.now) }
    ensures accepts { (format epoch : ℕ) → epoch ≤ last_epoch → (format ≡ 2) ⊎ (format ≡ 1)
        → IsMeta format epoch rows.now → IfErr result (λ e. e ≡ Fault.Memory) }
    ensures err { IfErr result (λ e. e ≢ Fault.Store) }
{
    let [first, second] = rows else {
        return Err(Fault::Refused);
    };
    let (format_id, format) = meta_value(first, "format")?;
    let (epoch_id, epoch) = meta_value(second, "epoch")?;
    if format_id == epoch_id || !are_known(format, epoch) {
        return Err(Fault::Refused);
    }
    Ok(Meta { format, epoch })
}

// The document, the place and the text of a row of `entry`.
fn entry_of(row: &Row) -> Result<(&str, u32, &str), Fault>
    ensures ok { IfOk result (λ e. row.now ≡ entry_row e.0.now e.1 e.2.now) }
    ensures text { IfOk result (λ e. IsUtf8 e.2.now) }
    ensures accepts { (doc text : List ℕ) (place : ℕ) → IsUtf8 doc → place < 2 ^ 32 → IsUtf8 text
        → row.now ≡ entry_row doc place text → IfErr result (λ e. e ≡ Fault.Memory) }
{
    if row.column_count() != 3 {
        return Err(Fault::Refused);
    }
    let name = text_at(row, 0)?;
    let place: u32 = get(row, 1)?;
    let text = text_at(row, 2)?;
    Ok((name, place, text))
}

// The operation of a text. The old format has no additions.
fn entry_in(alloc: Global, format: u32, text: &str) -> Result<Operation, Fault>
    ensures ok { IfOk result (λ op. op_text op ≡ text.now) }
    ensures in_format { IfOk result (λ op. format ≡ 1 → is_add op.mutation ≡ false) }
    ensures accepts { (op : Op) → IsTrue (is_shaped op) → (format ≡ 1 → is_add op.mutation ≡ false)
        → op_text op ≡ text.now → UnlessNoMemory result (Ok op) }
{
    let op = operation_of(alloc, text)?;
    if format == OLD_FORMAT && is_addition(&op) {
        return Err(Fault::Refused);
    }
    Ok(op)
}

fn is_addition(op: &Operation) -> bool
    ensures { result ≡ is_add op.now.mutation }
{
    matches!(op.mutation(), Mutation::Add(_))
}

/// Adds the entry of one row. It has to come next in its document.
pub(crate) fn add_row(
    docs: &mut Vec<StoredDoc>,
    alloc: Global,
    format: u32,
    row: &Row,
) -> Result<(), Fault>
    requires { AreInOrder docs.old.items }
    ensures ok { OnOk result (AddsRow format row.now docs.old.items docs.new.items) }
    ensures accepts { (name : List ℕ) (op : Op) → IsNext format docs.old.items row.now name op
        → IfErr result (λ e. e ≡ Fault.Memory) }
    ensures added { (name : List ℕ) (op : Op) → IsNext format docs.old.items row.now name op
        → OnOk result (docs.new.items ≡ add_log name (op ∷ []) docs.old.items) }
{
    let (name, place, text) = entry_of(row)?;
    if place == 0 || !may_follow(docs.as_slice(), name, place as usize - 1) {
        return Err(Fault::Refused);
    }
    let entry = entry_in(alloc, format, text)?;
    add_one(docs, alloc, name, entry)
}
