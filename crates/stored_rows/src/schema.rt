//! Whether a schema is the one that the statements of the stored log make.

ghost use Rattle.std.specs.Prelude.{◌≡◌, ◌≢◌, ◌↔◌, [], ◌∷◌, None, true, false, codes, IsTrue, List};
ghost use Rattle.std.specs.Prelude.{ℕ};
ghost use Rattle.std.specs.Option.{option_copied};
ghost use Rattle.sqlite.specs.declared.types.Value.TheVariants.{Null};
ghost use Rattle.sqlite.specs.Collation.TheVariants.{Binary};
ghost use Rattle.sqlite_value.specs.Keys.{plain};
ghost use Rattle.stored_rows.specs.Tables.{meta, entry, no_schema, copy_schema, strict_column};
ghost use Rattle.stored_rows.specs.Tables.{strict_table};
ghost use Rattle.stored_rows.specs.Tables.{copy_indexes, HasKey, HasNoMore, HasNoView, HasNeither};
ghost use Rattle.stored_rows.specs.Tables.{HasBoth, IsMadeAs};
ghost use Rattle.stored_rows.specs.Tables.{automatic_index, table_called};

use sqlite_items::Items;
use sqlite_schema::code::Terms;
use sqlite_schema::schema::{Column, Index, Kind, Schema, Stamps, Table};
use sqlite_value::keys::{Collation, Order};
use sqlite_value::value::Value;

/// The database has nothing in it.
pub fn is_bare(schema: &Schema) -> bool
    ensures { IsTrue result ↔ (schema.now ≡ no_schema) }
{
    schema.tables.is_empty() && schema.indexes.is_empty() && schema.views.is_empty()
}

fn is_column(column: &Column, name: &[u8], kind: Kind) -> bool
    ensures { IsTrue result ↔ (column.now ≡ strict_column name.now kind) }
{
    column.name.as_slice() == name
        && column.kind == kind
        && column.is_strict
        && column.not_null
        && matches!(&column.default, Value::Null)
        && column.collation == Collation::Binary
}

fn is_index(index: &Index, name: &[u8], tree: u32, table: u32, columns: &[usize]) -> bool
    ensures { IsTrue result ↔ (index.now ≡ automatic_index name.now tree table columns.now) }
{
    index.name.as_slice() == name
        && index.tree == tree
        && index.table == table
        && index.columns.as_slice() == columns
        && index.order == Order::PLAIN
        && index.is_unique
}

fn has_none(terms: &Terms) -> bool
    ensures { IsTrue result ↔ (terms.now ≡ []) }
{
    terms.roots.is_empty()
}

fn has_no_stamps(stamps: &Stamps) -> bool
    ensures { IsTrue result ↔ (stamps.now ≡ record { places = []; terms = []; formats = [] }) }
{
    stamps.places.is_empty() && has_none(&stamps.terms) && stamps.formats.is_empty()
}

fn is_one_key(keys: &[Items<usize>], key: &[usize]) -> bool
    ensures { IsTrue result ↔ (keys.now ≡ key.now ∷ []) }
{
    let [only] = keys else {
        return false;
    };
    only.as_slice() == key
}

fn is_one_plain(orders: &[Order]) -> bool
    ensures { IsTrue result ↔ (orders.now ≡ plain ∷ []) }
{
    let [only] = orders else {
        return false;
    };
    *only == Order::PLAIN
}

fn has_key(table: &Table, primary: &[usize]) -> bool
    ensures { IsTrue result ↔ HasKey primary.now table.now }
{
    if table.key.is_some() {
        return false;
    }
    if table.primary.as_slice() != primary {
        return false;
    }
    if !is_one_key(table.uniques.as_slice(), primary) {
        return false;
    }
    is_one_plain(table.orders.as_slice())
}

fn has_no_more(table: &Table) -> bool
    ensures { IsTrue result ↔ HasNoMore table.now }
{
    if !has_none(&table.checks) {
        return false;
    }
    if !table.references.is_empty() {
        return false;
    }
    if !table.computed.is_empty() {
        return false;
    }
    if !has_no_stamps(&table.stamps) {
        return false;
    }
    !table.is_counted
}

fn is_table(table: &Table, name: &[u8], primary: &[usize]) -> bool
    ensures { IsTrue result ↔ (table.now
        ≡ strict_table name.now table.now.tree table.now.columns primary.now) }
{
    if table.name.as_slice() != name {
        return false;
    }
    if !has_key(table, primary) {
        return false;
    }
    has_no_more(table)
}

fn are_of_meta(columns: &[Column]) -> bool
    ensures { IsTrue result ↔ (columns.now ≡ meta.columns) }
{
    let [name, value] = columns else {
        return false;
    };
    if !is_column(name, b"name", Kind::Text) {
        return false;
    }
    is_column(value, b"value", Kind::Integer)
}

fn are_of_entry(columns: &[Column]) -> bool
    ensures { IsTrue result ↔ (columns.now ≡ entry.columns) }
{
    let [doc, place, text] = columns else {
        return false;
    };
    if !is_column(doc, b"doc", Kind::Text) {
        return false;
    }
    if !is_column(place, b"place", Kind::Integer) {
        return false;
    }
    is_column(text, b"text", Kind::Text)
}

fn is_meta(table: &Table) -> bool
    ensures { IsTrue result ↔ (table.now ≡ record meta { tree = table.now.tree }) }
{
    if !is_table(table, b"meta", &[1]) {
        return false;
    }
    are_of_meta(table.columns.as_slice())
}

fn is_entry(table: &Table) -> bool
    ensures { IsTrue result ↔ (table.now ≡ record entry { tree = table.now.tree }) }
{
    if !is_table(table, b"entry", &[1, 2]) {
        return false;
    }
    are_of_entry(table.columns.as_slice())
}

fn are_tables(tables: &[Table]) -> bool
    ensures { IsTrue result ↔ (tables.now ≡ copy_schema.tables) }
{
    let [meta, entry] = tables else {
        return false;
    };
    if !is_meta(meta) || meta.tree != 0 {
        return false;
    }
    is_entry(entry) && entry.tree == 2
}

fn are_indexes(indexes: &[Index]) -> bool
    ensures { IsTrue result ↔ (indexes.now ≡ copy_indexes) }
{
    let [by_name, by_place] = indexes else {
        return false;
    };
    if !is_index(by_name, b"sqlite_autoindex_meta_1", 1, 0, &[1]) {
        return false;
    }
    is_index(by_place, b"sqlite_autoindex_entry_1", 3, 2, &[1, 2])
}

/// The database has the two tables of the stored log, as its statements make them, and nothing
/// else.
pub fn is_copy(schema: &Schema) -> bool
    ensures { IsTrue result ↔ (schema.now ≡ copy_schema) }
{
    if !are_tables(schema.tables.as_slice()) {
        return false;
    }
    if !are_indexes(schema.indexes.as_slice()) {
        return false;
    }
    schema.views.is_empty()
}

/// Which of the two tables a database has, whatever else it has.
#[derive(Clone, Copy, Debug, PartialEq, Eq)]
pub enum Found {
    Neither,
    Both,
    /// One of them alone, one with other columns or another key, something else of that
    /// name, or a name in other letters.
    Other,
}

fn named<'a>(schema: &'a Schema, name: &[u8]) -> Option<&'a Table>
    ensures { option_copied result ≡ table_called name.now schema.now }
{
    match schema.table_named(name) {
        Some(at) => schema.tables.as_slice().get(at),
        None => None,
    }
}

fn has_no_view(schema: &Schema) -> bool
    ensures { IsTrue result ↔ HasNoView schema.now }
{
    schema.view_named(b"meta").is_none() && schema.view_named(b"entry").is_none()
}

/// Which of the two tables there are, in a database that may have further ones.
pub fn find_tables(schema: &Schema) -> Found
    ensures neither { (result ≡ Found.Neither) ↔ HasNeither schema.now }
    ensures both { (result ≡ Found.Both) ↔ HasBoth schema.now }
{
    if !has_no_view(schema) {
        return Found::Other;
    }
    found_of(named(schema, b"meta"), named(schema, b"entry"))
}

fn found_of(first: Option<&Table>, second: Option<&Table>) -> Found
    ensures neither { (result ≡ Found.Neither) ↔ ((option_copied first.entry ≡ None)
        × (option_copied second.entry ≡ None)) }
    ensures both { (result ≡ Found.Both) ↔ (IsMadeAs meta (option_copied first.entry)
        × IsMadeAs entry (option_copied second.entry)) }
{
    match (first, second) {
        (None, None) => Found::Neither,
        (Some(first), Some(second)) => both_or_other(first, second),
        (Some(_), None) | (None, Some(_)) => Found::Other,
    }
}

fn both_or_other(first: &Table, second: &Table) -> Found
    ensures both { (result ≡ Found.Both) ↔ ((first.now ≡ record meta { tree = first.now.tree })
        × (second.now ≡ record entry { tree = second.now.tree })) }
    ensures some { result ≢ Found.Neither }
{
    if is_meta(first) && is_entry(second) {
        Found::Both
    } else {
        Found::Other
    }
}
