//! What is wrong with a database that was refused as a stored log. No clause says anything of it.
use op_core::{Mutation, Operation};
use sqlite::types::ValueRef;
use sqlite::{Alter, Connection, Row};
use sqlite_schema::schema::Schema;
use std::alloc::Global;
use std::{fmt, slice};
use stored_log::{Fault, StoredDoc, is_doc_name, operation_of};
use stored_rows::{FORMAT, Found, OLD_FORMAT, find_tables, meta_in, read_meta};

/// What is wrong with a database as a stored log.
#[derive(Clone, Copy, Debug)]
pub enum Wrong {
    /// The table of this name is not there, and the other one is.
    NoTable(&'static str),
    /// One of the two tables has other columns or another key, or is a view.
    OtherTable,
    /// `meta` does not have the two numbers that it should.
    Meta,
    /// Its epoch can't have been given out.
    Epoch,
    /// Its format is none of those that are read.
    Format(u32),
    /// This row of `entry`, counted from 1 by document and place, and what of it.
    Row(u64, Part),
    /// It could not be looked at once more.
    Unknown,
}

/// What is wrong with a row of `entry`.
#[derive(Clone, Copy, Debug)]
pub enum Part {
    /// Its document has no such name.
    Doc,
    /// Its place is not the next one of the document.
    Place,
    /// Its text is no operation of the format.
    Text,
    /// Its operation does not fit behind the rows before it.
    Order,
}

impl fmt::Display for Wrong {
    fn fmt<W: fmt::Write>(&self, f: &mut fmt::Formatter<W>) -> fmt::Result {
        match self {
            Wrong::NoTable(name) => write!(f, "the table {name} is missing"),
            Wrong::OtherTable => f.write_str("its table meta or entry has another form"),
            Wrong::Meta => f.write_str("its table meta has other rows than format and epoch"),
            Wrong::Epoch => f.write_str("its epoch in meta is none that can be given out"),
            Wrong::Format(format) => {
                write!(
                    f,
                    "its format is {format}, and {OLD_FORMAT} and {FORMAT} are read"
                )
            }
            Wrong::Row(at, part) => {
                let what = part_message(*part);
                write!(f, "row no. {at} of entry, by doc and place: {what}")
            }
            Wrong::Unknown => f.write_str("a table has a row that does not fit"),
        }
    }
}

fn part_message(part: Part) -> &'static str {
    match part {
        Part::Doc => "doc is no name of a document",
        Part::Place => "place is not the next one of its document",
        Part::Text => "text is no operation of this format",
        Part::Order => "text is an operation that does not fit behind the rows before it",
    }
}

/// What is wrong with a database that was refused.
pub fn wrong_of<S: Alter>(alloc: Global, conn: &mut Connection<S>) -> Wrong {
    match find_tables(conn.schema()) {
        Found::Both => wrong_rows(alloc, conn),
        Found::Neither | Found::Other => wrong_tables(conn.schema()),
    }
}

fn wrong_tables(schema: &Schema) -> Wrong {
    if schema.table_named(b"meta").is_none() && schema.view_named(b"meta").is_none() {
        return Wrong::NoTable("meta");
    }
    if schema.table_named(b"entry").is_none() && schema.view_named(b"entry").is_none() {
        return Wrong::NoTable("entry");
    }
    Wrong::OtherTable
}

fn wrong_rows<S: Alter>(alloc: Global, conn: &mut Connection<S>) -> Wrong {
    let Ok(rows) = read_meta(conn) else {
        return Wrong::Unknown;
    };
    match meta_in(rows.as_slice()) {
        Ok(meta) => wrong_entries(alloc, conn, meta.format),
        Err(_) => wrong_meta(rows.as_slice()),
    }
}

fn wrong_meta(rows: &[Row]) -> Wrong {
    let [first, second] = rows else {
        return Wrong::Meta;
    };
    if !is_text(first, 1, "format") || !is_text(second, 1, "epoch") {
        return Wrong::Meta;
    }
    match first.get(2) {
        Ok(format) => format_wrong(format),
        Err(_) => Wrong::Meta,
    }
}

fn format_wrong(format: u32) -> Wrong {
    if format == FORMAT || format == OLD_FORMAT {
        Wrong::Epoch
    } else {
        Wrong::Format(format)
    }
}

fn is_text(row: &Row, at: usize, text: &str) -> bool {
    text_at(row, at) == Some(text)
}

fn text_at(row: &Row, at: usize) -> Option<&str> {
    match row.get_ref(at) {
        Ok(ValueRef::Text(bytes)) => str::from_utf8(bytes).ok(),
        _ => None,
    }
}

// Reads the rows of `entry` as a start does, up to the first that does not fit.
fn wrong_entries<S: Alter>(alloc: Global, conn: &mut Connection<S>, format: u32) -> Wrong {
    let Ok(mut rows) = conn.query(
        "SELECT doc, place, text FROM entry ORDER BY doc, place",
        &[],
    ) else {
        return Wrong::Unknown;
    };
    // No document has this name.
    let Ok(mut doc) = StoredDoc::new(alloc, "") else {
        return Wrong::Unknown;
    };
    for at in 1..u64::MAX {
        let Ok(Some(row)) = rows.next() else {
            return Wrong::Unknown;
        };
        match wrong_part(&mut doc, alloc, format, row) {
            Ok(None) => {}
            Ok(Some(part)) => return Wrong::Row(at, part),
            Err(_) => return Wrong::Unknown,
        }
    }
    Wrong::Unknown
}

// What is wrong with this row, if anything. Otherwise its operation is added to its document, which
// replaces the one of the rows before.
fn wrong_part(
    doc: &mut StoredDoc,
    alloc: Global,
    format: u32,
    row: &Row,
) -> Result<Option<Part>, Fault> {
    let Some(name) = text_at(row, 0) else {
        return Ok(Some(Part::Doc));
    };
    if !is_doc_name(name) {
        return Ok(Some(Part::Doc));
    }
    keep_one(doc, alloc, name)?;
    if !is_next(doc, row) {
        return Ok(Some(Part::Place));
    }
    match operation_at(alloc, format, row) {
        Ok(entry) => wrong_order(doc, entry),
        Err(Fault::Refused) => Ok(Some(Part::Text)),
        Err(fault) => Err(fault),
    }
}

// Replaces a document of another name: rows come by document, so it gets no further row.
fn keep_one(doc: &mut StoredDoc, alloc: Global, name: &str) -> Result<(), Fault> {
    if doc.name() != name {
        *doc = StoredDoc::new(alloc, name)?;
    }
    Ok(())
}

fn is_next(doc: &StoredDoc, row: &Row) -> bool {
    match row.get::<u32>(1) {
        Ok(place) => place != 0 && place as usize - 1 == doc.len(),
        Err(_) => false,
    }
}

fn operation_at(alloc: Global, format: u32, row: &Row) -> Result<Operation, Fault> {
    let Some(text) = text_at(row, 2) else {
        return Err(Fault::Refused);
    };
    let entry = operation_of(alloc, text)?;
    if format == OLD_FORMAT && matches!(entry.mutation(), Mutation::Add(_)) {
        return Err(Fault::Refused);
    }
    Ok(entry)
}

fn wrong_order(doc: &mut StoredDoc, entry: Operation) -> Result<Option<Part>, Fault> {
    let entry = doc.sharing(entry);
    match doc.add(slice::from_ref(&entry)) {
        Ok(()) => Ok(None),
        Err(Fault::Refused) => Ok(Some(Part::Order)),
        Err(fault) => Err(fault),
    }
}
