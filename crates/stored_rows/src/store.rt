//! The statements of a stored log.
//!
//! Each function says what its statements make of a connection that serves a content, and that a
//! crash then leaves what it left before or what they commit.

ghost use Rattle.std.specs.Prelude.{ℕ, ◌+◌, ◌<◌, ◌^◌, List, [], ◌∷◌, ◌++◌, length, map, flat_map};
ghost use Rattle.std.specs.Prelude.{string_bytes, OnOk, IfOk};
ghost use Rattle.std.specs.Prelude.{IfErr, Err, false, ◌≡◌};
ghost use Rattle.std.specs.List.Sorted.{IsPermutation, IsSorted};
ghost use Rattle.sqlite.specs.Held.{state};
ghost use Rattle.sqlite.specs.Values.{bound};
ghost use Rattle.sqlite.specs.State.{HasCleanDisk, Survives, IsUnchanged};
ghost use Rattle.stored_rows.specs.Content.{Content, Holds, with_format, with_epoch, with_rows};
ghost use Rattle.stored_rows.specs.Content.{first_content};
ghost use Rattle.stored_rows.specs.Content.{entry_row, rows_from, meta_tree, meta_columns};
ghost use Rattle.stored_rows.specs.Content.{meta_cmp};
ghost use Rattle.stored_rows.specs.Steps.{IsBare, IsOpenWith, StaysOutside};
ghost use Rattle.stored_rows.specs.Statements.{CommitsFor, CommitsOneOf, FailsFor, RanAll};
ghost use Rattle.stored_rows.specs.Statements.{RunsThrough, RunsTo};
ghost use Rattle.stored_rows.specs.Statements.{ShowsFor, StopsBy, insert_row, insert_sixteen};
ghost use Rattle.stored_rows.specs.Statements.{inserts_of, making_of_tables, roll_it_back};
ghost use Rattle.stored_rows.specs.Statements.{select_meta, text_alone, update_epoch};
ghost use Rattle.stored_rows.specs.Statements.{update_format, batch_of};
ghost use Rattle.stored_rows.specs.Tables.{copy_schema};

use sqlite::types::{ToSql, ValueRef};
use sqlite::{Alter, Connection, Error, Row, params};

/// Sets the epoch, and nothing else.
pub fn set_epoch<S: Alter>(conn: &mut Connection<S>, epoch: u32) -> Result<usize, Error>
    ensures ok { HasCleanDisk (state S.Store conn.new)
        → OnOk result ((was : Content) → IsOpenWith was (state S.Store conn.old)
        → IsOpenWith (with_epoch epoch was) (state S.Store conn.new)) }
    ensures crash { Survives (state S.Store conn.old) (state S.Store conn.new)
        (λ db. (was : Content) → IsOpenWith was (state S.Store conn.old)
        → Holds (with_epoch epoch was) db) }
    // Also beside other tables, from here on.
    ensures answer { HasCleanDisk (state S.Store conn.new)
        → RunsTo S.Store (update_epoch epoch) conn.old conn.new result }
    ensures commits { Survives (state S.Store conn.old) (state S.Store conn.new)
        (CommitsFor S.Store (update_epoch epoch) conn.old) }
{
    conn.execute(
        "UPDATE meta SET value = ?1 WHERE name = 'epoch'",
        params![epoch],
    )
}

/// Sets the format, and nothing else.
pub fn set_format<S: Alter>(conn: &mut Connection<S>, format: u32) -> Result<usize, Error>
    ensures ok { HasCleanDisk (state S.Store conn.new)
        → OnOk result ((was : Content) → IsOpenWith was (state S.Store conn.old)
        → IsOpenWith (with_format format was) (state S.Store conn.new)) }
    ensures crash { Survives (state S.Store conn.old) (state S.Store conn.new)
        (λ db. (was : Content) → IsOpenWith was (state S.Store conn.old)
        → Holds (with_format format was) db) }
    ensures outside { HasCleanDisk (state S.Store conn.new)
        → IfErr result (λ _. StaysOutside (state S.Store conn.old) (state S.Store conn.new)) }
    // Also beside other tables, from here on.
    ensures answer { HasCleanDisk (state S.Store conn.new)
        → RunsTo S.Store (update_format format) conn.old conn.new result }
    ensures commits { Survives (state S.Store conn.old) (state S.Store conn.new)
        (CommitsFor S.Store (update_format format) conn.old) }
{
    conn.execute(
        "UPDATE meta SET value = ?1 WHERE name = 'format'",
        params![format],
    )
}

// Runs the texts in turn, up to the first that fails.
fn run_all<S: Alter>(conn: &mut Connection<S>, texts: &[&str]) -> Result<(), Error>
    ensures { RunsThrough S.Store (map (λ t. text_alone t.now) texts.now) conn.old conn.new result }
{
    for text in texts {
        conn.execute(text, &[])?;
    }
    Ok(())
}

// ---- a batch

// A statement inserts so many rows where as many are left, of three values each.
const ROWS: usize = 16;

const VALUES: usize = 3 * ROWS;

const INSERT_ROWS: &str = "INSERT INTO entry (doc, place, text) VALUES \
    (?, ?, ?), (?, ?, ?), (?, ?, ?), (?, ?, ?), \
    (?, ?, ?), (?, ?, ?), (?, ?, ?), (?, ?, ?), \
    (?, ?, ?), (?, ?, ?), (?, ?, ?), (?, ?, ?), \
    (?, ?, ?), (?, ?, ?), (?, ?, ?), (?, ?, ?)";

// Inserts each text by a statement of its own. They get the places behind `from`, here and below.
fn put_each<S: Alter>(
    conn: &mut Connection<S>,
    doc: &str,
    from: u32,
    texts: &[String],
) -> Result<(), Error>
    requires { from + length texts.now < 2 ^ 32 }
    ensures { RunsThrough S.Store (map insert_row (rows_from doc.now (from + 1)
        (map string_bytes texts.now))) conn.old conn.new result }
{
    let mut place = from;
    for text in texts {
        place += 1;
        conn.execute(
            "INSERT INTO entry (doc, place, text) VALUES (?1, ?2, ?3)",
            params![doc, place, text.as_str()],
        )?;
    }
    Ok(())
}

// The values of sixteen rows, row by row.
fn row_values<'a>(doc: &'a str, from: u32, texts: &'a [String]) -> [ValueRef<'a>; VALUES]
    requires few { length texts.now ≡ 16 }
    requires fits { from + 16 < 2 ^ 32 }
    ensures { bound result
        ≡ flat_map (λ row. row) (rows_from doc.now (from + 1) (map string_bytes texts.now)) }
{
    let mut values = [ValueRef::Null; VALUES];
    let mut place = from;
    let mut at = 0;
    for text in texts {
        place += 1;
        values[at] = doc.to_sql();
        values[at + 1] = place.to_sql();
        values[at + 2] = text.as_str().to_sql();
        at += 3;
    }
    values
}

// Inserts sixteen texts by one statement.
fn put_sixteen<S: Alter>(
    conn: &mut Connection<S>,
    doc: &str,
    from: u32,
    texts: &[String],
) -> Result<usize, Error>
    requires few { length texts.now ≡ 16 }
    requires fits { from + 16 < 2 ^ 32 }
    ensures { RunsThrough S.Store (insert_sixteen (rows_from doc.now (from + 1)
        (map string_bytes texts.now)) ∷ []) conn.old conn.new result }
{
    conn.execute(INSERT_ROWS, &row_values(doc, from, texts))
}

// Inserts sixteen texts a statement, as long as so many are left.
fn put_rows<S: Alter>(
    conn: &mut Connection<S>,
    doc: &str,
    from: u32,
    texts: &[String],
) -> Result<(), Error>
    requires { from + length texts.now < 2 ^ 32 }
    ensures { RunsThrough S.Store (inserts_of (rows_from doc.now (from + 1)
        (map string_bytes texts.now))) conn.old conn.new result }
{
    let mut place = from;
    let mut rest = texts;
    while rest.len() >= ROWS {
        let (first, more) = rest.split_at(ROWS);
        put_sixteen(conn, doc, place, first)?;
        place += 16;
        rest = more;
    }
    put_each(conn, doc, place, rest)
}

/// Adds the texts behind the first `from` places of the document, in one transaction.
pub fn put_entries<S: Alter>(
    conn: &mut Connection<S>,
    doc: &str,
    from: u32,
    texts: &[String],
) -> Result<(), Error>
    requires { from + length texts.now < 2 ^ 32 }
    ensures ok { HasCleanDisk (state S.Store conn.new)
        → OnOk result ((was : Content) → IsOpenWith was (state S.Store conn.old)
        → IsOpenWith (with_rows (rows_from doc.now (from + 1) (map string_bytes texts.now)) was)
        (state S.Store conn.new)) }
    ensures crash { Survives (state S.Store conn.old) (state S.Store conn.new)
        (λ db. (was : Content) → IsOpenWith was (state S.Store conn.old)
        → Holds (with_rows (rows_from doc.now (from + 1) (map string_bytes texts.now)) was) db) }
    // Also beside other tables, from here on.
    ensures ran { HasCleanDisk (state S.Store conn.new)
        → OnOk result (RanAll S.Store (batch_of (rows_from doc.now (from + 1)
        (map string_bytes texts.now))) conn.old conn.new) }
    ensures err { HasCleanDisk (state S.Store conn.new)
        → IfErr result (StopsBy S.Store (batch_of (rows_from doc.now (from + 1)
        (map string_bytes texts.now))) conn.old conn.new) }
    ensures commits { Survives (state S.Store conn.old) (state S.Store conn.new)
        (CommitsOneOf S.Store (batch_of (rows_from doc.now (from + 1) (map string_bytes texts.now))) conn.old) }
{
    run_all(conn, &["BEGIN"])?;
    put_rows(conn, doc, from, texts)?;
    run_all(conn, &["COMMIT"])
}

// ---- the tables are made

/// Ends a transaction that is under way, and nothing is committed.
pub fn roll_back<S: Alter>(conn: &mut Connection<S>) -> Result<usize, Error>
    ensures crash { Survives (state S.Store conn.old) (state S.Store conn.new) (λ _. ⊥) }
    ensures ended { HasCleanDisk (state S.Store conn.new)
        → (state S.Store conn.new).in_transaction ≡ false }
    ensures answer { HasCleanDisk (state S.Store conn.new)
        → RunsTo S.Store roll_it_back conn.old conn.new result }
{
    conn.execute("ROLLBACK", &[])
}

/// Makes both tables with their first rows, in one transaction.
pub fn make_tables<S: Alter>(conn: &mut Connection<S>) -> Result<(), Error>
    ensures ok { HasCleanDisk (state S.Store conn.new)
        → OnOk result (IsBare (state S.Store conn.old)
        → IsOpenWith first_content (state S.Store conn.new)) }
    ensures crash { Survives (state S.Store conn.old) (state S.Store conn.new)
        (λ db. IsBare (state S.Store conn.old) → Holds first_content db) }
    // Also beside other tables, from here on.
    ensures ran { HasCleanDisk (state S.Store conn.new)
        → OnOk result (RanAll S.Store making_of_tables conn.old conn.new) }
    ensures err { HasCleanDisk (state S.Store conn.new)
        → IfErr result (StopsBy S.Store making_of_tables conn.old conn.new) }
    ensures commits { Survives (state S.Store conn.old) (state S.Store conn.new)
        (CommitsOneOf S.Store making_of_tables conn.old) }
{
    run_all(
        conn,
        &[
            "BEGIN",
            "CREATE TABLE meta (name TEXT NOT NULL PRIMARY KEY, value INTEGER NOT NULL) STRICT",
            "CREATE TABLE entry (doc TEXT NOT NULL, place INTEGER NOT NULL, text TEXT NOT NULL, PRIMARY KEY (doc, place)) STRICT",
            "INSERT INTO meta (name, value) VALUES ('format', 2), ('epoch', 0)",
            "COMMIT",
        ],
    )
}

// ---- the tables are read

/// The rows of `meta` with their rowids, by name from the last. It changes nothing.
pub fn read_meta<S: Alter>(conn: &mut Connection<S>) -> Result<Vec<Row>, Error>
    ensures ok { HasCleanDisk (state S.Store conn.new)
        → IfOk result (λ rows. (state S.Store conn.old).now.schema ≡ copy_schema
        → IsPermutation (map meta_columns ((state S.Store conn.old).now.trees meta_tree)) rows.items) }
    ensures sorted { HasCleanDisk (state S.Store conn.new)
        → IfOk result (λ rows. (state S.Store conn.old).now.schema ≡ copy_schema
        → IsSorted meta_cmp rows.items) }
    // Also beside other tables, from here on.
    ensures shown { HasCleanDisk (state S.Store conn.new)
        → IfOk result (λ rows. ShowsFor S.Store select_meta conn.old conn.new rows.items) }
    ensures unchanged { HasCleanDisk (state S.Store conn.new)
        → IfOk result (λ _. IsUnchanged (state S.Store conn.old) (state S.Store conn.new)) }
    ensures err { HasCleanDisk (state S.Store conn.new)
        → IfErr result (FailsFor S.Store select_meta conn.old conn.new) }
    ensures crash { Survives (state S.Store conn.old) (state S.Store conn.new) (λ _. ⊥) }
    ensures outside { StaysOutside (state S.Store conn.old) (state S.Store conn.new) }
{
    conn.query_all(
        "SELECT rowid, name, value FROM meta ORDER BY name DESC",
        &[],
    )
}
