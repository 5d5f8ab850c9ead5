//! The rows of `entry`, read one at a time.
ghost use Rattle.std.specs.Prelude.{◌≡◌, ◌≢◌, map, IfOk, IfErr};
ghost use Rattle.std.specs.List.Sorted.{IsPermutation};
ghost use Rattle.sqlite.specs.Held.{state};
ghost use Rattle.sqlite.specs.State.{HasCleanDisk, Survives, IsUnchanged};
ghost use Rattle.stored_rows.specs.Tables.{copy_schema};
ghost use Rattle.stored_rows.specs.Content.{Content, Holds, entry_tree, entry_columns};
ghost use Rattle.stored_rows.specs.Steps.{StaysOutside};
ghost use Rattle.stored_log.specs.Docs.{AreInOrder, AreGood};
ghost use Rattle.stored_rows.specs.Accepted.{AreWritable, IsSoundContent};
ghost use Rattle.stored_rows.specs.Rows.{rows_of};
ghost use Rattle.stored_rows.specs.Shown.{AreAnswered, ShowsNoLogs};

use crate::parse::add_row;
use sqlite::{Alter, Connection};
use std::alloc::Global;
use stored_log::{Fault, StoredDoc};

/// The documents that the rows of `entry` hold, which it reads by document and place. Each row is
/// dropped once its entry is in a log, before the next is asked for, so no more rows are held than
/// the database reads ahead. It changes nothing.
pub fn read_docs<S: Alter>(
    alloc: Global,
    conn: &mut Connection<S>,
    format: u32,
) -> Result<Vec<StoredDoc>, Fault>
    ensures good { IfOk result
        (λ docs. AreInOrder docs.items × AreGood docs.items × AreWritable 2 docs.items) }
    ensures in_format { IfOk result (λ docs. AreWritable format docs.items) }
    ensures ok { HasCleanDisk (state S.Store conn.new)
        → IfOk result (λ docs. (state S.Store conn.old).now.schema ≡ copy_schema
        → IsPermutation (map entry_columns ((state S.Store conn.old).now.trees entry_tree)) (rows_of docs.items)) }
    ensures accepts { HasCleanDisk (state S.Store conn.new)
        → IfErr result (λ e. (was : Content) → IsSoundContent was → was.format ≡ format
        → (state S.Store conn.old).now.schema ≡ copy_schema
        → Holds was (state S.Store conn.old).now.trees → e ≢ Fault.Refused) }
    // Also beside other tables, from here on: these are the documents of the rows that the database
    // showed, and rows of good documents are not refused.
    ensures shown { HasCleanDisk (state S.Store conn.new)
        → IfOk result (λ docs. AreAnswered S.Store conn.old conn.new docs.items) }
    ensures refused { HasCleanDisk (state S.Store conn.new)
        → IfErr result (λ e. e ≡ Fault.Refused → ShowsNoLogs S.Store format conn.old) }
    ensures unchanged { HasCleanDisk (state S.Store conn.new)
        → IfOk result (λ _. IsUnchanged (state S.Store conn.old) (state S.Store conn.new)) }
    ensures crash { Survives (state S.Store conn.old) (state S.Store conn.new) (λ _. ⊥) }
    ensures outside { StaysOutside (state S.Store conn.old) (state S.Store conn.new) }
{
    let Ok(mut rows) = conn.query(
        "SELECT doc, place, text FROM entry ORDER BY doc, place",
        &[],
    ) else {
        return Err(Fault::Store);
    };
    let mut docs = Vec::new(alloc);
    'rows: for _ in 0..u64::MAX {
        match rows.next() {
            Ok(Some(row)) => add_row(&mut docs, alloc, format, row)?,
            Ok(None) => return Ok(docs),
            Err(_) => return Err(Fault::Store),
        }
    }
    Err(Fault::Store)
}
