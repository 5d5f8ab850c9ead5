//! Whether two stored logs have the same documents.
ghost use Rattle.std.specs.Prelude.{◌≡◌, IsTrue};
ghost use Rattle.stored_log.specs.Docs.{AreInOrder};

use crate::doc::StoredDoc;
use crate::in_order::find;
use op_core::Operation;

fn is_same_entry(a: &Operation, b: &Operation) -> bool
    ensures { IsTrue result → a.now ≡ b.now }
{
    *a == *b
}

// Whether the entries are the same, in the same order.
fn have_same_entries(a: &[Operation], b: &[Operation]) -> bool
    ensures { IsTrue result → a.now ≡ b.now }
{
    if a.len() != b.len() {
        return false;
    }
    for i in 0..a.len() {
        if !is_same_entry(&a[i], &b[i]) {
            return false;
        }
    }
    true
}

// Whether the documents have the same name and the same entries.
fn is_same(a: &StoredDoc, b: &StoredDoc) -> bool
    ensures { IsTrue result → a.now ≡ b.now }
{
    a.name() == b.name() && have_same_entries(a.entries(), b.entries())
}

/// Whether the documents are the same, in the same order.
pub fn are_same(a: &[StoredDoc], b: &[StoredDoc]) -> bool
    ensures { IsTrue result → a.now ≡ b.now }
{
    if a.len() != b.len() {
        return false;
    }
    for i in 0..a.len() {
        if !is_same(&a[i], &b[i]) {
            return false;
        }
    }
    true
}

// Whether the document has only entries that these documents begin with, under its name.
fn is_front(doc: &StoredDoc, docs: &[StoredDoc]) -> bool
    requires { AreInOrder docs.now }
{
    match find(docs, doc.name()) {
        Some(whole) => {
            let rows = doc.len();
            rows <= whole.len() && have_same_entries(&whole.entries()[..rows], doc.entries())
        }
        None => false,
    }
}

/// Whether each document has only entries that these documents begin with, under its name. No clause
/// speaks of it.
pub fn are_fronts(fronts: &[StoredDoc], docs: &[StoredDoc]) -> bool
    requires { AreInOrder docs.now }
{
    for doc in fronts {
        if !is_front(doc, docs) {
            return false;
        }
    }
    true
}
