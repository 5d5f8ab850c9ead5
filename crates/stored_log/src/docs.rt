//! The documents of a stored log.
ghost use Rattle.std.specs.Prelude.{◌≡◌, ◌≢◌, ◌≤◌, ◌++◌, length, IfOk, IfErr};
ghost use Rattle.std.specs.Prelude.{OnOk, Err, ℕ, List, [], ◌∷◌, map, string_bytes};
ghost use Rattle.std.specs.List.{insert};
ghost use Rattle.std.specs.Ordering.{is_lt};
ghost use Rattle.doc_api.specs.Words.{name_cmp, Op};
ghost use Rattle.lamport_id.specs.Name.{is_name};
ghost use Rattle.crdt_rules.specs.Log.{IsGood};
ghost use Rattle.stored_log.specs.Docs.{Doc, log_of, add_batch};

use crate::doc::StoredDoc;
use crate::fault::Fault;
use lamport_id::ReplicaName;
use op_core::Operation;
use op_log::clone_all;
use std::alloc::Global;

/// The most entries of a batch.
pub const MAX_BATCH: usize = 256;

pub(crate) fn is_less(a: &str, b: &str) -> bool
    ensures { result ≡ is_lt (name_cmp a.now b.now) }
{
    a.as_bytes().cmp(b.as_bytes()).is_lt()
}

/// Whether a document may have this name: 1 to 32 of `a-z`, `0-9` and `-`.
pub fn is_doc_name(name: &str) -> bool
    ensures { result ≡ is_name name.now }
{
    ReplicaName::read(name.as_bytes()).is_some()
}

// Clones of the operations. The only error is out of memory.
pub(crate) fn clones(alloc: Global, ops: &[Operation]) -> Result<Vec<Operation>, Fault>
    ensures ok { IfOk result (λ clones. clones.items ≡ ops.now) }
    ensures err { IfErr result (λ e. e ≡ Fault.Memory) }
{
    match clone_all(alloc, ops) {
        Ok(ops) => Ok(ops),
        Err(_) => Err(Fault::Memory),
    }
}

// A document of this name with clones of these entries.
pub(crate) fn made(alloc: Global, name: &str, entries: &[Operation]) -> Result<StoredDoc, Fault>
    ensures ok { IfOk result
        (λ d. (d ≡ record { name = name.now; log = entries.now }) × IsGood entries.now) }
    ensures err { IfErr result (λ e. e ≢ Fault.Store) }
    ensures refused { result ≡ Err Fault.Refused → ¬ IsGood entries.now }
{
    let mut doc = StoredDoc::new(alloc, name)?;
    doc.add(entries)?;
    Ok(doc)
}

pub(crate) fn put(docs: &mut Vec<StoredDoc>, at: usize, doc: StoredDoc) -> Result<(), Fault>
    requires { at ≤ length docs.old.items }
    ensures ok { OnOk result (docs.new.items ≡ insert docs.old.items at doc) }
    ensures err { IfErr result (λ e. (docs.new.items ≡ docs.old.items) × (e ≡ Fault.Memory)) }
{
    match docs.insert(at, doc) {
        Ok(()) => Ok(()),
        Err(_) => Err(Fault::Memory),
    }
}

// Pushes the name.
fn push_name(alloc: Global, names: &mut Vec<String>, name: &str) -> Result<(), Fault>
    ensures ok { OnOk result (map string_bytes names.new.items
        ≡ map string_bytes names.old.items ++ name.now ∷ []) }
    ensures err { IfErr result (λ e. e ≡ Fault.Memory) }
{
    let Ok(name) = String::from_str(alloc, name) else {
        return Err(Fault::Memory);
    };
    match names.push(name) {
        Ok(()) => Ok(()),
        Err(_) => Err(Fault::Memory),
    }
}

/// The names of the documents, in their order. The only error is out of memory.
pub fn names(docs: &[StoredDoc], alloc: Global) -> Result<Vec<String>, Fault>
    ensures ok { IfOk result
        (λ names. map string_bytes names.items ≡ map (λ d. d.name) docs.now) }
    ensures err { IfErr result (λ e. e ≡ Fault.Memory) }
{
    let mut names = Vec::new(alloc);
    for doc in docs {
        push_name(alloc, &mut names, doc.name())?;
    }
    Ok(names)
}

/// The law that a batch appends its entries to those of its document,
/// and leaves those of all others.
pub fn batches_append()
    ensures appended { (name : List ℕ) (more : List Op) (docs : List Doc)
        → log_of name (add_batch name more docs) ≡ log_of name docs ++ more }
    ensures others { (name other : List ℕ) (more : List Op) (docs : List Doc)
        → name ≢ other → log_of other (add_batch name more docs) ≡ log_of other docs }
{}
