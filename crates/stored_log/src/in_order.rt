//! Documents in the order of their names, of which one is looked up by bisection. The last one is
//! looked at first, since rows are read in this order.
ghost use Rattle.std.specs.Prelude.{◌≡◌, ◌≢◌, ◌≤◌, ◌↔◌, ◌++◌, ◌∷◌, [], length, IfOk, IfErr, IfSome};
ghost use Rattle.std.specs.Prelude.{OnOk, Err, MatchOption, MatchResult};
ghost use Rattle.std.specs.Prelude.{IsTrue, true, false};
ghost use Rattle.std.specs.Prelude.{Ok};
ghost use Rattle.std.specs.List.{list_any};
ghost use Rattle.std.specs.List.Sorted.{IsPartitionPoint};
ghost use Rattle.std.specs.Ordering.{is_lt};
ghost use Rattle.doc_api.specs.Words.{name_cmp};
ghost use Rattle.lamport_id.specs.Name.{is_name};
ghost use Rattle.list_laws.specs.Sorted.{IsIndexOf, IsGap};
ghost use Rattle.json_scalar.specs.Refusal.{UnlessMemory};
ghost use Rattle.crdt_rules.specs.Log.{IsGood};
ghost use Rattle.crdt_rules.specs.Pull.{front_of};
ghost use Rattle.stored_log.specs.Docs.{AreInOrder, is_by, log_of, add_log};

use crate::doc::StoredDoc;
use crate::docs::{clones, is_doc_name, is_less, made, put};
use crate::fault::Fault;
use json_scalar::Refusal;
use lamport_id::ReplicaName;
use op_core::{Front, Operation};
use op_log::OpLog;
use std::alloc::Global;
use std::slice;

// The index of the document of this name, or where it would go.
fn search(docs: &[StoredDoc], name: &str) -> Result<usize, usize>
    requires { AreInOrder docs.now }
    ensures { MatchResult result
        (IsIndexOf name_cmp (λ d. d.name) docs.now name.now) (IsGap name_cmp
        (λ d. d.name) docs.now name.now) }
{
    let at = rank(docs, name);
    if at < docs.len() && docs[at].name() == name {
        Ok(at)
    } else {
        Err(at)
    }
}

// How many documents have a lesser name.
fn rank(docs: &[StoredDoc], name: &str) -> usize
    requires { AreInOrder docs.now }
    ensures within { result ≤ length docs.now }
    ensures point { IsPartitionPoint (λ d. is_lt (name_cmp d.name name.now) ≡ true)
        (λ d. is_lt (name_cmp d.name name.now) ≡ false) docs.now result }
{
    let count = docs.len();
    if count > 0 && is_before(&docs[count - 1], name) {
        return count;
    }
    docs.partition_point(|doc| is_before(doc, name))
}

fn is_before(doc: &StoredDoc, name: &str) -> bool
    ensures { result ≡ is_lt (name_cmp doc.now.name name.now) }
{
    is_less(doc.name(), name)
}

/// The document of this name, if it has rows.
pub fn find<'a>(docs: &'a [StoredDoc], name: &str) -> Option<&'a StoredDoc>
    requires { AreInOrder docs.now }
    ensures named { IfSome result (λ d. d.now.name ≡ name.now) }
    ensures log { MatchOption result (log_of name.now docs.now ≡ [])
        (λ d. d.now.log ≡ log_of name.now docs.now) }
{
    match search(docs, name) {
        Ok(at) => Some(&docs[at]),
        Err(_) => None,
    }
}

/// How many rows the document of this name has.
pub fn count(docs: &[StoredDoc], name: &str) -> usize
    requires { AreInOrder docs.now }
    ensures { result ≡ length (log_of name.now docs.now) }
{
    match find(docs, name) {
        Some(doc) => doc.len(),
        None => 0,
    }
}

/// Whether the replica has made one of the entries of the document of this name.
pub fn has_made(docs: &[StoredDoc], name: &str, replica: &ReplicaName) -> bool
    requires { AreInOrder docs.now }
    ensures { result ≡ list_any (is_by replica.now) (log_of name.now docs.now) }
{
    match find(docs, name) {
        Some(doc) => doc.is_maker(replica),
        None => false,
    }
}

// The front of the entries of the document of this name.
fn front_in(docs: &[StoredDoc], alloc: Global, name: &str) -> Result<Front, Refusal>
    requires { AreInOrder docs.now }
    ensures { UnlessMemory result (Ok (front_of (log_of name.now docs.now))) }
{
    match find(docs, name) {
        Some(doc) => doc.front(),
        None => Front::from_pairs(alloc, &[]),
    }
}

/// The front (a version vector) of the entries of the document of this name, empty where it has no
/// rows. The only error is out of memory.
pub fn front(docs: &[StoredDoc], alloc: Global, name: &str) -> Result<Front, Fault>
    requires { AreInOrder docs.now }
    ensures ok { IfOk result (λ front. front ≡ front_of (log_of name.now docs.now)) }
    ensures err { IfErr result (λ e. e ≡ Fault.Memory) }
{
    match front_in(docs, alloc, name) {
        Ok(front) => Ok(front),
        Err(_) => Err(Fault::Memory),
    }
}

/// Clones of the entries of the document of this name. The only error is out of memory.
pub fn entries(docs: &[StoredDoc], alloc: Global, name: &str) -> Result<Vec<Operation>, Fault>
    requires { AreInOrder docs.now }
    ensures ok { IfOk result (λ ops. ops.items ≡ log_of name.now docs.now) }
    ensures err { IfErr result (λ e. e ≡ Fault.Memory) }
{
    match find(docs, name) {
        Some(doc) => clones(alloc, doc.entries()),
        None => Ok(Vec::new(alloc)),
    }
}

/// A clone of the log of the document of this name, empty where it has no rows.
/// The only error is out of memory.
pub fn log_clone(docs: &[StoredDoc], alloc: Global, name: &str) -> Result<OpLog, Fault>
    requires { AreInOrder docs.now }
    ensures ok { IfOk result (λ log. log.operations ≡ log_of name.now docs.now) }
    ensures err { IfErr result (λ e. e ≡ Fault.Memory) }
{
    match find(docs, name) {
        Some(doc) => doc.log(alloc),
        None => Ok(OpLog::new(alloc)),
    }
}

/// Whether entries of a document of this name may follow so many.
pub fn may_follow(docs: &[StoredDoc], name: &str, from: usize) -> bool
    requires { AreInOrder docs.now }
    ensures { IsTrue result ↔ ((is_name name.now ≡ true)
        × (from ≡ length (log_of name.now docs.now))) }
{
    is_doc_name(name) && from == count(docs, name)
}

/// Adds the entry behind those of the document of this name, if it fits them. Where it has no
/// clones, it shares the names of its front with an entry of the document, where they are the same.
/// After an error the documents are as they were.
pub fn add_one(
    docs: &mut Vec<StoredDoc>,
    alloc: Global,
    name: &str,
    entry: Operation,
) -> Result<(), Fault>
    requires { AreInOrder docs.old.items }
    ensures ok { OnOk result ((docs.new.items ≡ add_log name.now (entry ∷ []) docs.old.items)
        × IsGood (log_of name.now docs.old.items ++ entry ∷ [])) }
    ensures err { IfErr result (λ e. (docs.new.items ≡ docs.old.items) × (e ≢ Fault.Store)) }
    ensures refused { result ≡ Err Fault.Refused
        → ¬ IsGood (log_of name.now docs.old.items ++ entry ∷ []) }
{
    let entry = sharing(docs.as_slice(), name, entry);
    add(docs, alloc, name, slice::from_ref(&entry))
}

// The operation, which may share the names of its front with an entry of the document of this name.
fn sharing(docs: &[StoredDoc], name: &str, op: Operation) -> Operation
    requires { AreInOrder docs.now }
    ensures { result ≡ op }
{
    match find(docs, name) {
        Some(doc) => doc.sharing(op),
        None => op,
    }
}

/// Adds clones of the entries behind those of the document of this name, if each fits those before
/// it. Otherwise the documents are as they were.
pub fn add(
    docs: &mut Vec<StoredDoc>,
    alloc: Global,
    name: &str,
    entries: &[Operation],
) -> Result<(), Fault>
    requires { AreInOrder docs.old.items }
    ensures ok { OnOk result ((docs.new.items ≡ add_log name.now entries.now docs.old.items)
        × IsGood (log_of name.now docs.old.items ++ entries.now)) }
    ensures err { IfErr result (λ e. (docs.new.items ≡ docs.old.items) × (e ≢ Fault.Store)) }
    ensures refused { result ≡ Err Fault.Refused
        → ¬ IsGood (log_of name.now docs.old.items ++ entries.now) }
{
    match search(docs.as_slice(), name) {
        Ok(at) => {
            let doc = &mut docs[at];
            doc.add(entries)
        }
        Err(at) => {
            let doc = made(alloc, name, entries)?;
            put(docs, at, doc)
        }
    }
}
