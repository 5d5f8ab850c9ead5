//! What a store in memory has: an epoch and documents.
ghost use Rattle.std.specs.Prelude.{◌≡◌, ◌≢◌, ◌+◌, ◌<◌, ◌++◌, [], true, IfOk, IfErr, OnOk, Err};
ghost use Rattle.lamport_id.specs.Name.{is_name};
ghost use Rattle.crdt_rules.specs.Log.{IsGood};
ghost use Rattle.stored_log.specs.Docs.{add_log, log_of};
ghost use Rattle.stored_log.specs.Limits.{last_epoch};
ghost use Rattle.stored_log.specs.Image.{IsSoundImage};

use crate::{Fault, StoredDoc};
use op_core::Operation;
use std::alloc::Global;
use std::marker::Model;

/// An epoch, and the documents that are stored under it.
pub struct ListImage {
    epoch: u32,
    docs: Vec<StoredDoc>,
}

impl Model for ListImage {
    ghost use Rattle.stored_log.specs.Image.{IsSoundImage, Stored};

    ghost Value = { Stored };

    ghost view = { λ i. record { epoch = i.epoch; docs = i.docs.items } };

    ghost invariant = { λ i. IsSoundImage (record { epoch = i.epoch; docs = i.docs.items }) };
}

// By hand, so that it is called and not written out where an image is dropped.
impl Drop for ListImage {
    fn drop(self) {
        let ListImage { epoch: _, docs: _ } = self;
    }
}

impl ListImage {
    /// Epoch 0, and no documents.
    pub fn new(alloc: Global) -> ListImage
        ensures { result ≡ record { epoch = 0; docs = [] } }
    {
        ListImage {
            epoch: 0,
            docs: Vec::new(alloc),
        }
    }

    /// The last epoch that was given out, 0 if none was.
    pub fn epoch(&self) -> u32
        ensures value { result ≡ self.now.epoch }
        ensures sound { IsSoundImage self.now }
    {
        self.epoch
    }

    /// The documents with entries, in the order of their names.
    pub fn docs(&self) -> &[StoredDoc]
        ensures docs { result.now ≡ self.now.docs }
        ensures sound { IsSoundImage self.now }
    {
        self.docs.as_slice()
    }

    /// A clone of the image. The only error is out of memory.
    pub fn try_clone(&self, alloc: Global) -> Result<ListImage, Fault>
        ensures ok { IfOk result (λ image. image ≡ self.now) }
    {
        let docs = clones(alloc, self.docs.as_slice())?;
        Ok(ListImage {
            epoch: self.epoch,
            docs,
        })
    }

    // Goes to the next epoch.
    pub(crate) fn raise(&mut self)
        requires { self.old.epoch < last_epoch }
        ensures { self.new ≡ record { epoch = self.old.epoch + 1; docs = self.old.docs } }
    {
        self.epoch += 1;
    }

    // Adds clones of the entries behind those of the document of this name, if each fits those
    // before it. Otherwise all is as it was.
    pub(crate) fn add(
        &mut self,
        alloc: Global,
        doc: &str,
        entries: &[Operation],
    ) -> Result<(), Fault>
        requires named { is_name doc.now ≡ true }
        requires some { entries.now ≢ [] }
        ensures epoch { self.new.epoch ≡ self.old.epoch }
        ensures ok { OnOk result ((self.new.docs ≡ add_log doc.now entries.now self.old.docs)
            × IsGood (log_of doc.now self.old.docs ++ entries.now)) }
        ensures err { IfErr result (λ e. (self.new.docs ≡ self.old.docs) × (e ≢ Fault.Store)) }
        ensures refused { result ≡ Err Fault.Refused
            → ¬ IsGood (log_of doc.now self.old.docs ++ entries.now) }
    {
        crate::add(&mut self.docs, alloc, doc, entries)
    }
}

// A document of the same name with clones of its entries.
fn clone_of(alloc: Global, doc: &StoredDoc) -> Result<StoredDoc, Fault>
    ensures { IfOk result (λ clone. clone ≡ doc.now) }
{
    let mut clone = StoredDoc::new(alloc, doc.name())?;
    clone.add(doc.entries())?;
    Ok(clone)
}

// Clones of the documents.
fn clones(alloc: Global, docs: &[StoredDoc]) -> Result<Vec<StoredDoc>, Fault>
    ensures { IfOk result (λ clones. clones.items ≡ docs.now) }
{
    let mut clones = Vec::new(alloc);
    for doc in docs {
        let clone = clone_of(alloc, doc)?;
        if clones.push(clone).is_err() {
            return Err(Fault::Memory);
        }
    }
    Ok(clones)
}
