//! What was read of a document. Only this module makes a `Reading`: of the sessions' half of what
//! is stored, or where nothing copies.
ghost use Rattle.std.specs.Prelude.{◌≡◌, length, Some, None, if◌then◌else◌};

use share_ledger::{Marker, StoreShare};

/// What was read of a document: how many of its operations the file has, the first ones; or none
/// where nothing copies.
#[derive(Clone, Copy)]
pub struct Reading {
    document: usize,
    stored: Option<u64>,
}

impl Reading {
    /// How many operations of the document the file has, or none where nothing copies.
    pub fn stored(&self) -> Option<u64>
        ensures { result ≡ self.now.stored }
    {
        self.stored
    }

    /// What the sessions' half says of its document, beside a copier or not.
    pub(crate) fn of<M: Marker>(share: &StoreShare<M>, copies: bool) -> Reading
        ensures document { result.document ≡ share.now.number }
        ensures stored { result.stored ≡ if copies then Some (length share.now.ids) else None }
    {
        let stored = if copies { Some(share.count()) } else { None };
        Reading {
            document: share.number() as usize,
            stored,
        }
    }

    /// Of a document that has no copier.
    pub(crate) fn nobody(document: usize) -> Reading
        ensures document { result.document ≡ document }
        ensures stored { result.stored ≡ None }
    {
        Reading {
            document,
            stored: None,
        }
    }
}
