//! Batches of entries.
ghost use Rattle.std.specs.Prelude.{◌↔◌, IsTrue};
ghost use Rattle.stored_log.specs.Docs.{AreInOrder};
ghost use Rattle.stored_log.specs.Batch.{MayAdd};

use crate::{MAX_BATCH, StoredDoc};
use op_core::Operation;

/// Whether these may be tried as a batch behind the `from` entries of the document of this name:
/// they may still not fit those.
pub fn may_add(docs: &[StoredDoc], doc: &str, from: usize, entries: &[Operation]) -> bool
    requires { AreInOrder docs.now }
    ensures { IsTrue result ↔ MayAdd doc.now from entries.now docs.now }
{
    crate::may_follow(docs, doc, from) && entries.len() <= MAX_BATCH
}
