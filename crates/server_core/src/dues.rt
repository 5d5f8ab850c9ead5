//! What a sink waits for: what is due of each document.
ghost use Rattle.std.specs.Prelude.{◌≡◌, ℕ, false, IsTrue};
ghost use Rattle.server_core.specs.declared.progress.Pace.TheVariants.{Durable};
ghost use Rattle.server_core.specs.Pacing.{ArePaid, IsDue};

use crate::due::Due;
use crate::progress::Progress;
use crate::signal::Signal;
use share_ledger::Marker;
use std::alloc::{AllocError, Global};
use std::sync::Wait;

/// One for each of so many documents, with nothing due. `AllocError` if there is no memory for them.
pub(crate) fn no_dues(alloc: Global, documents: usize) -> Result<Vec<Due>, AllocError> {
    let mut dues = Vec::new(alloc);
    for document in 0..documents {
        dues.push(Due::none_of(document))?;
    }
    Ok(dues)
}

/// At least so many operations of the document are due. False where it is none of these, and then
/// nothing changes.
pub(crate) fn raise(dues: &mut [Due], document: usize, count: u64) -> bool
    ensures there { IsTrue result → IsDue dues.new document count }
    ensures stay { (other before : ℕ) → IsDue dues.old other before → IsDue dues.new other before }
{
    if document >= dues.len() || dues[document].document() != document {
        return false;
    }
    dues[document].raise(count);
    true
}

/// Waits until all that is due may go out. False where some of it never may.
pub(crate) fn pay_all<M: Marker, R: Wait>(
    rt: &R,
    signal: &Signal,
    progress: &Progress<M>,
    dues: &mut [Due],
) -> bool
    ensures paid { IsTrue result → ArePaid progress.now.pace dues.new }
    ensures gives_up { result ≡ false → progress.now.pace ≡ Durable }
    ensures stay { (document count : ℕ) → IsDue dues.old document count → IsDue dues.new document count }
{
    for i in 0..dues.len() {
        if !dues[i].pay(rt, signal, progress) {
            return false;
        }
    }
    true
}
