//! What a copier reports while it runs.
use op_core::Operation;
use stored_log::{StoredFault, StoredLog};

/// Is notified of what a copier does. The copier waits for each call, and holds no lock meanwhile.
/// No clause says anything of it.
pub trait CopyObserver {
    /// Called before each batch is written.
    fn adds(&self) {}

    /// How many milliseconds the last batch took; 0 where that isn't known. A copier waits no longer
    /// for sessions that could share the next one.
    fn took(&self) -> u64 {
        0
    }

    /// Called after each batch with the document's name, how many entries of it are stored now, and
    /// those that were just written. It may ask the stored log for more.
    fn added<L: StoredLog>(&self, stored: &L, name: &str, rows: usize, entries: &[Operation]);

    /// Called where memory ran out, and the copier pauses before it tries again. Nobody waits for
    /// it meanwhile. Called once until it goes on.
    fn lacks_memory(&self);

    /// Called once the copier goes on after that.
    fn goes_on(&self);

    /// Called at once where the store failed. It is opened again then.
    fn failed(&self, why: StoredFault);

    /// Asked while the store can't be opened again: whether sessions wait for it no longer.
    fn is_awaited_no_more(&self) -> bool;

    /// Called each minute while the store can't be opened again, with how many operations of the
    /// documents aren't stored.
    fn still_fails(&self, unstored: u64);

    /// Called once the store was opened again, and has the batch that failed.
    fn recovered(&self);

    /// Called once by a copier that an error ends, at once: sessions may still run.
    fn stopped(&self, why: StoredFault);
}
