//! Whether the stored log has all operations that sessions logged.
ghost use Rattle.std.specs.Prelude.{◌≡◌, length, map, IsTrue};
ghost use Rattle.served_log.specs.Totals.{AreStored, IsStored};

use locked_doc::Totals;
use stored_log::StoredLog;

// Whether all operations of the document of this name are stored, and are counted as copied.
fn is_stored<L: StoredLog>(stored: &L, name: &str, totals: &Totals) -> bool
    ensures { IsTrue result → IsStored (L.log stored.now).docs name.now totals.now }
{
    match stored.rows(name) {
        Ok(rows) => totals.logged == rows as u64 && totals.copied == rows as u64,
        Err(_) => false,
    }
}

/// Whether the stored log has all operations of each document of these names, and the totals count
/// them as copied. False where it has failed, if there is a document.
pub(crate) fn has_all<L: StoredLog>(stored: &L, names: &[&str], totals: &[Totals]) -> bool
    requires { length totals.now ≡ length names.now }
    ensures { IsTrue result
        → AreStored (L.log stored.now).docs (map (λ s. s.now) names.now) totals.now }
{
    for i in 0..names.len() {
        if !is_stored(stored, names[i], &totals[i]) {
            return false;
        }
    }
    true
}
