//! Why a call of a stored log failed.
use crate::Fault;
use crate::port::StoredLog;
use crate::stored_fault::StoredFault;

/// Why a call of the stored log answered this fault. No clause speaks of it.
pub fn reason_of<L: StoredLog>(fault: Fault, log: &L) -> StoredFault {
    match fault {
        Fault::Memory => StoredFault::NoMemory,
        Fault::Refused => StoredFault::Refused,
        Fault::Store => log.cause().unwrap_or(StoredFault::Other),
    }
}
