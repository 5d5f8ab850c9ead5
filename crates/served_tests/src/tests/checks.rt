//! One place where results are compared: each place of its own would be proved again, for all
//! that is dropped there.
use std::process::Abort;
use std::str;

/// Stops unless this holds, saying in which case.
pub fn holds<R: Abort>(rt: &R, is: bool, case: &str) {
    assert!(rt; is, "{case}");
}

/// Stops unless these are the bytes that are due, saying in which case, and what they are of.
pub fn bytes_are<R: Abort>(rt: &R, case: &str, what: &str, found: &[u8], due: &[u8]) {
    assert!(rt;
        found == due,
        "{case}: {what} {:?} in place of {:?}",
        str::from_utf8(found),
        str::from_utf8(due)
    );
}

/// Stops unless this is the number that is due, saying in which case, and what it is the number of.
pub fn counts<R: Abort>(rt: &R, case: &str, what: &str, found: u64, due: u64) {
    assert!(rt; found == due, "{case}: {what} {found} in place of {due}");
}
