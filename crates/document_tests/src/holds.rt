//! One place where a test fails: each place of its own would be proved again,
//! for all that is dropped there.
use std::process::Abort;

/// Stops, saying what does not hold.
pub fn holds<R: Abort>(rt: &R, is: bool, what: &str) {
    assert!(rt; is, "{what}");
}

/// Stops if this case has a fault.
pub fn no_fault_of<R: Abort>(rt: &R, case: &str, fault: &str) {
    assert!(rt; fault.is_empty(), "{case}: {fault}");
}

/// Stops if there is a fault.
pub fn no_fault<R: Abort>(rt: &R, fault: &str) {
    holds(rt, fault.is_empty(), fault);
}
