//! Why no replica is opened, as numbers.
ghost use Rattle.std.specs.Prelude.{◌≡◌};
ghost use Rattle.replica_c.specs.Opening.{fault_at, fault_of, last_of};

use crate::open::Unopened;
use json_scalar::Refusal;
use replica_core::Misfit;

/// Why no replica was opened.
#[repr(C)]
#[derive(Drop)]
pub struct Fault {
    /// The refusal's number.
    pub number: u64,
    /// The counter that a refusal carries (`forked`), or 0.
    pub last: u64,
    /// The place of the line that is refused, from 0.
    pub place: u64,
}

/// The numbers of a fault.
pub(crate) fn fault_of(why: &Unopened) -> Fault
    ensures { result ≡ fault_of why.now }
{
    match why {
        Unopened::Name => fault_at(0, &Refusal::BadRequest),
        Unopened::Unfit(Misfit::At { place, cause }) => fault_at(*place as u64, cause),
        Unopened::Unfit(Misfit::NoMemory) => fault_at(0, &Refusal::NoMemory),
    }
}

fn fault_at(place: u64, cause: &Refusal) -> Fault
    ensures { result ≡ fault_at place cause.now }
{
    Fault {
        number: cause.number(),
        last: last_of(cause),
        place,
    }
}

fn last_of(cause: &Refusal) -> u64
    ensures { result ≡ last_of cause.now }
{
    match cause {
        Refusal::Forked { last } => *last,
        _ => 0,
    }
}
