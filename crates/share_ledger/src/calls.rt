ghost use Rattle.std.specs.Prelude.{◌≡◌, ◌+◌};
ghost use Rattle.share_ledger.specs.Counters.{counted_to};

use crate::halves::{Half, Rest};
use std::marker::Model;

/// How many calls were made in a line of calls, which no other counter has. It can't be copied, and
/// it takes no bytes.
#[derive(Drop)]
pub struct Calls {
    rest: Rest,
}

impl Model for Calls {
    ghost use Rattle.std.specs.Prelude.{◌-◌, ◌<◌};
    ghost use Rattle.share_ledger.specs.Counters.{Counted, counted_to};

    ghost Value = { Counted };

    ghost view = { λ c. counted_to c.rest.table (c.rest.next - 1) };

    ghost invariant = { λ c. 0 < c.rest.next };
}

/// Which call of a line it was, from 1. A 0 is of no call. It can't be copied, it takes no bytes,
/// and only `Calls::count` makes one of a call.
#[derive(Drop)]
pub struct Stamp {
    half: Half,
}

impl Model for Stamp {
    ghost use Rattle.share_ledger.specs.Counters.{Counted, counted_to};

    ghost Value = { Counted };

    ghost view = { λ s. counted_to s.half.table s.half.counter };
}

impl Calls {
    /// A line of its own, with no call.
    pub fn new() -> Calls
        ensures { result.calls ≡ 0 }
    {
        let mut rest = Rest::new();
        rest.open_next();
        Calls { rest }
    }

    /// Counts one call, and stamps it with its number in the line.
    pub fn count(&mut self) -> Stamp
        ensures calls { self.new ≡ counted_to self.old.line (self.old.calls + 1) }
        ensures stamp { result ≡ self.new }
    {
        let (half, _other) = self.rest.open_next();
        Stamp { half }
    }
}

impl Stamp {
    /// A stamp of no call.
    pub fn none() -> Stamp
        ensures { result.calls ≡ 0 }
    {
        let (half, _other) = Rest::new().open_next();
        Stamp { half }
    }
}
