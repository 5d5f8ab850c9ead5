//! Places in a log.
ghost use Rattle.std.specs.Prelude.{◌≡◌, ◌≤◌};
ghost use Rattle.op_core.specs.Limits.{most_operations};

use std::marker::Model;

/// A position in a log: how many operations are before it. Clauses see the number.
#[derive(Clone, Copy, Debug)]
pub struct LogPosition {
    // at most 100,000, and kept for each operation: `u32` saves room
    number: u32,
}

impl Model for LogPosition {
    ghost use Rattle.std.specs.Prelude.{ℕ};

    ghost Value = { ℕ };

    ghost view = { λ p. p.number };

    ghost inverse = { λ n. record { number = n } };
}

impl LogPosition {
    /// The position with so many operations before it.
    pub fn new(number: usize) -> LogPosition
        requires { number ≤ most_operations }
        ensures { result ≡ number }
    {
        LogPosition {
            number: number as u32,
        }
    }

    /// How many operations are before the position: the index of its own.
    pub fn number(self) -> usize
        ensures { result ≡ self }
    {
        self.number as usize
    }
}
