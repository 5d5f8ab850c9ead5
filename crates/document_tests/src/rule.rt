//! A fixed sequence of numbers.
ghost use Rattle.std.specs.Prelude.{◌<◌};

/// A fixed sequence of numbers, which look as if they were drawn by chance.
#[derive(Clone, Copy)]
pub struct Rule {
    state: u64,
}

impl Rule {
    /// The sequence of this seed.
    pub fn new(seed: u64) -> Rule {
        Rule { state: seed }
    }

    /// The next number, below the bound.
    pub fn below(&mut self, bound: u64) -> u64
        requires { 0 < bound }
        ensures { result < bound }
    {
        self.state = self
            .state
            .wrapping_mul(6_364_136_223_846_793_005)
            .wrapping_add(1_442_695_040_888_963_407);
        (self.state >> 33) % bound
    }
}
