//! The count of compute calls.
ghost use Rattle.std.specs.Prelude.{◌≡◌, ℕ, ◌+◌, ◌<◌, ◌^◌};
ghost use Rattle.pg_model.specs.Superstep.{capped};

use std::marker::Model;

/// Counts compute calls. The count stops at 2^64 - 1.
#[derive(Drop)]
pub struct Meter {
    count: u64,
}

impl Model for Meter {
    ghost Value = { ℕ };

    ghost view = { λ m. m.count };

    ghost invariant = { λ m. m.count < 2 ^ 64 };
}

impl Meter {
    /// A meter that has counted nothing.
    pub fn new() -> Meter
        ensures { result ≡ 0 }
    {
        Meter { count: 0 }
    }

    /// How many calls it has counted.
    pub fn count(&self) -> u64
        ensures value { result ≡ self.now }
        ensures fits { self.now < 2 ^ 64 }
    {
        self.count
    }

    /// A meter that has counted as many.
    pub fn copy(&self) -> Meter
        ensures value { result ≡ self.now }
        ensures fits { result < 2 ^ 64 }
    {
        Meter { count: self.count }
    }

    pub(crate) fn called(&mut self)
        ensures { self.new ≡ capped (self.old + 1) }
    {
        self.count = self.count.saturating_add(1);
    }
}
