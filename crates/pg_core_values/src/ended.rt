//! How an old run ended.
ghost use Rattle.std.specs.Prelude.{◌≡◌};

use crate::Values;
use std::marker::Model;

/// The values with which the vertices of an old run ended, by rising id, and how many supersteps it had.
#[derive(Drop)]
pub struct Ended<'a, V> {
    values: &'a Values<V>,
    supersteps: usize,
}

impl<'a, V> Model for Ended<'a, V> {
    ghost use Rattle.pg_core_values.specs.Values.{Ended};

    ghost Value = { Ended V };

    ghost view = { λ e. record { values = e.values.now; supersteps = e.supersteps } };
}

impl<'a, V> Ended<'a, V> {
    /// A run that ended with these values after so many supersteps.
    pub fn new(values: &'a Values<V>, supersteps: usize) -> Ended<'a, V>
        ensures { result ≡ record { values = values.now; supersteps = supersteps } }
    {
        Ended { values, supersteps }
    }

    pub(crate) fn values(&self) -> &'a Values<V>
        ensures { result.now ≡ self.now.values }
    {
        self.values
    }

    pub(crate) fn supersteps(&self) -> usize
        ensures { result ≡ self.now.supersteps }
    {
        self.supersteps
    }
}
