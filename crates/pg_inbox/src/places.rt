//! Numbered places, of which some have a value.
ghost use Rattle.std.specs.Prelude.{◌≡◌, [], ℕ, ◌==◌, ◌<◌, cond, length, None, Some, OnOk};
ghost use Rattle.std.specs.Option.{option_copied};
ghost use Rattle.pg_inbox.specs.SparseVec.{value_in};

use pg_graph::Memory;
use std::alloc::Global;
use std::marker::Model;

/// Places from 0 on, each with a value or none.
#[derive(Drop)]
pub(crate) struct SparseVec<X> {
    values: Vec<Option<X>>,
}

impl<X> Model for SparseVec<X> {
    ghost use Rattle.std.specs.Prelude.{List, Option};

    ghost Value = { List (Option X) };

    ghost view = { λ p. p.values.items };
}

impl<X: Drop> SparseVec<X> {
    /// No place has a value.
    pub(crate) fn new(alloc: Global) -> SparseVec<X>
        ensures { result ≡ [] }
    {
        SparseVec {
            values: Vec::new(alloc),
        }
    }

    pub(crate) fn get(&self, place: usize) -> Option<&X>
        ensures { option_copied result ≡ value_in place self.now }
    {
        if place >= self.values.len() {
            return None;
        }
        self.values[place].as_ref()
    }

    /// Takes the value of a place away.
    pub(crate) fn take(&mut self, place: usize) -> Option<X>
        ensures value { result ≡ value_in place self.old }
        ensures others { (other : ℕ) → value_in other self.new ≡ cond (place == other) None (value_in other self.old) }
        ensures len { length self.new ≡ length self.old }
    {
        if place >= self.values.len() {
            return None;
        }
        self.values[place].take()
    }

    /// Makes room for a place. No place's value changes.
    pub(crate) fn grow(&mut self, place: usize) -> Result<(), Memory>
        ensures same { (other : ℕ) → value_in other self.new ≡ value_in other self.old }
        ensures room { OnOk result (place < length self.new) }
    {
        while self.values.len() <= place {
            self.values.push(None)?;
        }
        Ok(())
    }

    /// Gives a place a value.
    pub(crate) fn set(&mut self, place: usize, value: X)
        requires { place < length self.old }
        ensures { (other : ℕ) → value_in other self.new ≡ cond (place == other) (Some value) (value_in other self.old) }
    {
        self.values[place] = Some(value);
    }
}
