//! What one partition sent in a superstep, where most bundles may be empty.
ghost use Rattle.std.specs.Prelude.{◌≡◌, ◌==◌, ◌<◌, ◌≤◌, ◌⊎◌, ◌+◌, ℕ, [], length, cond, None, Some, IsTrue, OnOk};
ghost use Rattle.std.specs.Prelude.{OnErr};
ghost use Rattle.std.specs.Option.{option_copied};
ghost use Rattle.pg_inbox.specs.SparseVec.{value_in};
ghost use Rattle.pg_inbox.specs.SentRow.{AreNone, IsLastAt};

use pg_graph::Memory;
use pg_inbox_bundles::{Bundle, LoggedBundle};
use pg_program::Plain;
use std::alloc::Global;
use std::marker::Model;

/// Bundles by the partition that receives them, from 0 on. An empty one takes no memory where it is like the first.
#[derive(Drop)]
pub(crate) struct SentRow<M: Plain> {
    count: usize,
    usual: LoggedBundle<M>,
    others: Vec<(usize, Option<LoggedBundle<M>>)>,
}

impl<M: Plain> Model for SentRow<M> {
    ghost use Rattle.std.specs.Prelude.{List, Option};
    ghost use Rattle.pg_inbox.specs.SentRow.{AreBelow, slots_in};
    ghost use Rattle.pg_inbox_bundles.specs.declared.logged_bundle.LoggedBundle.{LoggedBundle};

    ghost Value = { List (Option (LoggedBundle M)) };

    ghost view = { λ r. slots_in r.count r.usual r.others.items };

    ghost invariant = { λ r. AreBelow r.count r.others.items };
}

impl<M: Plain> SentRow<M> {
    /// No bundles. Takes no memory.
    pub(crate) fn new(alloc: Global) -> SentRow<M>
        ensures { result ≡ [] }
    {
        SentRow {
            count: 0,
            usual: LoggedBundle {
                bundle: Bundle::new(),
                changed: None,
            },
            others: Vec::new(alloc),
        }
    }

    /// The bundle to a partition. Costs a look at each that isn't usual.
    pub(crate) fn get(&self, to: usize) -> Option<&LoggedBundle<M>>
        ensures { option_copied result ≡ value_in to self.now }
    {
        if to >= self.count {
            return None;
        }
        match last_at(self.others.as_slice(), to) {
            Some(place) => self.others[place].1.as_ref(),
            None => Some(&self.usual),
        }
    }

    /// Puts the bundle to a partition. Nothing changes where memory is refused.
    pub(crate) fn put(&mut self, to: usize, logged: LoggedBundle<M>) -> Result<(), Memory>
        requires { to < 4294967296 }
        ensures ok { OnOk result ((q : ℕ) → value_in q self.new ≡ cond (to == q) (Some logged) (value_in q self.old)) }
        ensures err { OnErr result ((q : ℕ) → value_in q self.new ≡ value_in q self.old) }
    {
        if self.count == 0 && to == 0 && is_empty(&logged) {
            self.usual = logged;
            self.count = 1;
            return Ok(());
        }
        if to == self.count && is_like(&logged, &self.usual) {
            self.count += 1;
            return Ok(());
        }
        self.fill(to)?;
        self.others.push((to, Some(logged)))?;
        self.count = past(self.count, to);
        Ok(())
    }

    /// Makes room for the bundle to a partition. None changes.
    fn fill(&mut self, to: usize) -> Result<(), Memory>
        requires { to < 4294967296 }
        ensures same { (q : ℕ) → value_in q self.new ≡ value_in q self.old }
        ensures room { OnOk result (to ≤ length self.new) }
    {
        while self.count < to {
            self.others.push((self.count, None))?;
            self.count += 1;
        }
        Ok(())
    }
}

/// The greater of a count and of how many places there are up to one.
fn past(count: usize, place: usize) -> usize
    requires { place < 4294967296 }
    ensures within { (count ≤ result) × (place < result) }
    ensures least { (result ≤ count) ⊎ (result ≤ place + 1) }
{
    if place < count { count } else { place + 1 }
}

/// Where the last entry with a number is.
fn last_at<X>(entries: &[(usize, X)], number: usize) -> Option<usize>
    ensures { IsLastAt number entries.now result }
{
    let mut found = None;
    for place in 0..entries.len() {
        if entries[place].0 == number {
            found = Some(place);
        }
    }
    found
}

/// Whether two bundles are empty and differ nowhere, or for both it isn't known where they do.
fn is_like<M: Plain>(logged: &LoggedBundle<M>, other: &LoggedBundle<M>) -> bool
    ensures { IsTrue result → logged.now ≡ other.now }
{
    if !is_empty(logged) || !is_empty(other) {
        return false;
    }
    logged.changed.is_some() == other.changed.is_some()
}

/// Whether a bundle is empty, and differs nowhere if it is known where it does.
fn is_empty<M: Plain>(logged: &LoggedBundle<M>) -> bool
    ensures bundle { IsTrue result → logged.now.bundle ≡ [] }
    ensures changed { IsTrue result → AreNone logged.now.changed }
{
    match &logged.changed {
        Some(changed) => changed.as_slice().is_empty() && logged.bundle.is_empty(),
        None => logged.bundle.is_empty(),
    }
}
