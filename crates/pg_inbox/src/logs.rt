//! The logs of a run: what each partition sent to each other, superstep by superstep.
ghost use Rattle.std.specs.Prelude.{◌≡◌, ℕ, ◌==◌, ◌&&◌, cond, length, None, Some, OnOk, OnErr};
ghost use Rattle.std.specs.Option.{option_copied};
ghost use Rattle.pg_inbox.specs.LoggedBundle.{is_pair, slot_at, slot_of};
ghost use Rattle.pg_inbox.specs.SparseVec.{inside, value_in};

use crate::places::SparseVec;
use crate::sent_row::SentRow;
use pg_graph::{Memory, PartitionId, Superstep};
use pg_inbox_bundles::LoggedBundle;
use pg_program::Plain;
use std::alloc::Global;
use std::marker::Model;

/// The bundles of a run, by superstep and by the partitions that sent and receive them.
pub struct Logs<M: Plain> {
    senders: SparseVec<SparseVec<SentRow<M>>>,
}

// By hand, so that it is let go by one call wherever that is, and not field by field.
impl<M: Plain> Drop for Logs<M> {
    fn drop(self) {
        let Logs { senders: _ } = self;
    }
}

impl<M: Plain> Model for Logs<M> {
    ghost use Rattle.pg_inbox.specs.LoggedBundle.{Slots};

    ghost Value = { Slots M };

    ghost view = { λ l. l.senders };
}

impl<M: Plain> Logs<M> {
    /// No bundles. Takes no memory.
    pub fn new(alloc: Global) -> Logs<M>
        ensures { (s p q : ℕ) → slot_at result s p q ≡ None }
    {
        Logs {
            senders: SparseVec::new(alloc),
        }
    }

    /// What a partition sent to another in a superstep, if that was put. Costs O(1).
    pub fn get(
        &self,
        superstep: Superstep,
        from: PartitionId,
        to: PartitionId,
    ) -> Option<&LoggedBundle<M>>
        ensures { option_copied result ≡ slot_at self.now superstep from to }
    {
        let supersteps = self.senders.get(from.number() as usize)?;
        let row = supersteps.get(superstep.number() as usize)?;
        row.get(to.number() as usize)
    }

    /// Puts what a partition sent to another in a superstep, in place of what was there. Nothing changes where
    /// memory is refused. Costs O(1), but for the first of a superstep or a partition.
    pub fn put(
        &mut self,
        alloc: Global,
        superstep: Superstep,
        from: PartitionId,
        to: PartitionId,
        logged: LoggedBundle<M>,
    ) -> Result<(), Memory>
        ensures ok { OnOk result
            ((s p q : ℕ) → slot_at self.new s p q ≡ cond (is_pair superstep from to s p q) (Some logged)
            (slot_at self.old s p q)) }
        ensures err { OnErr result ((s p q : ℕ) → slot_at self.new s p q ≡ slot_at self.old s p q) }
    {
        let place = from.number() as usize;
        self.senders.grow(place)?;
        let mut supersteps = taken(alloc, &mut self.senders, place);
        match put_in(alloc, &mut supersteps, superstep, to, logged) {
            Ok(()) => {
                self.senders.set(place, supersteps);
                Ok(())
            }
            Err(refused) => {
                self.senders.set(place, supersteps);
                Err(refused)
            }
        }
    }

    /// Forgets all that a partition sent.
    pub fn forget(&mut self, from: PartitionId)
        ensures { (s p q : ℕ) → slot_at self.new s p q ≡ cond (from == p) None (slot_at self.old s p q) }
    {
        let _forgotten = self.senders.take(from.number() as usize);
    }
}

/// Takes what stands at a place, or else no values.
fn taken<X: Drop>(alloc: Global, places: &mut SparseVec<SparseVec<X>>, place: usize) -> SparseVec<X>
    ensures value { (q : ℕ) → value_in q result ≡ inside q (value_in place places.old) }
    ensures others { (other : ℕ) → value_in other places.new ≡ cond (place == other) None (value_in other places.old) }
    ensures len { length places.new ≡ length places.old }
{
    match places.take(place) {
        Some(values) => values,
        None => SparseVec::new(alloc),
    }
}

/// Puts what one partition sent.
fn put_in<M: Plain>(
    alloc: Global,
    supersteps: &mut SparseVec<SentRow<M>>,
    superstep: Superstep,
    to: PartitionId,
    logged: LoggedBundle<M>,
) -> Result<(), Memory>
    ensures ok { OnOk result
        ((s q : ℕ) → slot_of supersteps.new s q ≡ cond ((superstep == s) && (to == q)) (Some logged)
        (slot_of supersteps.old s q)) }
    ensures err { OnErr result ((s q : ℕ) → slot_of supersteps.new s q ≡ slot_of supersteps.old s q) }
{
    let place = superstep.number() as usize;
    supersteps.grow(place)?;
    let mut row = taken_row(alloc, supersteps, place);
    match row.put(to.number() as usize, logged) {
        Ok(()) => {
            supersteps.set(place, row);
            Ok(())
        }
        Err(refused) => {
            supersteps.set(place, row);
            Err(refused)
        }
    }
}

/// Takes what one partition sent in a superstep, or else no bundles.
fn taken_row<M: Plain>(
    alloc: Global,
    supersteps: &mut SparseVec<SentRow<M>>,
    place: usize,
) -> SentRow<M>
    ensures value { (q : ℕ) → value_in q result ≡ inside q (value_in place supersteps.old) }
    ensures others { (other : ℕ) → value_in other supersteps.new ≡ cond (place == other) None
        (value_in other supersteps.old) }
    ensures len { length supersteps.new ≡ length supersteps.old }
{
    match supersteps.take(place) {
        Some(row) => row,
        None => SentRow::new(alloc),
    }
}
