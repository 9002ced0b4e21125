//! In which supersteps a vertex ran.
ghost use Rattle.std.specs.Prelude.{◌≡◌, ◌++◌, ◌+◌, ◌∷◌, [], ℕ, ◌<◌, ◌≤◌, false, length, slice_index};
ghost use Rattle.std.specs.Prelude.{Some, IfOk, OnErr, OnOk, IsTrue};
ghost use Rattle.std.specs.Arc.{arc_value};
ghost use Rattle.std.specs.List.Sorted.{IsNonDecreasingBy};
ghost use Rattle.std.specs.Option.{option_map};
ghost use Rattle.pg_trace_index.specs.History.{IsPart, part_of, steps_of};
ghost use Rattle.pg_trace_index.specs.Occurrences.{last_of, steps_below};

use crate::ran::Occurrence;
use pg_graph::{Memory, checked_u32};
use pg_map::CheapClone;
use std::alloc::Global;
use std::marker::Model;
use std::sync::Arc;

/// The runs of a vertex, by rising superstep: a part of a list that copies and other vertices share. The last one is
/// noted by itself, so that most look-ups don't read the list. A contract sees the supersteps.
pub(crate) struct Steps {
    shared: Arc<Vec<Occurrence>>,
    first: u32,
    end: u32,
    latest: Occurrence,
}

// By hand, so that it is let go by one call wherever that is, and not field by field.
impl Drop for Steps {
    fn drop(self) {
        let Steps {
            shared: _,
            first: _,
            end: _,
            latest: _,
        } = self;
    }
}

impl Model for Steps {
    ghost use Rattle.std.specs.Prelude.{ℕ, List};
    ghost use Rattle.std.specs.Arc.{arc_value};
    ghost use Rattle.pg_trace_index.specs.History.{IsPart, part_of};

    ghost Value = { List ℕ };

    ghost view = { λ s. part_of (arc_value s.shared).items s.first s.end };

    ghost invariant = { λ s. IsPart (arc_value s.shared).items s.first s.end s.latest };
}

impl CheapClone for Steps {
    fn cheap_clone(&self, _alloc: Global) -> Result<Steps, Memory> {
        Ok(Steps {
            shared: Arc::try_clone(&self.shared)?,
            first: self.first,
            end: self.end,
            latest: self.latest,
        })
    }
}

impl Steps {
    /// These runs, of which this is the last.
    pub(crate) fn of(
        alloc: Global,
        latest: Occurrence,
        runs: Vec<Occurrence>,
    ) -> Result<Steps, Memory>
        requires { Some latest.superstep ≡ last_of (steps_of runs.items) }
        ensures { IfOk result (λ steps. steps ≡ steps_of runs.items) }
    {
        let end = checked_u32(runs.len())?;
        Ok(Steps {
            shared: Arc::new(alloc, runs)?,
            first: 0,
            end,
            latest,
        })
    }

    /// A part of a list of runs, of which this is the last.
    pub(crate) fn part_of(
        shared: &Arc<Vec<Occurrence>>,
        first: u32,
        end: u32,
        latest: Occurrence,
    ) -> Result<Steps, Memory>
        requires { IsPart (arc_value shared.now).items first end latest }
        ensures { IfOk result (λ steps. steps ≡ part_of (arc_value shared.now).items first end) }
    {
        Ok(Steps {
            shared: Arc::try_clone(shared)?,
            first,
            end,
            latest,
        })
    }

    /// The runs.
    pub(crate) fn runs(&self) -> &[Occurrence]
        ensures { steps_of result.now ≡ self.now }
    {
        let runs = self.shared.as_slice();
        &runs[self.first as usize..self.end as usize]
    }

    /// Adds a run behind the others. Nothing changes where memory is refused. It costs O(1) where no copy shares the
    /// runs, and else a copy of them.
    pub(crate) fn push(&mut self, alloc: Global, superstep: u32, place: u32) -> Result<(), Memory>
        ensures { OnOk result (self.new ≡ self.old ++ superstep ∷ []) }
    {
        let run = Occurrence { superstep, place };
        if self.end < u32::MAX && add_in_place(&mut self.shared, self.end, run)? {
            self.end += 1;
            self.latest = run;
            return Ok(());
        }
        let longer = longer(alloc, self.runs(), run)?;
        *self = Steps::of(alloc, run, longer)?;
        Ok(())
    }

    /// Whether all of them come before a superstep. It doesn't read their list.
    pub(crate) fn are_below(&self, superstep: u32) -> bool
        requires { IsNonDecreasingBy (λ t. t) self.now }
        ensures { IsTrue result → (k : ℕ) → k < length self.now → slice_index self.now k < superstep }
    {
        self.latest.superstep < superstep
    }

    /// The last run in a superstep below one: the last of all, or found by halving.
    pub(crate) fn last_below(&self, superstep: u32) -> Option<Occurrence>
        requires { IsNonDecreasingBy (λ t. t) self.now }
        ensures { option_map (λ r. r.superstep) result ≡ last_of (steps_below superstep self.now) }
    {
        if self.are_below(superstep) {
            return Some(self.latest);
        }
        last_below(self.runs(), superstep)
    }

    /// The last run in a superstep up to one: the last of all, or found by halving.
    pub(crate) fn last_up_to(&self, superstep: u32) -> Option<Occurrence>
        requires { IsNonDecreasingBy (λ t. t) self.now }
        ensures { option_map (λ r. r.superstep) result ≡ last_of (steps_below (superstep + 1) self.now) }
    {
        if self.latest.superstep <= superstep {
            return Some(self.latest);
        }
        last_up_to(self.runs(), superstep)
    }
}

/// Adds a run to a list that no copy shares and that has no more than so many runs. Else nothing changes, and it says
/// so.
fn add_in_place(
    shared: &mut Arc<Vec<Occurrence>>,
    end: u32,
    run: Occurrence,
) -> Result<bool, Memory>
    requires { end ≤ length (arc_value shared.old).items }
    ensures added { IfOk result (λ added. IsTrue added
        → (arc_value shared.new).items ≡ (arc_value shared.old).items ++ run ∷ []) }
    ensures all { IfOk result (λ added. IsTrue added → end ≡ length (arc_value shared.old).items) }
    ensures same { IfOk result (λ added. added ≡ false → (arc_value shared.new).items ≡ (arc_value shared.old).items) }
    ensures err { OnErr result ((arc_value shared.new).items ≡ (arc_value shared.old).items) }
{
    match Arc::get_mut(shared) {
        Some(runs) => {
            if runs.len() > end as usize {
                return Ok(false);
            }
            runs.push(run)?;
            Ok(true)
        }
        None => Ok(false),
    }
}

/// A copy of runs with one more.
fn longer(alloc: Global, runs: &[Occurrence], run: Occurrence) -> Result<Vec<Occurrence>, Memory>
    ensures { IfOk result (λ longer. longer.items ≡ runs.now ++ run ∷ []) }
{
    let mut longer = Vec::with_capacity(alloc, runs.len().saturating_add(1))?;
    longer.extend_from_slice(runs)?;
    longer.push(run)?;
    Ok(longer)
}

/// The last of runs by rising superstep that is below one, found by halving.
fn last_below(runs: &[Occurrence], superstep: u32) -> Option<Occurrence>
    requires { IsNonDecreasingBy (λ t. t) (steps_of runs.now) }
    ensures { option_map (λ r. r.superstep) result ≡ last_of (steps_below superstep (steps_of runs.now)) }
{
    let after = runs.partition_point(|run| run.superstep < superstep);
    if after == 0 {
        return None;
    }
    Some(runs[after - 1])
}

/// The last of runs by rising superstep that isn't above one, found by halving.
fn last_up_to(runs: &[Occurrence], superstep: u32) -> Option<Occurrence>
    requires { IsNonDecreasingBy (λ t. t) (steps_of runs.now) }
    ensures { option_map (λ r. r.superstep) result ≡ last_of (steps_below (superstep + 1) (steps_of runs.now)) }
{
    let after = runs.partition_point(|run| run.superstep <= superstep);
    if after == 0 {
        return None;
    }
    Some(runs[after - 1])
}
