//! The runs of a vertex, and what an index has of it after a note.
ghost use Rattle.std.specs.Prelude.{◌≡◌, ◌++◌, ◌∷◌, [], cond, is_some, true, IfOk, OnOk, IsTrue};
ghost use Rattle.std.specs.List.Sorted.{IsNonDecreasingBy};
ghost use Rattle.std.specs.Option.{option_copied, option_map};
ghost use Rattle.pg_trace_index.specs.History.{steps_of};
ghost use Rattle.pg_trace_index.specs.Occurrences.{last_of, steps_above, steps_below, steps_in, with_ran};

use crate::chain::Occurrences;
use crate::steps::Steps;
use pg_graph::Memory;
use std::alloc::Global;

/// That a vertex ran in a superstep.
#[derive(Clone, Copy, Debug, PartialEq, Eq)]
pub struct Occurrence {
    /// The superstep in which it ran.
    pub superstep: u32,
    /// The place at which its record may stand among those of the superstep: where to look first.
    pub place: u32,
}

/// A list of runs is made with room for so many more, the next one among them: most vertices run again.
const ROOM: usize = 3;

/// What a vertex with these runs has after it is noted at which place a superstep has its record, if it has one. It
/// costs a copy of its runs.
pub(crate) fn after_runs(
    alloc: Global,
    superstep: u32,
    given: Option<u32>,
    runs: &[Occurrence],
) -> Result<Option<Steps>, Memory>
    ensures { IfOk result (λ after. steps_in after ≡ with_ran superstep (is_some given) (steps_of runs.now)) }
{
    let runs = stepped(alloc, runs, superstep, given)?;
    match last_of(runs.as_slice()) {
        Some(latest) => Ok(Some(Steps::of(alloc, latest, runs)?)),
        None => Ok(None),
    }
}

/// The last run of a vertex that has runs or none, likewise.
pub(crate) fn after(
    alloc: Global,
    superstep: u32,
    given: Option<u32>,
    before: Option<Occurrences<'_>>,
) -> Result<Option<Steps>, Memory>
    ensures { IfOk result (λ after. steps_in after ≡ with_ran superstep (is_some given) (steps_in before.entry)) }
{
    match before {
        Some(ran) => ran.after(alloc, superstep, given),
        None => after_runs(alloc, superstep, given, &[]),
    }
}

/// Whether a superstep is that of just one of the runs of a vertex, so that one more note of it says nothing new: the
/// place that is noted remains where to look first. It may say no where it is.
pub(crate) fn has_run_once(before: &Option<Occurrences<'_>>, superstep: u32) -> bool
    requires { IsNonDecreasingBy (λ t. t) (steps_in before.now) }
    ensures { IsTrue result → with_ran superstep true (steps_in before.now) ≡ steps_in before.now }
{
    match before {
        Some(ran) => ran.has_once(superstep),
        None => false,
    }
}

/// Whether a superstep is that of just one of these runs. It costs two binary searches.
pub(crate) fn have_once(runs: &[Occurrence], superstep: u32) -> bool
    requires { IsNonDecreasingBy (λ t. t) (steps_of runs.now) }
    ensures { IsTrue result → with_ran superstep true (steps_of runs.now) ≡ steps_of runs.now }
{
    let below = runs.partition_point(|run| run.superstep < superstep);
    let up_to = runs.partition_point(|run| run.superstep <= superstep);
    up_to == below + 1
}

/// The last of runs.
fn last_of(runs: &[Occurrence]) -> Option<Occurrence>
    ensures { option_map (λ r. r.superstep) result ≡ last_of (steps_of runs.now) }
{
    if runs.is_empty() {
        return None;
    }
    Some(runs[runs.len() - 1])
}

/// The runs that a note has of a vertex.
pub(crate) fn runs_in(ran: &Option<Steps>) -> &[Occurrence]
    ensures { steps_of result.now ≡ steps_in ran.now }
{
    match ran {
        Some(ran) => ran.runs(),
        None => &[],
    }
}

/// These runs with that of one superstep among them or not.
fn stepped(
    alloc: Global,
    runs: &[Occurrence],
    superstep: u32,
    given: Option<u32>,
) -> Result<Vec<Occurrence>, Memory>
    ensures { IfOk result (λ stepped.
        steps_of stepped.items ≡ with_ran superstep (is_some given) (steps_of runs.now)) }
{
    let mut stepped = Vec::with_capacity(alloc, runs.len().saturating_add(ROOM))?;
    add_below(&mut stepped, runs, superstep)?;
    add_given(&mut stepped, superstep, given)?;
    add_above(&mut stepped, runs, superstep)?;
    Ok(stepped)
}

/// Adds the runs in supersteps below one.
fn add_below(into: &mut Vec<Occurrence>, runs: &[Occurrence], superstep: u32) -> Result<(), Memory>
    ensures { OnOk result
        (steps_of into.new.items ≡ steps_of into.old.items ++ steps_below superstep (steps_of runs.now)) }
{
    for run in runs {
        if run.superstep < superstep {
            into.push(*run)?;
        }
    }
    Ok(())
}

/// Adds a run in a superstep, if there is one.
fn add_given(into: &mut Vec<Occurrence>, superstep: u32, given: Option<u32>) -> Result<(), Memory>
    ensures { OnOk result
        (steps_of into.new.items ≡ steps_of into.old.items ++ cond (is_some given) (superstep ∷ []) []) }
{
    if let Some(place) = given {
        into.push(Occurrence { superstep, place })?;
    }
    Ok(())
}

/// Adds the runs in supersteps above one.
fn add_above(into: &mut Vec<Occurrence>, runs: &[Occurrence], superstep: u32) -> Result<(), Memory>
    ensures { OnOk result
        (steps_of into.new.items ≡ steps_of into.old.items ++ steps_above superstep (steps_of runs.now)) }
{
    for run in runs {
        if superstep < run.superstep {
            into.push(*run)?;
        }
    }
    Ok(())
}
