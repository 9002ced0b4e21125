//! The runs of a vertex, where they lie.
ghost use Rattle.std.specs.Prelude.{◌≡◌, ◌+◌, is_some, length, true, IfOk, IsTrue};
ghost use Rattle.std.specs.List.Sorted.{IsNonDecreasingBy};
ghost use Rattle.std.specs.Option.{option_map};
ghost use Rattle.pg_trace_index.specs.LogEntry.{back, chain, first_below};
ghost use Rattle.pg_trace_index.specs.Occurrences.{last_of, steps_below, steps_in, with_ran};

use crate::listing::add_chain;
use crate::log::LogEntry;
use crate::ran::{Occurrence, after_runs, have_once};
use crate::steps::Steps;
use pg_graph::Memory;
use std::alloc::Global;
use std::marker::Model;

/// The runs of a vertex: in a list side by side, or the last one and the list in which those before are found one from
/// the other. A contract sees the supersteps.
#[derive(Drop)]
pub(crate) struct Occurrences<'a> {
    form: Form<'a>,
}

/// In which form they lie.
#[derive(Drop)]
enum Form<'a> {
    Listed(&'a Steps),
    Chained(LogEntry, &'a [LogEntry]),
}

impl<'a> Model for Occurrences<'a> {
    ghost use Rattle.std.specs.Prelude.{ℕ, List};
    ghost use Rattle.pg_trace_index.specs.Forms.{steps_by};

    ghost Value = { List ℕ };

    ghost view = { λ r. steps_by r.form };
}

impl<'a> Occurrences<'a> {
    /// Runs side by side.
    pub(crate) fn listed(steps: &'a Steps) -> Occurrences<'a>
        ensures { result ≡ steps.now }
    {
        Occurrences {
            form: Form::Listed(steps),
        }
    }

    /// Those of a note, if it has some.
    pub(crate) fn noted(steps: &'a Option<Steps>) -> Option<Occurrences<'a>>
        ensures { result ≡ steps.now }
    {
        match steps {
            Some(steps) => Some(Occurrences::listed(steps)),
            None => None,
        }
    }

    /// A run and those before it.
    pub(crate) fn chained(logged: LogEntry, earlier: &'a [LogEntry]) -> Occurrences<'a>
        ensures { result ≡ chain earlier.now logged }
    {
        Occurrences {
            form: Form::Chained(logged, earlier),
        }
    }

    /// The last run in a superstep below one: the last of all, or found by halving in a list, or one from the other.
    pub(crate) fn last_below(&self, superstep: u32) -> Option<Occurrence>
        requires { IsNonDecreasingBy (λ t. t) self.now }
        ensures { option_map (λ r. r.superstep) result ≡ last_of (steps_below superstep self.now) }
    {
        match &self.form {
            Form::Listed(steps) => steps.last_below(superstep),
            Form::Chained(logged, earlier) => last_under(*logged, earlier, superstep as u64),
        }
    }

    /// The last run in a superstep up to one, found as `last_below` does.
    pub(crate) fn last_up_to(&self, superstep: u32) -> Option<Occurrence>
        requires { IsNonDecreasingBy (λ t. t) self.now }
        ensures { option_map (λ r. r.superstep) result ≡ last_of (steps_below (superstep + 1) self.now) }
    {
        match &self.form {
            Form::Listed(steps) => steps.last_up_to(superstep),
            Form::Chained(logged, earlier) => last_under(*logged, earlier, superstep as u64 + 1),
        }
    }

    /// Whether a superstep is that of just one of them. It may say no where it is: of runs that are found one from the
    /// other it does.
    pub(crate) fn has_once(&self, superstep: u32) -> bool
        requires { IsNonDecreasingBy (λ t. t) self.now }
        ensures { IsTrue result → with_ran superstep true self.now ≡ self.now }
    {
        match &self.form {
            Form::Listed(steps) => have_once(steps.runs(), superstep),
            Form::Chained(_, _) => false,
        }
    }

    /// What the vertex has after it is noted at which place a superstep has its record, if it has one. It costs a copy
    /// of its runs.
    pub(crate) fn after(
        &self,
        alloc: Global,
        superstep: u32,
        given: Option<u32>,
    ) -> Result<Option<Steps>, Memory>
        ensures { IfOk result (λ after. steps_in after ≡ with_ran superstep (is_some given) self.now) }
    {
        match &self.form {
            Form::Listed(steps) => after_runs(alloc, superstep, given, steps.runs()),
            Form::Chained(logged, earlier) => after_chain(
                alloc, superstep, given, *logged, earlier,
            ),
        }
    }
}

/// What a vertex with a run and those before it has after a note.
fn after_chain(
    alloc: Global,
    superstep: u32,
    given: Option<u32>,
    logged: LogEntry,
    earlier: &[LogEntry],
) -> Result<Option<Steps>, Memory>
    ensures { IfOk result (λ after. steps_in after ≡ with_ran superstep (is_some given) (chain earlier.now logged)) }
{
    let mut runs = Vec::new(alloc);
    let mut spare = Vec::new(alloc);
    add_chain(&mut runs, &mut spare, logged, earlier)?;
    after_runs(alloc, superstep, given, runs.as_slice())
}

/// The last run in a superstep below a number, of a run and those before it: the last of all, or found one from the
/// other.
pub(crate) fn last_under(logged: LogEntry, earlier: &[LogEntry], limit: u64) -> Option<Occurrence>
    ensures { option_map (λ r. r.superstep) result ≡ last_of (steps_below limit (chain earlier.now logged)) }
{
    if (logged.run.superstep as u64) < limit {
        return Some(logged.run);
    }
    last_before(logged, earlier, limit)
}

/// The last run in a superstep below a number, of those before a run.
fn last_before(logged: LogEntry, earlier: &[LogEntry], limit: u64) -> Option<Occurrence>
    ensures { option_map (λ r. r.superstep) result
        ≡ first_below limit (back earlier.now (length earlier.now) logged.before) }
{
    let mut at = logged.before as usize;
    let mut remaining = earlier.len();
    while 0 < at && at <= remaining {
        let entry = earlier[at - 1];
        if (entry.run.superstep as u64) < limit {
            return Some(entry.run);
        }
        remaining = at - 1;
        at = entry.before as usize;
    }
    None
}
