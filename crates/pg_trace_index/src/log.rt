//! What a first run notes: of each vertex its last run, and in one list for all vertices the runs before.
ghost use Rattle.std.specs.Prelude.{◌≡◌, ◌++◌, ◌∷◌, [], false, length, true, IfOk, IsTrue, OnOk};
ghost use Rattle.std.specs.List.Sorted.{IsNonDecreasingBy};
ghost use Rattle.std.specs.Option.{option_map};
ghost use Rattle.pg_map.specs.Entries.{HasRisingIds, value_at};
ghost use Rattle.pg_trace_index.specs.Chunks.{AreSound, all_of};
ghost use Rattle.pg_trace_index.specs.LogEntry.{AreWithin, chains};
ghost use Rattle.pg_trace_index.specs.Occurrences.{IsNotedOf, last_of, steps_below, steps_in};

use crate::chain::{Occurrences, last_under};
use crate::chunk::{Chunk, found, get, put};
use crate::listing::listed;
use crate::ran::Occurrence;
use crate::steps::Steps;
use pg_graph::{Memory, VertexId, checked_u32};
use std::alloc::Global;
use std::marker::Model;

/// A run of a vertex, and where the one before it stands: it is the last of so many entries of a list, or there is none
/// where they are 0.
#[derive(Clone, Copy, Debug, PartialEq, Eq)]
pub(crate) struct LogEntry {
    pub(crate) run: Occurrence,
    pub(crate) before: u32,
}

/// Of each vertex its last run, by rising id.
pub(crate) type Last = Vec<Chunk<LogEntry>>;

/// In which supersteps vertices ran: of each the last run, and all runs before in one list, so that a vertex has no
/// memory of its own. A contract sees the supersteps of each vertex, by rising id.
#[derive(Drop)]
pub(crate) struct Log {
    pub(crate) last: Last,
    pub(crate) earlier: Vec<LogEntry>,
}

impl Model for Log {
    ghost use Rattle.std.specs.Prelude.{ℕ, List};
    ghost use Rattle.pg_trace_index.specs.Chunks.{AreSound, all_of};
    ghost use Rattle.pg_trace_index.specs.LogEntry.{AreWithin, chains};

    ghost Value = { List (ℕ × List ℕ) };

    ghost view = { λ l. chains l.earlier.items (all_of l.last.items) };

    ghost invariant = { λ l. AreSound l.last.items × AreWithin l.earlier.items (all_of l.last.items) };
}

/// Looks up ids in a log. A contract sees the log.
#[derive(Drop)]
pub(crate) struct LogCursor<'a> {
    last: &'a [Chunk<LogEntry>],
    earlier: &'a [LogEntry],
    begun: usize,
}

impl<'a> Model for LogCursor<'a> {
    ghost use Rattle.std.specs.Prelude.{ℕ, List};
    ghost use Rattle.pg_trace_index.specs.Chunks.{AreSound, all_of};
    ghost use Rattle.pg_trace_index.specs.LogEntry.{chains};

    ghost Value = { List (ℕ × List ℕ) };

    ghost view = { λ f. chains f.earlier.now (all_of f.last.now) };

    ghost invariant = { λ f. AreSound f.last.now };
}

impl<'a> LogCursor<'a> {
    /// Look-ups among these runs.
    pub(crate) fn of(last: &'a [Chunk<LogEntry>], earlier: &'a [LogEntry]) -> LogCursor<'a>
        requires { AreSound last.now }
        ensures { result ≡ chains earlier.now (all_of last.now) }
    {
        LogCursor {
            last,
            earlier,
            begun: 0,
        }
    }

    /// What there is of an id.
    pub(crate) fn get(&mut self, id: VertexId) -> Option<Occurrences<'a>>
        ensures value { result ≡ value_at id self.old }
        ensures same { self.new ≡ self.old }
    {
        match get(self.last, &mut self.begun, id) {
            Some(logged) => Some(Occurrences::chained(*logged, self.earlier)),
            None => None,
        }
    }

    /// The last run of a vertex before a superstep.
    #[inline(always)]
    pub(crate) fn last_before(&mut self, id: VertexId, superstep: u32) -> Option<Occurrence>
        ensures value { option_map (λ r. r.superstep) result
            ≡ last_of (steps_below superstep (steps_in (value_at id self.old))) }
        ensures same { self.new ≡ self.old }
    {
        match get(self.last, &mut self.begun, id) {
            Some(logged) => last_under(*logged, self.earlier, superstep as u64),
            None => None,
        }
    }
}

impl Log {
    /// A log of no runs.
    pub(crate) fn new(alloc: Global) -> Log
        ensures { result ≡ [] }
    {
        Log {
            last: Vec::new(alloc),
            earlier: Vec::new(alloc),
        }
    }

    /// Look-ups in the log.
    pub(crate) fn cursor(&self) -> LogCursor<'_>
        ensures { result ≡ self.now }
    {
        LogCursor::of(self.last.as_slice(), self.earlier.as_slice())
    }

    /// The runs of each vertex, by rising id, side by side in one list that all share. It costs O(1) a run.
    pub(crate) fn listed(&self, alloc: Global) -> Result<Vec<(VertexId, Steps)>, Memory>
        ensures listed { IfOk result (λ listed. listed.items ≡ self.now) }
        ensures rising { HasRisingIds self.now }
    {
        listed(alloc, self.last.as_slice(), self.earlier.as_slice())
    }
}

/// Adds a run of a vertex, where those that it has are below it. Else nothing changes, and it says so.
pub(crate) fn add_run(
    alloc: Global,
    last: &mut Last,
    earlier: &mut Vec<LogEntry>,
    near: &mut usize,
    id: VertexId,
    run: Occurrence,
) -> Result<bool, Memory>
    requires sound { AreSound last.old.items }
    requires within { AreWithin earlier.old.items (all_of last.old.items) }
    requires steps { IsNonDecreasingBy (λ t. t)
        (steps_in (value_at id (chains earlier.old.items (all_of last.old.items)))) }
    ensures sound { OnOk result (AreSound last.new.items) }
    ensures within { OnOk result (AreWithin earlier.new.items (all_of last.new.items)) }
    ensures noted { IfOk result (λ added. IsTrue added → IsNotedOf id run.superstep true
        (chains earlier.old.items (all_of last.old.items)) (chains earlier.new.items (all_of last.new.items))) }
    ensures same { IfOk result (λ added. added ≡ false
        → chains earlier.new.items (all_of last.new.items) ≡ chains earlier.old.items (all_of last.old.items)) }
{
    if let Some((chunk, place)) = found(last.as_slice(), near, id) {
        let logged = last[chunk].entries[place].1;
        if run.superstep <= logged.run.superstep {
            return Ok(false);
        }
        last[chunk].entries[place].1 = after_this(earlier, logged, run)?;
        return Ok(true);
    }
    put(alloc, last, *near, id, LogEntry { run, before: 0 })?;
    Ok(true)
}

/// A run that comes after a logged one, which is put into the list.
fn after_this(
    earlier: &mut Vec<LogEntry>,
    logged: LogEntry,
    run: Occurrence,
) -> Result<LogEntry, Memory>
    ensures pushed { OnOk result (earlier.new.items ≡ earlier.old.items ++ logged ∷ []) }
    ensures next { IfOk result (λ next. next ≡ record { run = run; before = length earlier.new.items }) }
{
    earlier.push(logged)?;
    let before = checked_u32(earlier.len())?;
    Ok(LogEntry { run, before })
}
