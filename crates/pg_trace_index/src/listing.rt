//! Runs of a log put side by side.
ghost use Rattle.std.specs.Prelude.{◌≡◌, ◌++◌, ◌∷◌, [], length, reverse, IfOk, OnOk};
ghost use Rattle.pg_trace_index.specs.Chunks.{all_of};
ghost use Rattle.pg_trace_index.specs.History.{Adds, steps_of};
ghost use Rattle.pg_trace_index.specs.Listing.{AreParts, parts_of};
ghost use Rattle.pg_trace_index.specs.LogEntry.{back, chain, chains};

use crate::chunk::Chunk;
use crate::log::LogEntry;
use crate::overlay::count;
use crate::ran::Occurrence;
use crate::steps::Steps;
use pg_graph::{Memory, VertexId, checked_u32};
use std::alloc::Global;
use std::sync::Arc;

/// Which part of a list of runs a vertex has, and the last of them.
#[derive(Clone, Copy, Debug, PartialEq, Eq)]
pub(crate) struct ListRange {
    pub(crate) first: u32,
    pub(crate) end: u32,
    pub(crate) latest: Occurrence,
}

/// The runs of each vertex, by rising id, side by side in one list that all share. It costs O(1) a run.
pub(crate) fn listed(
    alloc: Global,
    last: &[Chunk<LogEntry>],
    earlier: &[LogEntry],
) -> Result<Vec<(VertexId, Steps)>, Memory>
    ensures { IfOk result (λ listed. listed.items ≡ chains earlier.now (all_of last.now)) }
{
    let count = count(last);
    let mut runs = Vec::with_capacity(alloc, earlier.len().saturating_add(count))?;
    let mut parts = Vec::with_capacity(alloc, count)?;
    for chunk in last {
        list_chunk(
            alloc,
            &mut runs,
            &mut parts,
            chunk.entries.as_slice(),
            earlier,
        )?;
    }
    parted(alloc, runs, parts.as_slice())
}

/// Adds the runs of vertices to a list, and notes which part of it each has.
fn list_chunk(
    alloc: Global,
    runs: &mut Vec<Occurrence>,
    parts: &mut Vec<(VertexId, ListRange)>,
    last: &[(VertexId, LogEntry)],
    earlier: &[LogEntry],
) -> Result<(), Memory>
    requires { AreParts runs.old.items parts.old.items }
    ensures parts { OnOk result (AreParts runs.new.items parts.new.items) }
    ensures listed { OnOk result (parts_of runs.new.items parts.new.items
        ≡ parts_of runs.old.items parts.old.items ++ chains earlier.now last.now) }
{
    let mut spare = Vec::new(alloc);
    for (id, logged) in last {
        list_one(runs, parts, &mut spare, *id, *logged, earlier)?;
    }
    Ok(())
}

/// Adds the runs of a vertex to a list, and notes which part of it they are.
fn list_one(
    runs: &mut Vec<Occurrence>,
    parts: &mut Vec<(VertexId, ListRange)>,
    spare: &mut Vec<Occurrence>,
    id: VertexId,
    logged: LogEntry,
    earlier: &[LogEntry],
) -> Result<(), Memory>
    requires { AreParts runs.old.items parts.old.items }
    ensures parts { OnOk result (AreParts runs.new.items parts.new.items) }
    ensures listed { OnOk result (parts_of runs.new.items parts.new.items
        ≡ parts_of runs.old.items parts.old.items ++ (id, chain earlier.now logged) ∷ []) }
{
    let first = checked_u32(runs.len())?;
    add_chain(runs, spare, logged, earlier)?;
    let end = checked_u32(runs.len())?;
    let latest = logged.run;
    parts.push((id, ListRange { first, end, latest }))?;
    Ok(())
}

/// Adds the runs of a vertex to a list, by rising superstep. What `spare` has is let go.
pub(crate) fn add_chain(
    runs: &mut Vec<Occurrence>,
    spare: &mut Vec<Occurrence>,
    logged: LogEntry,
    earlier: &[LogEntry],
) -> Result<(), Memory>
    ensures { OnOk result (Adds (chain earlier.now logged) runs.old.items runs.new.items) }
{
    add_earlier(runs, spare, logged.before, earlier)?;
    runs.push(logged.run)?;
    Ok(())
}

/// Adds the last of so many entries and those before it to a list, by rising superstep.
fn add_earlier(
    runs: &mut Vec<Occurrence>,
    spare: &mut Vec<Occurrence>,
    before: u32,
    earlier: &[LogEntry],
) -> Result<(), Memory>
    ensures { OnOk result
        (Adds (reverse (back earlier.now (length earlier.now) before)) runs.old.items runs.new.items) }
{
    if before == 0 {
        return Ok(());
    }
    spare.clear();
    add_back(spare, before, earlier)?;
    spare.reverse();
    runs.append(spare)?;
    Ok(())
}

/// Adds the last of so many entries and those before it to a list, the latest first.
fn add_back(runs: &mut Vec<Occurrence>, before: u32, earlier: &[LogEntry]) -> Result<(), Memory>
    ensures { OnOk result
        (steps_of runs.new.items ≡ steps_of runs.old.items ++ back earlier.now (length earlier.now) before) }
{
    let mut at = before as usize;
    let mut remaining = earlier.len();
    while 0 < at && at <= remaining {
        let entry = earlier[at - 1];
        runs.push(entry.run)?;
        remaining = at - 1;
        at = entry.before as usize;
    }
    Ok(())
}

/// The parts of a list of runs, which share it.
fn parted(
    alloc: Global,
    runs: Vec<Occurrence>,
    parts: &[(VertexId, ListRange)],
) -> Result<Vec<(VertexId, Steps)>, Memory>
    requires { AreParts runs.items parts.now }
    ensures { IfOk result (λ entries. entries.items ≡ parts_of runs.items parts.now) }
{
    let shared = Arc::new(alloc, runs)?;
    let mut entries = Vec::with_capacity(alloc, parts.len())?;
    for (id, part) in parts {
        let steps = Steps::part_of(&shared, part.first, part.end, part.latest)?;
        entries.push((*id, steps))?;
    }
    Ok(entries)
}
