//! The overlay of a map that copies share: notes, which say of some vertices what stands in place of their entries
//! there.
ghost use Rattle.std.specs.Prelude.{◌≡◌, ◌++◌, false, is_some, true, IfOk, OnOk, IsTrue};
ghost use Rattle.std.specs.List.Sorted.{IsNonDecreasingBy};
ghost use Rattle.pg_map.specs.Entries.{ChangesRise, HasRisingIds, value_at, with_changes};
ghost use Rattle.pg_trace_index.specs.Chunks.{AreSound, all_of};
ghost use Rattle.pg_trace_index.specs.LogEntry.{AreWithin, chains};
ghost use Rattle.pg_trace_index.specs.Occurrences.{IsNoted, IsNotedOf, StepsRise, steps_in, with_ran};

use crate::base::{Base, BaseCursor};
use crate::chunk::{Chunk, found, put};
use crate::log::{Last, Log, LogCursor, LogEntry, add_run};
use crate::ran::{Occurrence, after, after_runs, has_run_once, have_once, runs_in};
use crate::steps::Steps;
use pg_graph::{Memory, VertexId};
use pg_map::CheapClone;
use std::alloc::Global;

/// What is said of each vertex of which there is a note, by rising id: in which supersteps it ran, or that it ran in
/// none.
pub(crate) type Overlay = Vec<Chunk<Option<Steps>>>;

/// Notes of these vertices, by rising id, at which place a superstep has their records, if it has them. Where memory is
/// refused some of the notes may have been made.
///
/// For k vertices it costs k look-ups among the notes, and k in the map at most. One that ran in this superstep and has
/// a record there also costs two binary searches among its runs, and no note is made of it. Any other one that has no
/// note yet, that ran in a later superstep, or that is given none, costs a copy of its runs; and where it has no note
/// yet, it moves the notes that follow in its chunk.
pub(crate) fn note_over(
    alloc: Global,
    overlay: &mut Overlay,
    base: &Base,
    superstep: u32,
    given: &[(VertexId, Option<u32>)],
) -> Result<(), Memory>
    requires rise { ChangesRise given.now }
    requires rising { HasRisingIds base.now }
    requires sound { AreSound overlay.old.items }
    requires steps { StepsRise (with_changes (all_of overlay.old.items) base.now) }
    ensures sound { OnOk result (AreSound overlay.new.items) }
    ensures noted { OnOk result (IsNoted superstep given.now
        (with_changes (all_of overlay.old.items) base.now) (with_changes (all_of overlay.new.items) base.now)) }
{
    let mut cursor = base.cursor();
    let mut near = 0;
    for (id, given) in given {
        note_of(
            alloc,
            overlay,
            &mut near,
            &mut cursor,
            *id,
            superstep,
            *given,
        )?;
    }
    Ok(())
}

/// Notes of these vertices over a log; or in the log itself, as long as nothing is noted over it, of those that run in
/// a superstep above their others. The log is gone where memory is refused.
///
/// For k vertices it costs k look-ups; and what `note_over` costs, of one that ran in this superstep or a later one or
/// that is given none, and of all that come after such a one; but one that has no note yet always costs a copy of its
/// runs.
pub(crate) fn note_in_log(
    alloc: Global,
    overlay: &mut Overlay,
    log: Log,
    superstep: u32,
    given: &[(VertexId, Option<u32>)],
) -> Result<Log, Memory>
    requires rise { ChangesRise given.now }
    requires sound { AreSound overlay.old.items }
    requires steps { StepsRise (with_changes (all_of overlay.old.items) log) }
    ensures sound { OnOk result (AreSound overlay.new.items) }
    ensures noted { IfOk result (λ after. IsNoted superstep given.now
        (with_changes (all_of overlay.old.items) log) (with_changes (all_of overlay.new.items) after)) }
    ensures rising { IfOk result (λ after. HasRisingIds after) }
{
    let Log {
        mut last,
        mut earlier,
    } = log;
    let mut near = 0;
    for (id, given) in given {
        note_one(
            alloc,
            overlay,
            &mut last,
            &mut earlier,
            &mut near,
            *id,
            superstep,
            *given,
        )?;
    }
    Ok(Log { last, earlier })
}

/// Notes of a vertex at which place a superstep has its record, if it has one, in a log or over it.
fn note_one(
    alloc: Global,
    overlay: &mut Overlay,
    last: &mut Last,
    earlier: &mut Vec<LogEntry>,
    near: &mut usize,
    id: VertexId,
    superstep: u32,
    given: Option<u32>,
) -> Result<(), Memory>
    requires log { AreSound last.old.items }
    requires within { AreWithin earlier.old.items (all_of last.old.items) }
    requires sound { AreSound overlay.old.items }
    requires steps { IsNonDecreasingBy (λ t. t) (steps_in (value_at id
        (with_changes (all_of overlay.old.items) (chains earlier.old.items (all_of last.old.items))))) }
    ensures log { OnOk result (AreSound last.new.items) }
    ensures within { OnOk result (AreWithin earlier.new.items (all_of last.new.items)) }
    ensures sound { OnOk result (AreSound overlay.new.items) }
    ensures noted { OnOk result (IsNotedOf id superstep (is_some given)
        (with_changes (all_of overlay.old.items) (chains earlier.old.items (all_of last.old.items)))
        (with_changes (all_of overlay.new.items) (chains earlier.new.items (all_of last.new.items)))) }
{
    if add_in_log(alloc, overlay, last, earlier, near, id, superstep, given)? {
        return Ok(());
    }
    let cursor = LogCursor::of(last.as_slice(), earlier.as_slice());
    let mut base = BaseCursor::by_log(cursor);
    note_of(alloc, overlay, &mut 0, &mut base, id, superstep, given)
}

/// Adds a run of a vertex to the log where that says what a note would: where nothing is noted over the log, and the
/// runs that the vertex has are below it. Else nothing changes, and it says so.
fn add_in_log(
    alloc: Global,
    overlay: &Overlay,
    last: &mut Last,
    earlier: &mut Vec<LogEntry>,
    near: &mut usize,
    id: VertexId,
    superstep: u32,
    given: Option<u32>,
) -> Result<bool, Memory>
    requires log { AreSound last.old.items }
    requires within { AreWithin earlier.old.items (all_of last.old.items) }
    requires steps { IsNonDecreasingBy (λ t. t) (steps_in (value_at id
        (with_changes (all_of overlay.now.items) (chains earlier.old.items (all_of last.old.items))))) }
    ensures log { OnOk result (AreSound last.new.items) }
    ensures within { OnOk result (AreWithin earlier.new.items (all_of last.new.items)) }
    ensures noted { IfOk result (λ added. IsTrue added → IsNotedOf id superstep (is_some given)
        (with_changes (all_of overlay.now.items) (chains earlier.old.items (all_of last.old.items)))
        (with_changes (all_of overlay.now.items) (chains earlier.new.items (all_of last.new.items)))) }
    ensures same { IfOk result (λ added. added ≡ false
        → chains earlier.new.items (all_of last.new.items) ≡ chains earlier.old.items (all_of last.old.items)) }
{
    if !overlay.is_empty() {
        return Ok(false);
    }
    match given {
        Some(place) => add_run(
            alloc,
            last,
            earlier,
            near,
            id,
            Occurrence { superstep, place },
        ),
        None => Ok(false),
    }
}

/// Notes of a vertex at which place a superstep has its record, if it has one. None is made where the
/// vertex lies in a map and the note would say nothing new.
fn note_of(
    alloc: Global,
    overlay: &mut Overlay,
    near: &mut usize,
    base: &mut BaseCursor<'_>,
    id: VertexId,
    superstep: u32,
    given: Option<u32>,
) -> Result<(), Memory>
    requires rising { HasRisingIds base.old }
    requires sound { AreSound overlay.old.items }
    requires steps { IsNonDecreasingBy (λ t. t)
        (steps_in (value_at id (with_changes (all_of overlay.old.items) base.old))) }
    ensures sound { OnOk result (AreSound overlay.new.items) }
    ensures noted { OnOk result (IsNotedOf id superstep (is_some given)
        (with_changes (all_of overlay.old.items) base.old) (with_changes (all_of overlay.new.items) base.old)) }
    ensures same { base.new ≡ base.old }
{
    if let Some((chunk, place)) = found(overlay.as_slice(), near, id) {
        let steps = &mut overlay[chunk].entries[place].1;
        note_again(alloc, steps, superstep, given)?;
        return Ok(());
    }
    let before = base.get(id);
    if given.is_some() && has_run_once(&before, superstep) {
        return Ok(());
    }
    let steps = after(alloc, superstep, given, before)?;
    put(alloc, overlay, *near, id, steps)?;
    Ok(())
}

/// Changes the note of a vertex by at which place a superstep has its record, if it has one. It costs what `add_last`
/// does where the runs are below the superstep, two binary searches where one of them is in it and it has a record, and
/// else a copy of them too.
fn note_again(
    alloc: Global,
    steps: &mut Option<Steps>,
    superstep: u32,
    given: Option<u32>,
) -> Result<(), Memory>
    requires { IsNonDecreasingBy (λ t. t) (steps_in steps.old) }
    ensures { OnOk result (steps_in steps.new ≡ with_ran superstep (is_some given) (steps_in steps.old)) }
{
    if let Some(place) = given {
        if add_last(alloc, steps, superstep, place)? || have_once(runs_in(steps), superstep) {
            return Ok(());
        }
    }
    let changed = after_runs(alloc, superstep, given, runs_in(steps))?;
    *steps = changed;
    Ok(())
}

/// Adds a run to those of a vertex, where it has some and all are below it. Else nothing changes, and it says so.
fn add_last(
    alloc: Global,
    steps: &mut Option<Steps>,
    superstep: u32,
    place: u32,
) -> Result<bool, Memory>
    requires { IsNonDecreasingBy (λ t. t) (steps_in steps.old) }
    ensures added { IfOk result (λ added.
        IsTrue added → steps_in steps.new ≡ with_ran superstep true (steps_in steps.old)) }
    ensures same { IfOk result (λ added. added ≡ false → steps.new ≡ steps.old) }
{
    match steps {
        Some(ran) => {
            if !ran.are_below(superstep) {
                return Ok(false);
            }
            ran.push(alloc, superstep, place)?;
            Ok(true)
        }
        None => Ok(false),
    }
}

/// Copies of notes, by rising id.
pub(crate) fn copied(
    alloc: Global,
    overlay: &[Chunk<Option<Steps>>],
) -> Result<Vec<(VertexId, Option<Steps>)>, Memory>
    ensures { IfOk result (λ copies. copies.items ≡ all_of overlay.now) }
{
    let mut copies = Vec::with_capacity(alloc, count(overlay))?;
    for chunk in overlay {
        copy_of(alloc, &mut copies, chunk.entries.as_slice())?;
    }
    Ok(copies)
}

/// How many notes there are: for how many to make room, so no contract tells it.
pub(crate) fn count<X>(overlay: &[Chunk<X>]) -> usize {
    let mut count: usize = 0;
    for chunk in overlay {
        count = count.saturating_add(chunk.entries.len());
    }
    count
}

/// Adds copies of notes.
fn copy_of(
    alloc: Global,
    copies: &mut Vec<(VertexId, Option<Steps>)>,
    overlay: &[(VertexId, Option<Steps>)],
) -> Result<(), Memory>
    ensures { OnOk result (copies.new.items ≡ copies.old.items ++ overlay.now) }
{
    for (id, steps) in overlay {
        copies.push((*id, shared_if_any(alloc, steps)?))?;
    }
    Ok(())
}

/// A copy of steps that shares their memory, if there are any.
fn shared_if_any(alloc: Global, steps: &Option<Steps>) -> Result<Option<Steps>, Memory>
    ensures { IfOk result (λ copy. copy ≡ steps.now) }
{
    match steps {
        Some(steps) => Ok(Some(steps.cheap_clone(alloc)?)),
        None => Ok(None),
    }
}

/// The notes, by rising id.
pub(crate) fn overlay_entries(
    alloc: Global,
    overlay: Overlay,
) -> Result<Vec<(VertexId, Option<Steps>)>, Memory>
    ensures { IfOk result (λ list. list.items ≡ all_of overlay.items) }
{
    let mut list = Vec::with_capacity(alloc, count(overlay.as_slice()))?;
    for chunk in overlay {
        let mut entries = chunk.entries;
        list.append(&mut entries)?;
    }
    Ok(list)
}
