//! Changes made in the memory that a map has.
ghost use Rattle.std.specs.List.Sorted.{IsNonDecreasingBy};
ghost use Rattle.std.specs.Prelude.{◌≡◌, ◌+◌, ◌≤◌, length, true, is_some, IfSome, IfNone, IsTrue};
ghost use Rattle.std.specs.BTreeMap.{insert_entry};
ghost use Rattle.std.specs.Ordering.{nat_cmp};
ghost use Rattle.pg_map.specs.Chunks.{AreChunks, AreGroups, ArePast, AreThere, IsPart, all_of, entries_of, groups_of};
ghost use Rattle.pg_map.specs.Chunks.{listed};
ghost use Rattle.pg_map.specs.Entries.{ChangesRise, HasRisingIds, value_at, with_changes};

use crate::find::{begun, count_below, value_near};
use crate::gather::Gathering;
use crate::group_list::GroupList;
use crate::merge::cut_of;
use crate::part::{Chunk, Group, Node, counted};
use crate::{CheapClone, VertexId};
use std::alloc::Global;
use std::sync::Arc;

/// So many calls at most wait for each other, each of which takes some 400 bytes of the stack.
const DEPTH: usize = 4096;

/// How many entries there are up to the end of a group, and up to the end of the last one.
#[derive(Drop)]
struct Counts {
    group: usize,
    all: usize,
}

/// Makes all changes in the groups' own memory and says how many entries there are then, or makes none, where a copy
/// shares what would change, a chunk would be cut or end up small, there are too many parts, or memory is refused.
///
/// Each call holds one group or chunk and has what follows it changed first: so all that could be in the way has shown
/// before the first change is made. Parts into which no change falls are passed over, so that the depth goes by the
/// parts that change, however large the map is.
pub(crate) fn change_in_place<V: CheapClone>(
    alloc: Global,
    group_list: &mut GroupList<V>,
    changes: &mut [(VertexId, Option<V>)],
) -> Option<usize>
    requires groups { AreGroups (groups_of group_list.old) }
    requires rise { HasRisingIds (all_of (groups_of group_list.old)) }
    requires changes_rise { ChangesRise changes.old }
    ensures groups { AreGroups (groups_of group_list.new) }
    ensures made { IfSome result
        (λ n. all_of (groups_of group_list.new) ≡ with_changes changes.old (all_of (groups_of group_list.old))) }
    ensures counted { IfSome result (λ n. n ≡ length (all_of (groups_of group_list.new))) }
    ensures none { IfNone result (all_of (groups_of group_list.new) ≡ all_of (groups_of group_list.old)) }
    ensures remaining { IfNone result (changes.new ≡ changes.old) }
{
    let Some(shared) = &mut group_list.shared else {
        return None;
    };
    let groups = Arc::get_mut(shared)?;
    if most_calls(groups, changes.len()) > DEPTH {
        return None;
    }
    change_groups(alloc, groups, changes, 0, DEPTH)
}

/// How many calls may wait for each other while so many changes are made: for each chunk into which one falls, and two
/// for each group. A hint, so no contract tells it.
fn most_calls<V>(groups: &[Group<V>], changes: usize) -> usize {
    let mut chunks = 0usize;
    for group in groups {
        chunks = chunks.saturating_add(group.items.len());
    }
    let calls = groups.len().min(changes).saturating_mul(2);
    calls.saturating_add(chunks.min(changes)).saturating_add(1)
}

/// Makes all changes of these groups or none, and says how many entries there are then up to the end of the last, where
/// so many stand before the first. The groups into which no change falls are passed over.
#[cycle(in_place)]
fn change_groups<V: CheapClone>(
    alloc: Global,
    groups: &mut [Group<V>],
    changes: &mut [(VertexId, Option<V>)],
    before: usize,
    depth: usize,
) -> Option<usize>
    requires groups { AreGroups groups.old }
    requires rise { HasRisingIds (all_of groups.old) }
    requires changes_rise { ChangesRise changes.old }
    ensures groups { AreGroups groups.new }
    ensures made { IfSome result (λ n. all_of groups.new ≡ with_changes changes.old (all_of groups.old)) }
    ensures counted { IfSome result (λ n. n ≡ before + length (all_of groups.new)) }
    ensures none { IfNone result (all_of groups.new ≡ all_of groups.old) }
    ensures remaining { IfNone result (changes.new ≡ changes.old) }
{
    let passed = untouched(groups, changes);
    let (front, _) = groups.split_at(passed);
    let Ok(entries) = counted(front) else {
        return None;
    };
    let before = before.checked_add(entries)?;
    let (_, others) = groups.split_at_mut(passed);
    let all = change_first_group(alloc, others, changes, before, depth)?;
    Some(all)
}

/// Makes all changes of these groups or none, as `change_groups` does, where one may fall into the first group.
#[cycle(in_place)]
fn change_first_group<V: CheapClone>(
    alloc: Global,
    groups: &mut [Group<V>],
    changes: &mut [(VertexId, Option<V>)],
    before: usize,
    depth: usize,
) -> Option<usize>
    requires groups { AreGroups groups.old }
    requires rise { HasRisingIds (all_of groups.old) }
    requires changes_rise { ChangesRise changes.old }
    ensures groups { AreGroups groups.new }
    ensures made { IfSome result (λ n. all_of groups.new ≡ with_changes changes.old (all_of groups.old)) }
    ensures counted { IfSome result (λ n. n ≡ before + length (all_of groups.new)) }
    ensures none { IfNone result (all_of groups.new ≡ all_of groups.old) }
    ensures remaining { IfNone result (changes.new ≡ changes.old) }
{
    let depth = depth.checked_sub(1)?;
    let Some((group, others)) = groups.split_first_mut() else {
        if !changes.is_empty() {
            return None;
        }
        return Some(before);
    };
    let (here, later) = changes.split_at_mut(cut_of(changes, others));
    if here.is_empty() {
        let before = before.checked_add(group.count)?;
        let all = change_groups(alloc, others, later, before, depth)?;
        return Some(all);
    }
    let chunks = Arc::get_mut(&mut group.items)?;
    let counts = change_chunks(alloc, chunks, here, others, later, before, depth)?;
    group.first = chunks[0].first;
    group.count = counts.group - before;
    Some(counts.all)
}

/// Makes all changes of these chunks, which end a group, and of the groups behind it, or none. The chunks into which no
/// change falls are passed over.
#[cycle(in_place)]
fn change_chunks<V: CheapClone>(
    alloc: Global,
    chunks: &mut [Chunk<V>],
    here: &mut [(VertexId, Option<V>)],
    groups: &mut [Group<V>],
    later: &mut [(VertexId, Option<V>)],
    before: usize,
    depth: usize,
) -> Option<Counts>
    requires chunks { AreChunks chunks.old }
    requires chunks_rise { HasRisingIds (entries_of chunks.old) }
    requires here_rise { ChangesRise here.old }
    requires groups { AreGroups groups.old }
    requires groups_rise { HasRisingIds (all_of groups.old) }
    requires later_rise { ChangesRise later.old }
    ensures chunks { AreChunks chunks.new }
    ensures groups { AreGroups groups.new }
    ensures here { IfSome result (λ counts. entries_of chunks.new ≡ with_changes here.old (entries_of chunks.old)) }
    ensures later { IfSome result (λ counts. all_of groups.new ≡ with_changes later.old (all_of groups.old)) }
    ensures group { IfSome result (λ counts. counts.group ≡ before + length (entries_of chunks.new)) }
    ensures all { IfSome result
        (λ counts. counts.all ≡ before + length (entries_of chunks.new) + length (all_of groups.new)) }
    ensures no_chunks { IfNone result (entries_of chunks.new ≡ entries_of chunks.old) }
    ensures no_groups { IfNone result (all_of groups.new ≡ all_of groups.old) }
    ensures here_left { IfNone result (here.new ≡ here.old) }
    ensures later_left { IfNone result (later.new ≡ later.old) }
{
    let passed = untouched(chunks, here);
    let (front, _) = chunks.split_at(passed);
    let Ok(entries) = counted(front) else {
        return None;
    };
    let before = before.checked_add(entries)?;
    let (_, others) = chunks.split_at_mut(passed);
    let counts = change_first_chunk(alloc, others, here, groups, later, before, depth)?;
    Some(counts)
}

/// Makes all changes of these chunks and of the groups behind them or none, as `change_chunks` does, where one may fall
/// into the first chunk.
#[cycle(in_place)]
fn change_first_chunk<V: CheapClone>(
    alloc: Global,
    chunks: &mut [Chunk<V>],
    here: &mut [(VertexId, Option<V>)],
    groups: &mut [Group<V>],
    later: &mut [(VertexId, Option<V>)],
    before: usize,
    depth: usize,
) -> Option<Counts>
    requires chunks { AreChunks chunks.old }
    requires chunks_rise { HasRisingIds (entries_of chunks.old) }
    requires here_rise { ChangesRise here.old }
    requires groups { AreGroups groups.old }
    requires groups_rise { HasRisingIds (all_of groups.old) }
    requires later_rise { ChangesRise later.old }
    ensures chunks { AreChunks chunks.new }
    ensures groups { AreGroups groups.new }
    ensures here { IfSome result (λ counts. entries_of chunks.new ≡ with_changes here.old (entries_of chunks.old)) }
    ensures later { IfSome result (λ counts. all_of groups.new ≡ with_changes later.old (all_of groups.old)) }
    ensures group { IfSome result (λ counts. counts.group ≡ before + length (entries_of chunks.new)) }
    ensures all { IfSome result
        (λ counts. counts.all ≡ before + length (entries_of chunks.new) + length (all_of groups.new)) }
    ensures no_chunks { IfNone result (entries_of chunks.new ≡ entries_of chunks.old) }
    ensures no_groups { IfNone result (all_of groups.new ≡ all_of groups.old) }
    ensures here_left { IfNone result (here.new ≡ here.old) }
    ensures later_left { IfNone result (later.new ≡ later.old) }
{
    let depth = depth.checked_sub(1)?;
    let Some((chunk, others)) = chunks.split_first_mut() else {
        if !here.is_empty() {
            return None;
        }
        let all = change_groups(alloc, groups, later, before, depth)?;
        return Some(Counts { group: before, all });
    };
    let (now, after) = here.split_at_mut(cut_of(here, others));
    if now.is_empty() {
        let before = before.checked_add(chunk.count)?;
        let counts = change_chunks(alloc, others, after, groups, later, before, depth)?;
        return Some(counts);
    }
    if are_there(chunk.items.as_slice(), now) {
        let before = before.checked_add(chunk.count)?;
        let entries = Arc::get_mut(&mut chunk.items)?;
        let counts = change_chunks(alloc, others, after, groups, later, before, depth)?;
        put_values(entries, now);
        return Some(counts);
    }
    let made = merged(alloc, now, chunk)?;
    let before = before.checked_add(made.count)?;
    let counts = change_chunks(alloc, others, after, groups, later, before, depth)?;
    *chunk = made;
    Some(counts)
}

/// How many of these parts stand before the first into which a change falls: all, if there is no change.
fn untouched<T, V>(parts: &[Node<T>], changes: &[(VertexId, Option<V>)]) -> usize
    requires { IsNonDecreasingBy (λ part. part.first) parts.now }
    ensures bound { result ≤ length parts.now }
    ensures past { ArePast result parts.now changes.now }
{
    match changes.split_first() {
        Some((change, _)) => begun(parts, 0, change.0).saturating_sub(1),
        None => parts.len(),
    }
}

/// Whether all changes give values to ids that are there.
fn are_there<V>(entries: &[(VertexId, V)], changes: &[(VertexId, Option<V>)]) -> bool
    requires { HasRisingIds entries.now }
    ensures { IsTrue result → AreThere changes.now entries.now }
{
    let mut below = 0;
    for (id, value) in changes {
        if value.is_none() || value_near(entries, &mut below, *id).is_none() {
            return false;
        }
    }
    true
}

/// Puts each value in the place of the one at its id.
fn put_values<V: Drop>(entries: &mut [(VertexId, V)], changes: &mut [(VertexId, Option<V>)])
    requires rise { HasRisingIds entries.old }
    requires there { AreThere changes.old entries.old }
    ensures { entries.new ≡ with_changes changes.old entries.old }
{
    let mut below = 0;
    for (id, value) in changes {
        if let Some(value) = value.take() {
            put_value(entries, &mut below, *id, value);
        }
    }
}

/// Puts a value in the place of the one at its id.
fn put_value<V: Drop>(entries: &mut [(VertexId, V)], below: &mut usize, id: VertexId, value: V)
    requires rise { HasRisingIds entries.old }
    requires there { is_some (value_at id entries.old) ≡ true }
    ensures { entries.new ≡ insert_entry nat_cmp entries.old id value }
{
    let place = count_below(entries, *below, id);
    *below = place;
    if place < entries.len() {
        entries[place].1 = value;
    }
}

/// A chunk with these changes made, as a new chunk, or `None` if it would be cut or end up small.
fn merged<V: CheapClone>(
    alloc: Global,
    changes: &[(VertexId, Option<V>)],
    chunk: &Chunk<V>,
) -> Option<Chunk<V>>
    requires rise { HasRisingIds (listed chunk.now) }
    requires changes_rise { ChangesRise changes.now }
    ensures entries { IfSome result (λ made. listed made ≡ with_changes changes.now (listed chunk.now)) }
    ensures part { IfSome result (λ made. IsPart made.first made.count (listed made)) }
{
    let entries = chunk.items.as_slice();
    // A full chunk is mostly cut, and so is one that very many changes fall into.
    if entries.len() / 2 >= V::CHUNK || changes.len() / 2 >= V::CHUNK {
        return None;
    }
    let mut gathering = Gathering::new(alloc);
    gathering
        .make_room(entries.len().saturating_add(changes.len()))
        .ok()?;
    gathering.merge(alloc, changes, entries).ok()?;
    gathering.into_chunk(alloc)
}
