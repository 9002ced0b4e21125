//! New groups, made of old ones and changes.
ghost use Rattle.std.specs.Prelude.{◌≡◌, ◌++◌, ◌≤◌, length, take, drop, IfOk, OnOk};
ghost use Rattle.pg_map.specs.Chunks.{AreChunks, AreCut, AreGroups, IsPart, all_of, chunks_in, entries_of, grouped};
ghost use Rattle.pg_map.specs.Chunks.{listed};
ghost use Rattle.pg_map.specs.Entries.{ChangesRise, HasRisingIds, with_changes};

use crate::gather::Gathering;
use crate::part::{Chunk, Group, Node, is_below};
use crate::{CheapClone, Memory, VertexId};
use std::alloc::Global;

impl<V: CheapClone> Gathering<V> {
    /// Adds entries with changes of them.
    pub(crate) fn merge(
        &mut self,
        alloc: Global,
        changes: &[(VertexId, Option<V>)],
        entries: &[(VertexId, V)],
    ) -> Result<(), Memory>
        requires changes_rise { ChangesRise changes.now }
        requires entries_rise { HasRisingIds entries.now }
        ensures { OnOk result (self.new ≡ self.old ++ with_changes changes.now entries.now) }
    {
        let (mut todo, mut remaining) = (changes, entries);
        while let Some((change, later)) = todo.split_first() {
            match remaining.split_first() {
                Some((entry, others)) if entry.0 < change.0 => {
                    self.push(alloc, entry.0, entry.1.cheap_clone(alloc)?)?;
                    remaining = others;
                }
                Some((entry, others)) if entry.0 == change.0 => remaining = others,
                _ => {
                    if let Some(value) = &change.1 {
                        self.push(alloc, change.0, value.cheap_clone(alloc)?)?;
                    }
                    todo = later;
                }
            }
        }
        self.extend(alloc, remaining)
    }

    /// Adds a chunk with changes of it, as a chunk where that is large enough. One with none stays in its
    /// own memory.
    fn merge_chunk(
        &mut self,
        alloc: Global,
        changes: &[(VertexId, Option<V>)],
        chunk: &Chunk<V>,
    ) -> Result<(), Memory>
        requires changes_rise { ChangesRise changes.now }
        requires entries_rise { HasRisingIds (listed chunk.now) }
        requires part { IsPart chunk.now.first chunk.now.count (listed chunk.now) }
        ensures { OnOk result (self.new ≡ self.old ++ with_changes changes.now (listed chunk.now)) }
    {
        if changes.is_empty() {
            return self.add_chunk(alloc, chunk);
        }
        let entries = chunk.items.as_slice();
        self.make_room(entries.len().saturating_add(changes.len()))?;
        self.merge(alloc, changes, entries)?;
        self.end_chunk(alloc)
    }

    /// Adds chunks with changes of them.
    fn merge_chunks(
        &mut self,
        alloc: Global,
        changes: &[(VertexId, Option<V>)],
        chunks: &[Chunk<V>],
    ) -> Result<(), Memory>
        requires changes_rise { ChangesRise changes.now }
        requires entries_rise { HasRisingIds (entries_of chunks.now) }
        requires chunks { AreChunks chunks.now }
        ensures { OnOk result (self.new ≡ self.old ++ with_changes changes.now (entries_of chunks.now)) }
    {
        let (mut todo, mut remaining) = (changes, chunks);
        while let Some((chunk, others)) = remaining.split_first() {
            let (here, later) = todo.split_at(cut_of(todo, others));
            self.merge_chunk(alloc, here, chunk)?;
            todo = later;
            remaining = others;
        }
        let none = Vec::new(alloc);
        self.merge(alloc, todo, none.as_slice())
    }

    /// Adds a group with changes of it. One with none stays in its own memory.
    fn merge_group(
        &mut self,
        alloc: Global,
        changes: &[(VertexId, Option<V>)],
        group: &Group<V>,
    ) -> Result<(), Memory>
        requires changes_rise { ChangesRise changes.now }
        requires entries_rise { HasRisingIds (grouped group.now) }
        requires part { IsPart group.now.first group.now.count (grouped group.now) }
        requires chunks { AreChunks (chunks_in group.now) }
        ensures { OnOk result (self.new ≡ self.old ++ with_changes changes.now (grouped group.now)) }
    {
        if changes.is_empty() {
            return self.add_group(alloc, group);
        }
        self.merge_chunks(alloc, changes, group.items.as_slice())
    }
}

/// The groups with all changes.
pub(crate) fn changed<V: CheapClone>(
    alloc: Global,
    groups: &[Group<V>],
    changes: &[(VertexId, Option<V>)],
) -> Result<Vec<Group<V>>, Memory>
    requires rise { HasRisingIds (all_of groups.now) }
    requires groups { AreGroups groups.now }
    requires changes_rise { ChangesRise changes.now }
    ensures entries { IfOk result (λ made. all_of made.items ≡ with_changes changes.now (all_of groups.now)) }
    ensures groups { IfOk result (λ made. AreGroups made.items) }
{
    let mut gathering = Gathering::new(alloc);
    let (mut todo, mut remaining) = (changes, groups);
    while let Some((group, others)) = remaining.split_first() {
        let (here, later) = todo.split_at(cut_of(todo, others));
        gathering.merge_group(alloc, here, group)?;
        todo = later;
        remaining = others;
    }
    let none = Vec::new(alloc);
    gathering.merge(alloc, todo, none.as_slice())?;
    gathering.finish(alloc)
}

/// How many of the changes fall before these parts.
pub(crate) fn cut_of<T, V>(changes: &[(VertexId, Option<V>)], parts: &[Node<T>]) -> usize
    requires { ChangesRise changes.now }
    ensures bound { result ≤ length changes.now }
    ensures cut { AreCut parts.now (take result changes.now) (drop result changes.now) }
{
    match parts.split_first() {
        Some((next, _)) => changes.partition_point(|change| is_below(change.0, next.first)),
        None => changes.len(),
    }
}
