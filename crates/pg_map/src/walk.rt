//! Walks over a map by rising id.
ghost use Rattle.std.specs.Prelude.{◌≡◌, [], ◌++◌, length};
ghost use Rattle.std.specs.Iterator.{at_most};
ghost use Rattle.std.specs.Map.Iter.{TakesFirst, deref, deref_pair};
ghost use Rattle.pg_map.specs.Chunks.{AreChunks, AreGroups, all_of, entries_of};
ghost use Rattle.pg_map.specs.Entries.{HasRisingIds, entries_from};

use crate::VertexId;
use crate::find::begun;
use crate::part::{Chunk, Group, is_below};
use std::marker::Model;

/// The entries of a map that remain on a walk. A contract sees the list of them.
#[derive(Drop)]
pub struct Iter<'a, V> {
    pub(crate) entries: &'a [(VertexId, V)],
    pub(crate) chunks: &'a [Chunk<V>],
    pub(crate) groups: &'a [Group<V>],
}

impl<'a, V> Model for Iter<'a, V> {
    ghost use Rattle.std.specs.Prelude.{ℕ, List, ◌++◌};

    ghost Value = { List (ℕ × V) };

    ghost use Rattle.pg_map.specs.Chunks.{AreChunks, AreGroups, all_of, entries_of};

    ghost view = { λ it. it.entries.now ++ (entries_of it.chunks.now ++ all_of it.groups.now) };

    ghost invariant = { λ it. AreChunks it.chunks.now × AreGroups it.groups.now };
}

impl<'a, V> Iterator for Iter<'a, V> {
    type Item = (&'a VertexId, &'a V);

    ghost next_gives = { TakesFirst deref_pair };

    ghost remaining = { λ s. at_most (length s) };

    fn next(&mut self) -> Option<(&'a VertexId, &'a V)> {
        if self.entries.is_empty() {
            let (chunks, groups) = opened(self.chunks, self.groups);
            let (chunk, later) = chunks.split_first()?;
            self.entries = chunk.items.as_slice();
            self.chunks = later;
            self.groups = groups;
        }
        let (entry, later) = self.entries.split_first()?;
        self.entries = later;
        Some((&entry.0, &entry.1))
    }
}

/// These chunks and groups, or where there are no chunks, those of the first group and the later groups.
fn opened<'a, V>(chunks: &'a [Chunk<V>], groups: &'a [Group<V>]) -> (&'a [Chunk<V>], &'a [Group<V>])
    requires chunks { AreChunks chunks.now }
    requires groups { AreGroups groups.now }
    ensures entries { entries_of result.0.now ++ all_of result.1.now ≡ entries_of chunks.now ++ all_of groups.now }
    ensures chunks { AreChunks result.0.now }
    ensures groups { AreGroups result.1.now }
    ensures none { result.0.now ≡ [] → result.1.now ≡ [] }
{
    if chunks.is_empty() {
        if let Some((group, later)) = groups.split_first() {
            return (group.items.as_slice(), later);
        }
    }
    (chunks, groups)
}

/// The entries of these chunks from an id on: what remains of one chunk, and the chunks after it.
pub(crate) fn chunks_from<V>(chunks: &[Chunk<V>], id: VertexId) -> (&[(VertexId, V)], &[Chunk<V>])
    requires chunks { AreChunks chunks.now }
    requires rise { HasRisingIds (entries_of chunks.now) }
    ensures entries { result.0.now ++ entries_of result.1.now ≡ entries_from id (entries_of chunks.now) }
    ensures chunks { AreChunks result.1.now }
{
    let after = begun(chunks, 0, id);
    if after == 0 {
        return (&[], chunks);
    }
    let entries = chunks[after - 1].items.as_slice();
    let place = entries.partition_point(|entry| is_below(entry.0, id));
    let (_, entries) = entries.split_at(place);
    let (_, chunks) = chunks.split_at(after);
    (entries, chunks)
}

/// The ids of a map that remain on a walk. A contract sees the list of them.
#[derive(Drop)]
pub struct Ids<'a, V> {
    pub(crate) entries: Iter<'a, V>,
}

impl<'a, V> Model for Ids<'a, V> {
    ghost use Rattle.std.specs.Prelude.{ℕ, List};
    ghost use Rattle.std.specs.Map.{keys_of};

    ghost Value = { List ℕ };

    ghost view = { λ it. keys_of it.entries };
}

impl<'a, V> Iterator for Ids<'a, V> {
    type Item = &'a VertexId;

    ghost next_gives = { TakesFirst deref };

    ghost remaining = { λ s. at_most (length s) };

    fn next(&mut self) -> Option<&'a VertexId> {
        let (id, _) = self.entries.next()?;
        Some(id)
    }
}
