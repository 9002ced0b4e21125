//! The parts of a map: chunks of entries, and groups of chunks.
ghost use Rattle.std.specs.Prelude.{◌≡◌, ◌<◌, nat_le, nat_lt, length, sum_by, IfOk};
ghost use Rattle.std.specs.Arc.{arc_value};
ghost use Rattle.pg_map.specs.Chunks.{AreChunks, IsPart, chunks_in, entries_of, grouped, listed};

use crate::{Memory, VertexId};
use std::alloc::{AllocError, Global};
use std::sync::Arc;

/// Some entries of a map, at least one, in what copies share. A part knows its first id and how many
/// entries it has, so a search or a count among parts reads one vector.
#[derive(Drop)]
pub(crate) struct Node<T> {
    pub(crate) first: VertexId,
    pub(crate) count: usize,
    pub(crate) items: Arc<Vec<T>>,
}

/// Entries that lie side by side.
pub(crate) type Chunk<V> = Node<(VertexId, V)>;

/// Chunks one after another.
pub(crate) type Group<V> = Node<Chunk<V>>;

impl<T> Node<T> {
    /// A copy of the part, which shares its memory.
    pub(crate) fn cheap_clone(&self) -> Result<Node<T>, Memory>
        ensures first { IfOk result (λ part. part.first ≡ self.now.first) }
        ensures count { IfOk result (λ part. part.count ≡ self.now.count) }
        ensures items { IfOk result (λ part. arc_value part.items ≡ arc_value self.now.items) }
    {
        let items = Arc::try_clone(&self.items)?;
        Ok(Node {
            first: self.first,
            count: self.count,
            items,
        })
    }
}

/// A chunk of these entries.
pub(crate) fn chunk_of<V: Drop>(
    alloc: Global,
    entries: Vec<(VertexId, V)>,
) -> Result<Chunk<V>, Memory>
    requires { 0 < length entries.items }
    ensures entries { IfOk result (λ chunk. listed chunk ≡ entries.items) }
    ensures part { IfOk result (λ chunk. IsPart chunk.first chunk.count entries.items) }
{
    let first = entries[0].0;
    let count = entries.len();
    let items = Arc::new(alloc, entries)?;
    Ok(Node {
        first,
        count,
        items,
    })
}

/// A group of these chunks.
pub(crate) fn group_of<V: Drop>(alloc: Global, chunks: Vec<Chunk<V>>) -> Result<Group<V>, Memory>
    requires some { 0 < length chunks.items }
    requires chunks { AreChunks chunks.items }
    ensures entries { IfOk result (λ group. grouped group ≡ entries_of chunks.items) }
    ensures chunks { IfOk result (λ group. AreChunks (chunks_in group)) }
    ensures part { IfOk result (λ group. IsPart group.first group.count (entries_of chunks.items)) }
{
    let first = chunks[0].first;
    let count = counted(chunks.as_slice())?;
    let items = Arc::new(alloc, chunks)?;
    Ok(Node {
        first,
        count,
        items,
    })
}

/// Whether an id is below another.
pub fn is_below(id: VertexId, other: VertexId) -> bool
    ensures { result ≡ nat_lt id other }
{
    id < other
}

/// Whether an id is below another, or is it.
pub fn is_at_most(id: VertexId, other: VertexId) -> bool
    ensures { result ≡ nat_le id other }
{
    id <= other
}

/// How many entries these parts have.
pub(crate) fn counted<T>(parts: &[Node<T>]) -> Result<usize, Memory>
    ensures { IfOk result (λ n. n ≡ sum_by (λ part. part.count) parts.now) }
{
    let mut total: usize = 0;
    for part in parts {
        total = total.checked_add(part.count).ok_or(AllocError)?;
    }
    Ok(total)
}
