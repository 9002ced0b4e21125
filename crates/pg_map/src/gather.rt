//! Entries gathered into chunks, one after another.
ghost use Rattle.std.specs.Prelude.{◌≡◌, [], ◌∷◌, ◌++◌, ◌+◌, ◌≤◌, length, IfOk, IfSome, OnOk};
ghost use Rattle.pg_map.specs.Chunks.{AreChunks, AreGroups, IsPart, all_of, chunks_in, entries_of, grouped, listed};

use crate::group::{FEW, Grouping};
use crate::list::parted;
use crate::part::{Chunk, Group, chunk_of};
use crate::{CheapClone, Memory, VertexId};
use std::alloc::Global;
use std::marker::Model;
use std::mem;

/// Chunks in groups, and a piece that becomes the next chunk. A contract sees all entries so far.
///
/// A piece with twice as many entries as `CheapClone::CHUNK` has so many cut off; one with less than a quarter as many
/// takes in the next chunk, so that removals leave no tiny ones behind.
#[derive(Drop)]
pub(crate) struct Gathering<V> {
    made: Grouping<V>,
    piece: Vec<(VertexId, V)>,
}

impl<V> Model for Gathering<V> {
    ghost use Rattle.std.specs.Prelude.{ℕ, List, ◌++◌};

    ghost Value = { List (ℕ × V) };

    ghost view = { λ g. g.made ++ g.piece.items };
}

impl<V: CheapClone> Gathering<V> {
    /// No entries.
    pub(crate) fn new(alloc: Global) -> Gathering<V>
        ensures { result ≡ [] }
    {
        Gathering {
            made: Grouping::new(alloc),
            piece: Vec::new(alloc),
        }
    }

    /// Adds one entry.
    pub(crate) fn push(&mut self, alloc: Global, id: VertexId, value: V) -> Result<(), Memory>
        ensures { OnOk result (self.new ≡ self.old ++ (id, value) ∷ []) }
    {
        let chunk = V::CHUNK;
        if self.piece.len() / 2 >= chunk {
            cut_chunk(alloc, &mut self.made, &mut self.piece, chunk)?;
        }
        self.piece.push((id, value))?;
        Ok(())
    }

    /// Makes room for so many entries more.
    pub(crate) fn make_room(&mut self, entries: usize) -> Result<(), Memory>
        ensures { OnOk result (self.new ≡ self.old) }
    {
        self.piece.reserve(entries)?;
        Ok(())
    }

    /// Makes a chunk of the piece where it is large enough for one.
    pub(crate) fn end_chunk(&mut self, alloc: Global) -> Result<(), Memory>
        ensures { OnOk result (self.new ≡ self.old) }
    {
        let entries = self.piece.len();
        if entries < V::CHUNK {
            return Ok(());
        }
        cut_chunk(alloc, &mut self.made, &mut self.piece, entries)
    }

    /// Adds copies of these entries.
    pub(crate) fn extend(&mut self, alloc: Global, entries: &[(VertexId, V)]) -> Result<(), Memory>
        ensures { OnOk result (self.new ≡ self.old ++ entries.now) }
    {
        for (id, value) in entries {
            self.push(alloc, *id, value.cheap_clone(alloc)?)?;
        }
        Ok(())
    }

    /// Adds a chunk, in its own memory unless the piece before it is small.
    pub(crate) fn add_chunk(&mut self, alloc: Global, chunk: &Chunk<V>) -> Result<(), Memory>
        requires { IsPart chunk.now.first chunk.now.count (listed chunk.now) }
        ensures { OnOk result (self.new ≡ self.old ++ listed chunk.now) }
    {
        let entries = self.piece.len();
        if entries > 0 && self.is_small() {
            return self.extend(alloc, chunk.items.as_slice());
        }
        cut_chunk(alloc, &mut self.made, &mut self.piece, entries)?;
        self.made.push(alloc, chunk.cheap_clone()?)
    }

    /// Adds chunks.
    fn add_chunks(&mut self, alloc: Global, chunks: &[Chunk<V>]) -> Result<(), Memory>
        requires { AreChunks chunks.now }
        ensures { OnOk result (self.new ≡ self.old ++ entries_of chunks.now) }
    {
        for chunk in chunks {
            self.add_chunk(alloc, chunk)?;
        }
        Ok(())
    }

    /// Adds a group, in its own memory unless what stands in none before it is little.
    pub(crate) fn add_group(&mut self, alloc: Global, group: &Group<V>) -> Result<(), Memory>
        requires part { IsPart group.now.first group.now.count (grouped group.now) }
        requires chunks { AreChunks (chunks_in group.now) }
        ensures { OnOk result (self.new ≡ self.old ++ grouped group.now) }
    {
        if self.waits_for_more() {
            return self.add_chunks(alloc, group.items.as_slice());
        }
        let entries = self.piece.len();
        cut_chunk(alloc, &mut self.made, &mut self.piece, entries)?;
        self.made.add(alloc, group.cheap_clone()?)
    }

    /// Whether what stands in no group yet is too little for one.
    fn waits_for_more(&self) -> bool {
        let (entries, chunks) = (self.piece.len(), self.made.waiting());
        if entries == 0 {
            return chunks > 0 && chunks < FEW;
        }
        self.is_small() || chunks < FEW
    }

    /// Whether the piece is too small for a chunk of its own.
    fn is_small(&self) -> bool {
        self.piece.len() < V::CHUNK / 4
    }

    /// All entries as one chunk, if they are enough for one and none was cut off.
    pub(crate) fn into_chunk(self, alloc: Global) -> Option<Chunk<V>>
        ensures entries { IfSome result (λ chunk. listed chunk ≡ self) }
        ensures part { IfSome result (λ chunk. IsPart chunk.first chunk.count self) }
    {
        if !self.made.is_empty() || self.is_small() || self.piece.is_empty() {
            return None;
        }
        let Gathering { made: _, piece } = self;
        chunk_of(alloc, piece).ok()
    }

    /// All groups.
    pub(crate) fn finish(self, alloc: Global) -> Result<Vec<Group<V>>, Memory>
        ensures entries { IfOk result (λ groups. all_of groups.items ≡ self) }
        ensures groups { IfOk result (λ groups. AreGroups groups.items) }
    {
        let Gathering {
            mut made,
            mut piece,
        } = self;
        let entries = piece.len();
        cut_chunk(alloc, &mut made, &mut piece, entries)?;
        made.finish(alloc)
    }
}

/// Makes a chunk of the first so many entries of a piece, if any.
fn cut_chunk<V: CheapClone>(
    alloc: Global,
    made: &mut Grouping<V>,
    piece: &mut Vec<(VertexId, V)>,
    count: usize,
) -> Result<(), Memory>
    requires { count ≤ length piece.old.items }
    ensures entries { OnOk result (made.new ++ piece.new.items ≡ made.old ++ piece.old.items) }
    ensures remaining { OnOk result (length piece.new.items + count ≡ length piece.old.items) }
{
    if count == 0 {
        return Ok(());
    }
    let (front, later) = parted(alloc, mem::replace(piece, Vec::new(alloc)), count)?;
    *piece = later;
    made.push(alloc, chunk_of(alloc, front)?)
}
