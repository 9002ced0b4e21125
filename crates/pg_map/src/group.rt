//! Chunks gathered into groups, one after another.
ghost use Rattle.std.specs.Prelude.{◌≡◌, [], ◌++◌, ◌+◌, ◌≤◌, length, IfOk, IsTrue, OnOk};
ghost use Rattle.pg_map.specs.Chunks.{AreChunks, AreGroups, IsPart, all_of, chunks_in, entries_of, grouped, listed};

use crate::Memory;
use crate::list::parted;
use crate::part::{Chunk, Group, group_of};
use std::alloc::Global;
use std::marker::Model;
use std::mem;

/// A group is cut off where so many chunks stand in none,
const FULL: usize = 64;

/// and has so many then.
const GROUP: usize = 32;

/// Fewer take in the chunks of the next group, so that removals leave no tiny groups behind.
pub(crate) const FEW: usize = 8;

/// Groups, and chunks that become the next one. A contract sees the entries of all.
#[derive(Drop)]
pub(crate) struct Grouping<V> {
    made: Vec<Group<V>>,
    chunks: Vec<Chunk<V>>,
}

impl<V> Model for Grouping<V> {
    ghost use Rattle.std.specs.Prelude.{ℕ, List, ◌++◌};

    ghost Value = { List (ℕ × V) };

    ghost use Rattle.pg_map.specs.Chunks.{AreChunks, AreGroups, all_of, entries_of};

    ghost view = { λ g. all_of g.made.items ++ entries_of g.chunks.items };

    ghost invariant = { λ g. AreGroups g.made.items × AreChunks g.chunks.items };
}

impl<V: Drop> Grouping<V> {
    /// No groups.
    pub(crate) fn new(alloc: Global) -> Grouping<V>
        ensures { result ≡ [] }
    {
        Grouping {
            made: Vec::new(alloc),
            chunks: Vec::new(alloc),
        }
    }

    /// Whether there are none.
    pub(crate) fn is_empty(&self) -> bool
        ensures { IsTrue result → self.now ≡ [] }
    {
        self.made.is_empty() && self.chunks.is_empty()
    }

    /// How many chunks stand in no group yet.
    pub(crate) fn waiting(&self) -> usize {
        self.chunks.len()
    }

    /// Adds a chunk.
    pub(crate) fn push(&mut self, alloc: Global, chunk: Chunk<V>) -> Result<(), Memory>
        requires { IsPart chunk.first chunk.count (listed chunk) }
        ensures { OnOk result (self.new ≡ self.old ++ listed chunk) }
    {
        if self.chunks.len() >= FULL {
            cut_group(alloc, &mut self.made, &mut self.chunks, GROUP)?;
        }
        self.chunks.push(chunk)?;
        Ok(())
    }

    /// Adds a group.
    pub(crate) fn add(&mut self, alloc: Global, group: Group<V>) -> Result<(), Memory>
        requires part { IsPart group.first group.count (grouped group) }
        requires chunks { AreChunks (chunks_in group) }
        ensures { OnOk result (self.new ≡ self.old ++ grouped group) }
    {
        let chunks = self.chunks.len();
        cut_group(alloc, &mut self.made, &mut self.chunks, chunks)?;
        self.made.push(group)?;
        Ok(())
    }

    /// All groups.
    pub(crate) fn finish(self, alloc: Global) -> Result<Vec<Group<V>>, Memory>
        ensures entries { IfOk result (λ groups. all_of groups.items ≡ self) }
        ensures groups { IfOk result (λ groups. AreGroups groups.items) }
    {
        let Grouping {
            mut made,
            mut chunks,
        } = self;
        let remaining = chunks.len();
        cut_group(alloc, &mut made, &mut chunks, remaining)?;
        Ok(made)
    }
}

/// Makes a group of the first so many chunks, if any.
fn cut_group<V: Drop>(
    alloc: Global,
    made: &mut Vec<Group<V>>,
    chunks: &mut Vec<Chunk<V>>,
    count: usize,
) -> Result<(), Memory>
    requires bound { count ≤ length chunks.old.items }
    requires groups { AreGroups made.old.items }
    requires chunks { AreChunks chunks.old.items }
    ensures groups { AreGroups made.new.items }
    ensures chunks { AreChunks chunks.new.items }
    ensures entries { OnOk result
        (all_of made.new.items ++ entries_of chunks.new.items ≡ all_of made.old.items ++ entries_of chunks.old.items) }
    ensures remaining { OnOk result (length chunks.new.items + count ≡ length chunks.old.items) }
{
    if count == 0 {
        return Ok(());
    }
    let (front, later) = parted(alloc, mem::replace(chunks, Vec::new(alloc)), count)?;
    *chunks = later;
    made.push(group_of(alloc, front)?)?;
    Ok(())
}
