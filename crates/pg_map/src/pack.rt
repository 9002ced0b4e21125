//! Entries laid anew in memory.
ghost use Rattle.std.specs.Prelude.{◌≡◌, IfOk, IfSome};
ghost use Rattle.pg_map.specs.Chunks.{AreChunks, AreGroups, all_of, chunks_in, entries_of, grouped, groups_of, listed};

use crate::group_list::GroupList;
use crate::part::{Chunk, Group, Node};
use crate::{CheapClone, Memory, VertexId};
use std::alloc::Global;
use std::sync::Arc;

/// Values that may lie side by side in memory, where their entries stand side by side.
pub trait Pack: CheapClone {
    /// A copy of these entries with their values laid anew, or `None` where the values lie well.
    fn packed(
        alloc: Global,
        entries: &[(VertexId, Self)],
    ) -> Result<Option<Vec<(VertexId, Self)>>, Memory>
        ensures { IfOk result (λ made. IfSome made (λ packed. packed.items ≡ entries.now)) };
}

/// Lays the entries of each chunk anew. Groups that a copy shares stay as they are.
pub(crate) fn pack_group_list<V: Pack>(alloc: Global, group_list: &mut GroupList<V>)
    requires { AreGroups (groups_of group_list.old) }
    ensures groups { AreGroups (groups_of group_list.new) }
    ensures entries { all_of (groups_of group_list.new) ≡ all_of (groups_of group_list.old) }
{
    if let Some(shared) = &mut group_list.shared {
        if let Some(groups) = Arc::get_mut(shared) {
            pack_groups(alloc, groups);
        }
    }
}

fn pack_groups<V: Pack>(alloc: Global, groups: &mut Vec<Group<V>>)
    requires { AreGroups groups.old.items }
    ensures groups { AreGroups groups.new.items }
    ensures entries { all_of groups.new.items ≡ all_of groups.old.items }
{
    for place in 0..groups.len() {
        pack_group(alloc, &mut groups[place]);
    }
}

fn pack_group<V: Pack>(alloc: Global, group: &mut Group<V>)
    requires { AreChunks (chunks_in group.old) }
    ensures chunks { AreChunks (chunks_in group.new) }
    ensures entries { grouped group.new ≡ grouped group.old }
    ensures first { group.new.first ≡ group.old.first }
    ensures count { group.new.count ≡ group.old.count }
{
    if let Some(chunks) = Arc::get_mut(&mut group.items) {
        pack_chunks(alloc, chunks);
    }
}

fn pack_chunks<V: Pack>(alloc: Global, chunks: &mut Vec<Chunk<V>>)
    requires { AreChunks chunks.old.items }
    ensures chunks { AreChunks chunks.new.items }
    ensures entries { entries_of chunks.new.items ≡ entries_of chunks.old.items }
{
    for place in 0..chunks.len() {
        if let Some(chunk) = packed_chunk(alloc, &chunks[place]) {
            chunks[place] = chunk;
        }
    }
}

/// A copy of a chunk with its values laid anew, or `None` where they lie well or there is no memory.
fn packed_chunk<V: Pack>(alloc: Global, chunk: &Chunk<V>) -> Option<Chunk<V>>
    ensures entries { IfSome result (λ packed. listed packed ≡ listed chunk.now) }
    ensures first { IfSome result (λ packed. packed.first ≡ chunk.now.first) }
    ensures count { IfSome result (λ packed. packed.count ≡ chunk.now.count) }
{
    let Ok(Some(entries)) = V::packed(alloc, chunk.items.as_slice()) else {
        return None;
    };
    let Ok(items) = Arc::new(alloc, entries) else {
        return None;
    };
    Some(Node {
        first: chunk.first,
        count: chunk.count,
        items,
    })
}
