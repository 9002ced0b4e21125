//! Values by rising id, in chunks that are changed in place.
ghost use Rattle.std.specs.Prelude.{◌≡◌, ◌≤◌, ◌<◌, true, false, nat_le, length, None};
ghost use Rattle.std.specs.Prelude.{IfErr, IfNone, IfOk, IfSome, IsTrue, OnOk};
ghost use Rattle.std.specs.BTreeMap.{insert_entry};
ghost use Rattle.std.specs.List.{HoldsAt};
ghost use Rattle.std.specs.List.Sorted.{IsPartitionPoint};
ghost use Rattle.std.specs.Option.{option_copied};
ghost use Rattle.std.specs.Ordering.{nat_cmp};
ghost use Rattle.std.specs.declared.cmp.Ordering.TheVariants.{Less, Equal, Greater};
ghost use Rattle.pg_map.specs.Chunks.{StartsAt};
ghost use Rattle.pg_map.specs.Entries.{HasRisingIds, value_at};
ghost use Rattle.pg_trace_index.specs.Chunks.{AreSound, IsAt, all_of, listed};

use pg_graph::{Memory, VertexId};
use pg_map::is_at_most;
use std::alloc::Global;

/// Values that lie side by side, by rising id: at least one. A chunk knows its first id, so a search among chunks reads
/// one vector.
#[derive(Drop)]
pub(crate) struct Chunk<X> {
    pub(crate) first: VertexId,
    pub(crate) entries: Vec<(VertexId, X)>,
}

/// So many values are too many for a chunk: it is cut in two, so that one more moves few of them.
const TOO_MANY: usize = 128;

/// So many are too many where the last was put behind the others, which moves none of them.
const TOO_MANY_IN_ORDER: usize = 1024;

/// The value at an id. It costs what `found` does.
#[inline(always)]
pub(crate) fn get<'a, X>(chunks: &'a [Chunk<X>], near: &mut usize, id: VertexId) -> Option<&'a X>
    requires { AreSound chunks.now }
    ensures { option_copied result ≡ value_at id (all_of chunks.now) }
{
    let (chunk, place) = found(chunks, near, id)?;
    Some(&chunks[chunk].entries[place].1)
}

/// In which chunk the value at an id stands, and at which place there. `near` becomes how many chunks begin at the id
/// or below it. Where it was that before, or one fewer, from a look-up near this one, it costs a binary search in one
/// chunk; else two. The one in the chunk is spared where the chunk has each id from its first up to this, or none
/// from this on.
#[inline(always)]
pub(crate) fn found<X>(
    chunks: &[Chunk<X>],
    near: &mut usize,
    id: VertexId,
) -> Option<(usize, usize)>
    requires { AreSound chunks.now }
    ensures some { IfSome result (λ at. IsAt id chunks.now at.0 at.1) }
    ensures none { IfNone result (value_at id (all_of chunks.now) ≡ None) }
{
    let begun = begun(chunks, *near, id);
    *near = begun;
    if begun == 0 {
        return None;
    }
    let chunk = &chunks[begun - 1];
    let entries = chunk.entries.as_slice();
    if let Some(place) = place_by_distance(entries, chunk.first, id) {
        return Some((begun - 1, place));
    }
    match place_of(entries, id) {
        Ok(place) => Some((begun - 1, place)),
        Err(_) => None,
    }
}

/// How many chunks begin at an id or below it, which may be as many as before, or one more.
fn begun<X>(chunks: &[Chunk<X>], before: usize, id: VertexId) -> usize
    requires { AreSound chunks.now }
    ensures bound { result ≤ length chunks.now }
    ensures parts { IsPartitionPoint (λ c. nat_le c.first id ≡ true) (λ c. nat_le c.first id ≡ false) chunks.now
        result }
{
    if have_begun(chunks, before, id) {
        return before;
    }
    let next = before.saturating_add(1);
    if have_begun(chunks, next, id) {
        return next;
    }
    chunks.partition_point(|chunk| is_at_most(chunk.first, id))
}

/// Whether just so many chunks begin at an id or below it. It may say no where they do.
fn have_begun<X>(chunks: &[Chunk<X>], count: usize, id: VertexId) -> bool
    requires { AreSound chunks.now }
    ensures bound { IsTrue result → count ≤ length chunks.now }
    ensures parts { IsTrue result
        → IsPartitionPoint (λ c. nat_le c.first id ≡ true) (λ c. nat_le c.first id ≡ false) chunks.now count }
{
    if count == 0 || count > chunks.len() || !is_at_most(chunks[count - 1].first, id) {
        return false;
    }
    if count == chunks.len() {
        return true;
    }
    !is_at_most(chunks[count].first, id)
}

/// The place of an id by its distance from the first id, if it stands there. It may say none where there are gaps.
fn place_by_distance<X>(entries: &[(VertexId, X)], first: VertexId, id: VertexId) -> Option<usize>
    ensures within { IfSome result (λ place. place < length entries.now) }
    ensures found { IfSome result (HoldsAt (λ e. nat_cmp e.0 id ≡ Equal) entries.now) }
{
    let place = id.number().checked_sub(first.number())? as usize;
    let entry = entries.get(place)?;
    if entry.0 != id {
        return None;
    }
    Some(place)
}

/// The place of an id among entries, or else where it would be put, which costs O(1) at their end.
fn place_of<X>(entries: &[(VertexId, X)], id: VertexId) -> Result<usize, usize>
    requires { HasRisingIds entries.now }
    ensures within { IfOk result (λ place. place < length entries.now) }
    ensures found { IfOk result (HoldsAt (λ e. nat_cmp e.0 id ≡ Equal) entries.now) }
    ensures bound { IfErr result (λ place. place ≤ length entries.now) }
    ensures missing { IfErr result
        (IsPartitionPoint (λ e. nat_cmp e.0 id ≡ Less) (λ e. nat_cmp e.0 id ≡ Greater) entries.now) }
{
    if are_below(entries, id) {
        return Err(entries.len());
    }
    entries.binary_search_by_key(&id, |entry| entry.0)
}

/// Whether the ids of these entries are all below an id. It may say no where they are: of no entries it does.
fn are_below<X>(entries: &[(VertexId, X)], id: VertexId) -> bool
    requires { HasRisingIds entries.now }
    ensures { IsTrue result → IsPartitionPoint (λ e. nat_cmp e.0 id ≡ Less) (λ e. nat_cmp e.0 id ≡ Greater) entries.now
        (length entries.now) }
{
    let count = entries.len();
    if count == 0 {
        return false;
    }
    !is_at_most(id, entries[count - 1].0)
}

/// Puts a value at an id. It costs the look-ups of `found`, and moves what follows in the id's chunk and, where
/// that is cut in two, the chunks that follow. Where memory is refused some of the values may be lost.
pub(crate) fn put<X: Drop>(
    alloc: Global,
    chunks: &mut Vec<Chunk<X>>,
    near: usize,
    id: VertexId,
    value: X,
) -> Result<(), Memory>
    requires { AreSound chunks.old.items }
    ensures all { OnOk result (all_of chunks.new.items ≡ insert_entry nat_cmp (all_of chunks.old.items) id value) }
    ensures sound { OnOk result (AreSound chunks.new.items) }
{
    if chunks.is_empty() {
        let mut entries = Vec::new(alloc);
        entries.push((id, value))?;
        chunks.push(Chunk { first: id, entries })?;
        return Ok(());
    }
    let place = begun(chunks.as_slice(), near, id).saturating_sub(1);
    put_in(&mut chunks[place], id, value)?;
    let limit = if is_last(&chunks[place], id) {
        TOO_MANY_IN_ORDER
    } else {
        TOO_MANY
    };
    cut(chunks, place, limit)?;
    Ok(())
}

/// Whether an id is the last of a chunk.
fn is_last<X>(chunk: &Chunk<X>, id: VertexId) -> bool {
    match chunk.entries.last() {
        Some(last) => last.0 == id,
        None => false,
    }
}

/// Puts a value at an id into a chunk.
fn put_in<X: Drop>(chunk: &mut Chunk<X>, id: VertexId, value: X) -> Result<(), Memory>
    requires { HasRisingIds (listed chunk.old) }
    ensures entries { OnOk result (listed chunk.new ≡ insert_entry nat_cmp (listed chunk.old) id value) }
    ensures start { OnOk result (StartsAt chunk.new.first (listed chunk.new)) }
{
    put_among(&mut chunk.entries, id, value)?;
    chunk.first = chunk.entries[0].0;
    Ok(())
}

/// Puts a value at an id into entries.
fn put_among<X: Drop>(
    entries: &mut Vec<(VertexId, X)>,
    id: VertexId,
    value: X,
) -> Result<(), Memory>
    requires { HasRisingIds entries.old.items }
    ensures entries { OnOk result (entries.new.items ≡ insert_entry nat_cmp entries.old.items id value) }
    ensures some { OnOk result (0 < length entries.new.items) }
{
    match place_of(entries.as_slice(), id) {
        Ok(place) => {
            entries[place] = (id, value);
            Ok(())
        }
        Err(place) => {
            entries.insert(place, (id, value))?;
            Ok(())
        }
    }
}

/// Makes two of a chunk that has so many entries or more.
fn cut<X: Drop>(chunks: &mut Vec<Chunk<X>>, place: usize, limit: usize) -> Result<(), Memory>
    requires sound { AreSound chunks.old.items }
    requires within { place < length chunks.old.items }
    requires some { 1 < limit }
    ensures all { OnOk result (all_of chunks.new.items ≡ all_of chunks.old.items) }
    ensures sound { OnOk result (AreSound chunks.new.items) }
{
    let count = chunks[place].entries.len();
    if count < limit {
        return Ok(());
    }
    let entries = chunks[place].entries.split_off(count / 2)?;
    let first = entries[0].0;
    chunks.insert(place + 1, Chunk { first, entries })?;
    Ok(())
}
