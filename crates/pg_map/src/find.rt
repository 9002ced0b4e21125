//! Look-ups that come near one another.
ghost use Rattle.std.specs.Prelude.{◌≡◌, ◌<◌, ◌≤◌, ℕ, true, false, nat_le, nat_lt};
ghost use Rattle.std.specs.Prelude.{length, slice_index_or, IfSome, IsTrue};
ghost use Rattle.std.specs.List.Sorted.{IsNonDecreasingBy, IsPartitionPoint};
ghost use Rattle.std.specs.Option.{option_copied};
ghost use Rattle.pg_map.specs.Chunks.{AreChunks, AreGroups, all_of, entries_of};
ghost use Rattle.pg_map.specs.Entries.{HasRisingIds, IsSlice, Spans, value_at};

use crate::VertexId;
use crate::part::{Chunk, Group, Node, is_at_most, is_below};
use std::marker::Model;

/// How many entries are passed one by one before a search among all of a chunk.
const STEPS: usize = 16;

/// Looks up ids in a map. Where an id lies from the first to the last of the chunk that was asked last, no other chunk
/// is looked at. Where no id is missing from the first of a chunk up to the last, or up to this one, or it is past all
/// of a chunk without gaps, it costs a step; where an id lies a few entries after the one before, a step for each; and
/// elsewhere in the same chunk a search in that one.
///
/// A contract sees the entries of the map.
#[derive(Drop)]
pub struct Cursor<'a, V> {
    groups: &'a [Group<V>],
    groups_begun: usize,
    chunks_begun: usize,
    // Those of the chunk that was asked last, and how many of them were below.
    entries: &'a [(VertexId, V)],
    entries_below: usize,
}

impl<'a, V> Model for Cursor<'a, V> {
    ghost use Rattle.std.specs.Prelude.{ℕ, List};

    ghost Value = { List (ℕ × V) };

    ghost use Rattle.pg_map.specs.Chunks.{AreGroups, all_of};
    ghost use Rattle.pg_map.specs.Entries.{HasRisingIds, IsSlice};

    ghost view = { λ f. all_of f.groups.now };

    ghost invariant = { λ f. AreGroups f.groups.now × HasRisingIds (all_of f.groups.now)
        × IsSlice f.entries.now (all_of f.groups.now) };
}

impl<'a, V> Cursor<'a, V> {
    /// Look-ups among these groups.
    pub(crate) fn of(groups: &'a [Group<V>]) -> Cursor<'a, V>
        requires groups { AreGroups groups.now }
        requires rise { HasRisingIds (all_of groups.now) }
        ensures { result ≡ all_of groups.now }
    {
        Cursor {
            groups,
            groups_begun: 0,
            chunks_begun: 0,
            entries: &[],
            entries_below: 0,
        }
    }

    /// The value at an id.
    pub fn get(&mut self, id: VertexId) -> Option<&'a V>
        ensures value { option_copied result ≡ value_at id self.old }
        ensures same { self.new ≡ self.old }
    {
        let entries = self.entries_by(id);
        self.entries = entries;
        value_near(entries, &mut self.entries_below, id)
    }

    /// The entries of the one chunk that may hold an id, which may be those that were asked last.
    fn entries_by(&mut self, id: VertexId) -> &'a [(VertexId, V)]
        ensures value { value_at id result.now ≡ value_at id self.old }
        ensures slice { IsSlice result.now self.old }
        ensures same { self.new ≡ self.old }
    {
        if spans(self.entries, id) {
            return self.entries;
        }
        self.entries_found(id)
    }

    /// The entries of the one chunk that may hold an id, found among all chunks.
    fn entries_found(&mut self, id: VertexId) -> &'a [(VertexId, V)]
        ensures value { value_at id result.now ≡ value_at id self.old }
        ensures slice { IsSlice result.now self.old }
        ensures same { self.new ≡ self.old }
    {
        let groups = self.groups;
        self.groups_begun = begun(groups, self.groups_begun, id);
        if self.groups_begun == 0 {
            return &[];
        }
        let chunks = groups[self.groups_begun - 1].items.as_slice();
        self.chunks_begun = begun(chunks, self.chunks_begun, id);
        entries_of_last(chunks, self.chunks_begun)
    }
}

/// How many of these parts begin at an id or below it, which may be as many as before.
pub(crate) fn begun<T>(parts: &[Node<T>], before: usize, id: VertexId) -> usize
    requires { IsNonDecreasingBy (λ part. part.first) parts.now }
    ensures bound { result ≤ length parts.now }
    ensures parts { IsPartitionPoint (λ p. nat_le p.first id ≡ true) (λ p. nat_le p.first id ≡ false) parts.now result }
{
    if have_begun(parts, before, id) {
        return before;
    }
    parts.partition_point(|part| is_at_most(part.first, id))
}

/// Whether just so many of these parts begin at an id or below it. It may say no where they do.
fn have_begun<T>(parts: &[Node<T>], count: usize, id: VertexId) -> bool
    requires { IsNonDecreasingBy (λ part. part.first) parts.now }
    ensures bound { IsTrue result → count ≤ length parts.now }
    ensures parts { IsTrue result → IsPartitionPoint (λ p. nat_le p.first id ≡ true) (λ p. nat_le p.first id ≡ false)
        parts.now count }
{
    if count == 0 || count > parts.len() || !is_at_most(parts[count - 1].first, id) {
        return false;
    }
    if count == parts.len() {
        return true;
    }
    !is_at_most(parts[count].first, id)
}

/// The entries of the last of so many chunks, if any.
fn entries_of_last<V>(chunks: &[Chunk<V>], count: usize) -> &[(VertexId, V)]
    requires chunks { AreChunks chunks.now }
    requires rise { HasRisingIds (entries_of chunks.now) }
    requires bound { count ≤ length chunks.now }
    ensures values { (id : ℕ) → IsPartitionPoint (λ c. nat_le c.first id ≡ true) (λ c. nat_le c.first id ≡ false)
        chunks.now count
        → value_at id result.now ≡ value_at id (entries_of chunks.now) }
    ensures slice { IsSlice result.now (entries_of chunks.now) }
{
    if count == 0 {
        return &[];
    }
    chunks[count - 1].items.as_slice()
}

/// Whether an id lies from the first of these entries up to the last.
fn spans<V>(entries: &[(VertexId, V)], id: VertexId) -> bool
    ensures { IsTrue result → Spans id entries.now }
{
    if entries.is_empty() {
        return false;
    }
    is_at_most(entries[0].0, id) && is_at_most(id, entries[entries.len() - 1].0)
}

/// The value at an id among these entries. `below` is a guess at how many of them are below it, and says then how many
/// are.
pub(crate) fn value_near<'a, V>(
    entries: &'a [(VertexId, V)],
    below: &mut usize,
    id: VertexId,
) -> Option<&'a V>
    requires { HasRisingIds entries.now }
    ensures { option_copied result ≡ value_at id entries.now }
{
    if let Some(place) = place_without_gaps(entries, id) {
        *below = place;
        return Some(&entries[place].1);
    }
    let place = count_searched(entries, *below, id);
    *below = place;
    if place >= entries.len() {
        return None;
    }
    let entry = &entries[place];
    if entry.0 == id { Some(&entry.1) } else { None }
}

/// How many of these entries are below an id. `before` is a guess at it.
pub(crate) fn count_below<V>(entries: &[(VertexId, V)], before: usize, id: VertexId) -> usize
    requires { HasRisingIds entries.now }
    ensures { IsPartitionPoint (λ e. nat_lt e.0 id ≡ true) (λ e. nat_lt e.0 id ≡ false) entries.now result }
{
    match place_without_gaps(entries, id) {
        Some(place) => place,
        None => count_searched(entries, before, id),
    }
}

/// How many of these entries are below an id, found by looking at the entries near it. Tested first is how far the id
/// is from that of the first, which is the answer where no id is missing between them, or all of them where it is as
/// far or farther; then the count before, or a few more; then it is searched for.
fn count_searched<V>(entries: &[(VertexId, V)], before: usize, id: VertexId) -> usize
    requires { HasRisingIds entries.now }
    ensures { IsPartitionPoint (λ e. nat_lt e.0 id ≡ true) (λ e. nat_lt e.0 id ≡ false) entries.now result }
{
    let distance = distance_from_first(entries, id).min(entries.len());
    if are_below(entries, distance, id) {
        return distance;
    }
    // A first look-up has no place to go on from.
    if before > 0 {
        let near = passed(entries, before, id);
        if are_below(entries, near, id) {
            return near;
        }
    }
    entries.partition_point(|entry| is_below(entry.0, id))
}

/// Where an id is among these entries, if they leave out none from the first to the last and it lies there. No entry
/// but these two is looked at.
fn place_without_gaps<V>(entries: &[(VertexId, V)], id: VertexId) -> Option<usize>
    requires { HasRisingIds entries.now }
    ensures inside { IfSome result (λ place. place < length entries.now) }
    ensures here { IfSome result (λ place. (e : ℕ × V) → e ≡ slice_index_or entries.now place e → e.0 ≡ id) }
    ensures parts { IfSome result
        (IsPartitionPoint (λ e. nat_lt e.0 id ≡ true) (λ e. nat_lt e.0 id ≡ false) entries.now) }
{
    if entries.is_empty() {
        return None;
    }
    let end = entries.len() - 1;
    let (first, last) = (entries[0].0.number(), entries[end].0.number());
    let number = id.number();
    if number < first || number > last || last - first != end as u64 {
        return None;
    }
    Some((number - first) as usize)
}

/// How far an id is from that of the first entry.
fn distance_from_first<V>(entries: &[(VertexId, V)], id: VertexId) -> usize {
    match entries.first() {
        Some(first) => id.number().saturating_sub(first.0.number()) as usize,
        None => 0,
    }
}

/// How far a few steps from a place on go, over entries below an id.
fn passed<V>(entries: &[(VertexId, V)], place: usize, id: VertexId) -> usize {
    let mut near = place;
    for _ in 0..STEPS {
        if near >= entries.len() || !is_below(entries[near].0, id) {
            return near;
        }
        near += 1;
    }
    near
}

/// Whether just so many of these entries are below an id. It may say no where they are.
fn are_below<V>(entries: &[(VertexId, V)], count: usize, id: VertexId) -> bool
    requires { HasRisingIds entries.now }
    ensures { IsTrue result → IsPartitionPoint (λ e. nat_lt e.0 id ≡ true) (λ e. nat_lt e.0 id ≡ false) entries.now
        count }
{
    if count == 0 || count > entries.len() || !is_below(entries[count - 1].0, id) {
        return false;
    }
    if count == entries.len() {
        return true;
    }
    !is_below(entries[count].0, id)
}
