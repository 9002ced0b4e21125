//! Searches that begin near a place.
ghost use Rattle.std.specs.Prelude.{◌≡◌, ◌≤◌, length, nat_lt, true, false, IsTrue};
ghost use Rattle.std.specs.List.Sorted.{IsNonDecreasingBy, IsPartitionPoint};

use crate::HasId;
use pg_map::{VertexId, is_below};

/// How many of these items, whose ids don't fall, have an id below one. `near` is a guess at it: from there on it is
/// looked for by steps that grow twofold, and among all if it is before that.
pub fn count_below<T: HasId>(items: &[T], near: usize, id: VertexId) -> usize
    requires { IsNonDecreasingBy T.id_of items.now }
    ensures bound { result ≤ length items.now }
    ensures parts { IsPartitionPoint (λ t. nat_lt (T.id_of t) id ≡ true)
        (λ t. nat_lt (T.id_of t) id ≡ false) items.now result }
{
    let near = near.min(items.len());
    let (_, from) = items.split_at(near);
    let (within, _) = from.split_at(reach(from, id));
    let count = near + within.partition_point(|item| is_below(item.id(), id));
    if are_below(items, count, id) {
        return count;
    }
    items.partition_point(|item| is_below(item.id(), id))
}

/// Among how many of these items to look for how many have an id below one: found by steps that grow twofold.
fn reach<T: HasId>(items: &[T], id: VertexId) -> usize
    ensures { result ≤ length items.now }
{
    let mut steps = 1usize;
    while steps < items.len() {
        if !is_below(items[steps].id(), id) {
            return steps;
        }
        steps += steps.min(items.len() - steps);
    }
    items.len()
}

/// Whether just so many of these items have an id below one.
fn are_below<T: HasId>(items: &[T], count: usize, id: VertexId) -> bool
    requires { IsNonDecreasingBy T.id_of items.now }
    ensures bound { IsTrue result → count ≤ length items.now }
    ensures parts { IsTrue result → IsPartitionPoint (λ t. nat_lt (T.id_of t) id ≡ true)
        (λ t. nat_lt (T.id_of t) id ≡ false) items.now count }
{
    if count > items.len() || count > 0 && !is_below(items[count - 1].id(), id) {
        return false;
    }
    count == items.len() || !is_below(items[count].id(), id)
}
