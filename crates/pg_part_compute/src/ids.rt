//! Lists of ids.
ghost use Rattle.std.specs.Prelude.{◌≡◌, ℕ, ◌++◌, IfOk, OnOk};
ghost use Rattle.std.specs.List.Sorted.{IsStrictlySortedBy};
ghost use Rattle.std.specs.Ordering.{nat_cmp};
ghost use Rattle.pg_model.specs.Superstep.{has_id};
ghost use Rattle.pg_part_compute.specs.Diverged.{HaveSameIds, without};

use pg_graph::{Memory, VertexId};
use pg_sort::count_below;
use std::alloc::Global;

/// These ids by rising id, each once. Costs a sort.
pub fn rising(ids: Vec<VertexId>) -> Vec<VertexId>
    ensures rise { IsStrictlySortedBy nat_cmp result.items }
    ensures same { (id : ℕ) → has_id result.items id ≡ has_id ids.items id }
{
    let mut ids = ids;
    ids.sort_unstable();
    ids.dedup();
    ids
}

/// A copy of these ids.
pub fn copied(alloc: Global, ids: &[VertexId]) -> Result<Vec<VertexId>, Memory>
    ensures { IfOk result (λ copy. copy.items ≡ ids.now) }
{
    let mut copy = Vec::with_capacity(alloc, ids.len())?;
    add_all(&mut copy, ids)?;
    Ok(copy)
}

/// These ids, and more.
pub fn with_ids(ids: Vec<VertexId>, more: &[VertexId]) -> Result<Vec<VertexId>, Memory>
    ensures { IfOk result (λ all. all.items ≡ ids.items ++ more.now) }
{
    let mut all = ids;
    add_all(&mut all, more)?;
    Ok(all)
}

/// These ids and more, by rising id. Costs a merge where both rise, else a sort.
pub(crate) fn merged(ids: Vec<VertexId>, more: &[VertexId]) -> Result<Vec<VertexId>, Memory>
    ensures { IfOk result (λ all. HaveSameIds all.items (ids.items ++ more.now)) }
{
    let mut all = with_ids(ids, more)?;
    all.sort()?;
    Ok(all)
}

/// Adds more ids.
pub(crate) fn add_all(ids: &mut Vec<VertexId>, more: &[VertexId]) -> Result<(), Memory>
    ensures { OnOk result (ids.new.items ≡ ids.old.items ++ more.now) }
{
    for id in more {
        ids.push(*id)?;
    }
    Ok(())
}

/// Those of these ids that aren't among others, which rise. Each costs a look-up among the others, near the one before.
pub(crate) fn without(
    alloc: Global,
    ids: &[VertexId],
    others: &[VertexId],
) -> Result<Vec<VertexId>, Memory>
    requires { IsStrictlySortedBy nat_cmp others.now }
    ensures { IfOk result (λ rest. rest.items ≡ without ids.now others.now) }
{
    let mut rest = Vec::with_capacity(alloc, ids.len())?;
    let mut near = 0usize;
    for id in ids {
        if !is_among(others, &mut near, *id) {
            rest.push(*id)?;
        }
    }
    Ok(rest)
}

/// Whether an id is among these, which rise. `near` is a guess at how many of them are below it, and is then how many
/// are.
fn is_among(ids: &[VertexId], near: &mut usize, id: VertexId) -> bool
    requires { IsStrictlySortedBy nat_cmp ids.now }
    ensures { result ≡ has_id ids.now id }
{
    let place = count_below(ids, *near, id);
    *near = place;
    place < ids.len() && ids[place] == id
}
