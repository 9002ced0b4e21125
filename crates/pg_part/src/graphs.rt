//! Which vertices two graphs don't share.
ghost use Rattle.std.specs.Prelude.{◌≡◌, ◌++◌, ◌∷◌, [], IfOk, OnOk};
ghost use Rattle.pg_part.specs.PartRun.{AreTouched};
ghost use Rattle.pg_part.specs.MemberChanges.{member_changes_among};
ghost use Rattle.pg_stats.specs.MessageCounts.{AreMemberChanges};

use pg_graph::{Graph, Memory, VertexId};
use pg_part_compute::rising;
use std::alloc::Global;

/// The ids that are a vertex of just one of two graphs, rising, where the graphs have the same rows outside of these
/// ids. Costs a sort of the ids and two look-ups for each.
pub fn member_changes(
    alloc: Global,
    before: &Graph,
    after: &Graph,
    touched: &[VertexId],
) -> Result<Vec<VertexId>, Memory>
    ensures { IfOk result (λ ids. AreTouched touched.now before.now after.now
        → AreMemberChanges ids.items before.now after.now) }
{
    let ids = rising(Vec::from_slice(alloc, touched)?);
    member_changes_among(alloc, before, after, ids.as_slice())
}

/// Those of these ids.
fn member_changes_among(
    alloc: Global,
    before: &Graph,
    after: &Graph,
    ids: &[VertexId],
) -> Result<Vec<VertexId>, Memory>
    ensures { IfOk result (λ member_changes. member_changes.items ≡ member_changes_among before.now after.now ids.now) }
{
    let mut member_changes = Vec::new(alloc);
    for id in ids {
        add_if_in_one_graph(&mut member_changes, before, after, *id)?;
    }
    Ok(member_changes)
}

/// Adds an id that is a vertex of just one.
fn add_if_in_one_graph(
    member_changes: &mut Vec<VertexId>,
    before: &Graph,
    after: &Graph,
    id: VertexId,
) -> Result<(), Memory>
    ensures { OnOk result (member_changes.new.items ≡ member_changes.old.items ++ member_changes_among before.now
        after.now (id ∷ [])) }
{
    if before.row(id).is_some() != after.row(id).is_some() {
        member_changes.push(id)?;
    }
    Ok(())
}
