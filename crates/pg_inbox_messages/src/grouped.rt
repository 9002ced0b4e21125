//! Items by target: those to one target side by side, in their order.
ghost use Rattle.std.specs.Prelude.{◌≡◌, [], map, IfOk, MatchOption};
ghost use Rattle.std.specs.List.Sorted.{IsNonDecreasingBy};
ghost use Rattle.pg_inbox_messages.specs.Grouping.{AreGroups, IsFirstGroup, groups_of, items_to, run_len};

use pg_graph::{Memory, VertexId};
use pg_map::is_below;

/// Items by rising target. Costs a stable sort.
pub fn by_target<X: Drop>(items: Vec<(VertexId, X)>) -> Result<Vec<(VertexId, X)>, Memory>
    ensures { IfOk result (λ sorted. AreGroups items.items (groups_of sorted.items)) }
{
    let mut sorted = items;
    sorted.sort_by_key(|item| item.0)?;
    Ok(sorted)
}

/// The first target of items that stand by target, with the items to it and those after them. Costs as much as there
/// are to it.
pub fn first_group<X>(
    items: &[(VertexId, X)],
) -> Option<(VertexId, &[(VertexId, X)], &[(VertexId, X)])>
    ensures { MatchOption result (items.now ≡ []) (λ group. IsFirstGroup items.now group.0 group.1.now group.2.now) }
{
    let (first, _) = items.split_first()?;
    let target = first.0;
    let (here, later) = items.split_at(run_len(items, target));
    Some((target, here, later))
}

/// The items to a target, of items by rising target. Costs a binary search, and as much as there are.
pub fn items_to<X>(items: &[(VertexId, X)], target: VertexId) -> &[(VertexId, X)]
    requires { IsNonDecreasingBy (λ i. i.0) items.now }
    ensures { map (λ i. i.1) result.now ≡ items_to target items.now }
{
    let before = items.partition_point(|item| is_below(item.0, target));
    let (_, from) = items.split_at(before);
    let (here, _) = from.split_at(run_len(from, target));
    here
}

/// How many items at the beginning are to a target. Costs as much as there are.
pub fn run_len<X>(items: &[(VertexId, X)], target: VertexId) -> usize
    ensures { result ≡ run_len target items.now }
{
    for place in 0..items.len() {
        if items[place].0 != target {
            return place;
        }
    }
    items.len()
}
