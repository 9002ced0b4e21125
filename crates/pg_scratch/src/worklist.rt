//! Active vertices, and the list of their places.
ghost use Rattle.std.specs.Prelude.{◌≡◌, true, ℕ, ◌<◌, not, length, slice_get, Some, IfOk};
ghost use Rattle.std.specs.Ordering.{nat_cmp};
ghost use Rattle.std.specs.List.{list_all};
ghost use Rattle.std.specs.List.Sorted.{IsStrictlySortedBy};
ghost use Rattle.pg_model.specs.Superstep.{has_id, is_active as active_test};
ghost use Rattle.pg_model.specs.declared.configuration.VertexWithInbox.{VertexWithInbox};
ghost use Rattle.pg_scratch.specs.Worklist.{ListsActive};

use pg_graph::{Memory, VertexId};
use pg_model::VertexWithInbox;
use std::alloc::Global;

/// The places of the active vertices in order: those of a list, if it has them all, and else by a walk over the
/// vertices.
pub(crate) fn active_in_order<V, M>(
    alloc: Global,
    with_inboxes: &[VertexWithInbox<V, M>],
    is_listed: bool,
    mut listed: Vec<usize>,
) -> Result<Vec<usize>, Memory>
    requires { is_listed ≡ true → ListsActive with_inboxes.now listed.items }
    ensures lists { IfOk result (λ places. ListsActive with_inboxes.now places.items) }
    ensures in_order { IfOk result (λ places. IsStrictlySortedBy nat_cmp places.items) }
{
    if !is_listed {
        return active_places(alloc, with_inboxes);
    }
    put_in_order(&mut listed);
    Ok(listed)
}

/// Puts places in order, each of them once.
fn put_in_order(places: &mut Vec<usize>)
    ensures rising { IsStrictlySortedBy nat_cmp places.new.items }
    ensures same { (place : ℕ) → has_id places.new.items place ≡ has_id places.old.items place }
{
    places.sort_unstable();
    places.dedup();
}

/// Puts ids in order, each of them once.
pub(crate) fn put_ids_in_order(ids: &mut Vec<VertexId>)
    ensures rising { IsStrictlySortedBy nat_cmp ids.new.items }
    ensures same { (id : ℕ) → has_id ids.new.items id ≡ has_id ids.old.items id }
{
    ids.sort_unstable();
    ids.dedup();
}

/// The places of the active vertices, in order.
pub(crate) fn active_places<V, M>(
    alloc: Global,
    with_inboxes: &[VertexWithInbox<V, M>],
) -> Result<Vec<usize>, Memory>
    ensures lists { IfOk result (λ places. ListsActive with_inboxes.now places.items) }
    ensures in_order { IfOk result (λ places. IsStrictlySortedBy nat_cmp places.items) }
{
    let mut places = Vec::with_capacity(alloc, with_inboxes.len())?;
    for place in 0..with_inboxes.len() {
        if is_active_at(with_inboxes, place) {
            places.push(place)?;
        }
    }
    Ok(places)
}

/// Whether the vertex at a place is active.
fn is_active_at<V, M>(with_inboxes: &[VertexWithInbox<V, M>], place: usize) -> bool
    requires { place < length with_inboxes.now }
    ensures { (x : VertexWithInbox V M) → slice_get with_inboxes.now place ≡ Some x → result ≡ active_test x }
{
    is_active(&with_inboxes[place])
}

/// Whether a vertex is active: it isn't halted, or has received something.
pub fn is_active<V, M>(with_inbox: &VertexWithInbox<V, M>) -> bool
    ensures { result ≡ active_test with_inbox.now }
{
    !with_inbox.state.halted || with_inbox.inbox.len() != 0
}

/// Whether any vertex is active, by the list of the places of the active ones.
pub fn is_anyone_active<V, M>(with_inboxes: &[VertexWithInbox<V, M>], work: &[usize]) -> bool
    requires { ListsActive with_inboxes.now work.now }
    ensures { result ≡ not (list_all (λ x. not (active_test x)) with_inboxes.now) }
{
    for place in work {
        if is_active_at(with_inboxes, *place) {
            return true;
        }
    }
    false
}
