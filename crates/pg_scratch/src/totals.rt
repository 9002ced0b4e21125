//! How many out-edges the vertices have, kept as they change.
ghost use Rattle.std.specs.Prelude.{◌≡◌, ℕ, ◌+◌, ◌≤◌, IfSome};
ghost use Rattle.pg_model.specs.Superstep.{capped, edges_of};
ghost use Rattle.pg_scratch.specs.Totals.{Counts};

use pg_model::VertexWithInbox;

/// The exact number, where the capped one tells it.
pub(crate) fn exact(total: u64) -> Option<u64>
    ensures { (n : ℕ) → total ≡ capped n → Counts result n }
{
    if total == u64::MAX {
        return None;
    }
    Some(total)
}

/// The number after a vertex that had `before` edges has `after`.
pub(crate) fn exchanged(known: Option<u64>, before: usize, after: usize) -> Option<u64>
    requires { IfSome known (λ n. before ≤ n) }
    ensures { (rest : ℕ) → Counts known (rest + before) → Counts result (rest + after) }
{
    let Some(total) = known else {
        return None;
    };
    (total - before as u64).checked_add(after as u64)
}

/// The capped number; where it isn't known, the edges are counted.
pub(crate) fn capped_total<V, M>(known: Option<u64>, with_inboxes: &[VertexWithInbox<V, M>]) -> u64
    requires { Counts known (edges_of with_inboxes.now) }
    ensures { result ≡ capped (edges_of with_inboxes.now) }
{
    match known {
        Some(total) => total,
        None => counted(with_inboxes),
    }
}

/// The capped number of edges, counted.
fn counted<V, M>(with_inboxes: &[VertexWithInbox<V, M>]) -> u64
    ensures { result ≡ capped (edges_of with_inboxes.now) }
{
    let mut total = 0u64;
    for with_inbox in with_inboxes {
        total = total.saturating_add(with_inbox.state.edges.as_slice().len() as u64);
    }
    total
}
