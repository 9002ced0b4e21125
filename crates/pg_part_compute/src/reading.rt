//! What a step reads: what the bundles to its partition deliver.
ghost use Rattle.std.specs.Prelude.{◌≡◌, ℕ, List, ◌∷◌, ◌++◌, map, IfOk, OnOk};
ghost use Rattle.std.specs.List.{AllByRecursion};
ghost use Rattle.std.specs.List.Sorted.{IsStrictlySortedBy};
ghost use Rattle.std.specs.Map.{keys_of};
ghost use Rattle.std.specs.Ordering.{nat_cmp};
ghost use Rattle.pg_inbox.specs.Inboxes.{Delivers};
ghost use Rattle.pg_map.specs.Entries.{HasRisingIds};
ghost use Rattle.pg_part_compute.specs.Lists.{empty_inboxes, with_empty};

use pg_global::MessageCombiner;
use pg_graph::{Memory, VertexId};
use pg_inbox::{Bundle, Inboxes, inbox};
use pg_program::Plain;
use std::alloc::Global;

/// What each of these ids receives.
pub(crate) fn inboxes_at<M: Plain, C: MessageCombiner<M>>(
    alloc: Global,
    bundles: &[&Bundle<M>],
    ids: &[VertexId],
    combiner: &C,
) -> Result<Inboxes<M>, Memory>
    ensures ids { IfOk result (λ inboxes. keys_of inboxes ≡ ids.now) }
    ensures delivered { IfOk result (λ inboxes. AllByRecursion
        (λ w. Delivers (C.combining combiner.now) w.0 (map (λ b. b.now) bundles.now) w.1)
        inboxes) }
{
    let mut inboxes = Inboxes::new(alloc, ids.len())?;
    for id in ids {
        let inbox = inbox(alloc, bundles, *id, combiner)?;
        inboxes = inboxes.with(*id, inbox)?;
    }
    Ok(inboxes)
}

/// References to bundles.
pub(crate) fn bundle_refs_of<M: Plain>(
    alloc: Global,
    bundles: &[Bundle<M>],
) -> Result<Vec<&Bundle<M>>, Memory>
    ensures { IfOk result (λ refs. map (λ b. b.now) refs.items ≡ bundles.now) }
{
    bundles.iter().collect(alloc)
}

/// Inboxes by rising id, with empty ones for those of these ids that have none. Costs one pass over both, and
/// a copy of each message.
pub(crate) fn with_empty<M: Plain>(
    alloc: Global,
    ids: &[VertexId],
    inboxes: &Inboxes<M>,
) -> Result<Inboxes<M>, Memory>
    requires ids { IsStrictlySortedBy nat_cmp ids.now }
    requires inboxes { HasRisingIds inboxes.now }
    ensures { IfOk result (λ all. all ≡ with_empty ids.now inboxes.now) }
{
    let mut all = Inboxes::new(alloc, ids.len().max(inboxes.len()))?;
    let mut remaining = ids;
    for place in 0..inboxes.len() {
        let (id, messages) = inboxes.at(place);
        let (put, above) = put_below(all, remaining, id)?;
        all = put.with_copies(alloc, id, messages)?;
        remaining = above;
    }
    put_empty(all, remaining)
}

/// Adds empty inboxes for those of these ids that are below one, and gives those above it.
fn put_below<M: Plain>(
    inboxes: Inboxes<M>,
    ids: &[VertexId],
    id: VertexId,
) -> Result<(Inboxes<M>, &[VertexId]), Memory>
    requires { IsStrictlySortedBy nat_cmp ids.now }
    ensures rise { IfOk result (λ r. IsStrictlySortedBy nat_cmp r.1.now) }
    ensures put { IfOk result (λ r. (inbox : List M) (later : List (ℕ × List M)) → HasRisingIds ((id, inbox) ∷ later)
        → r.0 ++ (id, inbox) ∷ with_empty r.1.now later ≡ inboxes ++ with_empty ids.now ((id, inbox) ∷ later)) }
{
    let mut all = inboxes;
    let mut remaining = ids;
    while let Some((first, others)) = remaining.split_first() {
        if *first == id {
            return Ok((all, others));
        }
        if id < *first {
            return Ok((all, remaining));
        }
        all = all.with_none(*first)?;
        remaining = others;
    }
    Ok((all, remaining))
}

/// Adds empty inboxes for these ids.
fn put_empty<M: Plain>(inboxes: Inboxes<M>, ids: &[VertexId]) -> Result<Inboxes<M>, Memory>
    ensures { IfOk result (λ all. all ≡ inboxes ++ empty_inboxes ids.now) }
{
    let mut all = inboxes;
    for id in ids {
        all = all.with_none(*id)?;
    }
    Ok(all)
}
