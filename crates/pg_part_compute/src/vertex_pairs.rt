//! The vertices that a step looks at: which they are, and how it finds them.
ghost use Rattle.std.specs.Prelude.{◌≡◌, ◌+◌, ◌++◌, ◌∷◌, [], ◌<◌, ◌^◌, map, length, is_some, None, Some, true, false};
ghost use Rattle.std.specs.Prelude.{not, IfOk, IfSome, IsTrue};
ghost use Rattle.std.specs.List.Sorted.{IsStrictlySortedBy};
ghost use Rattle.std.specs.Ordering.{nat_cmp};
ghost use Rattle.std.specs.List.{AllByRecursion, count_by, flat_map};
ghost use Rattle.std.specs.Map.{keys_of};
ghost use Rattle.pg_part_compute.specs.VertexPairs.{AreWorkItems, AreFound, IsStepDelta, cold, unhalted_ids, found_at};
ghost use Rattle.pg_part_routing.specs.Starting.{own};
ghost use Rattle.pg_part_compute.specs.VertexCountsDeltas.{AreVertexCountsDelta, IsVertexCountsDelta};
ghost use Rattle.pg_part_compute.specs.Found.{HasValues, HaveValues, IsFound, change_cold, reads};
ghost use Rattle.pg_model.specs.Superstep.{capped};
ghost use Rattle.pg_program.specs.Context.{ShowsDeclared};

use crate::execution::{Executor, StepContext, StepDelta, execute_found, execute_pairs};
use crate::found::{VertexPair, copied_messages, state_by, vertex_at};
use crate::reading::{bundle_refs_of, inboxes_at, with_empty};
use pg_global::MessageCombiner;
use pg_graph::{Memory, Missing, Superstep, VertexId};
use pg_inbox::{Bundle, Inboxes, inbox, inboxes};
use pg_model::{Sequence, VertexWithInbox};
use pg_part_routing::PartitionOf;
use pg_program::{Computation, Plain};
use pg_stats::VertexCountsDelta;
use pg_trace::{StateCursor, Trace};
use std::alloc::Global;

/// The vertices that aren't halted as a superstep begins, by rising id. Costs a walk over the records of the superstep
/// before.
pub(crate) fn unhalted_ids<V: Drop, M: Drop>(
    alloc: Global,
    trace: &Trace<V, M>,
    superstep: Superstep,
) -> Result<Vec<VertexId>, Memory>
    ensures ids { IfOk result (λ ids. ids.items ≡ unhalted_ids superstep trace.now) }
    ensures rising { IfOk result (λ ids. IsStrictlySortedBy nat_cmp ids.items) }
{
    match superstep.number().checked_sub(1) {
        Some(before) => trace.unhalted_after(alloc, Superstep::new(before)),
        None => trace.initial_ids(alloc),
    }
}

/// Those that belong to a partition: mostly all of them.
fn own<M: Plain>(
    alloc: Global,
    share: &PartitionOf,
    work_items: Inboxes<M>,
) -> Result<Inboxes<M>, Memory>
    ensures { IfOk result (λ mine. mine ≡ own share.now.partitions share.now.partition work_items) }
{
    if are_own(share, &work_items) {
        return Ok(work_items);
    }
    only_own(alloc, share, &work_items)
}

/// Whether all of them belong to a partition.
fn are_own<M: Plain>(share: &PartitionOf, work_items: &Inboxes<M>) -> bool
    ensures { IsTrue result → own share.now.partitions share.now.partition work_items.now ≡ work_items.now }
{
    for place in 0..work_items.len() {
        let (id, _) = work_items.at(place);
        if !share.has(id) {
            return false;
        }
    }
    true
}

/// Copies of those that belong to a partition.
fn only_own<M: Plain>(
    alloc: Global,
    share: &PartitionOf,
    work_items: &Inboxes<M>,
) -> Result<Inboxes<M>, Memory>
    ensures { IfOk result (λ mine. mine ≡ own share.now.partitions share.now.partition work_items.now) }
{
    let mut own = Inboxes::new(alloc, work_items.len())?;
    for place in 0..work_items.len() {
        let (id, messages) = work_items.at(place);
        own = with_own(alloc, share, own, id, messages)?;
    }
    Ok(own)
}

/// These inboxes and a copy of one more, if that belongs to a partition.
fn with_own<M: Plain>(
    alloc: Global,
    share: &PartitionOf,
    work_items: Inboxes<M>,
    id: VertexId,
    messages: &[M],
) -> Result<Inboxes<M>, Memory>
    ensures { IfOk result
        (λ more. more ≡ work_items ++ own share.now.partitions share.now.partition ((id, messages.now) ∷ [])) }
{
    if share.has(id) {
        return work_items.with_copies(alloc, id, messages);
    }
    Ok(work_items)
}

/// These vertices, by rising id, with what is delivered to each; and where all are asked for, each that receives
/// something.
fn work_items<M: Plain, C: MessageCombiner<M>>(
    alloc: Global,
    bundles: &[&Bundle<M>],
    ids: &[VertexId],
    all: bool,
    combiner: &C,
) -> Result<Inboxes<M>, Memory>
    requires { IsStrictlySortedBy nat_cmp ids.now }
    ensures { IfOk result (λ work_items.
        AreWorkItems (C.combining combiner.now) (map (λ b. b.now) bundles.now) ids.now all work_items) }
{
    if all {
        return all_work_items(alloc, bundles, ids, combiner);
    }
    inboxes_at(alloc, bundles, ids, combiner)
}

/// These vertices, by rising id, and all that receive something. Where no vertex is given it costs what the inboxes do,
/// and else one pass over both besides, with a copy of each message.
fn all_work_items<M: Plain, C: MessageCombiner<M>>(
    alloc: Global,
    bundles: &[&Bundle<M>],
    ids: &[VertexId],
    combiner: &C,
) -> Result<Inboxes<M>, Memory>
    requires { IsStrictlySortedBy nat_cmp ids.now }
    ensures { IfOk result (λ work_items.
        AreWorkItems (C.combining combiner.now) (map (λ b. b.now) bundles.now) ids.now true work_items) }
{
    let inboxes = inboxes(alloc, bundles, combiner)?;
    if ids.is_empty() {
        return Ok(inboxes);
    }
    with_empty(alloc, ids, &inboxes)
}

/// Looks at the vertices that aren't halted and at all that receive something, and executes those that are active.
/// Costs what the executions and the inboxes do, and a walk over the records of the superstep before.
pub fn execute_cold<P: Computation, C: MessageCombiner<P::Message>>(
    alloc: Global,
    program: &P,
    combiner: &C,
    missing: Missing,
    share: PartitionOf,
    superstep: Superstep,
    trace: &Trace<P::Value, P::Message>,
    bundles: &[Bundle<P::Message>],
    step_context: StepContext,
) -> Result<StepDelta<P::Value, P::Message>, Memory>
    requires shown { ShowsDeclared (P.program program.now).declared step_context.view }
    requires fits { step_context.meter < 2 ^ 64 }
    ensures step_delta { IfOk result (λ step_delta.
        IsStepDelta P.Value.PartialEq.eq P.Message.PartialEq.eq (P.program program.now) missing
        (C.combining combiner.now) step_context.view share.partitions share.partition superstep trace.now
        bundles.now None (unhalted_ids superstep trace.now) true false step_context.meter step_delta) }
    ensures vertex_counts_delta { IfOk result (λ step_delta.
        IfSome step_delta.vertex_counts_delta
        (IsVertexCountsDelta superstep trace.now step_delta.dirty_ids.items step_delta.changes)) }
{
    let ids = unhalted_ids(alloc, trace, superstep)?;
    let refs = bundle_refs_of(alloc, bundles)?;
    let work_items = work_items(alloc, refs.as_slice(), ids.as_slice(), true, combiner)?;
    let work_items = own(alloc, &share, work_items)?;
    execute_work_items(
        alloc,
        program,
        missing,
        superstep,
        trace,
        &work_items,
        step_context,
    )
}

/// Looks at these vertices, with what is delivered to each, as they stand in the run, and executes those that are
/// active. No more than one of them is held at a time.
fn execute_work_items<P: Computation>(
    alloc: Global,
    program: &P,
    missing: Missing,
    superstep: Superstep,
    trace: &Trace<P::Value, P::Message>,
    work_items: &Inboxes<P::Message>,
    step_context: StepContext,
) -> Result<StepDelta<P::Value, P::Message>, Memory>
    requires shown { ShowsDeclared (P.program program.now).declared step_context.view }
    requires fits { step_context.meter < 2 ^ 64 }
    ensures dirty_ids { IfOk result (λ step_delta. step_delta.dirty_ids.items ≡ keys_of work_items.now) }
    ensures changes { IfOk result (λ step_delta. step_delta.changes
        ≡ flat_map (change_cold (P.program program.now) step_context.view)
        (map (cold (P.program program.now) missing superstep trace.now) work_items.now)) }
    ensures meter { IfOk result
        (λ step_delta. step_delta.meter ≡ capped
        (step_context.meter + count_by (λ c. is_some (reads step_context.view c.new))
        (map (cold (P.program program.now) missing superstep trace.now) work_items.now))) }
    ensures vertex_counts_delta { IfOk result (λ step_delta. IfSome step_delta.vertex_counts_delta
        (AreVertexCountsDelta (P.program program.now) step_context.view missing superstep trace.now work_items.now)) }
{
    let mut states = trace.states();
    let mut dirty_ids = Vec::with_capacity(alloc, work_items.len())?;
    let messages = room_for_messages(work_items.messages());
    let mut executor = Executor::of(alloc, program, step_context, work_items.len(), messages)?;
    let mut vertex_counts_delta = VertexCountsDelta::no_vertices();
    for place in 0..work_items.len() {
        let (id, delivered) = work_items.at(place);
        dirty_ids.push(id)?;
        let state = states.state_at(id, superstep);
        let found = state_by(alloc, program, missing, id, &state, delivered)?;
        let before = executor.len();
        execute_found(alloc, program, id, found, delivered, &mut executor)?;
        vertex_counts_delta = vertex_counts_delta.with(&state, &executor.given_at(before))?;
    }
    Ok(executor.into_step_delta(
        dirty_ids,
        vertex_counts_delta_next(trace, superstep, vertex_counts_delta),
    ))
}

/// For how many messages to make room where so many are received. Mostly about as many are sent. It is a guess: more of
/// them grow the list, which costs a copy of it, and fewer leave room, which is cut.
fn room_for_messages(received: usize) -> usize {
    received.saturating_add(received / 4)
}

/// Vertex counts before and after a superstep, where it comes next in a trace.
fn vertex_counts_delta_next<V: Drop, M: Drop>(
    trace: &Trace<V, M>,
    superstep: Superstep,
    vertex_counts_delta: VertexCountsDelta,
) -> Option<VertexCountsDelta>
    ensures { IfSome result (λ t. (t ≡ vertex_counts_delta) × (length trace.now.records ≡ superstep)) }
{
    if trace.supersteps() == superstep.number() as usize {
        return Some(vertex_counts_delta);
    }
    None
}

/// Looks at these vertices, in the new run and in the old one, and executes those that are active and don't read
/// what they read there. Where the old run saw something else, it looks at all that receive something too. Costs what
/// the executions and the inboxes do, and two look-ups for each vertex.
pub fn execute_warm<P: Computation, C: MessageCombiner<P::Message>>(
    alloc: Global,
    program: &P,
    combiner: &C,
    missing: Missing,
    share: PartitionOf,
    superstep: Superstep,
    trace: &Trace<P::Value, P::Message>,
    bundles: &[Bundle<P::Message>],
    old: &Trace<P::Value, P::Message>,
    old_bundles: &[Bundle<P::Message>],
    ids: &[VertexId],
    same_view: bool,
    step_context: StepContext,
) -> Result<StepDelta<P::Value, P::Message>, Memory>
    requires rise { IsStrictlySortedBy nat_cmp ids.now }
    requires shown { ShowsDeclared (P.program program.now).declared step_context.view }
    requires fits { step_context.meter < 2 ^ 64 }
    ensures { IfOk result (λ step_delta.
        IsStepDelta P.Value.PartialEq.eq P.Message.PartialEq.eq (P.program program.now) missing
        (C.combining combiner.now) step_context.view share.partitions share.partition superstep trace.now
        bundles.now (Some (old.now, old_bundles.now)) ids.now (not same_view) same_view step_context.meter step_delta) }
{
    let vertex_pairs = found_warm(
        alloc,
        program,
        combiner,
        missing,
        &share,
        superstep,
        trace,
        bundles,
        old,
        old_bundles,
        ids,
        same_view,
    )?;
    execute_pairs(alloc, program, vertex_pairs, same_view, step_context)
}

/// These vertices, in the new run and in the old one; and where the old run saw something else, all that receive
/// something too.
fn found_warm<P: Computation, C: MessageCombiner<P::Message>>(
    alloc: Global,
    program: &P,
    combiner: &C,
    missing: Missing,
    share: &PartitionOf,
    superstep: Superstep,
    trace: &Trace<P::Value, P::Message>,
    bundles: &[Bundle<P::Message>],
    old: &Trace<P::Value, P::Message>,
    old_bundles: &[Bundle<P::Message>],
    ids: &[VertexId],
    same_view: bool,
) -> Result<Vec<VertexPair<P::Value, P::Message>>, Memory>
    requires { IsStrictlySortedBy nat_cmp ids.now }
    ensures { IfOk result (λ vertex_pairs.
        AreFound P.Value.PartialEq.eq P.Message.PartialEq.eq (P.program program.now) missing (C.combining combiner.now)
        share.now.partitions share.now.partition superstep trace.now bundles.now (Some (old.now, old_bundles.now))
        ids.now
        (not same_view) vertex_pairs.items) }
{
    let refs = bundle_refs_of(alloc, bundles)?;
    let work_items = work_items(alloc, refs.as_slice(), ids, !same_view, combiner)?;
    let work_items = own(alloc, share, work_items)?;
    let old_refs = bundle_refs_of(alloc, old_bundles)?;
    candidates_warm(
        alloc,
        program,
        combiner,
        missing,
        superstep,
        trace,
        old,
        old_refs.as_slice(),
        &work_items,
    )
}

/// These vertices, with what is delivered to each, as they stand in the run and in the old one.
fn candidates_warm<P: Computation, C: MessageCombiner<P::Message>>(
    alloc: Global,
    program: &P,
    combiner: &C,
    missing: Missing,
    superstep: Superstep,
    trace: &Trace<P::Value, P::Message>,
    old: &Trace<P::Value, P::Message>,
    old_bundles: &[&Bundle<P::Message>],
    work_items: &Inboxes<P::Message>,
) -> Result<Vec<VertexPair<P::Value, P::Message>>, Memory>
    ensures ids { IfOk result
        (λ vertex_pairs. map (λ c. c.id) vertex_pairs.items ≡ keys_of work_items.now) }
    ensures new { IfOk result (λ vertex_pairs. map (λ c. c.new) vertex_pairs.items
        ≡ map (found_at (P.program program.now) missing superstep trace.now) work_items.now) }
    ensures old { IfOk result (λ vertex_pairs.
        AllByRecursion (λ c. IsFound (P.program program.now) missing (C.combining combiner.now) old.now superstep
        (map (λ b. b.now) old_bundles.now) c.id c.old) vertex_pairs.items) }
    ensures values { IfOk result (λ vertex_pairs. AllByRecursion
        (HaveValues P.Value.is_value P.Message.is_value) vertex_pairs.items) }
{
    let mut states = trace.states();
    let mut old_states = old.states();
    let mut vertex_pairs = Vec::with_capacity(alloc, work_items.len())?;
    for place in 0..work_items.len() {
        let (id, delivered) = work_items.at(place);
        let delivered = copied_messages(alloc, delivered)?;
        let new = vertex_at(
            alloc,
            program,
            missing,
            &mut states,
            superstep,
            id,
            delivered,
        )?;
        let old = found(
            alloc,
            program,
            combiner,
            missing,
            superstep,
            &mut old_states,
            old_bundles,
            id,
        )?;
        vertex_pairs.push(VertexPair { id, old, new })?;
    }
    Ok(vertex_pairs)
}

/// A vertex as it stands in a run.
fn found<P: Computation, C: MessageCombiner<P::Message>>(
    alloc: Global,
    program: &P,
    combiner: &C,
    missing: Missing,
    superstep: Superstep,
    states: &mut StateCursor<'_, P::Value, P::Message>,
    bundles: &[&Bundle<P::Message>],
    id: VertexId,
) -> Result<Option<VertexWithInbox<P::Value, P::Message>>, Memory>
    ensures found { IfOk result
        (λ x. IsFound (P.program program.now) missing (C.combining combiner.now) states.old superstep
        (map (λ b. b.now) bundles.now) id x) }
    ensures values { IfOk result (HasValues P.Value.is_value P.Message.is_value) }
    ensures same { states.new ≡ states.old }
{
    let delivered = inbox(alloc, bundles, id, combiner)?;
    vertex_at(
        alloc,
        program,
        missing,
        states,
        superstep,
        id,
        Sequence::from_vec(delivered),
    )
}
