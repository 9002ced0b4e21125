//! Messages to ids that have no state.
ghost use Rattle.std.specs.Prelude.{◌≡◌, map, IfOk};
ghost use Rattle.pg_model.specs.Superstep.{targets, waiting_after, dropped_count};
ghost use Rattle.pg_graph.specs.declared.missing.Missing.TheVariants.{Create};
ghost use Rattle.pg_scratch.specs.Undeliverable.{blank};

use crate::delivery::deliver;
use crate::ids::IdIndex;
use crate::worklist::put_ids_in_order;
use pg_global::MessageCombiner;
use pg_graph::{Edges, Memory, Missing, VertexId};
use pg_model::{Sequence, VertexState, VertexWithInbox};
use pg_program::Plain;
use std::alloc::Global;

/// What becomes of messages that were undeliverable: what waits for their targets, and how many are dropped.
#[derive(Drop)]
pub struct Undeliverable<M> {
    pub waiting: Sequence<(VertexId, Sequence<M>)>,
    pub dropped: u64,
}

/// Drops messages that were undeliverable, or lets them wait for their targets.
pub(crate) fn route_undeliverable<M: Plain, C: MessageCombiner<M>>(
    alloc: Global,
    combiner: &C,
    missing: Missing,
    undeliverables: Vec<(VertexId, M)>,
) -> Result<Undeliverable<M>, Memory>
    ensures waiting { IfOk result
        (λ a. a.waiting ≡ waiting_after missing (C.combining combiner.now) undeliverables.items) }
    ensures dropped { IfOk result (λ a. a.dropped ≡ dropped_count missing undeliverables.items) }
{
    match missing {
        Missing::Drop => Ok(Undeliverable {
            waiting: Sequence::new(alloc),
            dropped: undeliverables.len() as u64,
        }),
        Missing::Create => Ok(Undeliverable {
            waiting: waiting_of(alloc, combiner, undeliverables)?,
            dropped: 0,
        }),
    }
}

/// The inboxes of the targets of messages, by rising id. Costs the messages times the logarithm of their number.
fn waiting_of<M: Plain, C: MessageCombiner<M>>(
    alloc: Global,
    combiner: &C,
    undeliverables: Vec<(VertexId, M)>,
) -> Result<Sequence<(VertexId, Sequence<M>)>, Memory>
    ensures { IfOk result (λ w. w ≡ waiting_after Create (C.combining combiner.now) undeliverables.items) }
{
    let ids = targets_of(alloc, undeliverables.as_slice())?;
    let mut blanks = blanks_of(alloc, ids.as_slice())?;
    let ids = IdIndex::new(alloc, ids)?;
    let mut receivers = Vec::new(alloc);
    let mut lost = Vec::new(alloc);
    deliver(
        alloc,
        combiner,
        &ids,
        &mut blanks,
        undeliverables.as_slice(),
        &mut lost,
        false,
        &mut receivers,
    )?;
    let inboxes = inboxes_of(alloc, blanks)?;
    Ok(inboxes)
}

/// The targets of messages, rising, each once.
fn targets_of<M>(alloc: Global, sent: &[(VertexId, M)]) -> Result<Vec<VertexId>, Memory>
    ensures { IfOk result (λ ids. ids.items ≡ targets sent.now) }
{
    let mut ids = each_target(alloc, sent)?;
    put_ids_in_order(&mut ids);
    Ok(ids)
}

/// The target of each message.
fn each_target<M>(alloc: Global, sent: &[(VertexId, M)]) -> Result<Vec<VertexId>, Memory>
    ensures { IfOk result (λ ids. ids.items ≡ map (λ m. m.0) sent.now) }
{
    let mut ids = Vec::with_capacity(alloc, sent.len())?;
    for (target, _) in sent {
        ids.push(*target)?;
    }
    Ok(ids)
}

/// Vertices of these ids that stand for nothing but their inboxes.
fn blanks_of<M: Drop>(
    alloc: Global,
    ids: &[VertexId],
) -> Result<Vec<VertexWithInbox<bool, M>>, Memory>
    ensures { IfOk result (λ xs. xs.items ≡ map blank ids.now) }
{
    let mut blanks = Vec::with_capacity(alloc, ids.len())?;
    for id in ids {
        let state = VertexState {
            id: *id,
            value: false,
            edges: Edges::new(),
            halted: true,
        };
        blanks.push(VertexWithInbox {
            state,
            inbox: Sequence::new(alloc),
        })?;
    }
    Ok(blanks)
}

/// The inboxes of vertices, with their ids.
fn inboxes_of<M: Drop>(
    alloc: Global,
    blanks: Vec<VertexWithInbox<bool, M>>,
) -> Result<Sequence<(VertexId, Sequence<M>)>, Memory>
    ensures { IfOk result (λ w. w ≡ map (λ x. (x.state.id, x.inbox)) blanks.items) }
{
    let mut inboxes = Sequence::new(alloc);
    for blank in blanks {
        let VertexWithInbox { state, inbox } = blank;
        inboxes.push((state.id, inbox))?;
    }
    Ok(inboxes)
}
