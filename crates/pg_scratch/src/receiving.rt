//! What becomes of the messages of a superstep.
ghost use Rattle.std.specs.Prelude.{◌≡◌, [], IfOk};
ghost use Rattle.std.specs.List.{AllByRecursion};
ghost use Rattle.std.specs.List.Sorted.{IsStrictlySortedBy};
ghost use Rattle.std.specs.Ordering.{nat_cmp};
ghost use Rattle.pg_model.specs.Superstep.{ids as ids_of};
ghost use Rattle.pg_model.specs.declared.configuration.VertexWithInbox.{VertexWithInbox};
ghost use Rattle.pg_scratch.specs.Received.{HasReceived};
ghost use Rattle.pg_scratch.specs.Worklist.{ListsActive};

use crate::delivery::{arranged, deliver};
use crate::undeliverable::{Undeliverable, route_undeliverable};
use crate::vertex_table::VertexTable;
use crate::worklist::active_in_order;
use pg_global::MessageCombiner;
use pg_graph::{Memory, Missing, VertexId};
use pg_model::{Sequence, VertexWithInbox};
use pg_program::Plain;
use std::alloc::Global;

/// What the messages of a superstep make of its vertices, what becomes of those to ids that have no state, and
/// the list that they stood on, in any order, whose memory can be used again.
#[derive(Drop)]
pub struct Received<V, M> {
    pub vertex_table: VertexTable<V, M>,
    pub undeliverable: Undeliverable<M>,
    pub sent: Vec<(VertexId, M)>,
}

/// Delivers the messages of a superstep to its vertices, whose inboxes are empty: each has received then what was
/// sent to its id, in the order in which it was sent, and combined where the combiner combines. Those to ids that
/// have no state are dropped, or wait for the superstep that makes vertices of them. `vertex_table.work` lists the
/// places of the active vertices before, and the answer's those of the active ones after.
///
/// # Cost
///
/// The messages times the logarithm of their number and of the vertices', and where more than one message for
/// eight vertices was sent, one walk over the vertices.
pub fn receive<V: Drop, M: Plain, C: MessageCombiner<M>>(
    alloc: Global,
    combiner: &C,
    missing: Missing,
    vertex_table: VertexTable<V, M>,
    sent: Sequence<(VertexId, M)>,
) -> Result<Received<V, M>, Memory>
    requires ids { vertex_table.ids ≡ ids_of vertex_table.with_inboxes.items }
    requires rising { IsStrictlySortedBy nat_cmp vertex_table.ids }
    requires empty { AllByRecursion (λ (x : VertexWithInbox V M). x.inbox ≡ []) vertex_table.with_inboxes.items }
    requires lists { ListsActive vertex_table.with_inboxes.items vertex_table.work.items }
    ensures { IfOk result (λ r. HasReceived (C.combining combiner.now) missing vertex_table sent r) }
{
    let VertexTable {
        mut with_inboxes,
        ids,
        mut work,
    } = vertex_table;
    let mut undeliverables = Vec::new(alloc);
    let sent = arranged(sent.into_vec(), with_inboxes.len())?;
    let is_listed = sent.len() <= with_inboxes.len() / 8;
    deliver(
        alloc,
        combiner,
        &ids,
        &mut with_inboxes,
        sent.as_slice(),
        &mut undeliverables,
        is_listed,
        &mut work,
    )?;
    let work = active_in_order(alloc, with_inboxes.as_slice(), is_listed, work)?;
    let undeliverable = route_undeliverable(alloc, combiner, missing, undeliverables)?;
    Ok(Received {
        vertex_table: VertexTable {
            with_inboxes,
            ids,
            work,
        },
        undeliverable,
        sent,
    })
}
