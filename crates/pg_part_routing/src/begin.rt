//! A partition as a run begins.
ghost use Rattle.std.specs.Prelude.{◌≡◌, ◌++◌, ◌∷◌, [], map, IfOk, OnOk};
ghost use Rattle.std.specs.Option.{option_copied, option_map};
ghost use Rattle.pg_map.specs.Entries.{HasRisingIds};
ghost use Rattle.pg_model.specs.ByIds.{state_first};
ghost use Rattle.pg_part_routing.specs.Starting.{own, first_changes, first_states};

use crate::PartitionOf;
use pg_graph::{Cursor, Graph, Memory, Row, VertexId};
use pg_model::VertexState;
use pg_program::Computation;
use std::alloc::Global;

/// The states with which a partition's vertices begin, by rising id.
pub(crate) fn first_states<P: Computation>(
    alloc: Global,
    graph: &Graph,
    share: &PartitionOf,
    program: &P,
) -> Result<Vec<VertexState<P::Value>>, Memory>
    ensures states { IfOk result (λ states. states.items
        ≡ first_states (P.program program.now) graph.now share.now.partitions share.now.partition) }
    ensures rising { HasRisingIds graph.now }
{
    let mut states = Vec::new(alloc);
    for (id, row) in graph.iter() {
        add_state(alloc, &mut states, share, *id, row, program)?;
    }
    Ok(states)
}

/// Adds the state with which a vertex begins, if it belongs to the partition.
fn add_state<P: Computation>(
    alloc: Global,
    states: &mut Vec<VertexState<P::Value>>,
    share: &PartitionOf,
    id: VertexId,
    row: &Row,
    program: &P,
) -> Result<(), Memory>
    ensures { OnOk result (states.new.items ≡ states.old.items
        ++ map (λ r. state_first (P.program program.now) r.0 r.1)
        (own share.now.partitions share.now.partition ((id, row.now) ∷ []))) }
{
    if !share.has(id) {
        return Ok(());
    }
    states.push(begun(alloc, id, row, program)?)?;
    Ok(())
}

/// The state with which a vertex begins that has this row.
fn begun<P: Computation>(
    alloc: Global,
    id: VertexId,
    row: &Row,
    program: &P,
) -> Result<VertexState<P::Value>, Memory>
    ensures { IfOk result (λ state. state ≡ state_first (P.program program.now) id row.now) }
{
    Ok(VertexState {
        id,
        value: program.initial(alloc, id, row.input)?,
        edges: row.edges.copy()?,
        halted: false,
    })
}

/// The states with which those of these vertices begin that belong to a partition, or none where the graph hasn't
/// the vertex. Costs a look-up for each, which is cheaper where ids come near one another.
pub fn first_changes<P: Computation>(
    alloc: Global,
    graph: &Graph,
    share: &PartitionOf,
    ids: &[VertexId],
    program: &P,
) -> Result<Vec<(VertexId, Option<VertexState<P::Value>>)>, Memory>
    ensures changes { IfOk result (λ changes. changes.items
        ≡ first_changes (P.program program.now) graph.now share.now.partitions share.now.partition ids.now) }
    ensures rising { HasRisingIds graph.now }
{
    let mut rows = graph.cursor();
    let mut changes = Vec::new(alloc);
    for id in ids {
        add_change(alloc, &mut changes, &mut rows, share, *id, program)?;
    }
    Ok(changes)
}

/// Adds the state with which a vertex begins, or that it has none, if it belongs to the partition.
fn add_change<P: Computation>(
    alloc: Global,
    changes: &mut Vec<(VertexId, Option<VertexState<P::Value>>)>,
    rows: &mut Cursor<'_, Row>,
    share: &PartitionOf,
    id: VertexId,
    program: &P,
) -> Result<(), Memory>
    ensures changes { OnOk result (changes.new.items ≡ changes.old.items
        ++ first_changes (P.program program.now) rows.old share.now.partitions share.now.partition (id ∷ [])) }
    ensures same { rows.new ≡ rows.old }
{
    if !share.has(id) {
        return Ok(());
    }
    let state = first_state(alloc, rows.get(id), id, program)?;
    changes.push((id, state))?;
    Ok(())
}

/// The state with which a vertex begins, if it has a row.
fn first_state<P: Computation>(
    alloc: Global,
    row: Option<&Row>,
    id: VertexId,
    program: &P,
) -> Result<Option<VertexState<P::Value>>, Memory>
    ensures { IfOk result (λ state.
        state ≡ option_map (state_first (P.program program.now) id) (option_copied row.entry)) }
{
    match row {
        Some(row) => Ok(Some(begun(alloc, id, row, program)?)),
        None => Ok(None),
    }
}
