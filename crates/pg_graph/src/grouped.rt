//! A batch that can't meet a limit: its edits are made of one vertex after another.
ghost use Rattle.std.specs.Prelude.{◌≡◌, ◌⊎◌, ◌+◌, ◌≤◌, true, false, length, map, nat_le, Ok, IfOk, IfErr, MatchResult};
ghost use Rattle.pg_map.specs.Entries.{with_changes};
ghost use Rattle.std.specs.List.Sorted.{IsPartitionPoint};
ghost use Rattle.std.specs.Option.{option_copied};
ghost use Rattle.pg_sort.specs.ById.{AreById, StandAt};
ghost use Rattle.pg_graph_rows.specs.ChangedRows.{degree_of};
ghost use Rattle.pg_graph_rows.specs.EditFault.{memory_fault};
ghost use Rattle.pg_graph.specs.Draft.{Makes};
ghost use Rattle.pg_graph.specs.Edit.{batch_edited, RefusesBatch, batch_limit};
ghost use Rattle.pg_graph.specs.Grouped.{AreCounted, AreGrouped, EditedRowsRise, IsFirst, RiseBySource, RowRises};
ghost use Rattle.pg_graph.specs.Grouped.{earlier_of};
ghost use Rattle.pg_graph.specs.RowEdit.{AreRowsMade, HasRoom, IsEarliestFault, edges_added, placed, vertices_added};
ghost use Rattle.pg_graph_rows.specs.RowEdit.{source_of};
ghost use Rattle.pg_graph.specs.Rows.{HasRisingIds, edge_count, vertex_count};

use crate::draft::RowChanges;
use crate::{Batch, Edit, EditFault, Graph, Memory, Row, VertexId};
use pg_graph_rows::ChangedRows;
use pg_map::is_at_most;
use pg_sort::sorted_by_id;
use std::alloc::{AllocError, Global};

/// Each changed row pays for a look at so many.
const ROWS_TO_PAY: u64 = 64;

/// What a batch that can't meet a limit changes, or the first of its edits that has no result.
///
/// With k edits it puts them in order by vertex in O(k), looks up each vertex once, and copies the edges
/// of each that is edited.
pub(crate) fn changes_by_vertex(
    alloc: Global,
    graph: &Graph,
    batch: &Batch,
) -> Result<RowChanges, EditFault>
    requires rising { HasRisingIds graph.now }
    requires short { length batch.now ≤ batch_limit }
    requires room { HasRoom (vertex_count graph.now) (edge_count graph.now) (vertices_added batch.now)
        (edges_added batch.now) }
    ensures ok { IfOk result (λ changes. Makes graph.now (with_changes changes.rows.items graph.now) changes) }
    ensures made { IfOk result
        (λ changes. batch_edited graph.now batch.now ≡ Ok (with_changes changes.rows.items graph.now)) }
    ensures rows { IfOk result
        (λ changes. AreRowsMade graph.now batch.now (with_changes changes.rows.items graph.now)) }
    ensures err { IfErr result (RefusesBatch graph.now batch.now) }
    ensures first { IfErr result (λ fault. (fault ≡ memory_fault) ⊎ IsEarliestFault graph.now batch.now fault) }
{
    let edits = by_vertex(alloc, batch)?;
    dealt_with(alloc, graph, edits.as_slice())?
}

/// The edits of a batch with their places from 1, by rising vertex. Those of one vertex keep their order.
fn by_vertex(alloc: Global, batch: &Batch) -> Result<Vec<(u64, Edit)>, Memory>
    requires { length batch.now ≤ batch_limit }
    ensures { IfOk result (λ edits. AreGrouped batch.now edits.items) }
{
    let edits = batch.as_slice();
    let order = sorted_by_id(alloc, edits)?;
    placed_at(alloc, edits, order.as_slice())
}

/// The edits that stand at these places, with their places from 1.
fn placed_at(
    alloc: Global,
    edits: &[Edit],
    order: &[(usize, VertexId)],
) -> Result<Vec<(u64, Edit)>, Memory>
    requires short { length edits.now ≤ batch_limit }
    requires order { AreById (map source_of edits.now) order.now }
    ensures { IfOk result (λ made. StandAt (placed 1 edits.now) order.now made.items) }
{
    let mut made = Vec::with_capacity(alloc, order.len())?;
    for (place, _) in order {
        made.push((*place as u64 + 1, edits[*place]))?;
    }
    Ok(made)
}

/// What edits by rising vertex make of each, or the first fault of all.
fn dealt_with(
    alloc: Global,
    graph: &Graph,
    edits: &[(u64, Edit)],
) -> Result<Result<RowChanges, EditFault>, Memory>
    requires rising { HasRisingIds graph.now }
    requires edits_rise { RiseBySource edits.now }
    ensures made { IfOk result
        (λ made. MatchResult made (AreCounted graph.now edits.now) (IsFirst graph.now edits.now)) }
    ensures rows_rise { IfOk result (λ _. EditedRowsRise graph.now edits.now) }
{
    let vertices = vertices_of(edits);
    let mut rows = ChangedRows::new(alloc, vertices, is_many(vertices as u64, graph.vertices()))?;
    let mut cursor = graph.cursor();
    let mut edges = graph.edges();
    let mut fault = None;
    let mut remaining = edits;
    while let Some((first, _)) = remaining.split_first() {
        let id = first.1.source();
        let (here, later) = remaining.split_at(count_of(remaining, id));
        let row = cursor.get(id);
        let had = degree_of(row);
        match rows.edit(alloc, id, row, here)? {
            Ok(degree) => edges = edges_with(edges, had, degree)?,
            Err(found) => fault = Some(earlier(fault, found)),
        }
        remaining = later;
    }
    match fault {
        Some(fault) => Ok(Err(fault)),
        None => {
            let rows = rows.finish(alloc)?;
            Ok(Ok(RowChanges { rows, edges }))
        }
    }
}

/// Rows are laid anew once so many times as many have been changed as there are.
pub(crate) const ROUNDS: u64 = 2;

/// Whether so many rows are changed that a walk over all of them is paid for.
pub(crate) fn is_many(changed: u64, vertices: u64) -> bool {
    changed.saturating_mul(ROWS_TO_PAY) >= vertices
}

/// How many vertices edits have that stand by rising vertex.
fn vertices_of(edits: &[(u64, Edit)]) -> usize {
    let mut vertices: usize = 0;
    let mut last = None;
    for (_, edit) in edits {
        let id = Some(edit.source());
        vertices = vertices.saturating_add(usize::from(last != id));
        last = id;
    }
    vertices
}

/// How many edits at the beginning are of a vertex or one below it. Costs as much as there are.
fn count_of(edits: &[(u64, Edit)], id: VertexId) -> usize
    requires { RiseBySource edits.now }
    ensures bound { result ≤ length edits.now }
    ensures parts { IsPartitionPoint (λ e. nat_le (source_of e.1) id ≡ true) (λ e. nat_le (source_of e.1) id ≡ false)
        edits.now result }
{
    for (count, edit) in edits.iter().enumerate() {
        if !is_at_most(edit.1.source(), id) {
            return count;
        }
    }
    edits.len()
}

/// The earlier of two faults, where there is a first.
fn earlier(fault: Option<EditFault>, found: EditFault) -> EditFault
    ensures { result ≡ earlier_of fault found }
{
    match fault {
        Some(fault) if fault.position <= found.position => fault,
        _ => found,
    }
}

/// How many edges there are, once a row that had so many has so many.
fn edges_with(edges: u64, had: u64, has: u64) -> Result<u64, Memory>
    requires { had ≤ edges }
    ensures { IfOk result (λ n. n + had ≡ edges + has) }
{
    (edges - had).checked_add(has).ok_or(AllocError)
}

/// How many edges a row has, if it is there. They rise, which no list of rows says.
fn degree_of(row: Option<&Row>) -> u64
    ensures degree { result ≡ degree_of (option_copied row.entry) }
    ensures rises { RowRises (option_copied row.entry) }
{
    match row {
        Some(row) => row.edges.as_slice().len() as u64,
        None => 0,
    }
}
