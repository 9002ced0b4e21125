//! Rows whose edges lie side by side in memory.
ghost use Rattle.std.specs.Prelude.{◌≡◌, [], ◌∷◌, ◌++◌, IfOk, OnOk};
ghost use Rattle.pg_graph_rows.specs.Packing.{AreParts, rows_of};

use crate::{Edges, Memory, Row, VertexId};
use pg_map::Pack;
use std::alloc::Global;
use std::marker::Model;
use std::mem;
use std::sync::Arc;

/// A row with more edges keeps its own list.
pub(crate) const LARGE: usize = 256;

/// The edges of rows that stand side by side come to lie side by side in one list, so that a walk over
/// the rows goes through memory in order.
impl Pack for Row {
    fn packed(
        alloc: Global,
        entries: &[(VertexId, Row)],
    ) -> Result<Option<Vec<(VertexId, Row)>>, Memory> {
        if !are_fragmented(entries) {
            return Ok(None);
        }
        let mut packing = Packing::new(alloc, entries.len(), room_of(entries))?;
        for (id, row) in entries {
            packing.push(alloc, *id, row)?;
        }
        Ok(Some(packing.finish(alloc)?))
    }
}

/// Whether the edges of more than half of these rows don't lie behind those of the row before,
/// large ones and rows without edges aside. Two lists that meet at the same place are taken for one.
fn are_fragmented(rows: &[(VertexId, Row)]) -> bool {
    let mut fragmented: usize = 0;
    let mut end: usize = 0;
    for (_, row) in rows {
        let (first, after) = row.edges.places();
        let degree = after.saturating_sub(first);
        if degree > 0 && degree <= LARGE {
            fragmented = fragmented.saturating_add(usize::from(first != end));
            end = after;
        }
    }
    fragmented > rows.len() / 2
}

/// How many edges these rows have, but for those of large ones.
fn room_of(rows: &[(VertexId, Row)]) -> usize {
    let mut room: usize = 0;
    for (_, row) in rows {
        let (first, after) = row.edges.places();
        let degree = after.saturating_sub(first);
        if degree <= LARGE {
            room = room.saturating_add(degree);
        }
    }
    room
}

/// A row without its edges, which are a part of a list.
#[derive(Drop)]
pub(crate) struct Waiting {
    pub(crate) id: VertexId,
    pub(crate) input: i64,
    pub(crate) first: usize,
    pub(crate) degree: usize,
}

/// Rows one after another. The last ones wait until the list of their edges is whole. A contract sees
/// all rows so far.
#[derive(Drop)]
struct Packing {
    done: Vec<(VertexId, Row)>,
    waiting: Vec<Waiting>,
    edges: Vec<(VertexId, i64)>,
}

impl Model for Packing {
    ghost use Rattle.std.specs.Prelude.{◌++◌, ℕ, List};
    ghost use Rattle.pg_graph_rows.specs.declared.row.Row.{Row};
    ghost use Rattle.pg_graph_rows.specs.Packing.{AreParts, rows_of};

    ghost Value = { List (ℕ × Row) };

    ghost view = { λ p. p.done.items ++ rows_of p.waiting.items p.edges.items };

    ghost invariant = { λ p. AreParts p.waiting.items p.edges.items };
}

impl Packing {
    /// No rows, with room for so many rows and edges.
    fn new(alloc: Global, rows: usize, edges: usize) -> Result<Packing, Memory>
        ensures { IfOk result (λ packing. packing ≡ []) }
    {
        Ok(Packing {
            done: Vec::with_capacity(alloc, rows)?,
            waiting: Vec::with_capacity(alloc, rows)?,
            edges: Vec::with_capacity(alloc, edges)?,
        })
    }

    /// Adds a row.
    fn push(&mut self, alloc: Global, id: VertexId, row: &Row) -> Result<(), Memory>
        ensures { OnOk result (self.new ≡ self.old ++ (id, row.now) ∷ []) }
    {
        if row.edges.as_slice().len() > LARGE {
            compact(alloc, &mut self.done, &mut self.waiting, &mut self.edges)?;
            self.done.push((id, row.copy()?))?;
            return Ok(());
        }
        self.wait(id, row)
    }

    /// Adds a row that waits.
    fn wait(&mut self, id: VertexId, row: &Row) -> Result<(), Memory>
        ensures { OnOk result (self.new ≡ self.old ++ (id, row.now) ∷ []) }
    {
        let edges = row.edges.as_slice();
        let first = self.edges.len();
        self.edges.extend_from_slice(edges)?;
        self.waiting.push(Waiting {
            id,
            input: row.input,
            first,
            degree: edges.len(),
        })?;
        Ok(())
    }

    /// All rows.
    fn finish(self, alloc: Global) -> Result<Vec<(VertexId, Row)>, Memory>
        ensures { IfOk result (λ rows. rows.items ≡ self) }
    {
        let Packing {
            mut done,
            waiting,
            edges,
        } = self;
        add_rows(alloc, &mut done, waiting.as_slice(), edges)?;
        Ok(done)
    }
}

/// Makes rows of all that wait, and begins a new list of edges.
fn compact(
    alloc: Global,
    done: &mut Vec<(VertexId, Row)>,
    waiting: &mut Vec<Waiting>,
    edges: &mut Vec<(VertexId, i64)>,
) -> Result<(), Memory>
    requires { AreParts waiting.old.items edges.old.items }
    ensures parts { AreParts waiting.new.items edges.new.items }
    ensures rows { OnOk result (done.new.items ≡ done.old.items ++ rows_of waiting.old.items edges.old.items) }
    ensures none { OnOk result (waiting.new.items ≡ []) }
{
    let rows = mem::replace(waiting, Vec::new(alloc));
    let list = mem::replace(edges, Vec::new(alloc));
    add_rows(alloc, done, rows.as_slice(), list)
}

/// Adds rows whose edges are parts of a list.
fn add_rows(
    alloc: Global,
    rows: &mut Vec<(VertexId, Row)>,
    waiting: &[Waiting],
    edges: Vec<(VertexId, i64)>,
) -> Result<(), Memory>
    requires { AreParts waiting.now edges.items }
    ensures { OnOk result (rows.new.items ≡ rows.old.items ++ rows_of waiting.now edges.items) }
{
    let edges = Arc::new(alloc, edges)?;
    for row in waiting {
        let part = Edges::part(&edges, row.first, row.degree)?;
        rows.push((
            row.id,
            Row {
                input: row.input,
                edges: part,
            },
        ))?;
    }
    Ok(())
}
