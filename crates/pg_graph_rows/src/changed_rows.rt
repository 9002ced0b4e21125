//! Changed rows, gathered one after another with their edges in few lists.
ghost use Rattle.std.specs.Prelude.{◌≡◌, [], ◌∷◌, ◌++◌, IfOk, OnOk};
ghost use Rattle.std.specs.Option.{option_copied};
ghost use Rattle.pg_graph_rows.specs.ChangedRows.{Edited, changes_of, degree_of};
ghost use Rattle.pg_graph_rows.specs.Packing.{AreParts};

use crate::last_row::add_edited;
use crate::packing::{LARGE, Waiting};
use crate::vertex::vertex_after;
use crate::{DraftRow, Edges, Edit, EditFault, Memory, Row, VertexId};
use std::alloc::Global;
use std::marker::Model;
use std::mem;
use std::sync::Arc;

/// A list takes rows until it has so many edges.
const FULL: usize = 4096;

/// What becomes of vertices: a row, or none. The last rows wait until the list of their edges is whole,
/// which each has for itself where the edges aren't gathered. A contract sees all so far.
pub struct ChangedRows {
    gathers: bool,
    done: Vec<(VertexId, Option<Row>)>,
    waiting: Vec<Waiting>,
    edges: Vec<(VertexId, i64)>,
}

// By hand, so that it is let go by one call wherever that is, and not field by field.
impl Drop for ChangedRows {
    fn drop(self) {
        let ChangedRows {
            gathers: _,
            done: _,
            waiting: _,
            edges: _,
        } = self;
    }
}

impl Model for ChangedRows {
    ghost use Rattle.std.specs.Prelude.{◌++◌};
    ghost use Rattle.pg_graph_rows.specs.ChangedRows.{RowChanges, changes_of};
    ghost use Rattle.pg_graph_rows.specs.Packing.{AreParts};

    ghost Value = { RowChanges };

    ghost view = { λ c. c.done.items ++ changes_of c.waiting.items c.edges.items };

    ghost invariant = { λ c. AreParts c.waiting.items c.edges.items };
}

impl ChangedRows {
    /// None yet, with room for so many. With `gathers` the edges of rows are gathered in common lists. Such a list
    /// stays until none of its rows remains, so this is for changes of many rows, which lead to rows being laid anew
    /// before long.
    pub fn new(alloc: Global, rows: usize, gathers: bool) -> Result<ChangedRows, Memory>
        ensures { IfOk result (λ changed. changed ≡ []) }
    {
        Ok(ChangedRows {
            gathers,
            done: Vec::with_capacity(alloc, rows)?,
            waiting: Vec::new(alloc),
            edges: Vec::new(alloc),
        })
    }

    /// Makes edits of one vertex, with their places, of its row, if it has one, one after another, and adds
    /// what becomes of it. Says how many edges it has then. The inner fault is the first edit that has no
    /// result, and why; then nothing is added. What the limits of a graph forbid isn't asked here.
    ///
    /// With d edges and k edits it costs O((d + k) k) where d + k is at most 256, and O((d + k) log(d + k))
    /// elsewhere.
    ///
    /// # Errors
    ///
    /// Where a growth is refused; nothing is said of what was added so far then.
    pub fn edit(
        &mut self,
        alloc: Global,
        id: VertexId,
        row: Option<&Row>,
        edits: &[(u64, Edit)],
    ) -> Result<Result<u64, EditFault>, Memory>
        ensures { IfOk result (Edited id (option_copied row.entry) edits.now self.old self.new) }
    {
        if is_large(row, edits.len()) {
            self.edit_large(alloc, id, row, edits)
        } else {
            self.edit_small(alloc, id, row, edits)
        }
    }

    /// Edits a row, as `edit` does, in the list in which the edges of the rows before it lie.
    fn edit_small(
        &mut self,
        alloc: Global,
        id: VertexId,
        row: Option<&Row>,
        edits: &[(u64, Edit)],
    ) -> Result<Result<u64, EditFault>, Memory>
        ensures { IfOk result (Edited id (option_copied row.entry) edits.now self.old self.new) }
    {
        self.make_room(alloc)?;
        let first = self.edges.len();
        let input = match add_edited(&mut self.edges, row, edits)? {
            Ok(input) => input,
            Err(fault) => return Ok(Err(fault)),
        };
        let degree = self.edges.len() - first;
        match input {
            Some(input) => self.waiting.push(Waiting {
                id,
                input,
                first,
                degree,
            })?,
            None => self.push_done(alloc, id, None)?,
        }
        Ok(Ok(degree as u64))
    }

    /// Edits a row, as `edit` does, in a list of its own.
    fn edit_large(
        &mut self,
        alloc: Global,
        id: VertexId,
        row: Option<&Row>,
        edits: &[(u64, Edit)],
    ) -> Result<Result<u64, EditFault>, Memory>
        ensures { IfOk result (Edited id (option_copied row.entry) edits.now self.old self.new) }
    {
        let changed = match vertex_after(alloc, row, edits)? {
            Ok(changed) => changed,
            Err(fault) => return Ok(Err(fault)),
        };
        let degree = degree_of(&changed);
        let row = match changed {
            Some(row) => Some(row.into_row(alloc)?),
            None => None,
        };
        self.push_done(alloc, id, row)?;
        Ok(Ok(degree))
    }

    /// Makes room for one more row that waits.
    fn make_room(&mut self, alloc: Global) -> Result<(), Memory>
        ensures { OnOk result (self.new ≡ self.old) }
    {
        if self.gathers {
            if self.edges.len() >= FULL {
                self.begin_list(alloc)?;
            }
            return Ok(());
        }
        compact(alloc, &mut self.done, &mut self.waiting, &mut self.edges)
    }

    /// Begins a new list of edges, with room until it is full.
    fn begin_list(&mut self, alloc: Global) -> Result<(), Memory>
        ensures { OnOk result (self.new ≡ self.old) }
    {
        compact(alloc, &mut self.done, &mut self.waiting, &mut self.edges)?;
        self.edges = Vec::with_capacity(alloc, FULL + LARGE)?;
        Ok(())
    }

    /// Adds what becomes of a vertex, which waits for nothing.
    fn push_done(&mut self, alloc: Global, id: VertexId, row: Option<Row>) -> Result<(), Memory>
        ensures { OnOk result (self.new ≡ self.old ++ (id, row) ∷ []) }
    {
        compact(alloc, &mut self.done, &mut self.waiting, &mut self.edges)?;
        self.done.push((id, row))?;
        Ok(())
    }

    /// All of them.
    pub fn finish(self, alloc: Global) -> Result<Vec<(VertexId, Option<Row>)>, Memory>
        ensures { IfOk result (λ rows. rows.items ≡ self) }
    {
        let ChangedRows {
            gathers: _,
            mut done,
            mut waiting,
            mut edges,
        } = self;
        compact(alloc, &mut done, &mut waiting, &mut edges)?;
        Ok(done)
    }
}

/// Whether a row has so many edges that, with so many edits, it gets a list of its own.
fn is_large(row: Option<&Row>, edits: usize) -> bool {
    let edges = match row {
        Some(row) => row.edges.as_slice().len(),
        None => 0,
    };
    edges.saturating_add(edits) > LARGE
}

/// How many edges a row has, if it is there.
fn degree_of(row: &Option<DraftRow>) -> u64
    ensures { result ≡ degree_of row.now }
{
    match row {
        Some(row) => row.degree(),
        None => 0,
    }
}

/// Makes rows of all that wait, and begins a new list of edges.
fn compact(
    alloc: Global,
    done: &mut Vec<(VertexId, Option<Row>)>,
    waiting: &mut Vec<Waiting>,
    edges: &mut Vec<(VertexId, i64)>,
) -> Result<(), Memory>
    requires { AreParts waiting.old.items edges.old.items }
    ensures parts { AreParts waiting.new.items edges.new.items }
    ensures rows { OnOk result (done.new.items ≡ done.old.items ++ changes_of waiting.old.items edges.old.items) }
    ensures none { OnOk result (waiting.new.items ≡ []) }
{
    if waiting.is_empty() {
        return Ok(());
    }
    let mut rows = mem::replace(waiting, Vec::new(alloc));
    let mut list = mem::replace(edges, Vec::new(alloc));
    list.shrink_to_fit();
    add_rows(alloc, done, rows.as_slice(), list)?;
    // The next rows wait in the same memory.
    rows.clear();
    *waiting = rows;
    Ok(())
}

/// Adds rows whose edges are parts of a list.
fn add_rows(
    alloc: Global,
    rows: &mut Vec<(VertexId, Option<Row>)>,
    waiting: &[Waiting],
    edges: Vec<(VertexId, i64)>,
) -> Result<(), Memory>
    requires { AreParts waiting.now edges.items }
    ensures { OnOk result (rows.new.items ≡ rows.old.items ++ changes_of waiting.now edges.items) }
{
    let edges = Arc::new(alloc, edges)?;
    for row in waiting {
        let part = Edges::part(&edges, row.first, row.degree)?;
        let input = row.input;
        rows.push((row.id, Some(Row { input, edges: part })))?;
    }
    Ok(())
}
