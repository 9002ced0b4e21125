//! Edits of a graph, and why a batch of them is refused.
ghost use Rattle.std.specs.Prelude.{◌≡◌, ◌≢◌};

use crate::{Memory, VertexId};
use pg_sort::HasId;
use thiserror::Error;

/// One edit of a graph.
#[derive(Clone, Copy, Debug, PartialEq, Eq)]
pub enum Edit {
    /// Adds a vertex with this input and no edges.
    AddVertex(VertexId, i64),
    /// Removes a vertex with its out-edges. Edges of others to it stay.
    RemoveVertex(VertexId),
    /// Sets the input of a vertex.
    SetInput(VertexId, i64),
    /// Adds an edge from the first to the second with this weight. The second need not be there.
    AddEdge(VertexId, VertexId, i64),
    /// Sets the weight of an edge.
    SetEdge(VertexId, VertexId, i64),
    /// Removes an edge.
    RemoveEdge(VertexId, VertexId),
}

impl Edit {
    ghost use Rattle.pg_graph_rows.specs.RowEdit.{source_of};

    /// The vertex whose row the edit changes.
    pub fn source(self) -> VertexId
        ensures { result ≡ source_of self }
    {
        match self {
            Edit::AddVertex(id, _) => id,
            Edit::RemoveVertex(id) => id,
            Edit::SetInput(id, _) => id,
            Edit::AddEdge(source, _, _) => source,
            Edit::SetEdge(source, _, _) => source,
            Edit::RemoveEdge(source, _) => source,
        }
    }
}

/// The vertex whose row an edit changes.
impl HasId for Edit {
    ghost use Rattle.pg_graph_rows.specs.RowEdit.{source_of};

    ghost id_of = { source_of };

    fn id(&self) -> VertexId {
        self.source()
    }
}

/// Why a batch was refused. Its number is that of the answer `refused`.
#[derive(Clone, Copy, Debug, PartialEq, Eq)]
pub enum EditKind {
    /// 1: a growth was refused.
    Memory,
    /// 2: the vertex to be added is there.
    VertexExists,
    /// 3: the vertex, or an edge's source, isn't there.
    NoVertex,
    /// 4: the edge to be added is there.
    EdgeExists,
    /// 5: the edge to be set or removed isn't there.
    NoEdge,
    /// 6: a batch has more than 100,000 edits.
    BatchTooLong,
    /// 7: a vertex or an edge would be one too many.
    Full,
}

impl EditKind {
    ghost use Rattle.pg_graph_rows.specs.EditKind.{number_of};

    /// The number of the kind, from 1 to 7.
    pub fn number(self) -> u8
        ensures { result ≡ number_of self }
    {
        match self {
            EditKind::Memory => 1,
            EditKind::VertexExists => 2,
            EditKind::NoVertex => 3,
            EditKind::EdgeExists => 4,
            EditKind::NoEdge => 5,
            EditKind::BatchTooLong => 6,
            EditKind::Full => 7,
        }
    }
}

impl From<Memory> for EditKind {
    ghost use Rattle.std.specs.Prelude.{◌≡◌};
    ghost use Rattle.pg_graph_rows.specs.declared.edit.EditKind.TheVariants.{Memory as no_memory};

    ghost from_gives = { λ _ kind. kind ≡ no_memory };

    fn from(_refusal: Memory) -> EditKind {
        EditKind::Memory
    }
}

/// The first edit of a batch that has no result: its place from 1 and why. The place is 0 where a
/// growth was refused, and 100,001 where the batch is too long.
#[derive(Clone, Copy, Debug, PartialEq, Eq, Error)]
#[error("edit {position} is refused: {kind:?}")]
pub struct EditFault {
    pub position: u64,
    pub kind: EditKind,
}

impl EditFault {
    ghost use Rattle.pg_graph_rows.specs.EditFault.{memory_fault};

    /// The edit at this position is refused, or a growth was.
    pub fn at(position: u64, kind: EditKind) -> EditFault
        ensures memory { kind ≡ EditKind.Memory → result ≡ memory_fault }
        ensures edit { kind ≢ EditKind.Memory → result ≡ record { position = position; kind = kind } }
    {
        match kind {
            EditKind::Memory => EditFault { position: 0, kind },
            _ => EditFault { position, kind },
        }
    }
}

impl From<Memory> for EditFault {
    ghost use Rattle.std.specs.Prelude.{◌≡◌};
    ghost use Rattle.pg_graph_rows.specs.EditFault.{memory_fault};

    ghost from_gives = { λ _ fault. fault ≡ memory_fault };

    fn from(refusal: Memory) -> EditFault {
        EditFault::at(0, EditKind::from(refusal))
    }
}
