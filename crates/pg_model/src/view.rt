//! What the vertices of one superstep see of the run as a whole.
use crate::Sequence;
use pg_graph::Superstep;

/// What a program has declared of the aggregators and totals: the aggregators that it reads and those
/// that it contributes to, as sets of places (bit k for place k), and whether it reads a total.
#[derive(Clone, Copy, Debug, PartialEq, Eq)]
pub struct Declared {
    pub reads: u16,
    pub writes: u16,
    pub total_vertices: bool,
    pub total_edges: bool,
}

/// What the master shows in one superstep: a value for each place, whether it halted, and how many vertices
/// and edges there are as the superstep begins.
#[derive(Drop)]
pub struct Visible {
    pub values: Sequence<i64>,
    pub halt: bool,
    pub total_vertices: u64,
    pub total_edges: u64,
}

/// What a program sees of that: what it has declared, and nothing else.
#[derive(Drop)]
pub struct View {
    pub superstep: Superstep,
    /// By place; `None` at a place that isn't declared.
    pub aggregates: Sequence<Option<i64>>,
    pub total_vertices: Option<u64>,
    pub total_edges: Option<u64>,
}
