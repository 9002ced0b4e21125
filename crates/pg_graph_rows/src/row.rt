//! The row of a vertex.
ghost use Rattle.std.specs.Prelude.{◌≡◌, IfOk};

use crate::{Edges, Memory};
use pg_map::CheapClone;
use std::alloc::Global;

/// What a graph holds of one vertex: the input that its value begins from, and its out-edges.
#[derive(Drop)]
pub struct Row {
    pub input: i64,
    pub edges: Edges,
}

impl CheapClone for Row {
    fn cheap_clone(&self, _alloc: Global) -> Result<Row, Memory> {
        self.copy()
    }
}

impl Row {
    /// A copy of the row, which shares its edges.
    pub fn copy(&self) -> Result<Row, Memory>
        ensures { IfOk result (λ row. row ≡ self.now) }
    {
        let edges = self.edges.copy()?;
        Ok(Row {
            input: self.input,
            edges,
        })
    }
}
