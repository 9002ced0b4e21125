//! What a vertex program is.
ghost use Rattle.std.specs.Prelude.{◌≡◌, false, IfOk, OnOk};
ghost use Rattle.pg_model.specs.Job.{Program};
ghost use Rattle.pg_program.specs.Computation.{Executes};
ghost use Rattle.pg_program.specs.Context.{ShowsDeclared};

use crate::{Coded, Cx, Vertex};
use pg_graph::{Memory, VertexId};
use pg_model::Declared;
use std::alloc::Global;

/// A vertex program (Pregel, section 3): the value that each vertex begins with, and what a vertex does
/// in a superstep in which it is active.
pub trait Computation: Sync {
    /// The values of vertices.
    type Value: Coded;

    /// The messages.
    type Message: Coded;

    /// The program as pure functions.
    ghost program: { Self → Program Self.Value Self.Message };

    /// The aggregators and totals that the program reads, and the aggregators that it contributes to.
    fn declared(&self) -> Declared
        ensures { result ≡ (program self.now).declared };

    /// The value that a vertex with this input begins with.
    fn initial(&self, alloc: Global, id: VertexId, input: i64) -> Result<Self::Value, Memory>
        ensures { IfOk result (λ value. value ≡ (program self.now).initial id input) };

    /// One execution: what the program's step says of the vertex, its messages and what it has declared.
    /// Nothing is said of the vertex and the context where it answers want of memory.
    fn compute(
        &self,
        alloc: Global,
        vertex: &mut Vertex<Self::Value>,
        messages: &[Self::Message],
        cx: &mut Cx<Self::Message>,
    ) -> Result<(), Memory>
        requires votes { vertex.old.halted ≡ false }
        requires shown { ShowsDeclared (program self.now).declared cx.old.view }
        requires writes { cx.old.writes ≡ (program self.now).declared.writes }
        ensures { OnOk result
            (Executes (program self.now) vertex.old vertex.new messages.now cx.old cx.new) };
}
