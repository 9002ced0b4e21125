//! Shortest paths from one source (Pregel, section 5.2).
ghost use Rattle.std.specs.Prelude.{◌≡◌, [], ◌∷◌, ◌++◌, ◌+ℤ◌, map, cond, true, pos, OnOk};
ghost use Rattle.std.specs.Int.{w64, saturate_signed};
ghost use Rattle.pg_model.specs.Programs.{infinity};
ghost use Rattle.pg_model.specs.Job.{has_place};
ghost use Rattle.std.specs.Ordering.{int_eq};

use crate::folds::least;
use pg_graph::{Memory, VertexId};
use pg_model::{Declared, Place};
use pg_program::{Computation, Cx, Vertex};
use std::alloc::Global;

/// No distance: the value of a vertex that isn't reached.
const INFINITY: i64 = i64::MAX;

/// The program that finds each vertex's distance from a source, along edges with weights. Sums stop at
/// both ends of `i64`. It contributes 1 to the aggregator at place 0 for each vertex that it reaches.
#[derive(Clone, Copy, Debug, PartialEq, Eq)]
pub struct Sssp {
    pub source: VertexId,
}

impl Computation for Sssp {
    type Value = i64;

    type Message = i64;

    ghost use Rattle.pg_model.specs.Programs.{sssp};

    ghost program = { λ p. sssp p.source };

    fn declared(&self) -> Declared {
        Declared {
            reads: 0,
            writes: 1,
            total_vertices: false,
            total_edges: false,
        }
    }

    fn initial(&self, _alloc: Global, _id: VertexId, _input: i64) -> Result<i64, Memory> {
        Ok(INFINITY)
    }

    #[tactic(auto, unfolding(pg_model::specs::Programs::sssp_step))]
    fn compute(
        &self,
        _alloc: Global,
        vertex: &mut Vertex<i64>,
        messages: &[i64],
        cx: &mut Cx<i64>,
    ) -> Result<(), Memory> {
        cx.called();
        vertex.vote_to_halt();
        let known = *vertex.value();
        let own = if vertex.id() == self.source {
            0
        } else {
            INFINITY
        };
        let distance = least(own, messages);
        if distance >= known {
            return Ok(());
        }
        vertex.set_value(distance);
        count_reached(known, cx)?;
        send_on(vertex.edges(), distance, cx)?;
        Ok(())
    }
}

/// Contributes 1 for a vertex that was not reached before.
fn count_reached(known: i64, cx: &mut Cx<i64>) -> Result<(), Memory>
    requires { has_place cx.old.writes 0 ≡ true }
    ensures { OnOk result (cx.new ≡ record cx.old {
      contributed = cx.old.contributed ++ cond (int_eq known infinity)
          ((0, pos 1) ∷ []) [];
    }) }
{
    if known != INFINITY {
        return Ok(());
    }
    cx.aggregate(Place::new(0), 1)
}

/// Sends to the target of each edge the distance by way of the edge.
fn send_on(edges: &[(VertexId, i64)], distance: i64, cx: &mut Cx<i64>) -> Result<(), Memory>
    ensures { OnOk result (cx.new ≡ record cx.old {
      sent = cx.old.sent ++ map (λ e. (e.0, saturate_signed w64 (distance +ℤ e.1))) edges.now;
    }) }
{
    for (target, weight) in edges {
        cx.send(*target, distance.saturating_add(*weight))?;
    }
    Ok(())
}
