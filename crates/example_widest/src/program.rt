//! The program: what one vertex does in one superstep.
ghost use Rattle.std.specs.Prelude.{◌≡◌, ◌++◌, [], cond, map, true, OnOk};
ghost use Rattle.std.specs.Int.{int_min};
ghost use Rattle.pg_model.specs.Job.{has_place};
ghost use Rattle.pg_model.specs.Programs.{contributed, greatest_of};

use pg_graph::{Memory, VertexId};
use pg_program::{Computation, Cx, Declared, Place, Vertex};
use std::alloc::Global;

/// The width where there is no path.
const NO_PATH: i64 = i64::MIN;

/// The width of the path without an edge.
const NO_EDGE: i64 = i64::MAX;

/// The program that looks for the greatest width of all paths from a source to each vertex; the
/// width of a path is the least weight on it. It contributes to the aggregator at place 0 each width
/// that it finds for the target.
#[derive(Clone, Copy, Debug, PartialEq, Eq)]
pub struct Widest {
    pub source: VertexId,
    pub target: VertexId,
}

impl Computation for Widest {
    type Value = i64;

    type Message = i64;

    ghost use Rattle.example_widest.specs.Widest.{widest};

    ghost program = { λ p. widest p.source p.target };

    fn declared(&self) -> Declared {
        Declared {
            reads: 0,
            writes: 1,
            total_vertices: false,
            total_edges: false,
        }
    }

    fn initial(&self, _alloc: Global, _id: VertexId, _input: i64) -> Result<i64, Memory> {
        Ok(NO_PATH)
    }

    #[tactic(auto, unfolding(crate::specs::Widest::widest_step))]
    fn compute(
        &self,
        _alloc: Global,
        vertex: &mut Vertex<i64>,
        messages: &[i64],
        cx: &mut Cx<i64>,
    ) -> Result<(), Memory> {
        cx.called();
        vertex.vote_to_halt();
        let own = if vertex.id() == self.source {
            NO_EDGE
        } else {
            NO_PATH
        };
        let width = greatest(own, messages);
        if width <= *vertex.value() {
            return Ok(());
        }
        vertex.set_value(width);
        tell_found(vertex.id() == self.target, width, cx)?;
        send_on(vertex.edges(), width, cx)?;
        Ok(())
    }
}

/// The greatest of a width and all messages.
fn greatest(own: i64, messages: &[i64]) -> i64
    ensures { result ≡ greatest_of own messages.now }
{
    let mut greatest = own;
    for message in messages {
        greatest = greatest.max(*message);
    }
    greatest
}

/// Contributes a width that was found for the target.
fn tell_found(is_target: bool, width: i64, cx: &mut Cx<i64>) -> Result<(), Memory>
    requires { has_place cx.old.writes 0 ≡ true }
    ensures { OnOk result (cx.new ≡ record cx.old {
      contributed = cx.old.contributed ++ cond is_target (contributed width) [];
    }) }
{
    if !is_target {
        return Ok(());
    }
    cx.aggregate(Place::new(0), width)
}

/// Sends to the target of each edge the width of the path by way of it.
fn send_on(edges: &[(VertexId, i64)], width: i64, cx: &mut Cx<i64>) -> Result<(), Memory>
    ensures { OnOk result (cx.new ≡ record cx.old {
      sent = cx.old.sent ++ map (λ e. (e.0, int_min width e.1)) edges.now;
    }) }
{
    for (target, weight) in edges {
        cx.send(*target, width.min(*weight))?;
    }
    Ok(())
}
