//! Peeling: what remains when vertices of too few edges are removed, again and again.
ghost use Rattle.std.specs.Prelude.{◌≡◌, cond, int_le, pos, nat_abs};
ghost use Rattle.pg_graph.specs.Handed.{without_edge};
ghost use Rattle.pg_model.specs.Programs.{edges_left};

use pg_graph::{Memory, VertexId};
use pg_program::{Computation, Cx, Declared, Place, Vertex};
use std::alloc::Global;

/// The program that gives 1 to the vertices of the `k`-core and 0 to those that are removed, where each edge
/// stands both ways. It contributes 1 to the aggregator at place 0 for each vertex that it removes.
#[derive(Clone, Copy, Debug, PartialEq, Eq)]
pub struct Peel {
    /// How many edges a vertex needs to stay.
    pub k: u32,
}

impl Computation for Peel {
    type Value = i64;

    type Message = i64;

    ghost use Rattle.pg_model.specs.Programs.{peel};

    ghost program = { λ p. peel p.k };

    fn declared(&self) -> Declared {
        Declared {
            reads: 0,
            writes: 1,
            total_vertices: false,
            total_edges: false,
        }
    }

    fn initial(&self, _alloc: Global, _id: VertexId, _input: i64) -> Result<i64, Memory> {
        Ok(1)
    }

    #[tactic(auto, unfolding(pg_model::specs::Programs::peel_step))]
    fn compute(
        &self,
        alloc: Global,
        vertex: &mut Vertex<i64>,
        messages: &[i64],
        cx: &mut Cx<i64>,
    ) -> Result<(), Memory> {
        cx.called();
        vertex.vote_to_halt();
        remove_edges(vertex, messages);
        let kept = *vertex.value() == 1;
        if !kept || vertex.num_edges() as u64 >= u64::from(self.k) {
            return Ok(());
        }
        let id = vertex.id().number() as i64;
        vertex.set_value(0);
        cx.aggregate(Place::new(0), 1)?;
        cx.send_to_all_edges(alloc, vertex, &id)?;
        Ok(())
    }
}

/// Removes the edges to the ids that the messages name.
fn remove_edges(vertex: &mut Vertex<i64>, messages: &[i64])
    ensures { vertex.new ≡ record vertex.old { edges = edges_left vertex.old.edges messages.now } }
{
    for message in messages {
        remove_edge(vertex, *message);
    }
}

/// Removes the edge to the id that a message names; a negative number names none.
fn remove_edge(vertex: &mut Vertex<i64>, message: i64)
    ensures { vertex.new ≡ record vertex.old {
      edges = cond (int_le (pos 0) message) (without_edge (nat_abs message) vertex.old.edges) vertex.old.edges;
    } }
{
    if message < 0 {
        return;
    }
    match VertexId::new(message as u64) {
        Some(target) => vertex.remove_edges(target),
        None => unreachable!(),
    }
}
