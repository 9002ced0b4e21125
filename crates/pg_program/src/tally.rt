//! A sample program, whose values have a list.

use crate::{Computation, Cx, Vertex};
use pg_graph::{Memory, VertexId};
use pg_model::{Declared, Sequence};
use std::alloc::Global;

/// The program in which each vertex sends its input along its edges, and then has for its value the number
/// of the messages that came, and the messages in their order.
#[derive(Clone, Copy, Debug, PartialEq, Eq)]
pub struct Tally;

impl Computation for Tally {
    type Value = (i64, Sequence<i64>);

    type Message = i64;

    ghost use Rattle.pg_model.specs.Programs.{tally};

    ghost program = { λ _. tally };

    fn declared(&self) -> Declared {
        Declared {
            reads: 0,
            writes: 0,
            total_vertices: false,
            total_edges: false,
        }
    }

    fn initial(
        &self,
        alloc: Global,
        _id: VertexId,
        input: i64,
    ) -> Result<(i64, Sequence<i64>), Memory> {
        Ok((input, Sequence::new(alloc)))
    }

    #[tactic(auto, unfolding(pg_model::specs::Programs::tally_step))]
    fn compute(
        &self,
        alloc: Global,
        vertex: &mut Vertex<(i64, Sequence<i64>)>,
        messages: &[i64],
        cx: &mut Cx<i64>,
    ) -> Result<(), Memory> {
        cx.called();
        vertex.vote_to_halt();
        if cx.superstep().number() == 0 {
            let input = vertex.value().0;
            cx.send_to_all_edges(alloc, vertex, &input)?;
            return Ok(());
        }
        let received = Sequence::from_vec(Vec::from_slice(alloc, messages)?);
        vertex.set_value((messages.len() as i64, received));
        Ok(())
    }
}
