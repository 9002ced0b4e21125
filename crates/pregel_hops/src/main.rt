//! How many hops each vertex is from a source, up to a limit.
#![tactic(auto)]

use pregel::{
    AnyCombiner, Computation, Cx, Declared, Limits, MemShelf, Memory, NoFate, NoGate, NoMaster,
    Service, Vertex, VertexId, into_batch, read_list,
};
use std::alloc::Global;
use std::io;
use std::sync::Wait;
use std::thread::Threads;

/// The value of a vertex that isn't reached.
const FAR: i64 = -1;

/// Finds the smallest number of hops to each vertex from the source, where it is at most `most`.
#[derive(Clone, Copy)]
struct Hops {
    source: VertexId,
    most: u32,
}

impl Computation for Hops {
    type Value = i64;

    type Message = i64;

    ghost use Rattle.pregel_hops.specs.Hops.{hops_within};

    ghost program = { λ p. hops_within p.source p.most };

    fn declared(&self) -> Declared {
        Declared {
            reads: 0,
            writes: 0,
            total_vertices: false,
            total_edges: false,
        }
    }

    fn initial(&self, _alloc: Global, _id: VertexId, _input: i64) -> Result<i64, Memory> {
        Ok(FAR)
    }

    #[tactic(auto, unfolding(crate::specs::Hops::hops_step))]
    fn compute(
        &self,
        alloc: Global,
        vertex: &mut Vertex<i64>,
        messages: &[i64],
        cx: &mut Cx<i64>,
    ) -> Result<(), Memory> {
        cx.called();
        vertex.vote_to_halt();
        let is_reached = vertex.id() == self.source || !messages.is_empty();
        if !is_reached || *vertex.value() != FAR {
            return Ok(());
        }
        let superstep = cx.superstep().number();
        let hops = i64::from(superstep);
        vertex.set_value(hops);
        if superstep < self.most {
            cx.send_to_all_edges(alloc, vertex, &hops)?;
        }
        Ok(())
    }
}

fn main(rt: HostRuntime) -> io::Result<()> {
    let (Some(source), Some(limits)) = (VertexId::new(1), Limits::new(2, 2, 100, 0, 0)) else {
        return Err(io::Error::other("a number out of range"));
    };
    let program = Hops { source, most: 2 };
    let alloc = rt.alloc();
    let mut service = Service::new(&rt, alloc, limits, program, AnyCombiner::Min, NoMaster).map_err(
        |_| io::Error::other("no service"),
    )?;
    let shown = show(&rt, alloc, &mut service);
    service.close(&rt);
    shown
}

/// Brings edges into the graph, runs the program on it, and prints each vertex with its value.
fn show<R: Threads + Wait + Sync + Print>(
    rt: &R,
    alloc: Global,
    service: &mut Service<Hops, AnyCombiner, NoMaster>,
) -> io::Result<()> {
    let lines = read_list(alloc, b"1 2\n1 3\n2 3\n3 4\n4 5\n").map_err(|_| io::Error::other(
        "not a list of edges",
    ))?;
    let batch = into_batch(alloc, lines.as_slice(), service.graph())?;
    service
        .edit(alloc, &batch)
        .map_err(|_| io::Error::other("a refused batch"))?;
    let mut shelf = MemShelf::new(alloc);
    service
        .refresh(rt, alloc, &mut shelf, &NoFate, &NoGate)
        .map_err(|_| io::Error::other("a refused refresh"))?;
    if let Some(answers) = service.answers() {
        for (id, hops) in answers.values() {
            println!(rt; "{id} {hops}")?;
        }
    }
    Ok(())
}
