// Which vertices a refresh calls, and how often, as the program itself counts.
use crate::hops::{Line, TWO_HOPS, batch_of, limits_of, master, program, refreshed, service_of};
use pg_global::{AnyCombiner, MasterCompute, MessageCombiner};
use pg_graph::{Memory, VertexId};
use pg_program::Computation;
use pg_service::{Limits, Service};
use std::alloc::Global;
use std::process::Abort;
use std::sync::atomic::{AtomicU64, Ordering};
use std::sync::{Arc, Wait};
use std::test::Fail;
use std::thread::Threads;
use tests_kit::{Heard, Listener, Moment};

// How many calls were made, and of which vertices: bit n is set where vertex n was called, for n below 64.
#[derive(Drop)]
struct Board {
    calls: AtomicU64,
    called: AtomicU64,
}

// The listener that counts calls.
#[derive(Drop)]
struct Counting {
    board: Arc<Board>,
}

impl Listener for Counting {
    fn hear(&self, moment: Moment) -> Result<(), Memory> {
        if let Moment::Compute(_, vertex) = moment {
            self.board.calls.fetch_add(1, Ordering::SeqCst);
            self.board
                .called
                .fetch_or(mark_of(vertex), Ordering::SeqCst);
        }
        Ok(())
    }
}

// The bit of a vertex.
fn mark_of(id: VertexId) -> u64 {
    match id.number() {
        1 => 1 << 1,
        2 => 1 << 2,
        3 => 1 << 3,
        4 => 1 << 4,
        _ => 1,
    }
}

// What the refresh after a batch tells, how many calls the program has counted in it, and which vertices were called.
fn counted<
    R: Threads + Wait + Sync,
    P: Computation,
    C: MessageCombiner<P::Message>,
    M: MasterCompute,
>(
    rt: &R,
    alloc: Global,
    service: &mut Service<P, C, M>,
    board: &Board,
    lines: &[Line],
) -> Result<(String, u64, u64), Fail> {
    service
        .edit(alloc, &batch_of(alloc, lines)?)
        .map_err(|_| "a batch that is refused")?;
    let reported = refreshed(rt, alloc, service)?;
    let calls = board.calls.swap(0, Ordering::SeqCst);
    Ok((reported, calls, board.called.swap(0, Ordering::SeqCst)))
}

// What `counted` tells of these batches in turn.
fn each_counted<
    R: Threads + Wait + Sync,
    P: Computation,
    C: MessageCombiner<P::Message>,
    M: MasterCompute,
>(
    rt: &R,
    alloc: Global,
    service: &mut Service<P, C, M>,
    board: &Board,
    batches: &[&[Line]],
) -> Result<Vec<(String, u64, u64)>, Fail> {
    let mut counts = Vec::new(alloc);
    for lines in batches {
        counts.push(counted(rt, alloc, service, board, lines)?)?;
    }
    Ok(counts)
}

// What `each_counted` tells of shortest paths with this combiner.
fn paths_counted<R: Threads + Wait + Sync>(
    rt: &R,
    alloc: Global,
    limits: Limits,
    combiner: AnyCombiner,
    batches: &[&[Line]],
) -> Result<Vec<(String, u64, u64)>, Fail> {
    let nothing = Board {
        calls: AtomicU64::new(0),
        called: AtomicU64::new(0),
    };
    let board = Arc::new(alloc, nothing)?;
    let counting = Heard {
        inner: program()?,
        listener: Counting {
            board: Arc::try_clone(&board)?,
        },
    };
    let mut service = service_of(rt, alloc, limits, counting, combiner, master()?)?;
    let reported = each_counted(rt, alloc, &mut service, &board, batches);
    service.close(rt);
    reported
}

// Whether so many calls were reported and counted in each refresh, of these vertices.
fn are(counts: &[(String, u64, u64)], wanted: &[(&str, u64, u64)]) -> bool {
    counts.len() == wanted.len()
        && counts.iter().zip(wanted).all(|(count, want)| {
            count.0.as_str().starts_with(want.0) && count.1 == want.1 && count.2 == want.2
        })
}

// As many calls as are reported, of the vertices whose inputs differ: all of them; 1, which has an edge more, and 3,
// which hears of it; none, where an edge is added and taken away again.
#[test]
fn those_are_called_whose_inputs_differ(rt: HostRuntime) -> Result<(), Fail> {
    let alloc = rt.alloc();
    let restored = [Line::Edge(3, 1, 1), Line::Unedge(3, 1)];
    let batches: [&[Line]; 3] = [&TWO_HOPS, &[Line::Edge(1, 3, 2)], &restored];
    for (partitions, workers) in [(1, 1), (3, 2)] {
        let limits = limits_of(partitions, workers, 0, 0)?;
        let counts = paths_counted(&rt, alloc, limits, AnyCombiner::NoCombiner, &batches)?;
        let wanted = [("calls 5 ", 5, 14), ("calls 3 ", 3, 10), ("calls 0 ", 0, 0)];
        assert!(rt; are(counts.as_slice(), &wanted));
    }
    Ok(())
}

const TWO_WAYS: [Line; 7] = [
    Line::Vertex(1),
    Line::Vertex(2),
    Line::Vertex(3),
    Line::Vertex(4),
    Line::Edge(1, 2, 1),
    Line::Edge(1, 3, 1),
    Line::Edge(2, 4, 1),
];

// Vertex 3 has an edge more; vertex 4 hears of it, but what it is given is the same where the least is taken.
#[test]
fn what_is_combined_calls_nobody(rt: HostRuntime) -> Result<(), Fail> {
    let alloc = rt.alloc();
    let batches: [&[Line]; 2] = [&TWO_WAYS, &[Line::Edge(3, 4, 5)]];
    for (partitions, workers) in [(1, 1), (3, 2)] {
        let limits = limits_of(partitions, workers, 0, 0)?;
        let least = paths_counted(&rt, alloc, limits, AnyCombiner::Min, &batches)?;
        assert!(rt; are(least.as_slice(), &[("calls 7 ", 7, 30), ("calls 2 ", 2, 8)]));
        let each = paths_counted(&rt, alloc, limits, AnyCombiner::NoCombiner, &batches)?;
        assert!(rt; are(each.as_slice(), &[("calls 7 ", 7, 30), ("calls 3 ", 3, 24)]));
    }
    Ok(())
}
