//! One round: each worker does its work, in a thread of its own or one after another.
ghost use Rattle.std.specs.Prelude.{◌≡◌, true, length, IfOk, All};
ghost use Rattle.pg_global.specs.Master.{has_places};
ghost use Rattle.pg_workers_rounds.specs.Outcomes.{AreOutcomes, IsOutcome};
ghost use Rattle.pg_workers_rounds.specs.Work.{AreAt};

use crate::{Cause, Done, Fate, Gate, Round, work};
use pg_global::MessageCombiner;
use pg_graph::{Memory, WorkerId};
use pg_part::Part;
use pg_program::{Computation, Plain};
use std::alloc::Global;
use std::thread;
use std::thread::Threads;

/// A worker with the parts that it is to step in a round, in order.
#[derive(Drop)]
pub struct Assignment<V, M: Plain> {
    pub worker: WorkerId,
    pub parts: Vec<Part<V, M>>,
}

/// A worker with what it made of its parts, in order, or why it fell.
#[derive(Drop)]
pub struct Outcome<V, M: Plain> {
    pub worker: WorkerId,
    pub done: Result<Vec<Done<V, M>>, Cause>,
}

/// A worker passes the gate and does its work.
fn carry_out<P: Computation, C: MessageCombiner<P::Message>, F: Fate, G: Gate>(
    alloc: Global,
    assignment: Assignment<P::Value, P::Message>,
    round: &Round<'_, P::Message>,
    program: &P,
    combiner: &C,
    fate: &F,
    gate: &G,
) -> Outcome<P::Value, P::Message>
    requires declared { has_places (P.program program.now).declared (length round.now.visible.values) ≡ true }
    requires at { AreAt round.now.superstep assignment.parts.items }
    ensures { IsOutcome P.Value.PartialEq.eq P.Message.PartialEq.eq
        (P.program program.now) (C.combining combiner.now) (F.fated fate.now) round.now assignment result }
{
    let Assignment { worker, parts } = assignment;
    gate.pass(worker, round.superstep());
    let done = work(alloc, parts, &round.of(worker), program, combiner, fate);
    Outcome { worker, done }
}

/// A round in threads: each worker passes the gate and does its work, all at the same time, and the outcomes stand in
/// the order of the assignments. The worker that the round names is not asked for: each has its own.
///
/// For n assignments n - 1 threads are started, and the caller's own thread does the work of one worker; a worker for
/// which no thread can be made comes after another one in the same thread. It costs that and the longest work; the
/// threads cost some 20 to 100 microseconds where the processors are free, and longer where they are busy.
///
/// # Errors
///
/// `Memory` where there is none for the threads or for what they give back. All parts are gone then.
pub fn in_threads<
    R: Threads + Sync,
    P: Computation,
    C: MessageCombiner<P::Message>,
    F: Fate,
    G: Gate,
>(
    rt: &R,
    alloc: Global,
    assignments: Vec<Assignment<P::Value, P::Message>>,
    round: &Round<'_, P::Message>,
    program: &P,
    combiner: &C,
    fate: &F,
    gate: &G,
) -> Result<Vec<Outcome<P::Value, P::Message>>, Memory>
    requires declared { has_places (P.program program.now).declared (length round.now.visible.values) ≡ true }
    requires at { All (λ assignment. AreAt round.now.superstep assignment.parts.items) assignments.items }
    ensures { IfOk result (λ outcomes. AreOutcomes P.Value.PartialEq.eq P.Message.PartialEq.eq (P.program program.now)
        (C.combining combiner.now) (F.fated fate.now) round.now assignments.items outcomes.items) }
{
    let body = |assignment: Assignment<P::Value, P::Message>| -> Outcome<P::Value, P::Message>
        requires { (has_places (P.program program.now).declared (length round.now.visible.values) ≡ true)
            × AreAt round.now.superstep assignment.parts.items }
        ensures { IsOutcome P.Value.PartialEq.eq P.Message.PartialEq.eq (P.program program.entry.now)
            (C.combining combiner.entry.now) (F.fated fate.entry.now) round.entry.now assignment result }
    { carry_out(alloc, assignment, round, program, combiner, fate, gate) };
    thread::map_vec(rt, assignments, &body)
}

/// A round in the caller's own thread: each worker passes the gate and does its work, one after another. It
/// costs the work of all, and nothing for threads.
///
/// # Errors
///
/// `Memory` where there is none for the list of outcomes. All parts are gone then.
pub fn in_turn<P: Computation, C: MessageCombiner<P::Message>, F: Fate, G: Gate>(
    alloc: Global,
    assignments: Vec<Assignment<P::Value, P::Message>>,
    round: &Round<'_, P::Message>,
    program: &P,
    combiner: &C,
    fate: &F,
    gate: &G,
) -> Result<Vec<Outcome<P::Value, P::Message>>, Memory>
    requires declared { has_places (P.program program.now).declared (length round.now.visible.values) ≡ true }
    requires at { All (λ assignment. AreAt round.now.superstep assignment.parts.items) assignments.items }
    ensures { IfOk result (λ outcomes. AreOutcomes P.Value.PartialEq.eq P.Message.PartialEq.eq (P.program program.now)
        (C.combining combiner.now) (F.fated fate.now) round.now assignments.items outcomes.items) }
{
    let mut outcomes = Vec::new(alloc);
    for assignment in assignments {
        outcomes.push(carry_out(alloc, assignment, round, program, combiner, fate, gate))?;
    }
    Ok(outcomes)
}
