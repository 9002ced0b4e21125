//! Answers from scratch.
ghost use Rattle.std.specs.Prelude.{◌≡◌, [], true, None, IfOk};
ghost use Rattle.pg_global.specs.Master.{is_registered};
ghost use Rattle.pg_global.specs.Registry.{first_refusal};

use pg_core_machine::Limits;
use pg_global::{MasterCompute, MessageCombiner};
use pg_graph::Graph;
use pg_model::Run;
use pg_program::{Computation, Meter, Plain};
use pg_scratch::run;
use std::alloc::Global;
use std::test::Fail;

/// Whether two answers are the same, with all that a run counts.
pub fn is_same<V: Plain>(first: &Run<V>, second: &Run<V>) -> bool {
    first.values.as_slice() == second.values.as_slice()
        && first.aggregates.as_slice() == second.aggregates.as_slice()
        && first.ending == second.ending
        && first.supersteps == second.supersteps
        && first.sent == second.sent
        && first.dropped == second.dropped
}

/// The answer of the plain runner.
pub fn scratch<P: Computation, C: MessageCombiner<P::Message>, M: MasterCompute>(
    alloc: Global,
    graph: &Graph,
    program: &P,
    combiner: &C,
    master: &M,
    limits: Limits,
) -> Result<Run<P::Value>, Fail>
    ensures { IfOk result (λ _. (first_refusal [] (M.master master.now).registrations ≡ None)
        × (is_registered (P.program program.now) (M.master master.now) ≡ true)) }
{
    let mut meter = Meter::new();
    let (missing, limit) = (limits.missing(), limits.limit());
    Ok(run(
        alloc, graph, program, combiner, master, missing, limit, &mut meter,
    )?)
}
