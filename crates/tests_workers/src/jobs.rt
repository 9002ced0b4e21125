// Runs on workers, and what they tell.
ghost use Rattle.std.specs.Prelude.{◌≡◌, [], true, None, length, IfOk, IfSome};
ghost use Rattle.pg_global.specs.Master.{is_registered};
ghost use Rattle.pg_global.specs.Registry.{first_refusal};

use pg_global::{MasterCompute, MessageCombiner};
use pg_graph::{Graph, Memory, VertexId};
use pg_model::Run;
use pg_program::{Computation, Plain};
use pg_workers::{Core, Counts, Fate, Gate, Limits, MemShelf, Shelf, Traces, run_job};
use std::alloc::Global;
use std::fmt::Write;
use std::sync::Wait;
use std::test::Fail;
use std::thread::Threads;
use tests_kit::{Heard, Listener, is_same, scratch};
use tests_rounds::{tell_losses, tell_refusal};

// What a run adds to its text where its answer isn't the one from scratch.
pub(crate) const OTHERWISE: &str = " otherwise than from scratch";

// The calls of compute, and the steps of each partition.
pub(crate) fn tell_steps(text: &mut String, calls: u64, steps: &[u64]) -> Result<(), Memory> {
    write!(text, "calls {calls} steps")?;
    for made in steps {
        write!(text, " {made}")?;
    }
    Ok(())
}

fn tell_counts(text: &mut String, counts: &Counts) -> Result<(), Memory> {
    tell_steps(text, counts.calls, counts.steps.as_slice())?;
    tell_losses(text, counts.losses.as_slice())?;
    write!(text, ";")
}

// The values of an answer, and whether it is another than this one.
fn tell_answer<V: Plain>(text: &mut String, run: &Run<V>, wanted: &Run<V>) -> Result<(), Memory> {
    write!(text, " in {}:", run.supersteps)?;
    for (id, value) in run.values.as_slice() {
        write!(text, " {id}=")?;
        value.show(text)?;
    }
    if !is_same(run, wanted) {
        text.push_str(OTHERWISE)?;
    }
    Ok(())
}

// What a run tells that is driven by workers, and what it leaves where it ended: the calls, the steps of each
// partition, the workers that fell, how many supersteps there were, the values, and whether all of its answer is this
// one; or why it was refused.
pub(crate) fn driven<
    R: Threads + Wait + Sync,
    P: Computation,
    C: MessageCombiner<P::Message>,
    M: MasterCompute,
    S: Shelf,
    F: Fate,
    G: Gate,
>(
    rt: &R,
    alloc: Global,
    core: Core<'_, P, C, M>,
    shelf: &mut S,
    fate: &F,
    gate: &G,
    wanted: &Run<P::Value>,
) -> Result<(String, Option<Traces<P::Value, P::Message>>), Fail>
    requires begins { core.history ≡ [] }
    ensures { IfOk result (λ reported. IfSome reported.1
        (λ retained. length retained.retained_parts ≡ core.entry.limits.partitions)) }
{
    if shelf.failures() > 0 {
        return Err(Fail::from("the device has failed before"));
    }
    let mut text = String::new(alloc);
    match run_job(rt, alloc, core, shelf, fate, gate) {
        Ok((finished, counts)) => {
            let (run, retained, _) = finished;
            tell_counts(&mut text, &counts)?;
            tell_answer(&mut text, &run, wanted)?;
            Ok((text, Some(retained)))
        }
        Err(fault) => {
            tell_refusal(&mut text, &fault)?;
            text.push_str(";")?;
            Ok((text, None))
        }
    }
}

// What comes of a run from scratch.
pub(crate) fn first<
    R: Threads + Wait + Sync,
    P: Computation,
    C: MessageCombiner<P::Message>,
    M: MasterCompute,
    S: Shelf,
    F: Fate,
    G: Gate,
>(
    rt: &R,
    alloc: Global,
    graph: &Graph,
    program: &P,
    combiner: &C,
    master: &M,
    limits: Limits,
    shelf: &mut S,
    fate: &F,
    gate: &G,
) -> Result<(String, Option<Traces<P::Value, P::Message>>), Fail>
    ensures retained { IfOk result
        (λ reported. IfSome reported.1 (λ retained. length retained.retained_parts ≡ limits.partitions)) }
    ensures lawful { IfOk result (λ _. (first_refusal [] (M.master master.now).registrations ≡ None)
        × (is_registered (P.program program.now) (M.master master.now) ≡ true)) }
{
    let wanted = scratch(alloc, graph, program, combiner, master, limits)?;
    let core = Core::open(alloc, graph, program, combiner, master, limits, 1)?;
    driven(rt, alloc, core, shelf, fate, gate, &wanted)
}

// What comes of a run against what is retained of another one, on a graph that differs at these ids.
pub(crate) fn after_first<
    R: Threads + Wait + Sync,
    P: Computation,
    C: MessageCombiner<P::Message>,
    M: MasterCompute,
    S: Shelf,
    F: Fate,
    G: Gate,
>(
    rt: &R,
    alloc: Global,
    graph: &Graph,
    retained: Traces<P::Value, P::Message>,
    touched: &[VertexId],
    program: &P,
    combiner: &C,
    master: &M,
    limits: Limits,
    shelf: &mut S,
    fate: &F,
    gate: &G,
) -> Result<(String, Option<Traces<P::Value, P::Message>>), Fail>
    requires { length retained.retained_parts ≡ limits.partitions }
    ensures retained { IfOk result
        (λ reported. IfSome reported.1 (λ retained. length retained.retained_parts ≡ limits.partitions)) }
    ensures lawful { IfOk result (λ _. (first_refusal [] (M.master master.now).registrations ≡ None)
        × (is_registered (P.program program.now) (M.master master.now) ≡ true)) }
{
    let wanted = scratch(alloc, graph, program, combiner, master, limits)?;
    let core = Core::open_warm(
        alloc, graph, retained, touched, program, combiner, master, limits, 2,
    )?;
    driven(rt, alloc, core, shelf, fate, gate, &wanted)
}

// What a first run of a program tells whose calls are heard, with checkpoints in memory. The answer that is wanted is
// that of the program without its listener.
pub(crate) fn heard<
    R: Threads + Wait + Sync,
    P: Computation,
    L: Listener,
    C: MessageCombiner<P::Message>,
    M: MasterCompute,
    F: Fate,
    G: Gate,
>(
    rt: &R,
    alloc: Global,
    graph: &Graph,
    program: &Heard<P, L>,
    combiner: &C,
    master: &M,
    limits: Limits,
    fate: &F,
    gate: &G,
) -> Result<String, Fail> {
    let wanted = scratch(alloc, graph, &program.inner, combiner, master, limits)?;
    let core = Core::open(alloc, graph, program, combiner, master, limits, 1)?;
    let mut shelf = MemShelf::new(alloc);
    let (reported, _) = driven(rt, alloc, core, &mut shelf, fate, gate, &wanted)?;
    Ok(reported)
}
