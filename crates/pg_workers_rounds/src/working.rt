//! A worker's work: a step of each of its parts.
ghost use Rattle.std.specs.Prelude.{◌≡◌, ◌+◌, ◌<◌, ◌^◌, true, length, IfErr, IfOk};
ghost use Rattle.pg_global.specs.Master.{has_places};
ghost use Rattle.pg_workers_rounds.specs.Work.{AreAt, AreDone, AreSpared, IsDone, IsStruck};

use crate::{Cause, Fate, Round};
use pg_global::MessageCombiner;
use pg_part::{Lost, Part, Sent};
use pg_program::{Computation, Meter, Plain};
use std::alloc::Global;

/// A part after its step, what it sent, and how many times the step called compute.
#[derive(Drop)]
pub struct Done<V, M: Plain> {
    pub part: Part<V, M>,
    pub sent: Sent<M>,
    pub calls: u64,
}

/// A worker's work in a round: it steps each of its parts once, in order, each with a meter of its own, and asks the
/// fate after each whether it falls.
///
/// Costs what the steps cost, and a question to the fate for each.
///
/// # Errors
///
/// Why the worker fell: by the fate, or as it wanted memory. All its parts are gone then, those that were stepped too.
pub fn work<P: Computation, C: MessageCombiner<P::Message>, F: Fate>(
    alloc: Global,
    parts: Vec<Part<P::Value, P::Message>>,
    round: &Round<'_, P::Message>,
    program: &P,
    combiner: &C,
    fate: &F,
) -> Result<Vec<Done<P::Value, P::Message>>, Cause>
    requires declared { has_places (P.program program.now).declared (length round.now.visible.values) ≡ true }
    requires at { AreAt round.now.superstep parts.items }
    ensures done { IfOk result (λ dones. AreDone P.Value.PartialEq.eq P.Message.PartialEq.eq
        (P.program program.now) (C.combining combiner.now) round.now parts.items dones.items) }
    ensures spared { IfOk result (λ dones. AreSpared (F.fated fate.now) round.now parts.items) }
    ensures cause { IfErr result (λ cause. cause ≡ Cause.Fate → IsStruck (F.fated fate.now) round.now parts.items) }
{
    let mut dones = Vec::new(alloc);
    for part in parts {
        let partition = part.partition();
        let Ok(done) = step_one(alloc, part, round, program, combiner) else {
            return Err(Cause::Memory);
        };
        let Ok(()) = dones.push(done) else {
            return Err(Cause::Memory);
        };
        if fate.falls(
            round.superstep(),
            round.attempt(),
            round.worker(),
            partition,
        ) {
            return Err(Cause::Fate);
        }
    }
    Ok(dones)
}

/// Steps one part, with a meter of its own.
fn step_one<P: Computation, C: MessageCombiner<P::Message>>(
    alloc: Global,
    part: Part<P::Value, P::Message>,
    round: &Round<'_, P::Message>,
    program: &P,
    combiner: &C,
) -> Result<Done<P::Value, P::Message>, Lost>
    requires declared { has_places (P.program program.now).declared (length round.now.visible.values) ≡ true }
    requires counts { part.part_run.place + 1 < 2 ^ 32 }
    ensures { IfOk result (λ done. IsDone P.Value.PartialEq.eq P.Message.PartialEq.eq
        (P.program program.now) (C.combining combiner.now) round.now part done) }
{
    let mut meter = Meter::new();
    let (part, sent) = part.step(
        alloc,
        round.logs(),
        round.visible(),
        round.old_logs(),
        round.old_visible(),
        round.registry(),
        program,
        combiner,
        &mut meter,
    )?;
    Ok(Done {
        part,
        sent,
        calls: meter.count(),
    })
}
