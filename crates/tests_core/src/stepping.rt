// A step of a partition of a core, as whoever drives a run makes it.
ghost use Rattle.std.specs.Prelude.{◌≤◌, ◌<◌, IfOk};
ghost use Rattle.pg_part.specs.PartRun.{IsAdvanced};

use pg_core::Core;
use pg_global::{MasterCompute, MessageCombiner};
use pg_graph::{Memory, PartitionId};
use pg_part::{Lost, Part, Sent};
use pg_program::{Computation, Meter};
use std::alloc::{AllocError, Global};

// One step of a partition that is ready: its part is taken, stepped, and taken in.
pub(crate) fn step_once<P: Computation, C: MessageCombiner<P::Message>, M: MasterCompute>(
    alloc: Global,
    core: &mut Core<'_, P, C, M>,
    partition: PartitionId,
    meter: &mut Meter,
) -> Result<(), Memory> {
    if !core.is_ready(partition) {
        return Err(AllocError);
    }
    let part = core.take(partition);
    match step_of(alloc, core, part, meter) {
        Ok((part, sent)) => core.stepped(alloc, partition, part, sent),
        Err(_) => Err(AllocError),
    }
}

// What a step makes of a part that was taken, and what it sends.
fn step_of<P: Computation, C: MessageCombiner<P::Message>, M: MasterCompute>(
    alloc: Global,
    core: &Core<'_, P, C, M>,
    part: Part<P::Value, P::Message>,
    meter: &mut Meter,
) -> Result<(Part<P::Value, P::Message>, Sent<P::Message>), Lost>
    requires reached { part.part_run.place ≤ core.now.state.current }
    requires small { core.now.state.current < 10000 }
    ensures advanced { IfOk result (λ stepped. IsAdvanced part.part_run stepped.0.part_run) }
{
    let place = part.place();
    part.step(
        alloc,
        core.logs(),
        core.visible(place),
        core.old_logs(place),
        core.old_visible(place),
        core.registry(),
        core.program(),
        core.combiner(),
        meter,
    )
}
