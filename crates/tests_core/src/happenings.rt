// What may happen in a run over partitions, event by event, with what was saved of its partitions next to it.
use crate::recorded::Recorded;
use crate::stepping::step_once;
use pg_core::Core;
use pg_global::{MasterCompute, MessageCombiner};
use pg_graph::{Memory, PartitionId, Superstep, WorkerId};
use pg_program::{Computation, Meter, Plain};
use std::alloc::{AllocError, Global};

/// What happens next in a run.
#[derive(Clone, Copy)]
pub(crate) enum Happening {
    Step(u32),
    Save(u32),
    Lose(u32),
    Host(u32, u32),
    /// From what was saved last, if anything, and else from the first superstep.
    Restore(u32),
    Close,
}

// What was saved last of each partition.
pub(crate) type Shelf<V, M> = Vec<Option<Recorded<V, M>>>;

pub(crate) fn empty_shelf<V: Plain, M: Plain>(
    alloc: Global,
    partitions: u32,
) -> Result<Shelf<V, M>, Memory> {
    let mut shelf = Vec::new(alloc);
    for _ in 0..partitions {
        shelf.push(None)?;
    }
    Ok(shelf)
}

// Puts what was recorded in the place of what was saved of a partition before.
fn put<V: Plain, M: Plain>(
    shelf: &mut Shelf<V, M>,
    partition: PartitionId,
    recorded: Recorded<V, M>,
) {
    if let Some(place) = shelf.get_mut(partition.number() as usize) {
        drop(place.replace(recorded));
    }
}

pub(crate) fn save<P: Computation, C: MessageCombiner<P::Message>, M: MasterCompute>(
    alloc: Global,
    core: &mut Core<'_, P, C, M>,
    shelf: &mut Shelf<P::Value, P::Message>,
    partition: PartitionId,
) -> Result<(), Memory> {
    if !core.is_here(partition) || !core.state().may_save(partition) {
        return Err(AllocError);
    }
    put(shelf, partition, Recorded::of(alloc, core.part(partition))?);
    core.saved(partition)
}

pub(crate) fn lose<P: Computation, C: MessageCombiner<P::Message>, M: MasterCompute>(
    core: &mut Core<'_, P, C, M>,
    worker: WorkerId,
) -> Result<(), Memory> {
    if !core.state().may_lose(worker) {
        return Err(AllocError);
    }
    core.lose(worker)
}

pub(crate) fn host<P: Computation, C: MessageCombiner<P::Message>, M: MasterCompute>(
    core: &mut Core<'_, P, C, M>,
    partition: PartitionId,
    worker: WorkerId,
) -> Result<(), Memory> {
    if !core.state().may_host(partition, worker) {
        return Err(AllocError);
    }
    core.host(partition, worker)
}

fn restore_first<P: Computation, C: MessageCombiner<P::Message>, M: MasterCompute>(
    alloc: Global,
    core: &mut Core<'_, P, C, M>,
    partition: PartitionId,
) -> Result<(), Memory> {
    if !core.state().may_restore(partition, Superstep::new(0)) {
        return Err(AllocError);
    }
    core.restore(alloc, partition, None)
}

fn restore_found<P: Computation, C: MessageCombiner<P::Message>, M: MasterCompute>(
    alloc: Global,
    core: &mut Core<'_, P, C, M>,
    shelf: &mut Shelf<P::Value, P::Message>,
    partition: PartitionId,
    recorded: Recorded<P::Value, P::Message>,
) -> Result<(), Memory> {
    let part = recorded.resumed(alloc, core, partition)?;
    put(shelf, partition, Recorded::of(alloc, &part)?);
    if !core.state().may_restore(partition, part.place()) {
        return Err(AllocError);
    }
    core.restore(alloc, partition, Some(part))
}

pub(crate) fn restore<P: Computation, C: MessageCombiner<P::Message>, M: MasterCompute>(
    alloc: Global,
    core: &mut Core<'_, P, C, M>,
    shelf: &mut Shelf<P::Value, P::Message>,
    partition: PartitionId,
) -> Result<(), Memory> {
    let found = match shelf.get_mut(partition.number() as usize) {
        Some(place) => place.take(),
        None => None,
    };
    match found {
        Some(recorded) => restore_found(alloc, core, shelf, partition, recorded),
        None => restore_first(alloc, core, partition),
    }
}

pub(crate) fn close<P: Computation, C: MessageCombiner<P::Message>, M: MasterCompute>(
    alloc: Global,
    core: &mut Core<'_, P, C, M>,
) -> Result<(), Memory> {
    if !core.may_close() {
        return Err(AllocError);
    }
    core.close(alloc)?;
    Ok(())
}

pub(crate) fn happen<P: Computation, C: MessageCombiner<P::Message>, M: MasterCompute>(
    alloc: Global,
    core: &mut Core<'_, P, C, M>,
    shelf: &mut Shelf<P::Value, P::Message>,
    happening: Happening,
    meter: &mut Meter,
) -> Result<(), Memory> {
    match happening {
        Happening::Step(partition) => step_once(alloc, core, PartitionId::new(partition), meter),
        Happening::Save(partition) => save(alloc, core, shelf, PartitionId::new(partition)),
        Happening::Lose(worker) => lose(core, WorkerId::new(worker)),
        Happening::Host(partition, worker) => {
            host(core, PartitionId::new(partition), WorkerId::new(worker))
        }
        Happening::Restore(partition) => restore(alloc, core, shelf, PartitionId::new(partition)),
        Happening::Close => close(alloc, core),
    }
}

// What happens in a run by this list, and then in turn until it ends.
pub(crate) fn drive<P: Computation, C: MessageCombiner<P::Message>, M: MasterCompute>(
    alloc: Global,
    core: &mut Core<'_, P, C, M>,
    happenings: &[Happening],
    meter: &mut Meter,
) -> Result<(), Memory> {
    let mut shelf = empty_shelf(alloc, core.limits().partitions())?;
    for next in happenings {
        happen(alloc, core, &mut shelf, *next, meter)?;
    }
    for _ in 0..1_000 {
        if core.state().ended() {
            return Ok(());
        }
        go_on(alloc, core, meter)?;
    }
    Err(AllocError)
}

// A step of the first partition that is ready, or else the close of the superstep.
pub(crate) fn go_on<P: Computation, C: MessageCombiner<P::Message>, M: MasterCompute>(
    alloc: Global,
    core: &mut Core<'_, P, C, M>,
    meter: &mut Meter,
) -> Result<(), Memory> {
    let ready = core.ready(alloc)?;
    match ready.as_slice().first() {
        Some((_, partition)) => step_once(alloc, core, *partition, meter),
        None => close(alloc, core),
    }
}
