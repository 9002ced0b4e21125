//! A partition goes on by the records of a superstep.
ghost use Rattle.std.specs.Prelude.{◌≡◌, ◌+◌, ◌<◌, ◌^◌, length, IfOk};
ghost use Rattle.std.specs.Map.{keys_of};
ghost use Rattle.pg_part.specs.PartRun.{with_resumed};
ghost use Rattle.pg_map.specs.Entries.{HasRisingIds};

use crate::PartRun;
use crate::part_run::with_records;
use pg_graph::{Memory, Superstep, VertexId};
use pg_model::Record;
use pg_part_compute::Diverged;
use pg_program::Plain;
use pg_trace::all_given;
use std::alloc::Global;

impl<V: Plain, M: Plain> PartRun<V, M> {
    /// A cold part run one superstep further, by the records of that: what its vertices gave as they were executed. It
    /// executes nothing. Where memory is refused the part run is gone.
    ///
    /// Costs a look-up in the trace's index for each record, whose messages and contributions are moved.
    pub fn resumed(
        self,
        alloc: Global,
        records: Vec<(VertexId, Record<V, M>)>,
    ) -> Result<PartRun<V, M>, Memory>
        requires rise { HasRisingIds records.items }
        requires next { length self.trace.records ≡ self.place }
        requires counts { self.place + 1 < 2 ^ 32 }
        ensures { IfOk result (λ after. after ≡ with_resumed records.items self) }
    {
        let PartRun {
            partition,
            partitions,
            missing,
            place,
            trace,
            ..
        } = self;
        let changed = ids_of(alloc, records.as_slice())?;
        let given = all_given(alloc, records)?;
        let trace = with_records(alloc, trace, place, given)?;
        Ok(PartRun {
            partition,
            partitions,
            missing,
            place: Superstep::new(place.number() + 1),
            trace,
            kept: None,
            diverged: Diverged::of(alloc, Vec::new(alloc)),
            changed,
            was_warm: false,
            vertex_counts_delta: None,
        })
    }
}

/// The ids of entries.
fn ids_of<X>(alloc: Global, entries: &[(VertexId, X)]) -> Result<Vec<VertexId>, Memory>
    ensures { IfOk result (λ ids. ids.items ≡ keys_of entries.now) }
{
    let mut ids = Vec::with_capacity(alloc, entries.len())?;
    for (id, _) in entries {
        ids.push(*id)?;
    }
    Ok(ids)
}
