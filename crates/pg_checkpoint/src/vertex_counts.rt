//! How many out-edges the records of a part leave its vertices.
ghost use Rattle.std.specs.Prelude.{◌≡◌, ◌<◌, ◌≤◌, ◌^◌, ◌++◌, length, map, take, IfOk, OnOk};
ghost use Rattle.std.specs.List.{flat_map};
ghost use Rattle.std.specs.Map.{keys_of};
ghost use Rattle.pg_checkpoint.specs.Records.{edges_behind};

use pg_graph::{Memory, Superstep, VertexId};
use pg_part::{rising, vertex_counts_among};
use pg_program::Plain;
use pg_trace::Trace;
use std::alloc::Global;

/// How many out-edges the vertices of a trace have behind its supersteps.
pub(crate) fn edges_of<V: Plain, M: Plain>(
    alloc: Global,
    trace: &Trace<V, M>,
) -> Result<u64, Memory>
    requires { length trace.now.records < 2 ^ 32 }
    ensures { IfOk result (λ edges. edges ≡ edges_behind trace.now.initial trace.now.records) }
{
    let supersteps = trace.supersteps() as u32;
    let ids = ids_in(alloc, trace, supersteps)?;
    let ids = rising(ids);
    let vertex_counts = vertex_counts_among(trace, Superstep::new(supersteps), ids.as_slice())?;
    Ok(vertex_counts.edges)
}

/// The ids of the vertices that a trace has in its first supersteps, so many of them.
fn ids_in<V: Plain, M: Plain>(
    alloc: Global,
    trace: &Trace<V, M>,
    supersteps: u32,
) -> Result<Vec<VertexId>, Memory>
    requires { supersteps ≤ length trace.now.records }
    ensures { IfOk result (λ ids.
        ids.items ≡ map (λ x. x.id) trace.now.initial ++ flat_map keys_of (take supersteps trace.now.records)) }
{
    let mut ids = trace.initial_ids(alloc)?;
    for superstep in 0..supersteps {
        let records = trace.records(alloc, Superstep::new(superstep))?;
        add_ids(&mut ids, records.as_slice())?;
    }
    Ok(ids)
}

/// Adds the ids of entries.
fn add_ids<X>(ids: &mut Vec<VertexId>, entries: &[(VertexId, X)]) -> Result<(), Memory>
    ensures { OnOk result (ids.new.items ≡ ids.old.items ++ keys_of entries.now) }
{
    for entry in entries {
        ids.push(entry.0)?;
    }
    Ok(())
}
