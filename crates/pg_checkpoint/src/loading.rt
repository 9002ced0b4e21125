//! Loading a part.
ghost use Rattle.std.specs.Prelude.{◌≡◌, ◌+◌, ◌<◌, ◌^◌, false, length, Some, IfOk};
ghost use Rattle.pg_checkpoint.specs.Loading.{IsLoaded, IsTaken, key_of};
ghost use Rattle.pg_checkpoint.specs.Records.{edges_behind};
ghost use Rattle.pg_checkpoint.specs.Shelf.{IsGot, at_key, is_device};
ghost use Rattle.pg_checkpoint.specs.Counted.{IsCount};
ghost use Rattle.pg_stats.specs.GlobalStats.{aggregators_of};

use crate::bounds::{Bounds, records_within};
use crate::checkpoint::key_of;
use crate::contents::{Contents, contents_in};
use crate::reading::Unread;
use crate::shelf::{Shelf, ShelfFault};
use crate::vertex_counts::edges_of;
use pg_global::Registry;
use pg_graph::{Memory, Missing};
use pg_part::{Part, PartitionOf, Rows};
use pg_program::{Coded, Computation, Plain};
use pg_trace::Trace;
use std::alloc::Global;

/// What a shelf has of a part.
#[derive(Drop)]
pub enum Loaded<V, M> {
    /// The part, with nothing of an old run.
    Found(Part<V, M>),
    /// Nothing stands under its key.
    Missing,
    /// What stands there isn't a checkpoint of the partition in the run.
    Damaged,
}

/// The part of a partition that stands under its key, in format 1 or 2, with nothing of an old run. Executes nothing.
///
/// Costs one pass over the bytes, what `Part::begin` and `Part::resume` cost, and a sort of the ids of the part's
/// vertices with a look-up of the state of each.
pub fn load<S: Shelf, V: Coded, M: Coded, P: Computation<Value = V, Message = M>>(
    alloc: Global,
    shelf: &mut S,
    run: u64,
    rows: Rows<'_>,
    missing: Missing,
    registry: &Registry,
    program: &P,
) -> Result<Loaded<V, M>, ShelfFault>
    requires counts { (S.state shelf.old).failures + 1 < 2 ^ 64 }
    ensures got { IsGot (S.state shelf.old) result (S.state shelf.new) }
    ensures loaded { IfOk result (IsLoaded V.is_value V.coding M.is_value M.coding
        (record {
          run = run;
          rows = rows.entry;
          missing = missing;
          program = P.program program.now;
          aggregators = aggregators_of registry.now;
        })
        (at_key (S.state shelf.new) (key_of rows.entry.partition))) }
{
    let key = key_of(alloc, rows.partition)?;
    match shelf.get(alloc, key.as_bytes())? {
        Some(bytes) => load_bytes(
            alloc,
            bytes.as_slice(),
            run,
            rows,
            missing,
            registry,
            program,
        ),
        None => Ok(Loaded::Missing),
    }
}

/// What these bytes are.
fn load_bytes<V: Coded, M: Coded, P: Computation<Value = V, Message = M>>(
    alloc: Global,
    bytes: &[u8],
    run: u64,
    rows: Rows<'_>,
    missing: Missing,
    registry: &Registry,
    program: &P,
) -> Result<Loaded<V, M>, ShelfFault>
    ensures loaded { IfOk result (IsLoaded V.is_value V.coding M.is_value M.coding
        (record {
          run = run;
          rows = rows.entry;
          missing = missing;
          program = P.program program.now;
          aggregators = aggregators_of registry.now;
        }) (Some bytes.now)) }
    ensures device { is_device result ≡ false }
{
    match taken(alloc, bytes, run, rows, missing, registry, program) {
        Ok(part) => Ok(Loaded::Found(part)),
        Err(Unread::Damaged) => Ok(Loaded::Damaged),
        Err(Unread::Memory) => Err(ShelfFault::Memory),
    }
}

/// The part whose bytes these are.
fn taken<V: Coded, M: Coded, P: Computation<Value = V, Message = M>>(
    alloc: Global,
    bytes: &[u8],
    run: u64,
    rows: Rows<'_>,
    missing: Missing,
    registry: &Registry,
    program: &P,
) -> Result<Part<V, M>, Unread>
    ensures { IsTaken V.is_value V.coding M.is_value M.coding
        (record {
          run = run;
          rows = rows.entry;
          missing = missing;
          program = P.program program.now;
          aggregators = aggregators_of registry.now;
        }) bytes.now result }
{
    let contents = contents_in::<V, M>(alloc, bytes, run, rows.partition.number())?;
    let Contents { edges, supersteps } = contents;
    let bounds = Bounds {
        graph: rows.graph(),
        share: PartitionOf {
            partition: rows.partition,
            partitions: rows.partitions,
        },
        missing,
        writes: program.declared().writes,
    };
    let records = records_within(alloc, supersteps, &bounds)?;
    let begun = Part::begin(alloc, rows, missing, registry, program)?;
    let part = begun.resume(alloc, records, registry)?;
    if is_count(alloc, edges, part.trace())? {
        Ok(part)
    } else {
        Err(Unread::Damaged)
    }
}

/// Whether this is how many out-edges the vertices of a trace have behind its supersteps, if it is stated.
fn is_count<V: Plain, M: Plain>(
    alloc: Global,
    edges: Option<u64>,
    trace: &Trace<V, M>,
) -> Result<bool, Memory>
    requires { length trace.now.records < 2 ^ 32 }
    ensures { IfOk result (IsCount edges (edges_behind trace.now.initial trace.now.records)) }
{
    match edges {
        Some(edges) => Ok(edges == edges_of(alloc, trace)?),
        None => Ok(true),
    }
}
