//! Saving a part.
ghost use Rattle.std.specs.Prelude.{◌≡◌, ◌+◌, ◌<◌, ◌^◌, length, IfOk, OnOk};
ghost use Rattle.std.specs.String.{string_bytes};
ghost use Rattle.pg_checkpoint.specs.Loading.{key_of, part_coding};
ghost use Rattle.pg_checkpoint.specs.Records.{AreCodable, own_records};
ghost use Rattle.pg_checkpoint.specs.Shelf.{IsPut};

use crate::shelf::{Shelf, ShelfFault};
use crate::writing::{Header, header_bytes, header_room, put_supersteps, with_front};
use pg_graph::{Memory, PartitionId, Superstep};
use pg_part::{Part, rising, vertex_counts_among};
use pg_program::{Coded, Plain};
use pg_trace::Trace;
use std::alloc::Global;

/// Puts a part under the key of its partition: in format 2, with the records of the supersteps below its place.
///
/// Costs a walk over these records, a sort of the ids of their vertices and of those with which the part began, and a
/// look-up of the state of each.
pub fn save<V: Coded, M: Coded, S: Shelf>(
    alloc: Global,
    shelf: &mut S,
    part: &Part<V, M>,
    run: u64,
) -> Result<(), ShelfFault>
    requires counts { (S.state shelf.old).failures + 1 < 2 ^ 64 }
    ensures put { IsPut (key_of part.now.part_run.partition) (part_coding V.coding M.coding run part.now)
        (S.state shelf.old) result (S.state shelf.new) }
    ensures codable { OnOk result (AreCodable V.is_value M.is_value (own_records part.now)) }
    ensures fits { OnOk result (length (part_coding V.coding M.coding run part.now) < 2 ^ 64) }
{
    let key = key_of(alloc, part.partition())?;
    let bytes = bytes_of(alloc, part, run)?;
    shelf.put(key.as_bytes(), bytes.as_slice())
}

/// The key of a partition: a `p`, and its number in decimal.
pub(crate) fn key_of(alloc: Global, partition: PartitionId) -> Result<String, Memory>
    ensures { IfOk result (λ key. string_bytes key ≡ key_of partition) }
{
    let mut key = String::from_str(alloc, "p")?;
    let number = partition.number().to_string(alloc)?;
    key.push_str(number.as_str())?;
    Ok(key)
}

/// How many supersteps of a part's trace are its own: those below its place.
fn own_supersteps<V: Plain, M: Plain>(part: &Part<V, M>) -> u32
    ensures { result ≡ length (own_records part.now) }
{
    let place = part.place().number();
    let recorded = part.trace().supersteps();
    if recorded < place as usize {
        recorded as u32
    } else {
        place
    }
}

/// The bytes of a part.
fn bytes_of<V: Coded, M: Coded>(
    alloc: Global,
    part: &Part<V, M>,
    run: u64,
) -> Result<Vec<u8>, Memory>
    ensures bytes { IfOk result (λ bytes. bytes.items ≡ part_coding V.coding M.coding run part.now) }
    ensures codable { IfOk result (λ bytes. AreCodable V.is_value M.is_value (own_records part.now)) }
{
    let trace = part.trace();
    let supersteps = own_supersteps(part);
    let mut bytes = header_room(alloc)?;
    let ids = put_supersteps(alloc, &mut bytes, trace, supersteps)?;
    let ids = rising(ids);
    let edges = vertex_counts_among(trace, Superstep::new(supersteps), ids.as_slice())?.edges;
    let header = Header {
        len: bytes.len() as u64,
        run,
        partition: part.partition().number(),
        supersteps,
        edges,
    };
    let header = header_bytes(alloc, header)?;
    Ok(with_front(bytes, header.as_slice()))
}
