//! Writing the bytes of a part.
ghost use Rattle.std.specs.Prelude.{◌≡◌, ◌≤◌, ◌++◌, drop, length, map, take, IfOk, OnOk};
ghost use Rattle.std.specs.List.{AllByRecursion, flat_map};
ghost use Rattle.std.specs.Map.{keys_of};
ghost use Rattle.pg_checkpoint.specs.Bytes.{half_coding, record_coding, second_magic, superstep_coding};
ghost use Rattle.pg_checkpoint.specs.Records.{IsCodable};
ghost use Rattle.pg_program.specs.Coding.{list_coding, natural_coding};
ghost use Rattle.pg_program.specs.Plain.{are_listed};

use pg_graph::{Memory, Superstep, VertexId};
use pg_program::{Coded, Plain};
use pg_trace::{RecordRef, Trace};
use std::alloc::Global;

/// The magic PGC2, with which format 2 begins.
pub(crate) const SECOND: [u8; 4] = [0x50, 0x47, 0x43, 0x32];

/// What stands before the supersteps in format 2.
#[derive(Clone, Copy)]
pub(crate) struct Header {
    /// How many bytes the checkpoint has.
    pub len: u64,
    pub run: u64,
    pub partition: u32,
    pub supersteps: u32,
    pub edges: u64,
}

/// How many bytes a header has.
const HEADER_LEN: usize = 36;

/// As many bytes as a header has.
pub(crate) fn header_room(alloc: Global) -> Result<Vec<u8>, Memory>
    ensures { IfOk result (λ bytes. length bytes.items ≡ 36) }
{
    let mut bytes = Vec::new(alloc);
    bytes.extend_from_slice(&[0; HEADER_LEN])?;
    Ok(bytes)
}

/// The bytes of a header.
pub(crate) fn header_bytes(alloc: Global, header: Header) -> Result<Vec<u8>, Memory>
    ensures { IfOk result (λ bytes. bytes.items ≡ second_magic ++ (natural_coding header.len
        ++ (natural_coding header.run
        ++ (half_coding header.partition ++ (half_coding header.supersteps ++ natural_coding header.edges))))) }
{
    let mut bytes = Vec::with_capacity(alloc, HEADER_LEN)?;
    bytes.extend_from_slice(&SECOND)?;
    bytes.extend_from_slice(&header.len.to_le_bytes())?;
    bytes.extend_from_slice(&header.run.to_le_bytes())?;
    bytes.extend_from_slice(&header.partition.to_le_bytes())?;
    bytes.extend_from_slice(&header.supersteps.to_le_bytes())?;
    bytes.extend_from_slice(&header.edges.to_le_bytes())?;
    Ok(bytes)
}

/// Puts bytes in place of the first ones.
fn put_front(bytes: &mut [u8], front: &[u8])
    requires { length front.now ≤ length bytes.old }
    ensures { bytes.new ≡ front.now ++ drop (length front.now) bytes.old }
{
    bytes[..front.len()].copy_from_slice(front);
}

/// Bytes with others in place of the first ones.
pub(crate) fn with_front(bytes: Vec<u8>, front: &[u8]) -> Vec<u8>
    requires { length front.now ≤ length bytes.items }
    ensures { result.items ≡ front.now ++ drop (length front.now) bytes.items }
{
    let mut bytes = bytes;
    put_front(bytes.as_mut_slice(), front);
    bytes
}

/// Appends how many values there are, and then each.
fn put_list<T: Coded>(bytes: &mut Vec<u8>, items: &[T]) -> Result<(), Memory>
    ensures bytes { OnOk result (bytes.new.items ≡ bytes.old.items ++ list_coding T.coding items.now) }
    ensures values { OnOk result (are_listed T.is_value items.now) }
{
    bytes.extend_from_slice(&(items.len() as u64).to_le_bytes())?;
    for item in items {
        item.fits();
        item.encode(bytes)?;
    }
    Ok(())
}

/// Appends a record.
fn put_record<V: Coded, M: Coded>(
    bytes: &mut Vec<u8>,
    id: VertexId,
    given: &RecordRef<'_, V, M>,
) -> Result<(), Memory>
    ensures bytes { OnOk result
        (bytes.new.items ≡ bytes.old.items ++ record_coding V.coding M.coding (id, given.now)) }
    ensures codable { OnOk result (IsCodable V.is_value M.is_value (id, given.now)) }
{
    id.fits();
    given.value().fits();
    id.encode(bytes)?;
    given.halted().encode(bytes)?;
    given.value().encode(bytes)?;
    put_list(bytes, given.edges().as_slice())?;
    put_list(bytes, given.sent())?;
    put_list(bytes, given.contributed())
}

/// Appends the records of a superstep, and adds the ids of their vertices.
fn put_superstep<V: Coded, M: Coded>(
    bytes: &mut Vec<u8>,
    ids: &mut Vec<VertexId>,
    records: &[(VertexId, RecordRef<'_, V, M>)],
) -> Result<(), Memory>
    ensures bytes { OnOk result
        (bytes.new.items ≡ bytes.old.items ++ superstep_coding V.coding M.coding records.now) }
    ensures codable { OnOk result (are_listed (IsCodable V.is_value M.is_value) records.now) }
    ensures ids { OnOk result (ids.new.items ≡ ids.old.items ++ keys_of records.now) }
{
    bytes.extend_from_slice(&(records.len() as u64).to_le_bytes())?;
    for record in records {
        put_record(bytes, record.0, &record.1)?;
        ids.push(record.0)?;
    }
    Ok(())
}

/// Appends the first supersteps of a trace, so many of them, and tells the ids of all vertices that it has up to there.
pub(crate) fn put_supersteps<V: Coded, M: Coded>(
    alloc: Global,
    bytes: &mut Vec<u8>,
    trace: &Trace<V, M>,
    supersteps: u32,
) -> Result<Vec<VertexId>, Memory>
    requires { supersteps ≤ length trace.now.records }
    ensures bytes { IfOk result (λ ids. bytes.new.items
        ≡ bytes.old.items ++ flat_map (superstep_coding V.coding M.coding) (take supersteps trace.now.records)) }
    ensures codable { IfOk result (λ ids.
        AllByRecursion (are_listed (IsCodable V.is_value M.is_value)) (take supersteps trace.now.records)) }
    ensures ids { IfOk result (λ ids.
        ids.items ≡ map (λ x. x.id) trace.now.initial ++ flat_map keys_of (take supersteps trace.now.records)) }
{
    let mut ids = trace.initial_ids(alloc)?;
    for superstep in 0..supersteps {
        let records = trace.records(alloc, Superstep::new(superstep))?;
        put_superstep(bytes, &mut ids, records.as_slice())?;
    }
    Ok(ids)
}
