// A checkpoint of several records, and what ten thousand mutations of it are.
use crate::saving::{graph, id};
use pg_checkpoint::{Loaded, MemShelf, Shelf, load, save};
use pg_global::Registry;
use pg_graph::{Graph, Memory, Missing, PartitionId};
use pg_part::{Part, Partitioner};
use pregeld_programs::Sssp;
use std::alloc::Global;
use std::test::*;

const MUTATIONS: u32 = 10_000;

// Where the number of out-edges stands, and the first ids of the two supersteps.
const EDGES: usize = 28;

const FIRST_ID: usize = 44;

const NEXT_ID: usize = 282;

#[derive(Drop)]
struct Random {
    seed: u64,
}

impl Random {
    fn below(&mut self, count: usize) -> usize {
        self.seed = self
            .seed
            .wrapping_mul(6_364_136_223_846_793_005)
            .wrapping_add(1_442_695_040_888_963_407);
        let drawn = usize::try_from(self.seed >> 33).unwrap_or(0);
        drawn.checked_rem(count).unwrap_or(0)
    }

    // Any byte, or more often a small one.
    fn byte(&mut self) -> u8 {
        let count = if self.below(3) == 0 { 256 } else { 5 };
        u8::try_from(self.below(count)).unwrap_or(0)
    }
}

// What became of mutated bytes.
#[derive(Clone, Copy, PartialEq, Eq)]
enum Outcome {
    Damaged,
    // A part that is saved as just these bytes.
    Found,
    // A part that isn't, or none.
    Wrong,
}

fn put(bytes: &mut Vec<u8>, number: u64) -> Result<(), Memory> {
    bytes.extend_from_slice(&number.to_le_bytes())?;
    Ok(())
}

// The record of a vertex that halted with value 0 and these out-edges, sent 5 to vertex 2, and contributed 1 at place
// 0.
fn put_record(bytes: &mut Vec<u8>, id: u64, edges: &[(u64, u64)]) -> Result<(), Memory> {
    put(bytes, id)?;
    bytes.push(1)?;
    put(bytes, 0)?;
    put(bytes, edges.len() as u64)?;
    for edge in edges {
        put(bytes, edge.0)?;
        put(bytes, edge.1)?;
    }
    for number in [1, 2, 5, 1] {
        put(bytes, number)?;
    }
    bytes.push(0)?;
    put(bytes, 1)
}

// The checkpoint of partition 0 in run 1 past two supersteps: all three vertices ran, and then two of them.
fn checkpoint(alloc: Global) -> Result<Vec<u8>, Memory> {
    let mut bytes = Vec::from_slice(alloc, b"PGC2")?;
    put(&mut bytes, 0)?;
    put(&mut bytes, 1)?;
    bytes.extend_from_slice(&[0, 0, 0, 0, 2, 0, 0, 0])?;
    put(&mut bytes, 2)?;
    put(&mut bytes, 3)?;
    put_record(&mut bytes, 1, &[(2, 5)])?;
    put_record(&mut bytes, 2, &[(3, 2)])?;
    put_record(&mut bytes, 3, &[])?;
    put(&mut bytes, 2)?;
    put_record(&mut bytes, 2, &[(3, 2)])?;
    put_record(&mut bytes, 3, &[])?;
    right_length(&mut bytes);
    Ok(bytes)
}

fn bytes_of(alloc: Global, part: &Part<i64, i64>) -> Result<Vec<u8>, Fail> {
    let mut shelf = MemShelf::new(alloc);
    let saved = save(alloc, &mut shelf, part, 1);
    saved.ok().ok_or("the shelf is at hand")?;
    let found = shelf.get(alloc, b"p0").ok().ok_or("the shelf is at hand")?;
    Ok(found.ok_or("something stands there")?)
}

// What these bytes are in run 1.
fn outcome_of(alloc: Global, graph: &Graph, bytes: &[u8]) -> Result<Outcome, Fail> {
    let mut shelf = MemShelf::new(alloc);
    shelf.put(b"p0", bytes).ok().ok_or("the shelf is at hand")?;
    let partitioner = Partitioner::new(1).ok_or("one partition")?;
    let rows = partitioner.rows(graph, PartitionId::new(0));
    let registry = Registry::new(alloc);
    let program = Sssp { source: id(1)? };
    let loaded = load(
        alloc,
        &mut shelf,
        1,
        rows,
        Missing::Create,
        &registry,
        &program,
    );
    match loaded.ok().ok_or("the shelf is at hand")? {
        Loaded::Damaged => Ok(Outcome::Damaged),
        Loaded::Missing => Ok(Outcome::Wrong),
        Loaded::Found(part) => {
            let same = bytes_of(alloc, &part)?.as_slice() == bytes;
            Ok(if same { Outcome::Found } else { Outcome::Wrong })
        }
    }
}

// The bytes with another one in one place, without one, or with one more, and more often than not with their right
// length.
fn mutated(alloc: Global, bytes: &[u8], random: &mut Random) -> Result<Vec<u8>, Fail> {
    let place = random.below(bytes.len());
    let (front, back) = bytes.split_at(place.min(bytes.len()));
    let mut mutated = Vec::from_slice(alloc, front)?;
    let kind = random.below(8);
    if kind != 0 {
        mutated.push(random.byte())?;
    }
    let skipped = if kind == 1 { 0 } else { 1 };
    mutated.extend_from_slice(&back[skipped.min(back.len())..])?;
    if random.below(4) != 0 {
        right_length(&mut mutated);
    }
    Ok(mutated)
}

fn right_length(bytes: &mut Vec<u8>) {
    let len = (bytes.len() as u64).to_le_bytes();
    for place in 0..8 {
        if place + 4 < bytes.len() {
            bytes[place + 4] = len[place];
        }
    }
}

// What the bytes are with other bytes in some places.
fn with_bytes(alloc: Global, graph: &Graph, changes: &[(usize, u8)]) -> Result<Outcome, Fail> {
    let mut bytes = checkpoint(alloc)?;
    for (place, byte) in changes {
        if *place < bytes.len() {
            bytes[*place] = *byte;
        }
    }
    outcome_of(alloc, graph, bytes.as_slice())
}

// Vertex 0, which the graph doesn't have, with an out-edge.
#[test]
fn made_vertices_run_from_superstep_1_on(rt: HostRuntime) -> Result<(), Fail> {
    let alloc = rt.alloc();
    let graph = graph(alloc)?;
    assert!(rt; with_bytes(alloc, &graph, &[(EDGES, 2)])? == Outcome::Found);
    assert!(rt; with_bytes(alloc, &graph, &[(EDGES, 3)])? == Outcome::Damaged);
    assert!(rt; with_bytes(alloc, &graph, &[(EDGES, 3), (FIRST_ID, 0)])? == Outcome::Damaged);
    assert!(rt; with_bytes(alloc, &graph, &[(EDGES, 3), (NEXT_ID, 0)])? == Outcome::Found);
    assert!(rt; with_bytes(alloc, &graph, &[(EDGES, 2), (NEXT_ID, 0)])? == Outcome::Damaged);
    Ok(())
}

#[test]
fn mutations_are_damage_or_other_checkpoints(rt: HostRuntime) -> Result<(), Fail> {
    let alloc = rt.alloc();
    let graph = graph(alloc)?;
    let bytes = checkpoint(alloc)?;
    let mut random = Random { seed: 57 };
    let mut damaged = 0u32;
    let mut found = 0u32;
    for _ in 0..MUTATIONS {
        let mutated = mutated(alloc, bytes.as_slice(), &mut random)?;
        match outcome_of(alloc, &graph, mutated.as_slice())? {
            Outcome::Damaged => damaged = damaged.saturating_add(1),
            Outcome::Found => found = found.saturating_add(1),
            Outcome::Wrong => return Err(Fail::from("a part that the bytes aren't of")),
        }
    }
    assert!(rt; damaged > 1000);
    assert!(rt; found > 1000);
    Ok(())
}
