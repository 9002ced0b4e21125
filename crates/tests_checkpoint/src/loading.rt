use crate::saving::{SAVED, graph, id};
use pg_checkpoint::{Loaded, MemShelf, Shelf, load, save};
use pg_global::Registry;
use pg_graph::{Missing, PartitionId};
use pg_part::{Part, Partitioner};
use pregeld_programs::Sssp;
use std::alloc::Global;
use std::test::*;

// That part in format 1.
const FIRST: [u8; 118] = [
    0x50, 0x47, 0x43, 0x31, 0x76, 0, 0, 0, 0, 0, 0, 0, 1, 0, 0, 0, 0, 0, 0, 0, 1, 0, 0, 0, 1, 0, 0,
    0, 1, 0, 0, 0, 0, 0, 0, 0, 1, 0, 0, 0, 0, 0, 0, 0, 1, 0, 0, 0, 0, 0, 0, 0, 0, 1, 0, 0, 0, 0, 0,
    0, 0, 2, 0, 0, 0, 0, 0, 0, 0, 5, 0, 0, 0, 0, 0, 0, 0, 1, 0, 0, 0, 0, 0, 0, 0, 2, 0, 0, 0, 0, 0,
    0, 0, 5, 0, 0, 0, 0, 0, 0, 0, 1, 0, 0, 0, 0, 0, 0, 0, 0, 1, 0, 0, 0, 0, 0, 0, 0,
];

// What a load answers, and of a part where it stands.
#[derive(Clone, Copy, Debug, PartialEq, Eq)]
enum Answer {
    Cold(u32),
    Warm,
    Missing,
    Damaged,
}

// What stands in a shelf of partition 1 of three, in a run.
fn in_shelf(alloc: Global, shelf: &mut MemShelf, run: u64) -> Result<Loaded<i64, i64>, Fail> {
    let graph = graph(alloc)?;
    let partitioner = Partitioner::new(3).ok_or("three partitions")?;
    let rows = partitioner.rows(&graph, PartitionId::new(1));
    let registry = Registry::new(alloc);
    let program = Sssp { source: id(1)? };
    let loaded = load(alloc, shelf, run, rows, Missing::Drop, &registry, &program);
    Ok(loaded.ok().ok_or("the shelf is at hand")?)
}

// A shelf with these bytes under the key of partition 1.
fn shelf_of(alloc: Global, bytes: &[u8]) -> Result<MemShelf, Fail> {
    let mut shelf = MemShelf::new(alloc);
    shelf.put(b"p1", bytes).ok().ok_or("the shelf is at hand")?;
    Ok(shelf)
}

fn answered(loaded: Loaded<i64, i64>) -> Answer {
    match loaded {
        Loaded::Found(part) => {
            if part.is_warm() {
                Answer::Warm
            } else {
                Answer::Cold(part.place().number())
            }
        }
        Loaded::Missing => Answer::Missing,
        Loaded::Damaged => Answer::Damaged,
    }
}

// What these bytes are in a run.
fn reported(alloc: Global, bytes: &[u8], run: u64) -> Result<Answer, Fail> {
    let mut shelf = shelf_of(alloc, bytes)?;
    Ok(answered(in_shelf(alloc, &mut shelf, run)?))
}

// What the bytes of format 2 are in run 1 with another byte in one place.
fn with_byte(alloc: Global, place: usize, byte: u8) -> Result<Answer, Fail> {
    let mut bytes = SAVED;
    if place < bytes.len() {
        bytes[place] = byte;
    }
    reported(alloc, bytes.as_slice(), 1)
}

fn found(loaded: Loaded<i64, i64>) -> Option<Part<i64, i64>> {
    match loaded {
        Loaded::Found(part) => Some(part),
        Loaded::Missing => None,
        Loaded::Damaged => None,
    }
}

#[test]
fn finds_both_formats(rt: HostRuntime) -> Result<(), Fail> {
    let alloc = rt.alloc();
    assert_eq!(rt; reported(alloc, SAVED.as_slice(), 1)?, Answer::Cold(1));
    assert_eq!(rt; reported(alloc, FIRST.as_slice(), 1)?, Answer::Cold(1));
    Ok(())
}

#[test]
fn finds_the_part_that_was_saved(rt: HostRuntime) -> Result<(), Fail> {
    let alloc = rt.alloc();
    let mut shelf = shelf_of(alloc, FIRST.as_slice())?;
    let part = found(in_shelf(alloc, &mut shelf, 1)?).ok_or("it stands there")?;
    assert!(rt; save(alloc, &mut shelf, &part, 1).is_ok());
    let bytes = shelf.get(alloc, b"p1").ok().ok_or("the shelf is at hand")?;
    let bytes = bytes.ok_or("something stands there")?;
    assert_eq!(rt; bytes.as_slice(), SAVED.as_slice());
    Ok(())
}

#[test]
fn nothing_is_missing(rt: HostRuntime) -> Result<(), Fail> {
    let alloc = rt.alloc();
    let mut shelf = MemShelf::new(alloc);
    assert_eq!(rt; answered(in_shelf(alloc, &mut shelf, 1)?), Answer::Missing);
    shelf
        .put(b"p2", SAVED.as_slice())
        .ok()
        .ok_or("the shelf is at hand")?;
    assert_eq!(rt; answered(in_shelf(alloc, &mut shelf, 1)?), Answer::Missing);
    Ok(())
}

#[test]
fn beginnings_are_damaged(rt: HostRuntime) -> Result<(), Fail> {
    let alloc = rt.alloc();
    for len in 0..SAVED.len() {
        assert_eq!(rt; reported(alloc, &SAVED[..len], 1)?, Answer::Damaged);
    }
    for len in 0..FIRST.len() {
        assert_eq!(rt; reported(alloc, &FIRST[..len], 1)?, Answer::Damaged);
    }
    Ok(())
}

#[test]
fn left_over_bytes_are_damage(rt: HostRuntime) -> Result<(), Fail> {
    let alloc = rt.alloc();
    for bytes in [SAVED.as_slice(), FIRST.as_slice()] {
        let mut more = Vec::from_slice(alloc, bytes)?;
        more.push(0)?;
        assert_eq!(rt; reported(alloc, more.as_slice(), 1)?, Answer::Damaged);
    }
    Ok(())
}

#[test]
fn another_run_is_damage(rt: HostRuntime) -> Result<(), Fail> {
    let alloc = rt.alloc();
    assert_eq!(rt; reported(alloc, SAVED.as_slice(), 2)?, Answer::Damaged);
    assert_eq!(rt; reported(alloc, FIRST.as_slice(), 2)?, Answer::Damaged);
    Ok(())
}

#[test]
fn wrong_bytes_are_damage(rt: HostRuntime) -> Result<(), Fail> {
    let alloc = rt.alloc();
    // The magic, the length, the partition.
    assert_eq!(rt; with_byte(alloc, 3, 0x33)?, Answer::Damaged);
    assert_eq!(rt; with_byte(alloc, 4, 0x7d)?, Answer::Damaged);
    assert_eq!(rt; with_byte(alloc, 20, 2)?, Answer::Damaged);
    // Two out-edges in place of one.
    assert_eq!(rt; with_byte(alloc, 28, 2)?, Answer::Damaged);
    // The id: of another partition, of none that the graph has, and above 2^63 - 1.
    assert_eq!(rt; with_byte(alloc, 44, 2)?, Answer::Damaged);
    assert_eq!(rt; with_byte(alloc, 44, 4)?, Answer::Damaged);
    assert_eq!(rt; with_byte(alloc, 51, 0x80)?, Answer::Damaged);
    // Halted: neither, and not.
    assert_eq!(rt; with_byte(alloc, 52, 2)?, Answer::Damaged);
    assert_eq!(rt; with_byte(alloc, 52, 0)?, Answer::Cold(1));
    // A place that the program doesn't contribute to.
    assert_eq!(rt; with_byte(alloc, 117, 1)?, Answer::Damaged);
    Ok(())
}

// Three stretches of bytes one after another, as long as they say, with another byte in one place.
fn joined(alloc: Global, stretches: [&[u8]; 3], place: usize, byte: u8) -> Result<Vec<u8>, Fail> {
    let mut bytes = Vec::new(alloc);
    for stretch in stretches {
        bytes.extend_from_slice(stretch)?;
    }
    let len = bytes.len();
    if place < len && 4 < len && len < 256 {
        bytes[4] = len as u8;
        bytes[place] = byte;
    }
    Ok(bytes)
}

#[test]
fn ids_rise(rt: HostRuntime) -> Result<(), Fail> {
    let alloc = rt.alloc();
    // The record in two supersteps, and twice in one.
    let both = joined(alloc, [FIRST.as_slice(), &FIRST[28..], &[]], 24, 2)?;
    assert_eq!(rt; reported(alloc, both.as_slice(), 1)?, Answer::Cold(2));
    let twice = joined(alloc, [FIRST.as_slice(), &FIRST[36..], &[]], 28, 2)?;
    assert_eq!(rt; reported(alloc, twice.as_slice(), 1)?, Answer::Damaged);
    Ok(())
}

#[test]
fn targets_rise(rt: HostRuntime) -> Result<(), Fail> {
    let alloc = rt.alloc();
    // An out-edge to 2 and one to 3, and both to 2.
    let further = [3, 0, 0, 0, 0, 0, 0, 0, 5, 0, 0, 0, 0, 0, 0, 0];
    let both = joined(alloc, [&FIRST[..77], &further, &FIRST[77..]], 53, 2)?;
    assert_eq!(rt; reported(alloc, both.as_slice(), 1)?, Answer::Cold(1));
    let twice = joined(alloc, [&FIRST[..77], &FIRST[61..77], &FIRST[77..]], 53, 2)?;
    assert_eq!(rt; reported(alloc, twice.as_slice(), 1)?, Answer::Damaged);
    Ok(())
}
