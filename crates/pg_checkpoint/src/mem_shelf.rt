//! A shelf in memory.
ghost use Rattle.std.specs.Prelude.{◌≡◌, ◌≢◌, ◌<◌, List, ℕ, None, Some, length, OnOk, OnErr, IfOk, IfSome, IfNone};
ghost use Rattle.std.specs.Option.{option_map};
ghost use Rattle.pg_checkpoint.specs.Mem.{IsPlace, bytes_at, lacks, mem_state};
ghost use Rattle.pg_checkpoint.specs.Shelf.{IsPut, IsGot, at_key};

use crate::shelf::{Shelf, ShelfFault};
use pg_graph::Memory;
use std::alloc::Global;

/// Bytes under a key.
#[derive(Drop)]
pub struct Entry {
    key: Vec<u8>,
    bytes: Vec<u8>,
}

/// A shelf in memory. It is honest, keeps all that it is given, and never answers `Device`.
#[derive(Drop)]
pub struct MemShelf {
    alloc: Global,
    entries: Vec<Entry>,
}

impl MemShelf {
    /// A shelf with nothing on it.
    pub fn new(alloc: Global) -> MemShelf
        ensures { (key : List ℕ) → at_key (mem_state result) key ≡ None }
    {
        MemShelf {
            alloc,
            entries: Vec::new(alloc),
        }
    }
}

impl Shelf for MemShelf {
    ghost state = { mem_state };

    fn failures(&self) -> u64 {
        0
    }

    fn put(&mut self, key: &[u8], bytes: &[u8]) -> Result<(), ShelfFault>
        ensures put { IsPut key.now bytes.now (mem_state self.old) result (mem_state self.new) }
        ensures kept { OnOk result (at_key (mem_state self.new) key.now ≡ Some bytes.now) }
        ensures others { OnOk result ((other : List ℕ) → other ≢ key.now
            → at_key (mem_state self.new) other ≡ at_key (mem_state self.old) other) }
        ensures err { OnErr result (mem_state self.new ≡ mem_state self.old) }
    {
        let key = copied(self.alloc, key)?;
        let bytes = copied(self.alloc, bytes)?;
        put_in(&mut self.entries, key, bytes)?;
        Ok(())
    }

    fn get(&mut self, alloc: Global, key: &[u8]) -> Result<Option<Vec<u8>>, ShelfFault>
        ensures got { IsGot (mem_state self.old) result (mem_state self.new) }
        ensures found { IfOk result (λ found. option_map (λ v. v.items) found ≡ at_key (mem_state self.new) key.now) }
        ensures unchanged { self.new ≡ self.old }
    {
        match place_of(self.entries.as_slice(), key) {
            Some(place) => Ok(Some(copied(alloc, self.entries[place].bytes.as_slice())?)),
            None => Ok(None),
        }
    }
}

/// The place of the entry with this key.
fn place_of(entries: &[Entry], key: &[u8]) -> Option<usize>
    ensures found { IfSome result (λ place. (place < length entries.now) × IsPlace key.now entries.now place) }
    ensures none { IfNone result (lacks key.now entries.now) }
{
    for (place, entry) in entries.iter().enumerate() {
        if entry.key.as_slice() == key {
            return Some(place);
        }
    }
    None
}

/// A list with these bytes.
fn copied(alloc: Global, bytes: &[u8]) -> Result<Vec<u8>, Memory>
    ensures { IfOk result (λ v. v.items ≡ bytes.now) }
{
    Ok(Vec::from_slice(alloc, bytes)?)
}

/// Puts bytes under a key, in place of those that stand there.
fn put_in(entries: &mut Vec<Entry>, key: Vec<u8>, bytes: Vec<u8>) -> Result<(), Memory>
    ensures kept { OnOk result (bytes_at key.items entries.new.items ≡ Some bytes.items) }
    ensures others { OnOk result ((other : List ℕ) → other ≢ key.items
        → bytes_at other entries.new.items ≡ bytes_at other entries.old.items) }
    ensures err { OnErr result (entries.new.items ≡ entries.old.items) }
{
    match place_of(entries.as_slice(), key.as_slice()) {
        Some(place) => {
            entries[place].bytes = bytes;
        }
        None => entries.push(Entry { key, bytes })?,
    }
    Ok(())
}
