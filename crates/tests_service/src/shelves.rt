//! Honest shelves that count what they are asked: one that may fail, one that keeps only beginnings, and one that
//! keeps nothing.
ghost use Rattle.std.specs.Prelude.{◌≡◌};

use pg_service::{MemShelf, Shelf, ShelfFault};
use std::alloc::Global;

/// A shelf in memory whose device fails at one call, by number from 1 on; at none where
/// that is 0.
#[derive(Drop)]
pub(crate) struct NthShelf {
    inner: MemShelf,
    failing: u64,
    calls: u64,
    failures: u64,
}

impl NthShelf {
    pub(crate) fn new(alloc: Global, failing: u64) -> NthShelf {
        NthShelf {
            inner: MemShelf::new(alloc),
            failing,
            calls: 0,
            failures: 0,
        }
    }

    /// How many puts and gets were asked.
    pub(crate) fn calls(&self) -> u64 {
        self.calls
    }
}

impl Shelf for NthShelf {
    ghost use Rattle.pg_service.specs.Handed.{mem_state};

    ghost state = { λ shelf. record (mem_state shelf.inner) { failures = shelf.failures } };

    fn failures(&self) -> u64 {
        self.failures
    }

    fn put(&mut self, key: &[u8], bytes: &[u8]) -> Result<(), ShelfFault> {
        self.calls = self.calls.saturating_add(1);
        if self.calls == self.failing {
            self.failures += 1;
            return Err(ShelfFault::Device);
        }
        match self.inner.put(key, bytes) {
            Ok(()) => Ok(()),
            Err(_) => Err(ShelfFault::Memory),
        }
    }

    fn get(&mut self, alloc: Global, key: &[u8]) -> Result<Option<Vec<u8>>, ShelfFault> {
        self.calls = self.calls.saturating_add(1);
        if self.calls == self.failing {
            self.failures += 1;
            return Err(ShelfFault::Device);
        }
        match self.inner.get(alloc, key) {
            Ok(found) => Ok(found),
            Err(_) => Err(ShelfFault::Memory),
        }
    }
}

/// A shelf in memory that keeps all but the last byte of what it is given.
#[derive(Drop)]
pub(crate) struct ShortShelf {
    inner: MemShelf,
    calls: u64,
}

impl ShortShelf {
    pub(crate) fn new(alloc: Global) -> ShortShelf {
        ShortShelf {
            inner: MemShelf::new(alloc),
            calls: 0,
        }
    }

    /// How many puts and gets were asked.
    pub(crate) fn calls(&self) -> u64 {
        self.calls
    }
}

impl Shelf for ShortShelf {
    ghost use Rattle.pg_service.specs.Handed.{mem_state};

    ghost state = { λ shelf. mem_state shelf.inner };

    fn failures(&self) -> u64 {
        0
    }

    fn put(&mut self, key: &[u8], bytes: &[u8]) -> Result<(), ShelfFault> {
        self.calls = self.calls.saturating_add(1);
        match self.inner.put(key, &bytes[..bytes.len().saturating_sub(1)]) {
            Ok(()) => Ok(()),
            Err(_) => Err(ShelfFault::Memory),
        }
    }

    fn get(&mut self, alloc: Global, key: &[u8]) -> Result<Option<Vec<u8>>, ShelfFault> {
        self.calls = self.calls.saturating_add(1);
        match self.inner.get(alloc, key) {
            Ok(found) => Ok(found),
            Err(_) => Err(ShelfFault::Memory),
        }
    }
}

/// A shelf that keeps nothing.
#[derive(Drop)]
pub(crate) struct EmptyShelf {
    calls: u64,
}

impl EmptyShelf {
    pub(crate) fn new() -> EmptyShelf {
        EmptyShelf { calls: 0 }
    }

    /// How many puts and gets were asked.
    pub(crate) fn calls(&self) -> u64 {
        self.calls
    }
}

impl Shelf for EmptyShelf {
    ghost use Rattle.std.specs.Prelude.{true};
    ghost use Rattle.std.specs.FinMap.{empty};

    ghost state = { λ _. record { stored = empty; is_honest = true; failures = 0 } };

    fn failures(&self) -> u64 {
        0
    }

    fn put(&mut self, _key: &[u8], _bytes: &[u8]) -> Result<(), ShelfFault> {
        self.calls = self.calls.saturating_add(1);
        Ok(())
    }

    fn get(&mut self, _alloc: Global, _key: &[u8]) -> Result<Option<Vec<u8>>, ShelfFault> {
        self.calls = self.calls.saturating_add(1);
        Ok(None)
    }
}
