//! Shelves that don't keep all, count what they are asked, and may fail once.
ghost use Rattle.std.specs.Prelude.{◌≡◌};

use pg_workers::{MemShelf, Shelf, ShelfFault};
use std::alloc::Global;
use tests_rounds::Findable;

/// What a shelf keeps of what it is given.
#[derive(Clone, Copy)]
pub(crate) enum Keeping {
    All,
    /// All but the last byte.
    Beginnings,
    Nothing,
    /// Under each key what was put there first.
    Firsts,
}

impl Keeping {
    /// Which checkpoint of a partition can be loaded then.
    pub(crate) fn findable(self) -> Findable {
        match self {
            Keeping::All => Findable::Last,
            Keeping::Firsts => Findable::First,
            Keeping::Beginnings | Keeping::Nothing => Findable::None,
        }
    }
}

/// A shelf that counts puts and gets, and whose device fails at one put and at one get, if at any.
#[derive(Drop)]
pub(crate) struct TestShelf {
    alloc: Global,
    inner: MemShelf,
    keeping: Keeping,
    puts: u64,
    gets: u64,
    failing_put: u64,
    failing_get: u64,
    failures: u64,
}

impl TestShelf {
    /// An empty shelf, whose device never fails.
    pub(crate) fn new(alloc: Global, keeping: Keeping) -> TestShelf {
        TestShelf::failing(alloc, keeping, 0, 0)
    }

    /// An empty shelf whose device fails at this put and at this get, by number from 1 on; 0 is none.
    pub(crate) fn failing(
        alloc: Global,
        keeping: Keeping,
        failing_put: u64,
        failing_get: u64,
    ) -> TestShelf {
        TestShelf {
            alloc,
            inner: MemShelf::new(alloc),
            keeping,
            puts: 0,
            gets: 0,
            failing_put,
            failing_get,
            failures: 0,
        }
    }

    /// How many puts were asked.
    pub(crate) fn puts(&self) -> u64 {
        self.puts
    }

    /// How many gets were asked.
    pub(crate) fn gets(&self) -> u64 {
        self.gets
    }

    // Keeps what it does of these bytes.
    fn keep(&mut self, key: &[u8], bytes: &[u8]) -> Result<(), ShelfFault>
        ensures { self.new.failures ≡ self.old.failures }
    {
        match self.keeping {
            Keeping::All => self.inner.put(key, bytes),
            Keeping::Beginnings => self.inner.put(key, &bytes[..bytes.len().saturating_sub(1)]),
            Keeping::Nothing => Ok(()),
            Keeping::Firsts => match self.inner.get(self.alloc, key)? {
                Some(_) => Ok(()),
                None => self.inner.put(key, bytes),
            },
        }
    }
}

impl Shelf for TestShelf {
    ghost use Rattle.std.specs.Prelude.{false};
    ghost use Rattle.pg_workers.specs.Handed.{mem_state};

    ghost state = { λ shelf. record (mem_state shelf.inner) {
      is_honest = false;
      failures = shelf.failures;
    } };

    fn failures(&self) -> u64 {
        self.failures
    }

    fn put(&mut self, key: &[u8], bytes: &[u8]) -> Result<(), ShelfFault> {
        self.puts = self.puts.saturating_add(1);
        if self.puts == self.failing_put {
            self.failures += 1;
            return Err(ShelfFault::Device);
        }
        match self.keep(key, bytes) {
            Ok(()) => Ok(()),
            Err(_) => Err(ShelfFault::Memory),
        }
    }

    fn get(&mut self, alloc: Global, key: &[u8]) -> Result<Option<Vec<u8>>, ShelfFault> {
        self.gets = self.gets.saturating_add(1);
        if self.gets == self.failing_get {
            self.failures += 1;
            return Err(ShelfFault::Device);
        }
        match self.inner.get(alloc, key) {
            Ok(found) => Ok(found),
            Err(_) => Err(ShelfFault::Memory),
        }
    }
}
