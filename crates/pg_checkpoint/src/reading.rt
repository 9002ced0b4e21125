//! Reading the bytes of a part.
ghost use Rattle.std.specs.Prelude.{◌≡◌, ◌<◌, ◌≤◌, ◌^◌, ◌==◌, drop, length};
ghost use Rattle.std.specs.List.{flat_map};
ghost use Rattle.pg_checkpoint.specs.Bytes.{half_coding};
ghost use Rattle.pg_checkpoint.specs.Reading.{AreParts, IsOpening, Reads, opening_coding, parts_coding};
ghost use Rattle.pg_program.specs.Coding.{are_so_many, list_coding};
ghost use Rattle.pg_program.specs.Plain.{are_listed};

use pg_graph::{Memory, VertexId};
use pg_model::{Place, Sequence};
use pg_program::Coded;
use std::alloc::{AllocFailed, Global};
use std::marker::Model;

/// Why bytes weren't read.
#[derive(Clone, Copy, Debug, PartialEq, Eq)]
pub enum Unread {
    /// A growth was refused.
    Memory,
    /// They aren't what was to be read.
    Damaged,
}

impl From<Memory> for Unread {
    ghost use Rattle.pg_checkpoint.specs.declared.reading.Unread.TheVariants.{Memory};

    ghost from_gives = { λ _ unread. unread ≡ Memory };

    fn from(_: Memory) -> Unread {
        Unread::Memory
    }
}

/// A record as its bytes have it.
#[derive(Drop)]
pub struct RecordParts<V, M> {
    pub id: VertexId,
    pub halted: bool,
    pub value: V,
    pub edges: Sequence<(VertexId, i64)>,
    pub sent: Sequence<(VertexId, M)>,
    pub contributed: Sequence<(Place, i64)>,
}

/// What stands at the beginning of a checkpoint in both formats.
#[derive(Clone, Copy)]
pub struct Opening {
    /// The magic, as a number.
    pub magic: u32,
    /// How many bytes the checkpoint has.
    pub len: u64,
    pub run: u64,
    pub partition: u32,
    pub supersteps: u32,
}

/// Bytes that are read from the front.
#[derive(Drop)]
pub struct Reader<'a> {
    rest: &'a [u8],
}

impl<'a> Model for Reader<'a> {
    ghost use Rattle.std.specs.Prelude.{List, ℕ};

    ghost Value = { List ℕ };

    ghost view = { λ r. r.rest.now };
}

impl<'a> Reader<'a> {
    /// Reads these bytes.
    pub fn new(rest: &'a [u8]) -> Reader<'a>
        ensures { result ≡ rest.now }
    {
        Reader { rest }
    }

    /// Whether nothing remains.
    pub fn is_done(&self) -> bool
        ensures { result ≡ (length self.now == 0) }
    {
        self.rest.is_empty()
    }

    /// The value at the front.
    pub fn value<T: Coded>(&mut self, alloc: Global) -> Result<T, Unread>
        ensures { Reads T.is_value T.coding self.old result self.new }
    {
        match T::decode(alloc, self.rest)? {
            Some((value, len)) => {
                self.rest = behind(self.rest, len);
                Ok(value)
            }
            None => Err(Unread::Damaged),
        }
    }

    /// The number in the first four bytes.
    fn half(&mut self) -> Result<u32, Unread>
        ensures { Reads (λ n. n < 2 ^ 32) half_coding self.old result self.new }
    {
        let rest = self.rest;
        if rest.len() < 4 {
            return Err(Unread::Damaged);
        }
        let (front, rest) = rest.split_at(4);
        self.rest = rest;
        Ok(u32::from_le_bytes([front[0], front[1], front[2], front[3]]))
    }

    /// What stands at the beginning of a checkpoint.
    pub fn opening(&mut self, alloc: Global) -> Result<Opening, Unread>
        ensures { Reads IsOpening opening_coding self.old result self.new }
    {
        let magic = self.half()?;
        let len = self.value::<u64>(alloc)?;
        let run = self.value::<u64>(alloc)?;
        let partition = self.half()?;
        let supersteps = self.half()?;
        Ok(Opening {
            magic,
            len,
            run,
            partition,
            supersteps,
        })
    }

    /// A record.
    fn record<V: Coded, M: Coded>(&mut self, alloc: Global) -> Result<RecordParts<V, M>, Unread>
        ensures { Reads (AreParts V.is_value M.is_value) (parts_coding V.coding M.coding) self.old result self.new }
    {
        let id = self.value::<VertexId>(alloc)?;
        let halted = self.value::<bool>(alloc)?;
        let value = self.value::<V>(alloc)?;
        let edges = self.value::<Sequence<(VertexId, i64)>>(alloc)?;
        let sent = self.value::<Sequence<(VertexId, M)>>(alloc)?;
        let contributed = self.value::<Sequence<(Place, i64)>>(alloc)?;
        Ok(RecordParts {
            id,
            halted,
            value,
            edges,
            sent,
            contributed,
        })
    }

    /// So many records, one after another.
    fn records<V: Coded, M: Coded>(
        &mut self,
        alloc: Global,
        count: u64,
    ) -> Result<Sequence<RecordParts<V, M>>, Unread>
        ensures { Reads (are_so_many (AreParts V.is_value M.is_value) count) (flat_map (parts_coding V.coding M.coding))
            self.old result self.new }
    {
        let mut records = Sequence::new(alloc);
        let mut remaining = count;
        while remaining > 0 {
            let record = self.record::<V, M>(alloc)?;
            records.push(record)?;
            remaining -= 1;
        }
        Ok(records)
    }

    /// The records of a superstep.
    fn superstep<V: Coded, M: Coded>(
        &mut self,
        alloc: Global,
    ) -> Result<Sequence<RecordParts<V, M>>, Unread>
        ensures { Reads (are_listed (AreParts V.is_value M.is_value)) (list_coding (parts_coding V.coding M.coding))
            self.old result self.new }
    {
        let count = self.value::<u64>(alloc)?;
        self.records::<V, M>(alloc, count)
    }

    /// Those of so many supersteps.
    pub fn supersteps<V: Coded, M: Coded>(
        &mut self,
        alloc: Global,
        count: u32,
    ) -> Result<Sequence<Sequence<RecordParts<V, M>>>, Unread>
        ensures { Reads (are_so_many (are_listed (AreParts V.is_value M.is_value)) count)
            (flat_map (list_coding (parts_coding V.coding M.coding))) self.old result self.new }
    {
        let mut supersteps = Sequence::new(alloc);
        let mut remaining = count;
        while remaining > 0 {
            let superstep = self.superstep::<V, M>(alloc)?;
            supersteps.push(superstep)?;
            remaining -= 1;
        }
        Ok(supersteps)
    }
}

/// The bytes behind the first `len`.
fn behind(bytes: &[u8], len: usize) -> &[u8]
    requires { len ≤ length bytes.now }
    ensures { result.now ≡ drop len bytes.now }
{
    &bytes[len..]
}
