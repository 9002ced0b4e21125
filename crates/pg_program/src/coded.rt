//! Values that have a coding in bytes.
ghost use Rattle.std.specs.Prelude.{◌≡◌, ◌++◌, ℕ, List, IfOk, OnOk, OnErr};
ghost use Rattle.pg_program.specs.Coding.{IsDecoded};

use crate::Plain;
use crate::reading::{behind, truth_at, word_at};
use pg_graph::Memory;
use pg_model::Sequence;
use std::alloc::Global;

/// A plain value that has a coding in bytes, so that values one after another can be read back.
pub trait Coded: Plain {
    /// The bytes of a value.
    ghost coding: { Self → List ℕ };

    /// Appends the bytes of the value.
    fn encode(&self, bytes: &mut Vec<u8>) -> Result<(), Memory>
        ensures ok { OnOk result (bytes.new.items ≡ bytes.old.items ++ coding self.now) }
        ensures err { OnErr result (bytes.new.items ≡ bytes.old.items) };

    /// The value whose bytes stand at the front, and how many these are; `None` where no value's do.
    fn decode(alloc: Global, bytes: &[u8]) -> Result<Option<(Self, usize)>, Memory>
        ensures { IfOk result (IsDecoded Self.is_value coding bytes.now) };
}

impl Coded for u64 {
    ghost use Rattle.pg_program.specs.Coding.{natural_coding};

    ghost coding = { natural_coding };

    fn encode(&self, bytes: &mut Vec<u8>) -> Result<(), Memory> {
        let value = *self;
        bytes.extend_from_slice(&value.to_le_bytes())?;
        Ok(())
    }

    fn decode(_alloc: Global, bytes: &[u8]) -> Result<Option<(u64, usize)>, Memory> {
        match word_at(bytes) {
            Some((value, rest)) => Ok(Some((value, bytes.len() - rest.len()))),
            None => Ok(None),
        }
    }
}

impl Coded for i64 {
    ghost use Rattle.pg_program.specs.Coding.{integer_coding};

    ghost coding = { integer_coding };

    fn encode(&self, bytes: &mut Vec<u8>) -> Result<(), Memory> {
        let value = *self;
        bytes.extend_from_slice(&value.cast_unsigned().to_le_bytes())?;
        Ok(())
    }

    fn decode(_alloc: Global, bytes: &[u8]) -> Result<Option<(i64, usize)>, Memory> {
        match word_at(bytes) {
            Some((word, rest)) => Ok(Some((word.cast_signed(), bytes.len() - rest.len()))),
            None => Ok(None),
        }
    }
}

impl Coded for bool {
    ghost use Rattle.pg_program.specs.Coding.{truth_coding};

    ghost coding = { truth_coding };

    fn encode(&self, bytes: &mut Vec<u8>) -> Result<(), Memory> {
        bytes.push(if *self { 1 } else { 0 })?;
        Ok(())
    }

    fn decode(_alloc: Global, bytes: &[u8]) -> Result<Option<(bool, usize)>, Memory> {
        match truth_at(bytes) {
            Some((value, rest)) => Ok(Some((value, bytes.len() - rest.len()))),
            None => Ok(None),
        }
    }
}

impl<A: Coded, B: Coded> Coded for (A, B) {
    ghost use Rattle.pg_program.specs.Coding.{pair_coding};

    ghost coding = { pair_coding A.coding B.coding };

    fn encode(&self, bytes: &mut Vec<u8>) -> Result<(), Memory> {
        let len = bytes.len();
        self.0.encode(bytes)?;
        let second = self.1.encode(bytes);
        if second.is_err() {
            bytes.truncate(len);
        }
        second
    }

    fn decode(alloc: Global, bytes: &[u8]) -> Result<Option<((A, B), usize)>, Memory> {
        let Some((first, len)) = A::decode(alloc, bytes)? else {
            return Ok(None);
        };
        let Some((second, more)) = B::decode(alloc, behind(bytes, len))? else {
            return Ok(None);
        };
        Ok(Some(((first, second), len + more)))
    }
}

impl<T: Coded> Coded for Sequence<T> {
    ghost use Rattle.pg_program.specs.Coding.{list_coding};

    ghost coding = { list_coding T.coding };

    fn encode(&self, bytes: &mut Vec<u8>) -> Result<(), Memory> {
        let len = bytes.len();
        let items = self.as_slice();
        bytes.extend_from_slice(&(items.len() as u64).to_le_bytes())?;
        for item in items {
            let encoded = item.encode(bytes);
            if encoded.is_err() {
                bytes.truncate(len);
                return encoded;
            }
        }
        Ok(())
    }

    fn decode(alloc: Global, bytes: &[u8]) -> Result<Option<(Sequence<T>, usize)>, Memory> {
        let Some((count, bodies)) = word_at(bytes) else {
            return Ok(None);
        };
        let mut items = Sequence::new(alloc);
        let mut rest = bodies;
        let mut remaining = count;
        while remaining > 0 {
            match T::decode(alloc, rest)? {
                Some((item, len)) => {
                    items.push(item)?;
                    rest = behind(rest, len);
                    remaining -= 1;
                }
                None => return Ok(None),
            }
        }
        Ok(Some((items, bytes.len() - rest.len())))
    }
}
