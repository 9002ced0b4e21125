//! Ids of vertices and places of aggregators as values.
ghost use Rattle.std.specs.Prelude.{◌≡◌, ◌++◌, ℕ, List, IfOk, OnOk, OnErr};
ghost use Rattle.std.specs.Fmt.{decimal};

use crate::reading::word_at;
use crate::{Coded, Plain};
use pg_graph::{Memory, VertexId};
use pg_model::Place;
use std::alloc::Global;

impl Plain for VertexId {
    ghost use Rattle.pg_program.specs.Plain.{id_exact, is_id};

    ghost is_value = { is_id };

    ghost shown = { decimal };

    ghost exact = { id_exact };

    fn fits(&self) {
        let _number = self.number();
    }

    fn copy(&self, _alloc: Global) -> Result<VertexId, Memory> {
        Ok(*self)
    }

    fn show(&self, text: &mut String) -> Result<(), Memory> {
        let number = self.number();
        let shown = number.to_string(*text.allocator())?;
        text.push_str(shown.as_str())
    }
}

impl Coded for VertexId {
    ghost use Rattle.pg_program.specs.Coding.{natural_coding};

    ghost coding = { natural_coding };

    fn encode(&self, bytes: &mut Vec<u8>) -> Result<(), Memory> {
        let number = self.number();
        bytes.extend_from_slice(&number.to_le_bytes())?;
        Ok(())
    }

    fn decode(_alloc: Global, bytes: &[u8]) -> Result<Option<(VertexId, usize)>, Memory> {
        let Some((number, rest)) = word_at(bytes) else {
            return Ok(None);
        };
        match VertexId::new(number) {
            Some(id) => Ok(Some((id, bytes.len() - rest.len()))),
            None => Ok(None),
        }
    }
}

impl Plain for Place {
    ghost use Rattle.pg_program.specs.Plain.{byte_exact, is_byte};

    ghost is_value = { is_byte };

    ghost shown = { decimal };

    ghost exact = { byte_exact };

    fn fits(&self) {
        let _number = self.number();
    }

    fn copy(&self, _alloc: Global) -> Result<Place, Memory> {
        Ok(*self)
    }

    fn show(&self, text: &mut String) -> Result<(), Memory> {
        let number = self.number();
        let shown = number.to_string(*text.allocator())?;
        text.push_str(shown.as_str())
    }
}

impl Coded for Place {
    ghost use Rattle.pg_program.specs.Coding.{byte_coding};

    ghost coding = { byte_coding };

    fn encode(&self, bytes: &mut Vec<u8>) -> Result<(), Memory> {
        let number = self.number();
        bytes.push(number)?;
        Ok(())
    }

    fn decode(_alloc: Global, bytes: &[u8]) -> Result<Option<(Place, usize)>, Memory> {
        match bytes {
            [number, ..] => Ok(Some((Place::new(*number), 1))),
            [] => Ok(None),
        }
    }
}
