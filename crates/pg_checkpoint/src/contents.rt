//! What the bytes of a checkpoint say.
ghost use Rattle.std.specs.Prelude.{◌≡◌, ◌<◌, ◌^◌};
ghost use Rattle.pg_checkpoint.specs.Contents.{IsRest, Says, rest_coding};
ghost use Rattle.pg_checkpoint.specs.Reading.{Reads};

use crate::reading::{Opening, Reader, RecordParts, Unread};
use pg_model::Sequence;
use pg_program::Coded;
use std::alloc::Global;

/// The magic PGC1 of format 1, as the number that its bytes are.
const FIRST: u32 = 0x3143_4750;

/// The magic PGC2 of format 2.
const SECOND: u32 = 0x3243_4750;

/// What a checkpoint holds of a run of a partition.
#[derive(Drop)]
pub struct Contents<V, M> {
    /// How many out-edges the vertices have, in format 2.
    pub edges: Option<u64>,
    pub supersteps: Sequence<Sequence<RecordParts<V, M>>>,
}

/// What stands behind an opening.
fn rest_of<V: Coded, M: Coded>(
    reader: &mut Reader<'_>,
    alloc: Global,
    opening: &Opening,
) -> Result<Contents<V, M>, Unread>
    ensures { Reads (IsRest V.is_value M.is_value opening.now) (rest_coding V.coding M.coding)
        reader.old result reader.new }
{
    let edges = match opening.magic {
        FIRST => None,
        SECOND => Some(reader.value::<u64>(alloc)?),
        _ => return Err(Unread::Damaged),
    };
    let supersteps = reader.supersteps(alloc, opening.supersteps)?;
    Ok(Contents { edges, supersteps })
}

/// What bytes hold, if they are the whole checkpoint of a partition in a run.
pub(crate) fn contents_in<V: Coded, M: Coded>(
    alloc: Global,
    bytes: &[u8],
    run: u64,
    partition: u32,
) -> Result<Contents<V, M>, Unread>
    ensures { Says V.is_value V.coding M.is_value M.coding run partition bytes.now result }
{
    let mut reader = Reader::new(bytes);
    let opening = reader.opening(alloc)?;
    if opening.len != bytes.len() as u64 || opening.run != run || opening.partition != partition {
        return Err(Unread::Damaged);
    }
    let contents = rest_of(&mut reader, alloc, &opening)?;
    if reader.is_done() {
        Ok(contents)
    } else {
        Err(Unread::Damaged)
    }
}
