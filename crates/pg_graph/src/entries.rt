//! Maps from ids, where an insertion drops what was there.
ghost use Rattle.std.specs.Prelude.{◌≡◌, None, OnOk, OnErr};
ghost use Rattle.std.specs.BTreeMap.{insert_entry, is_at};
ghost use Rattle.std.specs.Map.{lookup};
ghost use Rattle.std.specs.Ordering.{nat_cmp};

use crate::{Memory, VertexId};
use std::collections::BTreeMap;

/// Puts a value at an id, in the place of the one that was there. Only a new one can be refused.
pub(crate) fn put<V: Drop>(
    map: &mut BTreeMap<VertexId, V>,
    id: VertexId,
    value: V,
) -> Result<(), Memory>
    ensures ok { OnOk result (map.new.entries ≡ insert_entry nat_cmp map.old.entries id value) }
    ensures err { OnErr result (map.new.entries ≡ map.old.entries) }
    ensures absent { OnErr result (lookup (is_at (nat_cmp id)) map.old.entries ≡ None) }
{
    map.insert(id, value)?;
    Ok(())
}
