//! Maps that are changed.
ghost use Rattle.std.specs.Prelude.{◌≡◌, [], IfOk};
ghost use Rattle.pg_map.specs.Entries.{ChangesRise, HasRisingIds, with_changes};

use pg_graph::{Memory, VertexId};
use pg_map::{CheapClone, Map};
use std::alloc::Global;

/// A map with these changes. Where it has no entries it is made of what they give; else it costs a copy of the chunks
/// that are changed, and with no change nothing.
pub(crate) fn changed<X: CheapClone>(
    alloc: Global,
    map: Map<X>,
    changes: Vec<(VertexId, Option<X>)>,
) -> Result<Map<X>, Memory>
    requires { ChangesRise changes.items }
    ensures map { IfOk result (λ after. after ≡ with_changes changes.items map) }
    ensures rising { IfOk result (λ after. HasRisingIds after) }
{
    let mut map = map;
    if map.len() == 0 {
        return fresh(alloc, changes);
    }
    if changes.is_empty() {
        return Ok(map);
    }
    map.change(alloc, changes.as_slice())?;
    Ok(map)
}

/// The map of what these changes give.
fn fresh<X: CheapClone>(
    alloc: Global,
    changes: Vec<(VertexId, Option<X>)>,
) -> Result<Map<X>, Memory>
    requires { ChangesRise changes.items }
    ensures { IfOk result (λ map. map ≡ with_changes changes.items []) }
{
    let mut there = Vec::with_capacity(alloc, changes.len())?;
    for (id, change) in changes {
        if let Some(value) = change {
            there.push((id, value))?;
        }
    }
    Map::from_rising(alloc, there)
}
