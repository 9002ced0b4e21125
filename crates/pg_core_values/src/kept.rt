//! The values of a run's vertices, in memory that a run against it shares.
ghost use Rattle.std.specs.Prelude.{◌≡◌, IfOk};
ghost use Rattle.pg_map.specs.Entries.{ChangesRise, HasRisingIds, with_changes};

use pg_graph::{Memory, VertexId};
use pg_map::{CheapClone, Map};
use pg_model::Sequence;
use pg_program::Plain;
use std::alloc::Global;
use std::marker::Model;

/// The value of a vertex.
#[derive(Drop)]
pub(crate) struct SharedValue<V> {
    pub(crate) value: V,
}

impl<V> Model for SharedValue<V> {
    ghost Value = { V };

    ghost view = { λ h. h.value };
}

impl<V: Plain> CheapClone for SharedValue<V> {
    fn cheap_clone(&self, alloc: Global) -> Result<SharedValue<V>, Memory> {
        let value = self.value.copy(alloc)?;
        Ok(SharedValue { value })
    }
}

/// The values of vertices. A contract sees the list of (id, value) by rising id.
pub struct Values<V> {
    map: Map<SharedValue<V>>,
}

// By hand, so that it is let go by one call wherever that is, and not field by field.
impl<V: Drop> Drop for Values<V> {
    fn drop(self) {
        let Values { map: _ } = self;
    }
}

impl<V> Model for Values<V> {
    ghost use Rattle.std.specs.Prelude.{ℕ, List};
    ghost use Rattle.pg_map.specs.Entries.{HasRisingIds};

    ghost Value = { List (ℕ × V) };

    ghost view = { λ v. v.map };

    ghost invariant = { λ v. HasRisingIds v.map };
}

impl<V: Plain> Values<V> {
    /// These values, which stand by rising id.
    pub(crate) fn of(
        alloc: Global,
        values: Vec<(VertexId, SharedValue<V>)>,
    ) -> Result<Values<V>, Memory>
        requires rise { HasRisingIds values.items }
        ensures { IfOk result (λ made. made ≡ values.items) }
    {
        let map = Map::from_rising(alloc, values)?;
        Ok(Values { map })
    }

    /// These values with changes, by rising id: each of these vertices has its new value, or none. Costs a copy of the
    /// values that lie near a change.
    pub(crate) fn changed(
        &self,
        alloc: Global,
        changes: &[(VertexId, Option<SharedValue<V>>)],
    ) -> Result<Values<V>, Memory>
        requires changes_rise { ChangesRise changes.now }
        ensures { IfOk result (λ made. made ≡ with_changes changes.now self.now) }
    {
        let mut map = self.map.cheap_clone()?;
        map.change(alloc, changes)?;
        Ok(Values { map })
    }

    /// The list of them. Costs a copy of each.
    pub fn listed(&self, alloc: Global) -> Result<Sequence<(VertexId, V)>, Memory>
        ensures listed { IfOk result (λ list. list ≡ self.now) }
        ensures rising { HasRisingIds self.now }
    {
        let mut list = Vec::with_capacity(alloc, self.map.len())?;
        for (id, held) in self.map.iter() {
            list.push((*id, held.value.copy(alloc)?))?;
        }
        Ok(Sequence::from_vec(list))
    }
}
