//! The states with which a partition began.
ghost use Rattle.std.specs.Prelude.{◌≡◌, map, IfOk};
ghost use Rattle.std.specs.Map.{keys_of};
ghost use Rattle.std.specs.Option.{option_copied};
ghost use Rattle.pg_map.specs.Entries.{ChangesRise, HasRisingIds};
ghost use Rattle.pg_trace.specs.Beginning.{ChangesById, by_id, with_first};
ghost use Rattle.pg_trace.specs.Trace.{StatesRise, state_of};

use pg_graph::{Memory, VertexId};
use pg_map::{CheapClone, Cursor, Map};
use pg_model::VertexState;
use std::alloc::Global;
use std::marker::Model;
use std::sync::Arc;

/// A state, which copies share.
#[derive(Drop)]
pub(crate) struct Begun<V> {
    shared: Arc<VertexState<V>>,
}

impl<V> Model for Begun<V> {
    ghost use Rattle.pg_model.specs.declared.configuration.VertexState.{VertexState};
    ghost use Rattle.std.specs.Arc.{arc_value};

    ghost Value = { VertexState V };

    ghost view = { λ b. arc_value b.shared };
}

impl<V: Drop> CheapClone for Begun<V> {
    fn cheap_clone(&self, _alloc: Global) -> Result<Begun<V>, Memory> {
        Ok(Begun {
            shared: Arc::try_clone(&self.shared)?,
        })
    }
}

impl<V: Drop> Begun<V> {
    /// Keeps a state.
    fn of(alloc: Global, state: VertexState<V>) -> Result<Begun<V>, Memory>
        ensures { IfOk result (λ begun. begun ≡ state) }
    {
        Ok(Begun {
            shared: Arc::new(alloc, state)?,
        })
    }

    /// The state.
    fn state(&self) -> &VertexState<V>
        ensures { result.now ≡ self.now }
    {
        &self.shared
    }
}

/// States by rising id, which copies share. A contract sees the list of them.
#[derive(Drop)]
pub(crate) struct Beginnings<V> {
    states: Map<Begun<V>>,
}

impl<V> Model for Beginnings<V> {
    ghost use Rattle.std.specs.Prelude.{List};
    ghost use Rattle.std.specs.Map.{values_of};
    ghost use Rattle.pg_model.specs.declared.configuration.VertexState.{VertexState};

    ghost Value = { List (VertexState V) };

    ghost use Rattle.pg_trace.specs.Beginning.{AreById};

    ghost view = { λ b. values_of b.states };

    ghost invariant = { λ b. AreById b.states };
}

/// Looks up states by their ids. A contract sees the list of states.
#[derive(Drop)]
pub(crate) struct InitialCursor<'a, V> {
    states: Cursor<'a, Begun<V>>,
}

impl<'a, V> Model for InitialCursor<'a, V> {
    ghost use Rattle.std.specs.Prelude.{List};
    ghost use Rattle.std.specs.Map.{values_of};
    ghost use Rattle.pg_model.specs.declared.configuration.VertexState.{VertexState};

    ghost Value = { List (VertexState V) };

    ghost use Rattle.pg_trace.specs.Beginning.{AreById};

    ghost view = { λ f. values_of f.states };

    ghost invariant = { λ f. AreById f.states };
}

impl<'a, V: Drop> InitialCursor<'a, V> {
    /// The state with an id.
    pub(crate) fn get(&mut self, id: VertexId) -> Option<&'a VertexState<V>>
        ensures value { option_copied result ≡ state_of id self.old }
        ensures same { self.new ≡ self.old }
    {
        let begun = self.states.get(id)?;
        Some(begun.state())
    }
}

impl<V: Drop> Beginnings<V> {
    /// These states.
    pub(crate) fn of(alloc: Global, states: Vec<VertexState<V>>) -> Result<Beginnings<V>, Memory>
        requires { StatesRise states.items }
        ensures { IfOk result (λ beginnings. beginnings ≡ states.items) }
    {
        let entries = entries_of(alloc, states)?;
        let states = Map::from_rising(alloc, entries)?;
        Ok(Beginnings { states })
    }

    /// The ids, rising.
    pub(crate) fn ids(&self, alloc: Global) -> Result<Vec<VertexId>, Memory>
        ensures ids { IfOk result (λ ids. ids.items ≡ map (λ x. x.id) self.now) }
        ensures rising { StatesRise self.now }
    {
        let ids = keys_of(alloc, &self.states)?;
        Ok(ids)
    }

    /// Look-ups of states that come near one another.
    pub(crate) fn cursor(&self) -> InitialCursor<'_, V>
        ensures { result ≡ self.now }
    {
        InitialCursor {
            states: self.states.cursor(),
        }
    }

    /// These states with others in place of some, by rising id, or none there. Copies the chunks with these ids, and
    /// shares the others.
    pub(crate) fn changed(
        &self,
        alloc: Global,
        changes: Vec<(VertexId, Option<VertexState<V>>)>,
    ) -> Result<Beginnings<V>, Memory>
        requires rise { ChangesRise changes.items }
        requires by_id { ChangesById changes.items }
        ensures { IfOk result (λ beginnings. beginnings ≡ with_first changes.items self.now) }
    {
        let changes = each_begun(alloc, changes)?;
        let mut states = self.states.cheap_clone()?;
        states.change(alloc, changes.as_slice())?;
        Ok(Beginnings { states })
    }

    /// A copy of the states, which shares their memory. Costs O(1).
    pub(crate) fn cheap_clone(&self) -> Result<Beginnings<V>, Memory>
        ensures { IfOk result (λ beginnings. beginnings ≡ self.now) }
    {
        Ok(Beginnings {
            states: self.states.cheap_clone()?,
        })
    }
}

/// Each state under its id.
fn entries_of<V: Drop>(
    alloc: Global,
    states: Vec<VertexState<V>>,
) -> Result<Vec<(VertexId, Begun<V>)>, Memory>
    ensures { IfOk result (λ entries. entries.items ≡ by_id states.items) }
{
    let mut entries = Vec::with_capacity(alloc, states.len())?;
    for state in states {
        entries.push((state.id, Begun::of(alloc, state)?))?;
    }
    Ok(entries)
}

/// Keeps the states among these changes.
fn each_begun<V: Drop>(
    alloc: Global,
    changes: Vec<(VertexId, Option<VertexState<V>>)>,
) -> Result<Vec<(VertexId, Option<Begun<V>>)>, Memory>
    ensures { IfOk result (λ begun. begun.items ≡ changes.items) }
{
    let mut all = Vec::with_capacity(alloc, changes.len())?;
    for (id, change) in changes {
        all.push((id, begun_if_any(alloc, change)?))?;
    }
    Ok(all)
}

/// Keeps a state, if there is one.
fn begun_if_any<V: Drop>(
    alloc: Global,
    change: Option<VertexState<V>>,
) -> Result<Option<Begun<V>>, Memory>
    ensures { IfOk result (λ begun. begun ≡ change) }
{
    match change {
        Some(state) => Ok(Some(Begun::of(alloc, state)?)),
        None => Ok(None),
    }
}

/// The ids of a map.
fn keys_of<X: Drop>(alloc: Global, map: &Map<X>) -> Result<Vec<VertexId>, Memory>
    ensures ids { IfOk result (λ ids. ids.items ≡ keys_of map.now) }
    ensures rising { HasRisingIds map.now }
{
    let mut ids = Vec::with_capacity(alloc, map.len())?;
    for id in map.ids() {
        ids.push(*id)?;
    }
    Ok(ids)
}
