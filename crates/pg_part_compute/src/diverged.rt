//! The vertices whose states differ between two runs.
ghost use Rattle.std.specs.Prelude.{◌≡◌, ◌++◌, [], ◌∷◌, true, IfOk, OnOk};
ghost use Rattle.std.specs.List.Sorted.{IsStrictlySortedBy};
ghost use Rattle.std.specs.Option.{option_eq};
ghost use Rattle.std.specs.Ordering.{nat_cmp};
ghost use Rattle.pg_part_compute.specs.Diverged.{AreEqSound, HaveSameIds, are_quiescent, has_same_rest, is_quiescent};
ghost use Rattle.pg_part_compute.specs.Diverged.{is_same_state};
ghost use Rattle.pg_part_compute.specs.Diverged.{quiescent_among, live_among, without};

use crate::ids::{merged, without};
use pg_graph::{Memory, Superstep, VertexId};
use pg_program::Plain;
use pg_trace::{StateCursor, StateRef, Trace};
use std::alloc::Global;

/// The vertices at which two runs may have other states as a superstep begins: those that are halted in both, or
/// aren't there, and the others.
#[derive(Drop)]
pub struct Diverged {
    pub live: Vec<VertexId>,
    pub quiescent: Vec<VertexId>,
}

impl Diverged {
    /// These, of which none is known to be quiescent.
    pub fn of(alloc: Global, live: Vec<VertexId>) -> Diverged
        ensures live { result.live.items ≡ live.items }
        ensures quiescent { result.quiescent.items ≡ [] }
    {
        Diverged {
            live,
            quiescent: Vec::new(alloc),
        }
    }
}

/// The vertices whose states may differ as a superstep begins: those that do of those that were looked at, and those
/// that were quiescent before and weren't looked at. Costs two look-ups for each that was, a look among these for each
/// that was quiescent, near the one before, and a merge of the quiescent ones.
pub fn diverged_after<V: Plain, M: Plain>(
    alloc: Global,
    old: &Trace<V, M>,
    new: &Trace<V, M>,
    superstep: Superstep,
    dirty_ids: &[VertexId],
    before: &Diverged,
) -> Result<Diverged, Memory>
    requires { IsStrictlySortedBy nat_cmp dirty_ids.now }
    ensures live { IfOk result
        (λ after. after.live.items ≡ live_among V.PartialEq.eq old.now new.now superstep dirty_ids.now) }
    ensures quiescent { IfOk result
        (λ after. HaveSameIds after.quiescent.items (without before.now.quiescent.items dirty_ids.now
        ++ quiescent_among V.PartialEq.eq old.now new.now superstep dirty_ids.now)) }
    ensures eq_is_sound { IfOk result (λ _. AreEqSound V.PartialEq.eq old.now new.now superstep dirty_ids.now) }
{
    let Diverged { live, quiescent } = diverged_among(alloc, old, new, superstep, dirty_ids)?;
    let still = without(alloc, before.quiescent.as_slice(), dirty_ids)?;
    let quiescent = merged(still, quiescent.as_slice())?;
    Ok(Diverged { live, quiescent })
}

/// Those of these vertices whose states as a superstep begins differ between two traces.
fn diverged_among<V: Plain, M: Plain>(
    alloc: Global,
    old: &Trace<V, M>,
    new: &Trace<V, M>,
    superstep: Superstep,
    ids: &[VertexId],
) -> Result<Diverged, Memory>
    ensures live { IfOk result
        (λ found. found.live.items ≡ live_among V.PartialEq.eq old.now new.now superstep ids.now) }
    ensures quiescent { IfOk result
        (λ found. found.quiescent.items ≡ quiescent_among V.PartialEq.eq old.now new.now superstep ids.now) }
    ensures eq_is_sound { IfOk result (λ _. AreEqSound V.PartialEq.eq old.now new.now superstep ids.now) }
{
    let mut old_states = old.states();
    let mut new_states = new.states();
    let mut found = Diverged {
        live: Vec::new(alloc),
        quiescent: Vec::new(alloc),
    };
    for id in ids {
        add_if_diverged(&mut found, &mut old_states, &mut new_states, superstep, *id)?;
    }
    Ok(found)
}

/// Adds a vertex whose states differ.
fn add_if_diverged<V: Plain, M: Plain>(
    found: &mut Diverged,
    old: &mut StateCursor<'_, V, M>,
    new: &mut StateCursor<'_, V, M>,
    superstep: Superstep,
    id: VertexId,
) -> Result<(), Memory>
    ensures live { OnOk result
        (found.new.live.items ≡ found.old.live.items ++ live_among V.PartialEq.eq old.old new.old superstep (id ∷ [])) }
    ensures quiescent { OnOk result
        (found.new.quiescent.items ≡ found.old.quiescent.items ++ quiescent_among V.PartialEq.eq old.old new.old
        superstep (id ∷ [])) }
    ensures eq_is_sound { AreEqSound V.PartialEq.eq old.old new.old superstep (id ∷ []) }
    ensures old_stays { old.new ≡ old.old }
    ensures new_stays { new.new ≡ new.old }
{
    let old = old.state_at(id, superstep);
    let new = new.state_at(id, superstep);
    let both_quiescent = are_quiescent(&old, &new);
    if is_same(old, new) {
        return Ok(());
    }
    if both_quiescent {
        found.quiescent.push(id)?;
    } else {
        found.live.push(id)?;
    }
    Ok(())
}

/// Whether a vertex is halted in both, or isn't there.
fn are_quiescent<V>(old: &Option<StateRef<'_, V>>, new: &Option<StateRef<'_, V>>) -> bool
    ensures { result ≡ are_quiescent old.now new.now }
{
    is_quiescent(old) && is_quiescent(new)
}

/// Whether a vertex is halted, or isn't there.
fn is_quiescent<V>(state: &Option<StateRef<'_, V>>) -> bool
    ensures { result ≡ is_quiescent state.now }
{
    match state {
        Some(state) => state.halted(),
        None => true,
    }
}

/// Whether there is the same state, or none in both.
fn is_same<V: Plain>(old: Option<StateRef<'_, V>>, new: Option<StateRef<'_, V>>) -> bool
    ensures value { result ≡ option_eq (is_same_state V.PartialEq.eq) old.entry new.entry }
    ensures eq_is_sound { result ≡ true → old.entry ≡ new.entry }
{
    match (old, new) {
        (Some(old), Some(new)) => is_same_state(&old, &new),
        (None, None) => true,
        _ => false,
    }
}

fn is_same_state<V: Plain>(old: &StateRef<'_, V>, new: &StateRef<'_, V>) -> bool
    ensures value { result ≡ is_same_state V.PartialEq.eq old.now new.now }
    ensures eq_is_sound { result ≡ true → old.now ≡ new.now }
{
    is_same_value(old.value(), new.value()) && has_same_rest(old, new)
}

/// Whether two values are the same.
fn is_same_value<V: Plain>(old: &V, new: &V) -> bool
    ensures value { result ≡ V.PartialEq.eq old.now new.now }
    ensures eq_is_sound { result ≡ true → old.now ≡ new.now }
{
    old.fits();
    new.fits();
    old == new
}

fn has_same_rest<V: Plain>(old: &StateRef<'_, V>, new: &StateRef<'_, V>) -> bool
    ensures { result ≡ has_same_rest old.now new.now }
{
    old.id() == new.id()
        && old.edges().as_slice() == new.edges().as_slice()
        && old.halted() == new.halted()
}
