//! What the vertices of a superstep see, and the contributions to one aggregator.
ghost use Rattle.std.specs.Prelude.{◌≡◌, ◌==◌, [], ◌∷◌, ◌++◌, length, cond, IfOk, OnOk};
ghost use Rattle.pg_model.specs.Superstep.{at_place, visible_in};

use crate::{MasterCompute, MasterState, Visible};
use pg_graph::{Memory, Superstep};
use pg_model::{Place, Sequence};
use std::alloc::Global;

/// What the master shows in a superstep, where these values were gathered in the one before.
#[tactic(auto, unfolding(pg_model::specs::Superstep::visible_in))]
pub fn visible_in<M: MasterCompute>(
    alloc: Global,
    master: &M,
    superstep: Superstep,
    total_vertices: u64,
    total_edges: u64,
    gathered: Sequence<i64>,
) -> Result<Visible, Memory>
    requires { length gathered ≡ length (M.master master.now).registrations }
    ensures value { IfOk result
        (λ v. v ≡ visible_in (M.master master.now).deciding
        (record { vertices = total_vertices; edges = total_edges }) superstep gathered) }
    ensures places { IfOk result (λ v. length v.values ≡ length gathered) }
{
    let mut state = MasterState::new(superstep, total_vertices, total_edges, gathered);
    master.compute(alloc, &mut state)?;
    Ok(state.into_parts())
}

/// A copy of gathered values.
pub fn copied(alloc: Global, values: &Sequence<i64>) -> Result<Sequence<i64>, Memory>
    ensures { IfOk result (λ copy. copy ≡ values.now) }
{
    Ok(Sequence::from_vec(Vec::from_slice(alloc, values.as_slice())?))
}

/// The contributions to a place, in order. Costs a walk over all of them, and room for as many.
pub fn values_at(
    alloc: Global,
    place: usize,
    contributions: &[(Place, i64)],
) -> Result<Vec<i64>, Memory>
    ensures { IfOk result (λ values. values.items ≡ at_place place contributions.now) }
{
    let mut values = Vec::with_capacity(alloc, contributions.len())?;
    for contribution in contributions {
        push_if_at(&mut values, place, contribution)?;
    }
    Ok(values)
}

/// Adds a contribution, where it is to this place.
fn push_if_at(
    values: &mut Vec<i64>,
    place: usize,
    contribution: &(Place, i64),
) -> Result<(), Memory>
    ensures { OnOk result
        (values.new.items
        ≡ values.old.items ++ cond (contribution.now.0 == place) (contribution.now.1 ∷ []) []) }
{
    let (at, value) = *contribution;
    if usize::from(at.number()) == place {
        values.push(value)?;
    }
    Ok(())
}
