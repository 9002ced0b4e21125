//! What the contributions of a superstep come to.
ghost use Rattle.std.specs.Prelude.{◌≡◌, [], ◌∷◌, ◌++◌, length, map, IfOk, OnOk};
ghost use Rattle.pg_model.specs.Superstep.{at_place, gathered_at, gathered_from};
ghost use Rattle.pg_global.specs.Registry.{aggregating_of};

use pg_global::{Aggregator, Registration, gather, values_at};
use pg_graph::Memory;
use pg_model::{Place, Sequence};
use std::alloc::Global;

/// What the contributions of a superstep come to, where these values were visible in it. Costs one walk over the
/// contributions for each place.
pub(crate) fn gather_all(
    alloc: Global,
    registrations: &[Registration],
    visible: &[i64],
    contributed: &[(Place, i64)],
) -> Result<Sequence<i64>, Memory>
    requires { length registrations.now ≡ length visible.now }
    ensures { IfOk result
        (λ g. g ≡ gathered_from 0
        (map aggregating_of registrations.now) visible.now contributed.now) }
{
    let mut gathered = Vec::new(alloc);
    for (place, registration) in registrations.iter().enumerate() {
        push_gathered(
            alloc,
            &mut gathered,
            place,
            registration,
            &visible[place],
            contributed,
        )?;
    }
    Ok(Sequence::from_vec(gathered))
}

/// Adds what the contributions to a place come to.
fn push_gathered(
    alloc: Global,
    gathered: &mut Vec<i64>,
    place: usize,
    registration: &Registration,
    visible: &i64,
    contributed: &[(Place, i64)],
) -> Result<(), Memory>
    ensures { OnOk result
        (gathered.new.items
        ≡ gathered.old.items
        ++ gathered_at (aggregating_of registration.now) visible.now
        (at_place place contributed.now) ∷ []) }
{
    let here = values_at(alloc, place, contributed)?;
    gathered.push(gathered_at(registration, *visible, here.as_slice()))?;
    Ok(())
}

/// What contributions to an aggregator come to: from what was visible on, where it is persistent, and else from
/// its initial value on.
fn gathered_at(registration: &Registration, visible: i64, contributions: &[i64]) -> i64
    ensures { result ≡ gathered_at (aggregating_of registration.now) visible contributions.now }
{
    let from = if registration.persistent {
        visible
    } else {
        registration.kind.initial_value()
    };
    gather(&registration.kind, from, contributions)
}
