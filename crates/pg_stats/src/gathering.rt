//! What a superstep's contributions come to, and whether two runs have the same.
ghost use Rattle.std.specs.Prelude.{◌≡◌, map, IfOk};
ghost use Rattle.std.specs.List.{fold, list_all};
ghost use Rattle.std.specs.Option.{option_copied};
ghost use Rattle.pg_global.specs.AnyAggregator.{initial_of, operation_of};
ghost use Rattle.pg_global.specs.Registry.{aggregating_of};
ghost use Rattle.pg_model.specs.Superstep.{at_place};
ghost use Rattle.pg_stats.specs.Contributed.{contributed_by, contributes_alike};
ghost use Rattle.pg_stats.specs.Stats.{gathered_afresh};

use pg_global::{Aggregator, AnyAggregator, Registry, gather, values_at};
use pg_graph::{Memory, Superstep, VertexId};
use pg_model::{Place, Sequence};
use pg_program::Plain;
use pg_trace::{RecordRef, Trace};
use std::alloc::Global;

/// What contributions come to, by place, each from its aggregator's initial value on. Costs a walk over them for each
/// place.
pub fn gathered(
    alloc: Global,
    registry: &Registry,
    contributions: &[(Place, i64)],
) -> Result<Sequence<i64>, Memory>
    ensures { IfOk result (λ gathered.
        gathered ≡ gathered_afresh 0 (map (λ e. aggregating_of e.1) registry.now) contributions.now) }
{
    let mut gathered = Sequence::new(alloc);
    for place in 0..registry.len() {
        let kind = registry.registration(place).kind;
        gathered.push(gathered_at(alloc, kind, place, contributions)?)?;
    }
    Ok(gathered)
}

/// What those to one place come to.
fn gathered_at(
    alloc: Global,
    kind: AnyAggregator,
    place: usize,
    contributions: &[(Place, i64)],
) -> Result<i64, Memory>
    ensures { IfOk result
        (λ value. value ≡ fold (operation_of kind) (initial_of kind) (at_place place contributions.now)) }
{
    let values = values_at(alloc, place, contributions)?;
    Ok(gather(&kind, kind.initial_value(), values.as_slice()))
}

/// Whether each of these vertices contributes the same in a superstep of two runs. Costs two look-ups for each, and a
/// look at what they contribute.
pub fn contribute_alike<V: Plain, M: Plain>(
    old: &Trace<V, M>,
    new: &Trace<V, M>,
    superstep: Superstep,
    ids: &[VertexId],
) -> bool
    ensures { result ≡ list_all (contributes_alike old.now new.now superstep) ids.now }
{
    for id in ids {
        if !contributes_alike(old, new, superstep, *id) {
            return false;
        }
    }
    true
}

fn contributes_alike<V: Plain, M: Plain>(
    old: &Trace<V, M>,
    new: &Trace<V, M>,
    superstep: Superstep,
    id: VertexId,
) -> bool
    ensures { result ≡ contributes_alike old.now new.now superstep id }
{
    let old = contributed_by(old.record_at(id, superstep));
    let new = contributed_by(new.record_at(id, superstep));
    old == new
}

/// What a vertex contributes by its record, if it has one.
fn contributed_by<'a, V, M>(by: Option<RecordRef<'a, V, M>>) -> &'a [(Place, i64)]
    ensures { result.now ≡ contributed_by by.entry }
{
    match by {
        Some(record) => record.contributed(),
        None => &[],
    }
}
