//! What a program sees of a superstep.
ghost use Rattle.std.specs.Prelude.{◌≡◌, ◌≤◌, length, IfOk};
ghost use Rattle.pg_model.specs.Superstep.{shown, view_of};

use pg_graph::{Memory, Superstep};
use pg_model::{Declared, Sequence, View, Visible};
use std::alloc::Global;

/// What a program that has declared this sees of what the master shows in a superstep: the aggregators and totals
/// that it reads, and nothing else.
#[tactic(auto, unfolding(pg_model::specs::Superstep::view_of))]
pub fn view_of(
    alloc: Global,
    declared: Declared,
    superstep: Superstep,
    visible: &Visible,
) -> Result<View, Memory>
    requires { length visible.now.values ≤ 16 }
    ensures { IfOk result (λ v. v ≡ view_of declared superstep visible.now) }
{
    let aggregates = shown(alloc, declared.reads, visible.values.as_slice())?;
    Ok(View {
        superstep,
        aggregates,
        total_vertices: declared.total_vertices.then_some(visible.total_vertices),
        total_edges: declared.total_edges.then_some(visible.total_edges),
    })
}

/// The values at the declared places.
fn shown(alloc: Global, places: u16, values: &[i64]) -> Result<Sequence<Option<i64>>, Memory>
    requires { length values.now ≤ 16 }
    ensures { IfOk result (λ s. s ≡ shown places 0 values.now) }
{
    let mut shown = Sequence::new(alloc);
    for place in 0..values.len() {
        let is_declared = (places >> place) % 2 == 1;
        shown.push(is_declared.then_some(values[place]))?;
    }
    Ok(shown)
}
