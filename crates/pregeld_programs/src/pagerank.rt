//! Ranks of vertices (Pregel, section 5.1).
ghost use Rattle.std.specs.Prelude.{◌≡◌, ◌≢◌, ◌==◌, ◌<◌, ◌^◌, [], ◌++◌, false, true, not, cond, length, pos, ◌+ℤ◌};
ghost use Rattle.std.specs.Prelude.{◌*ℤ◌, ◌-ℤ◌, int_div, nat_abs, OnOk};
ghost use Rattle.std.specs.Int.{w64, int_wrapping_add, saturate_signed};
ghost use Rattle.std.specs.List.{fold};
ghost use Rattle.pg_model.specs.Job.{has_place};
ghost use Rattle.pg_model.specs.Programs.{contributed, to_all};
ghost use Rattle.pg_model.specs.Superstep.{is_empty};
ghost use Rattle.pg_global.specs.Master.{decided};
ghost use Rattle.pregeld_programs.specs.Ready.{pagerank_master};

use crate::folds::wrapping_sum;
use pg_global::MasterState;
use pg_graph::{Memory, VertexId};
use pg_program::{Computation, Cx, Declared, Place, Vertex};
use std::alloc::Global;

/// One whole.
const WHOLE: u64 = 1_000_000_000_000;

/// What all vertices share among them, whatever they point at: 15 of 100 parts.
const SHARED: u64 = 150_000_000_000;

/// The program that ranks vertices by the ranks of those that point at them: each gives 85 of 100 parts of
/// its rank to those that it points at, in equal shares, cut towards zero. It contributes by how much each
/// rank changed to the aggregator at place 0.
#[derive(Clone, Copy, Debug, PartialEq, Eq)]
pub struct Pagerank {
    /// The superstep from which on vertices send no more.
    pub rounds: u32,
    /// The run ends once the ranks change by no more than this in all, where it is above 0.
    pub eps: i64,
}

impl Computation for Pagerank {
    type Value = i64;

    type Message = i64;

    ghost use Rattle.pg_model.specs.Programs.{pagerank};

    ghost program = { λ p. pagerank p.rounds };

    fn declared(&self) -> Declared {
        Declared {
            reads: 0,
            writes: 1,
            total_vertices: true,
            total_edges: false,
        }
    }

    fn initial(&self, _alloc: Global, _id: VertexId, _input: i64) -> Result<i64, Memory> {
        Ok(0)
    }

    #[tactic(auto, unfolding(pg_model::specs::Programs::pagerank_step))]
    fn compute(
        &self,
        alloc: Global,
        vertex: &mut Vertex<i64>,
        messages: &[i64],
        cx: &mut Cx<i64>,
    ) -> Result<(), Memory> {
        cx.called();
        let superstep = cx.superstep().number();
        let rank = rank(superstep, cx.total_vertices(), messages);
        tell_change(superstep, rank, *vertex.value(), cx)?;
        vertex.set_value(rank);
        if superstep >= self.rounds {
            vertex.vote_to_halt();
            return Ok(());
        }
        send_shares(alloc, vertex, cx)?;
        Ok(())
    }
}

impl Pagerank {
    /// Halts where the ranks of the superstep before have changed by no more than `eps` in all.
    pub(crate) fn decide(&self, state: &mut MasterState)
        requires place { length state.old.values ≡ 1 }
        requires halt { state.old.halt ≡ false }
        ensures { state.new ≡ decided (pagerank_master self.now.eps) state.old }
    {
        let change = state.aggregated(Place::new(0));
        if state.superstep().number() >= 2 && self.eps > 0 && change >= 0 && change <= self.eps {
            state.halt();
        }
    }
}

/// The rank of a vertex in a superstep, in a graph of so many vertices.
fn rank(superstep: u32, vertices: u64, messages: &[i64]) -> i64
    ensures first { superstep ≡ 0 → result ≡ int_div (pos 1000000000000) (pos (cond (vertices == 0) 1 vertices)) }
    ensures later { superstep ≢ 0 → result ≡ saturate_signed w64
        (int_div (pos 150000000000) (pos (cond (vertices == 0) 1 vertices))
        +ℤ int_div (fold (int_wrapping_add w64) (pos 0) messages.now *ℤ pos 85) (pos 100)) }
{
    let vertices = if vertices == 0 { 1 } else { vertices };
    if superstep == 0 {
        return part(WHOLE, vertices);
    }
    part(SHARED, vertices).saturating_add(damped(wrapping_sum(messages)))
}

/// Contributes how far a rank is from the one before; in superstep 0 there was none.
fn tell_change(superstep: u32, rank: i64, before: i64, cx: &mut Cx<i64>) -> Result<(), Memory>
    requires { has_place cx.old.writes 0 ≡ true }
    ensures { OnOk result (cx.new ≡ record cx.old {
      contributed = cx.old.contributed ++ cond (superstep == 0) []
          (contributed (saturate_signed w64 (pos (nat_abs (rank -ℤ before)))));
    }) }
{
    if superstep == 0 {
        return Ok(());
    }
    cx.aggregate(Place::new(0), distance(rank, before))?;
    Ok(())
}

/// A part of a whole, cut down.
fn part(whole: u64, parts: u64) -> i64
    requires whole { whole < 2 ^ 63 }
    requires parts { 0 < parts }
    ensures { result ≡ int_div (pos whole) (pos parts) }
{
    (whole / parts) as i64
}

/// 85 of 100 parts of a sum, cut towards zero.
fn damped(sum: i64) -> i64
    ensures { result ≡ int_div (sum *ℤ pos 85) (pos 100) }
{
    match sum.checked_mul(85) {
        Some(product) => product / 100,
        None => (i128::from(sum) * 85 / 100) as i64,
    }
}

/// How far two ranks are apart, at most the greatest number.
fn distance(rank: i64, other: i64) -> i64
    ensures { result ≡ saturate_signed w64 (pos (nat_abs (rank -ℤ other))) }
{
    rank.abs_diff(other).min(i64::MAX as u64) as i64
}

/// Sends an equal share of the rank along each edge, cut towards zero.
fn send_shares(alloc: Global, vertex: &Vertex<i64>, cx: &mut Cx<i64>) -> Result<(), Memory>
    ensures { OnOk result (cx.new ≡ record cx.old {
      sent = cx.old.sent ++ cond (not (is_empty vertex.now.edges))
          (to_all (int_div vertex.now.value (pos (length vertex.now.edges))) vertex.now.edges) [];
    }) }
{
    let edges = vertex.edges().len();
    if edges == 0 {
        return Ok(());
    }
    let share = *vertex.value() / edges as i64;
    cx.send_to_all_edges(alloc, vertex, &share)?;
    Ok(())
}
