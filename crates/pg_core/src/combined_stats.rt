//! What the partitions have come to together.
ghost use Rattle.std.specs.Prelude.{◌≡◌, ◌++◌, ℤ, List, All, FitsSigned, length, IfOk, OnOk};
ghost use Rattle.std.specs.Int.{w64};
ghost use Rattle.std.specs.List.{flat_map};
ghost use Rattle.pg_core.specs.Together.{stats_here};
ghost use Rattle.pg_stats.specs.GlobalStats.{aggregators_of, stats_of_all};
ghost use Rattle.pg_stats.specs.declared.stats.PartitionStats.{PartitionStats};

use pg_global::Registry;
use pg_graph::Memory;
use pg_part::Part;
use pg_program::Plain;
use pg_stats::GlobalStats;
use std::alloc::Global;

/// What the parts that are here have come to, where these values were visible in the superstep before. Costs one step
/// for each part and place.
pub(crate) fn combined_stats<V: Plain, M: Plain>(
    alloc: Global,
    registry: &Registry,
    visible: &[i64],
    parts: &[Option<Part<V, M>>],
) -> Result<GlobalStats, Memory>
    requires { length visible.now ≡ length registry.now }
    ensures value { IfOk result (λ stats. stats
        ≡ stats_of_all (aggregators_of registry.now) visible.now (flat_map stats_here parts.now)) }
    ensures fits { OnOk result (All (FitsSigned w64) visible.now) }
{
    let mut stats = GlobalStats::new(alloc, registry, visible)?;
    for part in parts {
        add_stats(alloc, registry, &mut stats, part)?;
    }
    Ok(stats)
}

/// Adds what one part has come to, if it is here.
fn add_stats<V: Plain, M: Plain>(
    alloc: Global,
    registry: &Registry,
    stats: &mut GlobalStats,
    part: &Option<Part<V, M>>,
) -> Result<(), Memory>
    ensures { OnOk result ((visible : List ℤ) (all : List PartitionStats)
        → stats.old ≡ stats_of_all (aggregators_of registry.now) visible all
        → stats.new
        ≡ stats_of_all (aggregators_of registry.now) visible (all ++ stats_here part.now)) }
{
    if let Some(part) = part {
        stats.add(alloc, registry, part.stats())?;
    }
    Ok(())
}
