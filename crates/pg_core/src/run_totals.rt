//! What a run over partitions has counted so far.
ghost use Rattle.std.specs.Prelude.{◌≡◌, ◌+◌};
ghost use Rattle.pg_model.specs.Superstep.{capped};

use pg_model::Sequence;
use pg_stats::GlobalStats;

/// What a run over partitions has counted: the gathered aggregates by place, the messages that were sent, before
/// combining, and those that were dropped. Each count stops at 2^64 - 1.
#[derive(Drop)]
pub struct RunTotals {
    pub gathered: Sequence<i64>,
    pub sent: u64,
    pub dropped: u64,
}

impl RunTotals {
    /// The totals after one superstep more, which came to these stats.
    pub(crate) fn after(&self, stats: GlobalStats) -> RunTotals
        ensures { result ≡ record {
          gathered = stats.gathered;
          sent = capped (self.now.sent + stats.sent);
          dropped = capped (self.now.dropped + stats.dropped);
        } }
    {
        RunTotals {
            gathered: stats.gathered,
            sent: self.sent.saturating_add(stats.sent),
            dropped: self.dropped.saturating_add(stats.dropped),
        }
    }
}
