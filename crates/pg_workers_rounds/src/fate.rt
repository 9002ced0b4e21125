//! Which workers fall.
ghost use Rattle.std.specs.Prelude.{◌≡◌, ℕ, Bool, false};

use pg_graph::{PartitionId, Superstep, WorkerId};

/// Says which workers fall. The same questions have the same answers.
pub trait Fate: Sync {
    /// Whether a worker falls after it stepped a partition from a superstep, in a round before which so many losses
    /// were recorded: superstep, losses, worker, partition.
    ghost fated: { Self → ℕ → ℕ → ℕ → ℕ → Bool };

    /// Whether the worker falls once it has stepped this partition from the superstep. `attempt` is how many losses
    /// were recorded before the round. It is called by the worker's own thread.
    fn falls(
        &self,
        superstep: Superstep,
        attempt: u32,
        worker: WorkerId,
        partition: PartitionId,
    ) -> bool
        ensures { result ≡ fated self.now superstep attempt worker partition };
}

/// The fate by which no worker falls.
#[derive(Clone, Copy, Debug, PartialEq, Eq)]
pub struct NoFate;

impl Fate for NoFate {
    ghost fated = { λ _ _ _ _ _. false };

    fn falls(
        &self,
        _superstep: Superstep,
        _attempt: u32,
        _worker: WorkerId,
        _partition: PartitionId,
    ) -> bool {
        false
    }
}
