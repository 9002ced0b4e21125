//! Limits at random, and counts of what came of runs.
use crate::simulating::Simulated;
use pg_workers::Limits;
use std::test::Fail;
use tests_kit::Random;

/// Limits at random: 1 to so many partitions on 1 to 5 workers, saved after 0 to 3 supersteps, with 1, 2 or 16 losses
/// borne, in at most 8 supersteps.
pub fn random_limits(partitions: u32, random: &mut Random) -> Result<Limits, Fail> {
    let (partitions, workers) = (random.below(partitions), random.below(5));
    let most = match random.below(6) {
        0 => 1,
        1 => 2,
        _ => 16,
    };
    let every = random.below(4);
    let limits = Limits::new(
        partitions.saturating_add(1),
        workers.saturating_add(1),
        8,
        every,
        most,
    );
    Ok(limits.ok_or("no such limits")?)
}

/// How many runs there were and how many of them ended, how many workers fell, and how many runs were refused for each
/// reason.
#[derive(Clone, Copy)]
pub struct RunCounts {
    pub runs: u32,
    pub ended: u32,
    pub losses: u32,
    pub too_many: u32,
    pub no_workers: u32,
    pub device: u32,
}

impl RunCounts {
    /// Of no run.
    pub fn new() -> RunCounts {
        RunCounts {
            runs: 0,
            ended: 0,
            losses: 0,
            too_many: 0,
            no_workers: 0,
            device: 0,
        }
    }

    /// Counts a run more, which came to this.
    pub fn count(&mut self, simulated: &Simulated) {
        self.runs = self.runs.saturating_add(1);
        let losses = match simulated {
            Simulated::Ended(_, _, losses) => {
                self.ended = self.ended.saturating_add(1);
                losses
            }
            Simulated::Refused(2, losses) => {
                self.too_many = self.too_many.saturating_add(1);
                losses
            }
            Simulated::Refused(3, losses) => {
                self.no_workers = self.no_workers.saturating_add(1);
                losses
            }
            Simulated::Refused(_, losses) => {
                self.device = self.device.saturating_add(1);
                losses
            }
        };
        let more = u32::try_from(losses.len()).unwrap_or(0);
        self.losses = self.losses.saturating_add(more);
    }
}
