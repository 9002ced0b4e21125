//! What a refresh tells of its run.
ghost use Rattle.std.specs.Prelude.{◌≡◌};
ghost use Rattle.pg_service.specs.Reported.{report_on};

use pg_graph::Edition;
use pg_model::{Ending, Run, Sequence};
use pg_workers::{Counts, Loss};

/// What a refresh did: on which edition it ran, how many supersteps were executed and why the run ended, how many
/// messages were sent, before combining, and how many of them dropped, how many times compute was called in steps that
/// were given back, how many steps each partition has made, and the workers that fell, in their order. `sent`,
/// `dropped` and `calls` stop at 2^64 - 1.
#[derive(Drop)]
pub struct Report {
    pub edition: Edition,
    pub supersteps: u32,
    pub ending: Ending,
    pub sent: u64,
    pub dropped: u64,
    pub calls: u64,
    pub steps: Sequence<u64>,
    pub losses: Sequence<Loss>,
}

impl Report {
    /// The report of a run on this edition, of which this was counted.
    pub(crate) fn of<V>(edition: Edition, run: &Run<V>, counts: Counts) -> Report
        ensures { result ≡ report_on edition run.now counts }
    {
        let Counts {
            calls,
            steps,
            losses,
        } = counts;
        Report {
            edition,
            supersteps: run.supersteps,
            ending: run.ending,
            sent: run.sent,
            dropped: run.dropped,
            calls,
            steps,
            losses,
        }
    }
}
