//! What tests of workers and of services share: fates, a place to meet, runs in which no worker falls, the rounds of a
//! run, simulated with plain numbers, counts of what came of runs at random, and what a run tells of its losses.
#![tactic(auto)]

mod counted;
mod fates;
mod meeting;
mod simulating;
mod telling;
mod trials;

pub use counted::{unlost, unlost_warm};
pub use fates::{AllFall, Strike, Strikes, Table};
pub use meeting::{Meeting, Waiting, is_set_in_time};
pub use pg_workers::Traces;
pub use simulating::{Calls, Findable, Simulated, Simulation};
pub use telling::{losses_of, tell_loss, tell_losses, tell_refusal};
pub use trials::{RunCounts, random_limits};
