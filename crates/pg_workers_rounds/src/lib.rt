//! Workers: a round of a run, in which each worker steps its partitions in a thread, and may fall.
#![tactic(auto)]

mod cause;
mod fate;
mod gate;
mod round;
mod threads;
mod working;

pub use cause::Cause;
pub use fate::{Fate, NoFate};
pub use gate::{Gate, NoGate};
pub use pg_part::{Memory, Part, Partitioner, Sent};
pub use round::Round;
pub use threads::{Assignment, Outcome, in_threads, in_turn};
pub use working::{Done, work};
