//! The definitions that the crates above share: what a job, a run, an answer, a partition's share and
//! the needed executions are (specs/), the laws about them (proofs/), and the plain data that they speak of.
#![tactic(auto)]

mod configuration;
mod equality;
mod record;
mod run;
mod sequence;
mod view;

pub use configuration::{Configuration, VertexState, VertexWithInbox};
pub use record::{Place, Record};
pub use run::{Ending, Run};
pub use sequence::Sequence;
pub use view::{Declared, View, Visible};
