//! The service: a graph, a ready program that runs on it, and the commands that reach both.
#![tactic(auto)]

mod block;
mod carrying;
mod making;
mod program;
mod reply;
mod session;
mod session_state;
mod writing;

use pg_global::AnyCombiner;
pub use pg_service::{Answers, Cause, Check, Limits, Loss, RefreshFault, Report, Service, same};
pub use pregeld_programs::{
    Cc, Indegree, MaxValue, Pagerank, Peel, ReadyMaster, ReadyProgram, Sssp,
};
pub use program::{start, start_leaving};
pub use session::{ServeFault, serve};

/// A service of a ready program with its master.
pub type ReadyService = Service<ReadyProgram, AnyCombiner, ReadyMaster>;
