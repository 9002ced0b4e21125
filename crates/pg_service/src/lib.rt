//! The service: a graph that is kept with its edition, a job that runs on it, against its last run, and the answers,
//! which are published to readers in other threads.
#![tactic(auto)]

mod answers;
mod kept;
mod laws;
mod printed;
mod refreshing;
mod registering;
mod report;
mod report_json;
mod service;

pub use answers::{Check, same};
pub use laws::{looks_are_answers, publications_are_answers};
pub use pg_publish::{AnswerReader, Answers, Look, Told};
pub use pg_workers::{
    Cause, Fate, Gate, Limits, Loss, MemShelf, NoFate, NoGate, RefreshFault, Shelf, ShelfFault,
};
pub use report::Report;
pub use report_json::ending_word;
pub use service::Service;
