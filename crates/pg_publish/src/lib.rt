//! Publication: one publisher, and readers in other threads that never wait.
#![tactic(auto)]

mod answers;
mod history;
mod laws;
mod look;
mod receiver;
mod sender;
mod shown;

pub use answers::Answers;
pub use laws::{looks_never_go_back, readers_see_beginnings};
pub use look::{AnswerReader, Look, Publisher, Told};
