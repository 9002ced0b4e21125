//! Lists put in order of vertex ids, and searches in lists that are.
#![tactic(auto)]

mod by_id;
mod digits;
mod near;

pub use by_id::{HasId, sorted_by_id};
pub use digits::reordered_by_id;
pub use near::count_below;
