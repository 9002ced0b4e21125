//! The ordered map from vertex ids whose copies share memory, and the numbers that name things.
#![tactic(auto)]

mod find;
mod gather;
mod group;
mod group_list;
mod in_place;
mod list;
mod merge;
mod number;
mod pack;
mod part;
mod shared;
mod walk;

pub use find::Cursor;
pub use number::{Edition, PartitionId, Superstep, VertexId, WorkerId, checked_u32};
pub use pack::Pack;
pub use part::{is_at_most, is_below};
pub use shared::{CheapClone, Map};
pub use std::alloc::AllocError as Memory;
pub use walk::{Ids, Iter};
