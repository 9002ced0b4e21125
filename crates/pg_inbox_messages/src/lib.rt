//! Message lists: the messages to one target with their senders, as they lie in memory, and how they are made.
#![tactic(auto)]

mod change;
mod grouped;
mod making;
mod message_list;
mod repr_ref;

pub use change::MessageListChange;
pub use grouped::{by_target, first_group, items_to, run_len};
pub use making::message_lists_of;
pub use message_list::{Contents, MessageList};
pub use repr_ref::MessageListRef;
