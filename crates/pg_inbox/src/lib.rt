//! What partitions receive in a superstep: the inboxes that bundles make, and the logs of a run.
#![tactic(auto)]

mod delivered;
mod lists;
mod logs;
mod places;
mod receivers;
mod receiving;
mod sent_row;

pub use delivered::Inboxes;
pub use logs::Logs;
pub use pg_inbox_bundles::{
    Bundle, BundleCursor, LoggedBundle, Outbox, OutboxRef, bundle, changed_targets, copied_message,
    patch,
};
pub use receivers::inboxes;
pub use receiving::{add_receivers, inbox};
