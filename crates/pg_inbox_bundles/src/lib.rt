//! Bundles: what one partition sends to another in a superstep, how they are made, and what becomes of them.
#![tactic(auto)]

mod bundles;
mod changing;
mod counting;
mod cursor;
mod envelopes;
mod logged_bundle;
mod making;
mod message_lists;
mod outbox;
mod patching;

pub use bundles::Bundle;
pub use changing::changed_targets;
pub use cursor::BundleCursor;
pub use logged_bundle::LoggedBundle;
pub use making::{bundle, copied_message};
pub use outbox::{Outbox, OutboxRef};
pub use patching::patch;
