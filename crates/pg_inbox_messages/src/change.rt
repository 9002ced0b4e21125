//! What is changed of the messages to a target.
ghost use Rattle.std.specs.Prelude.{◌≡◌};

use crate::message_list::MessageList;
use crate::repr_ref::MessageListRef;
use pg_graph::Memory;
use pg_map::CheapClone;
use pg_program::Plain;
use std::alloc::Global;
use std::marker::Model;

/// The messages that a target has now, or that it has none. Copies share them as those of a message list do.
pub struct MessageListChange<M: Plain> {
    message_list: Option<MessageList<M>>,
}

// By hand, so that it is let go by one call wherever that is, and not field by field.
impl<M: Plain> Drop for MessageListChange<M> {
    fn drop(self) {
        let MessageListChange { message_list: _ } = self;
    }
}

impl<M: Plain> Model for MessageListChange<M> {
    ghost use Rattle.std.specs.Prelude.{Option};
    ghost use Rattle.pg_inbox_messages.specs.declared.message_list.Contents.{Contents};

    ghost Value = { Option (Contents M) };

    ghost view = { λ c. c.message_list };
}

impl<M: Plain> CheapClone for MessageListChange<M> {
    // Small, since the targets of a few vertices lie all over a bundle, and a copy of a message list is mostly a count.
    const CHUNK: usize = 16;

    fn cheap_clone(&self, alloc: Global) -> Result<MessageListChange<M>, Memory> {
        match &self.message_list {
            Some(message_list) => {
                let message_list = message_list.cheap_clone(alloc)?;
                Ok(MessageListChange {
                    message_list: Some(message_list),
                })
            }
            None => Ok(MessageListChange { message_list: None }),
        }
    }
}

impl<M: Plain> MessageListChange<M> {
    /// To this message list, or to none.
    pub fn of(message_list: Option<MessageList<M>>) -> MessageListChange<M>
        ensures { result ≡ message_list }
    {
        MessageListChange { message_list }
    }

    /// What the target has now.
    pub fn message_list(&self) -> Option<MessageListRef<'_, M>>
        ensures { result ≡ self.now }
    {
        match &self.message_list {
            Some(message_list) => Some(MessageListRef::of(message_list)),
            None => None,
        }
    }
}
