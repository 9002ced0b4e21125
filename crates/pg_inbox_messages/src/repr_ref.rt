//! The messages to one target, as they are borrowed.
ghost use Rattle.std.specs.Prelude.{◌≡◌, ◌<◌, length, get_or, map, None};
ghost use Rattle.std.specs.Option.{option_copied};
ghost use Rattle.pg_inbox_messages.specs.Contents.{contents_of};

use crate::message_list::MessageList;
use pg_graph::VertexId;
use pg_program::Plain;
use std::marker::Model;

/// Messages where they lie: in a message list, or among those that were sent, each with its target.
#[derive(Drop)]
pub(crate) enum ReprRef<'a, M: Plain> {
    Kept(&'a MessageList<M>),
    Sent(&'a [(VertexId, (VertexId, M))]),
}

/// The messages to one target, borrowed from where they lie. A contract sees just what they are.
#[derive(Drop)]
pub struct MessageListRef<'a, M: Plain> {
    repr_ref: ReprRef<'a, M>,
}

impl<'a, M: Plain> Model for MessageListRef<'a, M> {
    ghost use Rattle.pg_inbox_messages.specs.declared.message_list.Contents.{Contents};
    ghost use Rattle.pg_inbox_messages.specs.ReprRef.{contents_repr_ref};

    ghost Value = { Contents M };

    ghost view = { λ p. contents_repr_ref p.repr_ref };
}

impl<'a, M: Plain> MessageListRef<'a, M> {
    /// Those of a message list.
    pub fn of(message_list: &'a MessageList<M>) -> MessageListRef<'a, M>
        ensures { result ≡ message_list.now }
    {
        MessageListRef {
            repr_ref: ReprRef::Kept(message_list),
        }
    }

    /// Messages that aren't combined, all to one target.
    pub fn of_sent(envelopes: &'a [(VertexId, (VertexId, M))]) -> MessageListRef<'a, M>
        ensures { result ≡ contents_of None (map (λ l. l.1) envelopes.now) }
    {
        MessageListRef {
            repr_ref: ReprRef::Sent(envelopes),
        }
    }

    /// How many messages there are.
    pub fn len(&self) -> usize
        ensures { result ≡ length self.now.envelopes }
    {
        match &self.repr_ref {
            ReprRef::Kept(message_list) => message_list.len(),
            ReprRef::Sent(envelopes) => envelopes.len(),
        }
    }

    /// One of the messages, with its sender.
    pub fn envelope(&self, place: usize) -> &(VertexId, M)
        requires { place < length self.now.envelopes }
        ensures { result.now ≡ get_or self.now.envelopes place result.now }
    {
        match &self.repr_ref {
            ReprRef::Kept(message_list) => message_list.envelope(place),
            ReprRef::Sent(envelopes) => sent_envelope(envelopes, place),
        }
    }

    /// What the messages come to, where they are combined.
    pub fn folded(&self) -> Option<&M>
        ensures { option_copied result ≡ self.now.folded }
    {
        match &self.repr_ref {
            ReprRef::Kept(message_list) => message_list.folded(),
            ReprRef::Sent(_) => None,
        }
    }
}

/// One of the messages that were sent to a target, with its sender.
fn sent_envelope<M>(envelopes: &[(VertexId, (VertexId, M))], place: usize) -> &(VertexId, M)
    requires { place < length envelopes.now }
    ensures { result.now ≡ get_or (map (λ l. l.1) envelopes.now) place result.now }
{
    let item = &envelopes[place];
    &item.1
}
