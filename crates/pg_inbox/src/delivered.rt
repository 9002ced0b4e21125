//! Inboxes of vertices, whose messages lie in one list.
ghost use Rattle.std.specs.Prelude.{◌≡◌, ◌++◌, ◌∷◌, ◌<◌, ◌≤◌, ℕ, List, [], drop, length, map, slice_index_or, IfOk};
ghost use Rattle.std.specs.Prelude.{OnOk};
ghost use Rattle.pg_inbox_messages.specs.Contents.{messages};
ghost use Rattle.pg_inbox_bundles.specs.Ordered.{in_order};

use crate::receiving::add_by_sender;
use pg_graph::{Memory, VertexId};
use pg_inbox_messages::MessageListRef;
use pg_program::Plain;
use std::alloc::Global;
use std::marker::Model;

/// What vertices receive: each has an inbox, and the messages of all lie in one list, so that an inbox takes no memory
/// of its own. A contract sees the list of (id, messages).
#[derive(Drop)]
pub struct Inboxes<M> {
    messages: Vec<M>,
    parts: Vec<Delivered>,
}

/// A vertex, and which part of the list it receives.
#[derive(Clone, Copy)]
struct Delivered {
    id: VertexId,
    first: usize,
    count: usize,
}

impl<M> Model for Inboxes<M> {
    ghost use Rattle.std.specs.Prelude.{ℕ, List};
    ghost use Rattle.pg_inbox.specs.Parts.{AreWithin, inboxes_in};

    ghost Value = { List (ℕ × List M) };

    ghost view = { λ i. inboxes_in i.messages.items i.parts.items };

    ghost invariant = { λ i. AreWithin i.messages.items i.parts.items };
}

impl<M: Drop> Inboxes<M> {
    ghost use Rattle.pg_inbox.specs.Parts.{AreWithin, inboxes_in};

    /// No inboxes, with room for so many.
    pub fn new(alloc: Global, vertices: usize) -> Result<Inboxes<M>, Memory>
        ensures { IfOk result (λ inboxes. inboxes ≡ []) }
    {
        Ok(Inboxes {
            messages: Vec::new(alloc),
            parts: Vec::with_capacity(alloc, vertices)?,
        })
    }

    /// No inboxes, with room for so many and so many messages.
    pub(crate) fn with_room(
        alloc: Global,
        vertices: usize,
        messages: usize,
    ) -> Result<Inboxes<M>, Memory>
        ensures { IfOk result (λ inboxes. inboxes ≡ []) }
    {
        let messages = Vec::with_capacity(alloc, messages)?;
        let parts = Vec::with_capacity(alloc, vertices)?;
        Ok(Inboxes { messages, parts })
    }

    /// How many messages all of them have: for how many to make room, so no contract tells it.
    pub fn messages(&self) -> usize {
        self.messages.len()
    }

    /// How many there are.
    pub fn len(&self) -> usize
        ensures { result ≡ length self.now }
    {
        self.parts.len()
    }

    /// The vertex at a place, and what it receives. Costs O(1).
    pub fn at(&self, place: usize) -> (VertexId, &[M])
        requires { place < length self.now }
        ensures { (e : ℕ × List M) → (result.0, result.1.now) ≡ slice_index_or self.now place e }
    {
        let part = self.parts[place];
        let (_, from) = self.messages.as_slice().split_at(part.first);
        let (messages, _) = from.split_at(part.count);
        (part.id, messages)
    }

    /// These inboxes and one more. Costs a move of its messages.
    pub fn with(self, id: VertexId, messages: Vec<M>) -> Result<Inboxes<M>, Memory>
        ensures { IfOk result (λ inboxes. inboxes ≡ self ++ (id, messages.items) ∷ []) }
    {
        let Inboxes {
            messages: mut all,
            parts,
        } = self;
        let first = all.len();
        let mut messages = messages;
        all.append(&mut messages)?;
        Inboxes::ended(all, parts, id, first)
    }

    /// These inboxes and one of no messages.
    pub fn with_none(self, id: VertexId) -> Result<Inboxes<M>, Memory>
        ensures { IfOk result (λ inboxes. inboxes ≡ self ++ (id, []) ∷ []) }
    {
        let Inboxes { messages, parts } = self;
        let end = messages.len();
        Inboxes::ended(messages, parts, id, end)
    }

    /// These inboxes, and one of the messages from a place on.
    #[inline(always)]
    fn ended(
        messages: Vec<M>,
        parts: Vec<Delivered>,
        id: VertexId,
        first: usize,
    ) -> Result<Inboxes<M>, Memory>
        requires within { AreWithin messages.items parts.items }
        requires first { first ≤ length messages.items }
        ensures { IfOk result (λ inboxes. inboxes ≡ inboxes_in messages.items parts.items
            ++ (id, drop first messages.items) ∷ []) }
    {
        let mut parts = parts;
        let count = messages.len() - first;
        parts.push(Delivered { id, first, count })?;
        Ok(Inboxes { messages, parts })
    }
}

impl<M: Plain> Inboxes<M> {
    /// These inboxes and one of copies of messages.
    pub fn with_copies(
        self,
        alloc: Global,
        id: VertexId,
        messages: &[M],
    ) -> Result<Inboxes<M>, Memory>
        ensures { IfOk result (λ inboxes. inboxes ≡ self ++ (id, messages.now) ∷ []) }
    {
        let Inboxes {
            messages: mut all,
            parts,
        } = self;
        let first = all.len();
        add_copies(alloc, &mut all, messages)?;
        Inboxes::ended(all, parts, id, first)
    }

    /// These inboxes and one of a bundle's messages to one target, by sender and then in the order sent.
    #[inline(always)]
    pub(crate) fn with_message_list(
        self,
        alloc: Global,
        id: VertexId,
        message_list: &MessageListRef<'_, M>,
    ) -> Result<Inboxes<M>, Memory>
        ensures { IfOk result (λ inboxes. inboxes ≡ self ++ (id, messages (in_order message_list.now.envelopes)) ∷ []) }
    {
        let Inboxes {
            mut messages,
            parts,
        } = self;
        let first = messages.len();
        add_by_sender(alloc, &mut messages, message_list)?;
        Inboxes::ended(messages, parts, id, first)
    }

    /// These inboxes and one of the messages of envelopes, by sender and then in their order. No envelopes remain.
    #[inline(always)]
    pub(crate) fn with_envelopes(
        self,
        alloc: Global,
        id: VertexId,
        envelopes: &mut Vec<(VertexId, M)>,
    ) -> Result<Inboxes<M>, Memory>
        ensures inboxes { IfOk result
            (λ inboxes. inboxes ≡ self ++ (id, messages (in_order envelopes.old.items)) ∷ []) }
        ensures none { OnOk result (envelopes.new.items ≡ []) }
    {
        let Inboxes {
            mut messages,
            parts,
        } = self;
        let first = messages.len();
        envelopes.sort_by_key(|envelope| envelope.0)?;
        add_messages(alloc, &mut messages, envelopes.as_slice())?;
        envelopes.clear();
        Inboxes::ended(messages, parts, id, first)
    }
}

/// Adds copies of messages.
fn add_copies<M: Plain>(alloc: Global, into: &mut Vec<M>, messages: &[M]) -> Result<(), Memory>
    ensures { OnOk result (into.new.items ≡ into.old.items ++ messages.now) }
{
    for message in messages {
        into.push(message.copy(alloc)?)?;
    }
    Ok(())
}

/// Adds copies of messages without their senders.
#[inline(always)]
fn add_messages<M: Plain>(
    alloc: Global,
    into: &mut Vec<M>,
    envelopes: &[(VertexId, M)],
) -> Result<(), Memory>
    ensures { OnOk result (into.new.items ≡ into.old.items ++ messages envelopes.now) }
{
    for (_, message) in envelopes {
        into.push(message.copy(alloc)?)?;
    }
    Ok(())
}
