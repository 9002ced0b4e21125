//! The messages to one target.
ghost use Rattle.std.specs.Prelude.{◌≡◌, [], ◌∷◌, ◌<◌, length, get_or, IfOk, IfSome, IsSome};
ghost use Rattle.std.specs.List.{AllByRecursion, fold};
ghost use Rattle.std.specs.Option.{option_copied};
ghost use Rattle.pg_inbox_messages.specs.Contents.{messages, folded, contents_of};
ghost use Rattle.pg_inbox_messages.specs.Repr.{contents_in};

use pg_global::MessageCombiner;
use pg_graph::{Memory, VertexId};
use pg_map::CheapClone;
use pg_model::Sequence;
use pg_program::Plain;
use std::alloc::Global;
use std::marker::Model;
use std::sync::Arc;

/// The messages to one target with their senders, in order, and where they are combined what they come to.
#[derive(Drop)]
pub struct Contents<M> {
    pub envelopes: Sequence<(VertexId, M)>,
    pub folded: Option<M>,
}

/// Contents as they lie in memory. Most targets have few messages: a single one takes no memory of its own.
#[derive(Drop)]
pub(crate) enum Repr<M> {
    /// A message that isn't combined.
    Single((VertexId, M)),
    /// A message that is what it comes to, since the initial message is neutral.
    Combined((VertexId, M)),
    Many(Arc<Contents<M>>),
}

/// The contents of one target's messages, at least one. Copies share two and more; of a single one they have a copy.
#[derive(Drop)]
pub struct MessageList<M: Plain> {
    repr: Repr<M>,
}

impl<M: Plain> Model for MessageList<M> {
    ghost use Rattle.pg_inbox_messages.specs.declared.message_list.Contents.{Contents};
    ghost use Rattle.pg_inbox_messages.specs.Repr.{contents_in};
    ghost use Rattle.pg_inbox_messages.specs.Contents.{Holds};

    ghost Value = { Contents M };

    ghost view = { λ p. contents_in p.repr };

    ghost invariant = { λ p. Holds M.is_value (contents_in p.repr) };
}

impl<M: Plain> CheapClone for MessageList<M> {
    // Small, since the targets of a few vertices lie all over a bundle, and a copy of a message list is mostly a count.
    const CHUNK: usize = 16;

    fn cheap_clone(&self, alloc: Global) -> Result<MessageList<M>, Memory> {
        let repr = match &self.repr {
            Repr::Single(envelope) => Repr::Single((envelope.0, envelope.1.copy(alloc)?)),
            Repr::Combined(envelope) => Repr::Combined((envelope.0, envelope.1.copy(alloc)?)),
            Repr::Many(contents) => Repr::Many(Arc::try_clone(contents)?),
        };
        Ok(MessageList { repr })
    }
}

impl<M: Plain> MessageList<M> {
    ghost use Rattle.pg_inbox_messages.specs.Contents.{Holds, IsEnvelopes};

    /// A message list of these messages, with what they come to where the combiner combines.
    pub fn of<C: MessageCombiner<M>>(
        alloc: Global,
        envelopes: Vec<(VertexId, M)>,
        combiner: &C,
    ) -> Result<MessageList<M>, Memory>
        requires { IsEnvelopes M.is_value envelopes.items }
        ensures { IfOk result (λ message_list. message_list ≡ contents_of (C.combining combiner.now) envelopes.items) }
    {
        let repr = packed(alloc, envelopes, combiner)?;
        Ok(MessageList { repr })
    }

    /// A message list of one message.
    pub(crate) fn of_one<C: MessageCombiner<M>>(
        envelope: (VertexId, M),
        combiner: &C,
    ) -> MessageList<M>
        requires { M.is_value envelope.1 }
        ensures { result ≡ contents_of (C.combining combiner.now) (envelope ∷ []) }
    {
        let repr = packed_one(envelope, combiner);
        MessageList { repr }
    }

    /// How many messages there are.
    pub fn len(&self) -> usize
        ensures value { result ≡ length self.now.envelopes }
        ensures holds { Holds M.is_value self.now }
    {
        match &self.repr {
            Repr::Single(_) => 1,
            Repr::Combined(_) => 1,
            Repr::Many(contents) => contents.envelopes.len(),
        }
    }

    /// One of the messages, with its sender.
    pub fn envelope(&self, place: usize) -> &(VertexId, M)
        requires { place < length self.now.envelopes }
        ensures { result.now ≡ get_or self.now.envelopes place result.now }
    {
        match &self.repr {
            Repr::Single(envelope) => envelope,
            Repr::Combined(envelope) => envelope,
            Repr::Many(contents) => &contents.envelopes.as_slice()[place],
        }
    }

    /// What the messages come to, where they are combined.
    pub fn folded(&self) -> Option<&M>
        ensures { option_copied result ≡ self.now.folded }
    {
        match &self.repr {
            Repr::Single(_) => None,
            Repr::Combined(envelope) => Some(&envelope.1),
            Repr::Many(contents) => contents.folded.as_ref(),
        }
    }
}

/// Messages in as little memory as they need.
fn packed<M: Plain, C: MessageCombiner<M>>(
    alloc: Global,
    envelopes: Vec<(VertexId, M)>,
    combiner: &C,
) -> Result<Repr<M>, Memory>
    requires { AllByRecursion (λ l. M.is_value l.1) envelopes.items }
    ensures { IfOk result (λ repr. contents_in repr ≡ contents_of (C.combining combiner.now) envelopes.items) }
{
    if envelopes.len() > 1 {
        return packed_many(alloc, envelopes, combiner);
    }
    let mut envelopes = envelopes;
    match envelopes.pop() {
        Some(only) => Ok(packed_one(only, combiner)),
        None => packed_many(alloc, envelopes, combiner),
    }
}

/// One message.
fn packed_one<M: Plain, C: MessageCombiner<M>>(envelope: (VertexId, M), combiner: &C) -> Repr<M>
    requires { M.is_value envelope.1 }
    ensures { contents_in result ≡ contents_of (C.combining combiner.now) (envelope ∷ []) }
{
    if combiner.combines() {
        Repr::Combined(envelope)
    } else {
        Repr::Single(envelope)
    }
}

/// Any number of messages, in a list that is no longer than they are.
fn packed_many<M: Plain, C: MessageCombiner<M>>(
    alloc: Global,
    envelopes: Vec<(VertexId, M)>,
    combiner: &C,
) -> Result<Repr<M>, Memory>
    ensures { IfOk result (λ repr. contents_in repr ≡ contents_of (C.combining combiner.now) envelopes.items) }
{
    let mut envelopes = envelopes;
    let folded = folded(alloc, envelopes.as_slice(), combiner)?;
    envelopes.shrink_to_fit();
    let envelopes = Sequence::from_vec(envelopes);
    let contents = Arc::new(alloc, Contents { envelopes, folded })?;
    Ok(Repr::Many(contents))
}

/// What messages come to, where the combiner combines.
fn folded<M: Plain, C: MessageCombiner<M>>(
    alloc: Global,
    envelopes: &[(VertexId, M)],
    combiner: &C,
) -> Result<Option<M>, Memory>
    ensures { IfOk result (λ m. m ≡ folded (C.combining combiner.now) (messages envelopes.now)) }
{
    if combiner.combines() {
        Ok(Some(fold_of(alloc, envelopes, combiner)?))
    } else {
        Ok(None)
    }
}

/// What messages come to under a combiner.
fn fold_of<M: Plain, C: MessageCombiner<M>>(
    alloc: Global,
    envelopes: &[(VertexId, M)],
    combiner: &C,
) -> Result<M, Memory>
    requires { IsSome (C.combining combiner.now) }
    ensures { IfOk result (λ m. IfSome (C.combining combiner.now)
        (λ c. m ≡ fold c.combine c.initial (messages envelopes.now))) }
{
    let mut so_far = combiner.initial_message(alloc)?;
    for (_, message) in envelopes {
        combiner.combine(alloc, &mut so_far, message)?;
    }
    Ok(so_far)
}
