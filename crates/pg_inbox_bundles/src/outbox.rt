//! What is sent, with who sent it.
ghost use Rattle.std.specs.Prelude.{◌≡◌, ◌++◌, ◌∷◌, [], ◌<◌, ℕ, length, map, slice_index_or, IfOk, OnOk};
ghost use Rattle.pg_inbox_bundles.specs.Outbox.{sends_in};

use pg_graph::{Memory, VertexId};
use std::alloc::Global;
use std::marker::Model;

/// Messages in the order in which they are to arrive, each with its target, and who sent each. A contract sees the
/// list of (sender, target, message).
#[derive(Drop)]
pub struct Outbox<M> {
    senders: Vec<VertexId>,
    sent: Vec<(VertexId, M)>,
}

impl<M> Model for Outbox<M> {
    ghost use Rattle.std.specs.Prelude.{◌≡◌, length};
    ghost use Rattle.pg_inbox_bundles.specs.Outbox.{Outbox, sends_in};

    ghost Value = { Outbox M };

    ghost view = { λ s. sends_in s.senders.items s.sent.items };

    ghost invariant = { λ s. length s.senders.items ≡ length s.sent.items };
}

impl<M: Drop> Outbox<M> {
    /// Nothing, with room for so many messages.
    pub fn with_room(alloc: Global, messages: usize) -> Result<Outbox<M>, Memory>
        ensures { IfOk result (λ outbox. outbox ≡ []) }
    {
        Ok(Outbox {
            senders: Vec::with_capacity(alloc, messages)?,
            sent: Vec::with_capacity(alloc, messages)?,
        })
    }

    /// Adds a message.
    pub fn push(&mut self, sender: VertexId, target: VertexId, message: M) -> Result<(), Memory>
        ensures { OnOk result (self.new ≡ self.old ++ (sender, target, message) ∷ []) }
    {
        // Room for the sender is made first, so that none of the two is put without the other.
        self.senders.reserve(1)?;
        self.sent.push((target, message))?;
        self.senders.push_reserved(sender);
        Ok(())
    }

    /// A reference to all of them.
    pub fn as_ref(&self) -> OutboxRef<'_, M>
        ensures { result ≡ self.now }
    {
        OutboxRef {
            senders: self.senders.as_slice(),
            sent: self.sent.as_slice(),
        }
    }
}

/// Messages and who sent each, borrowed from where they lie. A contract sees the list of (sender, target, message).
#[derive(Drop)]
pub struct OutboxRef<'a, M> {
    senders: &'a [VertexId],
    sent: &'a [(VertexId, M)],
}

impl<'a, M> Model for OutboxRef<'a, M> {
    ghost use Rattle.std.specs.Prelude.{◌≡◌, length};
    ghost use Rattle.pg_inbox_bundles.specs.Outbox.{Outbox, sends_in};

    ghost Value = { Outbox M };

    ghost view = { λ s. sends_in s.senders.now s.sent.now };

    ghost invariant = { λ s. length s.senders.now ≡ length s.sent.now };
}

impl<'a, M> OutboxRef<'a, M> {
    /// These messages, each with its target, of the senders at the same places.
    pub fn of(senders: &'a [VertexId], sent: &'a [(VertexId, M)]) -> OutboxRef<'a, M>
        requires { length senders.now ≡ length sent.now }
        ensures { result ≡ sends_in senders.now sent.now }
    {
        OutboxRef { senders, sent }
    }

    /// How many there are.
    pub(crate) fn len(&self) -> usize
        ensures { result ≡ length self.now }
    {
        self.sent.len()
    }

    /// Who sent the message at a place, to whom, and what. Costs O(1).
    #[inline(always)]
    pub(crate) fn at(&self, place: usize) -> (VertexId, VertexId, &'a M)
        requires { place < length self.now }
        ensures { (s : ℕ × ℕ × M) → (result.0, result.1, result.2.now) ≡ slice_index_or self.now place s }
    {
        send_at(self.senders, self.sent, place)
    }

    /// The messages with their targets.
    pub(crate) fn with_targets(&self) -> &'a [(VertexId, M)]
        ensures { map (λ m. m.0) result.now ≡ map (λ s. s.1) self.now }
    {
        self.sent
    }
}

/// What stands at a place in both lists.
#[inline(always)]
fn send_at<'a, M>(
    senders: &[VertexId],
    sent: &'a [(VertexId, M)],
    place: usize,
) -> (VertexId, VertexId, &'a M)
    requires senders { place < length senders.now }
    requires sent { place < length sent.now }
    ensures sender { (s : ℕ) → result.0 ≡ slice_index_or senders.now place s }
    ensures target { (m : ℕ × M) → result.1 ≡ (slice_index_or sent.now place m).0 }
    ensures message { (m : ℕ × M) → result.2.now ≡ (slice_index_or sent.now place m).1 }
{
    let (target, message) = &sent[place];
    (senders[place], *target, message)
}
