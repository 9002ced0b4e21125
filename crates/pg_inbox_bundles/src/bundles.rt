//! A bundle, as it is held.
ghost use Rattle.std.specs.Prelude.{◌≡◌, [], IfOk, IfSome, IsTrue};
ghost use Rattle.std.specs.List.Sorted.{IsNonDecreasingBy};
ghost use Rattle.std.specs.Option.{option_map};
ghost use Rattle.std.specs.Prelude.{None};
ghost use Rattle.pg_map.specs.Entries.{HasRisingIds, value_at};
ghost use Rattle.pg_inbox_messages.specs.Contents.{contents_of};
ghost use Rattle.pg_inbox_messages.specs.Grouping.{any_of, items_to};
ghost use Rattle.pg_inbox_bundles.specs.Holding.{HoldAll, HoldsAt};
ghost use Rattle.pg_inbox_bundles.specs.Sound.{sent_message_lists};

use crate::envelopes::Envelopes;
use pg_graph::{Memory, VertexId};
use pg_inbox_messages::{MessageListChange, MessageListRef, items_to};
use pg_map::Map;
use pg_program::Plain;
use std::marker::Model;

/// What one partition sends to another in a superstep: for each target, by rising id, the messages to it with
/// their senders, and where the combiner combines what they come to. Copies share their memory.
///
/// Messages that aren't combined lie as they were sent, in one list by rising target, with what is changed of it
/// since; those that are combined are changes of no list.
pub struct Bundle<M: Plain> {
    pub(crate) envelopes: Envelopes<M>,
    pub(crate) changes: Map<MessageListChange<M>>,
}

// By hand, so that it is let go by one call wherever that is, and not field by field.
impl<M: Plain> Drop for Bundle<M> {
    fn drop(self) {
        let Bundle {
            envelopes: _,
            changes: _,
        } = self;
    }
}

impl<M: Plain> Model for Bundle<M> {
    ghost use Rattle.pg_inbox_bundles.specs.Bundles.{MessageLists};
    ghost use Rattle.pg_inbox_bundles.specs.Shared.{envelopes_of};
    ghost use Rattle.pg_inbox_bundles.specs.Sound.{IsSound, message_lists_with};

    ghost Value = { MessageLists M };

    ghost view = { λ b. message_lists_with b.changes (envelopes_of b.envelopes) };

    ghost invariant = { λ b. IsSound M.is_value b.changes (envelopes_of b.envelopes) };
}

impl<M: Plain> Bundle<M> {
    /// The bundle of no sends.
    pub fn new() -> Bundle<M>
        ensures { result ≡ [] }
    {
        Bundle {
            envelopes: Envelopes::new(),
            changes: Map::new(),
        }
    }

    /// A copy of the bundle, which shares its memory. Costs O(1).
    pub fn cheap_clone(&self) -> Result<Bundle<M>, Memory>
        ensures value { IfOk result (λ bundle. bundle ≡ self.now) }
        ensures hold { HoldAll M.is_value self.now }
    {
        let envelopes = self.envelopes.cheap_clone()?;
        let changes = self.changes.cheap_clone()?;
        Ok(Bundle { envelopes, changes })
    }

    /// Whether it has no messages, as it lies in memory.
    pub fn is_empty(&self) -> bool
        ensures { IsTrue result → self.now ≡ [] }
    {
        self.changes.len() == 0 && self.envelopes.as_slice().is_empty()
    }

    /// The messages to a target. Costs a search among the changes and one among the envelopes, and as much as there
    /// are.
    pub fn message_list(&self, target: VertexId) -> Option<MessageListRef<'_, M>>
        ensures value { result ≡ value_at target self.now }
        ensures holds { HoldsAt M.is_value (value_at target self.now) }
    {
        match self.changes.get(target) {
            Some(change) => change.message_list(),
            None => sent_to(self.envelopes.as_slice(), target),
        }
    }

    /// The envelopes, where nothing is changed of them.
    pub fn unchanged(&self) -> Option<&[(VertexId, (VertexId, M))]>
        ensures message_lists { IfSome result (λ envelopes. self.now ≡ sent_message_lists envelopes.now) }
        ensures rise { IfSome result (λ envelopes. IsNonDecreasingBy (λ l. l.0) envelopes.now) }
        ensures ids_rise { HasRisingIds self.now }
        ensures hold { HoldAll M.is_value self.now }
    {
        if self.changes.len() > 0 {
            return None;
        }
        Some(self.envelopes.as_slice())
    }
}

/// The envelopes to a target, if there are any.
fn sent_to<M: Plain>(
    envelopes: &[(VertexId, (VertexId, M))],
    target: VertexId,
) -> Option<MessageListRef<'_, M>>
    requires { IsNonDecreasingBy (λ i. i.0) envelopes.now }
    ensures { result ≡ option_map (contents_of None) (any_of (items_to target envelopes.now)) }
{
    let here = items_to(envelopes, target);
    if here.is_empty() {
        return None;
    }
    Some(MessageListRef::of_sent(here))
}
