//! Look-ups in a bundle that come near one another.
ghost use Rattle.std.specs.Prelude.{◌≡◌, length, map, None};
ghost use Rattle.std.specs.List.Sorted.{IsNonDecreasingBy};
ghost use Rattle.std.specs.Option.{option_map};
ghost use Rattle.pg_map.specs.Entries.{HasRisingIds, value_at};
ghost use Rattle.pg_inbox_messages.specs.Contents.{contents_of};
ghost use Rattle.pg_inbox_messages.specs.Grouping.{any_of, items_to};
ghost use Rattle.pg_inbox_bundles.specs.Holding.{HoldAll, HoldsAt};
ghost use Rattle.pg_inbox_bundles.specs.Bundles.{envelopes_at};

use crate::Bundle;
use pg_graph::VertexId;
use pg_inbox_messages::{MessageListChange, MessageListRef, run_len};
use pg_map::Cursor;
use pg_program::Plain;
use pg_sort::count_below;
use std::marker::Model;

/// Looks up targets in a bundle. Where they rise, each costs some steps for how far it is from the one before, that
/// grow twofold; else a search among the changes and one among the envelopes.
///
/// A contract sees the bundle.
#[derive(Drop)]
pub struct BundleCursor<'a, M: Plain> {
    envelopes: &'a [(VertexId, (VertexId, M))],
    // How many of them are to targets below the one that was asked last.
    below: usize,
    changes: Cursor<'a, MessageListChange<M>>,
}

impl<'a, M: Plain> Model for BundleCursor<'a, M> {
    ghost use Rattle.pg_inbox_bundles.specs.Bundles.{MessageLists};
    ghost use Rattle.pg_inbox_bundles.specs.Sound.{IsSound, message_lists_with};

    ghost Value = { MessageLists M };

    ghost view = { λ f. message_lists_with f.changes f.envelopes.now };

    ghost invariant = { λ f. IsSound M.is_value f.changes f.envelopes.now };
}

impl<M: Plain> Bundle<M> {
    /// Look-ups of targets that come near one another.
    pub fn cursor(&self) -> BundleCursor<'_, M>
        ensures value { result ≡ self.now }
        ensures rise { HasRisingIds self.now }
        ensures hold { HoldAll M.is_value self.now }
    {
        BundleCursor {
            envelopes: self.envelopes.as_slice(),
            below: 0,
            changes: self.changes.cursor(),
        }
    }
}

impl<'a, M: Plain> BundleCursor<'a, M> {
    /// The messages to a target.
    pub fn message_list(&mut self, target: VertexId) -> Option<MessageListRef<'a, M>>
        ensures value { result ≡ value_at target self.old }
        ensures holds { HoldsAt M.is_value (value_at target self.old) }
        ensures same { self.new ≡ self.old }
    {
        match self.changes.get(target) {
            Some(change) => change.message_list(),
            None => sent_near(self.envelopes, &mut self.below, target),
        }
    }

    /// How many messages there are to a target.
    pub fn messages_to(&mut self, target: VertexId) -> usize
        ensures value { result ≡ length (envelopes_at target self.old) }
        ensures same { self.new ≡ self.old }
    {
        match self.message_list(target) {
            Some(message_list) => message_list.len(),
            None => 0,
        }
    }
}

/// The envelopes to a target, if there are any. `below` is a guess at how many are to targets below it, and says then
/// how many are.
fn sent_near<'a, M: Plain>(
    envelopes: &'a [(VertexId, (VertexId, M))],
    below: &mut usize,
    target: VertexId,
) -> Option<MessageListRef<'a, M>>
    requires { IsNonDecreasingBy (λ l. l.0) envelopes.now }
    ensures { result ≡ option_map (contents_of None) (any_of (items_to target envelopes.now)) }
{
    let here = envelopes_near(envelopes, below, target);
    if here.is_empty() {
        return None;
    }
    Some(MessageListRef::of_sent(here))
}

/// The envelopes to a target.
fn envelopes_near<'a, X>(
    envelopes: &'a [(VertexId, X)],
    below: &mut usize,
    target: VertexId,
) -> &'a [(VertexId, X)]
    requires { IsNonDecreasingBy (λ l. l.0) envelopes.now }
    ensures { map (λ l. l.1) result.now ≡ items_to target envelopes.now }
{
    let before = count_below(envelopes, *below, target);
    *below = before;
    let (_, from) = envelopes.split_at(before);
    let (here, _) = from.split_at(run_len(from, target));
    here
}
