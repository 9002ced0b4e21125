//! The message lists of a bundle: those of its envelopes, with what is changed of them.
ghost use Rattle.std.specs.Prelude.{◌≡◌, ◌++◌, ◌∷◌, [], ℕ, List, Option, IfOk, OnOk};
ghost use Rattle.std.specs.List.Sorted.{IsNonDecreasingBy};
ghost use Rattle.pg_map.specs.Entries.{ChangesRise, HasRisingIds, with_change};
ghost use Rattle.pg_inbox_messages.specs.declared.message_list.Contents.{Contents};
ghost use Rattle.pg_inbox_bundles.specs.Holding.{HoldAll};
ghost use Rattle.pg_inbox_bundles.specs.Sound.{message_lists_with, sent_message_lists};

use crate::Bundle;
use pg_graph::{Memory, VertexId};
use pg_inbox_messages::{MessageListChange, MessageListRef, first_group};
use pg_map::{is_at_most, is_below};
use pg_program::Plain;
use std::alloc::Global;

impl<M: Plain> Bundle<M> {
    /// Each target with its messages, by rising id. Costs a look at each envelope, and for each change two binary
    /// searches among the envelopes.
    pub fn message_lists(
        &self,
        alloc: Global,
    ) -> Result<Vec<(VertexId, MessageListRef<'_, M>)>, Memory>
        ensures message_lists { IfOk result (λ message_lists. message_lists.items ≡ self.now) }
        ensures rise { HasRisingIds self.now }
        ensures hold { HoldAll M.is_value self.now }
    {
        let mut message_lists = Vec::with_capacity(alloc, self.changes.len())?;
        let mut remaining = self.envelopes.as_slice();
        for (id, change) in self.changes.iter() {
            remaining = add_up_to(&mut message_lists, remaining, *id, change)?;
        }
        add_sent(&mut message_lists, remaining)?;
        Ok(message_lists)
    }
}

/// Adds the message list of each target of envelopes below an id, and then that of a change at the id. Gives the
/// envelopes to targets above it.
fn add_up_to<'a, M: Plain>(
    message_lists: &mut Vec<(VertexId, MessageListRef<'a, M>)>,
    envelopes: &'a [(VertexId, (VertexId, M))],
    id: VertexId,
    change: &'a MessageListChange<M>,
) -> Result<&'a [(VertexId, (VertexId, M))], Memory>
    requires rise { IsNonDecreasingBy (λ l. l.0) envelopes.now }
    ensures rise { IfOk result (λ later. IsNonDecreasingBy (λ l. l.0) later.now) }
    ensures message_lists { IfOk result
        (λ later. (todo : List (ℕ × Option (Contents M))) → ChangesRise ((id, change.now) ∷ todo)
        → message_lists.new.items ++ message_lists_with todo later.now
        ≡ message_lists.old.items ++ message_lists_with ((id, change.now) ∷ todo) envelopes.now) }
{
    let before = envelopes.partition_point(|envelope| is_below(envelope.0, id));
    let (here, from) = envelopes.split_at(before);
    let until = from.partition_point(|envelope| is_at_most(envelope.0, id));
    let (_, later) = from.split_at(until);
    add_sent(message_lists, here)?;
    add_changed(message_lists, id, change)?;
    Ok(later)
}

/// Adds the message list of each target of envelopes by target.
fn add_sent<'a, M: Plain>(
    message_lists: &mut Vec<(VertexId, MessageListRef<'a, M>)>,
    envelopes: &'a [(VertexId, (VertexId, M))],
) -> Result<(), Memory>
    ensures { OnOk result (message_lists.new.items ≡ message_lists.old.items ++ sent_message_lists envelopes.now) }
{
    let mut remaining = envelopes;
    while let Some((target, here, later)) = first_group(remaining) {
        message_lists.push((target, MessageListRef::of_sent(here)))?;
        remaining = later;
    }
    Ok(())
}

/// Adds the message list that a change gives an id, if it gives it one.
fn add_changed<'a, M: Plain>(
    message_lists: &mut Vec<(VertexId, MessageListRef<'a, M>)>,
    id: VertexId,
    change: &'a MessageListChange<M>,
) -> Result<(), Memory>
    ensures { OnOk result (message_lists.new.items ≡ message_lists.old.items ++ with_change id change.now []) }
{
    if let Some(message_list) = change.message_list() {
        message_lists.push((id, message_list))?;
    }
    Ok(())
}
