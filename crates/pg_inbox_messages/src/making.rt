//! Message lists made of messages by target.
ghost use Rattle.std.specs.Prelude.{◌≡◌, ◌++◌, false, map, IfOk, IfSome, OnOk};
ghost use Rattle.std.specs.List.{AllByRecursion};
ghost use Rattle.pg_model.specs.Superstep.{is_empty};
ghost use Rattle.pg_inbox_messages.specs.Contents.{Holds, as_changes, contents_of, message_lists_of};
ghost use Rattle.pg_inbox_messages.specs.Grouping.{groups_of};

use crate::change::MessageListChange;
use crate::grouped::first_group;
use crate::message_list::MessageList;
use pg_global::MessageCombiner;
use pg_graph::{Memory, VertexId};
use pg_program::Plain;
use std::alloc::Global;

/// The message list of each target, of envelopes that stand by target, each a message with its sender. Each message
/// list is a change of what the target has.
///
/// Costs a copy of each message, and one look at it where the combiner combines. The list has room for as many message
/// lists as there are envelopes.
pub fn message_lists_of<M: Plain, C: MessageCombiner<M>>(
    alloc: Global,
    envelopes: &[(VertexId, (VertexId, M))],
    combiner: &C,
) -> Result<Vec<(VertexId, MessageListChange<M>)>, Memory>
    ensures contents { IfOk result
        (λ message_lists. message_lists.items ≡ as_changes
        (message_lists_of (C.combining combiner.now) (groups_of envelopes.now))) }
    ensures hold { IfOk result
        (λ message_lists. AllByRecursion (λ p. IfSome p.1 (Holds M.is_value)) message_lists.items) }
{
    let mut message_lists = Vec::with_capacity(alloc, envelopes.len())?;
    let mut remaining = envelopes;
    while let Some((target, here, later)) = first_group(remaining) {
        let message_list = message_list_of(alloc, here, combiner)?;
        message_lists.push((target, MessageListChange::of(Some(message_list))))?;
        remaining = later;
    }
    Ok(message_lists)
}

/// A message list of copies of envelopes.
fn message_list_of<M: Plain, C: MessageCombiner<M>>(
    alloc: Global,
    envelopes: &[(VertexId, (VertexId, M))],
    combiner: &C,
) -> Result<MessageList<M>, Memory>
    requires { is_empty envelopes.now ≡ false }
    ensures value { IfOk result
        (λ message_list. message_list ≡ contents_of (C.combining combiner.now) (map (λ l. l.1) envelopes.now)) }
    ensures holds { IfOk result (λ message_list. Holds M.is_value message_list) }
{
    if let [(_, only)] = envelopes {
        let only = copied_envelope(alloc, only)?;
        return Ok(MessageList::of_one(only, combiner));
    }
    let copied = copied_envelopes(alloc, envelopes)?;
    let message_list = MessageList::of(alloc, copied, combiner)?;
    Ok(message_list)
}

/// A copy of an envelope.
fn copied_envelope<M: Plain>(
    alloc: Global,
    envelope: &(VertexId, M),
) -> Result<(VertexId, M), Memory>
    ensures envelope { IfOk result (λ copied. copied ≡ envelope.now) }
    ensures value { IfOk result (λ copied. M.is_value copied.1) }
{
    let message = envelope.1.copy(alloc)?;
    message.fits();
    Ok((envelope.0, message))
}

/// Copies of envelopes, in a list that is no longer than they are.
fn copied_envelopes<M: Plain>(
    alloc: Global,
    envelopes: &[(VertexId, (VertexId, M))],
) -> Result<Vec<(VertexId, M)>, Memory>
    ensures envelopes { IfOk result (λ copied. copied.items ≡ map (λ l. l.1) envelopes.now) }
    ensures values { IfOk result (λ copied. AllByRecursion (λ l. M.is_value l.1) copied.items) }
{
    let mut copied = Vec::with_capacity(alloc, envelopes.len())?;
    add_copies(alloc, &mut copied, envelopes)?;
    Ok(copied)
}

/// Adds copies of envelopes.
fn add_copies<M: Plain>(
    alloc: Global,
    copied: &mut Vec<(VertexId, M)>,
    envelopes: &[(VertexId, (VertexId, M))],
) -> Result<(), Memory>
    requires { AllByRecursion (λ l. M.is_value l.1) copied.old.items }
    ensures envelopes { OnOk result (copied.new.items ≡ copied.old.items ++ map (λ l. l.1) envelopes.now) }
    ensures values { AllByRecursion (λ l. M.is_value l.1) copied.new.items }
{
    for (_, envelope) in envelopes {
        copied.push(copied_envelope(alloc, envelope)?)?;
    }
    Ok(())
}
