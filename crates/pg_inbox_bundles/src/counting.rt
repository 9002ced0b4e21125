//! How many messages a bundle has.
ghost use Rattle.std.specs.Prelude.{◌≡◌, ◌+◌, cond, length, not, is_some, true, IfOk, IsSome, IsTrue};
ghost use Rattle.std.specs.List.{AllByRecursion};
ghost use Rattle.std.specs.List.Sorted.{IsNonDecreasingBy};
ghost use Rattle.pg_graph.specs.Rows.{row_at};
ghost use Rattle.pg_inbox_bundles.specs.Counting.{messages_where};
ghost use Rattle.pg_inbox_bundles.specs.Sound.{sent_message_lists};

use crate::Bundle;
use pg_graph::{Cursor, Graph, Memory, Row, VertexId};
use pg_inbox_messages::{MessageListRef, first_group};
use pg_program::Plain;
use std::alloc::{AllocError, Global};

impl<M: Plain> Bundle<M> {
    /// How many messages there are. Costs O(1) where the bundle is as it was made of messages that aren't combined;
    /// else a look at each message and a list of the targets.
    pub fn messages(&self, alloc: Global) -> Result<u64, Memory>
        ensures { IfOk result (λ count. count ≡ messages_where (λ _. true) self.now) }
    {
        match self.unchanged() {
            Some(envelopes) => Ok(envelopes.len() as u64),
            None => self.messages_counted(alloc),
        }
    }

    /// How many messages there are, counted in a list of the targets.
    fn messages_counted(&self, alloc: Global) -> Result<u64, Memory>
        ensures { IfOk result (λ count. count ≡ messages_where (λ _. true) self.now) }
    {
        let message_lists = self.message_lists(alloc)?;
        messages_listed(message_lists.as_slice())
    }

    /// How many messages there are to ids that are no vertices of a graph. Costs a few binary searches where the bundle
    /// is as it was made of messages that aren't combined, the graph leaves out no id from its first to its last, and
    /// there are none. Else a look at each message, and one look-up in the graph for each target, each near the one
    /// before; and a list of the targets where the bundle isn't as it was made of messages that aren't combined.
    pub fn undeliverable(&self, alloc: Global, graph: &Graph) -> Result<u64, Memory>
        ensures { IfOk result
            (λ count. count ≡ messages_where (λ id. not (is_some (row_at id graph.now))) self.now) }
    {
        match self.unchanged() {
            Some(envelopes) => undeliverable_sent(envelopes, graph),
            None => self.undeliverable_counted(alloc, graph),
        }
    }

    /// How many messages there are to ids that are no vertices, counted in a list of the targets.
    fn undeliverable_counted(&self, alloc: Global, graph: &Graph) -> Result<u64, Memory>
        ensures { IfOk result
            (λ count. count ≡ messages_where (λ id. not (is_some (row_at id graph.now))) self.now) }
    {
        let message_lists = self.message_lists(alloc)?;
        undeliverable_listed(message_lists.as_slice(), graph)
    }
}

/// How many envelopes, by target, there are to ids that are no vertices of a graph.
fn undeliverable_sent<M: Plain>(
    envelopes: &[(VertexId, (VertexId, M))],
    graph: &Graph,
) -> Result<u64, Memory>
    requires { IsNonDecreasingBy (λ l. l.0) envelopes.now }
    ensures { IfOk result
        (λ count. count ≡ messages_where (λ id. not (is_some (row_at id graph.now)))
        (sent_message_lists envelopes.now)) }
{
    if are_to_vertices(envelopes, graph) {
        return Ok(0);
    }
    let mut rows = graph.cursor();
    let mut count = 0u64;
    let mut remaining = envelopes;
    while let Some((target, here, later)) = first_group(remaining) {
        count = with_undeliverable(count, &mut rows, target, here.len())?;
        remaining = later;
    }
    Ok(count)
}

/// Whether all envelopes, by rising target, are to vertices of a graph. It may say no where they are.
fn are_to_vertices<M>(envelopes: &[(VertexId, (VertexId, M))], graph: &Graph) -> bool
    requires { IsNonDecreasingBy (λ l. l.0) envelopes.now }
    ensures { IsTrue result → AllByRecursion (λ l. IsSome (row_at l.0 graph.now)) envelopes.now }
{
    match (envelopes.first(), envelopes.last()) {
        (Some(first), Some(last)) => graph.has_all(first.0, last.0),
        _ => false,
    }
}

/// How many messages there are.
fn messages_listed<M: Plain>(
    message_lists: &[(VertexId, MessageListRef<'_, M>)],
) -> Result<u64, Memory>
    ensures { IfOk result (λ count. count ≡ messages_where (λ _. true) message_lists.now) }
{
    let mut count = 0u64;
    for (_, message_list) in message_lists {
        count = with_messages(count, message_list)?;
    }
    Ok(count)
}

/// How many messages there are to ids that are no vertices of a graph.
fn undeliverable_listed<M: Plain>(
    message_lists: &[(VertexId, MessageListRef<'_, M>)],
    graph: &Graph,
) -> Result<u64, Memory>
    ensures { IfOk result
        (λ count. count ≡ messages_where (λ id. not (is_some (row_at id graph.now))) message_lists.now) }
{
    let mut rows = graph.cursor();
    let mut count = 0u64;
    for (target, message_list) in message_lists {
        count = with_undeliverable(count, &mut rows, *target, message_list.len())?;
    }
    Ok(count)
}

/// A count with so many messages to a target, if that is no vertex. No memory holds more than fit the count.
fn with_undeliverable(
    count: u64,
    rows: &mut Cursor<'_, Row>,
    target: VertexId,
    messages: usize,
) -> Result<u64, Memory>
    ensures count { IfOk result (λ after. after ≡ count + cond (not (is_some (row_at target rows.old))) messages 0) }
    ensures same { rows.new ≡ rows.old }
{
    if rows.get(target).is_some() {
        return Ok(count);
    }
    count.checked_add(messages as u64).ok_or(AllocError)
}

/// A count with the messages to one target. No memory holds more than fit the count.
fn with_messages<M: Plain>(count: u64, message_list: &MessageListRef<'_, M>) -> Result<u64, Memory>
    ensures { IfOk result (λ after. after ≡ count + length message_list.now.envelopes) }
{
    count
        .checked_add(message_list.len() as u64)
        .ok_or(AllocError)
}
