//! Inboxes: what a vertex receives of the bundles to its partition.
ghost use Rattle.std.specs.Prelude.{◌≡◌, ◌==◌, ◌++◌, ◌∷◌, ◌||◌, ◌&&◌, ℕ, [], map, false, true, is_some};
ghost use Rattle.std.specs.Prelude.{IsSome, IfSome, IfOk, OnOk};
ghost use Rattle.std.specs.List.{AllByRecursion, flat_map, fold};
ghost use Rattle.std.specs.Option.{option_to_list};
ghost use Rattle.pg_map.specs.Entries.{value_at};
ghost use Rattle.pg_model.specs.Superstep.{combined, has_id};
ghost use Rattle.pg_inbox_messages.specs.Contents.{Holds, messages};
ghost use Rattle.pg_inbox_bundles.specs.Holding.{HoldAll, HoldsAt};
ghost use Rattle.pg_inbox.specs.Inboxes.{Delivers, contents_to, folded_of, is_receiver, received_of};
ghost use Rattle.pg_inbox_bundles.specs.Ordered.{in_order};

use pg_global::MessageCombiner;
use pg_graph::{Memory, VertexId};
use pg_inbox_bundles::{Bundle, BundleCursor};
use pg_inbox_messages::MessageListRef;
use pg_program::Plain;
use std::alloc::Global;

/// What a vertex receives: the messages to it in all bundles, by sender and then in the order sent, or the one
/// message that they come to where the combiner combines. No bundle, or none with a message to it, gives nothing.
///
/// Costs a few binary searches a bundle, and O(m log n) for m messages in n bundles: those of a bundle rise by sender
/// already, and the stable sort merges such runs. Where the combiner combines it reads one message of a bundle.
pub fn inbox<M: Plain, C: MessageCombiner<M>>(
    alloc: Global,
    bundles: &[&Bundle<M>],
    id: VertexId,
    combiner: &C,
) -> Result<Vec<M>, Memory>
    ensures delivers { IfOk result
        (λ inbox. Delivers (C.combining combiner.now) id (map (λ b. b.now) bundles.now) inbox.items) }
    ensures values { IfOk result (λ inbox. AllByRecursion M.is_value inbox.items) }
{
    if let [bundle] = bundles {
        return inbox_of(alloc, bundle, id, combiner);
    }
    let message_lists = message_lists_at(alloc, bundles, id)?;
    received(alloc, message_lists.as_slice(), combiner)
}

/// What a vertex receives of the only bundle.
fn inbox_of<M: Plain, C: MessageCombiner<M>>(
    alloc: Global,
    bundle: &Bundle<M>,
    id: VertexId,
    combiner: &C,
) -> Result<Vec<M>, Memory>
    ensures delivers { IfOk result (λ inbox. Delivers (C.combining combiner.now) id (bundle.now ∷ []) inbox.items) }
    ensures values { IfOk result (λ inbox. AllByRecursion M.is_value inbox.items) }
{
    match bundle.message_list(id) {
        Some(message_list) => received(alloc, &[(id, message_list)], combiner),
        None => Ok(Vec::new(alloc)),
    }
}

/// Adds those of these vertices to which one of the bundles has a message, more than once where several have. Costs a
/// look-up in each bundle for each, near the one before.
pub fn add_receivers<M: Plain>(
    receivers: &mut Vec<VertexId>,
    ids: &[VertexId],
    bundles: &[Bundle<M>],
) -> Result<(), Memory>
    ensures added { OnOk result ((id : ℕ) → has_id receivers.new.items id
        ≡ (has_id receivers.old.items id || (has_id ids.now id && is_receiver bundles.now id))) }
    ensures hold { OnOk result (AllByRecursion (HoldAll M.is_value) bundles.now) }
{
    for bundle in bundles {
        add_receivers_of(receivers, ids, bundle)?;
    }
    Ok(())
}

/// Adds those of these vertices to which a bundle has a message.
fn add_receivers_of<M: Plain>(
    receivers: &mut Vec<VertexId>,
    ids: &[VertexId],
    bundle: &Bundle<M>,
) -> Result<(), Memory>
    ensures added { OnOk result ((id : ℕ) → has_id receivers.new.items id
        ≡ (has_id receivers.old.items id || (has_id ids.now id && is_some (value_at id bundle.now)))) }
    ensures hold { HoldAll M.is_value bundle.now }
{
    let mut cursor = bundle.cursor();
    for id in ids {
        add_if_receiving(receivers, &mut cursor, *id)?;
    }
    Ok(())
}

/// Adds a vertex to which a bundle has a message.
fn add_if_receiving<M: Plain>(
    receivers: &mut Vec<VertexId>,
    bundle: &mut BundleCursor<'_, M>,
    id: VertexId,
) -> Result<(), Memory>
    ensures added { OnOk result ((q : ℕ) → has_id receivers.new.items q
        ≡ (has_id receivers.old.items q || ((id == q) && is_some (value_at q bundle.old)))) }
    ensures same { bundle.new ≡ bundle.old }
{
    if bundle.message_list(id).is_some() {
        receivers.push(id)?;
    }
    Ok(())
}

/// What the bundles have for a vertex, bundle by bundle.
fn message_lists_at<'a, M: Plain>(
    alloc: Global,
    bundles: &[&'a Bundle<M>],
    id: VertexId,
) -> Result<Vec<(VertexId, MessageListRef<'a, M>)>, Memory>
    ensures items { IfOk result
        (λ message_lists. map (λ p. p.1) message_lists.items ≡ contents_to id (map (λ b. b.now) bundles.now)) }
    ensures hold { IfOk result (λ _. AllByRecursion (λ b. HoldsAt M.is_value (value_at id b.now)) bundles.now) }
{
    let mut message_lists = Vec::new(alloc);
    for bundle in bundles {
        add_message_list(&mut message_lists, bundle, id)?;
    }
    Ok(message_lists)
}

/// Adds what a bundle has for a vertex.
fn add_message_list<'a, M: Plain>(
    message_lists: &mut Vec<(VertexId, MessageListRef<'a, M>)>,
    bundle: &'a Bundle<M>,
    id: VertexId,
) -> Result<(), Memory>
    ensures items { OnOk result
        (map (λ p. p.1) message_lists.new.items
        ≡ map (λ p. p.1) message_lists.old.items ++ option_to_list (value_at id bundle.now)) }
    ensures holds { HoldsAt M.is_value (value_at id bundle.now) }
{
    if let Some(message_list) = bundle.message_list(id) {
        message_lists.push((id, message_list))?;
    }
    Ok(())
}

/// What a vertex receives of these.
pub(crate) fn received<M: Plain, C: MessageCombiner<M>>(
    alloc: Global,
    message_lists: &[(VertexId, MessageListRef<'_, M>)],
    combiner: &C,
) -> Result<Vec<M>, Memory>
    ensures inbox { IfOk result (λ inbox. inbox.items ≡ received_of (C.combining combiner.now)
        (map (λ p. p.1) message_lists.now)) }
    ensures values { AllByRecursion (Holds M.is_value) (map (λ p. p.1) message_lists.now)
        → IfOk result (λ inbox. AllByRecursion M.is_value inbox.items) }
{
    if combiner.combines() {
        return combined(alloc, message_lists, combiner);
    }
    match message_lists {
        [] => Ok(Vec::new(alloc)),
        [(_, message_list)] => messages_by_sender(alloc, message_list),
        _ => {
            let envelopes = envelopes_in(alloc, message_lists)?;
            sorted_messages(alloc, envelopes)
        }
    }
}

/// The messages to one target of one bundle, by sender and then in the order sent.
fn messages_by_sender<M: Plain>(
    alloc: Global,
    message_list: &MessageListRef<'_, M>,
) -> Result<Vec<M>, Memory>
    ensures { IfOk result (λ inbox. inbox.items ≡ messages (in_order message_list.now.envelopes)) }
{
    let mut messages = Vec::with_capacity(alloc, message_list.len())?;
    add_by_sender(alloc, &mut messages, message_list)?;
    Ok(messages)
}

/// Adds the messages to one target of one bundle, by sender and then in the order sent.
#[inline(always)]
pub(crate) fn add_by_sender<M: Plain>(
    alloc: Global,
    into: &mut Vec<M>,
    message_list: &MessageListRef<'_, M>,
) -> Result<(), Memory>
    ensures { OnOk result (into.new.items ≡ into.old.items ++ messages (in_order message_list.now.envelopes)) }
{
    if are_in_order(message_list) {
        return add_messages(alloc, into, message_list);
    }
    let mut envelopes = Vec::with_capacity(alloc, message_list.len())?;
    copy_envelopes(alloc, &mut envelopes, message_list)?;
    let mut messages = sorted_messages(alloc, envelopes)?;
    into.append(&mut messages)?;
    Ok(())
}

/// Messages by sender, those of one sender in their order.
fn sorted_messages<M: Plain>(alloc: Global, envelopes: Vec<(VertexId, M)>) -> Result<Vec<M>, Memory>
    ensures { IfOk result (λ inbox. inbox.items ≡ messages (in_order envelopes.items)) }
{
    let mut envelopes = envelopes;
    envelopes.sort_by_key(|envelope| envelope.0)?;
    messages_of(alloc, envelopes)
}

/// One message for what those of each bundle come to, if there are any.
fn combined<M: Plain, C: MessageCombiner<M>>(
    alloc: Global,
    message_lists: &[(VertexId, MessageListRef<'_, M>)],
    combiner: &C,
) -> Result<Vec<M>, Memory>
    requires { IsSome (C.combining combiner.now) }
    ensures inbox { IfOk result
        (λ inbox. inbox.items ≡ combined (C.combining combiner.now) (folded_of message_lists.now)) }
    ensures values { IfOk result (λ inbox. AllByRecursion M.is_value inbox.items) }
{
    let mut so_far = combiner.initial_message(alloc)?;
    let mut is_any = false;
    for (_, message_list) in message_lists {
        is_any = combine_folded(alloc, &mut so_far, is_any, message_list, combiner)?;
    }
    if !is_any {
        return Ok(Vec::new(alloc));
    }
    inbox_of_one(alloc, so_far)
}

/// An inbox of one message, which is a value of its type.
fn inbox_of_one<M: Plain>(alloc: Global, message: M) -> Result<Vec<M>, Memory>
    ensures inbox { IfOk result (λ inbox. inbox.items ≡ message ∷ []) }
    ensures value { IfOk result (λ inbox. AllByRecursion M.is_value inbox.items) }
{
    message.fits();
    let mut inbox = Vec::with_capacity(alloc, 1)?;
    inbox.push(message)?;
    Ok(inbox)
}

/// Combines what the messages of a bundle come to with what there is so far. Whether there is any message then.
fn combine_folded<M: Plain, C: MessageCombiner<M>>(
    alloc: Global,
    so_far: &mut M,
    is_any: bool,
    message_list: &MessageListRef<'_, M>,
    combiner: &C,
) -> Result<bool, Memory>
    requires { IsSome (C.combining combiner.now) }
    ensures any { IfOk result (λ after. after ≡ (is_any || is_some message_list.now.folded)) }
    ensures more { OnOk result (IfSome (C.combining combiner.now)
        (λ c. so_far.new ≡ fold c.combine so_far.old (option_to_list message_list.now.folded))) }
{
    match message_list.folded() {
        Some(message) => {
            combiner.combine(alloc, so_far, message)?;
            Ok(true)
        }
        None => Ok(is_any),
    }
}

/// Whether messages stand by rising sender.
#[inline(always)]
fn are_in_order<M: Plain>(message_list: &MessageListRef<'_, M>) -> bool
    ensures { result ≡ true → in_order message_list.now.envelopes ≡ message_list.now.envelopes }
{
    for place in 1..message_list.len() {
        if message_list.envelope(place).0 < message_list.envelope(place - 1).0 {
            return false;
        }
    }
    true
}

/// Adds copies of messages without their senders.
#[inline(always)]
fn add_messages<M: Plain>(
    alloc: Global,
    into: &mut Vec<M>,
    message_list: &MessageListRef<'_, M>,
) -> Result<(), Memory>
    ensures { OnOk result (into.new.items ≡ into.old.items ++ messages message_list.now.envelopes) }
{
    for place in 0..message_list.len() {
        into.push(message_list.envelope(place).1.copy(alloc)?)?;
    }
    Ok(())
}

/// The messages of all bundles with their senders, bundle by bundle.
fn envelopes_in<M: Plain>(
    alloc: Global,
    message_lists: &[(VertexId, MessageListRef<'_, M>)],
) -> Result<Vec<(VertexId, M)>, Memory>
    ensures { IfOk result (λ envelopes. envelopes.items ≡ flat_map (λ c. c.envelopes)
        (map (λ p. p.1) message_lists.now)) }
{
    let mut envelopes = Vec::new(alloc);
    for (_, message_list) in message_lists {
        copy_envelopes(alloc, &mut envelopes, message_list)?;
    }
    Ok(envelopes)
}

/// Adds copies of messages with their senders.
#[inline(always)]
fn copy_envelopes<M: Plain>(
    alloc: Global,
    envelopes: &mut Vec<(VertexId, M)>,
    more: &MessageListRef<'_, M>,
) -> Result<(), Memory>
    ensures { OnOk result (envelopes.new.items ≡ envelopes.old.items ++ more.now.envelopes) }
{
    for place in 0..more.len() {
        let envelope = more.envelope(place);
        envelopes.push((envelope.0, envelope.1.copy(alloc)?))?;
    }
    Ok(())
}

/// Messages without their senders.
fn messages_of<M: Plain>(alloc: Global, envelopes: Vec<(VertexId, M)>) -> Result<Vec<M>, Memory>
    ensures { IfOk result (λ inbox. inbox.items ≡ messages envelopes.items) }
{
    let mut inbox = Vec::with_capacity(alloc, envelopes.len())?;
    for (_, message) in envelopes {
        inbox.push(message)?;
    }
    Ok(inbox)
}
