//! The inboxes of a whole superstep.
ghost use Rattle.std.specs.Prelude.{◌≡◌, ◌++◌, ◌<◌, ◌≤◌, drop, length, map, IfOk, OnOk};
ghost use Rattle.std.specs.List.{AllByRecursion, flat_map};
ghost use Rattle.pg_map.specs.Entries.{HasRisingIds};
ghost use Rattle.pg_inbox_messages.specs.Grouping.{groups_of};
ghost use Rattle.pg_inbox_bundles.specs.Holding.{HoldAll};
ghost use Rattle.pg_inbox.specs.Inboxes.{AreInboxes, each_inbox, inboxes_of};
ghost use Rattle.pg_inbox_bundles.specs.Sound.{sent_message_lists};

use crate::Inboxes;
use crate::lists::{all_unchanged, inboxes_merged};
use crate::receiving::received;
use pg_global::MessageCombiner;
use pg_graph::{Memory, VertexId};
use pg_inbox_bundles::Bundle;
use pg_inbox_messages::{MessageListRef, by_target, first_group, run_len};
use pg_program::Plain;
use std::alloc::Global;

/// What each vertex receives to which a bundle has a message, by rising id.
///
/// Where messages aren't combined and lie as they were sent, it costs a copy of each and a sort of each inbox by
/// sender, and for each of t targets a look at each of n bundles. Else it costs O(t log n), and what each inbox costs
/// without the searches. One bundle is gone through where it is.
pub fn inboxes<M: Plain, C: MessageCombiner<M>>(
    alloc: Global,
    bundles: &[&Bundle<M>],
    combiner: &C,
) -> Result<Inboxes<M>, Memory>
    ensures { IfOk result (λ inboxes. AreInboxes (C.combining combiner.now) (map (λ b. b.now) bundles.now) inboxes) }
{
    if !combiner.combines() {
        if let [bundle] = bundles {
            let inboxes = inboxes_in(alloc, bundle)?;
            return Ok(inboxes);
        }
        if let Some(lists) = all_unchanged(alloc, bundles)? {
            return inboxes_merged(alloc, lists);
        }
    }
    let message_lists = all_message_lists(alloc, bundles)?;
    let message_lists = by_target(message_lists)?;
    inboxes_of(alloc, message_lists.as_slice(), combiner)
}

/// The inbox of each target of one bundle, where messages aren't combined.
fn inboxes_in<M: Plain>(alloc: Global, bundle: &Bundle<M>) -> Result<Inboxes<M>, Memory>
    ensures inboxes { IfOk result (λ inboxes. inboxes ≡ each_inbox bundle.now) }
    ensures rise { IfOk result (λ _. HasRisingIds bundle.now) }
    ensures hold { IfOk result (λ _. HoldAll M.is_value bundle.now) }
{
    match bundle.unchanged() {
        Some(envelopes) => inboxes_sent(alloc, envelopes),
        None => inboxes_changed(alloc, bundle),
    }
}

/// The inbox of each target of envelopes by target. Takes memory for all at once.
fn inboxes_sent<M: Plain>(
    alloc: Global,
    envelopes: &[(VertexId, (VertexId, M))],
) -> Result<Inboxes<M>, Memory>
    ensures { IfOk result (λ inboxes. inboxes ≡ each_inbox (sent_message_lists envelopes.now)) }
{
    let mut inboxes = Inboxes::with_room(alloc, envelopes.len(), envelopes.len())?;
    let mut remaining = envelopes;
    while let Some((target, here, later)) = first_group(remaining) {
        let message_list = MessageListRef::of_sent(here);
        inboxes = inboxes.with_message_list(alloc, target, &message_list)?;
        remaining = later;
    }
    Ok(inboxes)
}

/// The inbox of each target of one bundle of which something is changed.
fn inboxes_changed<M: Plain>(alloc: Global, bundle: &Bundle<M>) -> Result<Inboxes<M>, Memory>
    ensures { IfOk result (λ inboxes. inboxes ≡ each_inbox bundle.now) }
{
    let message_lists = bundle.message_lists(alloc)?;
    inboxes_listed(alloc, message_lists.as_slice())
}

/// The inbox of each target of message lists.
fn inboxes_listed<M: Plain>(
    alloc: Global,
    message_lists: &[(VertexId, MessageListRef<'_, M>)],
) -> Result<Inboxes<M>, Memory>
    ensures { IfOk result (λ inboxes. inboxes ≡ each_inbox message_lists.now) }
{
    let mut inboxes = Inboxes::new(alloc, message_lists.len())?;
    for (target, message_list) in message_lists {
        inboxes = inboxes.with_message_list(alloc, *target, message_list)?;
    }
    Ok(inboxes)
}

/// What all bundles have for each of their targets, bundle by bundle.
fn all_message_lists<'a, M: Plain>(
    alloc: Global,
    bundles: &[&'a Bundle<M>],
) -> Result<Vec<(VertexId, MessageListRef<'a, M>)>, Memory>
    ensures items { IfOk result (λ all. all.items ≡ flat_map (λ b. b.now) bundles.now) }
    ensures rise { IfOk result (λ _. AllByRecursion (λ b. HasRisingIds b.now) bundles.now) }
    ensures hold { IfOk result (λ _. AllByRecursion (λ b. HoldAll M.is_value b.now) bundles.now) }
{
    let mut all = Vec::new(alloc);
    for bundle in bundles {
        add_message_lists(alloc, &mut all, bundle)?;
    }
    Ok(all)
}

/// Adds what a bundle has for each of its targets.
fn add_message_lists<'a, M: Plain>(
    alloc: Global,
    all: &mut Vec<(VertexId, MessageListRef<'a, M>)>,
    bundle: &'a Bundle<M>,
) -> Result<(), Memory>
    ensures items { OnOk result (all.new.items ≡ all.old.items ++ bundle.now) }
    ensures rise { HasRisingIds bundle.now }
    ensures hold { HoldAll M.is_value bundle.now }
{
    let mut message_lists = bundle.message_lists(alloc)?;
    all.append(&mut message_lists)?;
    Ok(())
}

/// The inbox of each target, of message lists by rising target.
fn inboxes_of<M: Plain, C: MessageCombiner<M>>(
    alloc: Global,
    message_lists: &[(VertexId, MessageListRef<'_, M>)],
    combiner: &C,
) -> Result<Inboxes<M>, Memory>
    ensures { IfOk result (λ inboxes. inboxes ≡ inboxes_of (C.combining combiner.now) (groups_of message_lists.now)) }
{
    let mut inboxes = Inboxes::new(alloc, message_lists.len())?;
    let mut done = 0;
    while done < message_lists.len() {
        let (_, remaining) = message_lists.split_at(done);
        let (more, count) = with_first(alloc, inboxes, remaining, combiner)?;
        inboxes = more;
        done += count;
    }
    Ok(inboxes)
}

/// Inboxes with that of the first target of message lists by target, and how many message lists go to it.
fn with_first<M: Plain, C: MessageCombiner<M>>(
    alloc: Global,
    inboxes: Inboxes<M>,
    message_lists: &[(VertexId, MessageListRef<'_, M>)],
    combiner: &C,
) -> Result<(Inboxes<M>, usize), Memory>
    requires some { 0 < length message_lists.now }
    ensures count { IfOk result (λ r. (0 < r.1) × (r.1 ≤ length message_lists.now)) }
    ensures more { IfOk result
        (λ r. r.0 ++ inboxes_of (C.combining combiner.now) (groups_of (drop r.1 message_lists.now))
        ≡ inboxes ++ inboxes_of (C.combining combiner.now) (groups_of message_lists.now)) }
{
    let target = message_lists[0].0;
    let count = run_len(message_lists, target);
    let (here, _) = message_lists.split_at(count);
    let inbox = received(alloc, here, combiner)?;
    let more = inboxes.with(target, inbox)?;
    Ok((more, count))
}
