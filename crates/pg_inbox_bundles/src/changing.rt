//! The targets at which two bundles differ.
ghost use Rattle.std.specs.Prelude.{◌≡◌, ◌≤◌, ℕ, drop, slice_get, ◌↔◌, IsTrue, IfOk, OnOk};
ghost use Rattle.std.specs.List.{AllByRecursion};
ghost use Rattle.std.specs.Option.{option_copied, option_map};
ghost use Rattle.pg_map.specs.Entries.{HasRisingIds, value_at};
ghost use Rattle.pg_inbox_messages.specs.Contents.{Holds};
ghost use Rattle.pg_inbox_bundles.specs.Bundles.{entries_in, entries_of, message_lists_in};
ghost use Rattle.pg_inbox_bundles.specs.Changed.{AreChanged, IsAdded, lower};
ghost use Rattle.pg_inbox_bundles.specs.Holding.{HoldAll, HoldsAt};

use crate::Bundle;
use pg_graph::{Memory, VertexId};
use pg_inbox_messages::MessageListRef;
use pg_program::Plain;
use std::alloc::Global;

/// The targets at which two bundles differ as others see them, rising, each once. No bundle has no entry.
///
/// Costs a look at each message of both, whose targets are gone through once, side by side, and for each change of a
/// bundle two binary searches among its envelopes.
pub fn changed_targets<M: Plain>(
    alloc: Global,
    old: Option<&Bundle<M>>,
    new: Option<&Bundle<M>>,
) -> Result<Vec<VertexId>, Memory>
    ensures { IfOk result (λ ids. AreChanged (message_lists_in (option_copied old.entry))
        (message_lists_in (option_copied new.entry)) ids.items) }
{
    let none = Bundle::new();
    match old {
        Some(old) => match new {
            Some(new) => differing(alloc, old, new),
            None => differing(alloc, old, &none),
        },
        None => match new {
            Some(new) => differing(alloc, &none, new),
            None => differing(alloc, &none, &none),
        },
    }
}

/// The targets to which two bundles don't deliver the same messages.
fn differing<M: Plain>(
    alloc: Global,
    old: &Bundle<M>,
    new: &Bundle<M>,
) -> Result<Vec<VertexId>, Memory>
    ensures { IfOk result (λ ids. AreChanged old.now new.now ids.items) }
{
    let before = old.message_lists(alloc)?;
    let after = new.message_lists(alloc)?;
    differing_message_lists(alloc, before.as_slice(), after.as_slice())
}

/// The targets at which two lists of message lists by rising target differ. Goes through both once, side by side.
fn differing_message_lists<M: Plain>(
    alloc: Global,
    old: &[(VertexId, MessageListRef<'_, M>)],
    new: &[(VertexId, MessageListRef<'_, M>)],
) -> Result<Vec<VertexId>, Memory>
    requires old_rise { HasRisingIds old.now }
    requires old_hold { HoldAll M.is_value old.now }
    requires new_rise { HasRisingIds new.now }
    requires new_hold { HoldAll M.is_value new.now }
    ensures { IfOk result (λ ids. AreChanged old.now new.now ids.items) }
{
    let mut changed = Vec::new(alloc);
    let (mut old_place, mut new_place) = (0, 0);
    while let Some(target) = lower(target_at(old, old_place), target_at(new, new_place)) {
        let before = message_list_at(old, old_place, target);
        let after = message_list_at(new, new_place, target);
        add_if_changed(&mut changed, target, before, after)?;
        old_place += usize::from(before.is_some());
        new_place += usize::from(after.is_some());
    }
    Ok(changed)
}

/// The lower of two ids, or the one that there is.
fn lower(id: Option<VertexId>, other: Option<VertexId>) -> Option<VertexId>
    ensures { result ≡ lower id other }
{
    match (id, other) {
        (Some(id), Some(other)) => Some(id.min(other)),
        _ => id.or(other),
    }
}

/// The target of the message list at a place, if there is one.
fn target_at<M: Plain>(
    message_lists: &[(VertexId, MessageListRef<'_, M>)],
    place: usize,
) -> Option<VertexId>
    ensures { result ≡ option_map (λ p. p.0) (slice_get message_lists.now place) }
{
    let (target, _) = message_lists.get(place)?;
    Some(*target)
}

/// The messages to a target, of message lists by rising target from a place on. None of those is to a lower target.
fn message_list_at<'a, 'b, M: Plain>(
    message_lists: &'a [(VertexId, MessageListRef<'b, M>)],
    place: usize,
    target: VertexId,
) -> Option<&'a MessageListRef<'b, M>>
    requires rise { HasRisingIds message_lists.now }
    requires from { AllByRecursion (λ p. target ≤ p.0) (drop place message_lists.now) }
    ensures { option_copied result ≡ value_at target (drop place message_lists.now) }
{
    match message_lists.get(place) {
        Some((id, message_list)) if *id == target => Some(message_list),
        _ => None,
    }
}

/// Adds a target at which others see something else.
pub(crate) fn add_if_changed<M: Plain>(
    ids: &mut Vec<VertexId>,
    id: VertexId,
    old: Option<&MessageListRef<'_, M>>,
    new: Option<&MessageListRef<'_, M>>,
) -> Result<(), Memory>
    requires old { HoldsAt M.is_value (option_copied old) }
    requires new { HoldsAt M.is_value (option_copied new) }
    ensures { OnOk result (IsAdded id (option_copied old.entry) (option_copied new.entry) ids.old.items ids.new.items) }
{
    if !is_same(old, new) {
        ids.push(id)?;
    }
    Ok(())
}

/// Whether others see the same of the messages to a target.
fn is_same<M: Plain>(
    old: Option<&MessageListRef<'_, M>>,
    new: Option<&MessageListRef<'_, M>>,
) -> bool
    requires old { HoldsAt M.is_value (option_copied old) }
    requires new { HoldsAt M.is_value (option_copied new) }
    ensures { (target : ℕ) → IsTrue result ↔
        (entries_in target (option_copied old.entry) ≡ entries_in target (option_copied new.entry)) }
{
    match old {
        Some(old) => match new {
            Some(new) => is_same_contents(old, new),
            None => false,
        },
        None => new.is_none(),
    }
}

/// Whether others see the same of two lists of messages to a target.
fn is_same_contents<M: Plain>(old: &MessageListRef<'_, M>, new: &MessageListRef<'_, M>) -> bool
    requires old { Holds M.is_value old.now }
    requires new { Holds M.is_value new.now }
    ensures { (target : ℕ) → IsTrue result ↔ (entries_of target old.now ≡ entries_of target new.now) }
{
    match old.folded() {
        Some(before) => match new.folded() {
            Some(after) => old.len() == new.len() && is_same_message(before, after),
            None => false,
        },
        None => match new.folded() {
            Some(_) => false,
            None => are_same_envelopes(old, new),
        },
    }
}

/// Whether messages are the same, with the same senders in the same order.
fn are_same_envelopes<M: Plain>(old: &MessageListRef<'_, M>, new: &MessageListRef<'_, M>) -> bool
    ensures { IsTrue result ↔ (old.now.envelopes ≡ new.now.envelopes) }
{
    if old.len() != new.len() {
        return false;
    }
    for place in 0..old.len() {
        if !is_same_envelope(old.envelope(place), new.envelope(place)) {
            return false;
        }
    }
    true
}

fn is_same_envelope<M: Plain>(old: &(VertexId, M), new: &(VertexId, M)) -> bool
    ensures { IsTrue result ↔ (old.now ≡ new.now) }
{
    if old.0 != new.0 {
        return false;
    }
    is_same_message(&old.1, &new.1)
}

fn is_same_message<M: Plain>(old: &M, new: &M) -> bool
    ensures { IsTrue result ↔ (old.now ≡ new.now) }
{
    old.fits();
    new.fits();
    old == new
}
