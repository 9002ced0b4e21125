//! Bundles of which some messages are replaced.
ghost use Rattle.std.specs.Prelude.{◌≡◌, ◌+◌, ◌<◌, ℕ, [], ◌∷◌, ◌++◌, length, map, slice_get, Some, IfOk, OnOk};
ghost use Rattle.std.specs.List.{AllByRecursion};
ghost use Rattle.std.specs.List.Sorted.{IsNonDecreasingBy, IsStrictlySortedBy};
ghost use Rattle.std.specs.Option.{option_copied};
ghost use Rattle.std.specs.Ordering.{nat_cmp};
ghost use Rattle.pg_sort.specs.ById.{AreById, StandAt};
ghost use Rattle.pg_map.specs.Entries.{ChangesRise, with_changes};
ghost use Rattle.pg_model.specs.Superstep.{has_id};
ghost use Rattle.pg_inbox_messages.specs.Grouping.{AreGroups, groups_of};
ghost use Rattle.pg_inbox_bundles.specs.Changed.{AreChanged, IsAdded};
ghost use Rattle.pg_inbox_bundles.specs.Holding.{HoldsAt};
ghost use Rattle.pg_inbox_bundles.specs.Bundles.{envelopes_in};
ghost use Rattle.pg_inbox_bundles.specs.MessageEdits.{changes_of, edited, edited_in, inserted, message_edits_of};
ghost use Rattle.pg_inbox_bundles.specs.MessageEdits.{others, senders_of};
ghost use Rattle.pg_inbox_bundles.specs.Patched.{IsPatched, TellsChanges};
ghost use Rattle.pg_inbox_bundles.specs.Sound.{needed};

use crate::changing::add_if_changed;
use crate::making::copied_message;
use crate::{Bundle, LoggedBundle, OutboxRef};
use pg_global::MessageCombiner;
use pg_graph::{Memory, VertexId};
use pg_inbox_messages::{MessageList, MessageListChange, MessageListRef, first_group, items_to};
use pg_model::Sequence;
use pg_program::Plain;
use pg_sort::sorted_by_id;
use std::alloc::Global;

/// What is done to the messages to a target.
#[derive(Drop)]
pub(crate) enum MessageEdit<M> {
    /// What this sender sent to it is retracted.
    Retracted(VertexId),
    /// This sender sends it one more.
    Added(VertexId, M),
}

/// What targets have afterwards, and those of them at which others see something else.
#[derive(Drop)]
struct After<M: Plain> {
    changes: Vec<(VertexId, MessageListChange<M>)>,
    changed: Vec<VertexId>,
}

/// The bundle with what some senders sent to some targets, as (sender, target), retracted, and other messages added:
/// each after what stays of its sender. It comes with the targets at which it differs from the old one, and shares with
/// that all else.
///
/// With k of both it costs a sort of them by target, what is sent to their targets, and a copy of the chunks of the
/// changes of the old bundle that these targets lie in.
pub fn patch<M: Plain, C: MessageCombiner<M>>(
    alloc: Global,
    old: &Bundle<M>,
    retracted: &[(VertexId, VertexId)],
    added: &OutboxRef<'_, M>,
    combiner: &C,
) -> Result<LoggedBundle<M>, Memory>
    ensures bundle { IfOk result
        (λ logged. IsPatched (C.combining combiner.now) retracted.now added.now old.now logged.bundle) }
    ensures changed { IfOk result (λ logged. TellsChanges old.now logged) }
{
    let message_edits = message_edits_by_target(alloc, retracted, added)?;
    let after = changes_at(alloc, old, message_edits.as_slice(), combiner)?;
    let After { changes, changed } = after;
    let bundle = edited_bundle(alloc, old, changes)?;
    Ok(LoggedBundle {
        bundle,
        changed: Some(Sequence::from_vec(changed)),
    })
}

/// What is done, with the target that it is done to, by rising target: to each what is retracted, and then what is
/// added.
fn message_edits_by_target<M: Plain>(
    alloc: Global,
    retracted: &[(VertexId, VertexId)],
    added: &OutboxRef<'_, M>,
) -> Result<Vec<(VertexId, MessageEdit<M>)>, Memory>
    ensures { IfOk result (λ message_edits. AreGroups (message_edits_of retracted.now added.now)
        (groups_of message_edits.items)) }
{
    let targets = targets_of(alloc, retracted, added.with_targets())?;
    let order = sorted_by_id(alloc, targets.as_slice())?;
    message_edits_in_order(alloc, retracted, added, order.as_slice())
}

/// The targets of what is retracted, and then of what is added.
fn targets_of<M>(
    alloc: Global,
    retracted: &[(VertexId, VertexId)],
    added: &[(VertexId, M)],
) -> Result<Vec<VertexId>, Memory>
    ensures { IfOk result (λ targets. targets.items ≡ map (λ w. w.1) retracted.now ++ map (λ m. m.0) added.now) }
{
    let mut targets = Vec::with_capacity(alloc, retracted.len().saturating_add(added.len()))?;
    add_retracted(&mut targets, retracted)?;
    for (target, _) in added {
        targets.push(*target)?;
    }
    Ok(targets)
}

/// Adds the targets of what is retracted.
fn add_retracted(
    targets: &mut Vec<VertexId>,
    retracted: &[(VertexId, VertexId)],
) -> Result<(), Memory>
    ensures { OnOk result (targets.new.items ≡ targets.old.items ++ map (λ w. w.1) retracted.now) }
{
    for (_, target) in retracted {
        targets.push(*target)?;
    }
    Ok(())
}

/// What is done at these places, of what is retracted and then what is added.
fn message_edits_in_order<M: Plain>(
    alloc: Global,
    retracted: &[(VertexId, VertexId)],
    added: &OutboxRef<'_, M>,
    order: &[(usize, VertexId)],
) -> Result<Vec<(VertexId, MessageEdit<M>)>, Memory>
    requires { AreById (map (λ m. m.0) (message_edits_of retracted.now added.now)) order.now }
    ensures { IfOk result (λ message_edits. StandAt (message_edits_of retracted.now added.now) order.now
        message_edits.items) }
{
    let mut message_edits = Vec::with_capacity(alloc, order.len())?;
    for (place, _) in order {
        message_edits.push(message_edit_at(alloc, retracted, added, *place)?)?;
    }
    Ok(message_edits)
}

/// What is done at a place, of what is retracted and then what is added.
fn message_edit_at<M: Plain>(
    alloc: Global,
    retracted: &[(VertexId, VertexId)],
    added: &OutboxRef<'_, M>,
    place: usize,
) -> Result<(VertexId, MessageEdit<M>), Memory>
    requires { place < length retracted.now + length added.now }
    ensures { IfOk result (λ message_edit. slice_get (message_edits_of retracted.now added.now) place ≡ Some
        message_edit) }
{
    if place < retracted.len() {
        let (sender, target) = retracted[place];
        return Ok((target, MessageEdit::Retracted(sender)));
    }
    let (sender, target, message) = added.at(place - retracted.len());
    Ok((target, MessageEdit::Added(sender, message.copy(alloc)?)))
}

/// The old bundle with these changes; in its own memory where there are none.
fn edited_bundle<M: Plain>(
    alloc: Global,
    old: &Bundle<M>,
    changes: Vec<(VertexId, MessageListChange<M>)>,
) -> Result<Bundle<M>, Memory>
    requires rise { ChangesRise changes.items }
    requires hold { AllByRecursion (λ c. HoldsAt M.is_value c.1) changes.items }
    ensures { IfOk result (λ bundle. bundle ≡ with_changes changes.items old.now) }
{
    if changes.is_empty() {
        return old.cheap_clone();
    }
    changed_bundle(alloc, old, changes)
}

/// The old bundle with these changes, in which it isn't shared.
fn changed_bundle<M: Plain>(
    alloc: Global,
    old: &Bundle<M>,
    changes: Vec<(VertexId, MessageListChange<M>)>,
) -> Result<Bundle<M>, Memory>
    requires rise { ChangesRise changes.items }
    requires hold { AllByRecursion (λ c. HoldsAt M.is_value c.1) changes.items }
    ensures { IfOk result (λ bundle. bundle ≡ with_changes changes.items old.now) }
{
    let given = each_given(alloc, old.envelopes.as_slice(), changes)?;
    let envelopes = old.envelopes.cheap_clone()?;
    let mut changes = old.changes.cheap_clone()?;
    changes.change(alloc, given.as_slice())?;
    Ok(Bundle { envelopes, changes })
}

/// What these changes give the map of a bundle with these envelopes.
fn each_given<M: Plain>(
    alloc: Global,
    envelopes: &[(VertexId, (VertexId, M))],
    changes: Vec<(VertexId, MessageListChange<M>)>,
) -> Result<Vec<(VertexId, Option<MessageListChange<M>>)>, Memory>
    requires { IsNonDecreasingBy (λ l. l.0) envelopes.now }
    ensures { IfOk result (λ given. given.items ≡ map (needed envelopes.now) changes.items) }
{
    let mut given = Vec::with_capacity(alloc, changes.len())?;
    for (id, change) in changes {
        given.push((id, needed(envelopes, id, change)))?;
    }
    Ok(given)
}

/// What a change gives the map: nothing where it leaves its target no messages and the envelopes have none to it.
fn needed<M: Plain>(
    envelopes: &[(VertexId, (VertexId, M))],
    id: VertexId,
    change: MessageListChange<M>,
) -> Option<MessageListChange<M>>
    requires { IsNonDecreasingBy (λ l. l.0) envelopes.now }
    ensures { (id, result) ≡ needed envelopes.now (id, change) }
{
    if change.message_list().is_some() || !items_to(envelopes, id).is_empty() {
        return Some(change);
    }
    None
}

/// The new contents of each target, of what is done by rising target. Costs one look-up each.
fn changes_at<M: Plain, C: MessageCombiner<M>>(
    alloc: Global,
    old: &Bundle<M>,
    message_edits: &[(VertexId, MessageEdit<M>)],
    combiner: &C,
) -> Result<After<M>, Memory>
    ensures items { IfOk result
        (λ after. after.changes.items ≡ changes_of (C.combining combiner.now) old.now (groups_of message_edits.now)) }
    ensures hold { IfOk result (λ after. AllByRecursion (λ c. HoldsAt M.is_value c.1) after.changes.items) }
    ensures changed { IfOk result (λ after. ChangesRise after.changes.items
        → AreChanged old.now (with_changes after.changes.items old.now) after.changed.items) }
{
    let mut changes = Vec::with_capacity(alloc, message_edits.len())?;
    let mut changed = Vec::with_capacity(alloc, message_edits.len())?;
    let mut cursor = old.cursor();
    let mut remaining = message_edits;
    while let Some((target, here, later)) = first_group(remaining) {
        let before = cursor.message_list(target);
        let seen = before.as_ref();
        let change = change_to(alloc, seen, here, combiner)?;
        note_if_changed(&mut changed, target, seen, &change)?;
        changes.push((target, change))?;
        remaining = later;
    }
    Ok(After { changes, changed })
}

/// Adds a target at which others see something else.
fn note_if_changed<M: Plain>(
    changed: &mut Vec<VertexId>,
    target: VertexId,
    before: Option<&MessageListRef<'_, M>>,
    change: &MessageListChange<M>,
) -> Result<(), Memory>
    requires before { HoldsAt M.is_value (option_copied before) }
    requires after { HoldsAt M.is_value change.now }
    ensures { OnOk result (IsAdded target (option_copied before.entry) change.now changed.old.items changed.new.items) }
{
    let after = change.message_list();
    add_if_changed(changed, target, before, after.as_ref())
}

/// What becomes of the messages to a target.
fn change_to<M: Plain, C: MessageCombiner<M>>(
    alloc: Global,
    old: Option<&MessageListRef<'_, M>>,
    message_edits: &[(VertexId, MessageEdit<M>)],
    combiner: &C,
) -> Result<MessageListChange<M>, Memory>
    ensures value { IfOk result
        (λ change. change ≡ edited_in (C.combining combiner.now) (option_copied old.entry)
        (map (λ m. m.1) message_edits.now)) }
    ensures holds { IfOk result (λ change. HoldsAt M.is_value change) }
{
    let message_list = message_list_after(alloc, old, message_edits, combiner)?;
    Ok(MessageListChange::of(message_list))
}

/// The messages to a target afterwards; nothing where none remains.
fn message_list_after<M: Plain, C: MessageCombiner<M>>(
    alloc: Global,
    old: Option<&MessageListRef<'_, M>>,
    message_edits: &[(VertexId, MessageEdit<M>)],
    combiner: &C,
) -> Result<Option<MessageList<M>>, Memory>
    ensures value { IfOk result
        (λ message_list. message_list ≡ edited_in (C.combining combiner.now) (option_copied old.entry)
        (map (λ m. m.1) message_edits.now)) }
    ensures holds { IfOk result (λ message_list. HoldsAt M.is_value message_list) }
{
    let envelopes = edited_envelopes(alloc, old, message_edits)?;
    if envelopes.is_empty() {
        return Ok(None);
    }
    let message_list = MessageList::of(alloc, envelopes, combiner)?;
    Ok(Some(message_list))
}

/// The messages that stay and those that are added, by rising sender.
fn edited_envelopes<M: Plain>(
    alloc: Global,
    old: Option<&MessageListRef<'_, M>>,
    message_edits: &[(VertexId, MessageEdit<M>)],
) -> Result<Vec<(VertexId, M)>, Memory>
    ensures items { IfOk result
        (λ after. after.items ≡ edited (map (λ m. m.1) message_edits.now) (envelopes_in (option_copied old.entry))) }
    ensures values { IfOk result (λ after. AllByRecursion (λ l. M.is_value l.1) after.items) }
{
    let retracted = retracted_senders(alloc, message_edits)?;
    let mut after = staying_in(alloc, old, retracted.as_slice(), message_edits.len())?;
    add_envelopes(alloc, &mut after, message_edits)?;
    after.sort_by_key(|envelope| envelope.0)?;
    Ok(after)
}

/// The senders whose messages are retracted, rising.
fn retracted_senders<M: Plain>(
    alloc: Global,
    message_edits: &[(VertexId, MessageEdit<M>)],
) -> Result<Vec<VertexId>, Memory>
    ensures rise { IfOk result (λ senders. IsStrictlySortedBy nat_cmp senders.items) }
    ensures same { IfOk result (λ senders.
        (id : ℕ) → has_id senders.items id ≡ has_id (senders_of (map (λ m. m.1) message_edits.now)) id) }
{
    let mut senders = senders_in(alloc, message_edits)?;
    senders.sort_unstable();
    senders.dedup();
    Ok(senders)
}

/// The senders whose messages are retracted, in their order.
fn senders_in<M: Plain>(
    alloc: Global,
    message_edits: &[(VertexId, MessageEdit<M>)],
) -> Result<Vec<VertexId>, Memory>
    ensures { IfOk result (λ senders. senders.items ≡ senders_of (map (λ m. m.1) message_edits.now)) }
{
    let mut senders = Vec::with_capacity(alloc, message_edits.len())?;
    for (_, message_edit) in message_edits {
        if let MessageEdit::Retracted(sender) = message_edit {
            senders.push(*sender)?;
        }
    }
    Ok(senders)
}

/// The messages of all other senders to a target, if there are any, with room for more.
fn staying_in<M: Plain>(
    alloc: Global,
    old: Option<&MessageListRef<'_, M>>,
    retracted: &[VertexId],
    more: usize,
) -> Result<Vec<(VertexId, M)>, Memory>
    requires { IsStrictlySortedBy nat_cmp retracted.now }
    ensures items { IfOk result (λ after. after.items ≡ others retracted.now (envelopes_in (option_copied old.entry))) }
    ensures values { IfOk result (λ after. AllByRecursion (λ l. M.is_value l.1) after.items) }
{
    match old {
        Some(message_list) => staying_envelopes(alloc, message_list, retracted, more),
        None => Ok(Vec::with_capacity(alloc, more)?),
    }
}

/// The messages of all other senders, with room for more.
fn staying_envelopes<M: Plain>(
    alloc: Global,
    envelopes: &MessageListRef<'_, M>,
    retracted: &[VertexId],
    more: usize,
) -> Result<Vec<(VertexId, M)>, Memory>
    requires { IsStrictlySortedBy nat_cmp retracted.now }
    ensures items { IfOk result (λ after. after.items ≡ others retracted.now envelopes.now.envelopes) }
    ensures values { IfOk result (λ after. AllByRecursion (λ l. M.is_value l.1) after.items) }
{
    let mut after = Vec::with_capacity(alloc, envelopes.len().saturating_add(more))?;
    for place in 0..envelopes.len() {
        add_if_staying(alloc, &mut after, envelopes.envelope(place), retracted)?;
    }
    Ok(after)
}

/// Adds a message of another sender.
fn add_if_staying<M: Plain>(
    alloc: Global,
    after: &mut Vec<(VertexId, M)>,
    envelope: &(VertexId, M),
    retracted: &[VertexId],
) -> Result<(), Memory>
    requires rise { IsStrictlySortedBy nat_cmp retracted.now }
    requires values { AllByRecursion (λ l. M.is_value l.1) after.old.items }
    ensures items { OnOk result (after.new.items ≡ after.old.items ++ others retracted.now (envelope.now ∷ [])) }
    ensures values { AllByRecursion (λ l. M.is_value l.1) after.new.items }
{
    if is_among(retracted, envelope.0) {
        return Ok(());
    }
    add_envelope(alloc, after, envelope.0, &envelope.1)
}

/// Whether a sender is among these, which rise.
fn is_among(senders: &[VertexId], sender: VertexId) -> bool
    requires { IsStrictlySortedBy nat_cmp senders.now }
    ensures { result ≡ has_id senders.now sender }
{
    match senders.binary_search(&sender) {
        Ok(_) => true,
        Err(_) => false,
    }
}

/// Adds the messages that are added.
fn add_envelopes<M: Plain>(
    alloc: Global,
    after: &mut Vec<(VertexId, M)>,
    message_edits: &[(VertexId, MessageEdit<M>)],
) -> Result<(), Memory>
    requires { AllByRecursion (λ l. M.is_value l.1) after.old.items }
    ensures items { OnOk result (after.new.items ≡ after.old.items ++ inserted (map (λ m. m.1) message_edits.now)) }
    ensures values { AllByRecursion (λ l. M.is_value l.1) after.new.items }
{
    for (_, message_edit) in message_edits {
        if let MessageEdit::Added(sender, message) = message_edit {
            add_envelope(alloc, after, *sender, message)?;
        }
    }
    Ok(())
}

/// Adds a message with its sender.
fn add_envelope<M: Plain>(
    alloc: Global,
    envelopes: &mut Vec<(VertexId, M)>,
    sender: VertexId,
    message: &M,
) -> Result<(), Memory>
    requires { AllByRecursion (λ l. M.is_value l.1) envelopes.old.items }
    ensures items { OnOk result (envelopes.new.items ≡ envelopes.old.items ++ (sender, message.now) ∷ []) }
    ensures values { AllByRecursion (λ l. M.is_value l.1) envelopes.new.items }
{
    envelopes.push((sender, copied_message(alloc, message)?))?;
    Ok(())
}
