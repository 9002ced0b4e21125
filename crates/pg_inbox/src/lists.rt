//! The inboxes of a superstep in whose bundles messages lie as they were sent: the lists are merged by target.
ghost use Rattle.std.specs.Prelude.{◌≡◌, ◌++◌, [], map, IfOk, IfSome, OnOk};
ghost use Rattle.std.specs.List.Sorted.{IsNonDecreasingBy};
ghost use Rattle.std.specs.Prelude.{List, ℕ, ◌∷◌, Option};
ghost use Rattle.pg_inbox.specs.Merged.{AreMerged, IsLowestOf, StandByTarget, StandFrom, all_to, lists_after};
ghost use Rattle.pg_inbox_bundles.specs.Sound.{sent_message_lists};

use crate::Inboxes;
use pg_graph::{Memory, VertexId};
use pg_inbox_bundles::Bundle;
use pg_inbox_messages::run_len;
use pg_map::is_below;
use pg_program::Plain;
use std::alloc::Global;

/// The envelopes of bundles, if nothing is changed of any.
pub(crate) fn all_unchanged<'a, M: Plain>(
    alloc: Global,
    bundles: &[&'a Bundle<M>],
) -> Result<Option<Vec<&'a [(VertexId, (VertexId, M))]>>, Memory>
    ensures bundles { IfOk result (λ made. IfSome made (λ lists.
        map (λ b. b.now) bundles.now ≡ map sent_message_lists (map (λ l. l.now) lists.items))) }
    ensures stand { IfOk result (λ made. IfSome made (λ lists. StandByTarget (map (λ l. l.now) lists.items))) }
{
    let mut lists = Vec::with_capacity(alloc, bundles.len())?;
    for bundle in bundles {
        match bundle.unchanged() {
            Some(envelopes) => lists.push(envelopes)?,
            None => return Ok(None),
        }
    }
    Ok(Some(lists))
}

/// The inbox of each target of lists of envelopes by target. Costs a look at the first envelope of each list for each
/// target, and a copy of each envelope; takes memory for all inboxes at once.
pub(crate) fn inboxes_merged<M: Plain>(
    alloc: Global,
    lists: Vec<&[(VertexId, (VertexId, M))]>,
) -> Result<Inboxes<M>, Memory>
    requires { StandByTarget (map (λ l. l.now) lists.items) }
    ensures { IfOk result (λ inboxes. AreMerged (map (λ l. l.now) lists.entry.items) inboxes) }
{
    let count = envelopes_in_all(lists.as_slice());
    let mut inboxes = Inboxes::with_room(alloc, count, count)?;
    let mut remaining = lists;
    let mut envelopes = Vec::new(alloc);
    while let Some(target) = lowest_target(remaining.as_slice()) {
        take_envelopes(alloc, &mut remaining, target, &mut envelopes)?;
        inboxes = inboxes.with_envelopes(alloc, target, &mut envelopes)?;
    }
    Ok(inboxes)
}

/// How many envelopes there are: for how many to make room, so no contract tells it.
fn envelopes_in_all<M>(lists: &[&[(VertexId, (VertexId, M))]]) -> usize {
    let mut count = 0usize;
    for list in lists {
        count = count.saturating_add(list.len());
    }
    count
}

/// The lowest target of lists by target, if there is an envelope.
fn lowest_target<M>(lists: &[&[(VertexId, (VertexId, M))]]) -> Option<VertexId>
    requires { StandByTarget (map (λ l. l.now) lists.now) }
    ensures { IsLowestOf (map (λ l. l.now) lists.now) result }
{
    let mut lowest = None;
    for list in lists {
        lowest = lower(lowest, list);
    }
    lowest
}

/// The lowest target of lists and one more.
#[inline(always)]
fn lower<M>(lowest: Option<VertexId>, list: &[(VertexId, (VertexId, M))]) -> Option<VertexId>
    requires { IsNonDecreasingBy (λ l. l.0) list.now }
    ensures { (lists : List (List (ℕ × (ℕ × M)))) → IsLowestOf lists lowest
        → IsLowestOf (lists ++ list.now ∷ []) result }
{
    let first = match list.split_first() {
        Some((first, _)) => first.0,
        None => return lowest,
    };
    match lowest {
        Some(target) if is_below(target, first) => lowest,
        _ => Some(first),
    }
}

/// Takes the envelopes to a target from the beginning of each list, where no list has a lower one.
fn take_envelopes<M: Plain>(
    alloc: Global,
    lists: &mut Vec<&[(VertexId, (VertexId, M))]>,
    target: VertexId,
    envelopes: &mut Vec<(VertexId, M)>,
) -> Result<(), Memory>
    requires { StandFrom target (map (λ l. l.now) lists.old.items) }
    ensures lists { OnOk result
        (map (λ l. l.now) lists.new.items ≡ lists_after target (map (λ l. l.now) lists.old.items)) }
    ensures envelopes { OnOk result (envelopes.new.items
        ≡ envelopes.old.items ++ all_to target (map (λ l. l.now) lists.old.items)) }
{
    for place in 0..lists.len() {
        let list = lists[place];
        let (here, later) = list.split_at(run_len(list, target));
        add_envelopes(alloc, envelopes, here)?;
        lists[place] = later;
    }
    Ok(())
}

/// Adds copies of messages with their senders.
#[inline(always)]
fn add_envelopes<M: Plain>(
    alloc: Global,
    envelopes: &mut Vec<(VertexId, M)>,
    more: &[(VertexId, (VertexId, M))],
) -> Result<(), Memory>
    ensures { OnOk result (envelopes.new.items ≡ envelopes.old.items ++ map (λ l. l.1) more.now) }
{
    for (_, envelope) in more {
        envelopes.push((envelope.0, envelope.1.copy(alloc)?))?;
    }
    Ok(())
}
