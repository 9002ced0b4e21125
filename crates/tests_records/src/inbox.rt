ghost use Rattle.std.specs.Prelude.{◌≡◌};

use pg_global::AnyCombiner;
use pg_graph::{Memory, PartitionId, Superstep, VertexId};
use pg_inbox::{
    Bundle, BundleCursor, LoggedBundle, Logs, Outbox, OutboxRef, add_receivers, bundle,
    changed_targets, inbox, inboxes, patch,
};
use std::alloc::Global;
use std::fmt::Write;

fn id(number: u32) -> VertexId
    ensures { result ≡ number }
{
    VertexId::new(u64::from(number)).unwrap()
}

// The bundle of these, each as (sender, target, message).
fn bundle_of(
    alloc: Global,
    sent: &[(u32, u32, i64)],
    combiner: AnyCombiner,
) -> Result<Bundle<i64>, Memory> {
    let mut sends = Outbox::with_room(alloc, sent.len())?;
    for (sender, target, message) in sent {
        sends.push(id(*sender), id(*target), *message)?;
    }
    bundle(alloc, &sends.as_ref(), &combiner)
}

fn three(alloc: Global, combiner: AnyCombiner) -> Result<Bundle<i64>, Memory> {
    bundle_of(alloc, &[(1, 4, 3), (3, 4, 2), (3, 5, 7)], combiner)
}

fn two(alloc: Global, combiner: AnyCombiner) -> Result<Bundle<i64>, Memory> {
    bundle_of(alloc, &[(3, 4, 2), (3, 5, 7)], combiner)
}

fn one(alloc: Global, message: i64, combiner: AnyCombiner) -> Result<Bundle<i64>, Memory> {
    bundle_of(alloc, &[(2, 4, message)], combiner)
}

// What a target receives, each message with a comma.
fn inbox_of(
    alloc: Global,
    bundles: &[&Bundle<i64>],
    target: u32,
    combiner: AnyCombiner,
) -> Result<String, Memory> {
    let messages = inbox(alloc, bundles, id(target), &combiner)?;
    let mut text = String::new(alloc);
    for message in messages.as_slice() {
        write!(text, "{message},")?;
    }
    Ok(text)
}

// How many messages go to a target, and what they come to, as `target:count[message,]`.
fn write_target(
    alloc: Global,
    text: &mut String,
    bundle: &Bundle<i64>,
    target: u32,
    combiner: AnyCombiner,
) -> Result<(), Memory> {
    let count = bundle.cursor().messages_to(id(target));
    let messages = inbox_of(alloc, &[bundle], target, combiner)?;
    write!(text, "{target}:{count}[{messages}]")?;
    Ok(())
}

// The targets 3 to 5 of a bundle.
fn write_bundle(
    alloc: Global,
    text: &mut String,
    bundle: &Bundle<i64>,
    combiner: AnyCombiner,
) -> Result<(), Memory> {
    for target in 3..6u32 {
        write_target(alloc, text, bundle, target, combiner)?;
    }
    Ok(())
}

fn write_ids(text: &mut String, ids: &[VertexId]) -> Result<(), Memory> {
    for id in ids {
        write!(text, "{id},")?;
    }
    Ok(())
}

fn text_of_three(alloc: Global) -> Result<String, Memory> {
    let made = three(alloc, AnyCombiner::Min)?;
    let mut text = String::new(alloc);
    write_bundle(alloc, &mut text, &made, AnyCombiner::Min)?;
    Ok(text)
}

#[test]
fn combined_at_the_sender(rt: HostRuntime) -> Result<(), Memory> {
    let text = text_of_three(rt.alloc())?;
    assert_eq!(rt; text.as_str(), "3:0[]4:2[2,]5:1[7,]");
    Ok(())
}

// What 4 receives of a copy of one bundle and of another.
fn inbox_of_both(alloc: Global, combiner: AnyCombiner) -> Result<String, Memory> {
    let first = three(alloc, combiner)?.cheap_clone()?;
    let second = one(alloc, 9, combiner)?;
    inbox_of(alloc, &[&first, &second], 4, combiner)
}

#[test]
fn ordered_by_sender(rt: HostRuntime) -> Result<(), Memory> {
    let text = inbox_of_both(rt.alloc(), AnyCombiner::NoCombiner)?;
    assert_eq!(rt; text.as_str(), "3,9,2,");
    Ok(())
}

#[test]
fn combined_over_bundles(rt: HostRuntime) -> Result<(), Memory> {
    let text = inbox_of_both(rt.alloc(), AnyCombiner::Min)?;
    assert_eq!(rt; text.as_str(), "2,");
    Ok(())
}

// What each target receives of three bundles, as `target[message,]`.
fn inboxes_of_three(alloc: Global) -> Result<String, Memory> {
    let combiner = AnyCombiner::NoCombiner;
    let first = bundle_of(
        alloc,
        &[(1, 4, 10), (1, 4, 11), (5, 4, 50), (5, 9, 51)],
        combiner,
    )?;
    let second = bundle_of(alloc, &[(2, 3, 20), (2, 4, 21), (6, 4, 60)], combiner)?;
    let third = bundle_of(alloc, &[(3, 4, 30), (3, 9, 31), (3, 9, 32)], combiner)?;
    let received = inboxes(alloc, &[&first, &second, &third], &combiner)?;
    let mut text = String::new(alloc);
    for place in 0..received.len() {
        let (target, messages) = received.at(place);
        write!(text, "{target}[")?;
        write_messages(&mut text, messages)?;
    }
    Ok(text)
}

fn write_messages(text: &mut String, messages: &[i64]) -> Result<(), Memory> {
    for message in messages {
        write!(text, "{message},")?;
    }
    text.push(']')?;
    Ok(())
}

#[test]
fn inboxes_by_target_and_sender(rt: HostRuntime) -> Result<(), Memory> {
    let text = inboxes_of_three(rt.alloc())?;
    assert_eq!(rt; text.as_str(), "3[20,]4[10,11,21,30,50,60,]9[31,32,51,]");
    Ok(())
}

// Which of the targets 5, 3, 4 and 9 receive something of two bundles, each with a comma.
fn receivers_of_both(alloc: Global) -> Result<String, Memory> {
    let mut bundles = Vec::with_capacity(alloc, 2)?;
    bundles.push(three(alloc, AnyCombiner::NoCombiner)?)?;
    bundles.push(bundle_of(alloc, &[(2, 9, 1)], AnyCombiner::NoCombiner)?)?;
    let mut receivers = Vec::new(alloc);
    let ids = [id(5), id(3), id(4), id(9)];
    add_receivers(&mut receivers, &ids, bundles.as_slice())?;
    let mut text = String::new(alloc);
    write_ids(&mut text, receivers.as_slice())?;
    Ok(text)
}

#[test]
fn receivers_are_those_that_a_bundle_has_a_message_to(rt: HostRuntime) -> Result<(), Memory> {
    let text = receivers_of_both(rt.alloc())?;
    assert_eq!(rt; text.as_str(), "5,4,9,");
    Ok(())
}

// The bundle with one message to each even target from 2 to 120.
fn bundle_of_even(alloc: Global) -> Result<Bundle<i64>, Memory> {
    let mut sends = Outbox::with_room(alloc, 60)?;
    for half in 1..61u32 {
        sends.push(id(1), id(half * 2), i64::from(half))?;
    }
    bundle(alloc, &sends.as_ref(), &AnyCombiner::NoCombiner)
}

// Whether a target from 0 to 130 has one message where it is even and from 2 to 120, and else none.
fn is_found(cursor: &mut BundleCursor<'_, i64>, target: u32) -> bool {
    let is_even = target % 2 == 0 && target >= 2 && target <= 120;
    cursor.messages_to(id(target)) == usize::from(is_even)
}

// How many targets are found as they should be, of those that rise by steps and then of all that fall.
fn found_by_steps(alloc: Global, step: u32) -> Result<u32, Memory> {
    let bundle = bundle_of_even(alloc)?;
    let mut cursor = bundle.cursor();
    let mut found = 0u32;
    for place in 0..131u32 {
        let target = place.wrapping_mul(step) % 131;
        found = found.saturating_add(u32::from(is_found(&mut cursor, target)));
    }
    for place in 0..131u32 {
        found = found.saturating_add(u32::from(is_found(&mut cursor, 130 - place)));
    }
    Ok(found)
}

#[test]
fn targets_are_found_wherever_the_one_before_lies(rt: HostRuntime) -> Result<(), Memory> {
    for step in [1, 2, 7, 40] {
        assert_eq!(rt; found_by_steps(rt.alloc(), step)?, 262);
    }
    Ok(())
}

// The targets at which bundles differ, each with a comma.
fn changed(alloc: Global, old: &Bundle<i64>, new: &Bundle<i64>) -> Result<String, Memory> {
    let ids = changed_targets(alloc, Some(old), Some(new))?;
    let mut text = String::new(alloc);
    write_ids(&mut text, ids.as_slice())?;
    Ok(text)
}

fn changed_by_one_less(alloc: Global, combiner: AnyCombiner) -> Result<String, Memory> {
    let old = three(alloc, combiner)?;
    let new = two(alloc, combiner)?;
    changed(alloc, &old, &new)
}

fn is_changed_at_four(alloc: Global, combiner: AnyCombiner) -> Result<bool, Memory> {
    let text = changed_by_one_less(alloc, combiner)?;
    Ok(text.as_str() == "4,")
}

#[test]
fn changed_at_one_target(rt: HostRuntime) -> Result<(), Memory> {
    assert!(rt; is_changed_at_four(rt.alloc(), AnyCombiner::NoCombiner)?);
    assert!(rt; is_changed_at_four(rt.alloc(), AnyCombiner::Min)?);
    Ok(())
}

// Only the first bundle has the targets 2 and 7, only the second 4 and 9; they agree at 3, and differ at 5.
fn changed_on_each_side(alloc: Global, combiner: AnyCombiner) -> Result<String, Memory> {
    let old = bundle_of(
        alloc,
        &[(1, 2, 10), (1, 3, 11), (1, 5, 12), (1, 7, 13)],
        combiner,
    )?;
    let new = bundle_of(
        alloc,
        &[(1, 3, 11), (1, 4, 14), (1, 5, 15), (1, 9, 16)],
        combiner,
    )?;
    changed(alloc, &old, &new)
}

fn is_changed_on_each_side(alloc: Global, combiner: AnyCombiner) -> Result<bool, Memory> {
    let text = changed_on_each_side(alloc, combiner)?;
    Ok(text.as_str() == "2,4,5,7,9,")
}

#[test]
fn changed_in_one_bundle_or_in_both(rt: HostRuntime) -> Result<(), Memory> {
    assert!(rt; is_changed_on_each_side(rt.alloc(), AnyCombiner::NoCombiner)?);
    assert!(rt; is_changed_on_each_side(rt.alloc(), AnyCombiner::Min)?);
    Ok(())
}

// The superstep, the sender and the receiver of a slot.
type Place = (u32, u32, u32);

fn put(alloc: Global, logs: &mut Logs<i64>, place: Place, message: i64) -> Result<(), Memory> {
    let logged = LoggedBundle {
        bundle: one(alloc, message, AnyCombiner::Min)?,
        changed: None,
    };
    let (s, p, q) = place;
    logs.put(
        alloc,
        Superstep::new(s),
        PartitionId::new(p),
        PartitionId::new(q),
        logged,
    )
}

// The message of a slot, or -1 where it is empty.
fn message_in(alloc: Global, logs: &Logs<i64>, place: Place) -> Result<i64, Memory> {
    let (s, p, q) = place;
    match logs.get(Superstep::new(s), PartitionId::new(p), PartitionId::new(q)) {
        Some(logged) => {
            let mut messages = inbox(alloc, &[&logged.bundle], id(4), &AnyCombiner::Min)?;
            Ok(messages.pop().unwrap_or(-1))
        }
        None => Ok(-1),
    }
}

// The slots of three supersteps and four partitions are numbered.
fn place_of(number: u32) -> Place {
    (number / 16, number / 4 % 4, number % 4)
}

// The slots of three supersteps and four partitions, each with its number.
fn full(alloc: Global) -> Result<Logs<i64>, Memory> {
    let mut logs = Logs::new(alloc);
    for number in 0..48u32 {
        put(alloc, &mut logs, place_of(number), i64::from(number))?;
    }
    Ok(logs)
}

// Slot 0 has 99 now, each other one its number, and there is none past them.
fn are_kept(alloc: Global, logs: &Logs<i64>) -> Result<bool, Memory> {
    for number in 1..48u32 {
        if message_in(alloc, logs, place_of(number))? != i64::from(number) {
            return Ok(false);
        }
    }
    Ok(message_in(alloc, logs, (0, 0, 0))? == 99 && message_in(alloc, logs, (9, 0, 0))? == -1)
}

fn put_anew(alloc: Global) -> Result<bool, Memory> {
    let mut logs = full(alloc)?;
    put(alloc, &mut logs, (0, 0, 0), 99)?;
    are_kept(alloc, &logs)
}

#[test]
fn logs_keep(rt: HostRuntime) -> Result<(), Memory> {
    assert!(rt; put_anew(rt.alloc())?);
    Ok(())
}

// The slots of the sender 1 are empty, and each other one has its number.
fn are_forgotten(alloc: Global, logs: &Logs<i64>) -> Result<bool, Memory> {
    for number in 0..48u32 {
        let (superstep, sender, receiver) = place_of(number);
        let remaining = if sender == 1 { -1 } else { i64::from(number) };
        if message_in(alloc, logs, (superstep, sender, receiver))? != remaining {
            return Ok(false);
        }
    }
    Ok(true)
}

fn forget_one(alloc: Global) -> Result<bool, Memory> {
    let mut logs = full(alloc)?;
    logs.forget(PartitionId::new(1));
    are_forgotten(alloc, &logs)
}

#[test]
fn logs_forget(rt: HostRuntime) -> Result<(), Memory> {
    assert!(rt; forget_one(rt.alloc())?);
    Ok(())
}

fn put_empty(alloc: Global, logs: &mut Logs<i64>, place: Place) -> Result<(), Memory> {
    let logged = LoggedBundle {
        bundle: bundle_of(alloc, &[], AnyCombiner::Min)?,
        changed: None,
    };
    let (s, p, q) = place;
    logs.put(
        alloc,
        Superstep::new(s),
        PartitionId::new(p),
        PartitionId::new(q),
        logged,
    )
}

// Slots of one sender in a superstep: a message, a point for an empty bundle, a dash for none.
fn slots_of(alloc: Global, logs: &Logs<i64>) -> Result<String, Memory> {
    let mut text = String::new(alloc);
    for q in 0..7u32 {
        match logs.get(Superstep::new(0), PartitionId::new(0), PartitionId::new(q)) {
            Some(_) => write_slot(alloc, &mut text, logs, q)?,
            None => text.push('-')?,
        }
    }
    Ok(text)
}

fn write_slot(alloc: Global, text: &mut String, logs: &Logs<i64>, q: u32) -> Result<(), Memory> {
    match message_in(alloc, logs, (0, 0, q))? {
        -1 => text.push('.')?,
        message => write!(text, "{message}")?,
    }
    Ok(())
}

// Empty bundles to 0, 1 and 3, messages to 2 and 5; then a message to 1, and an empty bundle to 2.
fn mostly_empty(alloc: Global) -> Result<String, Memory> {
    let mut logs = Logs::new(alloc);
    put_empty(alloc, &mut logs, (0, 0, 0))?;
    put_empty(alloc, &mut logs, (0, 0, 1))?;
    put(alloc, &mut logs, (0, 0, 2), 2)?;
    put_empty(alloc, &mut logs, (0, 0, 3))?;
    put(alloc, &mut logs, (0, 0, 5), 5)?;
    let mut text = slots_of(alloc, &logs)?;
    put(alloc, &mut logs, (0, 0, 1), 7)?;
    put_empty(alloc, &mut logs, (0, 0, 2))?;
    let later = slots_of(alloc, &logs)?;
    write!(text, " {}", later.as_str())?;
    Ok(text)
}

#[test]
fn logs_keep_empty_bundles(rt: HostRuntime) -> Result<(), Memory> {
    let text = mostly_empty(rt.alloc())?;
    assert_eq!(rt; text.as_str(), "..2.-5- .7..-5-");
    Ok(())
}

// The bundle of three without two of its messages.
fn retracted(alloc: Global, combiner: AnyCombiner) -> Result<LoggedBundle<i64>, Memory> {
    let old = three(alloc, combiner)?;
    let retracted = [(id(1), id(4)), (id(3), id(5))];
    patch(alloc, &old, &retracted, &OutboxRef::of(&[], &[]), &combiner)
}

fn write_logged(
    alloc: Global,
    text: &mut String,
    logged: &LoggedBundle<i64>,
    combiner: AnyCombiner,
) -> Result<(), Memory> {
    write_bundle(alloc, text, &logged.bundle, combiner)?;
    if let Some(changed) = &logged.changed {
        write!(text, " changed ")?;
        write_ids(text, changed.as_slice())?;
    }
    Ok(())
}

fn text_of_retracted(alloc: Global, combiner: AnyCombiner) -> Result<String, Memory> {
    let logged = retracted(alloc, combiner)?;
    let mut text = String::new(alloc);
    write_logged(alloc, &mut text, &logged, combiner)?;
    Ok(text)
}

#[test]
fn retracted_from_one_target(rt: HostRuntime) -> Result<(), Memory> {
    let text = text_of_retracted(rt.alloc(), AnyCombiner::Min)?;
    assert_eq!(rt; text.as_str(), "3:0[]4:1[2,]5:0[] changed 4,5,");
    let text = text_of_retracted(rt.alloc(), AnyCombiner::NoCombiner)?;
    assert_eq!(rt; text.as_str(), "3:0[]4:1[2,]5:0[] changed 4,5,");
    Ok(())
}

// How many messages there are in a bundle of which some are changed.
fn count_of_retracted(alloc: Global) -> Result<u64, Memory> {
    retracted(alloc, AnyCombiner::NoCombiner)?
        .bundle
        .messages(alloc)
}

#[test]
fn counted_with_changes(rt: HostRuntime) -> Result<(), Memory> {
    assert!(rt; count_of_retracted(rt.alloc())? == 1);
    Ok(())
}

// What 4 receives where who sent first doesn't have the lower id.
fn inbox_of_reversed(alloc: Global) -> Result<String, Memory> {
    let reversed = bundle_of(alloc, &[(3, 4, 2), (1, 4, 3)], AnyCombiner::NoCombiner)?;
    inbox_of(alloc, &[&reversed], 4, AnyCombiner::NoCombiner)
}

#[test]
fn put_in_order_of_senders(rt: HostRuntime) -> Result<(), Memory> {
    let text = inbox_of_reversed(rt.alloc())?;
    assert_eq!(rt; text.as_str(), "3,2,");
    Ok(())
}
