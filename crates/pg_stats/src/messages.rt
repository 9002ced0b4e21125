//! How many messages were sent and dropped in a superstep, from how many there were in an old run.
ghost use Rattle.pg_inbox.specs.Handed.{envelopes_at, message_lists_in};
ghost use Rattle.std.specs.Prelude.{◌≤◌, cond, ◌≡◌, ◌+◌, length, map, IfOk};
ghost use Rattle.std.specs.Option.{option_copied, option_map};
ghost use Rattle.pg_stats.specs.MessageCounts.{HasMessageCountDelta, IsWithBundle, dropped_added, message_counts_of};
ghost use Rattle.pg_stats.specs.MessageCounts.{changed_targets_of, dropped_removed, is_counted, is_no_vertex};
ghost use Rattle.pg_stats.specs.MessageCounts.{is_vertex, messages_among, sent_added, sent_removed};

use crate::MessageCounts;
use crate::vertices::with_count_delta;
use pg_graph::{Cursor, Graph, Memory, Missing, PartitionId, Row, Superstep, VertexId};
use pg_inbox::{Bundle, BundleCursor, LoggedBundle, Logs};
use pg_program::Plain;
use std::alloc::{AllocError, Global};

/// What is sent and dropped with these bundles. Costs what `messages` does, and where messages to no vertex are dropped
/// what `undeliverable` does.
pub fn message_counts<M: Plain>(
    alloc: Global,
    bundles: &[LoggedBundle<M>],
    graph: &Graph,
    missing: Missing,
) -> Result<MessageCounts, Memory>
    ensures { IfOk result
        (λ message_counts. message_counts ≡ message_counts_of missing graph.now (map (λ l. l.bundle) bundles.now)) }
{
    let mut message_counts = MessageCounts {
        sent: 0,
        dropped: 0,
    };
    for logged in bundles {
        message_counts = with_bundle(alloc, message_counts, &logged.bundle, graph, missing)?;
    }
    Ok(message_counts)
}

/// With the messages of one bundle more.
fn with_bundle<M: Plain>(
    alloc: Global,
    message_counts: MessageCounts,
    bundle: &Bundle<M>,
    graph: &Graph,
    missing: Missing,
) -> Result<MessageCounts, Memory>
    ensures { IfOk result (λ after. IsWithBundle missing graph.now bundle.now message_counts after) }
{
    let dropped = match missing {
        Missing::Drop => bundle.undeliverable(alloc, graph)?,
        Missing::Create => 0,
    };
    with_messages(message_counts, bundle.messages(alloc)?, dropped)
}

/// With so many messages more, sent and dropped. No memory holds more than fit the counts.
pub(crate) fn with_messages(
    message_counts: MessageCounts,
    sent: u64,
    dropped: u64,
) -> Result<MessageCounts, Memory>
    ensures sent { IfOk result (λ after. after.sent ≡ message_counts.sent + sent) }
    ensures dropped { IfOk result (λ after. after.dropped ≡ message_counts.dropped + dropped) }
{
    Ok(MessageCounts {
        sent: message_counts.sent.checked_add(sent).ok_or(AllocError)?,
        dropped: message_counts
            .dropped
            .checked_add(dropped)
            .ok_or(AllocError)?,
    })
}

/// What is sent and dropped with these bundles to each partition from 0 on, from what an old run sent and dropped in
/// the superstep, of which these are the logs. `member_changes` has the ids that are a vertex in just one of the two
/// graphs.
///
/// Costs look-ups in the bundles, and where undeliverable messages are dropped in the graph, for each target that a
/// bundle names as changed and for each id that moved; where those rise, each is looked for near the one before.
pub fn message_counts_warm<M: Plain>(
    before: MessageCounts,
    old_logs: &Logs<M>,
    superstep: Superstep,
    from: PartitionId,
    bundles: &[LoggedBundle<M>],
    graph: &Graph,
    missing: Missing,
    member_changes: &[VertexId],
) -> Result<MessageCounts, Memory>
    requires { length bundles.now ≤ 64 }
    ensures { IfOk result (λ after.
        HasMessageCountDelta missing graph.now member_changes.now old_logs.now superstep from bundles.now before
        after) }
{
    let mut sent = CountDelta {
        removed: 0,
        added: 0,
    };
    let mut dropped = CountDelta {
        removed: 0,
        added: 0,
    };
    for to in 0..bundles.len() {
        let old = bundle_of(old_logs.get(superstep, from, PartitionId::new(to as u32)));
        let new = &bundles[to];
        sent = sent.plus(sent_count_delta(old, new)?)?;
        dropped = dropped.plus(dropped_count_delta(old, new, graph, missing, member_changes)?)?;
    }
    Ok(MessageCounts {
        sent: with_count_delta(before.sent, sent.removed, sent.added)?,
        dropped: with_count_delta(before.dropped, dropped.removed, dropped.added)?,
    })
}

/// How many messages are removed, and how many are added.
#[derive(Clone, Copy)]
struct CountDelta {
    removed: u64,
    added: u64,
}

impl CountDelta {
    /// Both together. No memory holds more than fit the counts.
    fn plus(self, other: CountDelta) -> Result<CountDelta, Memory>
        ensures removed { IfOk result (λ sum. sum.removed ≡ self.removed + other.removed) }
        ensures added { IfOk result (λ sum. sum.added ≡ self.added + other.added) }
    {
        Ok(CountDelta {
            removed: self.removed.checked_add(other.removed).ok_or(AllocError)?,
            added: self.added.checked_add(other.added).ok_or(AllocError)?,
        })
    }
}

/// The change of the messages to one receiver.
fn sent_count_delta<M: Plain>(
    old: Option<&Bundle<M>>,
    new: &LoggedBundle<M>,
) -> Result<CountDelta, Memory>
    ensures removed { IfOk result (λ t. t.removed ≡ sent_removed (message_lists_in (option_copied old.entry)) new.now) }
    ensures added { IfOk result (λ t. t.added ≡ sent_added (message_lists_in (option_copied old.entry)) new.now) }
{
    let changed_targets = changed_targets_of(new);
    Ok(CountDelta {
        removed: messages_among(old, changed_targets, Counted::All)?,
        added: messages_among(Some(&new.bundle), changed_targets, Counted::All)?,
    })
}

/// The change of those among them that are dropped.
fn dropped_count_delta<M: Plain>(
    old: Option<&Bundle<M>>,
    new: &LoggedBundle<M>,
    graph: &Graph,
    missing: Missing,
    member_changes: &[VertexId],
) -> Result<CountDelta, Memory>
    ensures removed { IfOk result
        (λ t. t.removed ≡ dropped_removed missing graph.now member_changes.now
        (message_lists_in (option_copied old.entry)) new.now) }
    ensures added { IfOk result
        (λ t. t.added ≡ dropped_added missing graph.now member_changes.now (message_lists_in (option_copied old.entry))
        new.now) }
{
    if missing == Missing::Create {
        return Ok(CountDelta {
            removed: 0,
            added: 0,
        });
    }
    let changed_targets = changed_targets_of(new);
    let changed = CountDelta {
        removed: undeliverable_among(old, changed_targets, graph)?,
        added: undeliverable_among(Some(&new.bundle), changed_targets, graph)?,
    };
    let member_changes = CountDelta {
        removed: arriving_among(old, member_changes, graph)?,
        added: undeliverable_among(old, member_changes, graph)?,
    };
    changed.plus(member_changes)
}

/// The targets at which a bundle tells that it differs from the old run's.
fn changed_targets_of<M: Plain>(logged: &LoggedBundle<M>) -> &[VertexId]
    ensures { result.now ≡ changed_targets_of logged.now }
{
    match &logged.changed {
        Some(ids) => ids.as_slice(),
        None => &[],
    }
}

fn bundle_of<M: Plain>(logged: Option<&LoggedBundle<M>>) -> Option<&Bundle<M>>
    ensures { option_copied result ≡ option_map (λ l. l.bundle) (option_copied logged.entry) }
{
    match logged {
        Some(logged) => Some(&logged.bundle),
        None => None,
    }
}

/// How many messages a bundle has to those of these ids that are no vertices of a graph.
fn undeliverable_among<M: Plain>(
    bundle: Option<&Bundle<M>>,
    ids: &[VertexId],
    graph: &Graph,
) -> Result<u64, Memory>
    ensures { IfOk result
        (λ count. count ≡ messages_among (is_no_vertex graph.now) ids.now
        (message_lists_in (option_copied bundle.entry))) }
{
    messages_among(bundle, ids, Counted::NoVertices(graph.cursor()))
}

/// How many it has to the others of them.
fn arriving_among<M: Plain>(
    bundle: Option<&Bundle<M>>,
    ids: &[VertexId],
    graph: &Graph,
) -> Result<u64, Memory>
    ensures { IfOk result
        (λ count. count ≡ messages_among (is_vertex graph.now) ids.now
        (message_lists_in (option_copied bundle.entry))) }
{
    messages_among(bundle, ids, Counted::Vertices(graph.cursor()))
}

/// Which targets of messages are counted.
#[derive(Drop)]
enum Counted<'a> {
    /// All.
    All,
    /// Those that are no vertices of a graph.
    NoVertices(Cursor<'a, Row>),
    /// Those that are vertices of a graph.
    Vertices(Cursor<'a, Row>),
}

impl<'a> Counted<'a> {
    /// Whether a target is counted. Costs a look-up in the graph, if there is one.
    fn has(&mut self, target: VertexId) -> bool
        ensures counted { result ≡ is_counted self.old target }
        ensures same { self.new ≡ self.old }
    {
        match self {
            Counted::All => true,
            Counted::NoVertices(rows) => rows.get(target).is_none(),
            Counted::Vertices(rows) => rows.get(target).is_some(),
        }
    }
}

/// How many messages a bundle has to those of these ids that are counted. Costs a look-up in the graph for each, if
/// there is one, and one in the bundle for each that is counted, near the one before where they rise.
fn messages_among<M: Plain>(
    bundle: Option<&Bundle<M>>,
    ids: &[VertexId],
    counted: Counted<'_>,
) -> Result<u64, Memory>
    ensures { IfOk result
        (λ count. count ≡ messages_among (is_counted counted.entry) ids.now
        (message_lists_in (option_copied bundle.entry))) }
{
    match bundle {
        Some(bundle) => messages_to_each(bundle, ids, counted),
        None => Ok(0),
    }
}

/// How many messages a bundle has to those of these ids that are counted.
fn messages_to_each<M: Plain>(
    bundle: &Bundle<M>,
    ids: &[VertexId],
    mut counted: Counted<'_>,
) -> Result<u64, Memory>
    ensures { IfOk result (λ count. count ≡ messages_among (is_counted counted.entry) ids.now bundle.now) }
{
    let mut cursor = bundle.cursor();
    let mut count = 0u64;
    for id in ids {
        count = with_messages_to(count, &mut cursor, *id, &mut counted)?;
    }
    Ok(count)
}

/// A count with the messages to one target, if it is counted. No memory holds more than fit the count.
fn with_messages_to<M: Plain>(
    count: u64,
    bundle: &mut BundleCursor<'_, M>,
    target: VertexId,
    counted: &mut Counted<'_>,
) -> Result<u64, Memory>
    ensures count { IfOk result
        (λ after. after ≡ count + cond (is_counted counted.old target) (length (envelopes_at target bundle.old)) 0) }
    ensures same { bundle.new ≡ bundle.old }
    ensures same_targets { counted.new ≡ counted.old }
{
    if !counted.has(target) {
        return Ok(count);
    }
    count
        .checked_add(bundle.messages_to(target) as u64)
        .ok_or(AllocError)
}
