//! Bundles made of sends.
ghost use Rattle.std.specs.Prelude.{◌≡◌, map, IfOk};
ghost use Rattle.std.specs.List.{AllByRecursion};
ghost use Rattle.std.specs.List.Sorted.{IsNonDecreasingBy};
ghost use Rattle.pg_sort.specs.ById.{AreById, StandAt};
ghost use Rattle.pg_inbox_messages.specs.Contents.{message_lists_of};
ghost use Rattle.pg_inbox_messages.specs.Grouping.{AreGroups, groups_of};
ghost use Rattle.pg_inbox_bundles.specs.Bundles.{bundle_of};
ghost use Rattle.pg_inbox_bundles.specs.Outbox.{as_item};
ghost use Rattle.pg_inbox_bundles.specs.Sound.{sent_message_lists};

use crate::envelopes::Envelopes;
use crate::{Bundle, OutboxRef};
use pg_global::MessageCombiner;
use pg_graph::{Memory, VertexId};
use pg_inbox_messages::message_lists_of;
use pg_map::Map;
use pg_program::Plain;
use pg_sort::sorted_by_id;
use std::alloc::Global;

/// The bundle of sends.
///
/// Costs what it takes to put the targets in order (`sorted_by_id`) and a copy of each message in that order; where the
/// combiner combines, one more copy and one look at it.
pub fn bundle<M: Plain, C: MessageCombiner<M>>(
    alloc: Global,
    sent: &OutboxRef<'_, M>,
    combiner: &C,
) -> Result<Bundle<M>, Memory>
    ensures { IfOk result (λ bundle. bundle ≡ bundle_of (C.combining combiner.now) sent.now) }
{
    let envelopes = envelopes_by_target(alloc, sent)?;
    if combiner.combines() {
        return combined_bundle(alloc, envelopes.as_slice(), combiner);
    }
    sent_bundle(alloc, envelopes)
}

/// The bundle of envelopes that aren't combined, in the memory that they lie in.
fn sent_bundle<M: Plain>(
    alloc: Global,
    envelopes: Vec<(VertexId, (VertexId, M))>,
) -> Result<Bundle<M>, Memory>
    requires rise { IsNonDecreasingBy (λ l. l.0) envelopes.items }
    requires values { AllByRecursion (λ l. M.is_value l.1.1) envelopes.items }
    ensures { IfOk result (λ bundle. bundle ≡ sent_message_lists envelopes.items) }
{
    let envelopes = Envelopes::of(alloc, envelopes)?;
    Ok(Bundle {
        envelopes,
        changes: Map::new(),
    })
}

/// The bundle of envelopes that are combined.
fn combined_bundle<M: Plain, C: MessageCombiner<M>>(
    alloc: Global,
    envelopes: &[(VertexId, (VertexId, M))],
    combiner: &C,
) -> Result<Bundle<M>, Memory>
    requires { IsNonDecreasingBy (λ l. l.0) envelopes.now }
    ensures { IfOk result (λ bundle. bundle ≡ message_lists_of (C.combining combiner.now) (groups_of envelopes.now)) }
{
    let message_lists = message_lists_of(alloc, envelopes, combiner)?;
    let changes = Map::from_rising(alloc, message_lists)?;
    Ok(Bundle {
        envelopes: Envelopes::new(),
        changes,
    })
}

/// Each message with its sender and target, by rising target; those to one target in their order.
fn envelopes_by_target<M: Plain>(
    alloc: Global,
    sent: &OutboxRef<'_, M>,
) -> Result<Vec<(VertexId, (VertexId, M))>, Memory>
    ensures groups { IfOk result (λ envelopes. AreGroups (map as_item sent.now) (groups_of envelopes.items)) }
    ensures rise { IfOk result (λ envelopes. IsNonDecreasingBy (λ l. l.0) envelopes.items) }
    ensures values { IfOk result (λ envelopes. AllByRecursion (λ l. M.is_value l.1.1) envelopes.items) }
{
    let order = sorted_by_id(alloc, sent.with_targets())?;
    envelopes_in_order(alloc, sent, order.as_slice())
}

/// Copies of the messages of the sends at these places, each with its sender and target.
fn envelopes_in_order<M: Plain>(
    alloc: Global,
    sent: &OutboxRef<'_, M>,
    order: &[(usize, VertexId)],
) -> Result<Vec<(VertexId, (VertexId, M))>, Memory>
    requires { AreById (map (λ s. s.1) sent.now) order.now }
    ensures stand { IfOk result (λ envelopes. StandAt (map as_item sent.now) order.now envelopes.items) }
    ensures values { IfOk result (λ envelopes. AllByRecursion (λ l. M.is_value l.1.1) envelopes.items) }
{
    let mut envelopes = Vec::with_capacity(alloc, order.len())?;
    for (place, _) in order {
        let (sender, target, message) = sent.at(*place);
        envelopes.push((target, (sender, copied_message(alloc, message)?)))?;
    }
    Ok(envelopes)
}

/// A copy of a message, which is a value of its type.
pub fn copied_message<M: Plain>(alloc: Global, message: &M) -> Result<M, Memory>
    ensures same { IfOk result (λ copy. copy ≡ message.now) }
    ensures value { IfOk result (λ copy. M.is_value copy) }
{
    let copy = message.copy(alloc)?;
    copy.fits();
    Ok(copy)
}
