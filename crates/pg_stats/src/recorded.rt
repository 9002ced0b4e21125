//! How many messages were sent and dropped in a superstep, by its records.
ghost use Rattle.std.specs.Prelude.{◌≡◌, IfOk};
ghost use Rattle.std.specs.List.{count_by};
ghost use Rattle.pg_stats.specs.MessageCounts.{IsWithSent, is_no_vertex, message_counts_recorded};

use crate::MessageCounts;
use crate::messages::with_messages;
use pg_graph::{Graph, Memory, Missing, VertexId};
use pg_program::Plain;
use pg_trace::RecordRef;

/// What these records send, and what of it is dropped. Costs O(1) a record, and where undeliverable messages are
/// dropped a look-up of each target.
pub fn message_counts_recorded<V: Plain, M: Plain>(
    records: &[(VertexId, RecordRef<'_, V, M>)],
    graph: &Graph,
    missing: Missing,
) -> Result<MessageCounts, Memory>
    ensures { IfOk result (λ message_counts. message_counts ≡ message_counts_recorded missing graph.now records.now) }
{
    let mut message_counts = MessageCounts {
        sent: 0,
        dropped: 0,
    };
    for (_, given) in records {
        message_counts = with_sent(message_counts, given.sent(), graph, missing)?;
    }
    Ok(message_counts)
}

/// With these messages more.
fn with_sent<M>(
    message_counts: MessageCounts,
    sent: &[(VertexId, M)],
    graph: &Graph,
    missing: Missing,
) -> Result<MessageCounts, Memory>
    ensures { IfOk result (λ after. IsWithSent missing graph.now sent.now message_counts after) }
{
    let dropped = match missing {
        Missing::Drop => sent_to_no_vertex(sent, graph),
        Missing::Create => 0,
    };
    with_messages(message_counts, sent.len() as u64, dropped as u64)
}

/// How many of these messages are sent to no vertex of a graph.
fn sent_to_no_vertex<M>(sent: &[(VertexId, M)], graph: &Graph) -> usize
    ensures { result ≡ count_by (λ m. is_no_vertex graph.now m.0) sent.now }
{
    let mut count = 0;
    for (target, _) in sent {
        if graph.row(*target).is_none() {
            count += 1;
        }
    }
    count
}
