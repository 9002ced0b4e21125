ghost use Rattle.std.specs.Prelude.{◌≡◌, length};

use pg_global::AnyCombiner;
use pg_graph::{Edges, Memory, VertexId};
use pg_inbox::{OutboxRef, bundle, inbox};
use pg_model::VertexState;
use pg_trace_records::RecordChanges;
use std::alloc::Global;
use std::fmt::Write;

fn id(number: u32) -> VertexId
    ensures { result ≡ number }
{
    VertexId::new(u64::from(number)).unwrap()
}

fn halted(id: VertexId) -> VertexState<i64> {
    VertexState {
        id,
        value: 0,
        edges: Edges::new(),
        halted: true,
    }
}

// Vertex 1 sends two messages, 2 none, 4 has no record any more, and 7 sends one.
fn four(alloc: Global) -> Result<RecordChanges<i64, i64>, Memory> {
    let mut changes = RecordChanges::new(alloc, 4)?;
    let both = vec![in alloc; (id(5), 70), (id(4), 80)]?;
    changes.add(halted(id(1)), both, Vec::new(alloc))?;
    changes.add(halted(id(2)), Vec::new(alloc), Vec::new(alloc))?;
    changes.add_none(id(4))?;
    let one = vec![in alloc; (id(5), 90)]?;
    changes.add(halted(id(7)), one, Vec::new(alloc))?;
    Ok(changes)
}

// Each message as `sender>target:message,`.
fn write_all(
    text: &mut String,
    senders: &[VertexId],
    sent: &[(VertexId, i64)],
) -> Result<(), Memory>
    requires { length senders.now ≡ length sent.now }
{
    for place in 0..sent.len() {
        let sender = senders[place];
        let (target, message) = &sent[place];
        write!(text, "{sender}>{target}:{message},")?;
    }
    Ok(())
}

fn text_of(alloc: Global) -> Result<String, Memory> {
    let changes = four(alloc)?;
    let mut text = String::new(alloc);
    if let Some((senders, sent)) = changes.all_sent(alloc)? {
        write_all(&mut text, senders.as_slice(), sent)?;
    }
    Ok(text)
}

#[test]
fn all_sent_with_who_sent_it(rt: HostRuntime) -> Result<(), Memory> {
    let text = text_of(rt.alloc())?;
    assert_eq!(rt; text.as_str(), "1>5:70,1>4:80,7>5:90,");
    Ok(())
}

// What 5 receives of all that is sent, each message with a comma.
fn inbox_of_five(alloc: Global, combiner: AnyCombiner) -> Result<String, Memory> {
    let changes = four(alloc)?;
    let mut text = String::new(alloc);
    if let Some((senders, sent)) = changes.all_sent(alloc)? {
        let made = bundle(alloc, &OutboxRef::of(senders.as_slice(), sent), &combiner)?;
        let messages = inbox(alloc, &[&made], id(5), &combiner)?;
        for message in messages.as_slice() {
            write!(text, "{message},")?;
        }
    }
    Ok(text)
}

#[test]
fn bundle_of_what_changes_send(rt: HostRuntime) -> Result<(), Memory> {
    let text = inbox_of_five(rt.alloc(), AnyCombiner::NoCombiner)?;
    assert_eq!(rt; text.as_str(), "70,90,");
    let text = inbox_of_five(rt.alloc(), AnyCombiner::Min)?;
    assert_eq!(rt; text.as_str(), "70,");
    Ok(())
}
