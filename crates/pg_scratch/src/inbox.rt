//! Messages come to their vertices.
ghost use Rattle.std.specs.Prelude.{◌≡◌, [], ◌≤◌, length, IsSome, IfSome, IfOk};
ghost use Rattle.std.specs.Prelude.{OnOk};
ghost use Rattle.pg_scratch.specs.Inbox.{with_message, combined_so_far};

use pg_global::MessageCombiner;
use pg_graph::{Memory, VertexId};
use pg_model::{Sequence, VertexWithInbox};
use pg_program::Plain;
use std::alloc::Global;

/// Adds a message to an inbox, which the combiner leaves one message at most.
#[inline]
pub(crate) fn put<M: Plain, C: MessageCombiner<M>>(
    alloc: Global,
    combiner: &C,
    inbox: &mut Sequence<M>,
    message: M,
) -> Result<(), Memory>
    requires { IsSome (C.combining combiner.now) → length inbox.old ≤ 1 }
    ensures { OnOk result (inbox.new ≡ with_message (C.combining combiner.now) inbox.old message) }
{
    if combiner.combines() {
        let before = take_before(alloc, combiner, inbox)?;
        let after = combined(alloc, combiner, before, &message)?;
        inbox.push(after)?;
        return Ok(());
    }
    inbox.push(message)?;
    Ok(())
}

/// Takes from an inbox of at most one message what the messages so far came to.
fn take_before<M: Plain, C: MessageCombiner<M>>(
    alloc: Global,
    combiner: &C,
    inbox: &mut Sequence<M>,
) -> Result<M, Memory>
    requires combines { IsSome (C.combining combiner.now) }
    requires single { length inbox.old ≤ 1 }
    ensures value { IfOk result
        (λ m. IfSome (C.combining combiner.now) (λ c. m ≡ combined_so_far c inbox.old)) }
    ensures taken { OnOk result (inbox.new ≡ []) }
{
    match inbox.pop() {
        Some(before) => Ok(before),
        None => {
            let initial = combiner.initial_message(alloc)?;
            Ok(initial)
        }
    }
}

/// What a message makes of what the messages before it came to.
fn combined<M: Plain, C: MessageCombiner<M>>(
    alloc: Global,
    combiner: &C,
    mut before: M,
    message: &M,
) -> Result<M, Memory>
    requires { IsSome (C.combining combiner.now) }
    ensures { IfOk result
        (λ m. IfSome (C.combining combiner.now) (λ c. m ≡ c.combine before message.now)) }
{
    combiner.combine(alloc, &mut before, message)?;
    Ok(before)
}
