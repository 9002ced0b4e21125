//! Programs whose calls are listened to, and may be refused memory.
use pg_graph::{Memory, Superstep, VertexId};
use pg_model::Declared;
use pg_program::{Computation, Cx, Vertex};
use std::alloc::{AllocError, Global};
use std::sync::atomic::{AtomicU64, Ordering};

/// What a program is about to do.
#[derive(Clone, Copy)]
pub enum Moment {
    /// It gives a vertex its first value.
    Begin,
    /// It computes this vertex in this superstep.
    Compute(Superstep, VertexId),
}

/// Who listens to a program. Where it answers that it is out of memory, so does the program.
pub trait Listener: Sync {
    /// Hears of a moment before it comes.
    fn hear(&self, moment: Moment) -> Result<(), Memory>;
}

/// A program that does what another does, and has a listener hear of it first.
#[derive(Drop)]
pub struct Heard<P, L> {
    pub inner: P,
    pub listener: L,
}

impl<P: Computation, L: Listener> Computation for Heard<P, L> {
    type Value = P::Value;

    type Message = P::Message;

    ghost program = { λ heard. P.program heard.inner };

    fn declared(&self) -> Declared {
        self.inner.declared()
    }

    fn initial(&self, alloc: Global, id: VertexId, input: i64) -> Result<P::Value, Memory> {
        self.listener.hear(Moment::Begin)?;
        self.inner.initial(alloc, id, input)
    }

    fn compute(
        &self,
        alloc: Global,
        vertex: &mut Vertex<P::Value>,
        messages: &[P::Message],
        cx: &mut Cx<P::Message>,
    ) -> Result<(), Memory> {
        self.listener
            .hear(Moment::Compute(cx.superstep(), vertex.id()))?;
        self.inner.compute(alloc, vertex, messages, cx)
    }
}

/// The listener that is out of memory once: at one call of compute, or as one vertex begins.
#[derive(Drop)]
pub struct Starving {
    call: u64,
    calls: AtomicU64,
    beginning: u64,
    begun: AtomicU64,
}

// No call and no vertex has this number.
const NONE: u64 = u64::MAX;

impl Starving {
    /// Out of memory at this call, by number from 0 on.
    pub fn at_call(call: u64) -> Starving {
        Starving {
            call,
            calls: AtomicU64::new(0),
            beginning: NONE,
            begun: AtomicU64::new(0),
        }
    }

    /// Out of memory as this vertex begins, by number from 0 on.
    pub fn as_it_begins(beginning: u64) -> Starving {
        Starving {
            call: NONE,
            calls: AtomicU64::new(0),
            beginning,
            begun: AtomicU64::new(0),
        }
    }
}

impl Listener for Starving {
    fn hear(&self, moment: Moment) -> Result<(), Memory> {
        let is_refused = match moment {
            Moment::Begin => self.begun.fetch_add(1, Ordering::SeqCst) == self.beginning,
            Moment::Compute(_, _) => self.calls.fetch_add(1, Ordering::SeqCst) == self.call,
        };
        if is_refused {
            return Err(AllocError);
        }
        Ok(())
    }
}
