//! Programs of which is noted which vertices are called.
ghost use Rattle.std.specs.Prelude.{◌≡◌, IfOk};

use pg_graph::{Memory, Superstep, VertexId};
use std::alloc::Global;
use std::fmt::Write;
use std::sync::atomic::{AtomicU64, Ordering};
use std::test::Fail;
use tests_kit::{Heard, Listener, Moment};

/// The supersteps whose calls are counted apart.
const SUPERSTEPS: u32 = 3;

/// The ids that are counted apart, from 0 on.
const IDS: u32 = 10;

/// The listener that counts how often each vertex is called in each superstep.
#[derive(Drop)]
pub(crate) struct Notes {
    calls: Vec<Vec<AtomicU64>>,
    others: AtomicU64,
}

// So many counters at zero.
fn counters(alloc: Global) -> Result<Vec<AtomicU64>, Memory> {
    let mut row = Vec::new(alloc);
    for _ in 0..IDS {
        row.push(AtomicU64::new(0))?;
    }
    Ok(row)
}

impl Notes {
    // No call so far.
    fn new(alloc: Global) -> Result<Notes, Memory> {
        let mut calls = Vec::new(alloc);
        for _ in 0..SUPERSTEPS {
            calls.push(counters(alloc)?)?;
        }
        Ok(Notes {
            calls,
            others: AtomicU64::new(0),
        })
    }

    // Counts a call. One that has no count of its own is counted too.
    fn note(&self, superstep: Superstep, vertex: VertexId) {
        let row = match self.calls.get(superstep.number() as usize) {
            Some(row) => row.get(vertex.number() as usize),
            None => None,
        };
        match row {
            Some(count) => count.fetch_add(1, Ordering::SeqCst),
            None => self.others.fetch_add(1, Ordering::SeqCst),
        };
    }

    /// The calls as a text: each as superstep and vertex, with how many times where it isn't once.
    pub(crate) fn reported(&self, alloc: Global) -> Result<String, Fail> {
        let mut text = String::new(alloc);
        let mut superstep = 0u32;
        for row in &self.calls {
            tell_row(&mut text, superstep, row.as_slice())?;
            superstep = superstep.saturating_add(1);
        }
        let others = self.others.load(Ordering::SeqCst);
        write!(text, "others {others}")?;
        Ok(text)
    }
}

// Adds the calls of a superstep.
fn tell_row(text: &mut String, superstep: u32, row: &[AtomicU64]) -> Result<(), Fail> {
    let mut id = 0u32;
    for count in row {
        tell_count(text, superstep, id, count.load(Ordering::SeqCst))?;
        id = id.saturating_add(1);
    }
    Ok(())
}

// Adds the calls of a vertex in a superstep, if there are any.
fn tell_count(text: &mut String, superstep: u32, id: u32, count: u64) -> Result<(), Fail> {
    if count == 1 {
        write!(text, "{superstep}:{id} ")?;
    } else if count > 1 {
        write!(text, "{superstep}:{id}*{count} ")?;
    }
    Ok(())
}

impl Listener for Notes {
    fn hear(&self, moment: Moment) -> Result<(), Memory> {
        if let Moment::Compute(superstep, vertex) = moment {
            self.note(superstep, vertex);
        }
        Ok(())
    }
}

/// A program whose calls are noted.
pub(crate) type Noting<P> = Heard<P, Notes>;

/// The program that does what this one does, without a call so far.
pub(crate) fn noting<P: Drop>(alloc: Global, inner: P) -> Result<Noting<P>, Memory>
    ensures { IfOk result (λ noting. noting.inner ≡ inner) }
{
    let listener = Notes::new(alloc)?;
    Ok(Heard { inner, listener })
}
