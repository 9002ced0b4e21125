//! What one execution of a vertex gives.
ghost use Rattle.std.specs.Prelude.{◌≡◌, ℕ};

use crate::Sequence;
use pg_graph::{Edges, VertexId};
use std::marker::Model;

/// The place of an aggregator: its number in the order of registration, from 0.
#[derive(Clone, Copy, Debug, PartialEq, Eq, PartialOrd, Ord)]
pub struct Place {
    number: u8,
}

impl Model for Place {
    ghost Value = { ℕ };

    ghost view = { λ p. p.number };

    ghost inverse = { λ n. record { number = n } };
}

impl Place {
    /// The place with this number.
    pub fn new(number: u8) -> Place
        ensures { result ≡ number }
    {
        Place { number }
    }

    /// The number of the place.
    pub fn number(self) -> u8
        ensures { result ≡ self }
    {
        self.number
    }
}

/// What one execution of a vertex gives: the value and out-edges that it leaves, its vote, and what
/// it sent and contributed, in that order.
#[derive(Drop)]
pub struct Record<V, M> {
    pub value: V,
    pub edges: Edges,
    pub halted: bool,
    /// Targets, with a message to each.
    pub sent: Sequence<(VertexId, M)>,
    /// Places of aggregators, with a value for each.
    pub contributed: Sequence<(Place, i64)>,
}
