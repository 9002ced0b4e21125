//! A record, borrowed from where it is kept.
ghost use Rattle.std.specs.Prelude.{◌≡◌};

use pg_graph::{Edges, VertexId};
use pg_model::Place;
use std::marker::Model;

/// What one execution of a vertex gave, borrowed from where it is kept. A contract sees it as a `Record`.
#[derive(Drop)]
pub struct RecordRef<'a, V, M> {
    pub(crate) value: &'a V,
    pub(crate) edges: &'a Edges,
    pub(crate) halted: bool,
    pub(crate) sent: &'a [(VertexId, M)],
    pub(crate) contributed: &'a [(Place, i64)],
}

impl<'a, V, M> Model for RecordRef<'a, V, M> {
    ghost use Rattle.pg_model.specs.declared.record.Record.{Record};

    ghost Value = { Record V M };

    ghost view = { λ r. record {
      value = r.value.now;
      edges = r.edges.now;
      halted = r.halted;
      sent = r.sent.now;
      contributed = r.contributed.now;
    } };
}

impl<'a, V, M> RecordRef<'a, V, M> {
    /// The value that it produced.
    pub fn value(&self) -> &'a V
        ensures { result.now ≡ self.now.value }
    {
        self.value
    }

    /// The out-edges that it produced.
    pub fn edges(&self) -> &'a Edges
        ensures { result.now ≡ self.now.edges }
    {
        self.edges
    }

    /// Its vote.
    pub fn halted(&self) -> bool
        ensures { result ≡ self.now.halted }
    {
        self.halted
    }

    /// What it sent: targets, with a message to each.
    pub fn sent(&self) -> &'a [(VertexId, M)]
        ensures { result.now ≡ self.now.sent }
    {
        self.sent
    }

    /// What it contributed: places of aggregators, with a value for each.
    pub fn contributed(&self) -> &'a [(Place, i64)]
        ensures { result.now ≡ self.now.contributed }
    {
        self.contributed
    }
}
