//! One change among those of a superstep.
ghost use Rattle.std.specs.Prelude.{◌≡◌, ◌<◌, IfOk};
ghost use Rattle.std.specs.Arc.{arc_value};

use crate::changes::RecordChanges;
use crate::record::RecordRef;
use pg_graph::Memory;
use pg_map::CheapClone;
use std::alloc::Global;
use std::marker::Model;
use std::sync::Arc;

/// One change among those of a superstep, in their memory, which copies share: a record, or none.
#[derive(Drop)]
pub(crate) struct RecordChange<V, M> {
    pub(crate) all: Arc<RecordChanges<V, M>>,
    pub(crate) place: usize,
}

impl<V, M> Model for RecordChange<V, M> {
    ghost use Rattle.std.specs.Prelude.{Option, length, ◌<◌};
    ghost use Rattle.std.specs.Arc.{arc_value};
    ghost use Rattle.pg_model.specs.declared.record.Record.{Record};
    ghost use Rattle.pg_trace_records.specs.RecordChanges.{given_at};

    ghost Value = { Option (Record V M) };

    ghost view = { λ c. given_at c.place (arc_value c.all) };

    ghost invariant = { λ c. c.place < length (arc_value c.all) };
}

impl<V: Drop, M: Drop> CheapClone for RecordChange<V, M> {
    fn cheap_clone(&self, _alloc: Global) -> Result<RecordChange<V, M>, Memory> {
        Ok(RecordChange {
            all: Arc::try_clone(&self.all)?,
            place: self.place,
        })
    }
}

impl<V: Drop, M: Drop> RecordChange<V, M> {
    /// The record, if there is one.
    #[inline(always)]
    pub(crate) fn record(&self) -> Option<RecordRef<'_, V, M>>
        ensures { result ≡ self.now }
    {
        let (_, given) = self.all.at(self.place);
        given
    }
}
