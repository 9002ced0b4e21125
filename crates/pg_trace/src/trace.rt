//! The trace of a partition's run.
ghost use Rattle.std.specs.Prelude.{◌≡◌, length, map, ◌<◌, ◌≤◌, IfOk, OnOk, OnErr};
ghost use Rattle.pg_map.specs.Entries.{ChangesRise, HasRisingIds};
ghost use Rattle.pg_trace.specs.Beginning.{ChangesById, with_first};
ghost use Rattle.pg_trace.specs.OfRun.{IsOfRun};
ghost use Rattle.pg_trace_records.specs.Records.{unhalted_after, contributions_of};
ghost use Rattle.pg_trace.specs.Trace.{StatesRise, begun, record_at, records_of, state_at, reaching, with_superstep};
ghost use Rattle.pg_trace.specs.Trace.{first_supersteps, with_replaced};

use crate::StateRef;
use crate::beginnings::Beginnings;
use crate::records::{all_changed, all_given, cut_index, put_records, shared};
use crate::states::StateCursor;
use pg_graph::{Memory, Superstep, VertexId, checked_u32};
use pg_model::{Place, Record, VertexState};
use pg_trace_index::Index;
use pg_trace_records::{RecordChanges, RecordRef, Records};
use std::alloc::Global;
use std::marker::Model;

/// What a run leaves of one partition: the states with which it began, and superstep by superstep
/// the records of the vertices that ran. A contract sees both as lists by rising id.
///
/// No other state is kept: that of a vertex as a superstep begins is what its last record before it
/// produced. An index says of each vertex in which supersteps it ran. What `recorded` notes in it lies
/// outside the memory that copies share, and is put into that once, where the trace is sealed.
pub struct Trace<V, M> {
    initial: Beginnings<V>,
    supersteps: Vec<Records<V, M>>,
    ran: Index,
}

// By hand, so that it is let go by one call wherever that is, and not field by field.
impl<V: Drop, M: Drop> Drop for Trace<V, M> {
    fn drop(self) {
        let Trace {
            initial: _,
            supersteps: _,
            ran: _,
        } = self;
    }
}

impl<V, M> Model for Trace<V, M> {
    ghost use Rattle.pg_trace.specs.Trace.{Trace};

    ghost Value = { Trace V M };

    ghost use Rattle.pg_trace_index.specs.Occurrences.{IsIndex};

    ghost view = { λ t. record { initial = t.initial; records = t.supersteps.items } };

    ghost invariant = { λ t. IsIndex t.supersteps.items t.ran };
}

impl<V: Drop, M: Drop> Trace<V, M> {
    /// A trace of no superstep yet, with the states of the vertices by rising id.
    pub fn new(alloc: Global, initial: Vec<VertexState<V>>) -> Result<Trace<V, M>, Memory>
        requires { StatesRise initial.items }
        ensures { IfOk result (λ trace. trace ≡ begun initial.items) }
    {
        let initial = Beginnings::of(alloc, initial)?;
        Ok(Trace {
            initial,
            supersteps: Vec::new(alloc),
            ran: Index::new(alloc),
        })
    }

    /// A trace of the same records, with other first states of these vertices, by rising id, or none. Copies the chunks
    /// with these ids, and shares all else, as `cheap_clone` does.
    pub fn restarted(
        &self,
        alloc: Global,
        changes: Vec<(VertexId, Option<VertexState<V>>)>,
    ) -> Result<Trace<V, M>, Memory>
        requires rise { ChangesRise changes.items }
        requires by_id { ChangesById changes.items }
        ensures { IfOk result (λ trace.
            trace ≡ record self.now { initial = with_first changes.items self.now.initial }) }
    {
        let initial = self.initial.changed(alloc, changes)?;
        let shared = self.cheap_clone(alloc)?;
        Ok(shared.begun_with(initial))
    }

    /// These records after other first states.
    fn begun_with(self, initial: Beginnings<V>) -> Trace<V, M>
        ensures { result ≡ record self { initial = initial } }
    {
        let Trace {
            initial: _,
            supersteps,
            ran,
        } = self;
        Trace {
            initial,
            supersteps,
            ran,
        }
    }

    /// How many supersteps it has.
    pub fn supersteps(&self) -> usize
        ensures { result ≡ length self.now.records }
    {
        self.supersteps.len()
    }

    /// The ids of the vertices with which it began, rising.
    pub fn initial_ids(&self, alloc: Global) -> Result<Vec<VertexId>, Memory>
        ensures ids { IfOk result (λ ids. ids.items ≡ map (λ x. x.id) self.now.initial) }
        ensures rising { StatesRise self.now.initial }
    {
        self.initial.ids(alloc)
    }

    /// The record of a vertex in a superstep, if it ran in it. Costs two binary searches.
    pub fn record_at(&self, id: VertexId, superstep: Superstep) -> Option<RecordRef<'_, V, M>>
        ensures { result ≡ record_at id superstep self.now }
    {
        let records = self.supersteps.get(superstep.number() as usize)?;
        records.get(id, 0)
    }

    /// The state of a vertex as a superstep begins: that of its last record before it, else its
    /// initial one. There is none where it has neither. Costs five binary searches at most; in a first run that isn't
    /// sealed, a step for each record of the vertex from that superstep on.
    ///
    /// Where the trace holds a run so far, it is the state in that run.
    pub fn state_at(&self, id: VertexId, superstep: Superstep) -> Option<StateRef<'_, V>>
        ensures value { result ≡ state_at id superstep self.now }
        ensures run { IsOfRun self.now id superstep result }
    {
        self.states().state_at(id, superstep)
    }

    /// Look-ups of states that come near one another.
    pub fn states(&self) -> StateCursor<'_, V, M>
        ensures { result ≡ self.now }
    {
        StateCursor::of(&self.initial, &self.ran, self.supersteps.as_slice())
    }

    /// A copy of the trace, which shares its memory. Costs one count a superstep; where the trace isn't sealed, also a
    /// copy of what was noted since, and of the chunks of the index with these vertices; in a first run O(1) a record.
    pub fn cheap_clone(&self, alloc: Global) -> Result<Trace<V, M>, Memory>
        ensures { IfOk result (λ trace. trace ≡ self.now) }
    {
        let initial = self.initial.cheap_clone()?;
        let supersteps = shared(alloc, self.supersteps.as_slice())?;
        let ran = self.ran.cheap_clone(alloc)?;
        Ok(Trace {
            initial,
            supersteps,
            ran,
        })
    }

    /// The trace, whose copies share all its memory from now on. Costs O(1) where nothing was recorded since it
    /// was sealed or restarted; else one change of the index, of the chunks with the vertices that were recorded. For a
    /// new trace that is O(1) a record.
    pub fn sealed(self, alloc: Global) -> Result<Trace<V, M>, Memory>
        ensures { IfOk result (λ trace. trace ≡ self) }
    {
        let Trace {
            initial,
            supersteps,
            ran,
        } = self;
        let ran = ran.sealed(alloc)?;
        Ok(Trace {
            initial,
            supersteps,
            ran,
        })
    }

    /// The trace with these changes of the records of a superstep, which it has or which comes next: each of these
    /// vertices, by rising id, has its new record there, or none. The trace is gone where memory is refused.
    ///
    /// Whether the trace is new or restarted, the changes cost a look-up each in the index, and nothing is copied that
    /// isn't changed: of a vertex for which nothing was recorded since the trace was new or restarted the numbers of
    /// its supersteps, and of a superstep that the trace has the chunks with these vertices.
    pub fn recorded(
        self,
        alloc: Global,
        superstep: Superstep,
        changes: RecordChanges<V, M>,
    ) -> Result<Trace<V, M>, Memory>
        requires rise { ChangesRise changes }
        requires within { superstep ≤ length self.records }
        ensures { IfOk result
            (λ after. after ≡ with_replaced superstep changes (reaching superstep self)) }
    {
        let Trace {
            initial,
            supersteps,
            ran,
        } = self;
        let number = superstep.number();
        let places = changes.places(alloc)?;
        let ran = ran.noted(alloc, number, places.as_slice())?;
        let supersteps = put_records(alloc, supersteps, number as usize, changes)?;
        Ok(Trace {
            initial,
            supersteps,
            ran,
        })
    }

    /// The records of a superstep, by rising id; none where it hasn't that superstep. Costs O(1) a
    /// record.
    pub fn records(
        &self,
        alloc: Global,
        superstep: Superstep,
    ) -> Result<Vec<(VertexId, RecordRef<'_, V, M>)>, Memory>
        ensures records { IfOk result (λ found. found.items ≡ records_of superstep self.now) }
        ensures rising { HasRisingIds (records_of superstep self.now) }
    {
        match self.supersteps.get(superstep.number() as usize) {
            Some(records) => records.listed(alloc),
            None => Ok(Vec::new(alloc)),
        }
    }

    /// What the vertices contribute in a superstep, by rising id and of each in the order given; nothing where it
    /// hasn't that superstep. Costs a look at each record; where the superstep was changed, a merge of their ids and a
    /// look-up of each besides.
    pub fn contributions(
        &self,
        alloc: Global,
        superstep: Superstep,
    ) -> Result<Vec<(Place, i64)>, Memory>
        ensures { IfOk result (λ all. all.items ≡ contributions_of (records_of superstep self.now)) }
    {
        match self.supersteps.get(superstep.number() as usize) {
            Some(records) => records.contributions(alloc),
            None => Ok(Vec::new(alloc)),
        }
    }

    /// The ids of the vertices that weren't halted by their records of a superstep, rising. Costs a look at each
    /// record.
    pub fn unhalted_after(
        &self,
        alloc: Global,
        superstep: Superstep,
    ) -> Result<Vec<VertexId>, Memory>
        ensures ids { IfOk result (λ ids. ids.items ≡ unhalted_after (records_of superstep self.now)) }
        ensures rising { HasRisingIds (records_of superstep self.now) }
    {
        match self.supersteps.get(superstep.number() as usize) {
            Some(records) => records.unhalted(alloc),
            None => Ok(Vec::new(alloc)),
        }
    }

    /// Adds a superstep with the records of the vertices that ran in it, by rising id. Nothing
    /// changes where memory is refused.
    ///
    /// For k records it costs k look-ups, a copy of the numbers of the supersteps in which these
    /// vertices ran, and a change of the index: of the chunks with these vertices. Where the trace isn't sealed, its
    /// index is sealed first.
    pub fn push_superstep(
        &mut self,
        alloc: Global,
        records: Vec<(VertexId, Record<V, M>)>,
    ) -> Result<(), Memory>
        requires { HasRisingIds records.items }
        ensures ok { OnOk result (self.new ≡ with_superstep records.items self.old) }
        ensures err { OnErr result (self.new ≡ self.old) }
    {
        let given = all_given(alloc, records)?;
        let places = given.places(alloc)?;
        let superstep = checked_u32(self.supersteps.len())?;
        let ran = self.ran.noted_warm(alloc, superstep, places.as_slice())?;
        let records = Records::of(alloc, given)?;
        self.supersteps.push(records)?;
        self.ran = ran;
        Ok(())
    }

    /// Keeps the first supersteps, so many, or all where there are fewer. Nothing changes where
    /// memory is refused. For each record that goes it costs a look-up and a copy of the numbers of the supersteps in
    /// which its vertex ran; and in all one change of the index, of the chunks with these vertices. Where the trace
    /// isn't sealed, its index is sealed first.
    pub fn cut(&mut self, alloc: Global, supersteps: Superstep) -> Result<(), Memory>
        ensures ok { OnOk result (self.new ≡ first_supersteps supersteps self.old) }
        ensures err { OnErr result (self.new ≡ self.old) }
    {
        let len = supersteps.number() as usize;
        if len >= self.supersteps() {
            return Ok(());
        }
        let ran = cut_index(alloc, &self.ran, self.supersteps.as_slice(), len)?;
        self.supersteps.truncate(len);
        self.ran = ran;
        Ok(())
    }

    /// Changes the records of a superstep that it has: each of these vertices, by rising id, has its
    /// new record there, or none. Nothing changes where memory is refused.
    ///
    /// With no change it costs nothing. For k changes it costs k look-ups, a copy of the numbers of the supersteps in
    /// which these vertices ran, and a change of the index and of the superstep: of the chunks with these vertices. The
    /// others stay unread. Where the trace isn't sealed, its index is sealed first.
    pub fn replace(
        &mut self,
        alloc: Global,
        superstep: Superstep,
        changes: Vec<(VertexId, Option<Record<V, M>>)>,
    ) -> Result<(), Memory>
        requires rise { ChangesRise changes.items }
        requires within { superstep < length self.old.records }
        ensures ok { OnOk result (self.new ≡ with_replaced superstep changes.items self.old) }
        ensures err { OnErr result (self.new ≡ self.old) }
    {
        if changes.is_empty() {
            return Ok(());
        }
        let number = superstep.number();
        let changes = all_changed(alloc, changes)?;
        let places = changes.places(alloc)?;
        let ran = self.ran.noted_warm(alloc, number, places.as_slice())?;
        let records = self.supersteps[number as usize].changed(alloc, changes)?;
        self.supersteps[number as usize] = records;
        self.ran = ran;
        Ok(())
    }
}
