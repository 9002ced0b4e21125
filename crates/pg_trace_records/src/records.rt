//! The records of a superstep as they are kept.
ghost use Rattle.std.specs.Prelude.{◌≡◌, ◌++◌, ◌∷◌, [], ℕ, false, map, None, Some, IfOk, OnOk};
ghost use Rattle.std.specs.List.Sorted.{IsStrictlySortedBy};
ghost use Rattle.std.specs.Map.{keys_of};
ghost use Rattle.std.specs.Option.{option_copied};
ghost use Rattle.std.specs.Ordering.{nat_cmp};
ghost use Rattle.pg_map.specs.Entries.{ChangesRise, HasRisingIds, value_at, with_changes, somes};
ghost use Rattle.pg_model.specs.Superstep.{has_id};
ghost use Rattle.pg_trace_records.specs.Records.{unhalted_after, contributions_of};

use crate::change::RecordChange;
use crate::changes::RecordChanges;
use crate::record::RecordRef;
use pg_graph::{Memory, VertexId};
use pg_map::{Cursor, Map};
use pg_model::Place;
use std::alloc::Global;
use std::marker::Model;
use std::sync::Arc;

/// The records of a superstep: those that its executions gave, side by side, and what is changed of them since, in a
/// map over them. Copies share both. A contract sees the list of (id, record), by rising id.
pub struct Records<V, M> {
    given: Arc<RecordChanges<V, M>>,
    changes: Map<RecordChange<V, M>>,
}

// By hand, so that it is let go by one call wherever that is, and not field by field.
impl<V: Drop, M: Drop> Drop for Records<V, M> {
    fn drop(self) {
        let Records {
            given: _,
            changes: _,
        } = self;
    }
}

impl<V, M> Model for Records<V, M> {
    ghost use Rattle.std.specs.Prelude.{ℕ, List, []};
    ghost use Rattle.std.specs.Arc.{arc_value};
    ghost use Rattle.pg_map.specs.Entries.{ChangesRise, with_changes};
    ghost use Rattle.pg_model.specs.declared.record.Record.{Record};

    ghost Value = { List (ℕ × Record V M) };

    ghost view = { λ r. with_changes r.changes (with_changes (arc_value r.given) []) };

    ghost invariant = { λ r. ChangesRise (arc_value r.given) × ChangesRise r.changes };
}

impl<V: Drop, M: Drop> Records<V, M> {
    /// The records that these changes give. Room that they don't take is let go of, which may move what is sent.
    pub fn of(alloc: Global, given: RecordChanges<V, M>) -> Result<Records<V, M>, Memory>
        requires { ChangesRise given }
        ensures { IfOk result (λ records. records ≡ with_changes given []) }
    {
        let mut given = given;
        given.shrink_to_fit();
        Ok(Records {
            given: Arc::new(alloc, given)?,
            changes: Map::new(),
        })
    }

    /// A copy of the records, which shares their memory. Costs O(1).
    pub fn cheap_clone(&self) -> Result<Records<V, M>, Memory>
        ensures records { IfOk result (λ records. records ≡ self.now) }
        ensures rising { HasRisingIds self.now }
    {
        Ok(Records {
            given: Arc::try_clone(&self.given)?,
            changes: self.changes.cheap_clone()?,
        })
    }

    /// The record of a vertex, if there is one. Where nothing was changed and it stands at the place where it is looked
    /// for first it costs O(1); else a binary search, or two.
    #[inline(always)]
    pub fn get(&self, id: VertexId, near: usize) -> Option<RecordRef<'_, V, M>>
        ensures { result ≡ value_at id self.now }
    {
        match change_at(&self.changes, id) {
            Some(change) => change.record(),
            None => self.given.given(id, near),
        }
    }

    /// A copy of these records with changes. It costs a copy of the chunks of the map that are changed, and with no
    /// change nothing.
    pub fn changed(
        &self,
        alloc: Global,
        changes: RecordChanges<V, M>,
    ) -> Result<Records<V, M>, Memory>
        requires { ChangesRise changes }
        ensures records { IfOk result (λ records. records ≡ with_changes changes self.now) }
        ensures rising { HasRisingIds self.now }
    {
        if changes.len() == 0 {
            return self.cheap_clone();
        }
        let mut over = self.changes.cheap_clone()?;
        let changes = each_of(alloc, changes)?;
        over.change(alloc, changes.as_slice())?;
        Ok(Records {
            given: Arc::try_clone(&self.given)?,
            changes: over,
        })
    }

    /// References to all of them. Where nothing was changed it costs O(1) each; else a look-up each besides.
    pub fn listed(&self, alloc: Global) -> Result<Vec<(VertexId, RecordRef<'_, V, M>)>, Memory>
        ensures records { IfOk result (λ found. found.items ≡ self.now) }
        ensures rising { HasRisingIds self.now }
    {
        if self.changes.len() == 0 {
            return given_by(alloc, &self.given);
        }
        let ids = ids_of_both(alloc, &self.given, &self.changes)?;
        found(alloc, &self.given, &self.changes, ids.as_slice())
    }

    /// What all of them contributed, by rising id and of each in the order given. Costs a look at each record, and
    /// where something was changed what `listed` does.
    pub fn contributions(&self, alloc: Global) -> Result<Vec<(Place, i64)>, Memory>
        ensures { IfOk result (λ all. all.items ≡ contributions_of self.now) }
    {
        if self.changes.len() == 0 {
            return contributions_by(alloc, &self.given);
        }
        let records = self.listed(alloc)?;
        contributions_among(alloc, records.as_slice())
    }

    /// The ids of those that weren't halted by what they gave. Where nothing was changed it costs a look at each
    /// record.
    pub fn unhalted(&self, alloc: Global) -> Result<Vec<VertexId>, Memory>
        ensures ids { IfOk result (λ ids. ids.items ≡ unhalted_after self.now) }
        ensures rising { HasRisingIds self.now }
    {
        if self.changes.len() == 0 {
            return unhalted_by(alloc, &self.given);
        }
        let records = self.listed(alloc)?;
        unhalted_among(alloc, records.as_slice())
    }
}

/// The records of those of these vertices that have one by what is given and what is changed of that, where no other
/// has one. Each is looked for near the one before it.
fn found<'a, V: Drop, M: Drop>(
    alloc: Global,
    given: &'a RecordChanges<V, M>,
    changes: &'a Map<RecordChange<V, M>>,
    ids: &[VertexId],
) -> Result<Vec<(VertexId, RecordRef<'a, V, M>)>, Memory>
    requires given { ChangesRise given.now }
    requires changes { ChangesRise changes.now }
    requires rise { IsStrictlySortedBy nat_cmp ids.now }
    requires all { (id : ℕ) → has_id ids.now id ≡ false
        → value_at id (with_changes changes.now (with_changes given.now [])) ≡ None }
    ensures { IfOk result (λ found. found.items ≡ with_changes changes.now (with_changes given.now [])) }
{
    let mut all = Vec::with_capacity(alloc, ids.len())?;
    let mut cursor = changes.cursor();
    for id in ids {
        let record = found_by(&mut cursor, given, *id, all.len());
        add_if_any(&mut all, *id, record)?;
    }
    Ok(all)
}

/// What is changed of a vertex, if anything is. Where nothing is changed it costs O(1).
#[inline(always)]
fn change_at<V, M>(changes: &Map<RecordChange<V, M>>, id: VertexId) -> Option<&RecordChange<V, M>>
    ensures { option_copied result ≡ value_at id changes.now }
{
    if changes.len() == 0 {
        return None;
    }
    changes.get(id)
}

/// The record of a vertex, if there is one: what is changed, else what is given.
fn found_by<'a, V: Drop, M: Drop>(
    changes: &mut Cursor<'a, RecordChange<V, M>>,
    given: &'a RecordChanges<V, M>,
    id: VertexId,
    near: usize,
) -> Option<RecordRef<'a, V, M>>
    requires given { ChangesRise given.now }
    requires changes { ChangesRise changes.old }
    ensures found { result ≡ value_at id (with_changes changes.old (with_changes given.now [])) }
    ensures same { changes.new ≡ changes.old }
{
    match changes.get(id) {
        Some(change) => change.record(),
        None => given.given(id, near),
    }
}

/// References to the records that changes give.
fn given_by<V: Drop, M: Drop>(
    alloc: Global,
    given: &RecordChanges<V, M>,
) -> Result<Vec<(VertexId, RecordRef<'_, V, M>)>, Memory>
    requires { ChangesRise given.now }
    ensures { IfOk result (λ all. all.items ≡ with_changes given.now []) }
{
    let mut all = Vec::with_capacity(alloc, given.len())?;
    for place in 0..given.len() {
        let (id, record) = given.at(place);
        add_if_any(&mut all, id, record)?;
    }
    Ok(all)
}

/// Adds the record of a vertex, if it has one.
fn add_if_any<'a, V: Drop, M: Drop>(
    all: &mut Vec<(VertexId, RecordRef<'a, V, M>)>,
    id: VertexId,
    given: Option<RecordRef<'a, V, M>>,
) -> Result<(), Memory>
    ensures { OnOk result (all.new.items ≡ all.old.items ++ somes ((id, given.entry) ∷ [])) }
{
    if let Some(record) = given {
        all.push((id, record))?;
    }
    Ok(())
}

/// What is contributed by the records that changes give.
fn contributions_by<V: Drop, M: Drop>(
    alloc: Global,
    given: &RecordChanges<V, M>,
) -> Result<Vec<(Place, i64)>, Memory>
    requires { ChangesRise given.now }
    ensures { IfOk result (λ all. all.items ≡ contributions_of (with_changes given.now [])) }
{
    let mut all = Vec::with_capacity(alloc, given.contribution_count())?;
    for place in 0..given.len() {
        let (id, record) = given.at(place);
        add_contributed(&mut all, id, &record)?;
    }
    Ok(all)
}

/// What is contributed by these records.
fn contributions_among<V: Drop, M: Drop>(
    alloc: Global,
    records: &[(VertexId, RecordRef<'_, V, M>)],
) -> Result<Vec<(Place, i64)>, Memory>
    ensures { IfOk result (λ all. all.items ≡ contributions_of records.now) }
{
    let mut all = Vec::new(alloc);
    for (_, record) in records {
        add_all(&mut all, record.contributed())?;
    }
    Ok(all)
}

/// Adds what a vertex contributes by its record, if it has one.
fn add_contributed<V: Drop, M: Drop>(
    all: &mut Vec<(Place, i64)>,
    id: VertexId,
    given: &Option<RecordRef<'_, V, M>>,
) -> Result<(), Memory>
    ensures { OnOk result (all.new.items ≡ all.old.items ++ contributions_of (somes ((id, given.now) ∷ []))) }
{
    if let Some(record) = given {
        add_all(all, record.contributed())?;
    }
    Ok(())
}

/// Adds contributions one by one, since mostly there is one or none.
fn add_all(all: &mut Vec<(Place, i64)>, more: &[(Place, i64)]) -> Result<(), Memory>
    ensures { OnOk result (all.new.items ≡ all.old.items ++ more.now) }
{
    for contribution in more {
        all.push(*contribution)?;
    }
    Ok(())
}

/// The vertices of what executions gave, and of what is changed of that, by rising id.
fn ids_of_both<V: Drop, M: Drop>(
    alloc: Global,
    given: &RecordChanges<V, M>,
    changes: &Map<RecordChange<V, M>>,
) -> Result<Vec<VertexId>, Memory>
    ensures rise { IfOk result (λ ids. IsStrictlySortedBy nat_cmp ids.items) }
    ensures given { IfOk result (λ ids. (id : ℕ) → has_id ids.items id ≡ false → value_at id given.now ≡ None) }
    ensures changes { IfOk result (λ ids. (id : ℕ) → has_id ids.items id ≡ false → value_at id changes.now ≡ None) }
{
    let mut ids = Vec::with_capacity(alloc, given.len())?;
    add_given_ids(&mut ids, given)?;
    add_ids(&mut ids, changes)?;
    ids.sort()?;
    ids.dedup();
    Ok(ids)
}

/// Adds the ids of changes.
fn add_given_ids<V: Drop, M: Drop>(
    ids: &mut Vec<VertexId>,
    given: &RecordChanges<V, M>,
) -> Result<(), Memory>
    ensures { OnOk result (ids.new.items ≡ ids.old.items ++ keys_of given.now) }
{
    for place in 0..given.len() {
        let (id, _) = given.at(place);
        ids.push(id)?;
    }
    Ok(())
}

/// Adds the ids of a map.
fn add_ids<X>(ids: &mut Vec<VertexId>, map: &Map<X>) -> Result<(), Memory>
    ensures { OnOk result (ids.new.items ≡ ids.old.items ++ keys_of map.now) }
{
    for id in map.ids() {
        ids.push(*id)?;
    }
    Ok(())
}

/// The ids of those that weren't halted by what changes give them.
fn unhalted_by<V: Drop, M: Drop>(
    alloc: Global,
    given: &RecordChanges<V, M>,
) -> Result<Vec<VertexId>, Memory>
    requires { ChangesRise given.now }
    ensures { IfOk result (λ ids. ids.items ≡ unhalted_after (with_changes given.now [])) }
{
    let mut unhalted = Vec::new(alloc);
    for place in 0..given.len() {
        let (id, record) = given.at(place);
        add_if_unhalted(&mut unhalted, id, &record)?;
    }
    Ok(unhalted)
}

/// The ids of those of these that weren't halted by what they gave.
fn unhalted_among<V: Drop, M: Drop>(
    alloc: Global,
    records: &[(VertexId, RecordRef<'_, V, M>)],
) -> Result<Vec<VertexId>, Memory>
    ensures { IfOk result (λ ids. ids.items ≡ unhalted_after records.now) }
{
    let mut unhalted = Vec::new(alloc);
    for (id, record) in records {
        if !record.halted() {
            unhalted.push(*id)?;
        }
    }
    Ok(unhalted)
}

/// Adds the id of a vertex that has a record, and wasn't halted by it.
fn add_if_unhalted<V: Drop, M: Drop>(
    unhalted: &mut Vec<VertexId>,
    id: VertexId,
    given: &Option<RecordRef<'_, V, M>>,
) -> Result<(), Memory>
    ensures { OnOk result (unhalted.new.items ≡ unhalted.old.items ++ unhalted_after (somes ((id, given.now) ∷ []))) }
{
    if let Some(record) = given {
        if !record.halted() {
            unhalted.push(id)?;
        }
    }
    Ok(())
}

/// Each of these changes by itself, in their memory.
fn each_of<V: Drop, M: Drop>(
    alloc: Global,
    changes: RecordChanges<V, M>,
) -> Result<Vec<(VertexId, Option<RecordChange<V, M>>)>, Memory>
    ensures { IfOk result (λ each. each.items ≡ map (λ c. (c.0, Some c.1)) changes) }
{
    let mut changes = changes;
    changes.shrink_to_fit();
    let all = Arc::new(alloc, changes)?;
    let mut each = Vec::with_capacity(alloc, all.len())?;
    for place in 0..all.len() {
        let (id, _) = all.at(place);
        let change = RecordChange {
            all: Arc::try_clone(&all)?,
            place,
        };
        each.push((id, Some(change)))?;
    }
    Ok(each)
}
