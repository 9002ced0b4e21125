//! What a superstep makes of the records of vertices, side by side.
ghost use Rattle.std.specs.Prelude.{◌≡◌, ◌++◌, ◌∷◌, ◌+◌, ◌<◌, ◌≤◌, ℕ, [], Option, None, Some, is_some, length};
ghost use Rattle.std.specs.Prelude.{slice_index_or};
ghost use Rattle.std.specs.Prelude.{IfOk, IfErr, IfSome, IfNone, IsTrue, OnErr, OnOk};
ghost use Rattle.std.specs.List.{HoldsAt, flat_map, zip};
ghost use Rattle.std.specs.List.Sorted.{IsPartitionPoint};
ghost use Rattle.std.specs.Ordering.{nat_cmp};
ghost use Rattle.std.specs.declared.cmp.Ordering.TheVariants.{Less, Equal, Greater};
ghost use Rattle.pg_map.specs.Entries.{ChangesRise, HasRisingIds, value_at};
ghost use Rattle.pg_model.specs.declared.record.Record.{Record};
ghost use Rattle.pg_trace_records.specs.RecordChanges.{given_to, messages_by, given_flags};
ghost use Rattle.pg_trace_records.specs.Parts.{AreWithin, AddsSenders, IsPart, changes_in, part_of, record_in};

use crate::record::RecordRef;
use pg_graph::{Edges, Memory, VertexId, checked_u32};
use pg_model::{Place, VertexState};
use std::alloc::{AllocError, Global};
use std::marker::Model;

/// Which part of a list is meant: so many items from a place on.
#[derive(Clone, Copy)]
pub struct Extent {
    pub first: u32,
    pub count: u32,
}

impl Extent {
    /// The items from a place on, up to another. Refused as want of memory is where that takes more than 32 bits.
    #[inline(always)]
    pub fn between(first: usize, end: usize) -> Result<Extent, Memory>
        requires { first ≤ end }
        ensures first { IfOk result (λ part. part.first ≡ first) }
        ensures end { IfOk result (λ part. part.first + part.count ≡ end) }
    {
        if end > u32::MAX as usize {
            return Err(AllocError);
        }
        Ok(Extent {
            first: first as u32,
            count: (end - first) as u32,
        })
    }
}

/// What an execution produced, and which parts of the lists of its superstep it sent and contributed.
#[derive(Drop)]
pub struct Executed<V> {
    pub value: V,
    pub edges: Edges,
    pub halted: bool,
    pub sent: Extent,
    pub contributed: Extent,
}

/// What a superstep makes of the records of vertices: each of them has a new one, or none any more. What they
/// produced lies in one list, what they sent in another, and what they contributed in a third. A contract sees the list
/// of (id, record).
pub struct RecordChanges<V, M> {
    entries: Vec<(VertexId, Option<Executed<V>>)>,
    sent: Vec<(VertexId, M)>,
    contributed: Vec<(Place, i64)>,
}

// By hand, so that it is let go by one call wherever that is, and not field by field.
impl<V: Drop, M: Drop> Drop for RecordChanges<V, M> {
    fn drop(self) {
        let RecordChanges {
            entries: _,
            sent: _,
            contributed: _,
        } = self;
    }
}

impl<V, M> Model for RecordChanges<V, M> {
    ghost use Rattle.std.specs.Prelude.{ℕ, List, Option};
    ghost use Rattle.pg_model.specs.declared.record.Record.{Record};
    ghost use Rattle.pg_trace_records.specs.Parts.{AreWithin, changes_in};

    ghost Value = { List (ℕ × Option (Record V M)) };

    ghost view = { λ c. changes_in c.sent.items c.contributed.items c.entries.items };

    ghost invariant = { λ c. AreWithin c.sent.items c.contributed.items c.entries.items };
}

impl<V: Drop, M: Drop> RecordChanges<V, M> {
    /// No changes, with room for those of so many vertices.
    pub fn new(alloc: Global, vertices: usize) -> Result<RecordChanges<V, M>, Memory>
        ensures { IfOk result (λ changes. changes ≡ []) }
    {
        Ok(RecordChanges {
            entries: Vec::with_capacity(alloc, vertices)?,
            sent: Vec::new(alloc),
            contributed: Vec::new(alloc),
        })
    }

    /// What these vertices produced, or that they have no record any more, with all that was sent and contributed, in
    /// their memory.
    pub fn of(
        produced: Vec<(VertexId, Option<Executed<V>>)>,
        sent: Vec<(VertexId, M)>,
        contributed: Vec<(Place, i64)>,
    ) -> RecordChanges<V, M>
        requires { AreWithin sent.items contributed.items produced.items }
        ensures { result ≡ changes_in sent.items contributed.items produced.items }
    {
        RecordChanges {
            entries: produced,
            sent,
            contributed,
        }
    }

    /// Lets go of the room that isn't taken.
    pub(crate) fn shrink_to_fit(&mut self)
        ensures { self.new ≡ self.old }
    {
        self.entries.shrink_to_fit();
        self.sent.shrink_to_fit();
        self.contributed.shrink_to_fit();
    }

    /// How many vertices there are.
    pub fn len(&self) -> usize
        ensures { result ≡ length self.now }
    {
        self.entries.len()
    }

    /// How many messages they send: for how many to make room, so no contract tells it.
    pub fn messages(&self) -> usize {
        self.sent.len()
    }

    /// Who sent each message, and all messages, where those of a vertex follow those of the one before it and there are
    /// no others. Costs a look at each vertex, and a list with an id for each message.
    pub fn all_sent(
        &self,
        alloc: Global,
    ) -> Result<Option<(Vec<VertexId>, &[(VertexId, M)])>, Memory>
        ensures len { IfOk result (λ all. IfSome all (λ a. length a.0.items ≡ length a.1.now)) }
        ensures sent { IfOk result (λ all. IfSome all (λ a. zip a.0.items a.1.now ≡ flat_map messages_by self.now)) }
    {
        let mut senders = Vec::with_capacity(alloc, self.sent.len())?;
        for place in 0..self.entries.len() {
            let (id, produced) = &self.entries[place];
            if !add_senders(&mut senders, *id, produced)? {
                return Ok(None);
            }
        }
        if senders.len() != self.sent.len() {
            return Ok(None);
        }
        Ok(Some((senders, self.sent.as_slice())))
    }

    /// How many contributions there are: for how many to make room, so no contract tells it.
    pub(crate) fn contribution_count(&self) -> usize {
        self.contributed.len()
    }

    /// The vertex at a place, and its record, if it has one. Costs O(1).
    pub fn at(&self, place: usize) -> (VertexId, Option<RecordRef<'_, V, M>>)
        requires { place < length self.now }
        ensures { (c : ℕ × Option (Record V M)) → result ≡ slice_index_or self.now place c }
    {
        let (id, produced) = &self.entries[place];
        match produced {
            Some(produced) => {
                let given = record_of(self.sent.as_slice(), self.contributed.as_slice(), produced);
                (*id, Some(given))
            }
            None => (*id, None),
        }
    }

    /// The record that a vertex is given, if it is. It is looked for at a place first, and then by halving.
    #[inline(always)]
    pub(crate) fn given(&self, id: VertexId, near: usize) -> Option<RecordRef<'_, V, M>>
        requires { ChangesRise self.now }
        ensures { result ≡ given_to id self.now }
    {
        let place = place_of(self.entries.as_slice(), id, near)?;
        let (_, given) = self.at(place);
        given
    }

    /// Adds the record of a vertex: that it leaves this state, and these messages and contributions, which are moved to
    /// those of the others.
    pub fn add(
        &mut self,
        state: VertexState<V>,
        sent: Vec<(VertexId, M)>,
        contributed: Vec<(Place, i64)>,
    ) -> Result<(), Memory>
        ensures { OnOk result (self.new ≡ self.old ++ (
          state.id,
          Some (record {
            value = state.value;
            edges = state.edges;
            halted = state.halted;
            sent = sent.items;
            contributed = contributed.items;
          }),
        ) ∷ []) }
    {
        let sent = appended(&mut self.sent, sent)?;
        let contributed = appended(&mut self.contributed, contributed)?;
        let VertexState {
            id,
            value,
            edges,
            halted,
        } = state;
        let produced = Executed {
            value,
            edges,
            halted,
            sent,
            contributed,
        };
        self.entries.push((id, Some(produced)))?;
        Ok(())
    }

    /// Adds that a vertex has no record any more.
    pub fn add_none(&mut self, id: VertexId) -> Result<(), Memory>
        ensures { OnOk result (self.new ≡ self.old ++ (id, None) ∷ []) }
    {
        self.entries.push((id, None))?;
        Ok(())
    }

    /// The vertices, each with the place of its record among these, if it has one.
    pub fn places(&self, alloc: Global) -> Result<Vec<(VertexId, Option<u32>)>, Memory>
        ensures { IfOk result (λ places. given_flags places.items ≡ given_flags self.now) }
    {
        let mut places = Vec::with_capacity(alloc, self.entries.len())?;
        for place in 0..self.entries.len() {
            let (id, produced) = &self.entries[place];
            places.push((*id, place_if(produced.is_some(), place)))?;
        }
        Ok(places)
    }
}

/// Adds the sender of each message that an execution sent, where these are the next messages. Else it says that they
/// aren't.
fn add_senders<V>(
    senders: &mut Vec<VertexId>,
    id: VertexId,
    produced: &Option<Executed<V>>,
) -> Result<bool, Memory>
    ensures { IfOk result (λ added. IsTrue added → AddsSenders id produced.now senders.old.items senders.new.items) }
{
    match produced {
        Some(produced) => {
            if produced.sent.first as usize != senders.len() {
                return Ok(false);
            }
            senders.resize(senders.len() + produced.sent.count as usize, id)?;
            Ok(true)
        }
        None => Ok(true),
    }
}

/// A place, where it is asked for. It is only where to look first, so one that doesn't fit is another.
fn place_if(is_asked: bool, place: usize) -> Option<u32>
    ensures { is_some result ≡ is_asked }
{
    if is_asked {
        return Some(u32::try_from(place).unwrap_or(0));
    }
    None
}

/// The record of an execution that produced this, by all that was sent and contributed. Costs O(1).
#[inline(always)]
pub fn record_of<'a, V, M>(
    sent: &'a [(VertexId, M)],
    contributed: &'a [(Place, i64)],
    produced: &'a Executed<V>,
) -> RecordRef<'a, V, M>
    requires sent { IsPart produced.now.sent sent.now }
    requires contributed { IsPart produced.now.contributed contributed.now }
    ensures { result ≡ record_in sent.now contributed.now produced.now }
{
    RecordRef {
        value: &produced.value,
        edges: &produced.edges,
        halted: produced.halted,
        sent: part_of(sent, produced.sent),
        contributed: part_of(contributed, produced.contributed),
    }
}

/// A part of a list.
fn part_of<X>(items: &[X], part: Extent) -> &[X]
    requires { IsPart part items.now }
    ensures { result.now ≡ part_of part items.now }
{
    let (_, from) = items.split_at(part.first as usize);
    let (here, _) = from.split_at(part.count as usize);
    here
}

/// The place of an id among entries. It is looked for at one first, and then by halving.
fn place_of<X>(entries: &[(VertexId, X)], id: VertexId, near: usize) -> Option<usize>
    requires { HasRisingIds entries.now }
    ensures within { IfSome result (λ place. place < length entries.now) }
    ensures found { IfSome result (HoldsAt (λ e. nat_cmp e.0 id ≡ Equal) entries.now) }
    ensures missing { IfNone result (value_at id entries.now ≡ None) }
{
    if is_at(entries, id, near) {
        return Some(near);
    }
    match searched(entries, id) {
        Ok(place) => Some(place),
        Err(_) => None,
    }
}

/// The place of an id among entries, found by halving, or else where it would be put.
fn searched<X>(entries: &[(VertexId, X)], id: VertexId) -> Result<usize, usize>
    requires { HasRisingIds entries.now }
    ensures within { IfOk result (λ place. place < length entries.now) }
    ensures found { IfOk result (HoldsAt (λ e. nat_cmp e.0 id ≡ Equal) entries.now) }
    ensures missing { IfErr result
        (IsPartitionPoint (λ e. nat_cmp e.0 id ≡ Less) (λ e. nat_cmp e.0 id ≡ Greater) entries.now) }
{
    entries.binary_search_by_key(&id, |entry| entry.0)
}

/// Whether an id stands at a place among entries.
fn is_at<X>(entries: &[(VertexId, X)], id: VertexId, place: usize) -> bool
    ensures within { IsTrue result → place < length entries.now }
    ensures found { IsTrue result → HoldsAt (λ e. nat_cmp e.0 id ≡ Equal) entries.now place }
{
    if place >= entries.len() {
        return false;
    }
    entries[place].0 == id
}

/// Moves all items of a list to the end of another. Which part of that they are then.
fn appended<X: Drop>(into: &mut Vec<X>, items: Vec<X>) -> Result<Extent, Memory>
    ensures list { OnOk result (into.new.items ≡ into.old.items ++ items.items) }
    ensures first { IfOk result (λ part. part.first ≡ length into.old.items) }
    ensures count { IfOk result (λ part. part.count ≡ length items.items) }
    ensures err { OnErr result (into.new.items ≡ into.old.items) }
{
    let first = checked_u32(into.len())?;
    let count = checked_u32(items.len())?;
    let mut items = items;
    into.append(&mut items)?;
    Ok(Extent { first, count })
}
