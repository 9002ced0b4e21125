//! The out-edges of a vertex in one execution.
ghost use Rattle.std.specs.Prelude.{◌≡◌, true, false, ◌≤◌, length, cond, is_some, IfOk, OnOk, OnErr, vec_capacity};
ghost use Rattle.pg_graph.specs.Handed.{IsRising, weight_at, with_edge, without_edge, IsPlaceOf, IsGapFor};

use crate::search::place_of;
use pg_graph::{Edges, Memory, VertexId};
use std::alloc::Global;
use std::marker::Model;
use std::mem;

/// Memory in which one vertex after another may change its out-edges.
#[derive(Drop)]
pub struct EdgeRoom {
    items: Vec<(VertexId, i64)>,
}

impl EdgeRoom {
    /// Room for no edges yet. It grows as vertices with more edges come.
    #[inline(always)]
    pub fn new(alloc: Global) -> EdgeRoom {
        EdgeRoom {
            items: Vec::new(alloc),
        }
    }
}

/// The out-edges of a vertex in one execution: shared with the graph until the first change, which
/// copies them to room that was taken beforehand. So a change of an edge that is there takes no memory.
#[derive(Drop)]
pub(crate) struct OwnEdges {
    shared: Edges,
    room: Vec<(VertexId, i64)>,
    is_changed: bool,
}

impl Model for OwnEdges {
    ghost use Rattle.std.specs.Prelude.{◌≡◌, ◌≤◌, false, length, vec_capacity};
    ghost use Rattle.pg_graph.specs.Handed.{EdgeList, IsRising};

    ghost Value = { EdgeList };

    ghost use Rattle.pg_program.specs.OwnEdges.{edges_now};

    ghost view = { edges_now };

    ghost invariant = { λ e. IsRising (edges_now e) × (e.is_changed ≡ false → length e.shared ≤ vec_capacity e.room) };
}

impl OwnEdges {
    #[inline(always)]
    pub(crate) fn new(edges: Edges, room: EdgeRoom) -> Result<OwnEdges, Memory>
        ensures { IfOk result (λ e. e ≡ edges) }
    {
        let mut room = room.items;
        room.clear();
        room.reserve(edges.as_slice().len())?;
        Ok(OwnEdges {
            shared: edges,
            room,
            is_changed: false,
        })
    }

    /// Takes over these edges, in exchange for others that nothing is said of. The room grows where it
    /// has to.
    pub(crate) fn take(&mut self, edges: &mut Edges) -> Result<(), Memory>
        ensures { OnOk result (self.new ≡ edges.old) }
    {
        self.room.clear();
        self.is_changed = true;
        self.room.reserve(edges.as_slice().len())?;
        mem::swap(&mut self.shared, edges);
        self.is_changed = false;
        Ok(())
    }

    /// Gives the edges back, shared again, in exchange for others that nothing is said of.
    pub(crate) fn give_back(&mut self, alloc: Global, edges: &mut Edges) -> Result<(), Memory>
        ensures { OnOk result (edges.new ≡ self.old) }
    {
        if self.is_changed {
            let changed = Vec::from_slice(alloc, self.room.as_slice())?;
            self.shared = Edges::from_rising(alloc, changed)?;
        }
        self.room.clear();
        self.is_changed = true;
        mem::swap(&mut self.shared, edges);
        Ok(())
    }

    pub(crate) fn as_slice(&self) -> &[(VertexId, i64)]
        ensures value { result.now ≡ self.now }
        ensures rising { IsRising result.now }
    {
        if self.is_changed {
            self.room.as_slice()
        } else {
            self.shared.as_slice()
        }
    }

    pub(crate) fn weight(&self, target: VertexId) -> Option<i64>
        ensures { result ≡ weight_at target self.now }
    {
        let edges = self.as_slice();
        match place_of(edges, target) {
            Ok(place) => Some(edges[place].1),
            Err(_) => None,
        }
    }

    /// Sets the weight of an edge, and says whether it is there. It takes no memory.
    pub(crate) fn set(&mut self, target: VertexId, weight: i64) -> bool
        ensures known { result ≡ is_some (weight_at target self.old) }
        ensures value { self.new ≡ cond result (with_edge target weight self.old) self.old }
    {
        match place_of(self.as_slice(), target) {
            Ok(place) => {
                move_to_room(&self.shared, &mut self.room, &mut self.is_changed);
                set_at(&mut self.room, place, target, weight);
                true
            }
            Err(_) => false,
        }
    }

    /// Adds an edge, or sets the weight of the one that is there.
    pub(crate) fn add(&mut self, target: VertexId, weight: i64) -> Result<(), Memory>
        ensures ok { OnOk result (self.new ≡ with_edge target weight self.old) }
        ensures err { OnErr result (self.new ≡ self.old) }
    {
        match place_of(self.as_slice(), target) {
            Ok(place) => {
                move_to_room(&self.shared, &mut self.room, &mut self.is_changed);
                set_at(&mut self.room, place, target, weight);
                Ok(())
            }
            Err(place) => {
                move_to_room(&self.shared, &mut self.room, &mut self.is_changed);
                insert_at(&mut self.room, place, target, weight)
            }
        }
    }

    /// Removes the edge to a target, if there is one. It takes no memory.
    pub(crate) fn remove(&mut self, target: VertexId)
        ensures { self.new ≡ without_edge target self.old }
    {
        match place_of(self.as_slice(), target) {
            Ok(place) => {
                move_to_room(&self.shared, &mut self.room, &mut self.is_changed);
                remove_at(&mut self.room, place, target);
            }
            Err(_) => {}
        }
    }

    /// The edges, shared again, and the room.
    #[inline(always)]
    pub(crate) fn into_parts(self, alloc: Global) -> Result<(Edges, EdgeRoom), Memory>
        ensures { IfOk result (λ parts. parts.0 ≡ self) }
    {
        let OwnEdges {
            shared,
            room,
            is_changed,
        } = self;
        let edges = if is_changed {
            Edges::from_rising(alloc, Vec::from_slice(alloc, room.as_slice())?)?
        } else {
            shared
        };
        Ok((edges, EdgeRoom { items: room }))
    }
}

/// Makes the room hold the edges, where it doesn't yet. It takes no memory.
fn move_to_room(shared: &Edges, room: &mut Vec<(VertexId, i64)>, is_changed: &mut bool)
    requires { is_changed.old ≡ false → length shared.now ≤ vec_capacity room.old }
    ensures changed { is_changed.new ≡ true }
    ensures value { room.new.items ≡ cond is_changed.old room.old.items shared.now }
{
    if !*is_changed {
        room.clear();
        let _copied = room.extend_from_slice(shared.as_slice());
        *is_changed = true;
    }
}

/// Sets the weight of the edge at a place.
fn set_at(room: &mut Vec<(VertexId, i64)>, place: usize, target: VertexId, weight: i64)
    requires rising { IsRising room.old.items }
    requires place { IsPlaceOf target room.old.items place }
    ensures value { room.new.items ≡ with_edge target weight room.old.items }
    ensures rising { IsRising room.new.items }
{
    room[place] = (target, weight);
}

/// Inserts an edge at the place where it would stand.
fn insert_at(
    room: &mut Vec<(VertexId, i64)>,
    place: usize,
    target: VertexId,
    weight: i64,
) -> Result<(), Memory>
    requires rising { IsRising room.old.items }
    requires place { IsGapFor target room.old.items place }
    ensures ok { OnOk result (room.new.items ≡ with_edge target weight room.old.items) }
    ensures err { OnErr result (room.new.items ≡ room.old.items) }
    ensures rising { IsRising room.new.items }
{
    room.insert(place, (target, weight))?;
    Ok(())
}

/// Removes the edge at a place.
fn remove_at(room: &mut Vec<(VertexId, i64)>, place: usize, target: VertexId)
    requires rising { IsRising room.old.items }
    requires place { IsPlaceOf target room.old.items place }
    ensures value { room.new.items ≡ without_edge target room.old.items }
    ensures rising { IsRising room.new.items }
{
    let _ = target;
    room.remove(place);
}
