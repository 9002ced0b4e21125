//! A vertex in one execution.
ghost use Rattle.std.specs.Prelude.{◌≡◌, false, true, length, cond, is_some, IfOk, OnOk, OnErr};
ghost use Rattle.pg_graph.specs.Handed.{IsRising, weight_at, with_edge, without_edge};

use crate::own_edges::{EdgeRoom, OwnEdges};
use pg_graph::{Edges, Memory, VertexId};
use pg_model::VertexState;
use std::alloc::Global;
use std::marker::Model;
use std::mem;

/// A vertex in one execution: its id, its value and its out-edges, and whether it voted to halt
/// (Pregel, section 3).
#[derive(Drop)]
pub struct Vertex<V> {
    id: VertexId,
    value: V,
    edges: OwnEdges,
    halted: bool,
}

impl<V> Model for Vertex<V> {
    ghost use Rattle.pg_model.specs.declared.configuration.VertexState.{VertexState};

    ghost Value = { VertexState V };

    ghost view = { λ v. record { id = v.id; value = v.value; edges = v.edges; halted = v.halted } };
}

impl<V> Vertex<V> {
    /// A vertex at the beginning of an execution, which hasn't voted yet. The room grows where the
    /// vertex has more edges than any before it; later changes of edges that are there take no memory.
    #[inline(always)]
    pub fn new(id: VertexId, value: V, edges: Edges, room: EdgeRoom) -> Result<Vertex<V>, Memory>
    where
        V: Drop,
        ensures { IfOk result
            (λ v. v ≡ record { id = id; value = value; edges = edges; halted = false }) }
    {
        Ok(Vertex {
            id,
            value,
            edges: OwnEdges::new(edges, room)?,
            halted: false,
        })
    }

    /// Begins the execution of the vertex that is in this state, which is taken until [`Vertex::give_back`]: in
    /// the meantime another state stands there, of which nothing is said. So one vertex may serve the
    /// executions of many, and no state is moved. The room grows where it has to.
    ///
    /// Nothing is said of the vertex and the state where it is out of memory.
    pub fn take(&mut self, state: &mut VertexState<V>) -> Result<(), Memory>
        ensures { OnOk result
            (self.new
            ≡ record { id = state.old.id; value = state.old.value; edges = state.old.edges; halted = false }) }
    {
        self.edges.take(&mut state.edges)?;
        mem::swap(&mut self.id, &mut state.id);
        mem::swap(&mut self.value, &mut state.value);
        self.halted = false;
        Ok(())
    }

    /// Gives the state back that the execution leaves. Edges that weren't changed stay shared.
    ///
    /// Nothing is said of the vertex afterwards, nor of the state where it answers want of memory.
    pub fn give_back(&mut self, alloc: Global, state: &mut VertexState<V>) -> Result<(), Memory>
        ensures { OnOk result (state.new ≡ self.old) }
    {
        self.edges.give_back(alloc, &mut state.edges)?;
        mem::swap(&mut self.id, &mut state.id);
        mem::swap(&mut self.value, &mut state.value);
        state.halted = self.halted;
        Ok(())
    }

    /// The id.
    pub fn id(&self) -> VertexId
        ensures { result ≡ self.now.id }
    {
        self.id
    }

    /// The value.
    pub fn value(&self) -> &V
        ensures { result.now ≡ self.now.value }
    {
        &self.value
    }

    /// Sets the value.
    pub fn set_value(&mut self, value: V)
    where
        V: Drop,
        ensures { self.new ≡ record self.old { value = value } }
    {
        self.value = value;
    }

    /// Votes to halt: the vertex is halted after this execution, until a message comes.
    pub fn vote_to_halt(&mut self)
        ensures { self.new ≡ record self.old { halted = true } }
    {
        self.halted = true;
    }

    /// How many out-edges there are.
    pub fn num_edges(&self) -> usize
        ensures { result ≡ length self.now.edges }
    {
        self.edges().len()
    }

    /// The out-edges with their weights, by rising target.
    pub fn edges(&self) -> &[(VertexId, i64)]
        ensures value { result.now ≡ self.now.edges }
        ensures rising { IsRising result.now }
    {
        self.edges.as_slice()
    }

    /// The weight of the edge to a target. It costs a binary search.
    pub fn edge_value(&self, target: VertexId) -> Option<i64>
        ensures { result ≡ weight_at target self.now.edges }
    {
        self.edges.weight(target)
    }

    /// Sets the weight of the edge to a target, and says whether there is one; where there is none,
    /// nothing changes. It takes no memory. The first change of an execution copies the edges.
    pub fn set_edge_value(&mut self, target: VertexId, weight: i64) -> bool
        ensures known { result ≡ is_some (weight_at target self.old.edges) }
        ensures value { self.new
            ≡ record self.old {
              edges = cond result
                  (with_edge target weight self.old.edges) self.old.edges;
            } }
    {
        self.edges.set(target, weight)
    }

    /// Adds an edge, or sets the weight of the one that is there. It moves the edges behind it.
    pub fn add_edge(&mut self, target: VertexId, weight: i64) -> Result<(), Memory>
        ensures ok { OnOk result
            (self.new ≡ record self.old { edges = with_edge target weight self.old.edges }) }
        ensures err { OnErr result (self.new ≡ self.old) }
    {
        self.edges.add(target, weight)
    }

    /// Removes the edge to a target; where there is none, nothing changes. It takes no memory, and
    /// moves the edges behind it.
    pub fn remove_edges(&mut self, target: VertexId)
        ensures { self.new ≡ record self.old { edges = without_edge target self.old.edges } }
    {
        self.edges.remove(target);
    }

    /// The state that the execution leaves, and the room. Edges that weren't changed stay shared.
    #[inline(always)]
    pub fn into_parts(self, alloc: Global) -> Result<(VertexState<V>, EdgeRoom), Memory>
    where
        V: Drop,
        ensures { IfOk result (λ parts. parts.0 ≡ self) }
    {
        let Vertex {
            id,
            value,
            edges,
            halted,
        } = self;
        let (edges, room) = edges.into_parts(alloc)?;
        let state = VertexState {
            id,
            value,
            edges,
            halted,
        };
        Ok((state, room))
    }
}
