//! What surrounds an execution.
ghost use Rattle.std.specs.Prelude.{◌≡◌, [], ◌∷◌, ◌++◌, ◌+◌, true, map, length, take, IsSome, OnOk, OnErr, Some};
ghost use Rattle.pg_model.specs.Job.{has_place};
ghost use Rattle.pg_model.specs.Superstep.{capped};
ghost use Rattle.pg_program.specs.Context.{IsShown, IsShownAt};

use crate::{Meter, Plain, Vertex};
use pg_graph::{Memory, Superstep, VertexId};
use pg_model::{Declared, Place, Sequence, View};
use std::alloc::Global;
use std::marker::Model;

/// What surrounds an execution: what the program sees of the run, what was sent and contributed so far,
/// and the meter. One context may serve the executions of a whole superstep, one after another.
#[derive(Drop)]
pub struct Cx<M> {
    view: View,
    writes: u16,
    sent: Sequence<(VertexId, M)>,
    contributed: Sequence<(Place, i64)>,
    meter: Meter,
}

impl<M> Model for Cx<M> {
    ghost use Rattle.pg_program.specs.Context.{Context};

    ghost Value = { Context M };

    ghost view = { λ c. record {
      view = c.view;
      writes = c.writes;
      sent = c.sent;
      contributed = c.contributed;
      calls = c.meter;
    } };
}

impl<M: Drop> Cx<M> {
    /// A context in which nothing was sent or contributed yet.
    pub fn new(alloc: Global, view: View, declared: Declared, meter: Meter) -> Cx<M>
        ensures { result
            ≡ record { view = view; writes = declared.writes; sent = []; contributed = []; calls = meter } }
    {
        let (sent, contributed) = (Sequence::new(alloc), Sequence::new(alloc));
        Cx::with_room(view, declared, meter, sent, contributed)
    }

    /// A context as `new` makes it, where what is sent and contributed takes the memory of these lists, whose values
    /// are let go of. So contexts that follow one another need not grow anew.
    pub fn with_room(
        view: View,
        declared: Declared,
        meter: Meter,
        mut sent: Sequence<(VertexId, M)>,
        mut contributed: Sequence<(Place, i64)>,
    ) -> Cx<M>
        ensures { result
            ≡ record { view = view; writes = declared.writes; sent = []; contributed = []; calls = meter } }
    {
        sent.clear();
        contributed.clear();
        Cx {
            view,
            writes: declared.writes,
            sent,
            contributed,
            meter,
        }
    }

    /// What was seen, what was sent and contributed, in that order, and the meter.
    pub fn into_parts(self) -> (View, Sequence<(VertexId, M)>, Sequence<(Place, i64)>, Meter)
        ensures view { result.0 ≡ self.view }
        ensures sent { result.1 ≡ self.sent }
        ensures contributed { result.2 ≡ self.contributed }
        ensures calls { result.3 ≡ self.calls }
    {
        let Cx {
            view,
            writes: _,
            sent,
            contributed,
            meter,
        } = self;
        (view, sent, contributed, meter)
    }

    /// What was sent so far by all executions that the context has served, each message with its target.
    #[inline(always)]
    pub fn sent(&self) -> &[(VertexId, M)]
        ensures { result.now ≡ self.now.sent }
    {
        self.sent.as_slice()
    }

    /// What was contributed so far by all of them, each value with the place of its aggregator.
    #[inline(always)]
    pub fn contributed(&self) -> &[(Place, i64)]
        ensures { result.now ≡ self.now.contributed }
    {
        self.contributed.as_slice()
    }

    /// The number of the superstep.
    pub fn superstep(&self) -> Superstep
        ensures { result ≡ self.now.view.superstep }
    {
        self.view.superstep
    }

    /// How many vertices have a state as the superstep begins, for a program that has declared it.
    pub fn total_vertices(&self) -> u64
        requires { IsSome self.now.view.total_vertices }
        ensures { self.now.view.total_vertices ≡ Some result }
    {
        self.view.total_vertices.unwrap()
    }

    /// How many out-edges they have, those to missing targets too, at most 2^64 - 1; for a program that has
    /// declared it.
    pub fn total_edges(&self) -> u64
        requires { IsSome self.now.view.total_edges }
        ensures { self.now.view.total_edges ≡ Some result }
    {
        self.view.total_edges.unwrap()
    }

    /// The visible value of an aggregator, for a program that has declared that it reads it.
    pub fn aggregated(&self, place: Place) -> i64
        requires { IsShown self.now.view place }
        ensures { IsShownAt self.now.view place result }
    {
        self.view.aggregates.as_slice()[usize::from(place.number())].unwrap()
    }

    /// Sends a message to a vertex, which need not be there.
    pub fn send(&mut self, target: VertexId, message: M) -> Result<(), Memory>
        ensures ok { OnOk result
            (self.new ≡ record self.old { sent = self.old.sent ++ (target, message) ∷ [] }) }
        ensures err { OnErr result (self.new ≡ self.old) }
    {
        self.sent.push((target, message))
    }

    /// Sends the same message along each out-edge of a vertex, by rising target.
    pub fn send_to_all_edges<V>(
        &mut self,
        alloc: Global,
        vertex: &Vertex<V>,
        message: &M,
    ) -> Result<(), Memory>
    where
        M: Plain,
        ensures ok { OnOk result
            (self.new ≡ record self.old {
              sent = self.old.sent ++ map
                  (λ e. (e.0, message.now)) vertex.now.edges;
            }) }
        ensures err { OnErr result (self.new ≡ self.old) }
    {
        let before = self.sent.len();
        match push_to_all(alloc, &mut self.sent, vertex.edges(), message) {
            Ok(()) => Ok(()),
            Err(refused) => {
                self.sent.truncate(before);
                Err(refused)
            }
        }
    }

    /// Contributes a value to an aggregator that the program has declared to write.
    pub fn aggregate(&mut self, place: Place, value: i64) -> Result<(), Memory>
        requires { has_place self.old.writes place ≡ true }
        ensures ok { OnOk result
            (self.new ≡ record self.old {
              contributed = self.old.contributed
                  ++ (place, value) ∷ [];
            }) }
        ensures err { OnErr result (self.new ≡ self.old) }
    {
        self.contributed.push((place, value))
    }

    /// Counts one call of compute.
    pub fn called(&mut self)
        ensures { self.new ≡ record self.old { calls = capped (self.old.calls + 1) } }
    {
        self.meter.called();
    }
}

/// Adds the same message to the target of each edge. Where it answers want of memory, some of them may
/// have been added.
fn push_to_all<M: Plain>(
    alloc: Global,
    sent: &mut Sequence<(VertexId, M)>,
    edges: &[(VertexId, i64)],
    message: &M,
) -> Result<(), Memory>
    ensures ok { OnOk result (sent.new ≡ sent.old ++ map (λ e. (e.0, message.now)) edges.now) }
    ensures err { OnErr result (take (length sent.old) sent.new ≡ sent.old) }
{
    for edge in edges {
        sent.push((edge.0, message.copy(alloc)?))?;
    }
    Ok(())
}
