//! Masters: what decides, before the vertices of each superstep, what they see and whether the run ends.
ghost use Rattle.std.specs.Prelude.{◌≡◌, [], ◌<◌, ◌⊎◌, false, true, length, slice_get, slice_set, Some, IfErr, OnOk};
ghost use Rattle.pg_global.specs.Master.{Master, decided};
ghost use Rattle.pg_global.specs.Registry.{first_refusal};

use crate::{RegisterFault, Registry};
use pg_graph::{Memory, Superstep};
use pg_model::{Place, Sequence, Visible};
use std::alloc::Global;
use std::marker::Model;

/// What a master works on: the superstep, the numbers of vertices and edges as it begins, and the values
/// that the vertices are going to see, at first those gathered in the superstep before.
pub struct MasterState {
    superstep: Superstep,
    total_vertices: u64,
    total_edges: u64,
    values: Vec<i64>,
    halt: bool,
}

// By hand, so that it is let go by one call wherever that is, and not field by field.
impl Drop for MasterState {
    fn drop(self) {
        let MasterState {
            superstep: _,
            total_vertices: _,
            total_edges: _,
            values: _,
            halt: _,
        } = self;
    }
}

impl Model for MasterState {
    ghost use Rattle.pg_global.specs.Master.{MasterView};

    ghost Value = { MasterView };

    ghost view = { λ m. record {
      superstep = m.superstep;
      total_vertices = m.total_vertices;
      total_edges = m.total_edges;
      values = m.values.items;
      halt = m.halt;
    } };
}

impl MasterState {
    /// The state before a superstep, with the values gathered in the superstep before.
    pub fn new(
        superstep: Superstep,
        total_vertices: u64,
        total_edges: u64,
        gathered: Sequence<i64>,
    ) -> MasterState
        ensures { result
            ≡ record {
              superstep = superstep;
              total_vertices = total_vertices;
              total_edges = total_edges;
              values = gathered;
              halt = false;
            } }
    {
        MasterState {
            superstep,
            total_vertices,
            total_edges,
            values: gathered.into_vec(),
            halt: false,
        }
    }

    /// What the vertices are going to see.
    pub fn into_parts(self) -> Visible
        ensures { result
            ≡ record {
              values = self.values;
              halt = self.halt;
              total_vertices = self.total_vertices;
              total_edges = self.total_edges;
            } }
    {
        let MasterState {
            superstep: _,
            total_vertices,
            total_edges,
            values,
            halt,
        } = self;
        Visible {
            values: Sequence::from_vec(values),
            halt,
            total_vertices,
            total_edges,
        }
    }

    /// The number of the superstep.
    pub fn superstep(&self) -> Superstep
        ensures { result ≡ self.now.superstep }
    {
        self.superstep
    }

    /// How many vertices have a state as the superstep begins.
    pub fn total_vertices(&self) -> u64
        ensures { result ≡ self.now.total_vertices }
    {
        self.total_vertices
    }

    /// How many out-edges they have, those to missing targets too, at most 2^64 - 1.
    pub fn total_edges(&self) -> u64
        ensures { result ≡ self.now.total_edges }
    {
        self.total_edges
    }

    /// The value at a place: what was gathered in the superstep before, or what the master has set since.
    pub fn aggregated(&self, place: Place) -> i64
        requires { place < length self.now.values }
        ensures { slice_get self.now.values place ≡ Some result }
    {
        self.values[usize::from(place.number())]
    }

    /// Sets the value at a place. It is visible in the superstep that follows.
    pub fn set_aggregated(&mut self, place: Place, value: i64)
        requires { place < length self.old.values }
        ensures { self.new ≡ record self.old { values = slice_set self.old.values place value } }
    {
        self.values[usize::from(place.number())] = value;
    }

    /// Halts: the superstep that follows is still executed, and then the run ends.
    pub fn halt(&mut self)
        ensures { self.new ≡ record self.old { halt = true } }
    {
        self.halt = true;
    }
}

/// What decides, before the vertices of each superstep, what they see and whether the run ends with it.
pub trait MasterCompute: Sync {
    /// The master's aggregators, and its decisions as a pure function.
    ghost master: { Self → Master };

    /// Registers the master's aggregators, on a registry of none. The list is always the same; a refusal
    /// other than for want of memory comes only where that list breaks the rules of registration.
    fn initialize(&self, alloc: Global, registry: &mut Registry) -> Result<(), RegisterFault>
        requires { registry.old ≡ [] }
        ensures ok { OnOk result (registry.new ≡ (master self.now).registrations) }
        ensures lawful { OnOk result (first_refusal [] (master self.now).registrations ≡ None) }
        ensures refused { IfErr result
            (λ f. (f ≡ RegisterFault.Memory) ⊎
            (first_refusal [] (master self.now).registrations ≡ Some f)) };

    /// One decision. Nothing is said of the state where it answers want of memory.
    fn compute(&self, alloc: Global, state: &mut MasterState) -> Result<(), Memory>
        requires places { length state.old.values ≡ length (master self.now).registrations }
        requires halt { state.old.halt ≡ false }
        ensures decided { OnOk result (state.new ≡ decided (master self.now) state.old) }
        ensures places { OnOk result (length state.new.values ≡ length state.old.values) };
}

/// The master that registers nothing, sets nothing and never halts.
#[derive(Clone, Copy, Debug, PartialEq, Eq)]
pub struct NoMaster;

impl MasterCompute for NoMaster {
    ghost use Rattle.pg_global.specs.Master.{leaves_all};

    ghost master = { λ _. leaves_all [] };

    #[tactic(auto, unfolding(crate::specs::Registry::first_refusal))]
    fn initialize(&self, _alloc: Global, _registry: &mut Registry) -> Result<(), RegisterFault> {
        Ok(())
    }

    fn compute(&self, _alloc: Global, _state: &mut MasterState) -> Result<(), Memory> {
        Ok(())
    }
}
