//! A service that searches the graph that it keeps.
ghost use Rattle.std.specs.Prelude.{◌≡◌, [], None, Some, IfOk, IfErr, OnOk, OnErr};
ghost use Rattle.std.specs.Ordering.{int_eq};
ghost use Rattle.pg_service.specs.Handed.{Limits};
ghost use Rattle.pg_model.specs.Needed.{needed_count};
ghost use Rattle.pg_model.specs.Run.{answer};
ghost use Rattle.pg_model.specs.Superstep.{capped};
ghost use Rattle.pg_service.specs.Service.{fresh, with_entry};
ghost use Rattle.example_widest.specs.Widest.{found, searched, widest_job};
ghost use Rattle.example_widest.specs.declared.search.Search.{Search};

use crate::{Widest, WidestMaster};
use pg_global::AnyCombiner;
use pg_graph::VertexId;
use pg_scratch::RunFault;
use pg_service::{Limits, MemShelf, NoFate, NoGate, RefreshFault, Report, Service};
use std::alloc::Global;
use std::sync::Wait;
use std::thread::Threads;

/// What is searched: the widest paths from a source, until one to the target is wide enough.
#[derive(Clone, Copy, Debug, PartialEq, Eq)]
pub struct Search {
    pub source: VertexId,
    pub target: VertexId,
    pub enough: i64,
}

/// A service that searches the graph that it keeps.
pub type Searching = Service<Widest, AnyCombiner, WidestMaster>;

/// A service of a search, with an empty graph. The limits say on how many partitions it runs and how many supersteps it
/// may take. It is ended by [`Service::close`].
///
/// # Errors
///
/// Want of memory.
pub fn searching<R: Wait>(
    rt: &R,
    alloc: Global,
    search: &Search,
    limits: Limits,
) -> Result<Searching, RunFault>
    ensures begun { IfOk result
        (λ service. service ≡ fresh (searched search.now limits) service.told.publisher) }
    ensures memory { IfErr result (λ fault. fault ≡ RunFault.Memory) }
{
    let program = Widest {
        source: search.source,
        target: search.target,
    };
    let master = WidestMaster {
        enough: search.enough,
    };
    Service::new(rt, alloc, limits, program, AnyCombiner::Max, master)
}

/// Searches the graph as it stands, against the last search where that is kept. What is published is the answer of the
/// search from scratch; where no worker fell, compute is called for what differs from the last search. No worker is
/// made to fall; one falls that has no more memory.
///
/// # Errors
///
/// Those of [`Service::refresh`]. What was published stays.
///
/// # Cost
///
/// That of [`Service::refresh`].
pub fn widest_paths<R: Threads + Wait + Sync>(
    rt: &R,
    alloc: Global,
    service: &mut Searching,
) -> Result<Report, RefreshFault>
    ensures answer { OnOk result ((search : Search) (limits : Limits)
        → service.old.job ≡ searched search limits
        → service.new.told ≡ with_entry (record {
          publication = record {
            edition = service.old.edition;
            answer = answer (widest_job search limits) service.old.graph;
          };
          registered = found;
        }) service.old.told) }
    ensures calls { IfOk result (λ report. (search : Search) (limits : Limits)
        → service.old.job ≡ searched search limits → report.losses ≡ []
        → report.calls ≡ capped (needed_count int_eq int_eq (widest_job search limits)
        service.old.kept service.old.graph)) }
    ensures rest { OnOk result (service.new ≡ record service.old {
      told = service.new.told;
      kept = Some service.old.graph;
    }) }
    ensures err { OnErr result (service.new ≡ record service.old { kept = None }) }
{
    let mut shelf = MemShelf::new(alloc);
    let (fate, gate) = (NoFate, NoGate);
    service.refresh(rt, alloc, &mut shelf, &fate, &gate)
}
