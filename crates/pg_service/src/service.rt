//! The service: a graph that is kept, the run that is kept with it, and the answers that were published.
ghost use Rattle.std.specs.Prelude.{◌≡◌, ◌+◌, ◌<◌, false, [], None, IsSome, Ok};
ghost use Rattle.std.specs.Prelude.{IfOk, IfErr, IfSome, MatchOption, OnOk, OnErr, IsErrOf};
ghost use Rattle.std.specs.Option.{option_copied};
ghost use Rattle.std.specs.String.{string_bytes};
ghost use Rattle.pg_global.specs.Master.{is_registered};
ghost use Rattle.pg_global.specs.Registry.{first_refusal};
ghost use Rattle.pg_model.specs.Run.{answer};
ghost use Rattle.pg_publish.specs.History.{last_of};
ghost use Rattle.pg_service.specs.Job.{job_of_service, registered_by};
ghost use Rattle.pg_service.specs.Led.{EditLeadsOn, LeadsOn};
ghost use Rattle.pg_service.specs.Printed.{json_text};
ghost use Rattle.pg_service.specs.Service.{RefusesEdition, calls_of, check_of, fresh, last_published};
ghost use Rattle.pg_service.specs.Service.{next_graph};

use crate::kept::{KeptRun, mark_touched};
use crate::registering::registry_of;
use crate::report_json::value_of_report;
use crate::{Check, Limits, Report, same};
use pg_global::{MasterCompute, MessageCombiner, Registry};
use pg_graph::{Batch, EditFault, EditKind, Edition, Graph, Memory};
use pg_model::Run;
use pg_program::{Computation, Meter};
use pg_publish::{AnswerReader, Answers, Publisher, Told};
use pg_scratch::{RunFault, run};
use pg_workers::DeferredDrop;
use std::alloc::{AllocError, Global};
use std::marker::Model;
use std::mem;
use std::sync::{Arc, Wait};

/// A service: a program with its combiner and its master, whose aggregators have names; a graph with its edition; the
/// publisher of its answers; what was retained of the last run, against which the next one runs, and what it had no more
/// use for; and how many runs there were, which stops at 2^64 - 1. It isn't `Drop`, since its publisher waits for readers: end
/// it by `close`.
pub struct Service<P: Computation, C: MessageCombiner<P::Message>, M: MasterCompute> {
    pub(crate) program: P,
    pub(crate) combiner: C,
    pub(crate) master: M,
    pub(crate) limits: Limits,
    pub(crate) graph: Graph,
    pub(crate) edition: Edition,
    pub(crate) registry: Arc<Registry>,
    pub(crate) publisher: Publisher<P::Value>,
    pub(crate) kept: Option<KeptRun<P::Value, P::Message>>,
    pub(crate) deferred_drop: Option<DeferredDrop<P::Value, P::Message>>,
    pub(crate) runs: u64,
}

/// The graph, the run that is kept, and what it had no more use for.
type ServiceParts<V, M> = (Graph, Option<KeptRun<V, M>>, Option<DeferredDrop<V, M>>);

impl<P: Computation, C: MessageCombiner<P::Message>, M: MasterCompute> Model for Service<P, C, M> {
    ghost use Rattle.std.specs.Arc.{arc_value};
    ghost use Rattle.std.specs.Prelude.{option_map};
    ghost use Rattle.pg_publish.specs.History.{last_of};
    ghost use Rattle.pg_publish.specs.Sender.{told_of};
    ghost use Rattle.pg_service.specs.Service.{ServiceState, Stands};

    ghost Value = { ServiceState P C M P.Value };

    ghost view = { λ s. record {
      job = record { program = s.program; combiner = s.combiner; master = s.master; limits = s.limits };
      graph = s.graph;
      edition = s.edition;
      told = told_of s.publisher;
      readers = s.publisher.readers;
      kept = option_map (λ k. k.traces.graph) s.kept;
    } };

    ghost invariant = { λ s. Stands (P.program s.program) (C.combining s.combiner) (M.master s.master) s.limits
        (arc_value s.registry) s.graph s.edition (last_of s.publisher.list) s.kept };
}

impl<P: Computation, C: MessageCombiner<P::Message>, M: MasterCompute> Service<P, C, M> {
    /// A service with an empty graph of edition 0, nothing published, and places for 8 readers. It doesn't wait.
    ///
    /// # Errors
    ///
    /// The master's list of aggregators breaks the rules of registration, or the program has declared a place that
    /// isn't among them; or want of memory.
    pub fn new<R: Wait>(
        rt: &R,
        alloc: Global,
        limits: Limits,
        program: P,
        combiner: C,
        master: M,
    ) -> Result<Service<P, C, M>, RunFault>
    where
        P: Drop,
        C: Drop,
        M: Drop,
        ensures ok { IfOk result (λ service. service ≡ fresh (record {
          program = program;
          combiner = combiner;
          master = master;
          limits = limits;
        }) service.told.publisher) }
        ensures register { IsErrOf result RunFault.Register
            → IsSome (first_refusal [] (M.master master).registrations) }
        ensures unregistered { IsErrOf result RunFault.Unregistered
            → (first_refusal [] (M.master master).registrations ≡ None)
            × (is_registered (P.program program) (M.master master) ≡ false) }
    {
        let registry = registry_of(alloc, &program, &master)?;
        let publisher = Publisher::new(rt, alloc)?;
        Ok(Service {
            program,
            combiner,
            master,
            limits,
            graph: Graph::new(alloc),
            edition: Edition::new(0),
            registry,
            publisher,
            kept: None,
            deferred_drop: None,
            runs: 0,
        })
    }

    /// The graph as it stands.
    pub fn graph(&self) -> &Graph
        ensures { result.now ≡ self.now.graph }
    {
        &self.graph
    }

    /// The edition of the graph: how many batches were applied.
    pub fn edition(&self) -> Edition
        ensures { result ≡ self.now.edition }
    {
        self.edition
    }

    /// What was published last; none before the first refresh.
    pub fn answers(&self) -> Option<&Answers<P::Value>>
        ensures last { option_copied result ≡ last_of self.now.told.list }
        ensures named { IfSome (option_copied result)
            (λ a. a.registered ≡ registered_by M.master self.now.job) }
    {
        self.publisher.last()
    }

    /// A reader, for any thread, who looks at what is published and never waits. None after the eighth, also where
    /// one was dropped, or where there is no place for it. A look that is kept has a refresh wait before it publishes a
    /// second time after it.
    pub fn reader(&mut self) -> Option<AnswerReader<P::Value>>
        ensures made { MatchOption result
            (self.new ≡ self.old)
            (λ r. (self.old.readers < 8)
            × (self.new ≡ record self.old { readers = self.old.readers + 1 })
            × (r ≡ self.old.told)) }
        ensures leads { let job = job_of_service P.program C.combining M.master self.old.job in
            LeadsOn self.old.job job (registered_by M.master self.old.job) self.old.told.publisher
            self.old self.new }
    {
        self.publisher.reader()
    }

    /// What is published so far. A reader that learns of it looks at no less from then on.
    pub fn tell(&self) -> Told<P::Value>
        ensures { result ≡ self.now.told }
    {
        self.publisher.tell()
    }

    /// Applies a batch, all of it or none, and gives the edition that it makes, which is one more than the one before,
    /// also for an empty batch. The run that is kept stays.
    ///
    /// # Errors
    ///
    /// At edition 2^64 - 1, which is the last, `Full` at position 0. Else the first edit that has no result. Or want of
    /// memory. The service stays as it was.
    ///
    /// # Cost
    ///
    /// That of `Graph::apply`, and a number for each edit where a run is kept.
    #[tactic(auto, unfolding(crate::specs::Service::next_graph))]
    pub fn edit(&mut self, alloc: Global, batch: &Batch) -> Result<Edition, EditFault>
        ensures ok { OnOk result
            (next_graph self.old.edition self.old.graph batch.now ≡ Ok self.new.graph) }
        ensures edition { IfOk result (λ edition. edition ≡ self.old.edition + 1) }
        ensures rest { OnOk result (self.new
            ≡ record self.old { graph = self.new.graph; edition = self.old.edition + 1 }) }
        ensures refused { IfErr result (RefusesEdition self.old.edition self.old.graph batch.now) }
        ensures err { OnErr result (self.new ≡ self.old) }
        ensures leads { let job = job_of_service P.program C.combining M.master self.old.job in
            EditLeadsOn self.old.job job (registered_by M.master self.old.job) self.old.told.publisher
            batch.now result self.old self.new }
    {
        let Some(number) = self.edition.number().checked_add(1) else {
            return Err(NO_EDITION_LEFT);
        };
        mark_touched(&mut self.kept, batch)?;
        self.graph.apply(alloc, batch)?;
        self.edition = Edition::new(number);
        Ok(self.edition)
    }

    /// Lets go of what the last refresh had no more use for: what the run before it recorded and sent otherwise. The
    /// next refresh does so as it begins; whoever calls this before has it done at a time when no one waits.
    ///
    /// # Cost
    ///
    /// A count for each piece of memory that the last refresh made anew in place of what was kept, at most what that
    /// took; none where there was no refresh since the last call.
    pub fn drop_deferred(&mut self)
        ensures { self.new ≡ self.old }
    {
        self.deferred_drop = None;
    }

    /// Runs the program from scratch on the graph as it stands, and compares what was published with the answer. Where
    /// what was published is of another edition, nothing is run.
    ///
    /// # Errors
    ///
    /// Want of memory.
    ///
    /// # Cost
    ///
    /// That of a whole run.
    pub fn check(&self, alloc: Global) -> Result<Check, Memory>
        ensures { let job = job_of_service P.program C.combining M.master self.now.job in
            IfOk result (λ check. check ≡ check_of job P.Value.PartialEq.eq P.Message.PartialEq.eq
            self.now.edition self.now.graph (last_published self.now.told.list)) }
    {
        let Some(answers) = self.answers() else {
            return Ok(Check::Stale);
        };
        if answers.edition() != self.edition {
            return Ok(Check::Stale);
        }
        let (run, calls) = self.run_cold(alloc)?;
        if same(answers, &run) {
            return Ok(Check::Same(calls));
        }
        Ok(Check::Different(calls))
    }

    /// The text of a report: compact JSON with its keys in the order of the alphabet.
    ///
    /// # Errors
    ///
    /// Want of memory.
    pub fn report_json(&self, alloc: Global, report: &Report) -> Result<String, Memory>
        ensures { IfOk result (λ text. string_bytes text ≡ json_text report.now) }
    {
        let value = value_of_report(alloc, report)?;
        value.to_string(alloc)
    }

    /// Ends the service: its publisher, once no reader looks any more, and all that it keeps. Readers look no more
    /// after that.
    pub fn close<R: Wait>(self, rt: &R)
    where
        P: Drop,
        C: Drop,
        M: Drop,
    {
        let (publisher, _held) = self.into_parts();
        publisher.close(rt);
    }

    /// Ends the service as `close` does, and leaves the memory of what it keeps to the process. To let go of all that a
    /// long session holds takes time, which a process that ends can save.
    pub fn leave<R: Wait>(self, rt: &R)
    where
        P: Drop,
        C: Drop,
        M: Drop,
    {
        let (publisher, held) = self.into_parts();
        mem::forget(held);
        publisher.close(rt);
    }

    /// The publisher, and what holds much memory.
    fn into_parts(self) -> (Publisher<P::Value>, ServiceParts<P::Value, P::Message>)
    where
        P: Drop,
        C: Drop,
        M: Drop,
    {
        let Service {
            program: _,
            combiner: _,
            master: _,
            limits: _,
            graph,
            edition: _,
            registry: _,
            publisher,
            kept,
            deferred_drop,
            runs: _,
        } = self;
        (publisher, (graph, kept, deferred_drop))
    }

    /// The run from scratch on the graph as it stands, with the number of calls of compute.
    fn run_cold(&self, alloc: Global) -> Result<(Run<P::Value>, u64), Memory>
        ensures answer { IfOk result
            (λ r. r.0 ≡ answer (job_of_service P.program C.combining M.master self.now.job) self.now.graph) }
        ensures calls { let job = job_of_service P.program C.combining M.master self.now.job in
            IfOk result (λ r. r.1 ≡ calls_of job P.Value.PartialEq.eq P.Message.PartialEq.eq None self.now.graph) }
    {
        let mut meter = Meter::new();
        let run = run(
            alloc,
            &self.graph,
            &self.program,
            &self.combiner,
            &self.master,
            self.limits.missing(),
            self.limits.limit(),
            &mut meter,
        );
        match run {
            Ok(run) => Ok((run, meter.count())),
            Err(_) => Err(AllocError),
        }
    }
}

/// The fault of a batch where there is no edition for it any more.
const NO_EDITION_LEFT: EditFault = EditFault {
    position: 0,
    kind: EditKind::Full,
};
