//! All that a vertex program of your own names, in one crate. It has no code: it hands on what programs, masters,
//! services and their tests need of the crates below. `docs/PROGRAMS.md` writes a program step by step, and
//! `docs/API.md` runs a service by calls.
//!
//! # A program
//!
//! A type that implements [`Computation`] says what a vertex does in one superstep. In `compute` it has a [`Vertex`],
//! the messages that came, and a [`Cx`], by which it sends messages and contributes to aggregators. It declares the
//! aggregators and totals that it uses in [`Declared`], by [`Place`]. Values and messages are [`Coded`]: `i64`, `u64`,
//! `bool`, [`VertexId`], pairs and [`Sequence`]s of these, or a type of your own. [`Sssp`], [`Cc`], [`MaxValue`],
//! [`Indegree`], [`Pagerank`] and [`Peel`] are ready to run; [`ReadyProgram`] is one of them, [`ReadyMaster`] its
//! master.
//!
//! # A combiner and a master
//!
//! A [`MessageCombiner`] makes the messages to one vertex into one; [`AnyCombiner`] has the usual ones, and one that
//! doesn't combine. A [`MasterCompute`] registers aggregators in a [`Registry`], by name, and decides before each
//! superstep by its [`MasterState`]; [`NoMaster`] registers none. [`AnyAggregator`] has the kinds of aggregators, and
//! [`gather`] folds contributions.
//!
//! # The graph
//!
//! A [`Graph`] has a [`Row`] for each vertex: an input, and out-edges by rising target. [`Edit`]s change it, a
//! [`Batch`] at a time, as a whole or not at all; an [`EditFault`] names the first one that is refused. [`read_list`]
//! and [`read_csv`] read edge lists, and [`into_batch`] makes a batch of their [`Line`]s.
//!
//! # A service
//!
//! A [`Service`] keeps a graph, runs a program with its combiner and master on it, and publishes the [`Answers`]. Its
//! [`Limits`] say on how many partitions and workers, after how many supersteps it stops, and, by [`Missing`], what
//! becomes of messages to ids without a vertex. A refresh gives a [`Report`], or is refused by a [`RefreshFault`]. It
//! takes a [`Shelf`] for checkpoints, as [`MemShelf`]; a [`Fate`], by which tests have workers fall, as [`NoFate`];
//! and a [`Gate`] that workers pass, as [`NoGate`]. A [`Loss`] is a worker that fell.
//!
//! An [`AnswerReader`] looks at what is published from any thread, and never waits. A [`Look`] shows one
//! publication. A reader that learns what the service has [`Told`] looks at nothing earlier.
//!
//! # One run
//!
//! [`run`] is the plain runner: one [`Run`] from scratch, in one thread, without a service. A [`Meter`] counts its
//! calls of `compute`.
//!
//! # Definitions
//!
//! `specs/Handed.antt` hands on the definitions, so that a contract or a definition of yours names them as
//! `Rattle.pregel.specs.Handed.{Inputs, Program, Record}`. The laws of a shelf stand in `pg_checkpoint`; a crate whose
//! proofs name them lists that crate too.
#![tactic(auto)]

pub use pg_global::{
    Aggregator, AnyAggregator, AnyCombiner, MasterCompute, MasterState, MessageCombiner, NoMaster,
    RegisterFault, Registration, Registry, gather,
};
pub use pg_graph::{
    Batch, Edges, Edit, EditFault, EditKind, Edition, Graph, Memory, Missing, PartitionId, Row,
    Superstep, VertexId, WorkerId,
};
pub use pg_import::{ImportFault, ImportKind, Line, into_batch, read_csv, read_list};
pub use pg_model::{Declared, Ending, Place, Run, Sequence, View, Visible};
pub use pg_program::{Coded, Computation, Cx, EdgeRoom, Meter, Plain, Vertex, value_at};
pub use pg_scratch::{RunFault, run};
pub use pg_service::{
    AnswerReader, Answers, Cause, Check, Fate, Gate, Limits, Look, Loss, MemShelf, NoFate, NoGate,
    RefreshFault, Report, Service, Shelf, ShelfFault, Told, ending_word, looks_are_answers,
    publications_are_answers, same,
};
pub use pregeld_programs::{
    Cc, Indegree, MaxValue, Pagerank, Peel, ReadyMaster, ReadyProgram, Sssp,
};
