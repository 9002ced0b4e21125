//! What the words of the command line ask for.
ghost use Rattle.std.specs.Prelude.{◌≡◌, ◌≤◌, ℕ, map, IfOk, IfErr, IfSome, IfNone};
ghost use Rattle.clap.specs.Words.{found_of, one_text};
ghost use Rattle.pregeld_args.specs.Arguments.{AreInRange, AsksForRuns, Explains, Say, WritesIn};
ghost use Rattle.pregeld_args.specs.Arguments.{program_in};
ghost use Rattle.pregeld_args.specs.declared.options.Options.{Options};

use crate::arguments::{
    EPS_LIMIT, EVERY_LIMIT, K_LIMIT, LOSS_LIMIT, PARTITION_LIMIT, ROUNDS_LIMIT, SOURCE_LIMIT,
    SUPERSTEP_LIMIT, WORKER_LIMIT, command,
};
use crate::names::{Combining, Policy, ProgramName};
use clap::error::ErrorKind;
use clap::{ArgMatches, Error};
use pg_global::AnyCombiner;
use pg_graph::{Missing, VertexId};
use pregeld_programs::{Cc, Indegree, MaxValue, Pagerank, Peel, ReadyProgram, Sssp};
use std::alloc::Global;
use std::convert::AsStr;

/// What the program is asked to run.
#[derive(Clone, Copy, Debug, PartialEq, Eq)]
pub struct Options {
    /// The vertex program.
    pub program: ProgramName,
    /// The vertex that distances are measured from.
    pub source: VertexId,
    /// How many edges a vertex needs to stay.
    pub k: u32,
    /// The superstep from which on vertices send no ranks.
    pub rounds: u32,
    /// The run ends once the ranks change by no more than this in all; 0 for no such end.
    pub eps: i64,
    /// How the messages to a vertex are made into one.
    pub combiner: AnyCombiner,
    /// How many partitions the vertices are dealt out to.
    pub partitions: u32,
    /// How many workers step the partitions.
    pub workers: u32,
    /// The most supersteps of a run.
    pub limit: u32,
    /// After how many supersteps partitions are saved; 0 for never.
    pub every: u32,
    /// How many workers may fall before a refresh is refused.
    pub losses: u32,
    /// What becomes of messages to ids that have no vertex.
    pub missing: Missing,
}

/// What stands in place of the options.
#[derive(Debug, Drop)]
pub enum NoOptions {
    /// Help was asked for: its text.
    Help(Error),
    /// A growth was refused.
    Memory,
    /// The words are at fault, and what is.
    Arguments(Option<Error>),
}

/// The options that the words name, the program's name first. They stand in their ranges; those that the
/// words don't name have their defaults.
pub fn options_of<'a, S: AsStr>(alloc: Global, words: &'a [S]) -> Result<Options, NoOptions>
    ensures range { IfOk result AreInRange }
    ensures ok { IfOk result (AsksForRuns (map S.text words.entry.now)) }
    ensures err { IfErr result (Explains (map S.text words.entry.now)) }
{
    let Ok(command) = command(alloc) else {
        return Err(NoOptions::Memory);
    };
    match command.try_get_matches_from(words) {
        Ok(matches) => match read_from(&matches) {
            Some(options) => Ok(options),
            None => Err(NoOptions::Arguments(None)),
        },
        Err(error) => match error.kind() {
            ErrorKind::DisplayHelp => Err(NoOptions::Help(error)),
            ErrorKind::OutOfMemory => Err(NoOptions::Memory),
            _ => Err(NoOptions::Arguments(Some(error))),
        },
    }
}

/// The options, from what was parsed.
fn read_from(matches: &ArgMatches<'_>) -> Option<Options>
    ensures some { IfSome result (λ options. Say (one_text (found_of matches.now)) options) }
    ensures none { IfNone result ((options : Options)
        → Say (one_text (found_of matches.now)) options → ⊥) }
{
    let program = matches.get_one::<ProgramName>("program")?;
    let source = number_in(matches, "source", 0, SOURCE_LIMIT)?;
    let k = number_in(matches, "k", 0, K_LIMIT)?;
    let rounds = number_in(matches, "rounds", 0, ROUNDS_LIMIT)?;
    let eps = number_in(matches, "eps", 0, EPS_LIMIT)?;
    let Combining { combiner } = matches.get_one::<Combining>("combiner")?;
    let partitions = number_in(matches, "partitions", 1, PARTITION_LIMIT)?;
    let workers = number_in(matches, "workers", 1, WORKER_LIMIT)?;
    let limit = number_in(matches, "limit", 1, SUPERSTEP_LIMIT)?;
    let every = number_in(matches, "every", 0, EVERY_LIMIT)?;
    let losses = number_in(matches, "losses", 0, LOSS_LIMIT)?;
    let Policy { missing } = matches.get_one::<Policy>("missing")?;
    Some(Options {
        program,
        source: VertexId::new(source)?,
        k: k as u32,
        rounds: rounds as u32,
        eps: eps as i64,
        combiner,
        partitions: partitions as u32,
        workers: workers as u32,
        limit: limit as u32,
        every: every as u32,
        losses: losses as u32,
        missing,
    })
}

/// The number that an option has, where it is in a range.
fn number_in(matches: &ArgMatches<'_>, name: &str, least: u64, greatest: u64) -> Option<u64>
    ensures range { IfSome result (λ number. (least ≤ number) × (number ≤ greatest)) }
    ensures some { IfSome result
        (WritesIn (one_text (found_of matches.now) name.now) least greatest) }
    ensures none { IfNone result ((number : ℕ)
        → WritesIn (one_text (found_of matches.now) name.now) least greatest number → ⊥) }
{
    let number = matches.get_one::<u64>(name)?;
    if number < least || number > greatest {
        return None;
    }
    Some(number)
}

/// The vertex program that the options name, with its own options.
pub fn program_of(options: &Options) -> ReadyProgram
    ensures { result ≡ program_in options.now.program options.now }
{
    match options.program {
        ProgramName::Sssp => ReadyProgram::Sssp(Sssp {
            source: options.source,
        }),
        ProgramName::Cc => ReadyProgram::Cc(Cc),
        ProgramName::MaxValue => ReadyProgram::MaxValue(MaxValue),
        ProgramName::Indegree => ReadyProgram::Indegree(Indegree),
        ProgramName::Pagerank => ReadyProgram::Pagerank(Pagerank {
            rounds: options.rounds,
            eps: options.eps,
        }),
        ProgramName::Peel => ReadyProgram::Peel(Peel { k: options.k }),
    }
}
