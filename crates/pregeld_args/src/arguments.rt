//! What the command line takes.
ghost use Rattle.std.specs.Prelude.{◌≡◌, false, codes, IfOk};
ghost use Rattle.clap.specs.Words.{app_of, rule_of};
ghost use Rattle.pregeld_args.specs.Arguments.{AreOptionWords, AreWords, OptionWords, WordList};
ghost use Rattle.pregeld_args.specs.Arguments.{combiner_word, combiner_words};
ghost use Rattle.pregeld_args.specs.Arguments.{missing_word, missing_words};
ghost use Rattle.pregeld_args.specs.Arguments.{number_rule, program, program_rule, program_words};
ghost use Rattle.pregeld_args.specs.Arguments.{word_rule};
ghost use Rattle.pg_global.specs.declared.combiner.AnyCombiner.TheVariants.{NoCombiner};
ghost use Rattle.pg_graph.specs.declared.missing.Missing.TheVariants.{Drop};

use crate::names::{COMBINERS, POLICIES, PROGRAMS};
use clap::builder::ValueParser;
use clap::{Arg, ArgAction, Command};
use std::alloc::{AllocError, Global};

/// The name of the program, whatever its file is called.
const NAME: &str = "pregeld";

/// What help begins with.
const ABOUT: &str =
    "Keeps a graph and runs a vertex program on it; after an edit it runs anew only what differs.\n\
Commands are read from standard input, a line each, and so are edge lists: `import list N`,\n\
and then N lines.";

/// What help ends with.
const SESSION: &str = "Commands:\n\
\x20 vertex ID [INPUT], input ID N, unvertex ID\n\
\x20 edge SOURCE TARGET [WEIGHT], reweigh SOURCE TARGET WEIGHT, unedge SOURCE TARGET\n\
\x20 commit, import list N, import csv N, refresh\n\
\x20 get ID, agg NAME, dump, report, check\n\
\n\
A session to paste into `pregeld --program sssp`, two edges and the distances from 1:\n\
\n\
\x20 import list 2\n\
\x20 1 2 5\n\
\x20 2 3\n\
\x20 refresh\n\
\x20 dump\n\
\n\
docs/PROTOCOL.md has the commands with their answers.";

/// The greatest id.
pub(crate) const SOURCE_LIMIT: u64 = 9_223_372_036_854_775_807;

/// The most edges that a vertex may need to stay.
pub(crate) const K_LIMIT: u64 = 1_000_000;

/// The most rounds of ranks.
pub(crate) const ROUNDS_LIMIT: u64 = 10_000;

/// The greatest change of ranks that may end a run.
pub(crate) const EPS_LIMIT: u64 = 1_000_000_000_000;

/// The most partitions of a run.
pub(crate) const PARTITION_LIMIT: u64 = 64;

/// The most workers of a run.
pub(crate) const WORKER_LIMIT: u64 = 16;

/// The most supersteps of a run.
pub(crate) const SUPERSTEP_LIMIT: u64 = 10_000;

/// The most supersteps from one save to the next.
pub(crate) const EVERY_LIMIT: u64 = 1_000;

/// The most workers that a run may bear to lose.
pub(crate) const LOSS_LIMIT: u64 = 16;

/// What the command line takes.
pub(crate) fn command<'a>(alloc: Global) -> Result<Command<'a>, AllocError>
    ensures { IfOk result (λ c. (words : OptionWords)
        × AreOptionWords words × (app_of c ≡ program words)) }
{
    Command::new(alloc, NAME)
        .bin_name(NAME)?
        .about(ABOUT)
        .after_help(SESSION)
        .arg(program_option(alloc))?
        .arg(number_option(
            alloc,
            "source",
            0,
            SOURCE_LIMIT,
            "1",
            "sssp: the vertex that distances are measured from, 0 to 2^63 - 1",
        ))?
        .arg(number_option(
            alloc,
            "k",
            0,
            K_LIMIT,
            "2",
            "peel: how many edges a vertex needs to stay, 0 to 1000000",
        ))?
        .arg(number_option(
            alloc,
            "rounds",
            0,
            ROUNDS_LIMIT,
            "30",
            "pagerank: the superstep from which on nothing is sent, 0 to 10000",
        ))?
        .arg(number_option(
            alloc,
            "eps",
            0,
            EPS_LIMIT,
            "0",
            "pagerank: the change of all ranks that ends a run, if it is above 0, up to 10^12",
        ))?
        .arg(combiner_option(alloc))?
        .arg(number_option(
            alloc,
            "partitions",
            1,
            PARTITION_LIMIT,
            "1",
            "How many partitions the vertices are dealt out to, 1 to 64",
        ))?
        .arg(number_option(
            alloc,
            "workers",
            1,
            WORKER_LIMIT,
            "1",
            "How many workers step the partitions, each in a thread, 1 to 16",
        ))?
        .arg(number_option(
            alloc,
            "limit",
            1,
            SUPERSTEP_LIMIT,
            "1000",
            "The most supersteps of a run, 1 to 10000",
        ))?
        .arg(number_option(
            alloc,
            "every",
            0,
            EVERY_LIMIT,
            "0",
            "After how many supersteps partitions are saved, 0 for never, up to 1000",
        ))?
        .arg(number_option(
            alloc,
            "losses",
            0,
            LOSS_LIMIT,
            "16",
            "The most workers that a refresh may lose, 0 to 16",
        ))?
        .arg(missing_option(alloc))
}

/// An option with a number in a range.
fn number_option<'a>(
    alloc: Global,
    name: &'a str,
    least: u64,
    greatest: u64,
    default: &'a str,
    help: &'a str,
) -> Arg<'a>
    ensures rule { rule_of result ≡ number_rule name.now least greatest default.now }
    ensures local { result.global ≡ false }
{
    Arg::new(alloc, name)
        .long(name)
        .action(ArgAction::Set)
        .value_parser(ValueParser::unsigned(least, greatest))
        .default_value(default)
        .help(help)
}

/// The option that names the vertex program.
fn program_option<'a>(alloc: Global) -> Arg<'a>
    ensures rule { (words : WordList) × AreWords words program_words
        × (rule_of result ≡ program_rule words) }
    ensures local { result.global ≡ false }
{
    Arg::new(alloc, "program")
        .long("program")
        .required(true)
        .action(ArgAction::Set)
        .value_parser(ValueParser::Names(PROGRAMS.as_slice()))
        .help("The vertex program")
}

/// The option that names the combiner.
fn combiner_option<'a>(alloc: Global) -> Arg<'a>
    ensures rule { (words : WordList) × AreWords words combiner_words
        × (rule_of result ≡ word_rule (codes "combiner") words (combiner_word NoCombiner)) }
    ensures local { result.global ≡ false }
{
    Arg::new(alloc, "combiner")
        .long("combiner")
        .action(ArgAction::Set)
        .value_parser(ValueParser::Names(COMBINERS.as_slice()))
        .default_value("none")
        .help("How the messages to a vertex are combined")
}

/// The option that names the policy for messages to no vertex.
fn missing_option<'a>(alloc: Global) -> Arg<'a>
    ensures rule { (words : WordList) × AreWords words missing_words
        × (rule_of result ≡ word_rule (codes "missing") words (missing_word Drop)) }
    ensures local { result.global ≡ false }
{
    Arg::new(alloc, "missing")
        .long("missing")
        .action(ArgAction::Set)
        .value_parser(ValueParser::Names(POLICIES.as_slice()))
        .default_value("drop")
        .help("What becomes of messages to ids without a vertex")
}
