//! The words for programs, combiners and policies.

use pg_global::AnyCombiner;
use pg_graph::Missing;
use std::str::FromStr;

/// The name of a ready program.
#[derive(Clone, Copy, Debug, PartialEq, Eq)]
pub enum ProgramName {
    /// `sssp`: distances from a source.
    Sssp,
    /// `cc`: components.
    Cc,
    /// `max`: the greatest input along the paths to each vertex.
    MaxValue,
    /// `indegree`: how many edges lead to each vertex.
    Indegree,
    /// `pagerank`: ranks.
    Pagerank,
    /// `peel`: the core of vertices that have so many edges.
    Peel,
}

/// A combiner, as its word says.
#[derive(Clone, Copy, Debug, PartialEq, Eq)]
pub(crate) struct Combining {
    pub combiner: AnyCombiner,
}

/// A policy for messages to no vertex, as its word says.
#[derive(Clone, Copy, Debug, PartialEq, Eq)]
pub(crate) struct Policy {
    pub missing: Missing,
}

/// The fault of a text that is none of the words.
#[derive(Clone, Copy, Debug, PartialEq, Eq)]
pub struct NoName;

/// The words for the programs.
pub(crate) static PROGRAMS: [&str; 6] = ["sssp", "cc", "max", "indegree", "pagerank", "peel"];

/// The words for the combiners.
pub(crate) static COMBINERS: [&str; 4] = ["none", "min", "max", "sum"];

/// The words for the policies.
pub(crate) static POLICIES: [&str; 2] = ["drop", "create"];

impl FromStr for ProgramName {
    ghost use Rattle.std.specs.Prelude.{MatchResult, ◌≡◌};
    ghost use Rattle.pregeld_args.specs.declared.names.ProgramName.{ProgramName};
    ghost use Rattle.pregeld_args.specs.Arguments.{program_word};

    type Err = NoName;

    ghost from_str_gives = { λ text result. MatchResult result (λ name. text ≡ program_word name)
        (λ _. (name : ProgramName) → text ≡ program_word name → ⊥) };

    fn from_str(text: &str) -> Result<ProgramName, NoName> {
        match text {
            "sssp" => Ok(ProgramName::Sssp),
            "cc" => Ok(ProgramName::Cc),
            "max" => Ok(ProgramName::MaxValue),
            "indegree" => Ok(ProgramName::Indegree),
            "pagerank" => Ok(ProgramName::Pagerank),
            "peel" => Ok(ProgramName::Peel),
            _ => Err(NoName),
        }
    }
}

impl FromStr for Combining {
    ghost use Rattle.std.specs.Prelude.{MatchResult, ◌≡◌};
    ghost use Rattle.pg_global.specs.declared.combiner.AnyCombiner.{AnyCombiner};
    ghost use Rattle.pregeld_args.specs.Arguments.{combiner_word};

    type Err = NoName;

    ghost from_str_gives = { λ text result. MatchResult result
        (λ c. text ≡ combiner_word c.combiner)
        (λ _. (combiner : AnyCombiner) → text ≡ combiner_word combiner → ⊥) };

    fn from_str(text: &str) -> Result<Combining, NoName> {
        let combiner = match text {
            "none" => AnyCombiner::NoCombiner,
            "min" => AnyCombiner::Min,
            "max" => AnyCombiner::Max,
            "sum" => AnyCombiner::Sum,
            _ => return Err(NoName),
        };
        Ok(Combining { combiner })
    }
}

impl FromStr for Policy {
    ghost use Rattle.std.specs.Prelude.{MatchResult, ◌≡◌};
    ghost use Rattle.pg_graph.specs.declared.missing.Missing.{Missing};
    ghost use Rattle.pregeld_args.specs.Arguments.{missing_word};

    type Err = NoName;

    ghost from_str_gives = { λ text result. MatchResult result
        (λ policy. text ≡ missing_word policy.missing)
        (λ _. (missing : Missing) → text ≡ missing_word missing → ⊥) };

    fn from_str(text: &str) -> Result<Policy, NoName> {
        let missing = match text {
            "drop" => Missing::Drop,
            "create" => Missing::Create,
            _ => return Err(NoName),
        };
        Ok(Policy { missing })
    }
}
