//! What lies under the notes of an index: a map that copies share, or the log of a first run.
ghost use Rattle.std.specs.Prelude.{◌≡◌, IfOk};
ghost use Rattle.std.specs.List.Sorted.{IsNonDecreasingBy};
ghost use Rattle.std.specs.Option.{option_map};
ghost use Rattle.pg_map.specs.Entries.{value_at};
ghost use Rattle.pg_trace_index.specs.Occurrences.{last_of, steps_below, steps_in};

use crate::chain::Occurrences;
use crate::log::{Log, LogCursor};
use crate::ran::Occurrence;
use crate::steps::Steps;
use pg_graph::{Memory, VertexId};
use pg_map::{Cursor, Map};
use std::alloc::Global;
use std::marker::Model;

/// The runs of vertices. A contract sees their supersteps, by rising id.
#[derive(Drop)]
pub(crate) struct Base {
    pub(crate) lies: Lies,
}

/// Where they lie.
#[derive(Drop)]
pub(crate) enum Lies {
    InMap(Map<Steps>),
    InLog(Log),
}

impl Model for Base {
    ghost use Rattle.std.specs.Prelude.{ℕ, List};
    ghost use Rattle.pg_trace_index.specs.Forms.{entries_by};

    ghost Value = { List (ℕ × List ℕ) };

    ghost view = { λ b. entries_by b.lies };
}

/// Looks up ids. A contract sees what it looks them up in.
#[derive(Drop)]
pub(crate) struct BaseCursor<'a> {
    finding: Finding<'a>,
}

/// How it looks them up.
#[derive(Drop)]
pub(crate) enum Finding<'a> {
    ByMap(Cursor<'a, Steps>),
    ByLog(LogCursor<'a>),
}

impl<'a> Model for BaseCursor<'a> {
    ghost use Rattle.std.specs.Prelude.{ℕ, List};
    ghost use Rattle.pg_trace_index.specs.Forms.{found_by};

    ghost Value = { List (ℕ × List ℕ) };

    ghost view = { λ f. found_by f.finding };
}

impl<'a> BaseCursor<'a> {
    /// Look-ups in a map.
    pub(crate) fn by_map(cursor: Cursor<'a, Steps>) -> BaseCursor<'a>
        ensures { result ≡ cursor.entry }
    {
        BaseCursor {
            finding: Finding::ByMap(cursor),
        }
    }

    /// Look-ups in a log.
    pub(crate) fn by_log(cursor: LogCursor<'a>) -> BaseCursor<'a>
        ensures { result ≡ cursor.entry }
    {
        BaseCursor {
            finding: Finding::ByLog(cursor),
        }
    }

    /// What there is of an id.
    pub(crate) fn get(&mut self, id: VertexId) -> Option<Occurrences<'a>>
        ensures value { result ≡ value_at id self.old }
        ensures same { self.new ≡ self.old }
    {
        match &mut self.finding {
            Finding::ByMap(cursor) => match cursor.get(id) {
                Some(steps) => Some(Occurrences::listed(steps)),
                None => None,
            },
            Finding::ByLog(cursor) => cursor.get(id),
        }
    }

    /// The last run of a vertex before a superstep: as `get` and `last_below` find it, in fewer steps.
    #[inline(always)]
    pub(crate) fn last_before(&mut self, id: VertexId, superstep: u32) -> Option<Occurrence>
        requires { IsNonDecreasingBy (λ t. t) (steps_in (value_at id self.old)) }
        ensures value { option_map (λ r. r.superstep) result
            ≡ last_of (steps_below superstep (steps_in (value_at id self.old))) }
        ensures same { self.new ≡ self.old }
    {
        match &mut self.finding {
            Finding::ByMap(cursor) => last_before(cursor, id, superstep),
            Finding::ByLog(cursor) => cursor.last_before(id, superstep),
        }
    }
}

/// The last run before a superstep of a vertex in a map.
fn last_before(cursor: &mut Cursor<'_, Steps>, id: VertexId, superstep: u32) -> Option<Occurrence>
    requires { IsNonDecreasingBy (λ t. t) (steps_in (value_at id cursor.old)) }
    ensures value { option_map (λ r. r.superstep) result
        ≡ last_of (steps_below superstep (steps_in (value_at id cursor.old))) }
    ensures same { cursor.new ≡ cursor.old }
{
    match cursor.get(id) {
        Some(steps) => steps.last_below(superstep),
        None => None,
    }
}

impl Base {
    /// Runs in a map.
    pub(crate) fn in_map(map: Map<Steps>) -> Base
        ensures { result ≡ map }
    {
        Base {
            lies: Lies::InMap(map),
        }
    }

    /// Runs in a log.
    pub(crate) fn in_log(log: Log) -> Base
        ensures { result ≡ log }
    {
        Base {
            lies: Lies::InLog(log),
        }
    }

    /// Look-ups of ids.
    pub(crate) fn cursor(&self) -> BaseCursor<'_>
        ensures { result ≡ self.now }
    {
        match &self.lies {
            Lies::InMap(map) => BaseCursor::by_map(map.cursor()),
            Lies::InLog(log) => BaseCursor::by_log(log.cursor()),
        }
    }

    /// The map of the steps, for which the base is used up. It costs O(1) where they lie in one, and else O(1) a run.
    pub(crate) fn into_map(self, alloc: Global) -> Result<Map<Steps>, Memory>
        ensures { IfOk result (λ map. map ≡ self) }
    {
        let Base { lies } = self;
        match lies {
            Lies::InMap(map) => Ok(map),
            Lies::InLog(log) => map_of(alloc, &log),
        }
    }

    /// A copy of them in a map. It costs O(1) where they lie in one, and else O(1) a run.
    pub(crate) fn map(&self, alloc: Global) -> Result<Map<Steps>, Memory>
        ensures { IfOk result (λ map. map ≡ self.now) }
    {
        match &self.lies {
            Lies::InMap(map) => map.cheap_clone(),
            Lies::InLog(log) => map_of(alloc, log),
        }
    }
}

/// A log in a map.
fn map_of(alloc: Global, log: &Log) -> Result<Map<Steps>, Memory>
    ensures { IfOk result (λ map. map ≡ log.now) }
{
    let entries = log.listed(alloc)?;
    Map::from_rising(alloc, entries)
}
