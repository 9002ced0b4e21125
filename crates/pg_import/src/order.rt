//! What the lines of a list mention, by rising id. No answer depends on the order: what it leaves out is
//! looked up when its line goes by.
ghost use Rattle.std.specs.Prelude.{◌≡◌, ℕ, List, Some, slice_get, IfOk, OnOk};
ghost use Rattle.pg_sort.specs.ById.{AreEntriesOf};
ghost use Rattle.pg_graph.specs.Rows.{Rows};
ghost use Rattle.pg_import.specs.Batch.{has_edge, has_vertex};
ghost use Rattle.pg_import.specs.NamedEdges.{AreThereAs};
ghost use Rattle.pg_import.specs.Ranks.{AreKnown, EndsAreKnown, IsKnown, sources_of, targets_of};
ghost use Rattle.pg_import.specs.declared.line.Line.{Line};

use crate::looked_up::LookedUp;
use crate::named_edges::NamedEdges;
use crate::{Line, Memory};
use pg_graph::{Graph, VertexId};
use pg_sort::reordered_by_id;
use std::alloc::Global;
use std::marker::Model;

/// The vertices that the lines of a list mention and a graph doesn't have, the edges that they mention with whether it
/// has them, each once, and where the ends and the edge of each line stand among these.
#[derive(Drop)]
pub(crate) struct Mentioned {
    /// Each as the edge to itself.
    pub(crate) vertices: NamedEdges,
    pub(crate) edges: NamedEdges,
    pub(crate) ranks: Ranks,
}

impl Mentioned {
    /// What these lines mention. Costs O(k log n) for k lines and a graph of n vertices and edges.
    pub(crate) fn of(alloc: Global, lines: &[Line], graph: &Graph) -> Result<Mentioned, Memory>
        ensures vertices { IfOk result (λ mentioned. AreThereAs (λ id _. has_vertex id graph.now) mentioned.vertices) }
        ensures edges { IfOk result
            (λ mentioned. AreThereAs (λ source target. has_edge source target graph.now) mentioned.edges) }
        ensures known { IfOk result (λ mentioned. EndsAreKnown graph.now lines.now mentioned.ranks) }
    {
        let targets = reordered_by_id(alloc, numbered_targets(alloc, lines)?)?;
        let sources = numbered_sources(alloc, lines, targets.as_slice())?;
        let sources = reordered_by_id(alloc, sources)?;
        let mut looked_up = LookedUp::new(alloc, graph, lines.len())?;
        let mut ranks = Ranks::new(alloc, lines.len())?;
        ranks.look_up_ends(&mut looked_up, sources.as_slice(), targets)?;
        ranks.look_up_edges(&mut looked_up, lines, sources.as_slice())?;
        let (vertices, edges) = looked_up.finish();
        Ok(Mentioned {
            vertices,
            edges,
            ranks,
        })
    }
}

/// The targets of lines, with the places of these.
fn numbered_targets(alloc: Global, lines: &[Line]) -> Result<Vec<(usize, VertexId)>, Memory>
    ensures { IfOk result (λ targets. AreEntriesOf (targets_of lines.now) targets.items) }
{
    let mut targets = Vec::with_capacity(alloc, lines.len())?;
    for (place, line) in lines.iter().enumerate() {
        targets.push((place, line.target))?;
    }
    Ok(targets)
}

/// The sources of lines, with the places of these, in the order of these targets.
fn numbered_sources(
    alloc: Global,
    lines: &[Line],
    targets: &[(usize, VertexId)],
) -> Result<Vec<(usize, VertexId)>, Memory>
    ensures { IfOk result (λ sources. AreEntriesOf (sources_of lines.now) sources.items) }
{
    let mut sources = Vec::with_capacity(alloc, targets.len())?;
    for (place, _) in targets {
        if let Some(line) = lines.get(*place) {
            sources.push((*place, line.source))?;
        }
    }
    Ok(sources)
}

/// Where an end of a line stands among the vertices, or that it stands nowhere: it is a vertex that the graph has then.
#[derive(Clone, Copy)]
pub(crate) struct EndRank {
    pub(crate) rank: Option<u32>,
}

impl EndRank {
    /// At the beginning.
    const FIRST: EndRank = EndRank { rank: Some(0) };
}

/// Where the ends of a line stand among the vertices, and its edge among the edges.
#[derive(Clone, Copy)]
pub(crate) struct LineRanks {
    pub(crate) source: EndRank,
    pub(crate) target: EndRank,
    pub(crate) edge: u32,
}

/// Where ends of lines stand, by the places of the lines. A contract sees the list of them.
#[derive(Drop)]
struct EndRanks {
    ranks: Vec<EndRank>,
}

impl Model for EndRanks {
    ghost use Rattle.std.specs.Prelude.{List};
    ghost use Rattle.pg_import.specs.declared.order.EndRank.{EndRank};

    ghost Value = { List EndRank };

    ghost view = { λ r. r.ranks.items };
}

impl EndRanks {
    /// All at the beginning, for so many lines.
    fn new(alloc: Global, lines: usize) -> Result<EndRanks, Memory>
        ensures { IfOk result (λ ranks. (rows : Rows) (ids : List ℕ) → AreKnown rows ids ranks) }
    {
        Ok(EndRanks {
            ranks: Vec::from_elem(alloc, EndRank::FIRST, lines)?,
        })
    }

    /// That of the id at a place.
    fn at(&self, place: usize) -> EndRank
        ensures { (rows : Rows) (ids : List ℕ) (id : ℕ) → slice_get ids place ≡ Some id
            → AreKnown rows ids self.now → IsKnown rows id result }
    {
        match self.ranks.get(place) {
            Some(rank) => *rank,
            None => EndRank::FIRST,
        }
    }

    /// Sets where the id at a place stands.
    fn set(&mut self, place: usize, rank: EndRank)
        ensures { (rows : Rows) (ids : List ℕ) (id : ℕ) → slice_get ids place ≡ Some id → IsKnown rows id rank
            → AreKnown rows ids self.old → AreKnown rows ids self.new }
    {
        if place < self.ranks.len() {
            self.ranks[place] = rank;
        }
    }

    /// Looks up the first of these ids, which rise, as far as their numbers aren't above this one, sets where they
    /// stand, and hands back the others.
    fn look_up_to<'a>(
        &mut self,
        looked_up: &mut LookedUp<'_>,
        entries: &'a [(usize, VertexId)],
        last: u64,
    ) -> Result<&'a [(usize, VertexId)], Memory>
        ensures known { OnOk result ((ids : List ℕ) → AreEntriesOf ids entries.now → AreKnown looked_up.old ids self.old
            → AreKnown looked_up.old ids self.new) }
        ensures others { IfOk result (λ others. (ids : List ℕ) → AreEntriesOf ids entries.now
            → AreEntriesOf ids others.now) }
        ensures same { looked_up.new ≡ looked_up.old }
    {
        for (count, (place, id)) in entries.iter().enumerate() {
            if id.number() > last {
                let (_, others) = entries.split_at(count);
                return Ok(others);
            }
            let rank = EndRank {
                rank: looked_up.add_vertex(*id)?,
            };
            self.set(*place, rank);
        }
        Ok(&[])
    }
}

/// The ranks of all lines of a list.
#[derive(Drop)]
pub(crate) struct Ranks {
    sources: EndRanks,
    targets: EndRanks,
    edges: Vec<u32>,
}

impl Ranks {
    /// All at the beginning, for so many lines.
    fn new(alloc: Global, lines: usize) -> Result<Ranks, Memory>
        ensures { IfOk result (λ ranks. (rows : Rows) (all : List Line) → EndsAreKnown rows all ranks) }
    {
        Ok(Ranks {
            sources: EndRanks::new(alloc, lines)?,
            targets: EndRanks::new(alloc, lines)?,
            edges: Vec::from_elem(alloc, 0, lines)?,
        })
    }

    /// Those of the line at a place.
    pub(crate) fn at(&self, place: usize) -> LineRanks
        ensures { (rows : Rows) (lines : List Line) (line : Line) → slice_get lines place ≡ Some line
            → EndsAreKnown rows lines self.now
            → IsKnown rows line.source result.source × IsKnown rows line.target result.target }
    {
        LineRanks {
            source: self.sources.at(place),
            target: self.targets.at(place),
            edge: self.edges.get(place).copied().unwrap_or(0),
        }
    }

    /// Looks up the sources and the targets of lines, with the places of these, each by rising id, and sets where they
    /// stand. The targets that don't come after a source are looked up before it; their list is let go of in the end.
    fn look_up_ends(
        &mut self,
        looked_up: &mut LookedUp<'_>,
        sources: &[(usize, VertexId)],
        targets: Vec<(usize, VertexId)>,
    ) -> Result<(), Memory>
        ensures known { OnOk result ((lines : List Line) → AreEntriesOf (sources_of lines) sources.now
            → AreEntriesOf (targets_of lines) targets.items → EndsAreKnown looked_up.old lines self.old
            → EndsAreKnown looked_up.old lines self.new) }
        ensures same { looked_up.new ≡ looked_up.old }
    {
        let mut unread = targets.as_slice();
        for (place, id) in sources {
            unread = self.targets.look_up_to(looked_up, unread, id.number())?;
            let rank = EndRank {
                rank: looked_up.add_source(*id)?,
            };
            self.sources.set(*place, rank);
        }
        self.targets.look_up_to(looked_up, unread, u64::MAX)?;
        Ok(())
    }

    /// Looks up the edges of lines, by their sources with their places, by rising source and target, and sets where
    /// they stand.
    fn look_up_edges(
        &mut self,
        looked_up: &mut LookedUp<'_>,
        lines: &[Line],
        sources: &[(usize, VertexId)],
    ) -> Result<(), Memory>
        ensures ends { OnOk result ((rows : Rows) (all : List Line) → EndsAreKnown rows all self.old
            → EndsAreKnown rows all self.new) }
        ensures same { looked_up.new ≡ looked_up.old }
    {
        for (place, source) in sources {
            if let Some(line) = lines.get(*place) {
                let edge = looked_up.add_edge(*source, line.target)?;
                self.set_edge(*place, edge);
            }
        }
        Ok(())
    }

    /// Sets where the edge of a line stands.
    fn set_edge(&mut self, place: usize, edge: u32)
        ensures { (rows : Rows) (lines : List Line) → EndsAreKnown rows lines self.old
            → EndsAreKnown rows lines self.new }
    {
        if place < self.edges.len() {
            self.edges[place] = edge;
        }
    }
}
