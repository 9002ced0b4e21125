//! Look-ups in an index.
ghost use Rattle.std.specs.Prelude.{◌≡◌, ◌+◌};
ghost use Rattle.std.specs.List.Sorted.{IsNonDecreasingBy};
ghost use Rattle.std.specs.Option.{option_map};
ghost use Rattle.pg_map.specs.Entries.{HasRisingIds, value_at, with_changes};
ghost use Rattle.pg_trace_index.specs.Chunks.{AreSound, all_of};
ghost use Rattle.pg_trace_index.specs.Occurrences.{last_of, steps_below, steps_in};

use crate::base::BaseCursor;
use crate::chain::Occurrences;
use crate::chunk::get;
use crate::overlay::Overlay;
use crate::ran::Occurrence;
use pg_graph::VertexId;
use std::marker::Model;

/// Looks up ids in an index: among the notes, and then in the map or the log. In each an id near the one before costs a
/// search near that. A contract sees the index.
#[derive(Drop)]
pub struct IndexCursor<'a> {
    base: BaseCursor<'a>,
    overlay: &'a Overlay,
    overlay_begun: usize,
}

impl<'a> Model for IndexCursor<'a> {
    ghost use Rattle.std.specs.Prelude.{ℕ, List};
    ghost use Rattle.pg_map.specs.Entries.{HasRisingIds, with_changes};
    ghost use Rattle.pg_trace_index.specs.Chunks.{AreSound, all_of};

    ghost Value = { List (ℕ × List ℕ) };

    ghost view = { λ f. with_changes (all_of f.overlay.now.items) f.base };

    ghost invariant = { λ f. HasRisingIds f.base × AreSound f.overlay.now.items };
}

/// The last runs of a vertex before a superstep and before the next one. They are one where the vertex didn't run in
/// the superstep.
#[derive(Clone, Copy, Debug, PartialEq, Eq)]
pub struct LastOccurrences {
    /// The last one before the superstep, if there is one.
    pub before: Option<Occurrence>,
    /// The last one before the next superstep, if there is one.
    pub after: Option<Occurrence>,
}

impl<'a> IndexCursor<'a> {
    /// Look-ups in an index of these parts.
    pub(crate) fn of(base: BaseCursor<'a>, overlay: &'a Overlay) -> IndexCursor<'a>
        requires rising { HasRisingIds base }
        requires sound { AreSound overlay.now.items }
        ensures { result ≡ with_changes (all_of overlay.now.items) base.entry }
    {
        IndexCursor {
            base,
            overlay,
            overlay_begun: 0,
        }
    }

    /// What there is of an id.
    fn get(&mut self, id: VertexId) -> Option<Occurrences<'a>>
        ensures value { result ≡ value_at id self.old }
        ensures same { self.new ≡ self.old }
    {
        let overlay = self.overlay;
        match get(overlay.as_slice(), &mut self.overlay_begun, id) {
            Some(steps) => Occurrences::noted(steps),
            None => self.base.get(id),
        }
    }

    /// The last run of a vertex before a superstep. Where that isn't its last of all, it is found by halving among
    /// those of the vertex; in a first run, by a step for each run after it.
    #[inline(always)]
    pub fn last_before(&mut self, id: VertexId, superstep: u32) -> Option<Occurrence>
        requires { IsNonDecreasingBy (λ t. t) (steps_in (value_at id self.old)) }
        ensures value { option_map (λ r. r.superstep) result
            ≡ last_of (steps_below superstep (steps_in (value_at id self.old))) }
        ensures same { self.new ≡ self.old }
    {
        if self.overlay.is_empty() {
            return self.base.last_before(id, superstep);
        }
        let steps = self.get(id)?;
        steps.last_below(superstep)
    }

    /// The last runs of a vertex before a superstep and before the next one, by one look-up of the vertex. Each costs
    /// what `last_before` does then.
    pub fn last_around(&mut self, id: VertexId, superstep: u32) -> LastOccurrences
        requires { IsNonDecreasingBy (λ t. t) (steps_in (value_at id self.old)) }
        ensures before { option_map (λ r. r.superstep) result.before
            ≡ last_of (steps_below superstep (steps_in (value_at id self.old))) }
        ensures after { option_map (λ r. r.superstep) result.after
            ≡ last_of (steps_below (superstep + 1) (steps_in (value_at id self.old))) }
        ensures same { self.new ≡ self.old }
    {
        match self.get(id) {
            Some(steps) => LastOccurrences {
                before: steps.last_below(superstep),
                after: steps.last_up_to(superstep),
            },
            None => LastOccurrences {
                before: None,
                after: None,
            },
        }
    }
}
