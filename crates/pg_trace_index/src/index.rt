//! The index: in which supersteps each vertex ran.
ghost use Rattle.std.specs.Prelude.{◌≡◌, [], IfOk};
ghost use Rattle.pg_map.specs.Entries.{ChangesRise, HasRisingIds, with_changes};
ghost use Rattle.pg_trace_index.specs.Chunks.{AreSound, all_of};
ghost use Rattle.pg_trace_index.specs.Occurrences.{IsNoted, StepsRise};

use crate::base::{Base, Lies};
use crate::cursor::IndexCursor;
use crate::log::Log;
use crate::maps::changed;
use crate::overlay::{Overlay, copied, note_in_log, note_over, overlay_entries};
use crate::steps::Steps;
use pg_graph::{Memory, VertexId};
use pg_map::Map;
use std::alloc::Global;
use std::marker::Model;

/// In which supersteps each vertex ran: a map that copies share, and an overlay of notes, which are made in place. In a
/// first run a log of all runs takes the place of the map. A contract sees the entries of the map or the log with the
/// notes put over them, by rising id.
///
/// That an index is the index of the records of some supersteps is `IsIndex`; what it becomes where those of one change
/// is `IsNoted`.
pub struct Index {
    base: Base,
    overlay: Overlay,
}

// By hand, so that it is let go by one call wherever that is, and not field by field.
impl Drop for Index {
    fn drop(self) {
        let Index {
            base: _,
            overlay: _,
        } = self;
    }
}

impl Model for Index {
    ghost use Rattle.std.specs.Prelude.{ℕ, List};
    ghost use Rattle.pg_map.specs.Entries.{HasRisingIds, with_changes};
    ghost use Rattle.pg_trace_index.specs.Chunks.{AreSound, all_of};

    ghost Value = { List (ℕ × List ℕ) };

    ghost view = { λ i. with_changes (all_of i.overlay.items) i.base };

    ghost invariant = { λ i. HasRisingIds i.base × AreSound i.overlay.items };
}

impl Index {
    /// An index of no supersteps.
    pub fn new(alloc: Global) -> Index
        ensures { result ≡ [] }
    {
        Index::over(Base::in_log(Log::new(alloc)), Vec::new(alloc))
    }

    /// An index with no notes.
    fn of(alloc: Global, ran: Map<Steps>) -> Index
        requires { HasRisingIds ran }
        ensures { result ≡ ran }
    {
        Index::over(Base::in_map(ran), Vec::new(alloc))
    }

    /// An index of notes over a map or a log.
    fn over(base: Base, overlay: Overlay) -> Index
        requires rising { HasRisingIds base }
        requires sound { AreSound overlay.items }
        ensures { result ≡ with_changes (all_of overlay.items) base }
    {
        Index { base, overlay }
    }

    /// Look-ups of the runs of vertices.
    pub fn cursor(&self) -> IndexCursor<'_>
        ensures { result ≡ self.now }
    {
        IndexCursor::of(self.base.cursor(), &self.overlay)
    }

    /// A copy that shares the index's map, with the notes put into it. Where there are none it costs O(1), and else a
    /// copy of what they change; in a first run O(1) a run.
    pub fn cheap_clone(&self, alloc: Global) -> Result<Index, Memory>
        ensures { IfOk result (λ index. index ≡ self.now) }
    {
        let base = self.base.map(alloc)?;
        let changes = copied(alloc, self.overlay.as_slice())?;
        let ran = changed(alloc, base, changes)?;
        Ok(Index::of(alloc, ran))
    }

    /// This index with the notes put into its map. Where there are none it costs O(1), where the map has no entries
    /// O(1) a note, and else a copy of the chunks that they change; in a first run O(1) a run.
    pub fn sealed(self, alloc: Global) -> Result<Index, Memory>
        ensures { IfOk result (λ index. index ≡ self) }
    {
        let Index { base, overlay } = self;
        let base = base.into_map(alloc)?;
        let changes = overlay_entries(alloc, overlay)?;
        let ran = changed(alloc, base, changes)?;
        Ok(Index::of(alloc, ran))
    }

    /// The index with notes of these vertices, by rising id: at which place among the records of a superstep theirs
    /// stands, or that they have none there. The index is gone where memory is refused.
    ///
    /// For k vertices it costs k look-ups among the notes, and k in the map at most; and it copies no chunk. One that
    /// ran in this superstep and has a record there also costs two binary searches among its runs, and the place that
    /// was noted of it stays. Any other one that has no note yet, that ran in a later superstep, or that is given none,
    /// costs a copy of its runs. In a first run one that has no note yet costs one look-up and O(1) where it runs
    /// again, as long as nothing else was noted, and else a copy of its runs.
    pub fn noted(
        self,
        alloc: Global,
        superstep: u32,
        given: &[(VertexId, Option<u32>)],
    ) -> Result<Index, Memory>
        requires rise { ChangesRise given.now }
        requires steps { StepsRise self }
        ensures { IfOk result (λ after. IsNoted superstep given.now self after) }
    {
        let Index { base, mut overlay } = self;
        let Base { lies } = base;
        match lies {
            Lies::InMap(map) => {
                let base = Base::in_map(map);
                note_over(alloc, &mut overlay, &base, superstep, given)?;
                Ok(Index::over(base, overlay))
            }
            Lies::InLog(log) => {
                let log = note_in_log(alloc, &mut overlay, log, superstep, given)?;
                Ok(Index::over(Base::in_log(log), overlay))
            }
        }
    }

    /// A copy of this index with these vertices noted, sealed. It costs what `cheap_clone`, `noted` and `sealed` do.
    pub fn noted_warm(
        &self,
        alloc: Global,
        superstep: u32,
        given: &[(VertexId, Option<u32>)],
    ) -> Result<Index, Memory>
        requires rise { ChangesRise given.now }
        requires steps { StepsRise self.now }
        ensures { IfOk result (λ after. IsNoted superstep given.now self.now after) }
    {
        let copy = self.cheap_clone(alloc)?;
        let noted = copy.noted(alloc, superstep, given)?;
        noted.sealed(alloc)
    }
}
