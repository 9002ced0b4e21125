//! Rising ids, and the place of each.
ghost use Rattle.std.specs.Prelude.{◌≡◌, false, slice_get, Some, IfSome, IfOk, MatchOption};
ghost use Rattle.std.specs.Ordering.{nat_cmp};
ghost use Rattle.std.specs.List.Sorted.{IsStrictlySortedBy};
ghost use Rattle.pg_model.specs.Superstep.{has_id, ids as ids_of};

use pg_graph::{Memory, VertexId};
use pg_model::VertexWithInbox;
use std::alloc::Global;
use std::cmp::min;
use std::marker::Model;

/// Among how many ids of a slot one is looked for, before it is looked for among all.
const NEAR: usize = 4;

/// How ids are spread over slots: an id's slot is its distance from the first one, shifted.
#[derive(Clone, Copy, Drop)]
struct Spread {
    first: u64,
    shift: u32,
}

impl Spread {
    /// A spread of rising ids over slots whose number is at most twice theirs.
    fn over(ids: &[VertexId]) -> Spread {
        match (ids.first(), ids.last()) {
            (Some(first), Some(last)) => {
                let width = last.number().wrapping_sub(first.number());
                let count = ids.len() as u64;
                Spread {
                    first: first.number(),
                    shift: count.leading_zeros().saturating_sub(width.leading_zeros()),
                }
            }
            _ => Spread { first: 0, shift: 0 },
        }
    }

    fn slot(self, id: VertexId) -> usize {
        id.number()
            .wrapping_sub(self.first)
            .wrapping_shr(self.shift) as usize
    }
}

/// Rising ids with a table of where those of each slot begin. The table only says where to look first: what
/// is found is right whatever it says. Where ids are without large gaps or spread evenly, a look-up costs O(1),
/// and never more than a binary search.
#[derive(Drop)]
pub struct IdIndex {
    items: Vec<VertexId>,
    spread: Spread,
    starts: Vec<u32>,
    is_dense: bool,
}

impl Model for IdIndex {
    ghost use Rattle.std.specs.Prelude.{ℕ, List};

    ghost Value = { List ℕ };

    ghost view = { λ i. i.items.items };
}

impl IdIndex {
    /// The ids of vertices. Costs one walk over them.
    pub fn of_vertices<V, M>(
        alloc: Global,
        with_inboxes: &[VertexWithInbox<V, M>],
    ) -> Result<IdIndex, Memory>
        ensures { IfOk result (λ ids. ids ≡ ids_of with_inboxes.now) }
    {
        let items = items_of(alloc, with_inboxes)?;
        IdIndex::new(alloc, items)
    }

    /// These ids. Costs one walk over them.
    pub(crate) fn new(alloc: Global, items: Vec<VertexId>) -> Result<IdIndex, Memory>
        ensures { IfOk result (λ ids. ids ≡ items.items) }
    {
        let spread = Spread::over(items.as_slice());
        let starts = starts_of(alloc, items.as_slice(), spread)?;
        let is_dense = spread.shift == 0 && starts.len() == items.len();
        Ok(IdIndex {
            items,
            spread,
            starts,
            is_dense,
        })
    }

    /// Where an id is looked for first: at its slot where no id is omitted between the first and the last.
    fn start_of(&self, id: VertexId) -> usize {
        let slot = self.spread.slot(id);
        if self.is_dense {
            return slot;
        }
        match self.starts.get(slot) {
            Some(start) => *start as usize,
            None => 0,
        }
    }

    /// The place of an id.
    pub(crate) fn place_of(&self, id: VertexId) -> Option<usize>
        requires { IsStrictlySortedBy nat_cmp self.now }
        ensures { MatchOption result (has_id self.now id ≡ false)
            (λ place. slice_get self.now place ≡ Some id) }
    {
        match found_near(self.items.as_slice(), self.start_of(id), id) {
            Some(place) => Some(place),
            None => found_in(self.items.as_slice(), id),
        }
    }
}

/// The ids of vertices, one after another.
fn items_of<V, M>(
    alloc: Global,
    with_inboxes: &[VertexWithInbox<V, M>],
) -> Result<Vec<VertexId>, Memory>
    ensures { IfOk result (λ ids. ids.items ≡ ids_of with_inboxes.now) }
{
    let mut ids = Vec::with_capacity(alloc, with_inboxes.len())?;
    for with_inbox in with_inboxes {
        ids.push(with_inbox.state.id)?;
    }
    Ok(ids)
}

/// The first place of each slot; 0 where a slot is empty.
fn starts_of(alloc: Global, ids: &[VertexId], spread: Spread) -> Result<Vec<u32>, Memory> {
    let slots = match ids.last() {
        Some(last) => spread.slot(*last).saturating_add(1),
        None => 0,
    };
    let mut starts = vec![in alloc; 0u32; slots]?;
    for place in (0..ids.len()).rev() {
        if let Some(start) = starts.get_mut(spread.slot(ids[place])) {
            *start = u32::try_from(place).unwrap_or(0);
        }
    }
    Ok(starts)
}

/// The place of an id, if it is among the few from a place on.
fn found_near(ids: &[VertexId], start: usize, id: VertexId) -> Option<usize>
    ensures { IfSome result (λ place. slice_get ids.now place ≡ Some id) }
{
    for place in start..min(start.saturating_add(NEAR), ids.len()) {
        if ids[place] == id {
            return Some(place);
        }
    }
    None
}

/// The place of an id among all.
fn found_in(ids: &[VertexId], id: VertexId) -> Option<usize>
    requires { IsStrictlySortedBy nat_cmp ids.now }
    ensures { MatchOption result (has_id ids.now id ≡ false)
        (λ place. slice_get ids.now place ≡ Some id) }
{
    match ids.binary_search(&id) {
        Ok(place) => Some(place),
        Err(_) => None,
    }
}
