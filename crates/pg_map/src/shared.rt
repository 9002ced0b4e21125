//! The map.
ghost use Rattle.std.specs.Prelude.{◌≡◌, [], ℕ, length, IfOk, OnOk, OnErr};
ghost use Rattle.std.specs.Option.{option_copied};
ghost use Rattle.std.specs.Map.{keys_of};
ghost use Rattle.std.specs.Map.Iter.{ShowsInOrder, deref, deref_pair};

use crate::find::begun;
use crate::gather::Gathering;
use crate::group_list::GroupList;
use crate::in_place::change_in_place;
use crate::merge::changed;
use crate::pack::pack_group_list;
use crate::part::counted;
use crate::walk::chunks_from;
use crate::{Cursor, Ids, Iter, Memory, Pack, VertexId};
use std::alloc::Global;
use std::marker::Model;

/// Values that are copied by sharing: a copy is equal to its source.
pub trait CheapClone: Drop {
    /// How many entries a chunk of a map has when it is cut off; it never has more than twice as many. A change copies
    /// the chunks that it falls into, and a walk reads all of them.
    const CHUNK: usize = 128;

    /// A copy that shares what is large in the value. What is copied costs no more than one small value.
    fn cheap_clone(&self, alloc: Global) -> Result<Self, Memory>
        ensures { IfOk result (λ copy. copy ≡ self.now) };
}

impl CheapClone for i64 {
    fn cheap_clone(&self, _alloc: Global) -> Result<i64, Memory> {
        Ok(*self)
    }
}

/// A map from vertex ids. A contract sees the list of (id, value) by rising id.
///
/// The entries lie in chunks, and these in groups, all of which copies share: a copy costs O(1), and a
/// change makes anew the chunks and the groups that it falls into and shares the others, or is made in them where no
/// copy shares them (`change_own`).
pub struct Map<V> {
    groups: GroupList<V>,
    count: usize,
}

// By hand, so that it is let go by one call wherever that is, and not field by field.
impl<V: Drop> Drop for Map<V> {
    fn drop(self) {
        let Map {
            groups: _,
            count: _,
        } = self;
    }
}

impl<V> Model for Map<V> {
    ghost use Rattle.std.specs.Prelude.{ℕ, List};

    ghost Value = { List (ℕ × V) };

    ghost use Rattle.pg_map.specs.Chunks.{AreSound, all_of, groups_of};

    ghost view = { λ m. all_of (groups_of m.groups) };

    ghost invariant = { λ m. AreSound (groups_of m.groups) m.count };
}

impl<V> Map<V> {
    ghost use Rattle.pg_map.specs.Entries.{HasRisingIds, entries_from, value_at};

    /// The map with no entries.
    pub fn new() -> Map<V>
        ensures { result ≡ [] }
    {
        Map {
            groups: GroupList::new(),
            count: 0,
        }
    }

    /// How many entries there are.
    pub fn len(&self) -> usize
        ensures value { result ≡ length self.now }
        ensures rising { HasRisingIds self.now }
    {
        self.count
    }

    /// The value at an id, found by three binary searches: among the groups, in one of them, and in one of
    /// its chunks.
    pub fn get(&self, id: VertexId) -> Option<&V>
        ensures { option_copied result ≡ value_at id self.now }
    {
        let mut cursor = self.cursor();
        cursor.get(id)
    }

    /// Look-ups that come near one another.
    pub fn cursor(&self) -> Cursor<'_, V>
        ensures { result ≡ self.now }
    {
        Cursor::of(self.groups.as_slice())
    }

    /// The entries, by rising id.
    pub fn iter(&self) -> Iter<'_, V>
        ensures rest { result ≡ self.now }
        ensures runs { ShowsInOrder (deref_pair {K = ℕ} {X = V}) }
        ensures rising { HasRisingIds self.now }
    {
        Iter {
            entries: &[],
            chunks: &[],
            groups: self.groups.as_slice(),
        }
    }

    /// The ids, rising.
    pub fn ids(&self) -> Ids<'_, V>
        ensures rest { result ≡ keys_of self.now }
        ensures runs { ShowsInOrder (deref {X = ℕ}) }
        ensures rising { HasRisingIds self.now }
    {
        Ids {
            entries: self.iter(),
        }
    }

    /// The entries from an id on, by rising id. The first is found as by `get`.
    pub fn iter_from(&self, id: VertexId) -> Iter<'_, V>
        ensures rest { result ≡ entries_from id self.now }
        ensures runs { ShowsInOrder (deref_pair {K = ℕ} {X = V}) }
    {
        let groups = self.groups.as_slice();
        let after = begun(groups, 0, id);
        if after == 0 {
            return self.iter();
        }
        let (entries, chunks) = chunks_from(groups[after - 1].items.as_slice(), id);
        let (_, groups) = groups.split_at(after);
        Iter {
            entries,
            chunks,
            groups,
        }
    }

    /// A copy of the map, which shares its memory. Costs O(1).
    pub fn cheap_clone(&self) -> Result<Map<V>, Memory>
        ensures { IfOk result (λ map. map ≡ self.now) }
    {
        let groups = self.groups.cheap_clone()?;
        Ok(Map {
            groups,
            count: self.count,
        })
    }
}

impl<V: CheapClone> Map<V> {
    ghost use Rattle.pg_map.specs.Entries.{HasRisingIds, ChangesRise, with_changes};

    /// The map of these entries, which stand by rising id.
    pub fn from_rising(alloc: Global, entries: Vec<(VertexId, V)>) -> Result<Map<V>, Memory>
        requires { HasRisingIds entries.items }
        ensures { IfOk result (λ map. map ≡ entries.items) }
    {
        let mut gathering = Gathering::new(alloc);
        for (id, value) in entries {
            gathering.push(alloc, id, value)?;
        }
        let made = gathering.finish(alloc)?;
        let count = counted(made.as_slice())?;
        let groups = GroupList::of(alloc, made)?;
        Ok(Map { groups, count })
    }

    /// Makes all changes, by rising id, or none where memory is refused: each id gets its value, or
    /// loses the one that it has.
    ///
    /// With n entries and chunks of c it costs O(n / (32 c)), a copy of the list of each group that a change falls
    /// into, of at most 64 chunks, and a copy of each chunk that one falls into.
    pub fn change(&mut self, alloc: Global, changes: &[(VertexId, Option<V>)]) -> Result<(), Memory>
        requires { ChangesRise changes.now }
        ensures ok { OnOk result (self.new ≡ with_changes changes.now self.old) }
        ensures err { OnErr result (self.new ≡ self.old) }
        ensures rising { HasRisingIds self.new }
    {
        let made = changed(alloc, self.groups.as_slice(), changes)?;
        let count = counted(made.as_slice())?;
        self.groups = GroupList::of(alloc, made)?;
        self.count = count;
        Ok(())
    }

    /// Makes all changes as `change` does, in the memory that the map has where that can be: where no copy shares what
    /// would change, no chunk would be cut or end up small, and the changes don't fall into very many chunks. Where all
    /// changes of a chunk give values to ids that it has, the values are moved there and the other entries aren't
    /// touched; another chunk is made anew.
    ///
    /// It costs a step for each group, and for each chunk of a group that a change falls into; a call for each of these
    /// into which one does; for each change a search or two in its chunk; and a copy of each chunk that gets or loses
    /// an id. Where something is in the way it costs up to as much in vain, and then what `change` costs.
    pub fn change_own(
        &mut self,
        alloc: Global,
        changes: Vec<(VertexId, Option<V>)>,
    ) -> Result<(), Memory>
        requires { ChangesRise changes.items }
        ensures ok { OnOk result (self.new ≡ with_changes changes.items self.old) }
        ensures err { OnErr result (self.new ≡ self.old) }
    {
        let mut changes = changes;
        if let Some(count) = change_in_place(alloc, &mut self.groups, &mut changes) {
            self.count = count;
            return Ok(());
        }
        self.change(alloc, changes.as_slice())
    }
}

impl<V: Pack> Map<V> {
    /// Lays the values anew, chunk by chunk, as `V` says and as far as there is memory for it. What a copy
    /// shares of the map's memory stays as it is.
    pub fn pack(&mut self, alloc: Global)
        ensures { self.new ≡ self.old }
    {
        pack_group_list(alloc, &mut self.groups);
    }
}
