//! All groups of a map as one.
ghost use Rattle.std.specs.Prelude.{◌≡◌, [], IfOk};
ghost use Rattle.pg_map.specs.Chunks.{groups_of};

use crate::Memory;
use crate::part::Group;
use std::alloc::Global;
use std::sync::Arc;

/// All groups of a map, shared as one, so a copy of the map is one count. None take no memory.
#[derive(Drop)]
pub(crate) struct GroupList<V> {
    pub(crate) shared: Option<Arc<Vec<Group<V>>>>,
}

impl<V> GroupList<V> {
    /// No groups.
    pub(crate) fn new() -> GroupList<V>
        ensures { groups_of result ≡ [] }
    {
        GroupList { shared: None }
    }

    /// These groups.
    pub(crate) fn of(alloc: Global, groups: Vec<Group<V>>) -> Result<GroupList<V>, Memory>
    where
        V: Drop,
        ensures { IfOk result (λ group_list. groups_of group_list ≡ groups.items) }
    {
        if groups.is_empty() {
            return Ok(GroupList { shared: None });
        }
        let shared = Arc::new(alloc, groups)?;
        Ok(GroupList {
            shared: Some(shared),
        })
    }

    pub(crate) fn as_slice(&self) -> &[Group<V>]
        ensures { result.now ≡ groups_of self.now }
    {
        match &self.shared {
            None => &[],
            Some(shared) => shared.as_slice(),
        }
    }

    /// A copy of the list, which shares its memory.
    pub(crate) fn cheap_clone(&self) -> Result<GroupList<V>, Memory>
        ensures { IfOk result (λ group_list. groups_of group_list ≡ groups_of self.now) }
    {
        match &self.shared {
            None => Ok(GroupList { shared: None }),
            Some(shared) => Ok(GroupList {
                shared: Some(Arc::try_clone(shared)?),
            }),
        }
    }
}
