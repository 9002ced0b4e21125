//! Envelopes as they were sent, as they lie in memory.
ghost use Rattle.std.specs.Prelude.{◌≡◌, [], IfOk};
ghost use Rattle.pg_inbox_bundles.specs.Shared.{envelopes_of};

use pg_graph::{Memory, VertexId};
use std::alloc::Global;
use std::sync::Arc;

/// Messages with their senders and targets, in memory that copies share. None take no memory.
#[derive(Drop)]
pub(crate) struct Envelopes<M> {
    pub(crate) shared: Option<Arc<Vec<(VertexId, (VertexId, M))>>>,
}

impl<M> Envelopes<M> {
    /// No envelopes.
    pub(crate) fn new() -> Envelopes<M>
        ensures { envelopes_of result ≡ [] }
    {
        Envelopes { shared: None }
    }

    /// These envelopes.
    pub(crate) fn of(
        alloc: Global,
        envelopes: Vec<(VertexId, (VertexId, M))>,
    ) -> Result<Envelopes<M>, Memory>
    where
        M: Drop,
        ensures { IfOk result (λ shared. envelopes_of shared ≡ envelopes.items) }
    {
        if envelopes.is_empty() {
            return Ok(Envelopes { shared: None });
        }
        let shared = Arc::new(alloc, envelopes)?;
        Ok(Envelopes {
            shared: Some(shared),
        })
    }

    pub(crate) fn as_slice(&self) -> &[(VertexId, (VertexId, M))]
        ensures { result.now ≡ envelopes_of self.now }
    {
        match &self.shared {
            None => &[],
            Some(shared) => shared.as_slice(),
        }
    }

    /// A copy of the envelopes, which shares their memory.
    pub(crate) fn cheap_clone(&self) -> Result<Envelopes<M>, Memory>
        ensures { IfOk result (λ envelopes. envelopes_of envelopes ≡ envelopes_of self.now) }
    {
        match &self.shared {
            None => Ok(Envelopes { shared: None }),
            Some(shared) => Ok(Envelopes {
                shared: Some(Arc::try_clone(shared)?),
            }),
        }
    }
}
