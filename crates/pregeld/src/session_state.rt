//! What a session has besides its service.
ghost use Rattle.std.specs.Prelude.{◌≡◌, ◌≢◌, ◌≤◌, [], ◌∷◌, ◌++◌, None, Some, length};
ghost use Rattle.std.specs.Prelude.{MatchBool, OnOk, OnErr};
ghost use Rattle.std.specs.Option.{option_copied};
ghost use Rattle.pregeld.specs.SessionState.{stored, stored_limit};

use crate::Report;
use crate::reply::Reply;
use pg_graph::{Batch, Edit, Memory};
use pregeld_commands::LineFault;
use std::alloc::Global;
use std::marker::Model;

/// So many pending edits are stored, which are too many for a batch.
const STORED_LIMIT: usize = 100_001;

/// The edits that wait to be made as one batch, the report of the last refresh that was answered, and the first line
/// that was at fault, of which a contract sees nothing.
#[derive(Drop)]
pub(crate) struct SessionState {
    pending: Batch,
    report: Option<Report>,
    first_fault: Option<(LineFault, u64)>,
}

impl Model for SessionState {
    ghost use Rattle.std.specs.Prelude.{◌≤◌, length};
    ghost use Rattle.pregeld.specs.SessionState.{Noted, stored_limit};

    ghost Value = { Noted };

    ghost view = { λ n. record { pending = n.pending; report = n.report } };

    ghost invariant = { λ n. length n.pending ≤ stored_limit };
}

impl SessionState {
    /// No edit is pending, and nothing was reported.
    pub(crate) fn new(alloc: Global) -> SessionState
        ensures { result ≡ record { pending = []; report = None } }
    {
        SessionState {
            pending: Batch::new(alloc),
            report: None,
            first_fault: None,
        }
    }

    /// The pending edits, as far as they are stored.
    pub(crate) fn pending(&self) -> &Batch
        ensures { result.now ≡ self.now.pending }
    {
        &self.pending
    }

    /// The last report.
    pub(crate) fn report(&self) -> Option<&Report>
        ensures { option_copied result ≡ self.now.report }
    {
        self.report.as_ref()
    }

    /// Whether an edit is pending.
    pub(crate) fn has_pending(&self) -> bool
        ensures { MatchBool result (self.now.pending ≢ []) (self.now.pending ≡ []) }
    {
        !self.pending.as_slice().is_empty()
    }

    /// One more edit is pending. It is stored where a batch may have it, or would be too long with
    /// it.
    pub(crate) fn note(&mut self, edit: Edit) -> Result<(), Memory>
        ensures ok { OnOk result (self.new
            ≡ record self.old { pending = stored (self.old.pending ++ edit ∷ []) }) }
        ensures err { OnErr result (self.new ≡ self.old) }
    {
        if self.pending.as_slice().len() < STORED_LIMIT {
            self.pending.push(edit)?;
        }
        Ok(())
    }

    /// No edit is pending any more.
    pub(crate) fn empty(&mut self, alloc: Global)
        ensures { self.new ≡ record self.old { pending = [] } }
    {
        self.pending = Batch::new(alloc);
    }

    /// The first line that was at fault, if any: its fault and its number.
    pub(crate) fn first_fault(&self) -> Option<(LineFault, u64)> {
        self.first_fault
    }

    /// Keeps the fault of an answer, if it is the first one.
    pub(crate) fn note_fault(&mut self, reply: &Reply)
        ensures { self.new ≡ self.old }
    {
        if let (None, Reply::Fault(fault, number)) = (self.first_fault, reply) {
            self.first_fault = Some((*fault, *number));
        }
    }

    /// This is the last report.
    pub(crate) fn keep_report(&mut self, report: Report)
        ensures { self.new ≡ record self.old { report = Some report } }
    {
        self.report = Some(report);
    }
}
