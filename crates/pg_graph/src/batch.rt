//! Batches of edits.
ghost use Rattle.std.specs.Prelude.{◌≡◌, [], ◌∷◌, ◌++◌, IfOk, OnOk, OnErr};

use crate::{Edit, Memory};
use std::alloc::Global;
use std::marker::Model;

/// A list of edits, which are applied together or not at all.
pub struct Batch {
    edits: Vec<Edit>,
}

// By hand, so that it is let go by one call wherever that is, and not field by field.
impl Drop for Batch {
    fn drop(self) {
        let Batch { edits: _ } = self;
    }
}

impl Model for Batch {
    ghost use Rattle.std.specs.Prelude.{List};
    ghost use Rattle.pg_graph_rows.specs.declared.edit.Edit.{Edit};

    ghost Value = { List Edit };

    ghost view = { λ b. b.edits.items };
}

impl Batch {
    /// The batch of no edits.
    pub fn new(alloc: Global) -> Batch
        ensures { result ≡ [] }
    {
        Batch {
            edits: Vec::new(alloc),
        }
    }

    /// The batch of no edits, with room for so many.
    pub fn with_capacity(alloc: Global, edits: usize) -> Result<Batch, Memory>
        ensures { IfOk result (λ batch. batch ≡ []) }
    {
        Ok(Batch {
            edits: Vec::with_capacity(alloc, edits)?,
        })
    }

    /// Adds an edit at the end.
    pub fn push(&mut self, edit: Edit) -> Result<(), Memory>
        ensures ok { OnOk result (self.new ≡ self.old ++ edit ∷ []) }
        ensures err { OnErr result (self.new ≡ self.old) }
    {
        self.edits.push(edit)?;
        Ok(())
    }

    /// The edits, in their order.
    pub fn as_slice(&self) -> &[Edit]
        ensures { result.now ≡ self.now }
    {
        self.edits.as_slice()
    }
}
