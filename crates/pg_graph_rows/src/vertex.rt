//! What edits make of one vertex that has many edges, or comes to.
ghost use Rattle.std.specs.Prelude.{◌≡◌, Err, IfOk, MatchResult, Ok};
ghost use Rattle.std.specs.Option.{option_copied};
ghost use Rattle.pg_graph_rows.specs.RowEdit.{vertex_after, vertex_edited};

use crate::{DraftRow, Edit, EditFault, EditKind, Memory, Row};
use std::alloc::Global;

/// What edits of one vertex, with their places, make of its row, if it has one, one after another. The
/// inner result is the first of them that has no result, where there is one, and why; what the limits of
/// a graph forbid isn't asked here.
pub(crate) fn vertex_after(
    alloc: Global,
    row: Option<&Row>,
    edits: &[(u64, Edit)],
) -> Result<Result<Option<DraftRow>, EditFault>, Memory>
    ensures { IfOk result (λ made. made ≡ vertex_after (option_copied row.entry) edits.now) }
{
    let mut draft = match row {
        Some(row) => Some(DraftRow::of(row, edits.len())?),
        None => None,
    };
    for (position, edit) in edits {
        if let Err(kind) = edit_vertex(alloc, &mut draft, *edit, edits.len())? {
            let position = *position;
            return Ok(Err(EditFault { position, kind }));
        }
    }
    Ok(Ok(draft))
}

/// Makes one edit of a row, or of none. Where it has no result, the inner result says why, and nothing is
/// said of the row. A new row is made for so many edits.
fn edit_vertex(
    alloc: Global,
    draft: &mut Option<DraftRow>,
    edit: Edit,
    edits: usize,
) -> Result<Result<(), EditKind>, Memory>
    ensures { IfOk result (λ made. MatchResult made (λ _. vertex_edited draft.old edit ≡ Ok draft.new)
        (λ kind. vertex_edited draft.old edit ≡ Err kind)) }
{
    let Some(row) = draft else {
        return match edit {
            Edit::AddVertex(_, input) => {
                *draft = Some(DraftRow::new(input, edits));
                Ok(Ok(()))
            }
            _ => Ok(Err(EditKind::NoVertex)),
        };
    };
    match edit {
        Edit::AddVertex(..) => Ok(Err(EditKind::VertexExists)),
        Edit::RemoveVertex(_) => {
            *draft = None;
            Ok(Ok(()))
        }
        Edit::SetInput(_, input) => {
            row.set_input(input);
            Ok(Ok(()))
        }
        Edit::AddEdge(_, target, weight) => {
            if row.put_edge(alloc, target, weight)? {
                return Ok(Err(EditKind::EdgeExists));
            }
            Ok(Ok(()))
        }
        Edit::SetEdge(_, target, weight) => {
            if !row.put_edge(alloc, target, weight)? {
                return Ok(Err(EditKind::NoEdge));
            }
            Ok(Ok(()))
        }
        Edit::RemoveEdge(_, target) => {
            if !row.remove_edge(alloc, target)? {
                return Ok(Err(EditKind::NoEdge));
            }
            Ok(Ok(()))
        }
    }
}
