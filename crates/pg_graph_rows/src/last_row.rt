//! A row that is edited where its edges lie: they are the last ones of a list.
ghost use Rattle.std.specs.Prelude.{◌≡◌, ◌<◌, ◌≤◌, ◌++◌, IfErr, IfOk, MatchResult, OnErr, Option, Some, is_some};
ghost use Rattle.std.specs.Prelude.{length};
ghost use Rattle.std.specs.Option.{option_copied};
ghost use Rattle.pg_graph_rows.specs.EdgeList.{EdgeList, IsRising, weight_at, with_edge, without_edge};
ghost use Rattle.pg_graph_rows.specs.LastRow.{AddsEdited, BeginsWith, EditedBehind, IsGapBehind, IsPlaceBehind};
ghost use Rattle.pg_graph_rows.specs.LastRow.{LiesBehind};
ghost use Rattle.pg_graph_rows.specs.declared.row.Row.{Row};

use crate::{Edit, EditFault, EditKind, Memory, Row, VertexId};

/// Adds to a list the edges of what edits of one vertex, with their places, make of its row, if it has one,
/// and says the input that it has then, if the vertex is there. The inner fault is the first edit that has no
/// result; then no edge is added.
///
/// # Errors
///
/// Where a growth is refused; there may be edges more then.
pub(crate) fn add_edited(
    list: &mut Vec<(VertexId, i64)>,
    row: Option<&Row>,
    edits: &[(u64, Edit)],
) -> Result<Result<Option<i64>, EditFault>, Memory>
    ensures ok { IfOk result (AddsEdited (option_copied row.entry) edits.now list.old.items list.new.items) }
    ensures err { OnErr result (BeginsWith list.old.items list.new.items) }
{
    let first = list.len();
    let mut input = begin_row(list, row, edits.len())?;
    for (position, edit) in edits {
        if let Err(kind) = edit_last(list, first, &mut input, *edit)? {
            let position = *position;
            list.truncate(first);
            return Ok(Err(EditFault { position, kind }));
        }
    }
    Ok(Ok(input))
}

/// Adds the edges of a row, if there is one, with room for so many more, and says its input.
fn begin_row(
    list: &mut Vec<(VertexId, i64)>,
    row: Option<&Row>,
    edits: usize,
) -> Result<Option<i64>, Memory>
    ensures ok { IfOk result (λ input. LiesBehind list.old.items (option_copied row.entry) input list.new.items) }
    ensures err { OnErr result (list.new.items ≡ list.old.items) }
{
    let Some(row) = row else {
        return Ok(None);
    };
    let edges = row.edges.as_slice();
    list.reserve(edges.len().saturating_add(edits))?;
    list.extend_from_slice(edges)?;
    Ok(Some(row.input))
}

/// Makes one edit of the row whose edges are those of a list from `first` on. Where it has no result, the
/// inner result says why, and nothing is said of these edges.
fn edit_last(
    list: &mut Vec<(VertexId, i64)>,
    first: usize,
    input: &mut Option<i64>,
    edit: Edit,
) -> Result<Result<(), EditKind>, Memory>
    requires { first ≤ length list.old.items }
    ensures { (front : EdgeList) (row : Option Row) → length front ≡ first
        → LiesBehind front row input.old list.old.items
        → MatchResult result (λ made. EditedBehind row edit front input.new list.new.items made)
        (λ _. BeginsWith front list.new.items) }
{
    let Some(_held) = *input else {
        return match edit {
            Edit::AddVertex(_, given) => {
                set(input, given);
                Ok(Ok(()))
            }
            _ => Ok(Err(EditKind::NoVertex)),
        };
    };
    match edit {
        Edit::AddVertex(..) => Ok(Err(EditKind::VertexExists)),
        Edit::RemoveVertex(_) => {
            *input = None;
            list.truncate(first);
            Ok(Ok(()))
        }
        Edit::SetInput(_, given) => {
            set(input, given);
            Ok(Ok(()))
        }
        Edit::AddEdge(_, target, weight) => {
            if put_last(list, first, target, weight)? {
                return Ok(Err(EditKind::EdgeExists));
            }
            Ok(Ok(()))
        }
        Edit::SetEdge(_, target, weight) => {
            if !put_last(list, first, target, weight)? {
                return Ok(Err(EditKind::NoEdge));
            }
            Ok(Ok(()))
        }
        Edit::RemoveEdge(_, target) => {
            if !remove_last(list, first, target) {
                return Ok(Err(EditKind::NoEdge));
            }
            Ok(Ok(()))
        }
    }
}

/// Sets the input of a row.
fn set(input: &mut Option<i64>, given: i64)
    ensures { input.new ≡ Some given }
{
    *input = Some(given);
}

/// Puts the edge to `target` in the place of the one that was there, among the edges of a list from `first`
/// on, and says whether there was one. Costs O(d) for d such edges.
fn put_last(
    list: &mut Vec<(VertexId, i64)>,
    first: usize,
    target: VertexId,
    weight: i64,
) -> Result<bool, Memory>
    requires { first ≤ length list.old.items }
    ensures ok { IfOk result
        (λ there. (front last : EdgeList) → list.old.items ≡ front ++ last → length front ≡ first → IsRising last
        → (there ≡ is_some (weight_at target last)) × (list.new.items ≡ front ++ with_edge target weight last)) }
    ensures err { OnErr result (list.new.items ≡ list.old.items) }
{
    match place_of(list.as_slice(), first, target) {
        Ok(place) => {
            list[place] = (target, weight);
            Ok(true)
        }
        Err(place) => {
            list.insert(place, (target, weight))?;
            Ok(false)
        }
    }
}

/// Removes the edge to `target` among the edges of a list from `first` on, and says whether there was one.
/// Costs O(d) for d such edges.
fn remove_last(list: &mut Vec<(VertexId, i64)>, first: usize, target: VertexId) -> bool
    requires { first ≤ length list.old.items }
    ensures { (front last : EdgeList) → list.old.items ≡ front ++ last → length front ≡ first → IsRising last
        → (result ≡ is_some (weight_at target last)) × (list.new.items ≡ front ++ without_edge target last) }
{
    match place_of(list.as_slice(), first, target) {
        Ok(place) => {
            list.remove(place);
            true
        }
        Err(_) => false,
    }
}

/// Where the edge to `target` is among the edges of a list from `first` on, or where it would go.
fn place_of(list: &[(VertexId, i64)], first: usize, target: VertexId) -> Result<usize, usize>
    requires { first ≤ length list.now }
    ensures bound { MatchResult result (λ place. place < length list.now) (λ place. place ≤ length list.now) }
    ensures found { IfOk result
        (λ place. (front last : EdgeList) → list.now ≡ front ++ last → length front ≡ first → IsRising last
        → IsPlaceBehind target front last place) }
    ensures absent { IfErr result
        (λ place. (front last : EdgeList) → list.now ≡ front ++ last → length front ≡ first → IsRising last
        → IsGapBehind target front last place) }
{
    let (_, last) = list.split_at(first);
    match last.binary_search_by_key(&target, |edge| edge.0) {
        Ok(place) => Ok(first + place),
        Err(place) => Err(first + place),
    }
}
