//! Edits, read from the words of a line.
ghost use Rattle.std.specs.Prelude.{◌≡◌};
ghost use Rattle.pg_import.specs.Number.{id_of, weight_of};
ghost use Rattle.pregeld_commands.specs.Edits.{edge_of, in_place, input_of, reweigh_of, unedge_of};
ghost use Rattle.pregeld_commands.specs.Edits.{unvertex_of, vertex_of};

use crate::command::LineFault;
use pg_graph::{Edit, VertexId};
use pg_import::{Words, read_id, read_weight};

/// `vertex ID [INPUT]`: the vertex is added, by default with input 0.
#[tactic(auto, unfolding(crate::specs::Edits::vertex_of))]
pub(crate) fn vertex_of(mut words: Words<'_>) -> Result<Edit, LineFault>
    ensures { result ≡ vertex_of words.entry }
{
    let Some(id) = words.next() else {
        return Err(LineFault::WordCount);
    };
    let Some(input) = words.next() else {
        return Ok(Edit::AddVertex(id_in(id)?, 0));
    };
    if words.next().is_some() {
        return Err(LineFault::WordCount);
    }
    Ok(Edit::AddVertex(id_in(id)?, weight_in(input)?))
}

/// `input ID N`: the input of the vertex is set.
#[tactic(auto, unfolding(crate::specs::Edits::input_of))]
pub(crate) fn input_of(mut words: Words<'_>) -> Result<Edit, LineFault>
    ensures { result ≡ input_of words.entry }
{
    let Some(id) = words.next() else {
        return Err(LineFault::WordCount);
    };
    let Some(input) = words.next() else {
        return Err(LineFault::WordCount);
    };
    if words.next().is_some() {
        return Err(LineFault::WordCount);
    }
    Ok(Edit::SetInput(id_in(id)?, weight_in(input)?))
}

/// `unvertex ID`: the vertex is removed.
#[tactic(auto, unfolding(crate::specs::Edits::unvertex_of))]
pub(crate) fn unvertex_of(mut words: Words<'_>) -> Result<Edit, LineFault>
    ensures { result ≡ unvertex_of words.entry }
{
    let Some(id) = words.next() else {
        return Err(LineFault::WordCount);
    };
    if words.next().is_some() {
        return Err(LineFault::WordCount);
    }
    Ok(Edit::RemoveVertex(id_in(id)?))
}

/// `edge S T [W]`: the edge is added, by default of weight 1.
#[tactic(auto, unfolding(crate::specs::Edits::edge_of))]
pub(crate) fn edge_of(mut words: Words<'_>) -> Result<Edit, LineFault>
    ensures { result ≡ edge_of words.entry }
{
    let Some(source) = words.next() else {
        return Err(LineFault::WordCount);
    };
    let Some(target) = words.next() else {
        return Err(LineFault::WordCount);
    };
    let Some(weight) = words.next() else {
        return Ok(Edit::AddEdge(id_in(source)?, id_in(target)?, 1));
    };
    if words.next().is_some() {
        return Err(LineFault::WordCount);
    }
    let (source, target) = (id_in(source)?, id_in(target)?);
    Ok(Edit::AddEdge(source, target, weight_in(weight)?))
}

/// `reweigh S T W`: the weight of the edge is set.
#[tactic(auto, unfolding(crate::specs::Edits::reweigh_of))]
pub(crate) fn reweigh_of(mut words: Words<'_>) -> Result<Edit, LineFault>
    ensures { result ≡ reweigh_of words.entry }
{
    let Some(source) = words.next() else {
        return Err(LineFault::WordCount);
    };
    let Some(target) = words.next() else {
        return Err(LineFault::WordCount);
    };
    let Some(weight) = words.next() else {
        return Err(LineFault::WordCount);
    };
    if words.next().is_some() {
        return Err(LineFault::WordCount);
    }
    let (source, target) = (id_in(source)?, id_in(target)?);
    Ok(Edit::SetEdge(source, target, weight_in(weight)?))
}

/// `unedge S T`: the edge is removed.
#[tactic(auto, unfolding(crate::specs::Edits::unedge_of))]
pub(crate) fn unedge_of(mut words: Words<'_>) -> Result<Edit, LineFault>
    ensures { result ≡ unedge_of words.entry }
{
    let Some(source) = words.next() else {
        return Err(LineFault::WordCount);
    };
    let Some(target) = words.next() else {
        return Err(LineFault::WordCount);
    };
    if words.next().is_some() {
        return Err(LineFault::WordCount);
    }
    Ok(Edit::RemoveEdge(id_in(source)?, id_in(target)?))
}

/// The id that a word has to write.
pub(crate) fn id_in(word: &[u8]) -> Result<VertexId, LineFault>
    ensures { result ≡ in_place (id_of word.now) }
{
    let Ok(id) = read_id(word) else {
        return Err(LineFault::BadWord);
    };
    Ok(id)
}

/// The input or the weight that a word has to write.
fn weight_in(word: &[u8]) -> Result<i64, LineFault>
    ensures { result ≡ in_place (weight_of word.now) }
{
    let Ok(weight) = read_weight(word) else {
        return Err(LineFault::BadWord);
    };
    Ok(weight)
}
