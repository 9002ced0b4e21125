//! The list form: a line for each edge, with blanks and tabs between its fields.
ghost use Rattle.std.specs.Prelude.{◌≡◌, ◌⊎◌, ◌<◌, ◌∷◌, length, List, pos, Ok, Err, Some, Result, OnOk, IfErr, IfSome};
ghost use Rattle.std.specs.Option.{option_copied, option_to_list};
ghost use Rattle.pg_import.specs.Import.{Gives, ReadsLine, at_line, edge_of, followed_by, list_of, no_memory};
ghost use Rattle.pg_import.specs.Import.{reading_of};
ghost use Rattle.pg_import.specs.Text.{words_of};
ghost use Rattle.pg_import.specs.declared.line.ImportFault.{ImportFault};
ghost use Rattle.pg_import.specs.declared.line.Line.{Line};

use crate::number::leading_number;
use crate::text::{after_blank, after_line, line_len};
use crate::{ImportFault, ImportKind, Line, Words, bare_line, read_id, read_weight};
use pg_graph::VertexId;
use std::alloc::Global;

// A line of an edge mostly has so many bytes or more.
const BYTES_OF_LINE: usize = 12;

/// The edges of a text in list form, in their order, or its first faulty line.
///
/// A line that is empty or begins with `#`, blanks and tabs aside, has no edge. A pair of vertices may
/// stand there more than once. Costs O(n) for n bytes.
pub fn read_list(alloc: Global, text: &[u8]) -> Result<Vec<Line>, ImportFault>
    ensures { Gives (λ lines. lines.items) result (list_of text.now) }
{
    let Ok(mut lines) = Vec::with_capacity(alloc, text.len() / BYTES_OF_LINE) else {
        return Err(ImportFault::NO_MEMORY);
    };
    let mut number = 0;
    let mut unread = text;
    while !unread.is_empty() {
        number += 1;
        let (reading, rest) = first_line(unread);
        add_reading(&mut lines, number, reading)?;
        unread = rest;
    }
    Ok(lines)
}

// What the first line of a text says, and what comes after it.
fn first_line(text: &[u8]) -> (Result<Option<Line>, ImportKind>, &[u8])
    requires { 0 < length text.now }
    ensures { ReadsLine text.now result.0 result.1.now }
{
    if let Some((edge, rest)) = plain_edge(text) {
        return (Ok(Some(edge)), rest);
    }
    let (raw, rest) = text.split_at(line_len(text));
    (read_line(bare_line(raw)), rest)
}

// The edge of a first line of plain numbers with single blanks between them, and what comes after it. None of other
// lines, which may have one all the same.
fn plain_edge(text: &[u8]) -> Option<(Line, &[u8])>
    ensures { IfSome result (λ found. ReadsLine text.now (Ok (Some found.0)) found.1.now) }
{
    let (source, rest) = leading_number(text)?;
    let (target, rest) = leading_number(after_blank(rest)?)?;
    if let Some(rest) = after_line(rest) {
        let line = plain_line(source, target, 1)?;
        return Some((line, rest));
    }
    let (weight, rest) = leading_number(after_blank(rest)?)?;
    let rest = after_line(rest)?;
    let line = plain_line(source, target, weight)?;
    Some((line, rest))
}

// The edge of these numbers.
fn plain_line(source: u64, target: u64, weight: u64) -> Option<Line>
    ensures { IfSome result (λ line. line ≡ record { source = source; target = target; weight = pos weight }) }
{
    Some(Line {
        source: VertexId::new(source)?,
        target: VertexId::new(target)?,
        weight: 0i64.checked_add_unsigned(weight)?,
    })
}

// What a line says, without its end.
#[tactic(auto, unfolding(crate::specs::Import::reading_of, crate::specs::Import::edge_of))]
fn read_line(line: &[u8]) -> Result<Option<Line>, ImportKind>
    ensures { result ≡ reading_of (words_of line.now) }
{
    let mut words = Words::new(line);
    let Some(source) = words.next() else {
        return Ok(None);
    };
    if let [b'#', ..] = source {
        return Ok(None);
    }
    let Some(target) = words.next() else {
        return Err(ImportKind::FieldCount);
    };
    let weight = words.next();
    if words.next().is_some() {
        return Err(ImportKind::FieldCount);
    }
    let edge = read_edge(source, target, weight)?;
    Ok(Some(edge))
}

/// The edge that two or three fields write.
#[tactic(auto, unfolding(crate::specs::Import::edge_of))]
pub(crate) fn read_edge(
    source: &[u8],
    target: &[u8],
    weight: Option<&[u8]>,
) -> Result<Line, ImportKind>
    ensures { result ≡ edge_of (source.now ∷ target.now ∷ option_to_list (option_copied weight.entry)) }
{
    let source = read_id(source)?;
    let target = read_id(target)?;
    let weight = match weight {
        Some(word) => read_weight(word)?,
        None => 1,
    };
    Ok(Line {
        source,
        target,
        weight,
    })
}

/// Adds to `lines` what the line of this number says.
pub(crate) fn add_reading(
    lines: &mut Vec<Line>,
    number: u64,
    reading: Result<Option<Line>, ImportKind>,
) -> Result<(), ImportFault>
    ensures ok { OnOk result ((others : Result (List Line) ImportFault)
        → followed_by lines.old.items (at_line number reading others) ≡ followed_by lines.new.items others) }
    ensures err { IfErr result (λ fault. (fault ≡ no_memory)
        ⊎ ((others : Result (List Line) ImportFault) → at_line number reading others ≡ Err fault)) }
{
    match reading {
        Ok(None) => Ok(()),
        Ok(Some(line)) => match lines.push(line) {
            Ok(()) => Ok(()),
            Err(_) => Err(ImportFault::NO_MEMORY),
        },
        Err(kind) => Err(ImportFault { line: number, kind }),
    }
}
