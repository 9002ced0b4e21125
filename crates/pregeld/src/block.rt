//! Lines of the input.
ghost use Rattle.std.specs.Prelude.{◌≡◌, ◌≢◌, ◌==◌, ◌≤◌, ◌++◌, ◌-◌, List, ℕ, Some, length, min, slice_get, take};
ghost use Rattle.std.specs.Prelude.{option_map, IfOk, IfErr, MatchBool};
ghost use Rattle.std.specs.Io.{StopsAt};
ghost use Rattle.std.specs.List.{count_by};
ghost use Rattle.pg_import.specs.Text.{raw_lines};
ghost use Rattle.pregeld.specs.Reading.{IfLines, NextLine, SkipsLine, SkipsLines};
ghost use Rattle.pregeld.specs.Reading.{AreWholeLines, TakesLines, lines_left};
ghost use Rattle.pregeld.specs.declared.block.Block.TheVariants.{Whole};

use crate::ServeFault;
use memchr::memchr_iter;
use std::alloc::Global;
use std::io::{self, BufRead};

/// What became of lines that were to be read.
#[derive(Clone, Copy, Debug, PartialEq, Eq)]
pub(crate) enum Block {
    /// All are there.
    Whole,
    /// The input ended before.
    CutShort,
    /// They were read, and there is no memory for them.
    NoMemory,
}

/// The whole lines at the front of a text.
#[derive(Clone, Copy)]
struct Front {
    bytes: usize,
    lines: u32,
}

/// The next line of the input, with its line feed, or none at the end.
///
/// # Errors
///
/// Want of memory for the line, or a reader that fails.
pub(crate) fn next_line<R: BufRead>(
    alloc: Global,
    reader: &mut R,
) -> Result<Option<Vec<u8>>, ServeFault>
    ensures ok { IfOk result (λ line. IfLines (R.remaining reader.old) (λ lines.
        NextLine (option_map (λ bytes. bytes.items) line) lines
        (lines_left (R.remaining reader.new)))) }
    ensures err { IfErr result (λ fault. fault ≢ ServeFault.Write) }
{
    let mut line = Vec::new(alloc);
    match reader.read_until(b'\n', &mut line) {
        Ok(0) => Ok(None),
        Ok(_) => Ok(Some(line)),
        Err(error) => Err(ServeFault::of_reader(&error)),
    }
}

/// Reads so many lines onto a text. Where there is no memory for them, they are set aside.
///
/// # Errors
///
/// A reader that fails.
pub(crate) fn take_block<R: BufRead>(
    count: u32,
    reader: &mut R,
    text: &mut Vec<u8>,
) -> Result<Block, ServeFault>
    ensures ok { IfOk result (λ block. IfLines (R.remaining reader.old) (λ lines.
        TakesLines count block lines text.old.items text.new.items
        (lines_left (R.remaining reader.new)))) }
    ensures err { IfErr result (λ fault. fault ≢ ServeFault.Write) }
{
    let mut taken = 0;
    while taken < count {
        let held = take_held(count - taken, reader, text)?;
        taken += held;
        if held == 0 {
            match take_line(reader, text)? {
                Block::Whole => taken += 1,
                Block::CutShort => return Ok(Block::CutShort),
                Block::NoMemory => return skip_lines(count - taken - 1, reader),
            }
        }
    }
    Ok(Block::Whole)
}

/// Takes whole lines that the reader holds onto a text, at most so many, and says how many. It
/// takes none where the reader holds no whole line or was interrupted, or where memory is wanted.
///
/// # Errors
///
/// A reader that fails.
fn take_held<R: BufRead>(count: u32, reader: &mut R, text: &mut Vec<u8>) -> Result<u32, ServeFault>
    ensures within { IfOk result (λ taken. taken ≤ count) }
    ensures lines { IfOk result (λ taken. IfLines (R.remaining reader.old) (λ lines.
        TakesLines taken Whole lines text.old.items text.new.items
        (lines_left (R.remaining reader.new)))) }
    ensures err { IfErr result (λ fault. fault ≢ ServeFault.Write) }
{
    let bytes = match reader.fill_buf() {
        Ok(bytes) => bytes,
        Err(error) => {
            // A line that is read by itself comes through an interruption, and needs less memory.
            return match error.kind() {
                io::ErrorKind::Interrupted | io::ErrorKind::OutOfMemory => Ok(0),
                _ => Err(ServeFault::Read),
            };
        }
    };
    let front = whole_lines(count, bytes);
    if text.extend_from_slice(&bytes[..front.bytes]).is_err() {
        return Ok(0);
    }
    reader.consume(front.bytes);
    Ok(front.lines)
}

/// The whole lines that a text begins with, at most so many.
fn whole_lines(count: u32, text: &[u8]) -> Front
    ensures bound { result.bytes ≤ length text.now }
    ensures lines { AreWholeLines result.lines (take result.bytes text.now) }
    ensures most { result.lines ≡ min count (count_by (λ byte. byte == 10) text.now) }
{
    let mut feeds = memchr_iter(b'\n', text);
    let mut bytes = 0;
    for lines in 0..count {
        let Some(at) = feeds.next() else {
            return Front { bytes, lines };
        };
        bytes = at + 1;
    }
    Front {
        bytes,
        lines: count,
    }
}

/// Reads one line onto a text. Where there is no memory for it, its rest is set aside.
fn take_line<R: BufRead>(reader: &mut R, text: &mut Vec<u8>) -> Result<Block, ServeFault>
    ensures ok { IfOk result (λ block. IfLines (R.remaining reader.old) (λ lines.
        TakesLines 1 block lines text.old.items text.new.items
        (lines_left (R.remaining reader.new)))) }
    ensures err { IfErr result (λ fault. fault ≢ ServeFault.Write) }
{
    let before = text.len();
    match reader.read_until(b'\n', text) {
        Ok(0) => Ok(Block::CutShort),
        Ok(_) => Ok(Block::Whole),
        Err(error) => match error.kind() {
            io::ErrorKind::OutOfMemory => skip_block(reader, &text[before..]),
            _ => Err(ServeFault::Read),
        },
    }
}

/// Sets aside the rest of a line of which `front` has been read.
fn skip_block<R: BufRead>(reader: &mut R, front: &[u8]) -> Result<Block, ServeFault>
    ensures ok { IfOk result (λ block. (rest old new : List ℕ)
        → R.remaining reader.old ≡ Some rest → StopsAt front.now 10
        → TakesLines 1 block (raw_lines (front.now ++ rest)) old new
        (lines_left (R.remaining reader.new))) }
    ensures err { IfErr result (λ fault. fault ≢ ServeFault.Write) }
{
    if ends_line(front) {
        return Ok(Block::NoMemory);
    }
    if skip_line(reader)? {
        return Ok(Block::NoMemory);
    }
    if front.is_empty() {
        return Ok(Block::CutShort);
    }
    Ok(Block::NoMemory)
}

/// Whether a text ends in a line feed.
fn ends_line(text: &[u8]) -> bool
    ensures { let last = slice_get text.now (length text.now - 1) in
        MatchBool result (last ≡ Some 10) (last ≢ Some 10) }
{
    match text.last() {
        Some(last) => *last == b'\n',
        None => false,
    }
}

/// Sets so many lines aside.
pub(crate) fn skip_lines<R: BufRead>(count: u32, reader: &mut R) -> Result<Block, ServeFault>
    ensures ok { IfOk result (λ block. IfLines (R.remaining reader.old) (λ lines.
        SkipsLines count block lines (lines_left (R.remaining reader.new)))) }
    ensures err { IfErr result (λ fault. fault ≢ ServeFault.Write) }
{
    for _skipped in 0..count {
        if !skip_line(reader)? {
            return Ok(Block::CutShort);
        }
    }
    Ok(Block::NoMemory)
}

/// Sets aside the rest of a line, or finds the input at its end.
fn skip_line<R: BufRead>(reader: &mut R) -> Result<bool, ServeFault>
    ensures ok { IfOk result (λ there. (rest : List ℕ) → R.remaining reader.old ≡ Some rest
        → SkipsLine there rest (R.remaining reader.new)) }
    ensures err { IfErr result (λ fault. fault ≢ ServeFault.Write) }
{
    match reader.skip_until(b'\n') {
        Ok(0) => Ok(false),
        Ok(_) => Ok(true),
        Err(error) => Err(ServeFault::of_reader(&error)),
    }
}
