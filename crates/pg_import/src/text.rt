//! Lines and words of a text.
ghost use Rattle.std.specs.Prelude.{◌≡◌, ◌≤◌, length, take, drop, IfSome};
ghost use Rattle.std.specs.Io.BufRead.{drop_through, take_through};
ghost use Rattle.std.specs.List.{position_or_len};
ghost use Rattle.pg_import.specs.Text.{IsAfterBlank, IsAfterLine, is_blank, line_of, skip_blanks};

use std::marker::Model;

/// A line without its line feed, and without a carriage return before that or at the end of the text.
pub fn bare_line(raw: &[u8]) -> &[u8]
    ensures { result.now ≡ line_of raw.now }
{
    let line = raw.strip_suffix(b"\n").unwrap_or(raw);
    line.strip_suffix(b"\r").unwrap_or(line)
}

/// The words of a line, which blanks and tabs stand between. A contract sees the list of those that
/// remain.
///
/// All of them together cost as much as one walk over the line, and take no memory.
#[derive(Drop)]
pub struct Words<'a> {
    rest: &'a [u8],
}

impl<'a> Model for Words<'a> {
    ghost use Rattle.std.specs.Prelude.{List, ℕ};
    ghost use Rattle.pg_import.specs.Text.{words_of};

    ghost Value = { List (List ℕ) };

    ghost view = { λ w. words_of w.rest.now };
}

impl<'a> Words<'a> {
    ghost use Rattle.pg_import.specs.Text.{words_of};

    /// The words of `line`.
    pub fn new(line: &'a [u8]) -> Words<'a>
        ensures { result ≡ words_of line.now }
    {
        Words { rest: line }
    }
}

impl<'a> Iterator for Words<'a> {
    type Item = &'a [u8];

    ghost use Rattle.std.specs.Iterator.{YieldsFirstRef, item_count};

    ghost next_gives = { YieldsFirstRef (λ w. w) };

    ghost remaining = { item_count (λ w. w) };

    fn next(&mut self) -> Option<&'a [u8]> {
        let ahead = after_blanks(self.rest);
        let (word, rest) = ahead.split_at(word_len(ahead));
        if word.is_empty() {
            return None;
        }
        self.rest = rest;
        Some(word)
    }
}

/// What comes after the blanks and tabs that a text begins with.
pub(crate) fn after_blanks(text: &[u8]) -> &[u8]
    ensures { result.now ≡ skip_blanks text.now }
{
    let mut rest = text;
    while let [b' ' | b'\t', after @ ..] = rest {
        rest = after;
    }
    rest
}

/// What comes after the blank or the tab that a text begins with, if it does.
pub(crate) fn after_blank(text: &[u8]) -> Option<&[u8]>
    ensures { IfSome result (λ rest. IsAfterBlank text.now rest.now) }
{
    match text {
        [b' ' | b'\t', after @ ..] => Some(after),
        _ => None,
    }
}

/// What comes after the end of a line that a text begins with: a line feed, a carriage return and one, or the text's
/// own end.
pub(crate) fn after_line(text: &[u8]) -> Option<&[u8]>
    ensures { IfSome result (λ rest. IsAfterLine text.now rest.now) }
{
    match text {
        [] => Some(text),
        [b'\n', after @ ..] => Some(after),
        [b'\r', b'\n', after @ ..] => Some(after),
        _ => None,
    }
}

/// How many bytes the first line of a text has, with its line feed.
pub(crate) fn line_len(text: &[u8]) -> usize
    ensures front { take result text.now ≡ take_through 10 text.now }
    ensures rest { drop result text.now ≡ drop_through 10 text.now }
    ensures bound { result ≤ length text.now }
{
    match text.iter().position(|byte| *byte == b'\n') {
        Some(place) => place + 1,
        None => text.len(),
    }
}

// How many bytes come before the first blank or tab.
fn word_len(text: &[u8]) -> usize
    ensures place { result ≡ position_or_len is_blank text.now }
    ensures bound { result ≤ length text.now }
{
    text.iter()
        .position(|byte| is_blank(*byte))
        .unwrap_or(text.len())
}

fn is_blank(byte: u8) -> bool
    ensures { result ≡ is_blank byte }
{
    byte == b' ' || byte == b'\t'
}
