//! What a line asks for.
ghost use Rattle.std.specs.Prelude.{◌≡◌, All, IsAscii};
ghost use Rattle.std.specs.Char.{is_ascii};
ghost use Rattle.std.specs.List.{list_all};
ghost use Rattle.pregeld_commands.specs.Command.{agg_of, no_arguments, command_of, edit_named, form_of, get_of};
ghost use Rattle.pregeld_commands.specs.Command.{import_of, named};
ghost use Rattle.pregeld_commands.specs.LineFault.{fault_number};

use crate::edits::{edge_of, id_in, input_of, reweigh_of, unedge_of, unvertex_of, vertex_of};
use pg_graph::{Edit, VertexId};
use pg_import::{Words, bare_line, read_id};
use std::marker::Model;
use std::str;

/// The most lines of an import.
const LINE_LIMIT: u64 = 100_000;

/// What is wrong with a line.
#[derive(Clone, Copy, Debug, PartialEq, Eq)]
pub enum LineFault {
    /// 1: the first word is no command, or the line has a byte above 127.
    NoCommand,
    /// 2: a wrong number of words.
    WordCount,
    /// 3: a number that isn't one or is out of range, or a form that isn't one.
    BadWord,
    /// 4: the input ends inside of an import.
    CutShort,
    /// 5: an import while edits are pending.
    EditsPending,
}

impl LineFault {
    /// The number that is printed for the fault.
    pub fn number(self) -> u8
        ensures { result ≡ fault_number self }
    {
        match self {
            LineFault::NoCommand => 1,
            LineFault::WordCount => 2,
            LineFault::BadWord => 3,
            LineFault::CutShort => 4,
            LineFault::EditsPending => 5,
        }
    }
}

/// The form of an edge list.
#[derive(Clone, Copy, Debug, PartialEq, Eq)]
pub enum Form {
    /// Words between blanks.
    List,
    /// Fields between commas.
    Csv,
}

/// A name that a line has. A contract sees its bytes.
#[derive(Drop)]
pub struct Name<'a> {
    text: &'a str,
}

impl<'a> Model for Name<'a> {
    ghost use Rattle.std.specs.Prelude.{List, ℕ};

    ghost Value = { List ℕ };

    ghost view = { λ name. name.text.now };
}

impl<'a> Name<'a> {
    /// The text of the name.
    pub fn text(&self) -> &'a str
        ensures { result.now ≡ self.now }
    {
        self.text
    }
}

/// What a line asks for.
#[derive(Drop)]
pub enum Command<'a> {
    /// Nothing: the line is empty or a comment.
    Nothing,
    /// To add an edit to those that are pending.
    Edit(Edit),
    /// To do something that is answered by one line.
    Act(Action),
    /// To tell something.
    Ask(Query<'a>),
}

/// What a line asks to be done.
#[derive(Clone, Copy, Debug, PartialEq, Eq)]
pub enum Action {
    /// To apply the pending edits as one batch.
    Commit,
    /// To read an edge list in this form from so many lines that follow.
    Import(Form, u32),
    /// To run the program on the graph as it stands.
    Refresh,
    /// To compare what was published with a run from scratch.
    Recompute,
}

/// What a line asks for.
#[derive(Drop)]
pub enum Query<'a> {
    /// All published values.
    Dump,
    /// The published value of a vertex.
    Get(VertexId),
    /// The published aggregate of this name.
    Aggregate(Name<'a>),
    /// The last report.
    Reported,
}

/// The command of a line, which may end in its line feed.
///
/// # Errors
///
/// The first of the faults 1, 2 and 3 that the line has.
#[tactic(auto, unfolding(crate::specs::Command::command_in))]
pub fn command_of(raw: &[u8]) -> Result<Command<'_>, LineFault>
    ensures { result ≡ command_of raw.now }
{
    let line = bare_line(raw);
    let mut words = Words::new(line);
    let Some(first) = words.next() else {
        return Ok(Command::Nothing);
    };
    if let [b'#', ..] = first {
        return Ok(Command::Nothing);
    }
    if !is_ascii(line) {
        return Err(LineFault::NoCommand);
    }
    named(first, words)
}

fn is_ascii(line: &[u8]) -> bool
    ensures { result ≡ list_all is_ascii line.now }
{
    line.iter().all(|byte| byte.is_ascii())
}

/// The command that a first word names, with the words after it.
#[tactic(auto, unfolding(crate::specs::Command::named))]
fn named<'a>(first: &[u8], words: Words<'a>) -> Result<Command<'a>, LineFault>
    requires { All IsAscii words }
    ensures { result ≡ named first.now words.entry }
{
    if first == b"import".as_slice() {
        return import_of(words);
    }
    if first == b"commit".as_slice() {
        return no_arguments(Command::Act(Action::Commit), words);
    }
    if first == b"refresh".as_slice() {
        return no_arguments(Command::Act(Action::Refresh), words);
    }
    if first == b"check".as_slice() {
        return no_arguments(Command::Act(Action::Recompute), words);
    }
    if first == b"dump".as_slice() {
        return no_arguments(Command::Ask(Query::Dump), words);
    }
    if first == b"report".as_slice() {
        return no_arguments(Command::Ask(Query::Reported), words);
    }
    if first == b"get".as_slice() {
        return get_of(words);
    }
    if first == b"agg".as_slice() {
        return agg_of(words);
    }
    let edit = edit_named(first, words)?;
    Ok(Command::Edit(edit))
}

/// The edit that a first word names, with the words after it.
#[tactic(auto, unfolding(crate::specs::Command::edit_named))]
fn edit_named(first: &[u8], words: Words<'_>) -> Result<Edit, LineFault>
    ensures { result ≡ edit_named first.now words.entry }
{
    if first == b"vertex".as_slice() {
        return vertex_of(words);
    }
    if first == b"input".as_slice() {
        return input_of(words);
    }
    if first == b"unvertex".as_slice() {
        return unvertex_of(words);
    }
    if first == b"edge".as_slice() {
        return edge_of(words);
    }
    if first == b"reweigh".as_slice() {
        return reweigh_of(words);
    }
    if first == b"unedge".as_slice() {
        return unedge_of(words);
    }
    Err(LineFault::NoCommand)
}

/// `get ID`.
#[tactic(auto, unfolding(crate::specs::Command::get_of))]
fn get_of<'a>(mut words: Words<'a>) -> Result<Command<'a>, LineFault>
    ensures { result ≡ get_of words.entry }
{
    let Some(id) = words.next() else {
        return Err(LineFault::WordCount);
    };
    if words.next().is_some() {
        return Err(LineFault::WordCount);
    }
    Ok(Command::Ask(Query::Get(id_in(id)?)))
}

/// `agg NAME`.
#[tactic(auto, unfolding(crate::specs::Command::agg_of))]
fn agg_of<'a>(mut words: Words<'a>) -> Result<Command<'a>, LineFault>
    requires { All IsAscii words }
    ensures { result ≡ agg_of words.entry }
{
    let Some(name) = words.next() else {
        return Err(LineFault::WordCount);
    };
    if words.next().is_some() {
        return Err(LineFault::WordCount);
    }
    let Ok(text) = str::from_utf8(name) else {
        return Err(LineFault::NoCommand);
    };
    Ok(Command::Ask(Query::Aggregate(Name { text })))
}

/// A command with no words after it.
#[tactic(auto, unfolding(crate::specs::Command::no_arguments))]
fn no_arguments<'a>(command: Command<'a>, mut words: Words<'a>) -> Result<Command<'a>, LineFault>
    ensures { result ≡ no_arguments command.entry words.entry }
{
    match words.next() {
        None => Ok(command),
        Some(_) => Err(LineFault::WordCount),
    }
}

/// An import, of a form and a number of lines.
#[tactic(auto, unfolding(crate::specs::Command::import_of))]
fn import_of<'a>(mut words: Words<'a>) -> Result<Command<'a>, LineFault>
    ensures { result ≡ import_of words.entry }
{
    let Some(form) = words.next() else {
        return Err(LineFault::WordCount);
    };
    let Some(lines) = words.next() else {
        return Err(LineFault::WordCount);
    };
    if words.next().is_some() {
        return Err(LineFault::WordCount);
    }
    let Some(form) = form_of(form) else {
        return Err(LineFault::BadWord);
    };
    let Ok(lines) = read_id(lines) else {
        return Err(LineFault::BadWord);
    };
    let lines = lines.number();
    if lines > LINE_LIMIT {
        return Err(LineFault::BadWord);
    }
    Ok(Command::Act(Action::Import(form, lines as u32)))
}

/// The form that a word names.
fn form_of(word: &[u8]) -> Option<Form>
    ensures { result ≡ form_of word.now }
{
    if word == b"list".as_slice() {
        return Some(Form::List);
    }
    if word == b"csv".as_slice() {
        return Some(Form::Csv);
    }
    None
}
