//! A session: commands from a reader, and their answers to a writer.
ghost use Rattle.std.specs.Prelude.{◌≡◌, ◌≢◌, [], None, IfOk, IfErr, IfSome, OnOk};
ghost use Rattle.pregeld.specs.SessionState.{with_session_state};
ghost use Rattle.pregeld.specs.Reading.{IfLines, lines_left};
ghost use Rattle.pregeld.specs.Keeping.{AnswersLine, FailsLine, Keeps};
ghost use Rattle.pregeld.specs.Session.{BreaksOff, Serves, State, place_at};

use crate::ReadyService;
use crate::block::next_line;
use crate::carrying::run_action;
use crate::reply::Reply;
use crate::session_state::SessionState;
use crate::writing::{answer_query, write_reply};
use pregeld_commands::{Command, command_of};
use std::alloc::Global;
use std::io::{self, BufRead, Write};
use std::sync::Wait;
use std::thread::Threads;
use thiserror::Error;

/// Why a session broke off.
#[derive(Clone, Copy, Debug, PartialEq, Eq, Error)]
pub enum ServeFault {
    /// 1: a growth was refused.
    #[error("out of memory")]
    Memory,
    /// 2: the reader failed.
    #[error("the input can't be read")]
    Read,
    /// 3: the writer failed.
    #[error("the output can't be written")]
    Write,
}

impl ServeFault {
    /// The fault of a reader.
    pub(crate) fn of_reader(error: &io::Error) -> ServeFault
        ensures { result ≢ ServeFault.Write }
    {
        match error.kind() {
            io::ErrorKind::OutOfMemory => ServeFault::Memory,
            _ => ServeFault::Read,
        }
    }
}

/// Answers the commands that `reader` has, one line each, until its end. Each answer is written
/// before the next line is read. `rt` is where a refresh starts the threads of its workers.
///
/// # Errors
///
/// Want of memory while a line is read; a reader that fails, or has 2^64 lines; a writer that
/// fails. The service stands as after the last command that was carried out: a command whose answer
/// couldn't be written was carried out, an import whose lines couldn't be read to their end wasn't.
///
/// # Cost
///
/// Memory for the longest line and for the edge list that is being read, besides the service's own.
pub fn serve<H: Threads + Wait + Sync, R: BufRead, W: Write>(
    rt: &H,
    alloc: Global,
    reader: &mut R,
    writer: &mut W,
    service: &mut ReadyService,
) -> Result<(), ServeFault>
    ensures ok { OnOk result (IfSome (R.remaining reader.old) (λ input.
        Serves input service.old service.new (W.contents writer.old) (W.contents writer.new))) }
    ensures err { IfErr result (λ fault. IfSome (R.remaining reader.old) (λ input.
        BreaksOff fault input service.old service.new
        (W.contents writer.old) (W.contents writer.new))) }
{
    let mut session_state = SessionState::new(alloc);
    serve_noting(rt, alloc, reader, writer, service, &mut session_state)
}

/// Does what `serve` does, and keeps notes of the session, which has none as it begins.
pub(crate) fn serve_noting<H: Threads + Wait + Sync, R: BufRead, W: Write>(
    rt: &H,
    alloc: Global,
    reader: &mut R,
    writer: &mut W,
    service: &mut ReadyService,
    session_state: &mut SessionState,
) -> Result<(), ServeFault>
    requires { session_state.old ≡ record { pending = []; report = None } }
    ensures ok { OnOk result (IfSome (R.remaining reader.old) (λ input.
        Serves input service.old service.new (W.contents writer.old) (W.contents writer.new))) }
    ensures err { IfErr result (λ fault. IfSome (R.remaining reader.old) (λ input.
        BreaksOff fault input service.old service.new
        (W.contents writer.old) (W.contents writer.new))) }
{
    let mut number = 0_u64;
    for _turn in 0..u64::MAX {
        let Some(line) = next_line(alloc, reader)? else {
            return Ok(());
        };
        let Some(here) = number.checked_add(1) else {
            return Err(ServeFault::Read);
        };
        let line = NumberedLine {
            number: here,
            text: line.as_slice(),
        };
        number = match answer_line(rt, alloc, line, reader, writer, service, session_state) {
            Ok(reached) => reached,
            Err(fault) => return Err(fault),
        };
    }
    Err(ServeFault::Read)
}

/// A line, with its number.
#[derive(Clone, Copy)]
struct NumberedLine<'a> {
    number: u64,
    text: &'a [u8],
}

/// Answers a line, and gives the number of the last line that it has taken.
fn answer_line<H: Threads + Wait + Sync, R: BufRead, W: Write>(
    rt: &H,
    alloc: Global,
    line: NumberedLine<'_>,
    reader: &mut R,
    writer: &mut W,
    service: &mut ReadyService,
    session_state: &mut SessionState,
) -> Result<u64, ServeFault>
    ensures ok { IfOk result (λ reached. (state : State)
        → Keeps (with_session_state service.old session_state.old) state
        → IfLines (R.remaining reader.old) (λ lines.
        AnswersLine line.entry.text.now (place_at line.entry.number state lines) service.old
        (with_session_state service.new session_state.new) reached (lines_left (R.remaining reader.new))
        (W.contents writer.old) (W.contents writer.new))) }
    ensures err { IfErr result (λ fault. (state : State)
        → Keeps (with_session_state service.old session_state.old) state
        → IfLines (R.remaining reader.old) (λ lines.
        FailsLine fault line.entry.text.now (place_at line.entry.number state lines) service.old service.new
        (W.contents writer.old) (W.contents writer.new))) }
{
    let NumberedLine { number, text } = line;
    match command_of(text) {
        Ok(Command::Nothing) => Ok(number),
        Ok(Command::Edit(edit)) => match session_state.note(edit) {
            Ok(()) => Ok(number),
            Err(_) => Err(ServeFault::Memory),
        },
        Ok(Command::Ask(query)) => match answer_query(
            alloc,
            writer,
            query,
            service,
            session_state,
        ) {
            Ok(()) => Ok(number),
            Err(fault) => Err(fault),
        },
        Ok(Command::Act(action)) => {
            let (reply, reached) = run_action(
                rt,
                alloc,
                number,
                action,
                reader,
                service,
                session_state,
            )?;
            session_state.note_fault(&reply);
            match write_reply(writer, reply) {
                Ok(()) => {
                    service.drop_deferred();
                    Ok(reached)
                }
                Err(fault) => Err(fault),
            }
        }
        Err(fault) => {
            let reply = Reply::Fault(fault, number);
            session_state.note_fault(&reply);
            match write_reply(writer, reply) {
                Ok(()) => Ok(number),
                Err(fault) => Err(fault),
            }
        }
    }
}
