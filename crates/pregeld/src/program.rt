//! The program.
ghost use Rattle.std.specs.Prelude.{◌≡◌, ◌≤◌, ◌⊎◌, [], None, map, IfErr, IfSome, OnOk};
ghost use Rattle.pregeld_args.specs.Arguments.{AreInRange};
ghost use Rattle.pg_service.specs.Handed.{Book};
ghost use Rattle.pg_service.specs.Service.{fresh};
ghost use Rattle.pregeld.specs.AskedJob.{job_of_options};
ghost use Rattle.pregeld.specs.ExitStatus.{AddsText, EndsBroken, EndsWell, IsRefused};
ghost use Rattle.pregeld.specs.Job.{ReadyState};
ghost use Rattle.pregeld.specs.Session.{BreaksOff, Serves};

use crate::making::service_of;
use crate::session::serve_noting;
use crate::session_state::SessionState;
use crate::{ReadyService, ServeFault};
use clap::Error;
use clap::error::ErrorKind;
use pregeld_args::{NoOptions, Options, options_of};
use pregeld_commands::LineFault;
use std::alloc::Global;
use std::convert::AsStr;
use std::io::{BufRead, Write};
use std::sync::Wait;
use std::thread::Threads;

/// What is said where a word is no option.
const NO_FILES: &str =
    "No files are read: edge lists come on standard input, as `import list N` and then N lines.";

/// Runs the program on its words, the program's name first, with `rt` to start threads by, and gives its exit status: 0
/// at the end of the input or after help; 1 where memory, the input or the output failed; 2 where the words are at
/// fault, and then nothing was read or written. With 1 and 2 `errors` gets the reason, and after a session what is at
/// fault with the first line that was, if it can be written.
pub fn start<H: Threads + Wait + Sync, S: AsStr, R: BufRead, W: Write, E: Write>(
    rt: &H,
    alloc: Global,
    words: &[S],
    reader: &mut R,
    writer: &mut W,
    errors: &mut E,
) -> u8
    ensures status { result ≤ 2 }
    ensures done { result ≡ 0 → EndsWell R.remaining W.contents
        (map S.text words.now) reader.old reader.new writer.old writer.new }
    ensures broken { result ≡ 1 → EndsBroken R.remaining W.contents
        (map S.text words.now) reader.old reader.new writer.old writer.new }
    ensures refused { result ≡ 2 → IsRefused R.remaining W.contents
        (map S.text words.now) reader.old reader.new writer.old writer.new }
{
    let (status, service) = start_leaving(rt, alloc, words, reader, writer, errors);
    if let Some(service) = service {
        service.close(rt);
    }
    status
}

/// Does what `start` does, and hands back the service of the session too, if one was begun. A process that ends saves
/// the time to let go of all that a long session holds, where it calls `leave` on it.
pub fn start_leaving<H: Threads + Wait + Sync, S: AsStr, R: BufRead, W: Write, E: Write>(
    rt: &H,
    alloc: Global,
    words: &[S],
    reader: &mut R,
    writer: &mut W,
    errors: &mut E,
) -> (u8, Option<ReadyService>)
    ensures status { result.0 ≤ 2 }
    ensures done { result.0 ≡ 0 → EndsWell R.remaining W.contents
        (map S.text words.now) reader.old reader.new writer.old writer.new }
    ensures broken { result.0 ≡ 1 → EndsBroken R.remaining W.contents
        (map S.text words.now) reader.old reader.new writer.old writer.new }
    ensures refused { result.0 ≡ 2 → IsRefused R.remaining W.contents
        (map S.text words.now) reader.old reader.new writer.old writer.new }
{
    let options = match options_of(alloc, words) {
        Ok(options) => options,
        Err(NoOptions::Help(text)) => {
            return match show(alloc, writer, &text) {
                Ok(()) => (0, None),
                Err(fault) => (fail(errors, name_of(fault), 1), None),
            };
        }
        Err(NoOptions::Memory) => return (fail(errors, "memory", 1), None),
        Err(NoOptions::Arguments(error)) => {
            let status = fail(errors, "arguments", 2);
            explain(errors, error);
            return (status, None);
        }
    };
    let mut session_state = SessionState::new(alloc);
    let (served, service) = serve_asked(rt, alloc, &options, reader, writer, &mut session_state);
    let status = match served {
        Ok(()) => 0,
        Err(fault) => fail(errors, name_of(fault), 1),
    };
    hint(errors, session_state.first_fault());
    (status, service)
}

/// Serves a session of the job that the options ask for, and hands back the service, if there was memory for one.
fn serve_asked<H: Threads + Wait + Sync, R: BufRead, W: Write>(
    rt: &H,
    alloc: Global,
    options: &Options,
    reader: &mut R,
    writer: &mut W,
    session_state: &mut SessionState,
) -> (Result<(), ServeFault>, Option<ReadyService>)
    requires range { AreInRange options.now }
    requires none { session_state.old ≡ record { pending = []; report = None } }
    ensures ok { OnOk result.0 (IfSome (R.remaining reader.old) (λ input. (publisher : Book) × (unread : ReadyState)
        × Serves input (fresh (job_of_options options.now) publisher) unread (W.contents writer.old)
        (W.contents writer.new))) }
    ensures err { IfErr result.0 (λ fault. ((reader.new ≡ reader.old) × (writer.new ≡ writer.old))
        ⊎ IfSome (R.remaining reader.old) (λ input. (publisher : Book) × (unread : ReadyState)
        × BreaksOff fault input (fresh (job_of_options options.now) publisher) unread
        (W.contents writer.old) (W.contents writer.new))) }
{
    let Ok(mut service) = service_of(rt, alloc, options) else {
        return (Err(ServeFault::Memory), None);
    };
    let served = serve_noting(rt, alloc, reader, writer, &mut service, session_state);
    (served, Some(service))
}

/// Says what is at fault with the first line of a session that is.
fn hint<E: Write>(errors: &mut E, fault: Option<(LineFault, u64)>) {
    let Some((fault, line)) = fault else {
        return;
    };
    let what = match fault {
        LineFault::NoCommand => "no such command, see --help",
        LineFault::WordCount => "too many words, or too few, see --help",
        LineFault::BadWord => "no number in range where one belongs, or no form of a list",
        LineFault::CutShort => "the input ends before the lines of this import do",
        LineFault::EditsPending => "no import while edits are pending, commit them first",
    };
    let _said = writeln!(errors, "pregeld: line {line}: {what}");
}

/// Says what is at fault with the words of the command line, and where a word may have been meant as the name of a
/// file, that edge lists are read from standard input.
fn explain<E: Write>(errors: &mut E, error: Option<Error>) {
    let Some(error) = error else {
        return;
    };
    let _said = write!(errors, "{error}");
    if error.kind() == ErrorKind::UnknownArgument {
        let _said = writeln!(errors, "{NO_FILES}");
    }
}

/// Writes a text of help.
fn show<W: Write>(alloc: Global, writer: &mut W, help: &Error) -> Result<(), ServeFault>
    ensures { OnOk result (AddsText (W.contents writer.old) (W.contents writer.new)) }
{
    let Ok(text) = help.to_string(alloc) else {
        return Err(ServeFault::Memory);
    };
    match writer.write_all(text.as_bytes()) {
        Ok(()) => Ok(()),
        Err(_) => Err(ServeFault::Write),
    }
}

/// What failed.
fn name_of(fault: ServeFault) -> &'static str {
    match fault {
        ServeFault::Memory => "memory",
        ServeFault::Read => "input",
        ServeFault::Write => "output",
    }
}

/// Says what failed, and gives the exit status for it. A message that can't be written changes
/// nothing.
fn fail<E: Write>(errors: &mut E, what: &str, status: u8) -> u8
    ensures { result ≡ status }
{
    let _said = writeln!(errors, "pregeld: {what}");
    status
}
