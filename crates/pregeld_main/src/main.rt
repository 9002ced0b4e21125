//! The program: commands on standard input, answers on standard output.
#![tactic(auto)]

ghost use Rattle.std.specs.Prelude.{◌≤◌};

use pregeld::start_leaving;
use std::alloc::{AllocError, Global};
use std::env;
use std::io::{self, BufReader, BufWriter, Write};
use std::process::ExitCode;
use std::sync::Wait;
use std::thread::Threads;

/// How many bytes the piece has that is taken once. Up to twice as many stay when they are let go of.
const LARGE_PIECE: usize = 16 << 20;

fn main(rt: HostRuntime) -> ExitCode {
    let mut errors = rt.stderr();
    match run(&rt, &rt, &mut errors) {
        Ok(status) => ExitCode::from(status),
        Err(error) => ExitCode::from(refuse(&mut errors, &error)),
    }
}

/// Runs the program on its words and its standard streams, with threads by `threads`, and gives its exit status.
///
/// # Errors
///
/// Want of memory before the first command, words that aren't UTF-8, or output that can't be written
/// after the last one.
fn run<H: Threads + Wait + Sync, E: Write>(
    rt: &HostRuntime,
    threads: &H,
    errors: &mut E,
) -> io::Result<u8> {
    keep_freed_memory(rt.alloc());
    let mut words = Vec::new(rt.alloc());
    for word in env::args(rt)? {
        words.push(word)?;
    }
    let mut reader = BufReader::new(rt.alloc(), rt.stdin())?;
    let mut writer = BufWriter::new(rt.alloc(), rt.stdout())?;
    let (status, service) = start_leaving(
        threads,
        rt.alloc(),
        words.as_slice(),
        &mut reader,
        &mut writer,
        errors,
    );
    if let Some(service) = service {
        // The process ends before long, and its memory goes with it.
        service.leave(threads);
    }
    if status == 0 && writer.flush().is_err() {
        // Whatever kind of error it is, it is the output that failed.
        return Err(io::Error::from(io::ErrorKind::Other));
    }
    Ok(status)
}

/// Has the GNU C library keep what is let go of. It gives memory back to the system once twice as much lies free at the
/// end of its heap as the largest piece had that it took from the system by itself and gave back. A session takes and
/// lets go of megabytes again and again, and would pay for each page anew. So one large piece is taken and let go of.
fn keep_freed_memory(alloc: Global) {
    let piece: Result<Vec<u8>, AllocError> = Vec::with_capacity(alloc, LARGE_PIECE);
    drop(piece);
}

/// Says why the program ends, and gives the exit status for it.
fn refuse<E: Write>(errors: &mut E, error: &io::Error) -> u8
    ensures { result ≤ 2 }
{
    let (what, status) = match error.kind() {
        io::ErrorKind::OutOfMemory => ("memory", 1),
        io::ErrorKind::InvalidData => ("arguments", 2),
        _ => ("output", 1),
    };
    let _said = writeln!(errors, "pregeld: {what}");
    status
}
