// Sessions whose reader or writer fails in mid-stream.
use crate::runs::{Reached, Session, session_on};
use pregeld::ServeFault;
use std::alloc::Global;
use std::io;
use std::io::{BufReader, Read, Write};
use std::sync::Wait;
use std::test::Fail;
use std::thread::Threads;

// A comment, a block of each form, refreshes, a fault of a line, an edit with its commit, each of the
// questions, and the check.
const INPUT: &[u8] =
    b"dump\n# a list\nimport list 2\n1 2 5\n2 3\nrefresh\nimport csv 1\n3,1\nfly\nrefresh\ndump\n\
    edge 1 3 2\nget 3\nagg reached\ncommit\nreport\ncheck\n";

const OUTPUT: &[u8] =
    b"unpublished\nedition 1\nrefreshed edition 1 supersteps 3 ending finished calls 5 losses 0\n\
    edition 2\nerror 1 line 9\nrefreshed edition 2 supersteps 4 ending finished calls 3 losses 0\n\
    value 1 0\nvalue 2 5\nvalue 3 6\nend 3\nvalue 3 6\naggregate reached 3\nedition 3\n\
    {\"calls\":3,\"dropped\":0,\"edition\":2,\"ending\":\"finished\",\"losses\":0,\"sent\":3,\"supersteps\":4}\n\
    check stale\n";

// Gives its text a byte a call, and fails at the nth call.
#[derive(Drop)]
struct NthReader<'a> {
    text: &'a [u8],
    calls_left: usize,
}

impl<'a> Read for NthReader<'a> {
    fn read(&mut self, buf: &mut [u8]) -> io::Result<usize> {
        if self.calls_left == 0 {
            return Err(io::Error::from(io::ErrorKind::BrokenPipe));
        }
        self.calls_left -= 1;
        match (self.text.split_first(), buf.first_mut()) {
            (Some((byte, rest)), Some(place)) => {
                *place = *byte;
                self.text = rest;
                Ok(1)
            }
            _ => Ok(0),
        }
    }
}

// Gives its text seven bytes a call, and is interrupted before each.
#[derive(Drop)]
struct InterruptedReader<'a> {
    text: &'a [u8],
    ready: bool,
}

impl<'a> Read for InterruptedReader<'a> {
    fn read(&mut self, buf: &mut [u8]) -> io::Result<usize> {
        self.ready = !self.ready;
        if self.ready {
            return Err(io::Error::from(io::ErrorKind::Interrupted));
        }
        let count = self.text.len().min(buf.len()).min(7);
        let (front, rest) = self.text.split_at(count);
        let (room, _) = buf.split_at_mut(count);
        room.copy_from_slice(front);
        self.text = rest;
        Ok(count)
    }
}

// Keeps what it is given, and fails at the nth call.
#[derive(Drop)]
struct NthWriter {
    written: Vec<u8>,
    calls_left: usize,
}

impl Write for NthWriter {
    fn write(&mut self, buf: &[u8]) -> io::Result<usize> {
        if self.calls_left == 0 {
            return Err(io::Error::from(io::ErrorKind::BrokenPipe));
        }
        self.calls_left -= 1;
        self.written.extend_from_slice(buf)?;
        Ok(buf.len())
    }

    fn flush(&mut self) -> io::Result<()> {
        Ok(())
    }
}

// How many lines of the output answer so many lines of the input.
const ANSWERED: [usize; 18] = [0, 1, 1, 1, 1, 2, 3, 3, 4, 5, 6, 10, 10, 11, 12, 13, 14, 15];

// How many lines end in a text.
fn lines_of(text: &[u8]) -> usize {
    text.iter().filter(|byte| **byte == b'\n').count()
}

// What a session has come to with so many lines of the output.
fn reached_after(lines: usize) -> Reached {
    let (graph, published) = match lines {
        0 | 1 => (0, None),
        2 => (1, None),
        3 => (1, Some(1)),
        4 | 5 => (2, Some(1)),
        6..=12 => (2, Some(2)),
        _ => (3, Some(2)),
    };
    Reached { graph, published }
}

// A session that is read by this reader.
fn read_by<H: Threads + Wait + Sync, R: Read + Drop>(
    rt: &H,
    alloc: Global,
    inner: R,
) -> Result<Session, Fail> {
    let mut reader = BufReader::with_capacity(alloc, 16, inner)?;
    let mut written = Vec::new(alloc);
    let (served, reached) = session_on(rt, alloc, &mut reader, &mut written)?;
    Ok(Session {
        served,
        written,
        reached,
    })
}

// A session whose nth read fails.
fn with_broken_reader<H: Threads + Wait + Sync>(
    rt: &H,
    alloc: Global,
    calls: usize,
) -> Result<Session, Fail> {
    let broken = NthReader {
        text: INPUT,
        calls_left: calls,
    };
    read_by(rt, alloc, broken)
}

// How many lines answer what is read in so many calls.
fn answered_in(calls: usize) -> usize {
    let read = INPUT.get(..calls).unwrap_or(INPUT);
    ANSWERED[lines_of(read).min(17)]
}

// It has answered just the commands whose lines were read until then, each of them whole.
fn has_answered_all_read(session: &Session, calls: usize) -> bool {
    let written = session.written.as_slice();
    let lines = answered_in(calls);
    OUTPUT.starts_with(written)
        && lines_of(written) == lines
        && (written.is_empty() || written.last() == Some(&b'\n'))
        && session.reached == reached_after(lines)
}

// Whether its reader failed, or else it answered all.
fn ends_by_read(session: &Session) -> bool {
    match session.served {
        Ok(()) => session.written.as_slice() == OUTPUT,
        Err(fault) => fault == ServeFault::Read,
    }
}

#[test]
fn each_read_fails_in_turn(rt: HostRuntime) -> Result<(), Fail> {
    let alloc = rt.alloc();
    let mut whole = 0_usize;
    for calls in 0..INPUT.len() + 2 {
        let session = with_broken_reader(&rt, alloc, calls)?;
        assert!(&rt; has_answered_all_read(&session, calls));
        assert!(&rt; ends_by_read(&session));
        whole = whole.saturating_add(usize::from(session.served.is_ok()));
    }
    assert_eq!(&rt; whole, 1);
    Ok(())
}

#[test]
fn an_interrupted_reader_is_read_on(rt: HostRuntime) -> Result<(), Fail> {
    let interrupted = InterruptedReader {
        text: INPUT,
        ready: false,
    };
    let session = read_by(&rt, rt.alloc(), interrupted)?;
    assert!(&rt; session.served.is_ok());
    assert!(&rt; session.written.as_slice() == OUTPUT);
    Ok(())
}

// A session whose nth write fails.
fn with_broken_writer<H: Threads + Wait + Sync>(
    rt: &H,
    alloc: Global,
    calls: usize,
) -> Result<Session, Fail> {
    let mut reader = INPUT;
    let mut writer = NthWriter {
        written: Vec::new(alloc),
        calls_left: calls,
    };
    let (served, reached) = session_on(rt, alloc, &mut reader, &mut writer)?;
    Ok(Session {
        served,
        written: writer.written,
        reached,
    })
}

// It has carried out the command whose answer couldn't be written, as far as the editions of the graph and of what is
// published tell, and none after it that changes them; or else it has answered all.
fn has_carried_out_one_more(session: &Session) -> bool {
    let written = session.written.as_slice();
    let lines = lines_of(written).saturating_add(1);
    match session.served {
        Ok(()) => written == OUTPUT,
        Err(fault) => {
            fault == ServeFault::Write
                && OUTPUT.starts_with(written)
                && session.reached == reached_after(lines)
        }
    }
}

// Each of the twelve answers is at least one write.
#[test]
fn each_write_fails_in_turn(rt: HostRuntime) -> Result<(), Fail> {
    let alloc = rt.alloc();
    let mut failed = 0_usize;
    for calls in 0..1000 {
        let session = with_broken_writer(&rt, alloc, calls)?;
        assert!(&rt; has_carried_out_one_more(&session));
        if session.served.is_ok() {
            break;
        }
        failed = failed.saturating_add(1);
    }
    assert!(&rt; 12 <= failed && failed < 1000);
    Ok(())
}
