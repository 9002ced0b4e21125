// Each answer is written before the next line is read.
use crate::runs::session_on;
use pregeld::ServeFault;
use std::alloc::Global;
use std::cell::Cell;
use std::io;
use std::io::{BufReader, Read, Write};
use std::sync::Wait;
use std::test::Fail;
use std::thread::Threads;

// Lines, and how many lines of answers have to be handed on before each is read.
const TURNS: [(usize, &str); 19] = [
    (0, "dump\n"),
    (1, "# a list\n"),
    (1, "import list 2\n"),
    (1, "1 2 5\n"),
    (1, "2 3\n"),
    (2, "refresh\n"),
    (3, "agg reached\n"),
    (4, "agg greatest\n"),
    (5, "dump\n"),
    (9, "edge 1 3 2\n"),
    (9, "import csv 1\n"),
    (9, "3,1\n"),
    (10, "get 3\n"),
    (11, "commit\n"),
    (12, "check\n"),
    (13, "report\n"),
    (14, "fly\n"),
    (15, "\n"),
    (15, "get 9\n"),
];

const ANSWERS: usize = 16;

// Gives a line a call, if as many answers were handed on as there have to be, and fails otherwise.
#[derive(Drop)]
struct TurnReader<'a> {
    taken: usize,
    handed_on: &'a Cell<usize>,
}

impl<'a> Read for TurnReader<'a> {
    fn read(&mut self, buf: &mut [u8]) -> io::Result<usize> {
        let Some((answered, line)) = TURNS.get(self.taken).copied() else {
            return Ok(0);
        };
        if self.handed_on.get() != answered || buf.len() < line.len() {
            return Err(io::Error::from(io::ErrorKind::BrokenPipe));
        }
        self.taken = self.taken.saturating_add(1);
        let (place, _) = buf.split_at_mut(line.len());
        place.copy_from_slice(line.as_bytes());
        Ok(line.len())
    }
}

// Counts the lines that it is given, and tells how many were handed on.
#[derive(Drop)]
struct TurnWriter<'a> {
    written: usize,
    handed_on: &'a Cell<usize>,
    flushes: bool,
}

impl<'a> Write for TurnWriter<'a> {
    fn write(&mut self, buf: &[u8]) -> io::Result<usize> {
        let lines = buf.iter().filter(|byte| **byte == b'\n').count();
        self.written = self.written.saturating_add(lines);
        Ok(buf.len())
    }

    fn flush(&mut self) -> io::Result<()> {
        if self.flushes {
            self.handed_on.set(self.written);
        }
        Ok(())
    }
}

// Serves the turns, and gives how many answers were handed on.
fn served_in_turns<H: Threads + Wait + Sync>(
    rt: &H,
    alloc: Global,
    flushes: bool,
) -> Result<(Result<(), ServeFault>, usize), Fail> {
    let handed_on = Cell::new(0);
    let turns = TurnReader {
        taken: 0,
        handed_on: &handed_on,
    };
    let mut reader = BufReader::with_capacity(alloc, 64, turns)?;
    let mut writer = TurnWriter {
        written: 0,
        handed_on: &handed_on,
        flushes,
    };
    let (ended, _) = session_on(rt, alloc, &mut reader, &mut writer)?;
    Ok((ended, handed_on.get()))
}

#[test]
fn each_answer_comes_before_the_next_line(rt: HostRuntime) -> Result<(), Fail> {
    let answered = served_in_turns(&rt, rt.alloc(), true)?;
    assert_eq!(&rt; answered, (Ok(()), ANSWERS));
    Ok(())
}

// The reader does look: where nothing is handed on, it fails once an answer is due.
#[test]
fn an_answer_that_is_kept_is_missed(rt: HostRuntime) -> Result<(), Fail> {
    let missed = served_in_turns(&rt, rt.alloc(), false)?;
    assert_eq!(&rt; missed, (Err(ServeFault::Read), 0));
    Ok(())
}
