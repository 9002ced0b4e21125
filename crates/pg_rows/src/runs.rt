// Whole runs of the program, by its words and its input.
use pg_global::AnyCombiner;
use pg_graph::VertexId;
use pregeld::{Limits, ReadyService, ServeFault, Service, serve, start_leaving};
use pregeld_programs::{ReadyMaster, ReadyProgram, Sssp};
use std::alloc::Global;
use std::io;
use std::io::{BufRead, BufReader, Read, Write};
use std::process::Abort;
use std::sync::Wait;
use std::test::Fail;
use std::thread::Threads;

const TWO_HOPS: &[u8] = b"import list 2\n1 2 5\n2 3\nrefresh\ndump\n";

// What a run of the program came to.
#[derive(Drop)]
struct Ended {
    status: u8,
    output: Vec<u8>,
    errors: Vec<u8>,
    // How far the session has come, if there was one.
    reached: Option<Reached>,
}

// What the program comes to with these words on these streams: its exit status, what is said of it, and how far its
// session has come, if there was one.
fn run_on<H: Threads + Wait + Sync, R: BufRead, W: Write>(
    rt: &H,
    alloc: Global,
    words: &[&str],
    reader: &mut R,
    writer: &mut W,
) -> (u8, Vec<u8>, Option<Reached>) {
    let mut errors = Vec::new(alloc);
    let (status, service) = start_leaving(rt, alloc, words, reader, writer, &mut errors);
    let reached = match service {
        Some(service) => Some(reached_at_end(rt, service)),
        None => None,
    };
    (status, errors, reached)
}

// The program with these words on this input.
fn run<H: Threads + Wait + Sync>(rt: &H, alloc: Global, words: &[&str], input: &[u8]) -> Ended {
    let mut reader = input;
    let mut output = Vec::new(alloc);
    let (status, errors, reached) = run_on(rt, alloc, words, &mut reader, &mut output);
    Ended {
        status,
        output,
        errors,
        reached,
    }
}

// Shortest paths from 1 on these lines print this, and say this of the first line at fault.
pub(crate) fn prints_and_hints<H: Threads + Wait + Sync + Abort>(
    rt: &H,
    alloc: Global,
    input: &[u8],
    output: &[u8],
    hint: &[u8],
) {
    let ended = run(rt, alloc, &["pregeld", "--program", "sssp"], input);
    assert!(rt; ended.status == 0 && ended.reached.is_some());
    assert_eq!(rt; ended.output.as_slice(), output);
    assert_eq!(rt; ended.errors.as_slice(), hint);
}

// Shortest paths from 1 on these lines print this, and nothing is at fault.
pub(crate) fn prints<H: Threads + Wait + Sync + Abort>(
    rt: &H,
    alloc: Global,
    input: &[u8],
    output: &[u8],
) {
    prints_and_hints(rt, alloc, input, output, b"");
}

// A list of so many edges, none of which shares a vertex with another.
fn edges_apart(alloc: Global, count: u64) -> Result<Vec<u8>, Fail> {
    let mut text = Vec::new(alloc);
    writeln!(&mut text, "import list {count}")?;
    for edge in 0..count {
        let source = edge.saturating_mul(2);
        let target = source.saturating_add(1);
        writeln!(&mut text, "{source} {target}")?;
    }
    Ok(text)
}

#[test]
fn the_longest_batch(rt: HostRuntime) -> Result<(), Fail> {
    let alloc = rt.alloc();
    let longest = edges_apart(alloc, 33_333)?;
    prints(&rt, alloc, longest.as_slice(), b"edition 1\n");
    let longer = edges_apart(alloc, 33_334)?;
    prints(
        &rt,
        alloc,
        longer.as_slice(),
        b"refused 6 position 100001\n",
    );
    Ok(())
}

#[test]
fn a_number_of_a_megabyte(rt: HostRuntime) -> Result<(), Fail> {
    let alloc = rt.alloc();
    let mut text = Vec::new(alloc);
    text.extend_from_slice(b"import list 1\n")?;
    for _digit in 0..1_048_576 {
        text.push(b'9')?;
    }
    text.extend_from_slice(b" 1\ndump\n")?;
    prints(
        &rt,
        alloc,
        text.as_slice(),
        b"import refused 3 line 1\nunpublished\n",
    );
    Ok(())
}

// The text of help, with the name under which the program was started.
fn help_of<H: Threads + Wait + Sync + Abort>(rt: &H, alloc: Global, name: &str) -> Vec<u8> {
    let ended = run(rt, alloc, &[name, "--help"], TWO_HOPS);
    assert!(rt; ended.status == 0 && ended.errors.is_empty() && ended.reached.is_none());
    ended.output
}

// Help names the program, whatever its file is called.
#[test]
fn help(rt: HostRuntime) {
    let own = help_of(&rt, rt.alloc(), "pregeld");
    let other = help_of(&rt, rt.alloc(), "/tmp/another_name");
    assert!(&rt;
        own.windows(14)
            .any(|part| part == b"Usage: pregeld".as_slice())
    );
    assert_eq!(&rt; own.as_slice(), other.as_slice());
}

// A reader that fails at once, in this way.
#[derive(Drop)]
struct FailingReader {
    kind: io::ErrorKind,
}

impl Read for FailingReader {
    fn read(&mut self, _buf: &mut [u8]) -> io::Result<usize> {
        Err(io::Error::from(self.kind))
    }
}

// What a session of shortest paths comes to on these streams: its exit status, and what is said of it.
fn said<H: Threads + Wait + Sync, R: BufRead, W: Write>(
    rt: &H,
    alloc: Global,
    reader: &mut R,
    writer: &mut W,
) -> (u8, Vec<u8>) {
    let words = ["pregeld", "--program", "sssp"];
    let (status, errors, _) = run_on(rt, alloc, words.as_slice(), reader, writer);
    (status, errors)
}

// What is said where the reader fails in this way.
fn said_of_reader<H: Threads + Wait + Sync>(
    rt: &H,
    alloc: Global,
    kind: io::ErrorKind,
) -> Result<(u8, Vec<u8>), Fail> {
    let mut reader = BufReader::with_capacity(alloc, 64, FailingReader { kind })?;
    let mut output = Vec::new(alloc);
    Ok(said(rt, alloc, &mut reader, &mut output))
}

// What is said where the writer has room for four bytes.
fn said_of_writer<H: Threads + Wait + Sync>(rt: &H, alloc: Global) -> (u8, Vec<u8>) {
    let mut reader: &[u8] = TWO_HOPS;
    let mut room = [0_u8; 4];
    let mut writer = room.as_mut_slice();
    said(rt, alloc, &mut reader, &mut writer)
}

// A writer that takes all, and can't hand it on for want of memory.
#[derive(Drop)]
struct FailingFlush;

impl Write for FailingFlush {
    fn write(&mut self, buf: &[u8]) -> io::Result<usize> {
        Ok(buf.len())
    }

    fn flush(&mut self) -> io::Result<()> {
        Err(io::Error::from(io::ErrorKind::OutOfMemory))
    }
}

// A flush that fails is one of the output, of whatever kind it is.
#[test]
fn a_flush_fails(rt: HostRuntime) {
    let mut reader: &[u8] = TWO_HOPS;
    let (status, text) = said(&rt, rt.alloc(), &mut reader, &mut FailingFlush);
    assert!(&rt; status == 1 && text.as_slice() == b"pregeld: output\n".as_slice());
}

// What is said of a file's name among the words ends with where edge lists come from.
#[test]
fn a_file_is_named(rt: HostRuntime) {
    let words = ["pregeld", "--program", "sssp", "roads.txt"];
    let ended = run(&rt, rt.alloc(), words.as_slice(), TWO_HOPS);
    assert!(&rt; ended.status == 2 && ended.output.is_empty() && ended.reached.is_none());
    let said = ended.errors.as_slice();
    assert!(&rt;
        said.starts_with(b"pregeld: arguments\nerror: unexpected argument 'roads.txt' found\n")
    );
    assert!(&rt;
        said.ends_with(
            b"\nNo files are read: edge lists come on standard input, as `import list N` and then N lines.\n"
        )
    );
}

// It is named what failed: memory, the input or the output.
#[test]
fn what_failed_is_said(rt: HostRuntime) -> Result<(), Fail> {
    let alloc = rt.alloc();
    let (status, text) = said_of_reader(&rt, alloc, io::ErrorKind::OutOfMemory)?;
    assert!(&rt; status == 1 && text.as_slice() == b"pregeld: memory\n".as_slice());
    let (status, text) = said_of_reader(&rt, alloc, io::ErrorKind::BrokenPipe)?;
    assert!(&rt; status == 1 && text.as_slice() == b"pregeld: input\n".as_slice());
    let (status, text) = said_of_writer(&rt, alloc);
    assert!(&rt; status == 1 && text.as_slice() == b"pregeld: output\n".as_slice());
    Ok(())
}

// The program of shortest paths from a source.
fn paths_from(source: VertexId) -> ReadyProgram {
    ReadyProgram::Sssp(Sssp { source })
}

// Shortest paths from 1, on no graph yet. It is ended by `close`.
fn shortest_paths<H: Wait>(rt: &H, alloc: Global) -> Result<ReadyService, Fail> {
    let source = VertexId::new(1).ok_or("an id")?;
    let limits = Limits::new(1, 1, 1000, 0, 0).ok_or("limits")?;
    let master = ReadyMaster {
        program: paths_from(source),
    };
    let combiner = AnyCombiner::NoCombiner;
    let service = Service::new(rt, alloc, limits, paths_from(source), combiner, master)?;
    Ok(service)
}

// What a session came to.
#[derive(Drop)]
pub(crate) struct Session {
    pub(crate) served: Result<(), ServeFault>,
    pub(crate) written: Vec<u8>,
    pub(crate) reached: Reached,
}

// How far a session has come: the edition of the graph, and that of what is published.
#[derive(Clone, Copy, Debug, PartialEq, Eq)]
pub(crate) struct Reached {
    pub(crate) graph: u64,
    pub(crate) published: Option<u64>,
}

fn reached_by(service: &ReadyService) -> Reached {
    Reached {
        graph: service.edition().number(),
        published: service.answers().map(|answers| answers.edition().number()),
    }
}

// Ends a service, and tells how far it has come.
fn reached_at_end<H: Wait>(rt: &H, service: ReadyService) -> Reached {
    let reached = reached_by(&service);
    service.close(rt);
    reached
}

// A session of shortest paths on these streams: how it ends, and how far it has come.
pub(crate) fn session_on<H: Threads + Wait + Sync, R: BufRead, W: Write>(
    rt: &H,
    alloc: Global,
    reader: &mut R,
    writer: &mut W,
) -> Result<(Result<(), ServeFault>, Reached), Fail> {
    let mut service = shortest_paths(rt, alloc)?;
    let served = serve(rt, alloc, reader, writer, &mut service);
    Ok((served, reached_at_end(rt, service)))
}

// How shortest paths end whose writer has room for four bytes, and how far they have come.
fn with_four_bytes<H: Threads + Wait + Sync>(
    rt: &H,
    alloc: Global,
) -> Result<(Result<(), ServeFault>, Reached), Fail> {
    let mut reader: &[u8] = TWO_HOPS;
    let mut room = [0_u8; 4];
    let mut writer = room.as_mut_slice();
    session_on(rt, alloc, &mut reader, &mut writer)
}

#[test]
fn a_writer_that_is_full(rt: HostRuntime) -> Result<(), Fail> {
    let (served, reached) = with_four_bytes(&rt, rt.alloc())?;
    assert_eq!(&rt; served, Err(ServeFault::Write));
    assert!(&rt; reached.graph == 1 && reached.published.is_none());
    Ok(())
}
