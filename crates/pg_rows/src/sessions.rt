// Sessions of edits, commits and imports whose lines are too long to be stored.
use crate::runs::{prints, prints_and_hints};
use std::alloc::Global;
use std::io::Write;
use std::process::Abort;
use std::test::Fail;

// Adds so many edits of a vertex, and the commit.
fn add_edits(text: &mut Vec<u8>, edits: u32) -> Result<(), Fail> {
    for edit in 0..edits {
        writeln!(text, "input 1 {edit}")?;
    }
    writeln!(text, "commit")?;
    Ok(())
}

// A batch may have 100,000 edits; of one that has more the edits are given up.
#[test]
fn too_many_edits(rt: HostRuntime) -> Result<(), Fail> {
    let alloc = rt.alloc();
    let mut text = Vec::new(alloc);
    writeln!(&mut text, "vertex 1")?;
    add_edits(&mut text, 99_999)?;
    add_edits(&mut text, 100_003)?;
    add_edits(&mut text, 0)?;
    prints(
        &rt,
        alloc,
        text.as_slice(),
        b"edition 1\nrefused 6 position 100001\nedition 2\n",
    );
    Ok(())
}

// Each command that has a number, with a mark for it.
const COMMANDS: &[u8] =
    b"vertex #\nvertex 1 #\ninput # 1\ninput 1 #\nunvertex #\nedge # 1\nedge 1 #\nedge # 1 1\n\
    edge 1 # 1\nedge 1 1 #\nreweigh # 1 1\nreweigh 1 # 1\nreweigh 1 1 #\nunedge # 1\nunedge 1 #\n\
    get #\nimport list #\nimport csv #\n";

// How many they are.
const COMMANDS_COUNT: u64 = 18;

// These lines with a word for each mark.
fn with_word(alloc: Global, lines: &[u8], word: &[u8]) -> Result<Vec<u8>, Fail> {
    let mut input = Vec::new(alloc);
    for byte in lines {
        if *byte == b'#' {
            input.extend_from_slice(word)?;
        } else {
            input.push(*byte)?;
        }
    }
    Ok(input)
}

// What is said of so many lines that have no number where one has to be.
fn faults_of_lines(alloc: Global, count: u64) -> Result<Vec<u8>, Fail> {
    let mut text = Vec::new(alloc);
    for line in 0..count {
        let line = line.saturating_add(1);
        writeln!(&mut text, "error 3 line {line}")?;
    }
    Ok(text)
}

// So many of one byte.
fn repeated(alloc: Global, byte: u8, count: usize) -> Result<Vec<u8>, Fail> {
    let mut bytes = Vec::with_capacity(alloc, count)?;
    for _byte in 0..count {
        bytes.push(byte)?;
    }
    Ok(bytes)
}

#[test]
fn no_numbers_of_a_megabyte(rt: HostRuntime) -> Result<(), Fail> {
    let alloc = rt.alloc();
    let nines = repeated(alloc, b'9', 1_048_576)?;
    let input = with_word(alloc, COMMANDS, nines.as_slice())?;
    let output = faults_of_lines(alloc, COMMANDS_COUNT)?;
    prints_and_hints(
        &rt,
        alloc,
        input.as_slice(),
        output.as_slice(),
        b"pregeld: line 1: no number in range where one belongs, or no form of a list\n",
    );
    Ok(())
}

// Edits, an empty list and a question, with a mark before a number of each.
const ZEROS: &[u8] =
    b"vertex #7\nedge 7 #8\nreweigh 7 8 -#2\nimport list #0\ncommit\nrefresh\nreport\nget #7\n";

// A number may have a megabyte of leading zeros.
#[test]
fn a_megabyte_of_zeros(rt: HostRuntime) -> Result<(), Fail> {
    let alloc = rt.alloc();
    let zeros = repeated(alloc, b'0', 1_048_576)?;
    let input = with_word(alloc, ZEROS, zeros.as_slice())?;
    prints_and_hints(
        &rt,
        alloc,
        input.as_slice(),
        b"error 5 line 4\nedition 1\n\
        refreshed edition 1 supersteps 1 ending finished calls 1 losses 0\n\
        {\"calls\":1,\"dropped\":0,\"edition\":1,\"ending\":\"finished\",\"losses\":0,\"sent\":0,\"supersteps\":1}\n\
        value 7 9223372036854775807\n",
        b"pregeld: line 4: no import while edits are pending, commit them first\n",
    );
    Ok(())
}

// Adds the import of so many edges, from each number to itself, from this one on.
fn add_loops(text: &mut Vec<u8>, first: u64, count: u64) -> Result<(), Fail> {
    writeln!(text, "import list {count}")?;
    for number in first..first.saturating_add(count) {
        writeln!(text, "{number} {number}")?;
    }
    Ok(())
}

// A graph may have 1,048,576 vertices. One more is refused, one that is there already has a fault of its own, and an
// edge to a missing vertex is no vertex. Before a proof this takes more than the minute that tests have: rt try --test
// --seconds 600.
#[test]
fn as_many_vertices_as_there_may_be(rt: HostRuntime) -> Result<(), Fail> {
    let alloc = rt.alloc();
    let (mut input, mut output) = (Vec::new(alloc), Vec::new(alloc));
    for block in 0..20_u64 {
        add_loops(&mut input, block.saturating_mul(50_000), 50_000)?;
    }
    add_loops(&mut input, 1_000_000, 48_576)?;
    input.extend_from_slice(b"vertex 2000000\ncommit\nvertex 1\ncommit\nedge 1 2000000\ncommit\n")?;
    for edition in 1..22_u64 {
        writeln!(&mut output, "edition {edition}")?;
    }
    output.extend_from_slice(b"refused 7 position 1\nrefused 2 position 1\nedition 22\n")?;
    prints(&rt, alloc, input.as_slice(), output.as_slice());
    Ok(())
}
