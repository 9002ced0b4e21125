//! Runs the stored sessions on several numbers of partitions and workers, with and without checkpoints, and stored
//! command lines as they stand, and says whether each answers what is stored.
#![tactic(auto)]

use pregeld::start;
use std::alloc::Global;
use std::fs::Files;
use std::process::ExitCode;
use std::sync::Wait;
use std::thread::Threads;
use std::{fs, io};

/// What the sessions are run by.
trait Host: Threads + Wait + Sync + Files + AllocGlobal + Print + Clone + Drop {}

impl<H: Threads + Wait + Sync + Files + AllocGlobal + Print + Clone + Drop> Host for H {}

/// On how many partitions and workers a session is run, and after how many supersteps they are saved.
type Setting = (&'static str, &'static str, &'static str);

/// Where sessions lie, and how each is run: those for readers, those that the rules are tried by, those of random
/// graphs and batches, and those of many supersteps.
const FOLDERS: [(&str, &[Setting]); 4] = [
    ("examples", &EACH),
    ("rows", &EACH),
    ("random", &MIXED),
    ("long", &FEW),
];

const EACH: [Setting; 12] = [
    ("1", "1", "0"),
    ("1", "2", "1"),
    ("1", "3", "3"),
    ("1", "16", "1"),
    ("3", "1", "1"),
    ("3", "2", "0"),
    ("3", "3", "1"),
    ("3", "16", "3"),
    ("64", "1", "3"),
    ("64", "2", "1"),
    ("64", "3", "0"),
    ("64", "16", "1"),
];

const MIXED: [Setting; 6] = [
    ("1", "1", "0"),
    ("2", "2", "1"),
    ("3", "2", "0"),
    ("4", "3", "3"),
    ("5", "5", "1"),
    ("64", "16", "0"),
];

const FEW: [Setting; 3] = [("1", "1", "0"), ("3", "1", "1"), ("3", "2", "0")];

/// Where command lines lie, those of a folder with one input, one output and one exit status.
const WORDS: &str = "words";

/// What a run of the program has to come to.
#[derive(Drop)]
struct Wanted {
    status: u8,
    output: Vec<u8>,
    errors: Vec<u8>,
}

fn main(rt: HostRuntime) -> io::Result<ExitCode> {
    let mut all = true;
    for (folder, settings) in FOLDERS {
        all &= are_sessions_answered(&rt, folder, settings)?;
    }
    all &= are_words_answered(&rt)?;
    Ok(if all {
        ExitCode::SUCCESS
    } else {
        ExitCode::FAILURE
    })
}

/// Whether all sessions of a folder are answered as is stored. Prints a line for each.
fn are_sessions_answered<H: Host>(rt: &H, folder: &str, settings: &[Setting]) -> io::Result<bool> {
    let mut all = true;
    for name in sessions(rt, folder)? {
        let answers = is_answered_as_stored(rt, name.as_str(), settings)?;
        println!(rt; "{name} {}", verdict(answers))?;
        all &= answers;
    }
    Ok(all)
}

/// Whether all command lines are answered as is stored. Prints a line for each folder of them.
fn are_words_answered<H: Host>(rt: &H) -> io::Result<bool> {
    let mut all = true;
    for name in sessions(rt, WORDS)? {
        let answers = are_answered_as_stored(rt, name.as_str())?;
        println!(rt; "{name} {}", verdict(answers))?;
        all &= answers;
    }
    Ok(all)
}

/// What is said of a session.
fn verdict(answers: bool) -> &'static str {
    if answers {
        "answers what is stored"
    } else {
        "DIFFERS"
    }
}

/// The paths of a folder's sessions, in the order of the alphabet.
fn sessions<H: Host>(rt: &H, folder: &str) -> io::Result<Vec<String>> {
    let mut paths = Vec::new(rt.alloc());
    for entry in fs::read_dir(rt, folder)? {
        let entry = entry?;
        if entry.file_type()?.is_dir() {
            let name = entry.file_name();
            paths.push(format!(in rt.alloc(); "{folder}/{name}")?)?;
        }
    }
    paths.sort()?;
    Ok(paths)
}

/// What a file of a folder has.
fn bytes_in<H: Host>(rt: &H, folder: &str, file: &str) -> io::Result<Vec<u8>> {
    fs::read(rt, format!(in rt.alloc(); "{folder}/{file}")?)
}

/// The text that a file of a folder has.
fn text_in<H: Host>(rt: &H, folder: &str, file: &str) -> io::Result<String> {
    fs::read_to_string(rt, format!(in rt.alloc(); "{folder}/{file}")?)
}

/// Whether the program, on the words and the input of a folder, ends well with the output that is
/// stored there, and says nothing else but where the first line at fault is, by each of these settings.
fn is_answered_as_stored<H: Host>(rt: &H, name: &str, settings: &[Setting]) -> io::Result<bool> {
    let args = text_in(rt, name, "args")?;
    let input = bytes_in(rt, name, "stdin")?;
    let output = text_in(rt, name, "stdout")?;
    let wanted = Wanted {
        status: 0,
        errors: hint_by(rt.alloc(), output.as_str())?,
        output: output.into_bytes(),
    };
    is_answered_on_each(rt, args.as_str(), settings, input.as_slice(), &wanted)
}

/// How the hint to the first line at fault begins, by the first answer that tells of a fault; nothing where none does.
fn hint_by(alloc: Global, answers: &str) -> io::Result<Vec<u8>> {
    for answer in answers.lines() {
        if let (Some("error"), Some(number)) = (
            answer.split(' ').next(),
            answer.split(' ').last(),
        ) {
            return Ok(format!(in alloc; "pregeld: line {number}: ")?.into_bytes());
        }
    }
    Ok(Vec::new(alloc))
}

/// Whether the program, started with these words by each of these settings, ends as is wanted.
fn is_answered_on_each<H: Host>(
    rt: &H,
    args: &str,
    settings: &[Setting],
    input: &[u8],
    wanted: &Wanted,
) -> io::Result<bool> {
    for setting in settings {
        let words = words_of(rt.alloc(), args, *setting)?;
        if !is_answered(rt, words.as_slice(), input, wanted) {
            return Ok(false);
        }
    }
    Ok(true)
}

/// Whether the program, on each command line of a folder and on its input, ends as is stored there.
fn are_answered_as_stored<H: Host>(rt: &H, name: &str) -> io::Result<bool> {
    let lines = text_in(rt, name, "words")?;
    let input = bytes_in(rt, name, "stdin")?;
    let wanted = wanted_in(rt, name)?;
    are_lines_answered(rt, lines.as_str(), input.as_slice(), &wanted)
}

/// Whether the program, started with each of these command lines, ends as is wanted.
fn are_lines_answered<H: Host>(
    rt: &H,
    lines: &str,
    input: &[u8],
    wanted: &Wanted,
) -> io::Result<bool> {
    for line in lines.lines() {
        let words = words_in(rt.alloc(), line)?;
        if !is_answered(rt, words.as_slice(), input, wanted) {
            return Ok(false);
        }
    }
    Ok(true)
}

/// What is stored in a folder of command lines.
fn wanted_in<H: Host>(rt: &H, name: &str) -> io::Result<Wanted> {
    let status = status_in(rt, name)?;
    let output = bytes_in(rt, name, "stdout")?;
    let errors = bytes_in(rt, name, "stderr")?;
    Ok(Wanted {
        status,
        output,
        errors,
    })
}

/// The exit status that is stored there.
fn status_in<H: Host>(rt: &H, name: &str) -> io::Result<u8> {
    let status = text_in(rt, name, "status")?;
    match status.as_str().trim_end().parse() {
        Ok(status) => Ok(status),
        Err(_) => Err(io::Error::from(io::ErrorKind::InvalidData)),
    }
}

/// The words of a command line, with a space between two of them.
fn words_in<'a>(alloc: Global, line: &'a str) -> io::Result<Vec<&'a str>> {
    let mut words = Vec::new(alloc);
    for word in line.split(' ') {
        words.push(word)?;
    }
    Ok(words)
}

/// The words that the program is started with: its name, one for each line, and those of a setting.
fn words_of<'a>(alloc: Global, args: &'a str, setting: Setting) -> io::Result<Vec<&'a str>> {
    let mut words = Vec::new(alloc);
    words.push("pregeld")?;
    for word in args.lines() {
        words.push(word)?;
    }
    let (partitions, workers, every) = setting;
    for (option, number) in [
        ("--partitions", partitions),
        ("--workers", workers),
        ("--every", every),
    ] {
        words.push(option)?;
        words.push(number)?;
    }
    Ok(words)
}

/// Whether the program, started with these words, ends as is wanted. Of what it says is stored how it begins, if it
/// says anything.
fn is_answered<H: Host>(rt: &H, words: &[&str], input: &[u8], wanted: &Wanted) -> bool {
    let mut reader = input;
    let alloc = rt.alloc();
    let (mut writer, mut errors) = (Vec::new(alloc), Vec::new(alloc));
    let status = start(rt, alloc, words, &mut reader, &mut writer, &mut errors);
    status == wanted.status
        && writer.as_slice() == wanted.output.as_slice()
        && errors.as_slice().starts_with(wanted.errors.as_slice())
        && errors.is_empty() == wanted.errors.is_empty()
}
