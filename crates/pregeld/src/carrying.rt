//! Commands that are answered by one line, carried out.
ghost use Rattle.std.specs.Prelude.{◌≡◌, ◌≢◌, [], Ok, IfOk, IfErr};
ghost use Rattle.pg_import.specs.Import.{Gives};
ghost use Rattle.pregeld.specs.SessionState.{with_session_state};
ghost use Rattle.pregeld.specs.Reading.{IfLines};
ghost use Rattle.pregeld.specs.Keeping.{Checks, Edits, Imports, ImportsLines, Keeps};
ghost use Rattle.pregeld.specs.Reading.{lines_left};
ghost use Rattle.pregeld.specs.Keeping.{Refreshes, RepliesTo};
ghost use Rattle.pregeld.specs.Session.{State, edges_of, place_at};

use crate::block::{Block, skip_lines, take_block};
use crate::reply::{RefreshSummary, Reply};
use crate::session_state::SessionState;
use crate::{ReadyService, ServeFault};
use pg_graph::Batch;
use pg_import::{ImportFault, Line, into_batch, read_csv, read_list};
use pg_service::{MemShelf, NoFate, NoGate};
use pregeld_commands::{Action, Command, Form, LineFault};
use std::alloc::Global;
use std::io::BufRead;
use std::sync::Wait;
use std::thread::Threads;

/// The number of a check that is refused for want of memory.
const NO_MEMORY: u8 = 1;

/// Does what is asked for, and gives its answer and the number of the last line that it has taken.
///
/// # Errors
///
/// A reader that fails, or has 2^64 lines; then nothing was done.
pub(crate) fn run_action<H: Threads + Wait + Sync, R: BufRead>(
    rt: &H,
    alloc: Global,
    number: u64,
    action: Action,
    reader: &mut R,
    service: &mut ReadyService,
    session_state: &mut SessionState,
) -> Result<(Reply, u64), ServeFault>
    ensures ok { IfOk result (λ r. (state : State) → Keeps (with_session_state service.old session_state.old) state
        → IfLines (R.remaining reader.old) (λ lines.
        RepliesTo (Ok (Command.Act action)) (place_at number state lines) service.old r.0 r.1
        (with_session_state service.new session_state.new) (lines_left (R.remaining reader.new)))) }
    ensures err { IfErr result (λ fault. (fault ≢ ServeFault.Write) × (service.new ≡ service.old)) }
{
    match action {
        Action::Commit => Ok((commit(alloc, service, session_state), number)),
        Action::Refresh => Ok((refresh(rt, alloc, service, session_state), number)),
        Action::Recompute => Ok((check(alloc, service), number)),
        Action::Import(form, lines) => {
            import(alloc, number, form, lines, reader, service, session_state)
        }
    }
}

/// Applies the pending edits as one batch. None is pending afterwards.
fn commit(alloc: Global, service: &mut ReadyService, session_state: &mut SessionState) -> Reply
    ensures edits { Edits session_state.old.pending service.old result service.new }
    ensures emptied { session_state.new ≡ record session_state.old { pending = [] } }
{
    let reply = apply(alloc, session_state.pending(), service);
    session_state.empty(alloc);
    reply
}

/// Applies a batch.
fn apply(alloc: Global, batch: &Batch, service: &mut ReadyService) -> Reply
    ensures { Edits batch.now service.old result service.new }
{
    match service.edit(alloc, batch) {
        Ok(edition) => Reply::Edition(edition),
        Err(fault) => Reply::BatchRefused(fault),
    }
}

/// Runs the program, publishes the answer and keeps the report. No worker falls by a fate, and checkpoints are kept in
/// memory until the refresh is done.
fn refresh<H: Threads + Wait + Sync>(
    rt: &H,
    alloc: Global,
    service: &mut ReadyService,
    session_state: &mut SessionState,
) -> Reply
    ensures { Refreshes (with_session_state service.old session_state.old) result
        (with_session_state service.new session_state.new) }
{
    let mut shelf = MemShelf::new(alloc);
    let (fate, gate) = (NoFate, NoGate);
    match service.refresh(rt, alloc, &mut shelf, &fate, &gate) {
        Ok(report) => {
            let summary = RefreshSummary::of(&report);
            session_state.keep_report(report);
            Reply::Refreshed(summary)
        }
        Err(fault) => Reply::RunRefused(fault.number()),
    }
}

/// Compares what was published with a run from scratch.
fn check(alloc: Global, service: &ReadyService) -> Reply
    ensures { Checks service.now result }
{
    match service.check(alloc) {
        Ok(check) => Reply::Checked(check),
        Err(_) => Reply::RunRefused(NO_MEMORY),
    }
}

/// Reads the lines of an edge list and applies it as one batch, or sets them aside where edits are
/// pending. Gives the number of the last line too.
fn import<R: BufRead>(
    alloc: Global,
    number: u64,
    form: Form,
    lines: u32,
    reader: &mut R,
    service: &mut ReadyService,
    session_state: &SessionState,
) -> Result<(Reply, u64), ServeFault>
    ensures ok { IfOk result (λ r. (state : State) → Keeps (with_session_state service.old session_state.now) state
        → IfLines (R.remaining reader.old) (λ rest.
        RepliesTo (Ok (Command.Act (Action.Import form lines))) (place_at number state rest)
        service.old r.0 r.1
        (with_session_state service.new session_state.now) (lines_left (R.remaining reader.new)))) }
    ensures err { IfErr result (λ fault. (fault ≢ ServeFault.Write) × (service.new ≡ service.old)) }
{
    let Some(reached) = number.checked_add(u64::from(lines)) else {
        return Err(ServeFault::Read);
    };
    if session_state.has_pending() {
        let _aside = skip_lines(lines, reader)?;
        return Ok((Reply::Fault(LineFault::EditsPending, number), reached));
    }
    match import_lines(alloc, form, lines, reader, service)? {
        Some(reply) => Ok((reply, reached)),
        None => Ok((Reply::Fault(LineFault::CutShort, number), number)),
    }
}

/// Reads the lines of an edge list and applies it as one batch, or finds the input at its end
/// before.
fn import_lines<R: BufRead>(
    alloc: Global,
    form: Form,
    lines: u32,
    reader: &mut R,
    service: &mut ReadyService,
) -> Result<Option<Reply>, ServeFault>
    ensures ok { IfOk result (λ reply. IfLines (R.remaining reader.old) (λ rest.
        ImportsLines form lines rest service.old reply service.new
        (lines_left (R.remaining reader.new)))) }
    ensures err { IfErr result (λ fault. (fault ≢ ServeFault.Write) × (service.new ≡ service.old)) }
{
    let mut block = Vec::new(alloc);
    match take_block(lines, reader, &mut block)? {
        Block::CutShort => Ok(None),
        Block::NoMemory => Ok(Some(Reply::ImportRefused(ImportFault::NO_MEMORY))),
        Block::Whole => Ok(Some(import_block(alloc, form, block.as_slice(), service))),
    }
}

/// Applies the text of an edge list as one batch.
fn import_block(alloc: Global, form: Form, text: &[u8], service: &mut ReadyService) -> Reply
    ensures { Imports (edges_of form text.now) service.old result service.new }
{
    let edges = match read_block(alloc, form, text) {
        Ok(edges) => edges,
        Err(fault) => return Reply::ImportRefused(fault),
    };
    let Ok(batch) = into_batch(alloc, edges.as_slice(), service.graph()) else {
        return Reply::ImportRefused(ImportFault::NO_MEMORY);
    };
    apply(alloc, &batch, service)
}

/// The edges of a text.
fn read_block(alloc: Global, form: Form, text: &[u8]) -> Result<Vec<Line>, ImportFault>
    ensures { Gives (λ lines. lines.items) result (edges_of form text.now) }
{
    match form {
        Form::List => read_list(alloc, text),
        Form::Csv => read_csv(alloc, text),
    }
}
