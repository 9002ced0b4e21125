//! Answers, written.
ghost use Rattle.std.specs.Prelude.{◌≡◌, flat_map, IfErr, OnOk};
ghost use Rattle.std.specs.Io.KnownBytes.{Appends, Keeps};
ghost use Rattle.pg_service.specs.Service.{last_published};
ghost use Rattle.pregeld.specs.Reply.{line_of_reply, line_of_value};
ghost use Rattle.pregeld.specs.Keeping.{FailsToTell};
ghost use Rattle.pregeld.specs.Job.{ready_names};
ghost use Rattle.pregeld.specs.Session.{aggregate_text, dump_text, get_reply, query_text};
ghost use Rattle.pregeld.specs.Session.{report_line};

use crate::reply::Reply;
use crate::session_state::SessionState;
use crate::{ReadyService, ServeFault};
use pg_graph::VertexId;
use pregeld_commands::Query;
use std::alloc::Global;
use std::io::Write;

/// Writes an answer, and hands it on.
pub(crate) fn write_reply<W: Write>(writer: &mut W, reply: Reply) -> Result<(), ServeFault>
    ensures ok { OnOk result
        (Appends (W.contents writer.old) (W.contents writer.new) (line_of_reply reply)) }
    ensures err { IfErr result (λ fault. fault ≡ ServeFault.Write) }
{
    let Ok(()) = writeln!(writer, "{reply}") else {
        return Err(ServeFault::Write);
    };
    flush_output(writer)
}

/// Hands on what was written.
fn flush_output<W: Write>(writer: &mut W) -> Result<(), ServeFault>
    ensures ok { OnOk result (Keeps (W.contents writer.old) (W.contents writer.new)) }
    ensures err { IfErr result (λ fault. fault ≡ ServeFault.Write) }
{
    match writer.flush() {
        Ok(()) => Ok(()),
        Err(_) => Err(ServeFault::Write),
    }
}

/// Tells what is asked for.
///
/// # Errors
///
/// A writer that fails, or want of memory for a report, and then nothing was written.
pub(crate) fn answer_query<W: Write>(
    alloc: Global,
    writer: &mut W,
    query: Query<'_>,
    service: &ReadyService,
    session_state: &SessionState,
) -> Result<(), ServeFault>
    ensures ok { OnOk result (Appends (W.contents writer.old) (W.contents writer.new)
        (query_text service.now.job query.entry (last_published service.now.told.list) session_state.now.report)) }
    ensures err { IfErr result (λ fault.
        FailsToTell fault (W.contents writer.old) (W.contents writer.new)) }
{
    match query {
        Query::Dump => match dump(writer, service) {
            Ok(()) => Ok(()),
            Err(fault) => Err(fault),
        },
        Query::Get(id) => match write_reply(writer, get(id, service)) {
            Ok(()) => Ok(()),
            Err(fault) => Err(fault),
        },
        Query::Aggregate(name) => match aggregate(writer, name.text(), service) {
            Ok(()) => Ok(()),
            Err(fault) => Err(fault),
        },
        Query::Reported => report(alloc, writer, service, session_state),
    }
}

/// The published value of a vertex.
fn get(id: VertexId, service: &ReadyService) -> Reply
    ensures { result ≡ get_reply id (last_published service.now.told.list) }
{
    let Some(answers) = service.answers() else {
        return Reply::Unpublished;
    };
    match answers.value(id) {
        Some(value) => Reply::Value(id, *value),
        None => Reply::NoValue(id),
    }
}

/// Prints the published aggregate of this name.
fn aggregate<W: Write>(writer: &mut W, name: &str, service: &ReadyService) -> Result<(), ServeFault>
    ensures ok { OnOk result (Appends (W.contents writer.old) (W.contents writer.new)
        (aggregate_text name.now (ready_names service.now.job) (last_published service.now.told.list))) }
    ensures err { IfErr result (λ fault. fault ≡ ServeFault.Write) }
{
    let Some(answers) = service.answers() else {
        return write_reply(writer, Reply::Unpublished);
    };
    let written = match answers.aggregate(name) {
        Some(value) => writeln!(writer, "aggregate {name} {value}"),
        None => writeln!(writer, "none {name}"),
    };
    match written {
        Ok(()) => flush_output(writer),
        Err(_) => Err(ServeFault::Write),
    }
}

/// Prints the last report.
fn report<W: Write>(
    alloc: Global,
    writer: &mut W,
    service: &ReadyService,
    session_state: &SessionState,
) -> Result<(), ServeFault>
    ensures ok { OnOk result
        (Appends (W.contents writer.old) (W.contents writer.new) (report_line session_state.now.report)) }
    ensures err { IfErr result (λ fault.
        FailsToTell fault (W.contents writer.old) (W.contents writer.new)) }
{
    let Some(report) = session_state.report() else {
        return match write_reply(writer, Reply::Unpublished) {
            Ok(()) => Ok(()),
            Err(fault) => Err(fault),
        };
    };
    let Ok(text) = service.report_json(alloc, report) else {
        return Err(ServeFault::Memory);
    };
    let Ok(()) = writeln!(writer, "{text}") else {
        return Err(ServeFault::Write);
    };
    match flush_output(writer) {
        Ok(()) => Ok(()),
        Err(fault) => Err(fault),
    }
}

/// Prints the published values by rising id, and their number.
fn dump<W: Write>(writer: &mut W, service: &ReadyService) -> Result<(), ServeFault>
    ensures ok { OnOk result (Appends (W.contents writer.old) (W.contents writer.new)
        (dump_text (last_published service.now.told.list))) }
    ensures err { IfErr result (λ fault. fault ≡ ServeFault.Write) }
{
    let Some(answers) = service.answers() else {
        return write_reply(writer, Reply::Unpublished);
    };
    let values = answers.values();
    say_values(writer, values)?;
    write_reply(writer, Reply::End(values.len()))
}

/// Writes a line for each vertex and its value.
fn say_values<W: Write>(writer: &mut W, values: &[(VertexId, i64)]) -> Result<(), ServeFault>
    ensures ok { OnOk result (Appends (W.contents writer.old) (W.contents writer.new)
        (flat_map line_of_value values.now)) }
    ensures err { IfErr result (λ fault. fault ≡ ServeFault.Write) }
{
    for (id, value) in values {
        say_value(writer, id, value)?;
    }
    Ok(())
}

/// Writes the line of a vertex and its value.
fn say_value<W: Write>(writer: &mut W, id: &VertexId, value: &i64) -> Result<(), ServeFault>
    ensures ok { OnOk result (Appends (W.contents writer.old) (W.contents writer.new)
        (line_of_value (id.now, value.now))) }
    ensures err { IfErr result (λ fault. fault ≡ ServeFault.Write) }
{
    let Ok(()) = writeln!(writer, "value {id} {value}") else {
        return Err(ServeFault::Write);
    };
    Ok(())
}
