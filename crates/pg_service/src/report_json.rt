//! Reports as JSON.
ghost use Rattle.std.specs.Prelude.{◌≡◌, IfOk};
ghost use Rattle.serde_json.specs.View.{view};
ghost use Rattle.pg_service.specs.Printed.{ending_name};
ghost use Rattle.pg_service.specs.ReportJson.{object_of};

use crate::Report;
use pg_graph::Memory;
use pg_model::Ending;
use serde_json::{Value, json};
use std::alloc::Global;

/// A report as an object.
pub(crate) fn value_of_report(alloc: Global, report: &Report) -> Result<Value, Memory>
    ensures { IfOk result (λ value. view value ≡ object_of report.now) }
{
    let ending = ending_word(report.ending);
    let (calls, dropped, sent) = (report.calls, report.dropped, report.sent);
    let (edition, supersteps) = (report.edition.number(), report.supersteps);
    let losses = report.losses.as_slice().len() as u64;
    json!(in alloc; {
        "calls": calls, "dropped": dropped, "edition": edition, "ending": ending,
        "losses": losses, "sent": sent, "supersteps": supersteps
    })
}

/// The word for an ending.
pub fn ending_word(ending: Ending) -> &'static str
    ensures { result.now ≡ ending_name ending }
{
    match ending {
        Ending::MasterHalted => "halted",
        Ending::Finished => "finished",
        Ending::LimitReached => "limit",
    }
}
