//! What a command is answered with.
ghost use Rattle.std.specs.Prelude.{◌≡◌};
ghost use Rattle.pregeld.specs.Reply.{summary_of};

use crate::{Check, Report};
use pg_graph::{EditFault, Edition, VertexId};
use pg_import::ImportFault;
use pg_model::Ending;
use pg_service::ending_word;
use pregeld_commands::LineFault;
use std::fmt;

/// The line that answers a command.
#[derive(Clone, Copy, Debug, PartialEq, Eq)]
pub(crate) enum Reply {
    /// A batch was applied.
    Edition(Edition),
    /// An edge list has a fault.
    ImportRefused(ImportFault),
    /// A batch was refused.
    BatchRefused(EditFault),
    /// The answers of a run were published.
    Refreshed(RefreshSummary),
    /// A refresh or a check was refused, with this number.
    RunRefused(u8),
    /// What was published was compared with a run from scratch.
    Checked(Check),
    /// Nothing was published.
    Unpublished,
    /// The value of a vertex.
    Value(VertexId, i64),
    /// A vertex has no value.
    NoValue(VertexId),
    /// All values were printed, so many.
    End(usize),
    /// This line has a fault.
    Fault(LineFault, u64),
}

impl fmt::Display for Reply {
    ghost use Rattle.std.specs.Prelude.{Some};
    ghost use Rattle.pregeld.specs.Reply.{text_of};

    ghost output = { λ reply. Some (text_of reply) };

    #[tactic(auto, unfolding(crate::specs::Reply::text_of))]
    fn fmt<W: fmt::Write>(&self, f: &mut fmt::Formatter<W>) -> fmt::Result {
        match *self {
            Reply::Edition(edition) => write!(f, "edition {}", edition.number()),
            Reply::ImportRefused(fault) => {
                let (number, line) = (fault.kind.number(), fault.line);
                write!(f, "import refused {number} line {line}")
            }
            Reply::BatchRefused(fault) => {
                let (number, position) = (fault.kind.number(), fault.position);
                write!(f, "refused {number} position {position}")
            }
            Reply::Refreshed(summary) => write!(f, "{summary}"),
            Reply::RunRefused(number) => write!(f, "refused {number}"),
            Reply::Checked(check) => write!(f, "{check}"),
            Reply::Unpublished => write!(f, "unpublished"),
            Reply::Value(id, value) => write!(f, "value {id} {value}"),
            Reply::NoValue(id) => write!(f, "none {id}"),
            Reply::End(count) => write!(f, "end {count}"),
            Reply::Fault(fault, line) => write!(f, "error {} line {line}", fault.number()),
        }
    }
}

/// What the answer to a refresh tells of its report.
#[derive(Clone, Copy, Debug, PartialEq, Eq)]
pub(crate) struct RefreshSummary {
    edition: Edition,
    supersteps: u32,
    ending: Ending,
    calls: u64,
    losses: usize,
}

impl RefreshSummary {
    /// The summary of a report.
    pub(crate) fn of(report: &Report) -> RefreshSummary
        ensures { result ≡ summary_of report.now }
    {
        RefreshSummary {
            edition: report.edition,
            supersteps: report.supersteps,
            ending: report.ending,
            calls: report.calls,
            losses: report.losses.as_slice().len(),
        }
    }
}

impl fmt::Display for RefreshSummary {
    ghost use Rattle.std.specs.Prelude.{Some};
    ghost use Rattle.pregeld.specs.Reply.{summary_text};

    ghost output = { λ summary. Some (summary_text summary) };

    #[tactic(auto, unfolding(crate::specs::Reply::summary_text))]
    fn fmt<W: fmt::Write>(&self, f: &mut fmt::Formatter<W>) -> fmt::Result {
        let (edition, calls, losses) = (self.edition.number(), self.calls, self.losses);
        let (steps, ending) = (self.supersteps, ending_word(self.ending));
        write!(
            f,
            "refreshed edition {edition} supersteps {steps} ending {ending} calls {calls} losses {losses}"
        )
    }
}
