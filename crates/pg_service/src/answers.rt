//! What a check finds of what was published.
ghost use Rattle.std.specs.Prelude.{◌≡◌};
ghost use Rattle.std.specs.Bool.{Decides};

use pg_graph::VertexId;
use pg_model::Run;
use pg_program::Plain;
use pg_publish::Answers;

/// Whether these are the answers of a run: its values, aggregates, ending and counts. The edition
/// isn't looked at. Costs one walk over the values.
pub fn same<V: Plain>(answers: &Answers<V>, run: &Run<V>) -> bool
    ensures { Decides result (answers.now.publication.answer ≡ run.now) }
{
    let own = answers.run();
    if !are_same_values(own.values.as_slice(), run.values.as_slice()) {
        return false;
    }
    if !are_same_aggregates(own.aggregates.as_slice(), run.aggregates.as_slice()) {
        return false;
    }
    if own.ending != run.ending || own.supersteps != run.supersteps {
        return false;
    }
    own.sent == run.sent && own.dropped == run.dropped
}

/// Whether these are the same ids with the same values.
fn are_same_values<V: Plain>(own: &[(VertexId, V)], others: &[(VertexId, V)]) -> bool
    ensures { Decides result (own.now ≡ others.now) }
{
    if own.len() != others.len() {
        return false;
    }
    for place in 0..own.len() {
        if !is_same_entry(&own[place], &others[place]) {
            return false;
        }
    }
    true
}

/// Whether this is the same id with the same value.
fn is_same_entry<V: Plain>(own: &(VertexId, V), other: &(VertexId, V)) -> bool
    ensures { Decides result (own.now ≡ other.now) }
{
    own.0 == other.0 && is_same_value(&own.1, &other.1)
}

/// Whether this is the same value.
fn is_same_value<V: Plain>(own: &V, other: &V) -> bool
    ensures { Decides result (own.now ≡ other.now) }
{
    own.fits();
    other.fits();
    own == other
}

/// Whether these are the same aggregates.
fn are_same_aggregates(own: &[i64], others: &[i64]) -> bool
    ensures { Decides result (own.now ≡ others.now) }
{
    own == others
}

/// What a check has found.
#[derive(Clone, Copy, Debug, PartialEq, Eq)]
pub enum Check {
    /// What was published is of another edition, or nothing was published.
    Stale,
    /// It is the answer of the run from scratch, which calls compute so many times.
    Same(u64),
    /// It is another answer than that of the run from scratch, which calls compute so many times.
    Different(u64),
}
