//! Publication of answers: the publisher, its readers, and what a look shows.
ghost use Rattle.std.specs.Prelude.{◌≡◌};
ghost use Rattle.std.specs.Option.{option_and_then, option_copied, option_map};
ghost use Rattle.pg_publish.specs.Answers.{aggregate_of, value_of};
ghost use Rattle.pg_publish.specs.History.{last_of};

use crate::answers::Answers;
use crate::history::HistoryPrefix;
use crate::receiver::{Receiver, ViewGuard};
use crate::sender::Sender;
use pg_global::Ending;
use pg_graph::{Edition, VertexId};

/// The publisher of answers.
pub type Publisher<V> = Sender<Answers<V>>;

/// A reader of answers, in any thread.
pub type AnswerReader<V> = Receiver<Answers<V>>;

/// What a reader looks at: one edition with its answer, or nothing.
pub type Look<V> = ViewGuard<Answers<V>>;

/// What was published, as the publisher told it.
pub type Told<V> = HistoryPrefix<Answers<V>>;

/// What the edition that is looked at is; none of a thing before the first publication.
impl<V: Drop> ViewGuard<Answers<V>> {
    /// The edition that is looked at.
    pub fn edition(&self) -> Option<Edition>
        ensures { result ≡ option_map (λ a. a.publication.edition) (last_of self.now.list) }
    {
        Some(self.last()?.edition())
    }

    /// The value of a vertex, found by halving.
    pub fn value(&self, id: VertexId) -> Option<&V>
        ensures { option_copied result
            ≡ option_and_then (λ a. value_of id a.publication.answer.values) (last_of self.now.list) }
    {
        self.last()?.value(id)
    }

    /// The aggregate with this name.
    pub fn aggregate(&self, name: &str) -> Option<i64>
        ensures { result ≡ option_and_then
            (λ a. aggregate_of name.now a.registered a.publication.answer.aggregates)
            (last_of self.now.list) }
    {
        self.last()?.aggregate(name)
    }

    /// How many supersteps were executed.
    pub fn supersteps(&self) -> Option<u32>
        ensures { result ≡ option_map (λ a. a.publication.answer.supersteps) (last_of self.now.list) }
    {
        Some(self.last()?.supersteps())
    }

    /// Why the run ended.
    pub fn ending(&self) -> Option<Ending>
        ensures { result ≡ option_map (λ a. a.publication.answer.ending) (last_of self.now.list) }
    {
        Some(self.last()?.ending())
    }
}
