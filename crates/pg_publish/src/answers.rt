//! The answer of a run, as it is published.
ghost use Rattle.std.specs.Prelude.{◌≡◌, IfOk};
ghost use Rattle.std.specs.Arc.{arc_value};
ghost use Rattle.std.specs.Option.{option_copied};
ghost use Rattle.pg_publish.specs.Answers.{HaveRisingIds, IsWhole, aggregate_of, value_of};

use pg_global::{Ending, Registry, Run};
use pg_graph::{Edition, Memory, VertexId};
use pg_model::Sequence;
use pg_program::Plain;
use std::alloc::Global;
use std::marker::Model;
use std::sync::Arc;

/// The answer of a run on an edition of a graph, with its aggregates by name.
pub struct Answers<V> {
    edition: Edition,
    run: Run<V>,
    registry: Arc<Registry>,
}

// By hand, so that it is let go by one call wherever that is, and not field by field.
impl<V: Drop> Drop for Answers<V> {
    fn drop(self) {
        let Answers {
            edition: _,
            run: _,
            registry: _,
        } = self;
    }
}

impl<V> Model for Answers<V> {
    ghost use Rattle.std.specs.Arc.{arc_value};
    ghost use Rattle.pg_publish.specs.Answers.{Answered, IsWhole};

    ghost Value = { Answered V };

    ghost view = { λ a. record {
      publication = record { edition = a.edition; answer = a.run };
      registered = arc_value a.registry;
    } };

    ghost invariant = { λ a. IsWhole a.run (arc_value a.registry) };
}

impl<V> Answers<V> {
    /// The answer of the run on this edition. The aggregates have the names of the registry, which
    /// is shared.
    ///
    /// # Errors
    ///
    /// Out of memory, where the registry has too many owners.
    pub fn new(
        edition: Edition,
        run: Run<V>,
        registry: &Arc<Registry>,
    ) -> Result<Answers<V>, Memory>
    where
        V: Drop,
        requires { IsWhole run (arc_value registry.now) }
        ensures { IfOk result
            (λ a. a ≡ record {
              publication = record { edition = edition; answer = run };
              registered = arc_value registry.now;
            }) }
    {
        let registry = Arc::try_clone(registry)?;
        Ok(Answers {
            edition,
            run,
            registry,
        })
    }

    /// A copy of the answer, with values of its own. Costs O(vertices).
    ///
    /// # Errors
    ///
    /// Want of memory.
    pub fn copy(&self, alloc: Global) -> Result<Answers<V>, Memory>
    where
        V: Plain,
        ensures { IfOk result (λ a. a ≡ self.now) }
    {
        let run = Run {
            values: copy_values(alloc, self.run.values.as_slice())?,
            aggregates: Sequence::from_vec(self.run.aggregates.as_slice().to_vec(alloc)?),
            ending: self.run.ending,
            supersteps: self.run.supersteps,
            sent: self.run.sent,
            dropped: self.run.dropped,
        };
        Answers::new(self.edition, run, &self.registry)
    }

    /// The edition of the graph that the run was made on.
    pub fn edition(&self) -> Edition
        ensures { result ≡ self.now.publication.edition }
    {
        self.edition
    }

    /// The answer of the run, with its aggregates by place.
    pub fn run(&self) -> &Run<V>
        ensures { result.now ≡ self.now.publication.answer }
    {
        &self.run
    }

    /// The value of a vertex, found by halving.
    pub fn value(&self, id: VertexId) -> Option<&V>
        ensures { option_copied result ≡ value_of id self.now.publication.answer.values }
    {
        let values = self.values();
        match values.binary_search_by_key(&id, |entry| entry.0) {
            Ok(place) => Some(&values[place].1),
            Err(_) => None,
        }
    }

    /// The aggregate with this name. Costs what reading the name costs.
    pub fn aggregate(&self, name: &str) -> Option<i64>
        ensures { result
            ≡ aggregate_of name.now self.now.registered self.now.publication.answer.aggregates }
    {
        let place = self.registry.place(name)?;
        let aggregates = self.run.aggregates.as_slice();
        aggregates.get(usize::from(place.number())).copied()
    }

    /// How many supersteps were executed.
    pub fn supersteps(&self) -> u32
        ensures { result ≡ self.now.publication.answer.supersteps }
    {
        self.run.supersteps
    }

    /// Why the run ended.
    pub fn ending(&self) -> Ending
        ensures { result ≡ self.now.publication.answer.ending }
    {
        self.run.ending
    }

    /// The value of each vertex, by rising id.
    pub fn values(&self) -> &[(VertexId, V)]
        ensures value { result.now ≡ self.now.publication.answer.values }
        ensures rising { HaveRisingIds result.now }
    {
        self.run.values.as_slice()
    }
}

/// A copy of the values, in memory of their own.
fn copy_values<V: Plain>(
    alloc: Global,
    values: &[(VertexId, V)],
) -> Result<Sequence<(VertexId, V)>, Memory>
    ensures { IfOk result (λ copied. copied ≡ values.now) }
{
    let mut copied = Vec::with_capacity(alloc, values.len())?;
    for entry in values {
        let value = entry.1.copy(alloc)?;
        copied.push((entry.0, value))?;
    }
    Ok(Sequence::from_vec(copied))
}
