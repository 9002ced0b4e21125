//! Combiners: how messages to one vertex are made into one.
ghost use Rattle.std.specs.Prelude.{◌≡◌, Option, IsSome, is_some, IfSome, IfOk, OnOk};
ghost use Rattle.pg_model.specs.Job.{Combining};
ghost use Rattle.pg_global.specs.Combiner.{IsLawful};

use pg_graph::Memory;
use pg_program::Plain;
use std::alloc::Global;

/// How messages to one vertex are made into one (Pregel, section 3.2), or that they aren't. The operation
/// is associative and commutative, and the initial message is neutral, on the values of the type.
pub trait MessageCombiner<M: Plain>: Sync {
    /// The operation and the initial message, where it combines.
    ghost combining: { Self → Option (Combining M) };

    /// Whether it combines.
    fn combines(&self) -> bool
        ensures { result ≡ is_some (combining self.now) };

    /// Combines a message into what the messages before it came to. Nothing is said of that message
    /// where it answers want of memory.
    fn combine(&self, alloc: Global, into: &mut M, other: &M) -> Result<(), Memory>
        requires { IsSome (combining self.now) }
        ensures { OnOk result
            (IfSome (combining self.now) (λ c. into.new ≡ c.combine into.old other.now)) };

    /// What no message comes to.
    fn initial_message(&self, alloc: Global) -> Result<M, Memory>
        requires { IsSome (combining self.now) }
        ensures { IfOk result (λ m. IfSome (combining self.now) (λ c. m ≡ c.initial)) };

    ghost lawful: { (c : Self) → IsLawful M.is_value (combining c) };
}

/// The combiners over whole numbers of 64 bits.
#[derive(Clone, Copy, Debug, PartialEq, Eq)]
pub enum AnyCombiner {
    /// Messages aren't combined.
    NoCombiner,
    /// The least message.
    Min,
    /// The greatest message.
    Max,
    /// The sum of the messages in two's complement.
    Sum,
}

impl MessageCombiner<i64> for AnyCombiner {
    ghost use Rattle.pg_global.specs.Combiner.{combining_of};
    ghost use Rattle.pg_global.specs.Monoids.{combining_of-lawful};

    ghost combining = { combining_of };

    ghost lawful = { combining_of-lawful };

    fn combines(&self) -> bool {
        match self {
            AnyCombiner::NoCombiner => false,
            AnyCombiner::Min | AnyCombiner::Max | AnyCombiner::Sum => true,
        }
    }

    fn combine(&self, _alloc: Global, into: &mut i64, other: &i64) -> Result<(), Memory> {
        let (before, message) = (*into, *other);
        *into = match self {
            AnyCombiner::NoCombiner => unreachable!(),
            AnyCombiner::Min => before.min(message),
            AnyCombiner::Max => before.max(message),
            AnyCombiner::Sum => before.wrapping_add(message),
        };
        Ok(())
    }

    fn initial_message(&self, _alloc: Global) -> Result<i64, Memory> {
        match self {
            AnyCombiner::NoCombiner => unreachable!(),
            AnyCombiner::Min => Ok(i64::MAX),
            AnyCombiner::Max => Ok(i64::MIN),
            AnyCombiner::Sum => Ok(0),
        }
    }
}
