//! Aggregators: how contributions are made into one value.
ghost use Rattle.std.specs.Prelude.{◌≡◌, ◌++◌, ℤ, List, FitsSigned, IsPermutation};
ghost use Rattle.std.specs.Int.{w64};
ghost use Rattle.std.specs.List.{fold};
ghost use Rattle.pg_model.specs.Folds.{IsCommutativeMonoid};

/// How contributions are made into one value (Pregel, section 3.3). The operation is associative and
/// commutative, and the initial value is neutral, on the numbers of 64 bits.
pub trait Aggregator {
    /// The operation.
    ghost operation: { Self → ℤ → ℤ → ℤ };

    /// The initial value.
    ghost initial: { Self → ℤ };

    /// What two values come to.
    fn aggregate(&self, a: i64, b: i64) -> i64
        ensures { result ≡ operation self.now a b };

    /// What no value comes to.
    fn initial_value(&self) -> i64
        ensures { result ≡ initial self.now };

    ghost lawful: { (a : Self) → IsCommutativeMonoid (FitsSigned w64) (operation a) (initial a) };
}

/// The aggregators over whole numbers of 64 bits.
#[derive(Clone, Copy, Debug, PartialEq, Eq)]
pub enum AnyAggregator {
    /// The sum in two's complement, from 0.
    LongSum,
    /// The least, from the greatest number.
    LongMin,
    /// The greatest, from the least number.
    LongMax,
    /// The bits that all have, from -1.
    BitAnd,
    /// The bits that any has, from 0.
    BitOr,
}

impl Aggregator for AnyAggregator {
    ghost use Rattle.pg_global.specs.AnyAggregator.{operation_of, initial_of};
    ghost use Rattle.pg_global.specs.Monoids.{operation_of-lawful};

    ghost operation = { operation_of };

    ghost initial = { initial_of };

    ghost lawful = { operation_of-lawful };

    fn aggregate(&self, a: i64, b: i64) -> i64 {
        match self {
            AnyAggregator::LongSum => a.wrapping_add(b),
            AnyAggregator::LongMin => a.min(b),
            AnyAggregator::LongMax => a.max(b),
            AnyAggregator::BitAnd => a & b,
            AnyAggregator::BitOr => a | b,
        }
    }

    fn initial_value(&self) -> i64 {
        match self {
            AnyAggregator::LongSum => 0,
            AnyAggregator::LongMin => i64::MAX,
            AnyAggregator::LongMax => i64::MIN,
            AnyAggregator::BitAnd => -1,
            AnyAggregator::BitOr => 0,
        }
    }
}

/// What contributions come to, one after another, from a value on. Neither their order nor where they are
/// cut matters.
pub fn gather<A: Aggregator>(aggregator: &A, from: i64, contributions: &[i64]) -> i64
    ensures value { result ≡ fold (A.operation aggregator.now) from contributions.now }
    ensures order { (others : List ℤ) → IsPermutation contributions.now others
        → result ≡ fold (A.operation aggregator.now) from others }
    ensures cut { (first rest : List ℤ) → contributions.now ≡ first ++ rest
        → result ≡ fold (A.operation aggregator.now) (fold (A.operation aggregator.now) from first) rest }
{
    let mut gathered = from;
    for &contribution in contributions {
        gathered = aggregator.aggregate(gathered, contribution);
    }
    gathered
}
