//! What the messages of an execution come to.
ghost use Rattle.std.specs.Prelude.{◌≡◌, pos};
ghost use Rattle.std.specs.Int.{w64, int_wrapping_add};
ghost use Rattle.std.specs.List.{fold};
ghost use Rattle.pg_model.specs.Programs.{greatest_of, least_of};

/// The least of a value and all messages.
pub(crate) fn least(own: i64, messages: &[i64]) -> i64
    ensures { result ≡ least_of own messages.now }
{
    let mut least = own;
    for message in messages {
        least = least.min(*message);
    }
    least
}

/// The greatest of a value and all messages.
pub(crate) fn greatest(own: i64, messages: &[i64]) -> i64
    ensures { result ≡ greatest_of own messages.now }
{
    let mut greatest = own;
    for message in messages {
        greatest = greatest.max(*message);
    }
    greatest
}

/// The sum of all messages in two's complement.
pub(crate) fn wrapping_sum(messages: &[i64]) -> i64
    ensures { result ≡ fold (int_wrapping_add w64) (pos 0) messages.now }
{
    let mut sum: i64 = 0;
    for message in messages {
        sum = sum.wrapping_add(*message);
    }
    sum
}
