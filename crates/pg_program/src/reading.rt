//! Reading values from the front of bytes.
ghost use Rattle.std.specs.Prelude.{◌≡◌, ◌≤◌, drop, length, IfOk};
ghost use Rattle.std.specs.Option.{option_map};
ghost use Rattle.pg_program.specs.Plain.{is_natural};
ghost use Rattle.pg_program.specs.Coding.{IsRead, natural_coding, truth_coding};

use crate::Coded;
use pg_graph::Memory;
use std::alloc::Global;

// The number in the first eight bytes, and the bytes behind them.
pub(crate) fn word_at(bytes: &[u8]) -> Option<(u64, &[u8])>
    ensures { IsRead is_natural natural_coding bytes.now (option_map (λ x. (x.0, x.1.now)) result) }
{
    if bytes.len() < 8 {
        return None;
    }
    let (front, rest) = bytes.split_at(8);
    let number = u64::from_le_bytes([
        front[0], front[1], front[2], front[3], front[4], front[5], front[6], front[7],
    ]);
    Some((number, rest))
}

// The truth value in the first byte, and the bytes behind it.
pub(crate) fn truth_at(bytes: &[u8]) -> Option<(bool, &[u8])>
    ensures { IsRead (λ _. Unit {0}) truth_coding bytes.now (option_map (λ x. (x.0, x.1.now)) result) }
{
    match bytes {
        [0, rest @ ..] => Some((false, rest)),
        [1, rest @ ..] => Some((true, rest)),
        _ => None,
    }
}

// The bytes behind the first `len`.
pub(crate) fn behind(bytes: &[u8], len: usize) -> &[u8]
    requires { len ≤ length bytes.now }
    ensures { result.now ≡ drop len bytes.now }
{
    &bytes[len..]
}

/// The value whose bytes stand at the front, and the bytes behind it; `None` where no value's do.
pub fn value_at<T: Coded>(alloc: Global, bytes: &[u8]) -> Result<Option<(T, &[u8])>, Memory>
    ensures { IfOk result (λ found.
        IsRead T.is_value T.coding bytes.now (option_map (λ x. (x.0, x.1.now)) found)) }
{
    match T::decode(alloc, bytes)? {
        Some((value, len)) => Ok(Some((value, behind(bytes, len)))),
        None => Ok(None),
    }
}
