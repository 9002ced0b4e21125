//! Ids and weights, read from words.
ghost use Rattle.std.specs.Prelude.{◌≡◌, None, Some, nat_lt, if◌then◌else◌, IfSome, IsTrue};
ghost use Rattle.std.specs.List.{list_all};
ghost use Rattle.std.specs.Char.{is_ascii_digit};
ghost use Rattle.pg_import.specs.Number.{id_of, is_numeral, number_up_to, read_on, weight_of};
ghost use Rattle.pg_import.specs.Leading.{BeginsWithDigit, BeginsWithNumber};

use crate::ImportKind;
use pg_graph::VertexId;

const GREATEST_ID: u64 = (1 << 63) - 1;

const GREATEST_WEIGHT: u64 = (1 << 63) - 1;

// One more digit to a number below this makes none above 10^18.
const SMALL: u64 = 100_000_000_000_000_000;

// The least weight is this below zero.
const LEAST_WEIGHT: u64 = 1 << 63;

/// The id that a word writes: ASCII digits, leading zeros allowed.
///
/// Linear in the word. Digits are read only once all bytes were tested, and only until the number is
/// out of range.
#[tactic(auto, unfolding(crate::specs::Number::id_of, crate::specs::Number::number_up_to))]
pub fn read_id(word: &[u8]) -> Result<VertexId, ImportKind>
    ensures { result ≡ id_of word.now }
{
    let number = read_number(word, GREATEST_ID)?;
    VertexId::new(number).ok_or(ImportKind::OutOfRange)
}

/// The weight that a word writes: ASCII digits, leading zeros allowed, after a minus or after none.
///
/// Linear in the word, as `read_id` is.
#[tactic(auto, unfolding(crate::specs::Number::weight_of, crate::specs::Number::number_up_to))]
pub fn read_weight(word: &[u8]) -> Result<i64, ImportKind>
    ensures { result ≡ weight_of word.now }
{
    if let [b'-', digits @ ..] = word {
        let number = read_number(digits, LEAST_WEIGHT)?;
        return 0i64
            .checked_sub_unsigned(number)
            .ok_or(ImportKind::OutOfRange);
    }
    let number = read_number(word, GREATEST_WEIGHT)?;
    0i64.checked_add_unsigned(number)
        .ok_or(ImportKind::OutOfRange)
}

#[tactic(auto, unfolding(crate::specs::Number::number_up_to))]
fn read_number(word: &[u8], limit: u64) -> Result<u64, ImportKind>
    ensures { result ≡ number_up_to limit word.now }
{
    if !is_numeral(word) {
        return Err(ImportKind::NotNumber);
    }
    read_digits(word, limit).ok_or(ImportKind::OutOfRange)
}

fn is_numeral(word: &[u8]) -> bool
    ensures { result ≡ is_numeral word.now }
{
    !word.is_empty() && word.iter().all(|byte| byte.is_ascii_digit())
}

// The number of the digits, unless it is above the limit.
fn read_digits(digits: &[u8], limit: u64) -> Option<u64>
    requires { IsTrue (list_all is_ascii_digit digits.now) }
    ensures { result ≡ (if nat_lt limit (read_on 0 digits.now) then None else Some (read_on 0 digits.now)) }
{
    let mut number: u64 = 0;
    for byte in digits {
        let digit = u64::from(*byte - b'0');
        number = number.checked_mul(10)?.checked_add(digit)?;
        if number > limit {
            return None;
        }
    }
    Some(number)
}

/// The number that a text begins with, and what comes after it. None where it begins with no digit, or
/// where the digits may write 10^18 or more.
pub(crate) fn leading_number(text: &[u8]) -> Option<(u64, &[u8])>
    ensures { IfSome result (λ found. BeginsWithNumber text.now found.0 found.1.now) }
{
    let mut number: u64 = 0;
    let mut rest = text;
    while let Some((digit, after)) = leading_digit(rest) {
        if number >= SMALL {
            return None;
        }
        number = number * 10 + digit;
        rest = after;
    }
    if rest.len() == text.len() {
        return None;
    }
    Some((number, rest))
}

// What the digit writes that a text begins with, and what comes after it.
fn leading_digit(text: &[u8]) -> Option<(u64, &[u8])>
    ensures { IfSome result (λ found. BeginsWithDigit text.now found.0 found.1.now) }
{
    let (byte, rest) = text.split_first()?;
    if !byte.is_ascii_digit() {
        return None;
    }
    Some((u64::from(*byte - b'0'), rest))
}
