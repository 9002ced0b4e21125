//! Lists cut in two.
ghost use Rattle.std.specs.Prelude.{◌≡◌, ◌≤◌, length, take, drop, IfOk};

use crate::Memory;
use std::alloc::Global;

/// The first so many of a list, in memory of just their size, and the others, in the list's own.
pub(crate) fn parted<T: Drop>(
    alloc: Global,
    mut list: Vec<T>,
    count: usize,
) -> Result<(Vec<T>, Vec<T>), Memory>
    requires { count ≤ length list.items }
    ensures front { IfOk result (λ parts. parts.0.items ≡ take count list.items) }
    ensures others { IfOk result (λ parts. parts.1.items ≡ drop count list.items) }
{
    let mut others = list.split_off(count)?;
    let mut front = Vec::with_capacity(alloc, count)?;
    front.append(&mut list)?;
    list.append(&mut others)?;
    Ok((front, list))
}
