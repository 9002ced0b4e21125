use pg_graph::{Memory, VertexId};
use pg_sort::{reordered_by_id, sorted_by_id};
use std::alloc::{AllocError, Global};

// Ids from one on, which jump among the next ones.
#[derive(Clone, Copy)]
struct Jumping {
    least: u64,
    // How far they go at most: one less than a power of two.
    span: u64,
}

// Among the low ones and among high ones, always the same one, among all, and with 8 bits, with 14 and with 28.
const SPREADS: [Jumping; 7] = [
    Jumping {
        least: 0,
        span: (1 << 26) - 1,
    },
    Jumping {
        least: 1 << 62,
        span: (1 << 26) - 1,
    },
    Jumping { least: 7, span: 0 },
    Jumping {
        least: 0,
        span: (1 << 63) - 1,
    },
    Jumping {
        least: 7,
        span: (1 << 8) - 1,
    },
    Jumping {
        least: 7,
        span: (1 << 14) - 1,
    },
    Jumping {
        least: 7,
        span: (1 << 28) - 1,
    },
];

// So many ids. A quarter of them stand twice, and more often where the span has fewer.
fn jumping_ids(alloc: Global, count: u32, spread: Jumping) -> Result<Vec<VertexId>, Memory> {
    let different = count / 4 * 3 + 1;
    let mut ids = Vec::with_capacity(alloc, count as usize)?;
    for place in 0..count {
        let number = u64::from(place % different).wrapping_mul(0x9e37_79b9_7f4a_7c15);
        let id = spread.least.wrapping_add(number & spread.span);
        ids.push(VertexId::new(id).ok_or(AllocError)?)?;
    }
    Ok(ids)
}

// These are all ids, each with its place, by rising id; those of one id stand by rising place, or by falling place.
fn rise(ids: &[VertexId], entries: &[(usize, VertexId)], falling: bool) -> bool {
    let mut last = None;
    for (place, id) in entries {
        let order = if falling { usize::MAX - *place } else { *place };
        let here = Some((id.number(), order));
        if ids.get(*place) != Some(id) || here <= last {
            return false;
        }
        last = here;
    }
    entries.len() == ids.len()
}

// Ids with their places, in their order, or the last one first.
fn numbered(
    alloc: Global,
    ids: &[VertexId],
    falling: bool,
) -> Result<Vec<(usize, VertexId)>, Memory> {
    let mut entries = Vec::with_capacity(alloc, ids.len())?;
    for (place, id) in ids.iter().enumerate() {
        entries.push((place, *id))?;
    }
    if falling {
        entries.reverse();
    }
    Ok(entries)
}

// So many ids are put in order, from two orders, and where they are only to be sorted.
fn are_put_in_order(alloc: Global, count: u32, spread: Jumping) -> Result<bool, Memory> {
    let ids = jumping_ids(alloc, count, spread)?;
    let ids = ids.as_slice();
    let sorted = sorted_by_id(alloc, ids)?;
    let from_rising = reordered_by_id(alloc, numbered(alloc, ids, false)?)?;
    let from_falling = reordered_by_id(alloc, numbered(alloc, ids, true)?)?;
    Ok(
        rise(ids, sorted.as_slice(), false)
            && rise(ids, from_rising.as_slice(), false)
            && rise(ids, from_falling.as_slice(), true),
    )
}

// Few ids are compared, and more are sorted by some bits at a time: at most 11 where there are 300, 15 with 5,000,
// and 18 with 40,000.
#[test]
fn ids_are_put_in_order(rt: HostRuntime) -> Result<(), Memory> {
    let alloc = rt.alloc();
    for spread in SPREADS {
        for count in [0, 1, 200, 300, 5_000, 40_000] {
            assert!(rt; are_put_in_order(alloc, count, spread)?);
        }
    }
    Ok(())
}
