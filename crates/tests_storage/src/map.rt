ghost use Rattle.std.specs.Prelude.{◌≡◌, ◌<◌, IfOk};
ghost use Rattle.pg_map.specs.Entries.{ChangesRise};

use pg_map::{CheapClone, Iter, Map, Memory, Pack, VertexId};
use std::alloc::Global;

fn id(number: u32) -> VertexId
    ensures { result ≡ number }
{
    VertexId::new(u64::from(number)).unwrap()
}

// A number whose entries are always laid anew.
#[derive(Clone, Copy)]
struct Number(i64);

impl CheapClone for Number {
    fn cheap_clone(&self, _alloc: Global) -> Result<Number, Memory> {
        Ok(*self)
    }
}

impl Pack for Number {
    fn packed(
        alloc: Global,
        entries: &[(VertexId, Number)],
    ) -> Result<Option<Vec<(VertexId, Number)>>, Memory> {
        Ok(Some(Vec::from_slice(alloc, entries)?))
    }
}

type Numbers = Map<Number>;

fn set(alloc: Global, map: &mut Numbers, number: u32, value: Option<Number>) -> Result<(), Memory> {
    map.change(alloc, &[(id(number), value)])
}

// Takes what is at the lower id away, and puts a number at the higher.
fn move_up(
    alloc: Global,
    map: &mut Numbers,
    low: VertexId,
    high: VertexId,
    value: Number,
) -> Result<(), Memory>
    requires { low < high }
{
    map.change(alloc, &[(low, None), (high, Some(value))])
}

fn two_entries(alloc: Global, low: VertexId, high: VertexId) -> Result<Numbers, Memory>
    requires { low < high }
{
    let entries = vec![in alloc; (low, Number(5)), (high, Number(-6))]?;
    Map::from_rising(alloc, entries)
}

// The number at an id, or 0 where there is none.
fn number_at(map: &Numbers, number: u32) -> i64 {
    match map.get(id(number)) {
        Some(value) => value.0,
        None => 0,
    }
}

fn is_empty(map: &Numbers) -> bool {
    map.len() == 0 && map.iter().next().is_none()
}

// Sets each third number below 3,000 to itself, in an order that jumps.
fn thousand(alloc: Global) -> Result<Numbers, Memory> {
    let mut map = Map::new();
    for number in 0..1000u32 {
        let mixed = number * 7919 % 1000 * 3;
        set(alloc, &mut map, mixed, Some(Number(i64::from(mixed))))?;
    }
    Ok(map)
}

// What was found at a number is right for the map of each third one.
fn is_third(number: u32, found: Option<&Number>) -> bool {
    match found {
        Some(value) => number % 3 == 0 && value.0 == i64::from(number),
        None => number % 3 != 0 || number >= 3000,
    }
}

// These are each third number from one up to 3,000.
fn are_thirds(entries: Iter<'_, Number>, first: u64) -> bool {
    let mut expected = first;
    for (key, value) in entries {
        if key.number() != expected || value.0.unsigned_abs() != expected {
            return false;
        }
        expected = expected.wrapping_add(3);
    }
    expected == 3000
}

fn lists_thirds(map: &Numbers) -> bool {
    let mut expected = 0u64;
    for key in map.ids() {
        if key.number() != expected {
            return false;
        }
        expected = expected.wrapping_add(3);
    }
    expected == 3000
}

fn finds_thirds(map: &Numbers) -> bool {
    for number in 0..3001u32 {
        if !is_third(number, map.get(id(number))) {
            return false;
        }
    }
    true
}

// The map has each third number below 3,000, and shows it in every way.
fn is_thousand(map: &Numbers) -> bool {
    map.len() == 1000 && are_thirds(map.iter(), 0) && lists_thirds(map) && finds_thirds(map)
}

#[test]
fn holds_entries(rt: HostRuntime) -> Result<(), Memory> {
    let map = thousand(rt.alloc())?;
    assert!(rt; is_thousand(&map));
    assert!(rt; is_empty(&Numbers::new()));
    Ok(())
}

// The map has 5 at 4, -6 at 9, and nothing else.
fn holds_two(map: &Numbers) -> bool {
    let ends = number_at(map, 4) == 5 && number_at(map, 9) == -6;
    ends && map.get(id(5)).is_none() && map.len() == 2
}

#[test]
fn holds_rising_entries(rt: HostRuntime) -> Result<(), Memory> {
    let map = two_entries(rt.alloc(), id(4), id(9))?;
    assert!(rt; holds_two(&map));
    Ok(())
}

#[test]
fn walks_from_an_id(rt: HostRuntime) -> Result<(), Memory> {
    let map = thousand(rt.alloc())?;
    for number in 0..3000u32 {
        let first = u64::from(number).next_multiple_of(3);
        assert!(rt; are_thirds(map.iter_from(id(number)), first));
    }
    Ok(())
}

// Takes all numbers below 3,000 away.
fn clear(alloc: Global, map: &mut Numbers) -> Result<(), Memory> {
    for number in 0..3000u32 {
        set(alloc, map, number, None)?;
    }
    Ok(())
}

#[test]
fn copies_stay(rt: HostRuntime) -> Result<(), Memory> {
    let mut map = thousand(rt.alloc())?;
    let copy = map.cheap_clone()?;
    clear(rt.alloc(), &mut map)?;
    assert!(rt; is_empty(&map));
    assert!(rt; is_thousand(&copy));
    Ok(())
}

fn six_hundred(alloc: Global) -> Result<Numbers, Memory> {
    let mut map = Map::new();
    for number in 0..600u32 {
        set(alloc, &mut map, number, Some(Number(1)))?;
    }
    Ok(map)
}

// The map has 600 numbers, with these at 3 and 700, or 0 for none.
fn has_ends(map: &Numbers, low: i64, high: i64) -> bool {
    map.len() == 600 && number_at(map, 3) == low && number_at(map, 700) == high
}

// Where an allocation is refused (bench/refuse.sh), the map is as it was, and the change can be made again.
#[test]
fn a_change_leaves_what_shares_the_map(rt: HostRuntime) -> Result<(), Memory> {
    let mut map = six_hundred(rt.alloc())?;
    let before = map.cheap_clone()?;
    if move_up(rt.alloc(), &mut map, id(3), id(700), Number(2)).is_err() {
        assert!(rt; has_ends(&map, 1, 0));
        move_up(rt.alloc(), &mut map, id(3), id(700), Number(2))?;
    }
    assert!(rt; has_ends(&map, 0, 2));
    assert!(rt; has_ends(&before, 1, 0));
    Ok(())
}

#[test]
fn packing_changes_nothing(rt: HostRuntime) -> Result<(), Memory> {
    let mut map = thousand(rt.alloc())?;
    let copy = map.cheap_clone()?;
    map.pack(rt.alloc());
    assert!(rt; is_thousand(&copy));
    drop(copy);
    map.pack(rt.alloc());
    assert!(rt; is_thousand(&map));
    Ok(())
}

#[test]
fn a_cursor_goes_both_ways(rt: HostRuntime) -> Result<(), Memory> {
    let map = thousand(rt.alloc())?;
    let mut cursor = map.cursor();
    for number in 0..3000u32 {
        assert!(rt; is_third(number, cursor.get(id(number))));
    }
    for number in 0..3000u32 {
        let far = number * 7919 % 3001;
        assert!(rt; is_third(far, cursor.get(id(far))));
    }
    Ok(())
}

// Puts the same number at both ids, in the map's own memory where nothing shares it.
fn put_both(
    alloc: Global,
    map: &mut Numbers,
    low: VertexId,
    high: VertexId,
    value: Number,
) -> Result<(), Memory>
    requires { low < high }
{
    map.change_own(
        alloc,
        vec![in alloc; (low, Some(value)), (high, Some(value))]?,
    )
}

fn has_both(map: &Numbers, low: u32, high: u32, value: i64) -> bool {
    number_at(map, low) == value && number_at(map, high) == value
}

// Where an allocation is refused (bench/refuse.sh), what can't be made in place is made anew.
#[test]
fn changes_its_own_memory(rt: HostRuntime) -> Result<(), Memory> {
    let mut map = six_hundred(rt.alloc())?;
    put_both(rt.alloc(), &mut map, id(3), id(500), Number(2))?;
    assert!(rt; has_both(&map, 3, 500, 2) && map.len() == 600);
    put_both(rt.alloc(), &mut map, id(4), id(700), Number(3))?;
    assert!(rt; has_both(&map, 4, 700, 3) && has_both(&map, 3, 500, 2) && map.len() == 601);
    Ok(())
}

// Where an allocation is refused (bench/refuse.sh), the map is as it was, and the change can be made again.
#[test]
fn a_change_of_its_own_leaves_copies(rt: HostRuntime) -> Result<(), Memory> {
    let mut map = thousand(rt.alloc())?;
    let copy = map.cheap_clone()?;
    if put_both(rt.alloc(), &mut map, id(3), id(2997), Number(-1)).is_err() {
        assert!(rt; is_thousand(&map));
        put_both(rt.alloc(), &mut map, id(3), id(2997), Number(-1))?;
    }
    put_both(rt.alloc(), &mut map, id(6), id(1500), Number(-2))?;
    assert!(rt; has_both(&map, 3, 2997, -1) && has_both(&map, 6, 1500, -2) && map.len() == 1000);
    assert!(rt; is_thousand(&copy));
    Ok(())
}

// A number of which each chunk of a map has one or two.
#[derive(Clone, Copy)]
struct Lone(u32);

impl CheapClone for Lone {
    const CHUNK: usize = 1;

    fn cheap_clone(&self, _alloc: Global) -> Result<Lone, Memory> {
        Ok(*self)
    }
}

// Puts each number below a bound, and something more, at its id.
fn each_below(alloc: Global, bound: u32, more: u32) -> Result<Vec<(VertexId, Option<Lone>)>, Memory>
    ensures { IfOk result (λ changes. ChangesRise changes.items) }
{
    let mut changes = Vec::new(alloc);
    for number in 0..bound {
        changes.push((id(number), Some(Lone(number.wrapping_add(more)))))?;
    }
    Ok(changes)
}

fn are_each_below(map: &Map<Lone>, bound: u32, more: u32) -> bool {
    for number in 0..bound {
        match map.get(id(number)) {
            Some(value) if value.0 == number.wrapping_add(more) => {}
            _ => return false,
        }
    }
    map.len() == bound as usize
}

// Some 1,900 chunks are changed in place, by calls that go as deep; more of them are made anew.
#[test]
fn changes_many_chunks(rt: HostRuntime) -> Result<(), Memory> {
    for bound in [1900u32, 5000] {
        let mut map = Map::new();
        map.change_own(rt.alloc(), each_below(rt.alloc(), bound, 0)?)?;
        map.change_own(rt.alloc(), each_below(rt.alloc(), bound, 7)?)?;
        assert!(rt; are_each_below(&map, bound, 7));
    }
    Ok(())
}
