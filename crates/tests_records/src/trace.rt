ghost use Rattle.std.specs.Prelude.{◌≡◌, ◌<◌};

use pg_graph::{Edges, Memory, Superstep, VertexId};
use pg_model::{Place, Sequence, VertexState};
use pg_trace::{Record, Trace};
use std::alloc::Global;
use std::fmt::Write;

type Numbers = Trace<i64, i64>;

fn id(number: u32) -> VertexId
    ensures { result ≡ number }
{
    VertexId::new(u64::from(number)).unwrap()
}

fn begun(id: VertexId, value: i64) -> VertexState<i64>
    ensures { result.id ≡ id }
{
    VertexState {
        id,
        value,
        edges: Edges::new(),
        halted: false,
    }
}

// A record that contributes its value.
fn gave(alloc: Global, value: i64) -> Result<Record<i64, i64>, Memory> {
    let mut contributed = Sequence::new(alloc);
    contributed.push((Place::new(0), value))?;
    Ok(Record {
        value,
        edges: Edges::new(),
        halted: true,
        sent: Sequence::new(alloc),
        contributed,
    })
}

// A trace that begins with two vertices.
fn begin(alloc: Global, low: VertexState<i64>, high: VertexState<i64>) -> Result<Numbers, Memory>
    requires { low.id < high.id }
{
    let states = vec![in alloc; low, high]?;
    Trace::new(alloc, states)
}

fn push_two(
    alloc: Global,
    trace: &mut Numbers,
    low: VertexId,
    high: VertexId,
    value: i64,
) -> Result<(), Memory>
    requires { low < high }
{
    let first = (low, gave(alloc, value)?);
    let second = (high, gave(alloc, value.wrapping_add(1))?);
    let records = vec![in alloc; first, second]?;
    trace.push_superstep(alloc, records)
}

// A trace of ids 0 and 1, in which 0 and 1 run, then 1 and 7, then 5 and 7.
fn three_supersteps(alloc: Global) -> Result<Numbers, Memory> {
    let mut trace = begin(alloc, begun(id(0), 1000), begun(id(1), 2000))?;
    push_two(alloc, &mut trace, id(0), id(1), 5)?;
    push_two(alloc, &mut trace, id(1), id(7), 8)?;
    push_two(alloc, &mut trace, id(5), id(7), 11)?;
    Ok(trace)
}

fn write_if_any(text: &mut String, value: Option<i64>) -> Result<(), Memory> {
    match value {
        Some(value) => write!(text, "{value},")?,
        None => write!(text, "-,")?,
    }
    Ok(())
}

fn value_at(trace: &Numbers, id: VertexId, place: u32) -> Option<i64> {
    let state = trace.state_at(id, Superstep::new(place))?;
    Some(*state.value())
}

fn given_at(trace: &Numbers, id: VertexId, place: u32) -> Option<i64> {
    let given = trace.record_at(id, Superstep::new(place))?;
    Some(*given.value())
}

// The values of an id as supersteps 0 to 3 begin.
fn write_values(text: &mut String, trace: &Numbers, number: u32) -> Result<(), Memory> {
    write!(text, "{number}:")?;
    for place in 0..4u32 {
        write_if_any(text, value_at(trace, id(number), place))?;
    }
    Ok(())
}

// How many supersteps there are, and the values of ids 0, 1, 3, 5 and 7 as supersteps 0 to 3 begin.
fn values_in(alloc: Global, trace: &Numbers) -> Result<String, Memory> {
    let mut text = String::new(alloc);
    let supersteps = trace.supersteps();
    write!(text, "{supersteps} ")?;
    for number in [0, 1, 3, 5, 7] {
        write_values(&mut text, trace, number)?;
    }
    Ok(text)
}

// How many records a superstep has.
fn count_in(alloc: Global, trace: &Numbers, place: u32) -> Result<usize, Memory> {
    Ok(trace.records(alloc, Superstep::new(place))?.len())
}

// Of supersteps 0 to 3 how many records each has, and the value that 1 gave in it.
fn records_in(alloc: Global, trace: &Numbers) -> Result<String, Memory> {
    let mut text = String::new(alloc);
    for place in 0..4u32 {
        let count = count_in(alloc, trace, place)?;
        write!(text, "{count}:")?;
        write_if_any(&mut text, given_at(trace, id(1), place))?;
    }
    Ok(text)
}

fn values_of_three(alloc: Global) -> Result<String, Memory> {
    let trace = three_supersteps(alloc)?;
    values_in(alloc, &trace)
}

#[test]
fn reads_states_between_records(rt: HostRuntime) -> Result<(), Memory> {
    let text = values_of_three(rt.alloc())?;
    assert_eq!(rt;
        text.as_str(),
        "3 0:1000,5,5,5,1:2000,6,8,8,3:-,-,-,-,5:-,-,-,11,7:-,-,9,12,"
    );
    Ok(())
}

fn records_of_three(alloc: Global) -> Result<String, Memory> {
    let trace = three_supersteps(alloc)?;
    records_in(alloc, &trace)
}

#[test]
fn reads_records(rt: HostRuntime) -> Result<(), Memory> {
    let text = records_of_three(rt.alloc())?;
    assert_eq!(rt; text.as_str(), "2:6,2:8,2:-,0:-,");
    Ok(())
}

// The state of 1 as a superstep begins has its id, no edges, and is halted or not.
fn shows_one(trace: &Numbers, place: u32, halted: bool) -> bool {
    match trace.state_at(id(1), Superstep::new(place)) {
        Some(state) => {
            state.id().number() == 1
                && state.halted() == halted
                && state.edges().as_slice().is_empty()
        }
        None => false,
    }
}

// The first state of 1 isn't halted, and the one that it leaves is.
fn shows_both(alloc: Global) -> Result<bool, Memory> {
    let trace = three_supersteps(alloc)?;
    Ok(shows_one(&trace, 0, false) && shows_one(&trace, 1, true))
}

#[test]
fn shows_states(rt: HostRuntime) -> Result<(), Memory> {
    assert!(rt; shows_both(rt.alloc())?);
    Ok(())
}

fn values_of_cut(alloc: Global) -> Result<String, Memory> {
    let mut trace = three_supersteps(alloc)?;
    trace.cut(alloc, Superstep::new(1))?;
    values_in(alloc, &trace)
}

#[test]
fn cuts(rt: HostRuntime) -> Result<(), Memory> {
    let text = values_of_cut(rt.alloc())?;
    assert_eq!(rt;
        text.as_str(),
        "1 0:1000,5,5,5,1:2000,6,6,6,3:-,-,-,-,5:-,-,-,-,7:-,-,-,-,"
    );
    Ok(())
}

// What is contributed in a superstep, by place.
fn write_contributions(
    alloc: Global,
    text: &mut String,
    trace: &Numbers,
    superstep: u32,
) -> Result<(), Memory> {
    let contributions = trace.contributions(alloc, Superstep::new(superstep))?;
    for (at, value) in contributions.as_slice() {
        let number = at.number();
        write!(text, "{number}={value},")?;
    }
    write!(text, ";")?;
    Ok(())
}

// What is contributed in supersteps 0 to 3.
fn contributions_in(alloc: Global, trace: &Numbers) -> Result<String, Memory> {
    let mut text = String::new(alloc);
    for place in 0..4u32 {
        write_contributions(alloc, &mut text, trace, place)?;
    }
    Ok(text)
}

fn contributions_of_three(alloc: Global) -> Result<String, Memory> {
    let trace = three_supersteps(alloc)?;
    contributions_in(alloc, &trace)
}

#[test]
fn lists_contributions(rt: HostRuntime) -> Result<(), Memory> {
    let text = contributions_of_three(rt.alloc())?;
    assert_eq!(rt; text.as_str(), "0=5,0=6,;0=8,0=9,;0=11,0=12,;;");
    Ok(())
}

// Leaves one superstep of a trace, and adds one with 3 and 4.
fn change(alloc: Global, trace: &mut Numbers) -> Result<(), Memory> {
    trace.cut(alloc, Superstep::new(1))?;
    push_two(alloc, trace, id(3), id(4), 20)
}

fn values_of_copy(alloc: Global) -> Result<String, Memory> {
    let mut trace = three_supersteps(alloc)?;
    let copy = trace.cheap_clone(alloc)?;
    change(alloc, &mut trace)?;
    values_in(alloc, &copy)
}

#[test]
fn copies_stay(rt: HostRuntime) -> Result<(), Memory> {
    let text = values_of_copy(rt.alloc())?;
    assert_eq!(rt;
        text.as_str(),
        "3 0:1000,5,5,5,1:2000,6,8,8,3:-,-,-,-,5:-,-,-,11,7:-,-,9,12,"
    );
    Ok(())
}
