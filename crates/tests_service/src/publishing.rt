// What readers look at, before, while and after a service refreshes. All was found by hand.
ghost use Rattle.std.specs.Prelude.{◌≡◌, IfOk};

use crate::gates::Watched;
use crate::hops::{Line, Paths, accepted, empty, limits_of, refreshed, two_hops};
use pg_global::{MasterCompute, MessageCombiner};
use pg_graph::VertexId;
use pg_model::Ending;
use pg_program::Computation;
use pg_service::{AnswerReader, Fate, Gate, Look, MemShelf, NoFate, NoGate, Service, Told};
use std::alloc::Global;
use std::process::Abort;
use std::sync::Wait;
use std::test::Fail;
use std::thread::{Threads, join};
use tests_rounds::AllFall;

// What a look shows: the values of the vertices 1 to 3, and of the aggregates the one named `reached`.
#[derive(Clone, Copy, Debug, PartialEq, Eq)]
struct Shown {
    edition: Option<u64>,
    one: Option<i64>,
    two: Option<i64>,
    three: Option<i64>,
    reached: Option<i64>,
    supersteps: Option<u32>,
    ending: Option<Ending>,
}

// Before the first refresh.
const NOTHING: Shown = Shown {
    edition: None,
    one: None,
    two: None,
    three: None,
    reached: None,
    supersteps: None,
    ending: None,
};

// Edition 1: the edges from 1 to 2, of weight 5, and from 2 to 3, of weight 1.
const HOPS: Shown = Shown {
    edition: Some(1),
    one: Some(0),
    two: Some(5),
    three: Some(6),
    reached: Some(3),
    supersteps: Some(3),
    ending: Some(Ending::Finished),
};

// Edition 2: with the edge from 1 to 3, of weight 2. Vertex 2 sends 6 to 3 in superstep 1, which isn't less.
const WITH_SHORTCUT: Shown = Shown {
    edition: Some(2),
    one: Some(0),
    two: Some(5),
    three: Some(2),
    reached: Some(3),
    supersteps: Some(3),
    ending: Some(Ending::Finished),
};

const SHORTCUT: [Line; 1] = [Line::Edge(1, 3, 2)];

fn shown_in(look: &Look<i64>) -> Option<Shown> {
    let (Some(one), Some(two), Some(three)) = (VertexId::new(1), VertexId::new(2), VertexId::new(3))
    else {
        return None;
    };
    Some(Shown {
        edition: look.edition().map(|edition| edition.number()),
        one: look.value(one).copied(),
        two: look.value(two).copied(),
        three: look.value(three).copied(),
        reached: look.aggregate("reached"),
        supersteps: look.supersteps(),
        ending: look.ending(),
    })
}

// What a reader looks at, and the reader again: `None` where no look is given.
fn look_once(reader: AnswerReader<i64>) -> (Option<Shown>, AnswerReader<i64>)
    ensures { result.1.publisher ≡ reader.publisher }
{
    match reader.look() {
        Ok(look) => {
            let shown = shown_in(&look);
            (shown, look.leave())
        }
        Err(reader) => (None, reader),
    }
}

fn reader_of<P: Computation, C: MessageCombiner<P::Message>, M: MasterCompute>(
    service: &mut Service<P, C, M>,
) -> Result<AnswerReader<P::Value>, Fail>
    ensures told { service.new.told ≡ service.old.told }
    ensures reader { IfOk result (λ reader. reader ≡ service.old.told) }
{
    match service.reader() {
        Some(reader) => Ok(reader),
        None => Err(Fail::from("no place for a reader")),
    }
}

// Whether a refresh gives a report on workers that fall by this fate and pass this gate, and what the service tells
// readers after it.
fn told_after<
    R: Threads + Wait + Sync,
    P: Computation,
    C: MessageCombiner<P::Message>,
    M: MasterCompute,
    F: Fate,
    G: Gate,
>(
    rt: &R,
    alloc: Global,
    service: &mut Service<P, C, M>,
    fate: &F,
    gate: &G,
) -> (bool, Told<P::Value>)
    ensures publisher { service.new.told.publisher ≡ service.old.told.publisher }
    ensures told { result.1.publisher ≡ service.old.told.publisher }
{
    let mut shelf = MemShelf::new(alloc);
    match service.refresh(rt, alloc, &mut shelf, fate, gate) {
        Ok(_) => (true, service.tell()),
        Err(_) => (false, service.tell()),
    }
}

// What a reader looks at before the first refresh, and after it.
fn before_and_after<R: Threads + Wait + Sync>(
    rt: &R,
    alloc: Global,
    service: &mut Paths,
) -> Result<(Option<Shown>, Option<Shown>), Fail> {
    let (before, reader) = look_once(reader_of(service)?);
    let _told = refreshed(rt, alloc, service)?;
    Ok((before, look_once(reader).0))
}

#[test]
fn a_reader_looks_before_and_after_a_refresh(rt: HostRuntime) -> Result<(), Fail> {
    let alloc = rt.alloc();
    let mut service = two_hops(&rt, alloc, limits_of(3, 2, 0, 0)?)?;
    let found = before_and_after(&rt, alloc, &mut service);
    service.close(&rt);
    assert_eq!(rt; found?, (Some(NOTHING), Some(HOPS)));
    Ok(())
}

// Whether a reader is made. It is let go of at once.
fn makes_reader<P: Computation, C: MessageCombiner<P::Message>, M: MasterCompute>(
    service: &mut Service<P, C, M>,
) -> bool {
    service.reader().is_some()
}

// How many of eight readers are made, and whether a ninth one is.
fn made_of_nine(service: &mut Paths) -> (u32, bool) {
    let mut made = 0_u32;
    for _ in 0..8 {
        if makes_reader(service) {
            made = made.saturating_add(1);
        }
    }
    (made, makes_reader(service))
}

#[test]
fn there_are_eight_readers(rt: HostRuntime) -> Result<(), Fail> {
    let mut service = empty(&rt, rt.alloc(), limits_of(1, 1, 0, 0)?)?;
    let found = made_of_nine(&mut service);
    service.close(&rt);
    assert_eq!(rt; found, (8, false));
    Ok(())
}

// What a reader looks at once it has learned of one publication, and then of another.
fn learned_in_turn(
    reader: AnswerReader<i64>,
    one: Told<i64>,
    other: Told<i64>,
) -> (Option<Shown>, Option<Shown>)
    requires one { one.publisher ≡ reader.publisher }
    requires other { other.publisher ≡ reader.publisher }
{
    let (shown, reader) = look_once(reader.learn(one));
    let (again, _) = look_once(reader.learn(other));
    (shown, again)
}

// What a reader looks at that learns what the service tells after each of two refreshes: of the second one first, or
// last.
fn learned<R: Threads + Wait + Sync>(
    rt: &R,
    alloc: Global,
    service: &mut Paths,
    second_first: bool,
) -> Result<(Option<Shown>, Option<Shown>), Fail> {
    let reader = reader_of(service)?;
    let (_, first) = told_after(rt, alloc, service, &NoFate, &NoGate);
    accepted(alloc, service, &SHORTCUT)?;
    let (_, second) = told_after(rt, alloc, service, &NoFate, &NoGate);
    if second_first {
        Ok(learned_in_turn(reader, second, first))
    } else {
        Ok(learned_in_turn(reader, first, second))
    }
}

#[test]
fn what_is_told_is_learned_in_any_order(rt: HostRuntime) -> Result<(), Fail> {
    let alloc = rt.alloc();
    for second_first in [true, false] {
        let mut service = two_hops(&rt, alloc, limits_of(3, 2, 0, 0)?)?;
        let found = learned(&rt, alloc, &mut service, second_first);
        service.close(&rt);
        assert_eq!(rt; found?, (Some(WITH_SHORTCUT), Some(WITH_SHORTCUT)));
    }
    Ok(())
}

// Looks once a worker is at the gate, and lets it pass then: `None` where none came, or no look is given.
fn look_within(reader: AnswerReader<i64>, gate: &Watched) -> (Option<Shown>, AnswerReader<i64>)
    ensures { result.1.publisher ≡ reader.publisher }
{
    if !gate.is_entered() {
        return (None, reader);
    }
    let (shown, reader) = look_once(reader);
    gate.let_pass();
    (shown, reader)
}

// What a reader in another thread has looked at while a worker of a refresh stood at its gate, and once it has learned
// what the service tells after the refresh; whether the refresh gave a report, and whether the worker waited in vain;
// and how often worker 0 and worker 1 have passed.
#[derive(Clone, Copy, Debug, PartialEq, Eq)]
struct Previous {
    within: Option<Shown>,
    after: Option<Shown>,
    reported: bool,
    missed: bool,
    first_passed: u64,
    second_passed: u64,
}

fn while_a_look_is_kept<R: Threads + Wait + Sync>(
    rt: &R,
    alloc: Global,
    service: &mut Paths,
) -> Result<Previous, Fail> {
    let reader = reader_of(service)?;
    let gate = Watched::new();
    let ((reported, told), (within, reader)) = join(
        rt,
        || told_after(rt, alloc, service, &NoFate, &gate),
        || look_within(reader, &gate),
    );
    let (after, _) = look_once(reader.learn(told));
    Ok(Previous {
        within,
        after,
        reported,
        missed: gate.was_missed(),
        first_passed: gate.first_passed(),
        second_passed: gate.second_passed(),
    })
}

// The refresh of a shortcut besides the two hops, with a reader in another thread.
fn shortcut_while_a_look_is_kept<R: Threads + Wait + Sync>(
    rt: &R,
    alloc: Global,
    service: &mut Paths,
) -> Result<Previous, Fail> {
    let _first = refreshed(rt, alloc, service)?;
    accepted(alloc, service, &SHORTCUT)?;
    while_a_look_is_kept(rt, alloc, service)
}

// Worker 0 has the partitions 0 and 2, and worker 1 has partition 1: each has something to do in each of three
// supersteps.
#[test]
fn a_reader_looks_while_a_refresh_runs(rt: HostRuntime) -> Result<(), Fail> {
    let alloc = rt.alloc();
    let mut service = two_hops(&rt, alloc, limits_of(3, 2, 0, 0)?)?;
    let found = shortcut_while_a_look_is_kept(&rt, alloc, &mut service);
    service.close(&rt);
    let wanted = Previous {
        within: Some(HOPS),
        after: Some(WITH_SHORTCUT),
        reported: true,
        missed: false,
        first_passed: 3,
        second_passed: 3,
    };
    assert_eq!(rt; found?, wanted);
    Ok(())
}

// Whether a refresh gives a report whose workers all fall; and what a reader looks at then that learns what the
// service told before it, and what it tells after it.
fn refused<R: Threads + Wait + Sync>(
    rt: &R,
    alloc: Global,
    service: &mut Paths,
) -> Result<(bool, Option<Shown>, Option<Shown>), Fail> {
    let reader = reader_of(service)?;
    let (_, before) = told_after(rt, alloc, service, &NoFate, &NoGate);
    accepted(alloc, service, &SHORTCUT)?;
    let (reported, after) = told_after(rt, alloc, service, &AllFall, &NoGate);
    let (shown, again) = learned_in_turn(reader, before, after);
    Ok((reported, shown, again))
}

#[test]
fn a_refused_refresh_publishes_nothing(rt: HostRuntime) -> Result<(), Fail> {
    let alloc = rt.alloc();
    let mut service = two_hops(&rt, alloc, limits_of(3, 2, 0, 2)?)?;
    let found = refused(&rt, alloc, &mut service);
    service.close(&rt);
    assert_eq!(rt; found?, (false, Some(HOPS), Some(HOPS)));
    Ok(())
}

// What a reader looks at after a refresh, and the reader.
fn look_after_refresh<R: Threads + Wait + Sync>(
    rt: &R,
    alloc: Global,
    service: &mut Paths,
) -> Result<(Option<Shown>, AnswerReader<i64>), Fail> {
    let reader = reader_of(service)?;
    let _told = refreshed(rt, alloc, service)?;
    Ok(look_once(reader))
}

#[test]
fn after_a_close_no_look_is_given(rt: HostRuntime) -> Result<(), Fail> {
    let alloc = rt.alloc();
    let mut service = two_hops(&rt, alloc, limits_of(3, 2, 0, 0)?)?;
    let found = look_after_refresh(&rt, alloc, &mut service);
    service.close(&rt);
    let (before, reader) = found?;
    assert_eq!(rt; (before, look_once(reader).0), (Some(HOPS), None));
    Ok(())
}
