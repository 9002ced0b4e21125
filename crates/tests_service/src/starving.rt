// Refreshes whose workers want memory: one falls as a call of compute is refused it, and the others go on.
use crate::hops::{
    Line, TWO_HOPS, batch_of, limits_of, master, program, refreshed, service_of, told_on,
};
use pg_global::{AnyCombiner, MasterCompute, MessageCombiner};
use pg_program::Computation;
use pg_service::{Limits, MemShelf, NoFate, NoGate, Service};
use std::alloc::Global;
use std::process::Abort;
use std::sync::Wait;
use std::test::Fail;
use std::thread::Threads;
use tests_kit::{Heard, Starving};

// What a first refresh of two hops tells, with what is published after it, and what the next one tells.
fn refreshed_twice<
    R: Threads + Wait + Sync,
    P: Computation,
    C: MessageCombiner<P::Message>,
    M: MasterCompute,
>(rt: &R, alloc: Global, service: &mut Service<P, C, M>) -> Result<(String, String), Fail> {
    let batch = batch_of(alloc, &TWO_HOPS)?;
    service
        .edit(alloc, &batch)
        .map_err(|_| "a batch that is refused")?;
    let first = told_on(
        rt,
        alloc,
        service,
        &mut MemShelf::new(alloc),
        &NoFate,
        &NoGate,
    )?;
    Ok((first, refreshed(rt, alloc, service)?))
}

// The same of the shortest paths where the first refresh wants memory at one of its calls.
fn starved<R: Threads + Wait + Sync>(
    rt: &R,
    alloc: Global,
    at: u64,
    limits: Limits,
) -> Result<(String, String), Fail> {
    let starving = Heard {
        inner: program()?,
        listener: Starving::at_call(at),
    };
    let none = AnyCombiner::NoCombiner;
    let mut service = service_of(rt, alloc, limits, starving, none, master()?)?;
    let reported = refreshed_twice(rt, alloc, &mut service);
    service.close(rt);
    reported
}

// What refreshes of two hops tell: the first, one after a vertex was added, and the next one.
fn refreshed_thrice<
    R: Threads + Wait + Sync,
    P: Computation,
    C: MessageCombiner<P::Message>,
    M: MasterCompute,
>(rt: &R, alloc: Global, service: &mut Service<P, C, M>) -> Result<[String; 3], Fail> {
    service
        .edit(alloc, &batch_of(alloc, &TWO_HOPS)?)
        .map_err(|_| "a batch that is refused")?;
    let first = refreshed(rt, alloc, service)?;
    service
        .edit(alloc, &batch_of(alloc, &[Line::Vertex(4)])?)
        .map_err(|_| "a batch that is refused")?;
    let second = refreshed(rt, alloc, service)?;
    Ok([first, second, refreshed(rt, alloc, service)?])
}

// The same of the shortest paths where memory is wanted as the vertex that was added begins.
fn starved_warm<R: Threads + Wait + Sync>(rt: &R, alloc: Global) -> Result<[String; 3], Fail> {
    let starving = Heard {
        inner: program()?,
        listener: Starving::as_it_begins(3),
    };
    let none = AnyCombiner::NoCombiner;
    let mut service = service_of(rt, alloc, limits_of(2, 1, 0, 0)?, starving, none, master()?)?;
    let reported = refreshed_thrice(rt, alloc, &mut service);
    service.close(rt);
    reported
}

// A refresh that is refused keeps no run, and the next one calls all.
#[test]
fn a_warm_refresh_wants_memory(rt: HostRuntime) -> Result<(), Fail> {
    let [first, second, third] = starved_warm(&rt, rt.alloc())?;
    assert_eq!(rt; first.as_str(), "calls 5 supersteps 3 losses");
    assert_eq!(rt; second.as_str(), "refused 1");
    assert_eq!(rt; third.as_str(), "calls 6 supersteps 3 losses");
    Ok(())
}

// Superstep 0 takes three calls, and the next ones one each.
#[test]
fn the_only_worker_wants_memory(rt: HostRuntime) -> Result<(), Fail> {
    let alloc = rt.alloc();
    let rows = [
        (0, 16, "refused 3 losses (0 0 memory); of nothing\n"),
        (3, 16, "refused 3 losses (0 1 memory); of nothing\n"),
        (4, 16, "refused 3 losses (0 2 memory); of nothing\n"),
        (0, 0, "refused 2 losses (0 0 memory); of nothing\n"),
    ];
    for (at, max_losses, wanted) in rows {
        let (reported, next) = starved(&rt, alloc, at, limits_of(3, 1, 0, max_losses)?)?;
        assert_eq!(rt; reported.as_str(), wanted);
        assert_eq!(rt; next.as_str(), "calls 5 supersteps 3 losses");
    }
    Ok(())
}

// Which of two workers makes a call is up to the threads in superstep 0; later only one vertex is called.
#[test]
fn one_of_two_workers_wants_memory(rt: HostRuntime) -> Result<(), Fail> {
    let alloc = rt.alloc();
    for at in 0..5 {
        let (reported, next) = starved(&rt, alloc, at, limits_of(3, 2, 1, 1)?)?;
        assert!(rt; reported.as_str().starts_with("calls "));
        assert!(rt; reported.as_str().ends_with(" memory); of 1: 1=0 2=5 3=6\n"));
        assert_eq!(rt; next.as_str(), "calls 0 supersteps 3 losses");
    }
    Ok(())
}
