// Workers that are out of memory: one falls as a call of compute is, and the others go on.
use crate::jobs::heard;
use crate::rows::two_hops;
use pg_global::AnyCombiner;
use pg_workers::{Fate, Limits, NoFate, NoGate};
use pregeld_programs::{ReadyMaster, ReadyProgram, Sssp};
use std::alloc::Global;
use std::process::Abort;
use std::sync::Wait;
use std::test::Fail;
use std::thread::Threads;
use tests_kit::{Heard, Starving, id, limits_of};
use tests_rounds::{Strike, Strikes};

// What a run of the shortest paths on two hops tells that is out of memory at this call, on workers that fall by this
// fate.
fn hops<R: Threads + Wait + Sync, F: Fate>(
    rt: &R,
    alloc: Global,
    at: u64,
    limits: Limits,
    fate: &F,
) -> Result<String, Fail> {
    let inner = ReadyProgram::Sssp(Sssp { source: id(1)? });
    let (master, none) = (ReadyMaster { program: inner }, AnyCombiner::NoCombiner);
    let listener = Starving::at_call(at);
    let (graph, program) = (two_hops(alloc)?, Heard { inner, listener });
    heard(
        rt, alloc, &graph, &program, &none, &master, limits, fate, &NoGate,
    )
}

// Superstep 0 takes three calls, and the next ones one each.
#[test]
fn the_only_worker_wants_memory(rt: HostRuntime) -> Result<(), Fail> {
    let alloc = rt.alloc();
    let rows = [
        (0, 16, "refused 3 losses (0 0 memory);"),
        (3, 16, "refused 3 losses (0 1 memory);"),
        (4, 16, "refused 3 losses (0 2 memory);"),
        (0, 0, "refused 2 losses (0 0 memory);"),
        (5, 0, "calls 5 steps 3 3 3 losses; in 3: 1=0 2=5 3=6"),
    ];
    for (at, max_losses, wanted) in rows {
        let reported = hops(&rt, alloc, at, limits_of(3, 1, 0, max_losses)?, &NoFate)?;
        assert_eq!(rt; reported.as_str(), wanted);
    }
    Ok(())
}

// A worker is asked of its fate once it has made a step: one whose step is out of memory falls for that.
#[test]
fn fate_is_asked_after_the_step(rt: HostRuntime) -> Result<(), Fail> {
    let alloc = rt.alloc();
    let (fate, limits) = (
        Strikes::once(Strike::at(0, 0, 0, 0)),
        limits_of(3, 1, 0, 16)?,
    );
    let reported = hops(&rt, alloc, 0, limits, &fate)?;
    assert_eq!(rt; reported.as_str(), "refused 3 losses (0 0 memory);");
    let reported = hops(&rt, alloc, 1, limits, &fate)?;
    assert_eq!(rt; reported.as_str(), "refused 3 losses (0 0 fate);");
    Ok(())
}

// Which of two workers makes a call is up to the threads in superstep 0; later only one vertex is called.
#[test]
fn one_of_two_workers_wants_memory(rt: HostRuntime) -> Result<(), Fail> {
    let alloc = rt.alloc();
    for every in 0..4 {
        for at in 0..5 {
            let reported = hops(&rt, alloc, at, limits_of(3, 2, every, 1)?, &NoFate)?;
            let reported = reported.as_str();
            assert!(rt; reported.starts_with("calls "));
            assert!(rt; reported.contains(" memory); in 3: 1=0 2=5 3=6"));
            assert!(rt; reported.ends_with(" 3=6"));
        }
    }
    Ok(())
}
