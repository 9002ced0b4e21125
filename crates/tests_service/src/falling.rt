// Refreshes on workers that fall, with checkpoints. All was found by hand.
use crate::hops::{Line, Paths, accepted, limits_of, refreshed, told_on, two_hops};
use crate::shelves::{NthShelf, ShortShelf};
use pg_service::{Fate, Limits, MemShelf, NoFate, NoGate, Shelf};
use std::alloc::Global;
use std::process::Abort;
use std::sync::Wait;
use std::test::Fail;
use std::thread::Threads;
use tests_rounds::{AllFall, Strike, Strikes};

// Worker 1 of two falls after it has stepped partition 1 from superstep 1.
fn falls_once() -> Strikes {
    Strikes::once(Strike::at(1, 0, 1, 1))
}

// What a first refresh of two hops tells, with checkpoints in memory.
fn first<R: Threads + Wait + Sync, F: Fate>(
    rt: &R,
    alloc: Global,
    limits: Limits,
    fate: &F,
) -> Result<String, Fail> {
    let mut service = two_hops(rt, alloc, limits)?;
    let mut shelf = MemShelf::new(alloc);
    let reported = told_on(rt, alloc, &mut service, &mut shelf, fate, &NoGate);
    service.close(rt);
    reported
}

// Without a checkpoint the partition begins anew; with one it goes on from there.
#[test]
fn a_worker_falls(rt: HostRuntime) -> Result<(), Fail> {
    let alloc = rt.alloc();
    let anew = first(&rt, alloc, limits_of(3, 2, 0, 16)?, &falls_once())?;
    assert_eq!(rt;
        anew.as_str(),
        "calls 6 supersteps 3 steps of 1 4 losses (1 1 fate); of 1: 1=0 2=5 3=6\n"
    );
    let saved = first(&rt, alloc, limits_of(3, 2, 1, 16)?, &falls_once())?;
    assert_eq!(rt;
        saved.as_str(),
        "calls 5 supersteps 3 losses (1 1 fate); of 1: 1=0 2=5 3=6\n"
    );
    Ok(())
}

#[test]
fn short_checkpoints_are_of_no_use(rt: HostRuntime) -> Result<(), Fail> {
    let alloc = rt.alloc();
    let mut service = two_hops(&rt, alloc, limits_of(3, 2, 1, 16)?)?;
    let mut shelf = ShortShelf::new(alloc);
    let reported = told_on(&rt, alloc, &mut service, &mut shelf, &falls_once(), &NoGate);
    service.close(&rt);
    assert_eq!(rt;
        reported?.as_str(),
        "calls 6 supersteps 3 steps of 1 4 losses (1 1 fate); of 1: 1=0 2=5 3=6\n"
    );
    Ok(())
}

// What refreshes tell of a shortcut besides two hops, where worker 0 of two falls once it has stepped partition 2 from
// superstep 0, and of an empty batch after it.
fn shortcut<R: Threads + Wait + Sync>(
    rt: &R,
    alloc: Global,
    service: &mut Paths,
) -> Result<(String, String), Fail> {
    let _first = refreshed(rt, alloc, service)?;
    accepted(alloc, service, &[Line::Edge(1, 3, 2)])?;
    let fate = Strikes::once(Strike::at(0, 0, 0, 2));
    let mut shelf = MemShelf::new(alloc);
    let reported = told_on(rt, alloc, service, &mut shelf, &fate, &NoGate)?;
    accepted(alloc, service, &[])?;
    let again = told_on(rt, alloc, service, &mut shelf, &NoFate, &NoGate)?;
    Ok((reported, again))
}

#[test]
fn a_worker_falls_in_a_warm_run(rt: HostRuntime) -> Result<(), Fail> {
    let alloc = rt.alloc();
    let mut service = two_hops(&rt, alloc, limits_of(3, 2, 0, 16)?)?;
    let found = shortcut(&rt, alloc, &mut service);
    service.close(&rt);
    let (reported, again) = found?;
    assert_eq!(rt;
        reported.as_str(),
        "calls 6 supersteps 3 losses (0 0 fate); of 2: 1=0 2=5 3=2\n"
    );
    assert_eq!(rt;
        again.as_str(),
        "calls 0 supersteps 3 losses; of 3: 1=0 2=5 3=2\n"
    );
    Ok(())
}

// What a refresh of two hops tells that is refused, with what stays published, and the next one.
fn refused<R: Threads + Wait + Sync>(
    rt: &R,
    alloc: Global,
    service: &mut Paths,
) -> Result<(String, String), Fail> {
    let _first = refreshed(rt, alloc, service)?;
    accepted(alloc, service, &[])?;
    let mut shelf = MemShelf::new(alloc);
    let reported = told_on(rt, alloc, service, &mut shelf, &AllFall, &NoGate)?;
    let next = told_on(rt, alloc, service, &mut shelf, &NoFate, &NoGate)?;
    Ok((reported, next))
}

// More workers fell than may, or all of them: what was published stays, and the next refresh calls all.
#[test]
fn a_refresh_is_refused(rt: HostRuntime) -> Result<(), Fail> {
    let alloc = rt.alloc();
    let rows = [
        (
            2,
            "refused 3 losses (0 0 fate) (1 0 fate); of 1: 1=0 2=5 3=6\n",
        ),
        (
            1,
            "refused 2 losses (0 0 fate) (1 0 fate); of 1: 1=0 2=5 3=6\n",
        ),
    ];
    for (max_losses, wanted) in rows {
        let mut service = two_hops(&rt, alloc, limits_of(3, 2, 0, max_losses)?)?;
        let found = refused(&rt, alloc, &mut service);
        service.close(&rt);
        let (reported, next) = found?;
        assert_eq!(rt; reported.as_str(), wanted);
        assert_eq!(rt;
            next.as_str(),
            "calls 5 supersteps 3 losses; of 2: 1=0 2=5 3=6\n"
        );
    }
    Ok(())
}

// What a refresh of a kept run's graph tells whose fourth checkpoint can't be put, and the next one.
fn fourth_put<R: Threads + Wait + Sync>(
    rt: &R,
    alloc: Global,
    service: &mut Paths,
) -> Result<(String, String), Fail> {
    let _first = refreshed(rt, alloc, service)?;
    accepted(alloc, service, &[])?;
    let mut shelf = NthShelf::new(alloc, 4);
    let reported = told_on(rt, alloc, service, &mut shelf, &NoFate, &NoGate)?;
    Ok((reported, refreshed(rt, alloc, service)?))
}

// What was published stays, and the next refresh calls all.
#[test]
fn a_checkpoint_cannot_be_put(rt: HostRuntime) -> Result<(), Fail> {
    let alloc = rt.alloc();
    let mut service = two_hops(&rt, alloc, limits_of(3, 2, 1, 0)?)?;
    let found = fourth_put(&rt, alloc, &mut service);
    service.close(&rt);
    let (reported, next) = found?;
    assert_eq!(rt; reported.as_str(), "refused 4; of 1: 1=0 2=5 3=6\n");
    assert_eq!(rt; next.as_str(), "calls 5 supersteps 3 losses");
    Ok(())
}

// Whether the checkpoint of partition 1 names the run with this number, in the eight bytes behind its form and length.
fn names_run(alloc: Global, shelf: &mut MemShelf, number: u8) -> Result<bool, Fail> {
    let Ok(Some(bytes)) = shelf.get(alloc, b"p1") else {
        return Err(Fail::from("no checkpoint"));
    };
    match bytes.as_slice().get(12..20) {
        Some(run) => Ok(run == [number, 0, 0, 0, 0, 0, 0, 0].as_slice()),
        None => Ok(false),
    }
}

// Whether the checkpoints of two refreshes on one shelf name the runs 1 and 2.
fn two_runs<R: Threads + Wait + Sync>(
    rt: &R,
    alloc: Global,
    service: &mut Paths,
) -> Result<(bool, bool), Fail> {
    let mut shelf = MemShelf::new(alloc);
    let _first = told_on(rt, alloc, service, &mut shelf, &NoFate, &NoGate)?;
    let first = names_run(alloc, &mut shelf, 1)?;
    accepted(alloc, service, &[Line::Edge(1, 3, 2)])?;
    let _second = told_on(rt, alloc, service, &mut shelf, &NoFate, &NoGate)?;
    Ok((first, names_run(alloc, &mut shelf, 2)?))
}

#[test]
fn checkpoints_name_their_run(rt: HostRuntime) -> Result<(), Fail> {
    let alloc = rt.alloc();
    let mut service = two_hops(&rt, alloc, limits_of(3, 2, 1, 0)?)?;
    let found = two_runs(&rt, alloc, &mut service);
    service.close(&rt);
    assert_eq!(rt; found?, (true, true));
    Ok(())
}

// What a second refresh tells whose shelf's device fails at this call, where worker 1 falls once, and the one after it.
fn warm_failing<R: Threads + Wait + Sync>(
    rt: &R,
    alloc: Global,
    service: &mut Paths,
    call: u64,
) -> Result<(String, u64, String), Fail> {
    let _first = refreshed(rt, alloc, service)?;
    accepted(alloc, service, &[Line::Edge(1, 3, 2)])?;
    let mut shelf = NthShelf::new(alloc, call);
    let reported = told_on(rt, alloc, service, &mut shelf, &falls_once(), &NoGate)?;
    Ok((reported, shelf.calls(), refreshed(rt, alloc, service)?))
}

// The same of a service of its own.
fn failing<R: Threads + Wait + Sync>(
    rt: &R,
    alloc: Global,
    call: u64,
) -> Result<(String, u64, String), Fail> {
    let mut service = two_hops(rt, alloc, limits_of(3, 2, 1, 16)?)?;
    let found = warm_failing(rt, alloc, &mut service, call);
    service.close(rt);
    found
}

// Three partitions are saved before superstep 1 and again before superstep 2, and one is looked for in between.
#[test]
fn the_device_fails(rt: HostRuntime) -> Result<(), Fail> {
    let alloc = rt.alloc();
    for call in 1..8 {
        let (reported, calls, next) = failing(&rt, alloc, call)?;
        assert_eq!(rt; reported.as_str(), "refused 4; of 1: 1=0 2=5 3=6\n");
        assert_eq!(rt; calls, call);
        assert_eq!(rt; next.as_str(), "calls 6 supersteps 3 losses");
    }
    let (reported, calls, next) = failing(&rt, alloc, 8)?;
    assert!(rt;
        reported
            .as_str()
            .ends_with(" losses (1 1 fate); of 2: 1=0 2=5 3=2\n")
    );
    assert_eq!(rt; calls, 7);
    assert_eq!(rt; next.as_str(), "calls 0 supersteps 3 losses");
    Ok(())
}
