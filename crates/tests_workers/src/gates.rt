// In each superstep a worker passes the gate before it computes its vertices.
use crate::jobs::heard;
use crate::rows::two_hops;
use pg_global::AnyCombiner;
use pg_graph::{Memory, Superstep, WorkerId};
use pg_workers::{Gate, NoFate, NoGate};
use pregeld_programs::{ReadyMaster, ReadyProgram, Sssp};
use std::alloc::Global;
use std::process::Abort;
use std::sync::atomic::{AtomicU64, Ordering};
use std::sync::{Arc, Wait};
use std::test::Fail;
use std::thread::Threads;
use tests_kit::{Heard, Listener, Moment, id, limits_of};

// A gate for one worker: how many supersteps it was passed for, and how many calls came before it was.
#[derive(Drop)]
struct Door {
    passed: AtomicU64,
    early: AtomicU64,
}

impl Gate for Door {
    fn pass(&self, _worker: WorkerId, superstep: Superstep) {
        let passed = u64::from(superstep.number()).saturating_add(1);
        self.passed.store(passed, Ordering::SeqCst);
    }
}

// The listener that counts the calls that come too early.
#[derive(Drop)]
struct AtDoor {
    door: Arc<Door>,
}

impl Listener for AtDoor {
    fn hear(&self, moment: Moment) -> Result<(), Memory> {
        if let Moment::Compute(superstep, _) = moment {
            if self.door.passed.load(Ordering::SeqCst) <= u64::from(superstep.number()) {
                self.door.early.fetch_add(1, Ordering::SeqCst);
            }
        }
        Ok(())
    }
}

// What a run of two hops by one worker tells, whose calls this door hears, and which passes this gate.
fn hops<R: Threads + Wait + Sync, G: Gate>(
    rt: &R,
    alloc: Global,
    door: &Arc<Door>,
    gate: &G,
) -> Result<String, Fail> {
    let inner = ReadyProgram::Sssp(Sssp { source: id(1)? });
    let (master, none) = (ReadyMaster { program: inner }, AnyCombiner::NoCombiner);
    let listener = AtDoor {
        door: Arc::try_clone(door)?,
    };
    let (graph, program) = (two_hops(alloc)?, Heard { inner, listener });
    let limits = limits_of(3, 1, 0, 0)?;
    heard(
        rt, alloc, &graph, &program, &none, &master, limits, &NoFate, gate,
    )
}

const ANSWER: &str = "calls 5 steps 3 3 3 losses; in 3: 1=0 2=5 3=6";

// Five calls come too early where the door isn't the gate, and none more where it is.
#[test]
fn the_gate_is_passed_first(rt: HostRuntime) -> Result<(), Fail> {
    let alloc = rt.alloc();
    let unpassed = Door {
        passed: AtomicU64::new(0),
        early: AtomicU64::new(0),
    };
    let door = Arc::new(alloc, unpassed)?;
    let reported = hops(&rt, alloc, &door, &NoGate)?;
    assert_eq!(rt; reported.as_str(), ANSWER);
    assert_eq!(rt; door.early.load(Ordering::SeqCst), 5);
    let gate: &Door = &door;
    let reported = hops(&rt, alloc, &door, gate)?;
    assert_eq!(rt; reported.as_str(), ANSWER);
    assert_eq!(rt; door.early.load(Ordering::SeqCst), 5);
    Ok(())
}
