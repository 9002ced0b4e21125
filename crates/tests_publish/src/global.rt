ghost use Rattle.std.specs.Prelude.{◌≡◌, length, IfOk};

use pg_global::{
    Aggregator, AnyAggregator, AnyCombiner, MasterCompute, MasterState, MessageCombiner, NoMaster,
    RegisterFault, Registry, gather,
};
use pg_graph::Superstep;
use pg_model::{Place, Sequence};
use std::alloc::Global;
use std::process::Abort;
use std::test::Fail;

const LONGEST: &str = "abcdefghijklmnopqrstuvwxyzABCDEFGHIJKLMNOPQRSTUVWXYZ0123456789_-";

// The place that a sum gets, or why it gets none.
fn registered(
    alloc: Global,
    registry: &mut Registry,
    name: &str,
    persistent: bool,
) -> Result<u8, RegisterFault> {
    let sum = AnyAggregator::LongSum;
    let place = if persistent {
        registry.register_persistent(alloc, name, sum)
    } else {
        registry.register(alloc, name, sum)
    };
    Ok(place?.number())
}

// Registers sixteen sums, the second one of them persistent.
fn register_sixteen(rt: &impl Abort, alloc: Global, registry: &mut Registry) -> Result<(), Fail> {
    assert_eq!(rt; registered(alloc, registry, "reached", false), Ok(0));
    assert_eq!(rt; registered(alloc, registry, LONGEST, true), Ok(1));
    for number in 2..16u8 {
        let name = format!(in alloc; "change-{number}")?;
        assert_eq!(rt;
            registered(alloc, registry, name.as_str(), false),
            Ok(number)
        );
    }
    Ok(())
}

// Refuses these names as they are, whether there is room or not.
fn are_bad_names(rt: &impl Abort, alloc: Global, registry: &mut Registry) -> Result<(), Fail> {
    let too_long = format!(in alloc; "{LONGEST}a")?;
    for name in ["", too_long.as_str(), "a b", "é"] {
        let refused = registered(alloc, registry, name, false);
        assert_eq!(rt; refused, Err(RegisterFault::BadName), "at {name}");
    }
    Ok(())
}

#[test]
fn registers(rt: HostRuntime) -> Result<(), Fail> {
    let alloc = rt.alloc();
    let mut registry = Registry::new(alloc);
    are_bad_names(&rt, alloc, &mut registry)?;
    register_sixteen(&rt, alloc, &mut registry)?;
    are_bad_names(&rt, alloc, &mut registry)?;
    Ok(())
}

// What a registry of sixteen tells of names that are taken, are not there, or are one too many.
fn tells_sixteen(rt: &impl Abort, alloc: Global, registry: &mut Registry) {
    let taken = registered(alloc, registry, "reached", true);
    assert_eq!(rt; taken, Err(RegisterFault::NameTaken));
    let more = registered(alloc, registry, "more", true);
    assert_eq!(rt; more, Err(RegisterFault::TooMany));
    assert_eq!(rt; registry.len(), 16);
    assert_eq!(rt; registry.place("change-15"), Some(Place::new(15)));
    assert_eq!(rt; registry.place("more"), None);
    let (first, second) = (registry.registration(0), registry.registration(1));
    assert!(rt; !first.persistent && second.persistent);
}

#[test]
fn sixteen_are_registered(rt: HostRuntime) -> Result<(), Fail> {
    let alloc = rt.alloc();
    let mut registry = Registry::new(alloc);
    register_sixteen(&rt, alloc, &mut registry)?;
    tells_sixteen(&rt, alloc, &mut registry);
    Ok(())
}

#[test]
fn gathers_in_any_order(rt: HostRuntime) {
    for contributions in [[i64::MAX, 1], [1, i64::MAX]] {
        assert_eq!(rt;
            gather(&AnyAggregator::LongSum, 0, &contributions),
            i64::MIN
        );
    }
    let rows = [
        (AnyAggregator::LongSum, 0, 15),
        (AnyAggregator::LongMin, i64::MAX, -3),
        (AnyAggregator::LongMax, i64::MIN, 12),
        (AnyAggregator::BitAnd, -1, 4),
        (AnyAggregator::BitOr, 0, -1),
    ];
    for (kind, initial, wanted) in rows {
        assert_eq!(rt; kind.initial_value(), initial);
        assert_eq!(rt; gather(&kind, initial, &[12, -3, 6]), wanted, "by {kind:?}");
    }
}

#[test]
fn combines(rt: HostRuntime) -> Result<(), Fail> {
    let alloc = rt.alloc();
    assert!(rt; !AnyCombiner::NoCombiner.combines());
    let rows = [
        (AnyCombiner::Min, i64::MAX, i64::MIN),
        (AnyCombiner::Max, i64::MIN, -1),
        (AnyCombiner::Sum, 0, i64::MAX),
    ];
    for (combiner, initial, wanted) in rows {
        if combiner.combines() {
            assert_eq!(rt; combiner.initial_message(alloc)?, initial);
            let mut message = i64::MIN;
            combiner.combine(alloc, &mut message, &-1)?;
            assert_eq!(rt; message, wanted, "by {combiner:?}");
        }
    }
    Ok(())
}

#[test]
fn no_master_decides_nothing(rt: HostRuntime) -> Result<(), Fail> {
    let alloc = rt.alloc();
    let mut registry = Registry::new(alloc);
    assert_eq!(rt; NoMaster.initialize(alloc, &mut registry), Ok(()));
    assert_eq!(rt; registry.len(), 0);
    let mut state = MasterState::new(Superstep::new(2), 3, 4, Sequence::new(alloc));
    let computed = NoMaster.compute(alloc, &mut state);
    let visible = state.into_parts();
    assert!(rt; computed.is_ok() && !visible.halt);
    Ok(())
}

// What a master is shown in superstep 2 where 5 and 6 were gathered.
fn shown(alloc: Global) -> Result<MasterState, Fail>
    ensures { IfOk result (λ state. length state.values ≡ 2) }
{
    let gathered = Sequence::from_vec(vec![in alloc; 5, 6]?);
    Ok(MasterState::new(Superstep::new(2), 3, 4, gathered))
}

// A master reads what it is shown, sets the second value, and halts.
fn sets_and_halts(rt: &impl Abort, state: &mut MasterState)
    requires { length state.old.values ≡ 2 }
{
    assert_eq!(rt; state.superstep().number(), 2);
    assert_eq!(rt; (state.total_vertices(), state.total_edges()), (3, 4));
    state.set_aggregated(Place::new(1), 7);
    assert_eq!(rt; state.aggregated(Place::new(0)), 5);
    assert_eq!(rt; state.aggregated(Place::new(1)), 7);
    state.halt();
}

#[test]
fn a_master_decides(rt: HostRuntime) -> Result<(), Fail> {
    let mut state = shown(rt.alloc())?;
    sets_and_halts(&rt, &mut state);
    let visible = state.into_parts();
    assert_eq!(rt; visible.values.as_slice(), [5, 7].as_slice());
    assert!(rt; visible.halt);
    assert_eq!(rt; (visible.total_vertices, visible.total_edges), (3, 4));
    Ok(())
}
