//! Publication at concrete types.
ghost use Rattle.std.specs.Prelude.{◌≡◌, IfOk, length};
ghost use Rattle.std.specs.Arc.{arc_value};

use pg_global::{AnyAggregator, Ending, Registry, Run};
use pg_graph::{Edition, Memory, VertexId};
use pg_model::Sequence;
use pg_publish::{
    AnswerReader, Answers, Look, Publisher, looks_never_go_back, readers_see_beginnings,
};
use std::alloc::{AllocError, Global};
use std::process::Abort;
use std::sync::{Arc, Wait};
use std::test::Fail;

/// A registry of one aggregator, `sum`.
pub(crate) fn one_name(alloc: Global) -> Result<Arc<Registry>, Memory>
    ensures { IfOk result (λ r. length (arc_value r) ≡ 1) }
{
    let mut registry = Registry::new(alloc);
    match registry.register(alloc, "sum", AnyAggregator::LongSum) {
        Ok(_) => Ok(Arc::new(alloc, registry)?),
        Err(_) => Err(AllocError),
    }
}

/// An answer whose values all tell its edition: at id 1 the edition, at 2 twice, at 5 five times
/// that.
fn answers(alloc: Global, registry: &Arc<Registry>, edition: u64) -> Result<Answers<i64>, Memory>
    requires { length (arc_value registry.now) ≡ 1 }
{
    let (Some(one), Some(two), Some(five)) = (VertexId::new(1), VertexId::new(2), VertexId::new(5))
    else {
        return Err(AllocError);
    };
    let number = edition.cast_signed();
    let values = vec![in alloc;
        (one, number),
        (two, number.wrapping_mul(2)),
        (five, number.wrapping_mul(5)),
    ]?;
    let run = Run {
        values: Sequence::from_vec(values),
        aggregates: Sequence::from_vec(vec![in alloc; number]?),
        ending: Ending::Finished,
        supersteps: 7,
        sent: 0,
        dropped: 0,
    };
    Answers::new(Edition::new(edition), run, registry)
}

/// What a look shows: `None` where it isn't whole, or else the edition, if any.
fn edition_of(look: &Look<i64>) -> Option<Option<u64>> {
    let (Some(one), Some(two), Some(five)) = (VertexId::new(1), VertexId::new(2), VertexId::new(5))
    else {
        return None;
    };
    let values = [look.value(one), look.value(two), look.value(five)];
    let Some(edition) = look.edition() else {
        let nothing = look.aggregate("sum").is_none()
            && look.supersteps().is_none()
            && look.ending().is_none();
        return (nothing && values == [None, None, None]).then_some(None);
    };
    let number = edition.number().cast_signed();
    let whole = values
        == [
            Some(&number),
            Some(&number.wrapping_mul(2)),
            Some(&number.wrapping_mul(5)),
        ]
        && look.aggregate("sum") == Some(number)
        && look.aggregate("other").is_none()
        && look.supersteps() == Some(7)
        && look.ending() == Some(Ending::Finished);
    whole.then_some(Some(edition.number()))
}

/// What a reader looks at, and the reader again: `None` where no look is given or it isn't whole.
pub(crate) fn look_once(reader: AnswerReader<i64>) -> (Option<Option<u64>>, AnswerReader<i64>)
    ensures { result.1.publisher ≡ reader.publisher }
{
    match reader.look() {
        Ok(look) => {
            let shown = edition_of(&look);
            (shown, look.leave())
        }
        Err(reader) => (None, reader),
    }
}

/// Publishes an edition.
pub(crate) fn publish<R: Wait>(
    rt: &R,
    alloc: Global,
    publisher: &mut Publisher<i64>,
    registry: &Arc<Registry>,
    edition: u64,
) -> Result<(), Memory>
    requires { length (arc_value registry.now) ≡ 1 }
    ensures { publisher.new.publisher ≡ publisher.old.publisher }
{
    let next = answers(alloc, registry, edition)?;
    publisher.publish(rt, next)
}

#[test]
fn nothing_is_published(rt: HostRuntime) -> Result<(), Fail> {
    let mut publisher: Publisher<i64> = Publisher::new(&rt, rt.alloc())?;
    for _ in 0..8 {
        let looked = publisher.reader().map(|reader| look_once(reader).0);
        assert_eq!(rt; looked, Some(Some(None)));
    }
    let ninth = publisher.reader().is_none();
    publisher.close(&rt);
    assert!(rt; ninth);
    Ok(())
}

#[test]
fn told_lists_are_learned(rt: HostRuntime) -> Result<(), Fail> {
    let alloc = rt.alloc();
    let registry = one_name(alloc)?;
    let mut publisher = Publisher::new(&rt, alloc)?;
    let reader = publisher.reader().expect(&rt, "a reader");
    publish(&rt, alloc, &mut publisher, &registry, 1).expect(&rt, "memory");
    let first = publisher.tell();
    publish(&rt, alloc, &mut publisher, &registry, 2).expect(&rt, "memory");
    let second = publisher.tell();
    let (shown, reader) = look_once(reader.learn(second));
    assert_eq!(rt; shown, Some(Some(2)));
    let (shown, reader) = look_once(reader.learn(first));
    assert_eq!(rt; shown, Some(Some(2)));
    publisher.close(&rt);
    assert!(rt; reader.look().is_err(), "a publisher that is closed");
    Ok(())
}

#[test]
fn a_kept_look_stays(rt: HostRuntime) -> Result<(), Fail> {
    let alloc = rt.alloc();
    let registry = one_name(alloc)?;
    let mut publisher = Publisher::new(&rt, alloc)?;
    let keeper = publisher.reader().expect(&rt, "a reader");
    let other = publisher.reader().expect(&rt, "a reader");
    publish(&rt, alloc, &mut publisher, &registry, 1).expect(&rt, "memory");
    let Ok(kept) = keeper.look() else {
        panic!(&rt; "a look");
    };
    publish(&rt, alloc, &mut publisher, &registry, 2).expect(&rt, "memory");
    let (shown, _) = look_once(other);
    assert_eq!(rt; shown, Some(Some(2)));
    assert_eq!(rt; edition_of(&kept), Some(Some(1)));
    assert_eq!(rt; look_once(kept.leave()).0, Some(Some(2)));
    publisher.close(&rt);
    Ok(())
}

#[test]
fn refused_publications_leave_what_is_published(rt: HostRuntime) -> Result<(), Fail> {
    let alloc = rt.alloc();
    let registry = match one_name(alloc) {
        Ok(registry) => registry,
        Err(_) => one_name(alloc)?,
    };
    let made = match Publisher::new(&rt, alloc) {
        Ok(publisher) => Ok(publisher),
        Err(_) => Publisher::new(&rt, alloc),
    };
    let mut publisher = made?;
    let mut reader = publisher.reader().expect(&rt, "a reader");
    for edition in 1..=5u64 {
        if publish(&rt, alloc, &mut publisher, &registry, edition).is_err() {
            let (shown, again) = look_once(reader);
            reader = again;
            assert_eq!(rt; shown, Some((edition > 1).then_some(edition - 1)));
            publish(&rt, alloc, &mut publisher, &registry, edition).expect(&rt, "memory");
        }
        let (shown, again) = look_once(reader);
        reader = again;
        assert_eq!(rt; shown, Some(Some(edition)));
    }
    publisher.close(&rt);
    Ok(())
}

/// Whether two answers have the same values, and the first one is of this edition.
fn are_copies(copied: &Answers<i64>, made: &Answers<i64>, edition: u64) -> bool {
    let number = edition.cast_signed();
    copied.edition().number() == edition
        && copied.values() == made.values()
        && copied.aggregate("sum") == Some(number)
        && copied.supersteps() == 7
        && copied.ending() == Ending::Finished
        && copied.run().aggregates.as_slice() == [number].as_slice()
}

#[test]
fn copies_are_equal(rt: HostRuntime) -> Result<(), Fail> {
    let alloc = rt.alloc();
    let made = answers(alloc, &one_name(alloc)?, 3)?;
    let copied = made.copy(alloc)?;
    assert!(rt; are_copies(&copied, &made, 3));
    assert_eq!(rt; copied.values().last().map(|entry| entry.1), Some(15));
    readers_see_beginnings::<i64>();
    looks_never_go_back::<i64>();
    Ok(())
}
