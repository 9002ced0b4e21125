use pg_model::Sequence;
use std::alloc::Global;
use std::process::Abort;
use std::test::Fail;

// These values in their order.
fn sequence_of(alloc: Global, values: &[i64]) -> Result<Sequence<i64>, Fail> {
    let mut sequence = Sequence::new(alloc);
    for value in values {
        sequence.push(*value)?;
    }
    Ok(sequence)
}

// Takes the values of a list of three away from its end.
fn gives_back(rt: &impl Abort, sequence: &mut Sequence<i64>) {
    assert_eq!(rt; sequence.pop(), Some(9));
    sequence.truncate(1);
    assert_eq!(rt; sequence.as_slice(), [5].as_slice());
    assert_eq!(rt; sequence.pop(), Some(5));
    assert_eq!(rt; sequence.pop(), None);
}

#[test]
fn pushes_and_pops(rt: HostRuntime) -> Result<(), Fail> {
    let mut sequence = sequence_of(rt.alloc(), &[5, 7, 9])?;
    assert_eq!(rt; sequence.as_slice(), [5, 7, 9].as_slice());
    gives_back(&rt, &mut sequence);
    Ok(())
}
