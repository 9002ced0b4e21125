//! What a run tells of the workers that fell, and of a refusal.
use pg_graph::Memory;
use pg_workers::{Cause, Loss, RefreshFault};
use std::fmt::Write;

/// A worker that fell, the superstep in which it did, and why.
pub fn tell_loss(
    text: &mut String,
    worker: u32,
    superstep: u32,
    cause: &str,
) -> Result<(), Memory> {
    write!(text, " ({worker} {superstep} {cause})")
}

/// The workers that fell.
pub fn tell_losses(text: &mut String, losses: &[Loss]) -> Result<(), Memory> {
    write!(text, " losses")?;
    for loss in losses {
        let cause = match loss.cause {
            Cause::Fate => "fate",
            Cause::Memory => "memory",
        };
        tell_loss(text, loss.worker.number(), loss.superstep.number(), cause)?;
    }
    Ok(())
}

/// The number of a refusal, and the workers that fell where it tells them.
pub fn tell_refusal(text: &mut String, fault: &RefreshFault) -> Result<(), Memory> {
    write!(text, "refused {}", fault.number())?;
    match losses_of(fault) {
        Some(losses) => tell_losses(text, losses),
        None => Ok(()),
    }
}

/// The workers that fell, where a refusal tells them.
pub fn losses_of(fault: &RefreshFault) -> Option<&[Loss]> {
    match fault {
        RefreshFault::TooManyLosses(losses) => Some(losses.as_slice()),
        RefreshFault::NoWorkers(losses) => Some(losses.as_slice()),
        RefreshFault::Memory | RefreshFault::Device => None,
    }
}
