//! The aggregators of a master, and whether a program can run with them.
ghost use Rattle.std.specs.Prelude.{◌≡◌, ◌≤◌, false, [], None, IsSome, IfOk, OnOk, IsErrOf};
ghost use Rattle.std.specs.Arc.{arc_value};
ghost use Rattle.pg_global.specs.Master.{has_places, is_registered};
ghost use Rattle.pg_global.specs.Registry.{first_refusal};
ghost use Rattle.pg_service.specs.Job.{CanRun};

use pg_global::{MasterCompute, RegisterFault, Registry};
use pg_model::Declared;
use pg_program::Computation;
use pg_scratch::RunFault;
use std::alloc::Global;
use std::sync::Arc;

/// The names of the master's aggregators, to be shared by all answers, where they can be registered and each place that
/// the program declares is among them.
pub(crate) fn registry_of<P: Computation, M: MasterCompute>(
    alloc: Global,
    program: &P,
    master: &M,
) -> Result<Arc<Registry>, RunFault>
    ensures ok { OnOk result (CanRun (P.program program.now) (M.master master.now)) }
    ensures names { IfOk result (λ registry. arc_value registry ≡ (M.master master.now).registrations) }
    ensures register { IsErrOf result RunFault.Register
        → IsSome (first_refusal [] (M.master master.now).registrations) }
    ensures unregistered { IsErrOf result RunFault.Unregistered
        → (first_refusal [] (M.master master.now).registrations ≡ None)
        × (is_registered (P.program program.now) (M.master master.now) ≡ false) }
{
    let mut registry = Registry::new(alloc);
    match master.initialize(alloc, &mut registry) {
        Ok(()) => {}
        Err(RegisterFault::Memory) => return Err(RunFault::Memory),
        Err(_) => return Err(RunFault::Register),
    }
    if !are_within(program.declared(), registry.len()) {
        return Err(RunFault::Unregistered);
    }
    match Arc::new(alloc, registry) {
        Ok(registry) => Ok(registry),
        Err(_) => Err(RunFault::Memory),
    }
}

/// Whether no place from `count` on is declared.
fn are_within(declared: Declared, count: usize) -> bool
    requires { count ≤ 16 }
    ensures { result ≡ has_places declared count }
{
    u32::from(declared.reads) >> count == 0 && u32::from(declared.writes) >> count == 0
}
