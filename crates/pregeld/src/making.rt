//! The service that the options of the command line ask for.
ghost use Rattle.std.specs.Prelude.{◌≡◌, IfOk};
ghost use Rattle.pregeld_args.specs.Arguments.{AreInRange, program_in};
ghost use Rattle.pg_service.specs.Service.{fresh};
ghost use Rattle.pregeld.specs.AskedJob.{job_of_options, limits_in};

use crate::{Limits, ReadyService, Service};
use pg_graph::Memory;
use pg_scratch::RunFault;
use pregeld_args::{Options, program_of};
use pregeld_programs::ReadyMaster;
use std::alloc::{AllocError, Global};
use std::sync::Wait;

/// A service of the job that the options ask for.
pub(crate) fn service_of<H: Wait>(
    rt: &H,
    alloc: Global,
    options: &Options,
) -> Result<ReadyService, Memory>
    requires { AreInRange options.now }
    ensures { IfOk result
        (λ service. service ≡ fresh (job_of_options options.now) service.told.publisher) }
{
    let (limits, combiner) = (limits_of(options), options.combiner);
    let made = Service::new(
        rt,
        alloc,
        limits,
        program_of(options),
        combiner,
        master_of(options),
    );
    match made {
        Ok(service) => Ok(service),
        Err(fault) => Err(memory_of(fault)),
    }
}

/// The master of the program that the options name.
fn master_of(options: &Options) -> ReadyMaster
    ensures { result ≡ record { program = program_in options.now.program options.now } }
{
    ReadyMaster {
        program: program_of(options),
    }
}

/// Out of memory, the only fault that keeps a ready program from being run.
fn memory_of(_fault: RunFault) -> Memory {
    AllocError
}

/// The numbers of its runs.
fn limits_of(options: &Options) -> Limits
    requires { AreInRange options.now }
    ensures { result ≡ limits_in options.now }
{
    let limits = Limits::new(
        options.partitions,
        options.workers,
        options.limit,
        options.every,
        options.losses,
    );
    limits.unwrap().with_missing(options.missing)
}
