//! Why a run on workers is refused.
ghost use Rattle.std.specs.Prelude.{◌≡◌};
ghost use Rattle.pg_workers.specs.Refused.{refusal_number};

use crate::Loss;
use pg_checkpoint::ShelfFault;
use pg_graph::Memory;
use thiserror::Error;

/// Why a run on workers was refused.
#[derive(Debug, Drop, Error)]
pub enum RefreshFault {
    /// 1: a growth was refused outside of a worker's steps.
    #[error("out of memory")]
    Memory,
    /// 2: more workers fell than may.
    #[error("too many workers fell")]
    TooManyLosses(Vec<Loss>),
    /// 3: all workers fell.
    #[error("no worker is remaining")]
    NoWorkers(Vec<Loss>),
    /// 4: the shelf's device failed.
    #[error("the shelf's device failed")]
    Device,
}

impl RefreshFault {
    /// The number of the refusal.
    pub fn number(&self) -> u8
        ensures { result ≡ refusal_number self.now }
    {
        match self {
            RefreshFault::Memory => 1,
            RefreshFault::TooManyLosses(_) => 2,
            RefreshFault::NoWorkers(_) => 3,
            RefreshFault::Device => 4,
        }
    }
}

impl From<Memory> for RefreshFault {
    ghost use Rattle.std.specs.Prelude.{◌≡◌};
    ghost use Rattle.pg_workers.specs.declared.fault.RefreshFault.TheVariants.{Memory};

    ghost from_gives = { λ _ fault. fault ≡ Memory };

    fn from(_: Memory) -> RefreshFault {
        RefreshFault::Memory
    }
}

impl From<ShelfFault> for RefreshFault {
    ghost use Rattle.std.specs.Prelude.{◌≡◌};
    ghost use Rattle.pg_workers.specs.Refused.{refusal_by};

    ghost from_gives = { λ shelf fault. fault ≡ refusal_by shelf };

    fn from(fault: ShelfFault) -> RefreshFault {
        match fault {
            ShelfFault::Memory => RefreshFault::Memory,
            ShelfFault::Device => RefreshFault::Device,
        }
    }
}
