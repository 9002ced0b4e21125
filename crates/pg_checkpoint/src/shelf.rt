//! Where checkpoints stand.
ghost use Rattle.std.specs.Prelude.{◌≡◌, ◌+◌, ◌<◌, ◌^◌, IfOk};
ghost use Rattle.std.specs.Option.{option_map};
ghost use Rattle.pg_checkpoint.specs.Shelf.{ShelfState, IsPut, IsGot, at_key};

use pg_graph::Memory;
use std::alloc::Global;
use thiserror::Error;

/// Why a shelf didn't do what it was asked.
#[derive(Clone, Copy, Debug, PartialEq, Eq, Error)]
pub enum ShelfFault {
    /// 1: a growth was refused.
    #[error("out of memory")]
    Memory,
    /// 4: the device of the shelf failed.
    #[error("the shelf's device failed")]
    Device,
}

impl From<Memory> for ShelfFault {
    ghost use Rattle.pg_checkpoint.specs.declared.shelf.ShelfFault.TheVariants.{Memory};

    ghost from_gives = { λ _ fault. fault ≡ Memory };

    fn from(_: Memory) -> ShelfFault {
        ShelfFault::Memory
    }
}

/// Bytes under keys, on a device that may fail. An honest shelf keeps what it is given, or a beginning of it, or
/// nothing.
pub trait Shelf {
    ghost state: { Self → ShelfState };

    /// How often the device has failed.
    fn failures(&self) -> u64
        ensures { result ≡ (state self.now).failures };

    /// Puts bytes under a key, in place of those that stand there.
    fn put(&mut self, key: &[u8], bytes: &[u8]) -> Result<(), ShelfFault>
        requires counts { (state self.old).failures + 1 < 2 ^ 64 }
        ensures { IsPut key.now bytes.now (state self.old) result (state self.new) };

    /// What stands under a key as the call ends, `None` where nothing does.
    fn get(&mut self, alloc: Global, key: &[u8]) -> Result<Option<Vec<u8>>, ShelfFault>
        requires counts { (state self.old).failures + 1 < 2 ^ 64 }
        ensures got { IsGot (state self.old) result (state self.new) }
        ensures found { IfOk result (λ found. option_map (λ v. v.items) found ≡ at_key (state self.new) key.now) };
}
