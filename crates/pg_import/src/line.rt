//! The edges that a list has, and the faults of a list.
ghost use Rattle.std.specs.Prelude.{◌≡◌};

use pg_graph::VertexId;
use thiserror::Error;

/// An edge of a list.
#[derive(Clone, Copy, Debug, PartialEq, Eq)]
pub struct Line {
    pub source: VertexId,
    pub target: VertexId,
    pub weight: i64,
}

/// Why a list was refused. Its number is that of the answer `import refused`.
#[derive(Clone, Copy, Debug, PartialEq, Eq)]
pub enum ImportKind {
    /// 1: a growth was refused.
    Memory,
    /// 2: an id or a weight isn't a number.
    NotNumber,
    /// 3: an id is above 2^63 - 1, or a weight outside of `i64`.
    OutOfRange,
    /// 4: a line has fewer than two fields, or more than three.
    FieldCount,
}

impl ImportKind {
    ghost use Rattle.pg_import.specs.ImportKind.{number_of};

    /// The number of the kind, from 1 to 4.
    pub fn number(self) -> u8
        ensures { result ≡ number_of self }
    {
        match self {
            ImportKind::Memory => 1,
            ImportKind::NotNumber => 2,
            ImportKind::OutOfRange => 3,
            ImportKind::FieldCount => 4,
        }
    }
}

/// The first faulty line of a list, counted from 1, and what is wrong with it. The line is 0 where a
/// growth was refused.
#[derive(Clone, Copy, Debug, PartialEq, Eq, Error)]
#[error("line {line} is refused: {kind:?}")]
pub struct ImportFault {
    pub line: u64,
    pub kind: ImportKind,
}

impl ImportFault {
    /// The fault where a growth was refused.
    pub const NO_MEMORY: ImportFault = ImportFault {
        line: 0,
        kind: ImportKind::Memory,
    };
}
