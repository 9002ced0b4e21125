//! How checks are printed.
use crate::Check;
use std::fmt;

impl fmt::Display for Check {
    ghost use Rattle.std.specs.Prelude.{Some};
    ghost use Rattle.pg_service.specs.Printed.{check_text};

    ghost output = { λ check. Some (check_text check) };

    fn fmt<W: fmt::Write>(&self, f: &mut fmt::Formatter<W>) -> fmt::Result {
        match *self {
            Check::Stale => write!(f, "check stale"),
            Check::Same(calls) => write!(f, "check same calls {calls}"),
            Check::Different(calls) => write!(f, "check different calls {calls}"),
        }
    }
}
