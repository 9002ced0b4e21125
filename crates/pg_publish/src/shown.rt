//! What readers are shown: the last publication, with the history that it ends.
ghost use Rattle.std.specs.Prelude.{◌≡◌, [], Some, IfOk};
ghost use Rattle.std.specs.Arc.{arc_value};
ghost use Rattle.std.specs.Option.{option_copied};
ghost use Rattle.pg_publish.specs.History.{last_of};

use crate::history::HistoryPrefix;
use atomic_table::{Join, Split};
use crossbeam_utils::rule::{Outcome, Protocol};
use left_right::Absorb;
use std::alloc::AllocError;
use std::marker::Model;
use std::sync::Arc;

/// The last entry of a history, shared, with the history so far. A contract sees the history.
#[derive(Drop)]
pub struct Shown<E: Drop> {
    last: Option<Arc<E>>,
    front: HistoryPrefix<E>,
}

impl<E: Drop> Model for Shown<E> {
    ghost use Rattle.std.specs.Prelude.{◌≡◌};
    ghost use Rattle.std.specs.Arc.{arc_value};
    ghost use Rattle.std.specs.Option.{option_map};
    ghost use Rattle.pg_publish.specs.History.{Beginning, last_of};

    ghost Value = { Beginning E };

    ghost view = { λ s. s.front };

    ghost invariant = { λ s. last_of s.front.list ≡ option_map arc_value s.last };
}

impl<E: Drop> Shown<E> {
    /// A history with no entry.
    pub fn nothing(front: HistoryPrefix<E>) -> Shown<E>
        requires { front.list ≡ [] }
        ensures { result ≡ front }
    {
        Shown { last: None, front }
    }

    /// A history that ends with this entry.
    pub fn new(front: HistoryPrefix<E>, last: Arc<E>) -> Shown<E>
        requires { last_of front.list ≡ Some (arc_value last) }
        ensures { result ≡ front }
    {
        Shown {
            last: Some(last),
            front,
        }
    }

    /// A copy that shares the entry. `Err` where the entry has too many owners.
    pub fn again(&self) -> Result<Shown<E>, AllocError>
        ensures { IfOk result (λ s. s ≡ self.now) }
    {
        let front = self.front.again();
        match &self.last {
            None => Ok(Shown { last: None, front }),
            Some(last) => Ok(Shown {
                last: Some(Arc::try_clone(last)?),
                front,
            }),
        }
    }

    /// The last entry.
    pub fn last(&self) -> Option<&E>
        ensures { option_copied result ≡ last_of self.now.list }
    {
        match &self.last {
            None => None,
            Some(last) => Some(&**last),
        }
    }

    /// The history.
    pub fn front(&self) -> &HistoryPrefix<E>
        ensures { result.now ≡ self.now }
    {
        &self.front
    }
}

/// A copy takes in what is to be shown next. The entry is shared, never copied.
impl<E: Drop> Absorb<Shown<E>> for Shown<E> {
    type State = HistoryPrefix<E>;

    ghost state = { λ s. s };

    ghost applied = { λ s next. next };

    fn absorb_first(&mut self, operation: &Shown<E>, _other: &Shown<E>) -> Result<(), AllocError> {
        *self = operation.again()?;
        Ok(())
    }

    fn absorb_second(&mut self, operation: Shown<E>, _other: &Shown<E>) -> Result<(), Shown<E>> {
        *self = operation;
        Ok(())
    }
}

/// Which history a seat knows, if any. No value of it is made.
pub struct KnownPrefix {
    pub named: bool,
    pub number: u64,
    pub log_name: u64,
    pub cells_name: u64,
}

/// The rule of the seats: all that know a history know the one that is shown.
pub struct OneHistory;

impl<E: Drop> Protocol<Shown<E>, KnownPrefix> for OneHistory {
    ghost use Rattle.pg_publish.specs.Views.{AllName, nameless};

    ghost holds = { λ shown knowns. AllName shown.publisher knowns };

    ghost first = { nameless };
}

/// A step finds out which history is shown.
pub struct Finding;

impl<E: Drop> Outcome<Shown<E>, KnownPrefix> for Finding {
    ghost use Rattle.pg_publish.specs.Views.{Finds};

    ghost then = { λ before found shown after. Finds before shown.publisher after };
}

/// The publisher hands on which history it is, and goes on knowing it.
pub struct Naming;

impl Split<KnownPrefix> for Naming {
    ghost left = { λ known. known };

    ghost right = { λ known. known };
}

impl Join<KnownPrefix> for Naming {
    ghost use Rattle.pg_publish.specs.Views.{nameless};

    ghost both = { λ known told. told };

    ghost spent = { nameless };
}
