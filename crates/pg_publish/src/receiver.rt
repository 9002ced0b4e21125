//! Readers, and what they look at.
ghost use Rattle.std.specs.Prelude.{◌≡◌, ◌⊎◌, MatchResult};
ghost use Rattle.std.specs.Option.{option_copied};
ghost use mathlib.Core.List.{IsPrefix};
ghost use Rattle.left_right.specs.Sides.{view as known_of};
ghost use Rattle.pg_publish.specs.History.{last_of};
ghost use Rattle.pg_publish.specs.Steps.{ShowsOn, longer};
ghost use Rattle.pg_publish.specs.Views.{naming};

use crate::history::HistoryPrefix;
use crate::shown::{Finding, KnownPrefix, OneHistory, Shown};
use left_right::reader::{Reader, Reading};
use std::marker::Model;

/// A reader, with the history that it has seen. A contract sees that.
#[derive(Drop)]
pub struct Receiver<E: Drop> {
    seat: Reader<Shown<E>, KnownPrefix, OneHistory>,
    front: HistoryPrefix<E>,
}

impl<E: Drop> Model for Receiver<E> {
    ghost use Rattle.std.specs.Prelude.{◌≡◌};
    ghost use Rattle.left_right.specs.Sides.{view as known_of};
    ghost use Rattle.pg_publish.specs.History.{Beginning};
    ghost use Rattle.pg_publish.specs.Views.{naming};

    ghost Value = { Beginning E };

    ghost view = { λ r. r.front };

    ghost invariant = { λ r. known_of r.seat.place ≡ naming r.front.publisher };
}

/// What a reader looks at. It stays the same until the reader leaves, or it is dropped. A contract
/// sees the history that ends with it. While it is kept, the publisher waits before it shows a
/// second entry after it.
pub struct ViewGuard<E: Drop> {
    reading: Reading<Shown<E>, KnownPrefix, OneHistory>,
    front: HistoryPrefix<E>,
}

impl<E: Drop> Model for ViewGuard<E> {
    ghost use Rattle.std.specs.Prelude.{◌≡◌};
    ghost use Rattle.left_right.specs.Sides.{view as known_of};
    ghost use Rattle.pg_publish.specs.History.{Beginning};
    ghost use Rattle.pg_publish.specs.Views.{naming};

    ghost Value = { Beginning E };

    ghost view = { λ s. s.front };

    ghost invariant = { λ s. (known_of s.reading.place ≡ naming s.front.publisher)
        × (s.reading.part.value ≡ s.front) };
}

impl<E: Drop> Drop for ViewGuard<E> {
    fn drop(self) {
        let ViewGuard { reading, front: _ } = self;
        reading.leave();
    }
}

impl<E: Drop> Receiver<E> {
    /// A reader in this seat that has seen this much.
    pub(crate) fn new(
        seat: Reader<Shown<E>, KnownPrefix, OneHistory>,
        front: HistoryPrefix<E>,
    ) -> Receiver<E>
        requires { known_of seat.place ≡ naming front.publisher }
        ensures { result ≡ front }
    {
        Receiver { seat, front }
    }

    /// Looks at what is shown. It never waits and takes no memory. The reader comes back as it
    /// was where the publisher is closed, or where what is shown is less than it was told of.
    pub fn look(self) -> Result<ViewGuard<E>, Receiver<E>>
        ensures { MatchResult result
            (λ sight. (sight.publisher ≡ self.publisher) × ShowsOn self.list sight.list)
            (λ reader. reader ≡ self) }
    {
        let Receiver { seat, front } = self;
        match seat.enter_as::<Finding>() {
            Err(seat) => Err(Receiver { seat, front }),
            Ok(reading) => {
                let shown = reading.get().front().again();
                if front.begins(&shown) {
                    Ok(ViewGuard {
                        reading,
                        front: shown,
                    })
                } else {
                    let seat = reading.leave();
                    Err(Receiver { seat, front })
                }
            }
        }
    }

    /// Takes in what the publisher told: from now on the reader looks at no less.
    pub fn learn(self, told: HistoryPrefix<E>) -> Receiver<E>
        requires { told.publisher ≡ self.publisher }
        ensures one { (result ≡ self) ⊎ (result ≡ told) }
        ensures both { IsPrefix self.list result.list × IsPrefix told.list result.list }
        ensures longer { result.list ≡ longer self.list told.list }
    {
        let Receiver { seat, front } = self;
        let front = front.longer(told);
        Receiver { seat, front }
    }
}

impl<E: Drop> ViewGuard<E> {
    /// The entry that is looked at, which was published last; none where nothing is published.
    pub fn last(&self) -> Option<&E>
        ensures { option_copied result ≡ last_of self.now.list }
    {
        self.reading.get().last()
    }

    /// Ends the look.
    pub fn leave(self) -> Receiver<E>
        ensures { result ≡ self }
    {
        let ViewGuard { reading, front } = self;
        Receiver {
            seat: reading.leave(),
            front,
        }
    }
}
