//! The history of what was published: a list that only grows, at its end. Its entries stand only
//! in the proofs, and what threads share of it is its length.
ghost use Rattle.std.specs.Prelude.{◌≡◌, ◌<◌, ◌^◌, ◌++◌, ◌∷◌, ◌⊎◌, [], length, MatchBool};
ghost use mathlib.Core.List.{IsPrefix};
ghost use Rattle.pg_publish.specs.History.{GoesFurther};
ghost use Rattle.pg_publish.specs.Steps.{longer};

use logbook::{Gain, Offer, Plain, Play, Rule, Seen, Start, Word};
use std::marker::Model;

/// The rule of the shared word: it is the length of the history.
pub struct Law;

impl<E> Rule<E, u64> for Law {
    ghost use Rattle.std.specs.Prelude.{[]};
    ghost use base.Fml.{ftrue};
    ghost use Rattle.pg_publish.specs.History.{Counts};

    ghost holds = { λ cells log. Counts cells log };

    ghost first = { [] };

    ghost hinted = { λ n log. Unit {0} };

    ghost shows = { λ log. [] };

    ghost keeps = { λ names log. ftrue };

    ghost moves = { λ ask before after answer. Unit {0} };
}

/// A step trades nothing.
struct Nothing;

impl<E> Gain<E, u64> for Nothing {
    ghost use base.Fml.{ftrue};

    ghost after = { λ names about answer. ftrue };
}

/// The step that adds an entry.
struct Add;

impl<E> Play<E, u64> for Add {
    ghost use Rattle.pg_publish.specs.History.{Lengthens};

    ghost then = { λ s v found w. Lengthens s v found w };
}

/// What the step asks for: the entry.
impl<E> Plain<E, E, u64> for Add {
    ghost use Rattle.std.specs.Prelude.{None};

    ghost ask = { λ entry. entry };

    ghost state = { λ entry. None };
}

/// The right to add to a history. A contract sees which history it is.
#[derive(Drop)]
pub struct HistoryHead<E> {
    word: Word<E, u64, Law>,
}

impl<E> Model for HistoryHead<E> {
    ghost use Rattle.std.specs.Prelude.{◌≡◌};
    ghost use Rattle.logbook.specs.Pages.{Book};
    ghost use Rattle.pg_publish.specs.History.{head_of};

    ghost Value = { Book };

    ghost view = { λ h. h.word.book };

    ghost invariant = { λ h. h.word ≡ head_of h.word.book };
}

/// A beginning of a history that was seen. A contract sees which history, and the entries.
#[derive(Drop)]
pub struct HistoryPrefix<E> {
    count: u64,
    seen: Seen<E, u64, Law>,
}

impl<E> Model for HistoryPrefix<E> {
    ghost use Rattle.std.specs.Prelude.{◌≡◌, length};
    ghost use Rattle.pg_publish.specs.History.{Beginning};

    ghost Value = { Beginning E };

    ghost view = { λ f. record { publisher = f.seen.book; list = f.seen.log } };

    ghost invariant = { λ f. f.count ≡ length f.seen.log };
}

/// A new history with no entry.
pub(crate) fn open<E>() -> (HistoryHead<E>, HistoryPrefix<E>)
    ensures empty { result.1.list ≡ [] }
    ensures own { result.0 ≡ result.1.publisher }
{
    let (seen, mut first, _second) = Seen::open(Start::alone(), 0, 0);
    let word = Word::tracked(0, &mut first);
    (HistoryHead { word }, HistoryPrefix { count: 0, seen })
}

impl<E> HistoryPrefix<E> {
    /// How many entries it has.
    pub(crate) fn len(&self) -> u64
        ensures { result ≡ length self.now.list }
    {
        self.count
    }

    /// A copy.
    pub fn again(&self) -> HistoryPrefix<E>
        ensures { result ≡ self.now }
    {
        HistoryPrefix {
            count: self.count,
            seen: self.seen.again(),
        }
    }

    /// Whether another beginning of the same history begins with this one. If not, it is the other
    /// way round.
    pub(crate) fn begins(&self, other: &HistoryPrefix<E>) -> bool
        requires { other.now.publisher ≡ self.now.publisher }
        ensures { MatchBool result
            (IsPrefix self.now.list other.now.list)
            (GoesFurther other.now.list self.now.list) }
    {
        let mut both = self.seen.again();
        both.learn(&other.seen);
        self.count <= other.count
    }

    /// The longer of two beginnings of the same history.
    pub(crate) fn longer(self, other: HistoryPrefix<E>) -> HistoryPrefix<E>
        requires { other.publisher ≡ self.publisher }
        ensures one { (result ≡ self) ⊎ (result ≡ other) }
        ensures both { IsPrefix self.list result.list × IsPrefix other.list result.list }
        ensures longer { result.list ≡ longer self.list other.list }
    {
        if self.begins(&other) { other } else { self }
    }

    /// Adds an entry to a history of which all was seen, and says whether it did. It did not where
    /// the history had gone on.
    pub(crate) fn add(&mut self, head: &HistoryHead<E>, entry: &E) -> bool
        requires own { head.now ≡ self.old.publisher }
        requires room { length self.old.list < 2 ^ 62 }
        ensures publisher { self.new.publisher ≡ self.old.publisher }
        ensures list { MatchBool result
            (self.new.list ≡ self.old.list ++ entry.now ∷ [])
            (self.new.list ≡ self.old.list) }
    {
        let mut seen = self.seen.again();
        let mut offer: Offer<E, u64, Law, Nothing> = seen.plain::<Nothing, E, Add>(entry);
        let mut pen = seen.no_pen();
        let count = self.count;
        let found = head
            .word
            .compare_exchange::<Add, Nothing>(count, count + 1, &mut seen, &mut offer, &mut pen);
        if found != count {
            return false;
        }
        self.seen = seen;
        self.count = count + 1;
        true
    }
}
