//! The publisher: the one that adds to a history and shows readers its last entry.
ghost use Rattle.std.specs.Prelude.{◌≡◌, ◌+◌, ◌<◌, ◌++◌, ◌∷◌, [], drop};
ghost use Rattle.std.specs.Prelude.{MatchOption, MatchResult, IfOk};
ghost use Rattle.std.specs.Option.{option_copied};
ghost use Rattle.left_right.specs.Sides.{view as known_of};
ghost use Rattle.pg_publish.specs.History.{last_of};
ghost use Rattle.pg_publish.specs.Sender.{Shows, told_of};
ghost use Rattle.pg_publish.specs.Steps.{with_next};

use crate::history::{HistoryHead, HistoryPrefix, open};
use crate::receiver::Receiver;
use crate::shown::{Finding, KnownPrefix, Naming, OneHistory, Shown};
use core::mem::replace_with;
use left_right::Absorb;
use left_right::writer::Writer;
use std::alloc::{AllocError, Global};
use std::marker::Model;
use std::sync::{Arc, Wait};

/// How many readers may be made.
pub const READERS: usize = 8;

/// No history gets longer.
const MOST_ENTRIES: u64 = 1 << 61;

type ShownWriter<E> = Writer<Shown<E>, Shown<E>, KnownPrefix, OneHistory>;

/// The publisher of a history. A contract sees which history, its entries, and how many readers
/// were made. It is not `Drop`: end it by `close`.
pub struct Sender<E: Drop>
where
    Shown<E>: Absorb<Shown<E>, State = HistoryPrefix<E>>,
{
    writer: Writer<Shown<E>, Shown<E>, KnownPrefix, OneHistory>,
    head: HistoryHead<E>,
    front: HistoryPrefix<E>,
    alloc: Global,
    readers: usize,
}

impl<E: Drop> Model for Sender<E>
where
    Shown<E>: Absorb<Shown<E>, State = HistoryPrefix<E>>,
{
    ghost use Rattle.std.specs.Prelude.{◌≡◌, ◌≤◌, drop};
    ghost use Rattle.left_right.specs.Sides.{view as known_of};
    ghost use Rattle.pg_publish.specs.Sender.{Publishing, Shows};

    ghost Value = { Publishing E };

    ghost view = { λ s. record {
      publisher = s.front.publisher;
      list = s.front.list;
      readers = s.readers;
    } };

    ghost invariant = { λ s. (s.head ≡ s.front.publisher) × (s.readers ≤ 8)
        × Shows s.front s.writer.desk.shown.value
        (drop s.writer.behind s.writer.log.items) (known_of s.writer.desk.place) };
}

/// Puts what is to be shown next into the writer's log. It is tried until it takes: the log has
/// room for it from `Sender::new` on, so that it takes at once.
fn log_next<E: Drop, R: Wait>(rt: &R, writer: ShownWriter<E>, next: Shown<E>) -> ShownWriter<E>
    requires { drop writer.behind writer.log.items ≡ [] }
    ensures desk { result.desk ≡ writer.desk }
    ensures pending { drop result.behind result.log.items ≡ next ∷ [] }
{
    let mut writer = writer;
    let mut next = next;
    for _ in rt.forever() {
        match writer.append(next) {
            Ok(()) => return writer,
            Err(back) => next = back,
        }
    }
    unreachable!()
}

/// Shows readers what is in the log. It is tried until it takes, and waits for those that still
/// look at what was shown before the last.
fn show_next<E: Drop, R: Wait>(
    rt: &R,
    writer: ShownWriter<E>,
    next: &HistoryPrefix<E>,
) -> ShownWriter<E>
    requires pending { drop writer.behind writer.log.items ≡ next.now ∷ [] }
    requires own { next.now.publisher ≡ writer.desk.shown.value.publisher }
    ensures { Shows next.now result.desk.shown.value
        (drop result.behind result.log.items) (known_of result.desk.place) }
{
    let mut writer = writer;
    for _ in rt.forever() {
        let (after, shown) = writer.publish_as::<Finding, R>(rt);
        writer = after;
        if shown.is_ok() {
            return writer;
        }
    }
    unreachable!()
}

/// Shows readers what comes next.
fn show<E: Drop, R: Wait>(rt: &R, writer: ShownWriter<E>, next: Shown<E>) -> ShownWriter<E>
    requires pending { drop writer.behind writer.log.items ≡ [] }
    requires own { next.publisher ≡ writer.desk.shown.value.publisher }
    ensures { Shows next result.desk.shown.value
        (drop result.behind result.log.items) (known_of result.desk.place) }
{
    let front = next.front().again();
    show_next(rt, log_next(rt, writer, next), &front)
}

/// Makes room in the log, by showing the history with no entry twice. The log keeps that room.
fn make_room<E: Drop, R: Wait>(
    rt: &R,
    writer: ShownWriter<E>,
    front: &HistoryPrefix<E>,
) -> Result<ShownWriter<E>, AllocError>
    requires empty { front.now.list ≡ [] }
    requires own { front.now.publisher ≡ writer.desk.shown.value.publisher }
    requires pending { drop writer.behind writer.log.items ≡ [] }
    ensures { IfOk result (λ w. Shows front.now w.desk.shown.value
        (drop w.behind w.log.items) (known_of w.desk.place)) }
{
    let mut writer = writer;
    if writer.append(Shown::nothing(front.again())).is_err() {
        writer.take(rt);
        return Err(AllocError);
    }
    let mut writer = show_next(rt, writer, front);
    if writer.append(Shown::nothing(front.again())).is_err() {
        writer.take(rt);
        return Err(AllocError);
    }
    Ok(show_next(rt, writer, front))
}

impl<E: Drop> Sender<E> {
    /// The publisher of a new history, with places for 8 readers. It doesn't wait.
    ///
    /// # Errors
    ///
    /// Want of memory.
    pub fn new<R: Wait>(rt: &R, alloc: Global) -> Result<Sender<E>, AllocError>
        ensures { IfOk result (λ s. (s.list ≡ []) × (s.readers ≡ 0)) }
    {
        let (head, front) = open();
        let first = Shown::nothing(front.again());
        let second = Shown::nothing(front.again());
        let writer = Writer::new(alloc, first, second, READERS)?;
        let writer = make_room(rt, writer, &front)?;
        Ok(Sender {
            writer,
            head,
            front,
            alloc,
            readers: 0,
        })
    }

    /// A reader, who has seen all that is published. None after the eighth, also where one was
    /// dropped.
    pub fn reader(&mut self) -> Option<Receiver<E>>
        ensures made { MatchOption result
            (self.new ≡ self.old)
            (λ r. (self.old.readers < 8)
            × (self.new ≡ record self.old { readers = self.old.readers + 1 })
            × (r ≡ told_of self.old)) }
    {
        if self.readers >= READERS {
            return None;
        }
        let Ok(mut seat) = self.writer.factory().reader() else {
            return None;
        };
        seat.learn::<Naming>(self.writer.tell::<Naming>());
        self.readers += 1;
        Some(Receiver::new(seat, self.tell()))
    }

    /// Adds an entry, and shows it to readers. It waits for those that still look at the entry
    /// before the last. The entry is shared from then on, never copied.
    ///
    /// # Errors
    ///
    /// Want of memory, which stands for a history of 2^61 entries too; what is published stays as
    /// it was.
    pub fn publish<R: Wait>(&mut self, rt: &R, next: E) -> Result<(), AllocError>
        ensures list { MatchResult result
            (λ _. self.new ≡ record self.old { list = with_next self.old.list next })
            (λ _. self.new ≡ self.old) }
    {
        let Ok(next) = Arc::new(self.alloc, next) else {
            return Err(AllocError);
        };
        if self.front.len() >= MOST_ENTRIES || !self.front.add(&self.head, &next) {
            return Err(AllocError);
        }
        let next = Shown::new(self.front.again(), next);
        replace_with(
            &mut self.writer,
            (rt, next),
            |writer, x| (show(x.0, writer, x.1), ()),
        );
        Ok(())
    }

    /// The entry that was published last; none where nothing is published.
    pub fn last(&self) -> Option<&E>
        ensures { option_copied result ≡ last_of self.now.list }
    {
        self.writer.published().last()
    }

    /// What is published so far, for a reader to learn.
    pub fn tell(&self) -> HistoryPrefix<E>
        ensures { result ≡ told_of self.now }
    {
        self.front.again()
    }

    /// Ends the publisher, once no reader looks any more. Readers look no more after that.
    pub fn close<R: Wait>(self, rt: &R) {
        let Sender {
            writer,
            head: _,
            front: _,
            alloc: _,
            readers: _,
        } = self;
        writer.take(rt);
    }
}
