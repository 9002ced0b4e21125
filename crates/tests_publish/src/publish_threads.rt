//! Publication to readers in other threads.
ghost use Rattle.std.specs.Prelude.{◌≡◌, length};
ghost use Rattle.std.specs.Arc.{arc_value};

use crate::publish::{look_once, one_name, publish};
use pg_global::Registry;
use pg_publish::{AnswerReader, Publisher, Told};
use std::alloc::Global;
use std::marker::{Brand, PhantomData};
use std::process::Abort;
use std::sync::{Arc, Mutex, Wait};
use std::test::Fail;
use std::thread;
use std::thread::{JoinHandle, Threads};

const THREADS: u64 = 8;

const LOOKS: u64 = 10_000;

const EDITIONS: u64 = 1_000;

/// How often a thread asks for news before it gives up.
const TRIES: u64 = 50_000_000;

/// Which publisher it is. Each call picks it.
trait Naming {
    ghost use Rattle.logbook.specs.Pages.{Book};

    ghost book: { Book };
}

impl Naming for Brand {
    ghost book = { record { number = 0; log_name = 0; cells_name = 0 } };
}

/// A reader of this publisher.
#[derive(Drop)]
struct Seat<J: Naming> {
    reader: AnswerReader<i64>,
    of: PhantomData<J>,
    ghost own: { reader.publisher ≡ J.book },
}

/// What this publisher tells.
#[derive(Drop)]
struct News<J: Naming> {
    told: Told<i64>,
    of: PhantomData<J>,
    ghost own: { told.publisher ≡ J.book },
}

/// This publisher, with what it needs to publish.
struct Desk<J: Naming> {
    publisher: Publisher<i64>,
    registry: Arc<Registry>,
    of: PhantomData<J>,
    ghost own: { publisher.publisher ≡ J.book },
    ghost named: { length (arc_value registry) ≡ 1 },
}

/// What the threads have found.
#[derive(Clone, Copy, Debug, Default, PartialEq, Eq)]
struct Tally {
    /// Looks that weren't given, or weren't whole.
    missed: u64,
    /// Looks at an edition below the one before.
    back: u64,
    /// Threads whose last look, after the news, was at the last edition.
    ended: u64,
}

/// What the threads share.
#[derive(Drop)]
struct Board<J: Naming> {
    news: Mutex<Option<News<J>>>,
    found: Mutex<Tally>,
}

impl<J: Naming> Seat<J> {
    /// Looks once. `edition` is the one of the look before, and then of this one.
    fn look(self, edition: &mut Option<u64>, tally: &mut Tally) -> Seat<J> {
        let Seat { reader, of } = self;
        let (shown, reader) = look_once(reader);
        match shown {
            None => tally.missed = tally.missed.wrapping_add(1),
            Some(now) => {
                if now < *edition {
                    tally.back = tally.back.wrapping_add(1);
                }
                *edition = now;
            }
        }
        Seat { reader, of }
    }

    /// Takes in the news.
    fn learn(self, news: &News<J>) -> Seat<J> {
        let Seat { reader, of } = self;
        let reader = reader.learn(news.told.again());
        Seat { reader, of }
    }
}

/// What one thread does: it looks many times, and once more when it has the news.
fn watch<J: Naming, R: Wait>(rt: &R, seat: Seat<J>, board: &Board<J>) {
    let mut seat = seat;
    let mut edition = None;
    let mut tally = Tally::default();
    for _ in 0..LOOKS {
        seat = seat.look(&mut edition, &mut tally);
    }
    let mut seat = await_news(rt, seat, &board.news).look(&mut edition, &mut tally);
    if edition == Some(EDITIONS) {
        tally.ended = 1;
    }
    let mut all = board.found.lock(rt);
    all.missed = all.missed.wrapping_add(tally.missed);
    all.back = all.back.wrapping_add(tally.back);
    all.ended = all.ended.wrapping_add(tally.ended);
}

/// Asks for the news until they are there, so often at most.
fn await_news<J: Naming, R: Wait>(rt: &R, seat: Seat<J>, news: &Mutex<Option<News<J>>>) -> Seat<J> {
    for _ in 0..TRIES {
        if let Some(news) = &*news.lock(rt) {
            return seat.learn(news);
        }
        thread::yield_now();
    }
    seat
}

impl<J: Naming> Desk<J> {
    /// All its readers.
    fn seats(&mut self, rt: &impl Abort, alloc: Global) -> Vec<Seat<J>> {
        let mut seats = Vec::new(alloc);
        for _ in 0..THREADS {
            let reader = self.publisher.reader().expect(rt, "a reader");
            let pushed = seats.push(Seat {
                reader,
                of: PhantomData,
            });
            assert!(rt; pushed.is_ok());
        }
        seats
    }

    /// Publishes the editions, one after another, and tells of them.
    fn publish_all<R: Wait + Abort>(&mut self, rt: &R, alloc: Global) -> News<J> {
        for edition in 1..=EDITIONS {
            let published = publish(rt, alloc, &mut self.publisher, &self.registry, edition);
            assert!(rt; published.is_ok());
        }
        News {
            told: self.publisher.tell(),
            of: PhantomData,
        }
    }
}

/// Starts a thread for each reader.
fn start<J: Naming + Send + Sync + 'static, R>(
    rt: R,
    alloc: Global,
    seats: Vec<Seat<J>>,
    board: &Arc<Board<J>>,
) -> Vec<JoinHandle<()>>
where
    R: Threads + Wait + Abort + Copy + Send + Sync + 'static,
{
    let mut started = Vec::new(alloc);
    for seat in seats {
        let board = Arc::try_clone(board).expect(&rt, "an owner");
        let thread = thread::spawn(&rt, move || watch(&rt, seat, &board));
        let Ok(thread) = thread else {
            panic!(&rt; "a thread");
        };
        assert!(&rt; started.push(thread).is_ok());
    }
    started
}

/// Eight readers look in eight threads while the editions are published.
fn eight_readers<J: Naming + Send + Sync + 'static, R>(
    rt: R,
    alloc: Global,
    publisher: Publisher<i64>,
    registry: Arc<Registry>,
) -> Tally
where
    R: Threads + Wait + Abort + Copy + Send + Sync + 'static,
    requires own { publisher.publisher ≡ J.book }
    requires named { length (arc_value registry) ≡ 1 }
{
    let mut desk: Desk<J> = Desk {
        publisher,
        registry,
        of: PhantomData,
    };
    let news: Mutex<Option<News<J>>> = Mutex::new(None);
    let found = Mutex::new(Tally::default());
    let Ok(board) = Arc::new(alloc, Board { news, found }) else {
        panic!(&rt; "memory");
    };
    let seats = desk.seats(&rt, alloc);
    let started = start(rt, alloc, seats, &board);
    let told = desk.publish_all(&rt, alloc);
    *board.news.lock(&rt) = Some(told);
    for thread in started {
        thread.join(&rt);
    }
    let Desk {
        publisher,
        registry: _,
        of: _,
    } = desk;
    publisher.close(&rt);
    *board.found.lock(&rt)
}

#[test]
fn eight_threads_look(rt: HostRuntime) -> Result<(), Fail> {
    let alloc = rt.alloc();
    let registry = one_name(alloc)?;
    let publisher = Publisher::new(&rt, alloc)?;
    let tally = eight_readers::<Brand, _>(rt, alloc, publisher, registry);
    let all = Tally {
        missed: 0,
        back: 0,
        ended: THREADS,
    };
    assert_eq!(rt; tally, all);
    Ok(())
}
