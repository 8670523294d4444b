//! The source as the feeder reads it: before it may wait for input, the workers go on.

ghost use Rattle.std.specs.Prelude.{◌≡◌, IfOk, false};
ghost use Rattle.result_log.specs.Records.{IsEntryAt};
ghost use Rattle.result_log.specs.inside.Rounds.{live_entry};
ghost use Rattle.plain_rounds.specs.inside.Feeding.{IsSeasonReported, ReadsNext};
ghost use Rattle.worker_gate.specs.inside.Workers.{IsCrewFor};

use crate::crew::Crew;
use crate::feeder_state::FeederState;
use pool_lock::{Front, Job, PoolLock};
use port_core::{Got, LineReader, Source};
use result_log::{Entry, FeedStop, next_entry};
use std::marker::{Brand, PhantomData};
use std::sync::Wait;

/// Names a borrow, so that a type can say that it holds that one and no other.
pub trait Borrowed {
    ghost use Rattle.std.specs.Borrow.{GName};

    ghost name: { GName };
}

impl Borrowed for Brand {
    ghost name = { 0 };
}

/// A source that tells the lock before each read that nothing is in hand: the reader reads only if
/// it has no whole line. It holds the borrow of that name.
#[derive(Drop)]
struct IdleNotifyingSource<'a, 's, B: Borrowed, J: Job, R: Wait, S: Source> {
    rt: &'a R,
    lock: &'a PoolLock<J>,
    front: &'a Front<J>,
    source: &'s mut S,
    of: PhantomData<B>,
    ghost same: { source.ghost_name ≡ B.name },
}

impl<B: Borrowed, J: Job, R: Wait, S: Source> Source for IdleNotifyingSource<'_, '_, B, J, R, S> {
    ghost left = { λ idle. S.left idle.source.now };

    ghost faults = { λ idle. S.faults idle.source.now };

    ghost reads = { λ old bytes new. S.reads old.source.now bytes new.source.now };

    ghost ended = { λ idle. S.ended idle.source.now };

    fn read(&mut self, into: &mut [u8]) -> Got {
        self.lock.feeder_idle(self.rt, self.front);
        self.source.read(into)
    }
}

/// The next entry after those that were reported. If it has to be waited for, the workers go on
/// meanwhile.
pub fn await_next<J: Job, R: Wait, S: Source, G>(
    crew: &Crew<J, R, G>,
    feeder: &FeederState<J>,
    reader: &mut LineReader,
    source: &mut S,
) -> Result<Entry, FeedStop>
    requires crew { IsCrewFor J.sheet crew.now.sheet.now }
    requires reported { IsSeasonReported J.sheet feeder.now.front feeder.now.season
        feeder.now.events }
    ensures may_come { IfOk result (λ entry.
        IsEntryAt feeder.now.season feeder.now.events false entry) }
    ensures next { ReadsNext S.left S.ended S.faults S.reads (live_entry J.sheet feeder.now.front)
        reader.old reader.new source.old source.new result }
{
    let (next, _) = next_as::<Brand, J, R, S, G>(crew, feeder, reader, source);
    next
}

// The same with a name for the borrow of the source: so the type of what reads can say that it
// holds this borrow, which comes back with the entry.
fn next_as<'a, 's, B: Borrowed, J: Job, R: Wait, S: Source, G>(
    crew: &'a Crew<'a, J, R, G>,
    feeder: &'a FeederState<J>,
    reader: &mut LineReader,
    source: &'s mut S,
) -> (Result<Entry, FeedStop>, &'s mut S)
    requires name { source.ghost_name ≡ B.name }
    requires crew { IsCrewFor J.sheet crew.now.sheet.now }
    requires reported { IsSeasonReported J.sheet feeder.now.front feeder.now.season
        feeder.now.events }
    ensures same { result.1.ghost_name ≡ source.entry.ghost_name }
    ensures may_come { IfOk result.0 (λ entry.
        IsEntryAt feeder.now.season feeder.now.events false entry) }
    ensures next { ReadsNext S.left S.ended S.faults S.reads (live_entry J.sheet feeder.now.front)
        reader.old reader.new source.old result.1.now result.0 }
{
    let mut idle = IdleNotifyingSource::<'a, 's, B, J, R, S> {
        rt: crew.rt,
        lock: crew.lock,
        front: &feeder.front,
        source,
        of: PhantomData,
    };
    let (season, events) = (&feeder.season, feeder.events);
    let next = next_entry(
        crew.alloc, crew.sheet, season, events, false, reader, &mut idle,
    );
    let IdleNotifyingSource { source, .. } = idle;
    (next, source)
}
