//! A round with workers: the feeder beside them, each in a thread of its own.

ghost use Rattle.std.specs.Prelude.{◌≡◌, ◌<◌, ◌≤◌, IfOk, OnErr, true};
ghost use Rattle.std.specs.Thread.{IsSync};
ghost use Rattle.league_core.specs.game.Seasons.{season_after};
ghost use Rattle.league_core.specs.game.Sheets.{IsWithinLimits};
ghost use Rattle.branch_pool.specs.inside.States.{out_count};
ghost use Rattle.fixture_sheet.specs.LastReads.{ReadsOnWay};
ghost use Rattle.result_log.specs.inside.LastReads.{GivesEvents, StopsAtClose};
ghost use Rattle.result_log.specs.inside.Rounds.{BreaksOff, EndsRound, live_entry, spot_of};
ghost use Rattle.plain_rounds.specs.inside.Feeding.{FeedsRound, IsSeasonReported};
ghost use Rattle.plain_rounds.specs.inside.Rounds.{close_of};
ghost use Rattle.worker_gate.specs.inside.Starts.{IsJobOf, IsStartReady};
ghost use Rattle.worker_gate.specs.inside.Workers.{IsCrewFor};

use crate::crew::Crew;
use crate::feeder::feed;
use crate::feeder_state::FeederState;
use crate::gate::Gate;
use crate::slots::{WorkerSlot, run_all, worker_slots};
use crate::start::Start;
use branch_pool::Pool;
use league_core::{OutOfMemory, Sheet};
use plain_rounds::{Round, RoundEnd};
use pool_lock::{Front, Job, PoolLock, WorkBadge};
use port_core::{LineReader, Source};
use std::alloc::Global;
use std::marker::Brand;
use std::sync::Wait;
use std::thread::{Threads, join_mut};

/// Reads the feed on to the next ask, its end or a stop, and tells the pool each event as it comes.
///
/// The sheet is the pool's. The events are read after those of the pool's log. If there is no
/// memory to tell an event, or to begin, the pool is gone.
pub fn run_round<R: Threads + Wait + Sync, S: Source + Send, G: Gate + Sync>(
    rt: &R,
    alloc: Global,
    sheet: &Sheet,
    pool: Pool,
    reader: &mut LineReader,
    source: &mut S,
    workers: u8,
    gate: &G,
) -> Result<Round, OutOfMemory>
    requires of_pool { sheet.now ≡ pool.sheet }
    requires home { out_count pool.loans ≡ 0 }
    requires some { 0 < workers }
    requires few { workers ≤ 8 }
    ensures sheet { IfOk result (λ round. round.pool.sheet ≡ pool.sheet) }
    ensures questions { IfOk result (λ round. round.pool.questions ≡ pool.questions) }
    ensures season { IfOk result (λ round.
        round.pool.season ≡ season_after round.pool.sheet round.pool.log) }
    ensures home { IfOk result (λ round. out_count round.pool.loans ≡ 0) }

    // The log afterwards is the log before and the events that the lines passed tell.
    ensures ends { IfOk result (λ round. EndsRound (live_entry pool.sheet) pool.log round.pool.log
        (spot_of reader.old (S.left source.old) (S.ended source.old) (S.faults source.old))
        (spot_of reader.new (S.left source.new) (S.ended source.new) (S.faults source.new))
        (close_of round.end)) }
    ensures err { OnErr result (BreaksOff (live_entry pool.sheet) pool.log
        (spot_of reader.old (S.left source.old) (S.ended source.old) (S.faults source.old))
        (spot_of reader.new (S.left source.new) (S.ended source.new) (S.faults source.new))) }

    // Reading stops at the read that completes what ends the round.
    ensures last { IfOk result (λ round. StopsAtClose S.left S.reads (live_entry pool.sheet)
        pool.log reader.old reader.new source.old source.new (close_of round.end)) }
    ensures err_last { OnErr result (ReadsOnWay S.left S.reads (GivesEvents (live_entry pool.sheet)
        pool.log) reader.old reader.new source.old source.new) }
{
    let start = Start::new(alloc, sheet, pool, workers)?;
    run_round_in::<Brand, _, _, _>(rt, alloc, start, reader, source, gate)
}

// A round behind a lock, for the job that the caller picks: the feeder reads while the workers
// work. All threads have ended afterwards.
fn run_round_in<J: Job + Send + Sync, R: Threads + Wait + Sync, S: Source + Send, G: Gate + Sync>(
    rt: &R,
    alloc: Global,
    start: Start,
    reader: &mut LineReader,
    source: &mut S,
    gate: &G,
) -> Result<Round, OutOfMemory>
    requires ready { IsStartReady start }
    requires of_pool { start.sheet.now ≡ start.pool.sheet }
    requires word { start.word ≡ J.table }
    requires job { IsJobOf J.name J.parts J.sheet J.questions start }
    ensures sheet { IfOk result (λ round. round.pool.sheet ≡ start.entry.pool.sheet) }
    ensures questions { IfOk result (λ round. round.pool.questions ≡ start.entry.pool.questions) }
    ensures season { IfOk result (λ round.
        round.pool.season ≡ season_after round.pool.sheet round.pool.log) }
    ensures home { IfOk result (λ round. out_count round.pool.loans ≡ 0) }
    ensures ends { IfOk result (λ round. EndsRound (live_entry start.entry.pool.sheet)
        start.entry.pool.log round.pool.log
        (spot_of reader.old (S.left source.old) (S.ended source.old) (S.faults source.old))
        (spot_of reader.new (S.left source.new) (S.ended source.new) (S.faults source.new))
        (close_of round.end)) }
    ensures err { OnErr result (BreaksOff (live_entry start.entry.pool.sheet) start.entry.pool.log
        (spot_of reader.old (S.left source.old) (S.ended source.old) (S.faults source.old))
        (spot_of reader.new (S.left source.new) (S.ended source.new) (S.faults source.new))) }
    ensures last { IfOk result (λ round. StopsAtClose S.left S.reads
        (live_entry start.entry.pool.sheet) start.entry.pool.log reader.old reader.new source.old
        source.new (close_of round.end)) }
    ensures err_last { OnErr result (ReadsOnWay S.left S.reads
        (GivesEvents (live_entry start.entry.pool.sheet) start.entry.pool.log) reader.old reader.new
        source.old source.new) }
{
    let sheet = start.sheet;
    let (lock, feeder, slots) = begin::<J>(alloc, start)?;
    let mut feeder = feeder;
    let crew = Crew::new(rt, alloc, sheet, &lock, gate);
    let end = feed_beside_workers(&crew, &mut feeder, slots, reader, source)?;
    let pool = feeder.close(lock);
    // A look at the log recalls that the season is the one of these events.
    let _log = pool.log();
    Ok(Round { pool, end })
}

// The lock round the pool, the feeder's state, and the slots of the workers.
fn begin<J: Job>(
    alloc: Global,
    start: Start,
) -> Result<(PoolLock<J>, FeederState<J>, Vec<WorkerSlot<J>>), OutOfMemory>
    requires ready { IsStartReady start }
    requires word { start.word ≡ J.table }
    requires job { IsJobOf J.name J.parts J.sheet J.questions start }
    ensures front { IfOk result (λ begun. begun.1.front ≡ start.entry.pool.log) }
    ensures reported { IfOk result (λ begun.
        IsSeasonReported J.sheet begun.1.front begun.1.season begun.1.events) }
    ensures limits { IfOk result (λ begun. IsWithinLimits start.entry.pool.sheet) }
{
    let season = start.pool.season().copy(alloc)?;
    let events = start.pool.log().len() as u64;
    let (lock, front, badges) = lock_of::<J>(alloc, start)?;
    let feeder = FeederState {
        front,
        season,
        events,
        is_shut: false,
    };
    let slots = worker_slots(alloc, badges)?;
    Ok((lock, feeder, slots))
}

// The lock round the pool, its front, and a badge for each worker.
fn lock_of<J: Job>(
    alloc: Global,
    start: Start,
) -> Result<(PoolLock<J>, Front<J>, Vec<WorkBadge<J>>), OutOfMemory>
    requires ready { IsStartReady start }
    requires word { start.word ≡ J.table }
    requires job { IsJobOf J.name J.parts J.sheet J.questions start }
    ensures front { IfOk result (λ made. made.1 ≡ start.entry.pool.log) }
{
    let Start {
        sheet: _,
        pool,
        word,
        owner,
        front,
        eyes,
        blank,
    } = start;
    PoolLock::new(alloc, blank, word, owner, front, eyes, pool)
}

// The feeder reads beside the workers, and before them if no thread can be made: they wait for it.
// All threads have ended afterwards.
fn feed_beside_workers<
    J: Job + Send + Sync,
    R: Threads + Wait + Sync,
    S: Source + Send,
    G: Gate + Sync,
>(
    crew: &Crew<J, R, G>,
    feeder: &mut FeederState<J>,
    slots: Vec<WorkerSlot<J>>,
    reader: &mut LineReader,
    source: &mut S,
) -> Result<RoundEnd, OutOfMemory>
    requires crew { IsCrewFor J.sheet crew.now.sheet.now }
    requires reported { IsSeasonReported J.sheet feeder.old.front feeder.old.season
        feeder.old.events }
    ensures feeds { FeedsRound S.left S.ended S.faults S.reads (live_entry J.sheet)
        feeder.old.front feeder.new.front reader.old reader.new source.old source.new result }
    ensures shut { feeder.new.is_shut ≡ true }
{
    let mut left = Some(slots);
    let ((), end) = join_mut(
        crew.rt,
        &mut move ||
            requires { IsCrewFor J.sheet crew.now.sheet.now × IsSync R.row × IsSync G.row }
        {
            if let Some(mut slots) = left.take() {
                run_all(crew, slots.as_mut_slice());
            }
        },
        &mut move ||
            requires { IsCrewFor J.sheet crew.now.sheet.now × IsSync R.row
                × IsSeasonReported J.sheet feeder.now.front feeder.now.season feeder.now.events }
            ensures { FeedsRound S.left S.ended S.faults S.reads (live_entry J.sheet)
                feeder.entry.now.front feeder.exit.now.front reader.entry.now reader.exit.now
                source.entry.now source.exit.now result × (feeder.exit.now.is_shut ≡ true) }
        { feed(crew, feeder, reader, source) },
    );
    end
}
