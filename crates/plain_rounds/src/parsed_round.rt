//! A round on one thread, without workers, whatever the records of the feed tell.

ghost use Rattle.std.specs.Prelude.{◌≡◌, ◌≢◌, IfOk, Ok, OnErr, length, true};
ghost use Rattle.league_core.specs.game.Seasons.{season_after};
ghost use Rattle.result_log.specs.Records.{IsEntryAt};
ghost use Rattle.branch_pool.specs.inside.States.{out_count};
ghost use Rattle.fixture_sheet.specs.LastReads.{ReadsOnWay};
ghost use Rattle.result_log.specs.inside.LastReads.{GivesEvents, StopsAtClose};
ghost use Rattle.result_log.specs.inside.Readings.{IsParsedThere, answer_as, live_as};
ghost use Rattle.result_log.specs.inside.Rounds.{BreaksOff, EndsRound, spot_of};
ghost use Rattle.plain_rounds.specs.inside.Feeding.{ReadsNext};
ghost use Rattle.plain_rounds.specs.inside.Reports.{ReportsTo};
ghost use Rattle.plain_rounds.specs.inside.Rounds.{IsNoEvent, close_of};

use crate::round::RoundEnd;
use branch_pool::Pool;
use league_core::OutOfMemory;
use port_core::{LineReader, Source};
use result_log::{Entry, FeedStop, Reading, SeasonSoFar, next_parsed};
use std::alloc::Global;

/// A round that is over: the feed was read up to what is no event, its end or a stop, and told to
/// the pool.
#[derive(Drop)]
pub struct ParsedRound<T> {
    pub pool: Pool,
    /// What was told last, or why nothing was.
    pub last: Result<T, FeedStop>,
}

/// Reads the feed on to what is no event, its end or a stop, and tells the pool each event as it
/// comes. Nothing is worked on.
///
/// The events are read after those of the pool's log. If there is no memory to tell an event, the
/// pool is gone.
pub fn read_parsed<R: Reading, S: Source>(
    alloc: Global,
    reading: &R,
    pool: Pool,
    reader: &mut LineReader,
    source: &mut S,
) -> Result<ParsedRound<R::Parsed>, OutOfMemory>
    ensures sheet { IfOk result (λ round. round.pool.sheet ≡ pool.sheet) }
    ensures questions { IfOk result (λ round. round.pool.questions ≡ pool.questions) }
    ensures season { IfOk result (λ round.
        round.pool.season ≡ season_after round.pool.sheet round.pool.log) }
    ensures home { IfOk result (λ round. out_count round.pool.loans ≡ out_count pool.loans) }
    ensures reported { IfOk result (λ round. ReportsTo pool round.pool) }

    // The log afterwards is the log before and the events that the lines passed tell.
    ensures ends { IfOk result (λ round. EndsRound
        (live_as R.entry (R.tells reading.now) pool.sheet) pool.log round.pool.log
        (spot_of reader.old (S.left source.old) (S.ended source.old) (S.faults source.old))
        (spot_of reader.new (S.left source.new) (S.ended source.new) (S.faults source.new))
        (answer_as R.entry round.last)) }
    ensures err { OnErr result (BreaksOff (live_as R.entry (R.tells reading.now) pool.sheet)
        pool.log
        (spot_of reader.old (S.left source.old) (S.ended source.old) (S.faults source.old))
        (spot_of reader.new (S.left source.new) (S.ended source.new) (S.faults source.new))) }

    // What the last line tells, which is no event.
    ensures over { IfOk result (λ round. IsNoEvent (answer_as R.entry round.last)) }
    ensures there { IfOk result (λ round. IsParsedThere R.entry
        (R.tells reading.now round.pool.sheet round.pool.season (length round.pool.log))
        reader.new.text round.last) }

    // Reading stops at the read that completes what ends the round.
    ensures last { IfOk result (λ round. StopsAtClose S.left S.reads
        (live_as R.entry (R.tells reading.now) pool.sheet) pool.log reader.old reader.new
        source.old source.new (answer_as R.entry round.last)) }
    ensures err_last { OnErr result (ReadsOnWay S.left S.reads
        (GivesEvents (live_as R.entry (R.tells reading.now) pool.sheet) pool.log)
        reader.old reader.new source.old source.new) }
{
    let mut pool = pool;
    let last = feed_parsed(alloc, reading, &mut pool, reader, source)?;
    // A look at the log recalls that the season is the one of these events.
    let _log = pool.log();
    Ok(ParsedRound { pool, last })
}

/// How a round ended on what was told last, which is no event, or on why nothing was. No proofs
/// follow its feed.
pub fn end_of<R: Reading>(last: Result<R::Parsed, FeedStop>) -> RoundEnd
    requires over { IsNoEvent (answer_as R.entry last) }
    requires proofs { answer_as R.entry last ≢ Ok Entry.Proofs }
    ensures { close_of result ≡ answer_as R.entry last }
{
    match last {
        Ok(told) => match R::as_entry(told) {
            Entry::Ask => RoundEnd::Ask,
            Entry::End => RoundEnd::End,
            Entry::Change(_) | Entry::Proofs => unreachable!(),
        },
        Err(stop) => RoundEnd::Stop(stop),
    }
}

// Tells the pool each event up to what ends the round.
fn feed_parsed<R: Reading, S: Source>(
    alloc: Global,
    reading: &R,
    pool: &mut Pool,
    reader: &mut LineReader,
    source: &mut S,
) -> Result<Result<R::Parsed, FeedStop>, OutOfMemory>
    ensures sheet { pool.new.sheet ≡ pool.old.sheet }
    ensures questions { pool.new.questions ≡ pool.old.questions }
    ensures home { out_count pool.new.loans ≡ out_count pool.old.loans }
    ensures reported { IfOk result (λ last. ReportsTo pool.old pool.new) }
    ensures ends { IfOk result (λ last. EndsRound
        (live_as R.entry (R.tells reading.now) pool.old.sheet) pool.old.log pool.new.log
        (spot_of reader.old (S.left source.old) (S.ended source.old) (S.faults source.old))
        (spot_of reader.new (S.left source.new) (S.ended source.new) (S.faults source.new))
        (answer_as R.entry last)) }
    ensures err { OnErr result (BreaksOff (live_as R.entry (R.tells reading.now) pool.old.sheet)
        pool.old.log
        (spot_of reader.old (S.left source.old) (S.ended source.old) (S.faults source.old))
        (spot_of reader.new (S.left source.new) (S.ended source.new) (S.faults source.new))) }
    ensures over { IfOk result (λ last. IsNoEvent (answer_as R.entry last)) }
    ensures there { IfOk result (IsParsedThere R.entry
        (R.tells reading.now pool.new.sheet pool.new.season (length pool.new.log))
        reader.new.text) }
    ensures last { IfOk result (λ last. StopsAtClose S.left S.reads
        (live_as R.entry (R.tells reading.now) pool.old.sheet) pool.old.log reader.old reader.new
        source.old source.new (answer_as R.entry last)) }
    ensures err_last { OnErr result (ReadsOnWay S.left S.reads
        (GivesEvents (live_as R.entry (R.tells reading.now) pool.old.sheet) pool.old.log)
        reader.old reader.new source.old source.new) }
{
    'records: loop {
        match next_in(alloc, reading, pool, reader, source) {
            Ok(told) => match R::as_entry(told) {
                Entry::Change(event) => {
                    if pool.change_with_room(event).is_err() {
                        return Err(OutOfMemory);
                    }
                }
                Entry::Ask | Entry::Proofs | Entry::End => return Ok(Ok(told)),
            },
            Err(stop) => return Ok(Err(stop)),
        }
    }
}

// What the next record after the events of the pool tells.
fn next_in<R: Reading, S: Source>(
    alloc: Global,
    reading: &R,
    pool: &Pool,
    reader: &mut LineReader,
    source: &mut S,
) -> Result<R::Parsed, FeedStop>
    ensures may_come { IfOk result (λ told.
        IsEntryAt pool.now.season (length pool.now.log) true (R.entry told)) }
    ensures there { IsParsedThere R.entry
        (R.tells reading.now pool.now.sheet pool.now.season (length pool.now.log))
        reader.new.text result }
    ensures next { ReadsNext S.left S.ended S.faults S.reads
        (live_as R.entry (R.tells reading.now) pool.now.sheet pool.now.log) reader.old reader.new
        source.old source.new (answer_as R.entry result) }
{
    let events = pool.log().len() as u64;
    let (sheet, season) = (pool.sheet(), pool.season());
    let at = SeasonSoFar {
        sheet,
        season,
        events,
    };
    next_parsed(alloc, reading, &at, reader, source)
}
