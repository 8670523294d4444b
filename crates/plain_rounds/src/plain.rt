//! A round of entries on one thread, without workers.

ghost use Rattle.std.specs.Prelude.{◌≡◌, IfOk, OnErr};
ghost use Rattle.league_core.specs.game.Seasons.{season_after};
ghost use Rattle.branch_pool.specs.inside.States.{out_count};
ghost use Rattle.fixture_sheet.specs.LastReads.{ReadsOnWay};
ghost use Rattle.result_log.specs.inside.LastReads.{GivesEvents, StopsAtClose};
ghost use Rattle.result_log.specs.inside.Rounds.{BreaksOff, EndsRound, live_entry, spot_of};
ghost use Rattle.plain_rounds.specs.inside.Reports.{ReportsTo};
ghost use Rattle.plain_rounds.specs.inside.Rounds.{close_of};

use crate::parsed_round::{ParsedRound, end_of, read_parsed};
use crate::round::Round;
use branch_pool::Pool;
use league_core::OutOfMemory;
use port_core::{LineReader, Source};
use result_log::Entries;
use std::alloc::Global;

/// Reads the feed on to the next ask, its end or a stop, and tells the pool each event as it comes.
/// Nothing is worked on.
///
/// The events are read after those of the pool's log. If there is no memory to tell an event, the
/// pool is gone.
pub fn read_round<S: Source>(
    alloc: Global,
    pool: Pool,
    reader: &mut LineReader,
    source: &mut S,
) -> Result<Round, OutOfMemory>
    ensures sheet { IfOk result (λ round. round.pool.sheet ≡ pool.sheet) }
    ensures questions { IfOk result (λ round. round.pool.questions ≡ pool.questions) }
    ensures season { IfOk result (λ round.
        round.pool.season ≡ season_after round.pool.sheet round.pool.log) }
    ensures home { IfOk result (λ round. out_count round.pool.loans ≡ out_count pool.loans) }
    ensures reported { IfOk result (λ round. ReportsTo pool round.pool) }

    // The log afterwards is the log before and the events that the lines passed tell.
    ensures ends { IfOk result (λ round. EndsRound (live_entry pool.sheet) pool.log round.pool.log
        (spot_of reader.old (S.left source.old) (S.ended source.old) (S.faults source.old))
        (spot_of reader.new (S.left source.new) (S.ended source.new) (S.faults source.new))
        (close_of round.end)) }
    ensures err { OnErr result (BreaksOff (live_entry pool.sheet) pool.log
        (spot_of reader.old (S.left source.old) (S.ended source.old) (S.faults source.old))
        (spot_of reader.new (S.left source.new) (S.ended source.new) (S.faults source.new))) }

    // Reading stops at the read that completes what ends the round.
    ensures last { IfOk result (λ round. StopsAtClose S.left S.reads (live_entry pool.sheet)
        pool.log reader.old reader.new source.old source.new (close_of round.end)) }
    ensures err_last { OnErr result (ReadsOnWay S.left S.reads (GivesEvents (live_entry pool.sheet)
        pool.log) reader.old reader.new source.old source.new) }
{
    let entries = Entries { proofs: false };
    let round = read_parsed(alloc, &entries, pool, reader, source)?;
    let ParsedRound { pool, last } = round;
    let end = end_of::<Entries>(last);
    Ok(Round { pool, end })
}
