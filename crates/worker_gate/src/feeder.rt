//! The feeder: reads entries while the workers work, and reports the events to the lock.

ghost use Rattle.std.specs.Prelude.{◌≡◌, true};
ghost use Rattle.result_log.specs.inside.Rounds.{live_entry};
ghost use Rattle.plain_rounds.specs.inside.Feeding.{FeedsRound, IsSeasonReported};
ghost use Rattle.worker_gate.specs.inside.Workers.{IsCrewFor};

use crate::crew::Crew;
use crate::feeder_state::FeederState;
use crate::idle_source::await_next;
use league_core::OutOfMemory;
use plain_rounds::RoundEnd;
use pool_lock::Job;
use port_core::{LineReader, Source};
use result_log::Entry;
use std::sync::Wait;

/// Reads up to what ends the round, and reports each event. The workers go on whenever input has to
/// be waited for, and at the end: then no event will come, whatever ended the round.
pub fn feed<J: Job, R: Wait, S: Source, G>(
    crew: &Crew<J, R, G>,
    feeder: &mut FeederState<J>,
    reader: &mut LineReader,
    source: &mut S,
) -> Result<RoundEnd, OutOfMemory>
    requires crew { IsCrewFor J.sheet crew.now.sheet.now }
    requires reported { IsSeasonReported J.sheet feeder.old.front feeder.old.season
        feeder.old.events }
    ensures feeds { FeedsRound S.left S.ended S.faults S.reads (live_entry J.sheet)
        feeder.old.front feeder.new.front reader.old reader.new source.old source.new result }
    ensures shut { feeder.new.is_shut ≡ true }
{
    let end = feed_open(crew, feeder, reader, source);
    feeder.shut(crew.rt, crew.lock);
    end
}

fn feed_open<J: Job, R: Wait, S: Source, G>(
    crew: &Crew<J, R, G>,
    feeder: &mut FeederState<J>,
    reader: &mut LineReader,
    source: &mut S,
) -> Result<RoundEnd, OutOfMemory>
    requires crew { IsCrewFor J.sheet crew.now.sheet.now }
    requires reported { IsSeasonReported J.sheet feeder.old.front feeder.old.season
        feeder.old.events }
    ensures feeds { FeedsRound S.left S.ended S.faults S.reads (live_entry J.sheet)
        feeder.old.front feeder.new.front reader.old reader.new source.old source.new result }
{
    'entries: loop {
        match await_next(crew, feeder, reader, source) {
            Ok(Entry::Change(event)) => {
                if feeder.report(crew.rt, crew.lock, event).is_err() {
                    return Err(OutOfMemory);
                }
            }
            Ok(Entry::Ask) => return Ok(RoundEnd::Ask),
            Ok(Entry::End) => return Ok(RoundEnd::End),
            Ok(Entry::Proofs) => unreachable!(),
            Err(stop) => return Ok(RoundEnd::Stop(stop)),
        }
    }
}
