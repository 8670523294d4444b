//! A session of a cup: the sheet, and then round after round of the feed, each with the answer of
//! its ask.

ghost use Rattle.std.specs.Prelude.{◌≡◌, ℕ, Bool, List, [], Option};
ghost use Rattle.league_core.specs.declared.season.Event.{Event};
ghost use Rattle.port_core.specs.Readers.{stream_of};
ghost use Rattle.cup_sheet.specs.Cups.{IsCup};
ghost use Rattle.cup_sheet.specs.CupFeeds.{joint_sheet};
ghost use Rattle.run_ends.specs.LastReads.{StopsSession, fresh_reader};
ghost use Rattle.run_ends.specs.Runs.{Counts, Serves};
ghost use Rattle.run_ends.specs.inside.RunTurns.{MayEndSession};
ghost use Rattle.run_ends.specs.inside.Ways.{HasCome, Path};
ghost use Rattle.cup_turns.specs.CupCourses.{cup_course_from, cup_kind, cup_played};
ghost use Rattle.cup_turns.specs.CupLastReads.{LeadCup, LeadToCupFeed};
ghost use Rattle.cup_turns.specs.inside.CupRounds.{IsAfterEvents, WasRead};
ghost use Rattle.cup_turns.specs.inside.CupTurns.{CountsCupAsk, CupAskGives, CupTurnCounts};
ghost use Rattle.cup_turns.specs.inside.CupTurns.{CupTurnGives, CupTurnMoves, CupTurnStops};
ghost use Rattle.cup_turns.specs.inside.CupTurns.{HasComeToCup, PathToCup, cup_turn_of};

use crate::answers::CupAnswers;
use crate::round::{CupSoFar, Pause, read_on};
use answer_rows::OutputStop;
use cup_feed::{joint_sheet, seasons_of};
use cup_sheet::{Cup, read_cup};
use league_core::{Season, Sheet};
use port_core::{LineReader, Sink, Source};
use run_ends::{Status, end_at_stop, stop_of_cup, stop_of_feed};
use std::alloc::Global;

// What a session keeps from its sheet on.
#[derive(Clone, Copy)]
struct CupRun<'a, A> {
    alloc: Global,
    answers: &'a A,
    cup: &'a Cup,
    sheet: &'a Sheet,
}

/// Reads the source to its end, or to what ends the run before: the sheet of a cup, and then its
/// feed. Each ask is answered as soon as it is read.
pub fn run_cup<A: CupAnswers, S: Source, K: Sink>(
    alloc: Global,
    answers: &A,
    source: &mut S,
    sink: &mut K,
) -> Status
    ensures serves { Serves (cup_kind (A.answers answers.now)) (S.left source.old)
        (S.left source.new) (S.ended source.new) (K.holds sink.old) (K.holds sink.new) result }
    ensures last { StopsSession S.left S.reads LeadCup source.old source.new result }
    ensures counts { Counts (S.faults source.old) (S.faults source.new)
        (K.faults sink.old) (K.faults sink.new) result }
    ensures status { MayEndSession result }
{
    let Ok(mut reader) = LineReader::new(alloc) else {
        return Status::OutOfMemory;
    };
    run_sheet(alloc, answers, &mut reader, source, sink)
}

// Reads the sheet of a cup, and then its feed.
fn run_sheet<A: CupAnswers, S: Source, K: Sink>(
    alloc: Global,
    answers: &A,
    reader: &mut LineReader,
    source: &mut S,
    sink: &mut K,
) -> Status
    requires { reader.old ≡ fresh_reader }
    ensures serves { Serves (cup_kind (A.answers answers.now)) (S.left source.old)
        (S.left source.new) (S.ended source.new) (K.holds sink.old) (K.holds sink.new) result }
    ensures last { StopsSession S.left S.reads LeadCup source.old source.new result }
    ensures counts { Counts (S.faults source.old) (S.faults source.new)
        (K.faults sink.old) (K.faults sink.new) result }
    ensures status { MayEndSession result }
{
    match read_cup(alloc, reader, source) {
        Ok(cup) => run_feed(alloc, answers, &cup, reader, source, sink),
        Err(stop) => end_at_stop(alloc, stop_of_cup(stop), sink),
    }
}

// Reads the feed of a cup to its end, or to what ends the run before.
fn run_feed<A: CupAnswers, S: Source, K: Sink>(
    alloc: Global,
    answers: &A,
    cup: &Cup,
    reader: &mut LineReader,
    source: &mut S,
    sink: &mut K,
) -> Status
    requires { IsCup cup.now }
    ensures serves { (input : Option (List ℕ)) (ended : Bool) (old : Option (List ℕ))
        → Path (cup_kind (A.answers answers.now)) input ended
        (stream_of reader.old (S.left source.old)) (S.ended source.old) reader.old.position
        (cup_course_from cup.now []) old (K.holds sink.old)
        → Serves (cup_kind (A.answers answers.now)) input (S.left source.new)
        (S.ended source.new) old (K.holds sink.new) result }
    ensures last { (first : S)
        → HasCome S.left S.reads LeadCup first reader.old source.old
        (λ taken. LeadToCupFeed taken cup.now [])
        → StopsSession S.left S.reads LeadCup first source.new result }
    ensures counts { Counts (S.faults source.old) (S.faults source.new)
        (K.faults sink.old) (K.faults sink.new) result }
    ensures status { MayEndSession result }
{
    let Ok(sheet) = joint_sheet(alloc, cup) else {
        return Status::OutOfMemory;
    };
    let Ok(season) = Season::unplayed(alloc, sheet.clubs.len(), sheet.fixtures.len()) else {
        return Status::OutOfMemory;
    };
    let run = CupRun {
        alloc,
        answers,
        cup,
        sheet: &sheet,
    };
    let unread = CupSoFar { season, events: 0 };
    run_rounds(&run, unread, reader, source, sink)
}

// Reads the feed on to its end, or to what ends the run before.
fn run_rounds<A: CupAnswers, S: Source, K: Sink>(
    run: &CupRun<'_, A>,
    unread: CupSoFar,
    reader: &mut LineReader,
    source: &mut S,
    sink: &mut K,
) -> Status
    requires cup { IsCup run.now.cup.now }
    requires of_cup { run.now.sheet.now ≡ joint_sheet run.now.cup.now }
    requires read { WasRead run.now.sheet.now unread }
    ensures serves { (input : Option (List ℕ)) (ended : Bool) (old : Option (List ℕ))
        → PathToCup (A.answers run.now.answers.now) run.now.cup.now unread input ended
        (stream_of reader.old (S.left source.old)) (S.ended source.old) reader.old.position old
        (K.holds sink.old)
        → Serves (cup_kind (A.answers run.now.answers.now)) input (S.left source.new)
        (S.ended source.new) old (K.holds sink.new) result }
    ensures last { (first : S)
        → HasComeToCup S.left S.reads run.now.cup.now unread first reader.old source.old
        → StopsSession S.left S.reads LeadCup first source.new result }
    ensures counts { Counts (S.faults source.old) (S.faults source.new)
        (K.faults sink.old) (K.faults sink.new) result }
    ensures status { MayEndSession result }
{
    let mut so_far = unread;
    'rounds: loop {
        match take_turn(run, &mut so_far, reader, source, sink) {
            None => {}
            Some(status) => return status,
        }
    }
}

// Reads the feed on to the next ask, which it answers, or to the end; the status if the run ends.
fn take_turn<A: CupAnswers, S: Source, K: Sink>(
    run: &CupRun<'_, A>,
    so_far: &mut CupSoFar,
    reader: &mut LineReader,
    source: &mut S,
    sink: &mut K,
) -> Option<Status>
    requires cup { IsCup run.now.cup.now }
    requires of_cup { run.now.sheet.now ≡ joint_sheet run.now.cup.now }
    requires read { WasRead run.now.sheet.now so_far.old }
    ensures read { WasRead run.now.sheet.now so_far.new }
    ensures way { (input : Option (List ℕ)) (ended : Bool) (old : Option (List ℕ))
        → PathToCup (A.answers run.now.answers.now) run.now.cup.now so_far.old input ended
        (stream_of reader.old (S.left source.old)) (S.ended source.old) reader.old.position old
        (K.holds sink.old)
        → CupTurnGives (A.answers run.now.answers.now) run.now.cup.now so_far.new input ended
        (stream_of reader.new (S.left source.new)) (S.ended source.new) reader.new.position
        (S.left source.new) old (K.holds sink.new) result }
    ensures last { (first : S)
        → HasComeToCup S.left S.reads run.now.cup.now so_far.old first reader.old source.old
        → CupTurnStops S.left S.reads run.now.cup.now so_far.new first reader.new source.new
        result }
    ensures moves { CupTurnMoves reader.old.position.bytes reader.new.position.bytes result }
    ensures counts { CupTurnCounts (S.faults source.old) (S.faults source.new)
        (K.faults sink.old) (K.faults sink.new) result }
{
    match read_on(run.alloc, run.sheet, so_far, reader, source) {
        Ok(Pause::Ask) => put_ask(run, so_far, sink),
        Ok(Pause::End) => Some(Status::Done),
        Err(stop) => Some(end_at_stop(run.alloc, stop_of_feed(stop), sink)),
    }
}

// Answers an ask; the status if the run ends.
fn put_ask<A: CupAnswers, K: Sink>(
    run: &CupRun<'_, A>,
    so_far: &CupSoFar,
    sink: &mut K,
) -> Option<Status>
    requires cup { IsCup run.now.cup.now }
    requires of_cup { run.now.sheet.now ≡ joint_sheet run.now.cup.now }
    requires read { WasRead run.now.sheet.now so_far.now }
    ensures answer { (log : List Event) → IsAfterEvents (joint_sheet run.now.cup.now) log so_far.now
        → CupAskGives (A.answers run.now.answers.now (cup_played run.now.cup.now log))
        (K.holds sink.old) (K.holds sink.new) result }
    ensures counts { CountsCupAsk (K.faults sink.old) (K.faults sink.new) result }
{
    let Ok(seasons) = seasons_of(run.alloc, run.cup, &so_far.season) else {
        return Some(Status::OutOfMemory);
    };
    let put = run.answers.put(run.alloc, run.cup, seasons.as_slice(), so_far.events, sink);
    turn_of(put)
}

// What comes of an answer.
fn turn_of(put: Result<(), OutputStop>) -> Option<Status>
    ensures { result ≡ cup_turn_of put }
{
    match put {
        Ok(()) => None,
        Err(OutputStop::WriteFault) => Some(Status::WriteFault),
        Err(OutputStop::OutOfMemory) => Some(Status::OutOfMemory),
    }
}
