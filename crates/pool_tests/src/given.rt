//! Verdicts given how a match ends, by hand.
//!
//! A side scores at most one goal. Who is first, by how A against B and then C against A end:
//!
//! | | C wins | a draw | A wins |
//! |---|---|---|---|
//! | A wins | C, level with A, whom it beat | A | A |
//! | a draw | C | A | A |
//! | B wins | B, level with C in all but its rank | B | B, level with A, whom it beat |

ghost use Rattle.std.specs.Prelude.{◌≡◌, ◌<◌, IsTrue, None, length, slice_index_or};
ghost use Rattle.league_core.specs.game.Seasons.{IsLeague};

use answer_rows::{Verdict, Word};
use league_core::{Season, Sheet};
use port_core::{LineReader, MemSource};
use result_log::{Entry, FeedFault, FeedStop};
use sample_leagues::{Sample, sample_of};
use std::alloc::Global;
use std::test::Fail;
use what_if::{Outcome, Step, base_zone, next_step, outcomes_are_bases, verdicts_given};

const THREE: &[u8] = b"league,Three,1\nclub,A,1\nclub,B,2\nclub,C,3\nmatch,A,B\nmatch,C,A\n\
    line,1\nseason\n";

// The first match has no score. A test of its own, so that what follows may rest on it.
fn is_open(sheet: &Sheet, season: &Season) -> bool
    ensures in_range { IsTrue result → 0 < length sheet.now.fixtures }
    ensures unplayed { IsTrue result → slice_index_or season.now.scores 0 None ≡ None }
{
    !sheet.fixtures.is_empty() && !season.scores().is_empty() && season.score(0).is_none()
}

fn given(alloc: Global, sample: &Sample, outcome: Outcome) -> Result<Vec<Verdict>, Fail>
    requires { IsLeague sample.now.sheet sample.now.season }
{
    if !is_open(&sample.sheet, &sample.season) {
        return Err("the match is not open".into());
    }
    outcomes_are_bases();
    let base = base_zone(alloc, 0, outcome)?;
    let found = verdicts_given(alloc, &sample.sheet, &sample.season, &base)?;
    Ok(found)
}

fn words_in(alloc: Global, verdicts: &[Verdict]) -> Result<Vec<Word>, Fail> {
    let mut words = Vec::new(alloc);
    for verdict in verdicts {
        words.push(verdict.word).map_err(|_| "no memory")?;
    }
    Ok(words)
}

// The words about A, B and C, given how the first match ends.
fn words(alloc: Global, outcome: Outcome) -> Result<Vec<Word>, Fail> {
    let sample = sample_of(alloc, THREE).ok_or("no league")?;
    let found = given(alloc, &sample, outcome)?;
    words_in(alloc, found.as_slice())
}

#[test]
fn verdicts_are_those_of_the_finishes_that_are_left(rt: HostRuntime) -> Result<(), Fail> {
    use Word::{Clinched, Lost, Possible};
    for (outcome, wanted) in [
        (Outcome::Home, [Possible, Lost, Possible]),
        (Outcome::Draw, [Possible, Lost, Possible]),
        (Outcome::Away, [Lost, Clinched, Lost]),
    ] {
        let found = words(rt.alloc(), outcome)?;
        assert!(rt; found.as_slice() == wanted.as_slice(), "{outcome:?}");
    }
    Ok(())
}

// What the first record of a feed about the league says.
fn first_step(alloc: Global, sample: &Sample, text: &[u8]) -> Result<Result<Step, FeedStop>, Fail>
    requires { IsLeague sample.now.sheet sample.now.season }
{
    let mut reader = LineReader::new(alloc)?;
    let mut source = MemSource::new(text.to_vec(alloc)?, 5, Vec::new(alloc));
    let (sheet, season) = (&sample.sheet, &sample.season);
    Ok(next_step(alloc, sheet, season, 0, &mut reader, &mut source))
}

#[test]
fn a_feed_may_ask_about_a_match(rt: HostRuntime) -> Result<(), Fail> {
    let alloc = rt.alloc();
    let sample = sample_of(alloc, THREE).ok_or("no league")?;
    let (number, fault) = (2, FeedFault::UnknownFixture);
    for (text, wanted) in [
        (b"\nwhen,2\n".as_slice(), Ok(Step::When(1))),
        (b"ask\n", Ok(Step::Entry(Entry::Ask))),
        (b"\nwhen,3\n", Err(FeedStop::Fault { number, fault })),
        (b"", Ok(Step::Entry(Entry::End))),
    ] {
        assert_eq!(rt; first_step(alloc, &sample, text)?, wanted);
    }
    Ok(())
}
