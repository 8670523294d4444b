//! A report of two asks that is cut into its items, each of which is judged, worked by hand. At the
//! first ask the match is open: A is first by winning it, and B by winning it. At the second A has
//! won it.

ghost use Rattle.std.specs.Prelude.{◌≡◌, All, IfOk, IsTrue, length};
ghost use Rattle.league_core.specs.game.Seasons.{IsEventOf, IsLeague, unplayed_season};
ghost use Rattle.league_core.specs.game.Sheets.{IsWithinLimits};
ghost use Rattle.par_check.specs.Cuts.{AreAsks, IsItemIn};

use cert_check::{CheckStop, ReportKind};
use kept_lines::LineList;
use league_core::{Event, OutOfMemory, Score, Season, Sheet};
use par_check::{Asks, Cut, Item, cut, judge_item};
use sample_leagues::{Sample, sample_of};
use std::alloc::Global;
use std::test::Fail;

const LEAGUE: &[u8] =
    b"league,Tiny,1\nclub,A,1\nclub,B,2\nmatch,A,B\nline,1\nseason\nresult,1,1,0\n";

// The number of the report's first line.
const FIRST: u64 = 11;

// The number behind its last line.
const BEHIND: u64 = 33;

// The lines before a number. The last item says that B is first, though A is: it has its form, and
// its last line, of the number 32, is no proof.
fn report_before(alloc: Global, end: u64) -> Result<LineList, Fail> {
    let mut lines = LineList::new(alloc)?;
    let mut number = FIRST;
    for text in [
        "ask,0",
        "verdict,1,A,possible",
        "[\"finish\",\"inside\"]",
        "[\"score\",1,1,0]",
        "[\"lots\",[1,2]]",
        "[\"finish\",\"outside\"]",
        "[\"score\",1,0,1]",
        "[\"lots\",[2,1]]",
        "verdict,1,B,possible",
        "[\"finish\",\"inside\"]",
        "[\"score\",1,0,1]",
        "[\"lots\",[2,1]]",
        "[\"finish\",\"outside\"]",
        "[\"score\",1,1,0]",
        "[\"lots\",[1,2]]",
        "ask,1",
        "verdict,1,A,clinched",
        "[\"tree\",\"outside\"]",
        "[\"leaf\",\"tie\"]",
        "verdict,1,B,clinched",
        "[\"tree\",\"outside\"]",
        "[\"leaf\",\"tie\"]",
    ] {
        if number < end {
            lines.add(number, text.as_bytes())?;
        }
        number = number.wrapping_add(1);
    }
    Ok(lines)
}

// A wins the match.
fn result() -> Event {
    Event::Set {
        fixture: 0,
        score: Score { home: 1, away: 0 },
    }
}

// A test of its own, so that what follows may rest on it.
fn may_be(season: &Season, event: &Event) -> bool
    ensures { IsTrue result → IsEventOf season.now event.now }
{
    match event {
        Event::Set { fixture, score } => {
            (*fixture as usize) < season.scores().len() && score.home <= 99 && score.away <= 99
        }
        Event::Clear { fixture: _ } | Event::Deduct { club: _, points: _ } => false,
    }
}

// An ask, an event, and an ask.
#[tactic(auto, using(crate::proofs::AskLemmas::are_two_asks))]
fn two_asks(alloc: Global, sheet: &Sheet, event: Event) -> Result<Asks, OutOfMemory>
    requires limits { IsWithinLimits sheet.now }
    requires may_be { IsEventOf (unplayed_season (length sheet.now.clubs)
        (length sheet.now.fixtures)) event }
    ensures are { IfOk result (AreAsks sheet.now) }
    ensures two { IfOk result (λ asks. length asks.epochs.items ≡ 2) }
{
    let log = vec![in alloc; event]?;
    let epochs = vec![in alloc; 0, 1]?;
    let kind = ReportKind::Plain;
    Ok(Asks { kind, log, epochs })
}

fn asks_of(alloc: Global, sheet: &Sheet) -> Result<Asks, Fail>
    requires limits { IsWithinLimits sheet.now }
    ensures are { IfOk result (AreAsks sheet.now) }
    ensures two { IfOk result (λ asks. length asks.epochs.items ≡ 2) }
{
    let season = Season::unplayed(alloc, sheet.clubs.len(), sheet.fixtures.len())?;
    let event = result();
    if may_be(&season, &event) {
        Ok(two_asks(alloc, sheet, event)?)
    } else {
        Err("no event of the season".into())
    }
}

fn cut_of(alloc: Global, sheet: &Sheet, lines: &LineList) -> Result<Cut, Fail>
    requires limits { IsWithinLimits sheet.now }
    ensures { IfOk result (λ cut. All (IsItemIn sheet.now 2 (length lines.now)) cut.items.items) }
{
    let asks = asks_of(alloc, sheet)?;
    if lines.len() < 1000 {
        Ok(cut(alloc, sheet, &asks, lines)?)
    } else {
        Err("so many lines".into())
    }
}

// The line of an item that is no proof, by a season.
fn unproved(
    alloc: Global,
    sheet: &Sheet,
    season: &Season,
    lines: &LineList,
    items: &[Item],
    at: usize,
) -> Result<Option<u64>, Fail>
    requires league { IsLeague sheet.now season.now }
    requires within { All (IsItemIn sheet.now 2 (length lines.now)) items.now }
{
    match items.get(at) {
        Some(item) => Ok(judge_item(alloc, ReportKind::Plain, sheet, season, lines, item)?),
        None => Err("so few items".into()),
    }
}

// What each of the four items comes to, by the season of its ask.
fn all_unproved(
    alloc: Global,
    sample: &Sample,
    before: &Season,
    lines: &LineList,
    items: &[Item],
) -> Result<[Option<u64>; 4], Fail>
    requires league { IsLeague sample.now.sheet sample.now.season }
    requires before { IsLeague sample.now.sheet before.now }
    requires within { All (IsItemIn sample.now.sheet 2 (length lines.now)) items.now }
{
    let (sheet, after) = (&sample.sheet, &sample.season);
    Ok([
        unproved(alloc, sheet, before, lines, items, 0)?,
        unproved(alloc, sheet, before, lines, items, 1)?,
        unproved(alloc, sheet, after, lines, items, 2)?,
        unproved(alloc, sheet, after, lines, items, 3)?,
    ])
}

fn item(ask: u32, question_row: usize, from: usize, until: usize) -> Item {
    Item {
        ask,
        question_row,
        from,
        until,
    }
}

// The four items with their lines by their positions, the last one up to before this.
fn are_four_items(items: &[Item], until: usize) -> bool {
    let wanted = [
        item(0, 0, 1, 8),
        item(0, 1, 8, 15),
        item(1, 0, 16, 19),
        item(1, 1, 19, until),
    ];
    items == wanted.as_slice()
}

// The report of so many lines is cut into four items, and the grammar stops so.
fn is_cut(
    alloc: Global,
    sample: &Sample,
    end: u64,
    until: usize,
    stop: Option<CheckStop>,
) -> Result<bool, Fail>
    requires { IsLeague sample.now.sheet sample.now.season }
{
    let lines = report_before(alloc, end)?;
    let cut = cut_of(alloc, &sample.sheet, &lines)?;
    Ok(are_four_items(cut.items.as_slice(), until) && cut.stop == stop)
}

fn are_cut(alloc: Global) -> Result<(bool, bool), Fail> {
    let sample = sample_of(alloc, LEAGUE).ok_or("league")?;
    let whole = is_cut(alloc, &sample, BEHIND, 22, None)?;
    let short = is_cut(alloc, &sample, BEHIND - 1, 21, Some(CheckStop::Short))?;
    Ok((whole, short))
}

#[test]
fn a_report_is_cut_into_items(rt: HostRuntime) -> Result<(), Fail> {
    assert_eq!(rt; are_cut(rt.alloc())?, (true, true));
    Ok(())
}

fn judged_in(alloc: Global, sample: &Sample) -> Result<[Option<u64>; 4], Fail>
    requires { IsLeague sample.now.sheet sample.now.season }
{
    let sheet = &sample.sheet;
    let before = Season::unplayed(alloc, sheet.clubs.len(), sheet.fixtures.len())?;
    let lines = report_before(alloc, BEHIND)?;
    let cut = cut_of(alloc, sheet, &lines)?;
    all_unproved(alloc, sample, &before, &lines, cut.items.as_slice())
}

fn judged(alloc: Global) -> Result<[Option<u64>; 4], Fail> {
    let sample = sample_of(alloc, LEAGUE).ok_or("league")?;
    judged_in(alloc, &sample)
}

#[test]
fn an_item_names_its_first_line_that_is_no_proof(rt: HostRuntime) -> Result<(), Fail> {
    assert_eq!(rt; judged(rt.alloc())?, [None, None, None, Some(32)]);
    Ok(())
}
