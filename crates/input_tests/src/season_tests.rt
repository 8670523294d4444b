//! Seasons that take events, sheets that are copied, finishes that are kept.

ghost use Rattle.std.specs.Prelude.{◌≡◌};
ghost use Rattle.league_core.specs.game.Seasons.{unplayed_season};

use crate::sheet_telling::sheet_of;
use league_core::{Event, Finish, Order, Score, Season, Sheet};
use std::alloc::Global;
use std::test::Fail;

const CUP: &[u8] = b"league,Cup,5,100,overall_first\nclub,Alder,3\nclub,Birch,3\n\
    match,Alder,Birch\nline,1\nseason\n";

const PAIR: &[u8] = b"league,Pair,2\nclub,A,1\nclub,B,2\nmatch,A,B\nmatch,B,A\nseason\n";

const WON: Score = Score { home: 2, away: 1 };

/// How many fixtures a season has; the first one's score once it is reported, and whether the
/// season is as before then; whether it is once the score is annulled.
type Annulled = (usize, Option<Score>, bool, bool);

fn annulled(season: &mut Season, before: &Season) -> Annulled
    requires { season.old ≡ unplayed_season 2 1 }
{
    let fixtures = season.scores().len();
    season.apply(&Event::Set {
        fixture: 0,
        score: WON,
    });
    let (told, is_before) = (season.score(0), season.equals(before));
    season.apply(&Event::Clear { fixture: 0 });
    (fixtures, told, is_before, season.equals(before))
}

fn annulled_beside(alloc: Global, season: &mut Season) -> Result<Annulled, Fail>
    requires { season.old ≡ unplayed_season 2 1 }
{
    let before = season.copy(alloc)?;
    Ok(annulled(season, &before))
}

fn unplayed_annulled(alloc: Global) -> Result<Annulled, Fail> {
    let mut season = Season::unplayed(alloc, 2, 1)?;
    annulled_beside(alloc, &mut season)
}

#[test]
fn a_season_is_told_corrected_and_annulled(rt: HostRuntime) -> Result<(), Fail> {
    let (fixtures, told, is_before, is_before_again) = unplayed_annulled(rt.alloc())?;
    assert_eq!(rt; fixtures, 1);
    assert_eq!(rt; told, Some(WON));
    assert!(rt; !is_before);
    assert!(rt; is_before_again);
    Ok(())
}

// What is taken off the second and the first club after 9 and 2 points off the second, and then off
// the second after none.
fn deducted(season: &mut Season) -> (u8, u8, u8)
    requires { season.old ≡ unplayed_season 2 1 }
{
    season.apply(&Event::Deduct { club: 1, points: 9 });
    season.apply(&Event::Deduct { club: 1, points: 2 });
    let (second, first) = (season.deducted(1), season.deducted(0));
    season.apply(&Event::Deduct { club: 1, points: 0 });
    (second, first, season.deducted(1))
}

fn unplayed_deducted(alloc: Global) -> Result<(u8, u8, u8), Fail> {
    let mut season = Season::unplayed(alloc, 2, 1)?;
    Ok(deducted(&mut season))
}

#[test]
fn a_later_deduction_replaces_an_earlier_one(rt: HostRuntime) -> Result<(), Fail> {
    assert_eq!(rt; unplayed_deducted(rt.alloc())?, (2, 0, 0));
    Ok(())
}

// Whether a copy has the name of the cup and two clubs; the second club's name; the fixtures of
// the sheet; and one line and the order of the criteria.
fn cup_kept(sheet: &Sheet, copy: &Sheet) -> (bool, bool, bool, bool) {
    let clubs = copy.clubs.as_slice();
    let is_cup = copy.name.as_str() == "Cup" && clubs.len() == 2;
    (
        is_cup,
        clubs.len() == 2 && clubs[1].name.as_str() == "Birch",
        copy.fixtures.as_slice() == sheet.fixtures.as_slice(),
        copy.lines.len() == 1 && copy.order == Order::OverallFirst,
    )
}

fn copy_kept(alloc: Global, sheet: &Sheet) -> Result<(bool, bool, bool, bool), Fail> {
    let copy = sheet.copy(alloc)?;
    Ok(cup_kept(sheet, &copy))
}

fn cup_copied(alloc: Global) -> Result<(bool, bool, bool, bool), Fail> {
    let sheet = sheet_of(alloc, CUP)?;
    copy_kept(alloc, &sheet)
}

#[test]
fn a_sheet_is_copied_with_its_names(rt: HostRuntime) -> Result<(), Fail> {
    let (is_cup, is_birch, has_fixtures, has_line) = cup_copied(rt.alloc())?;
    assert!(rt; is_cup);
    assert!(rt; is_birch);
    assert!(rt; has_fixtures);
    assert!(rt; has_line);
    Ok(())
}

// Two matches, both won 2:0 at home.
fn both_won(alloc: Global) -> Result<Season, Fail> {
    let mut season = Season::unplayed(alloc, 2, 2)?;
    let score = Score { home: 2, away: 0 };
    season.apply(&Event::Set { fixture: 0, score });
    season.apply(&Event::Set { fixture: 1, score });
    Ok(season)
}

// The second one alone is played.
fn second_won(alloc: Global) -> Result<Season, Fail> {
    let mut season = Season::unplayed(alloc, 2, 2)?;
    let score = Score { home: 2, away: 0 };
    season.apply(&Event::Set { fixture: 1, score });
    Ok(season)
}

// The first one is drawn.
fn first_drawn(alloc: Global) -> Result<Season, Fail> {
    let mut season = Season::unplayed(alloc, 2, 2)?;
    let score = Score { home: 0, away: 0 };
    season.apply(&Event::Set { fixture: 0, score });
    Ok(season)
}

fn may_end(sheet: &Sheet, finish: &Finish, season: Season) -> bool {
    finish.is_of(sheet, &season)
}

// Whether the season may end like this unplayed, with the second match won, and with the first one
// drawn.
fn endings(alloc: Global, sheet: &Sheet, finish: &Finish) -> Result<(bool, bool, bool), Fail> {
    let unplayed = may_end(sheet, finish, Season::unplayed(alloc, 2, 2)?);
    let won = may_end(sheet, finish, second_won(alloc)?);
    Ok((unplayed, won, may_end(sheet, finish, first_drawn(alloc)?)))
}

fn kept_endings(alloc: Global, sheet: &Sheet) -> Result<(bool, bool, bool), Fail> {
    let finish = Finish::of_season(both_won(alloc)?).ok().ok_or("played")?;
    endings(alloc, sheet, &finish)
}

fn pair_endings(alloc: Global) -> Result<(bool, bool, bool), Fail> {
    let sheet = sheet_of(alloc, PAIR)?;
    kept_endings(alloc, &sheet)
}

#[test]
fn a_result_can_end_a_kept_finish(rt: HostRuntime) -> Result<(), Fail> {
    let (unplayed, second_won, first_drawn) = pair_endings(rt.alloc())?;
    assert!(rt; unplayed);
    assert!(rt; second_won);
    assert!(rt; !first_drawn);
    Ok(())
}
