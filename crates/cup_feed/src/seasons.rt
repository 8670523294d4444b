//! The season of each group, out of that of the joint sheet.

ghost use Rattle.std.specs.Prelude.{◌≡◌, ◌≤◌, ◌<◌, IfOk, IsTrue, length, nat_le, slice_set, take};
ghost use Rattle.std.specs.List.{list_all};
ghost use Rattle.league_core.specs.game.Limits.{most_deduction};
ghost use Rattle.league_core.specs.game.Results.{are_results, is_score_or_none};
ghost use Rattle.league_core.specs.game.Seasons.{IsSeasonOf};
ghost use Rattle.league_core.specs.game.Sheets.{IsWithinLimits};
ghost use Rattle.cup_sheet.specs.Cups.{AreSeasonsOf, IsCup, clubs_together};
ghost use Rattle.cup_sheet.specs.CupFeeds.{joint_sheet, results_by_group};
ghost use Rattle.cup_feed.specs.inside.GroupLimits.{AreWithinLimits, fixtures_together};

use cup_sheet::Cup;
use league_core::{Event, Listing, OutOfMemory, Score, Season, Sheet};
use std::alloc::Global;

/// The season of each group, in the order of the groups, out of that of the cup's joint sheet.
pub fn seasons_of(alloc: Global, cup: &Cup, season: &Season) -> Result<Listing<Season>, OutOfMemory>
    requires cup { IsCup cup.now }
    requires of_sheet { IsSeasonOf (joint_sheet cup.now) season.now }
    ensures value { IfOk result (λ seasons. seasons ≡ results_by_group cup.now.groups season.now) }
    ensures of_groups { IfOk result (λ seasons. AreSeasonsOf cup.now.groups seasons) }
{
    let groups = cup.groups.as_slice();
    let seasons = seasons_by_group(alloc, groups, season.scores(), season.deductions())?;
    Ok(seasons)
}

fn seasons_by_group(
    alloc: Global,
    groups: &[Sheet],
    scores: &[Option<Score>],
    deductions: &[u8],
) -> Result<Listing<Season>, OutOfMemory>
    requires limits { AreWithinLimits groups.now }
    requires results { IsTrue (are_results
        (record { scores = scores.now; deductions = deductions.now })) }
    requires fixtures { length scores.now ≡ fixtures_together groups.now }
    requires clubs { length deductions.now ≡ clubs_together groups.now }
    ensures value { IfOk result (λ seasons. seasons ≡ results_by_group groups.now
        (record { scores = scores.now; deductions = deductions.now })) }
{
    let mut seasons = Listing::new(alloc);
    let mut fixture = 0;
    let mut club = 0;
    for group in groups {
        let season = group_season(alloc, group, &scores[fixture..], &deductions[club..])?;
        seasons.push(season)?;
        fixture += group.fixtures.len();
        club += group.clubs.len();
    }
    Ok(seasons)
}

// The season of a group whose scores and deductions come first.
fn group_season(
    alloc: Global,
    group: &Sheet,
    scores: &[Option<Score>],
    deductions: &[u8],
) -> Result<Season, OutOfMemory>
    requires limits { IsWithinLimits group.now }
    requires results { IsTrue (are_results
        (record { scores = scores.now; deductions = deductions.now })) }
    requires fixtures { length group.now.fixtures ≤ length scores.now }
    requires clubs { length group.now.clubs ≤ length deductions.now }
    ensures { IfOk result (λ season. season ≡ record {
      scores = take (length group.now.fixtures) scores.now;
      deductions = take (length group.now.clubs) deductions.now;
    }) }
{
    let mut season = Season::unplayed(alloc, group.clubs.len(), group.fixtures.len())?;
    put_scores(&mut season, &scores[..group.fixtures.len()]);
    put_deductions(&mut season, &deductions[..group.clubs.len()]);
    Ok(season)
}

fn put_scores(season: &mut Season, scores: &[Option<Score>])
    requires same { length season.old.scores ≡ length scores.now }
    requires few { length scores.now ≤ 600 }
    requires may_be { IsTrue (list_all is_score_or_none scores.now) }
    ensures { season.new ≡ record season.old { scores = scores.now } }
{
    let mut fixture = 0_u16;
    for score in scores {
        put_score(season, fixture, *score);
        fixture += 1;
    }
}

fn put_score(season: &mut Season, fixture: u16, score: Option<Score>)
    requires in_range { fixture < length season.old.scores }
    requires may_be { IsTrue (is_score_or_none score) }
    ensures { season.new ≡ record season.old {
      scores = slice_set season.old.scores fixture score;
    } }
{
    match score {
        Some(score) => season.apply(&Event::Set { fixture, score }),
        None => season.apply(&Event::Clear { fixture }),
    }
}

fn put_deductions(season: &mut Season, deductions: &[u8])
    requires same { length season.old.deductions ≡ length deductions.now }
    requires few { length deductions.now ≤ 24 }
    requires may_be { IsTrue (list_all (λ points. nat_le points most_deduction) deductions.now) }
    ensures { season.new ≡ record season.old { deductions = deductions.now } }
{
    let mut club = 0_u8;
    for points in deductions {
        put_deduction(season, club, *points);
        club += 1;
    }
}

fn put_deduction(season: &mut Season, club: u8, points: u8)
    requires in_range { club < length season.old.deductions }
    requires may_be { points ≤ most_deduction }
    ensures { season.new ≡ record season.old {
      deductions = slice_set season.old.deductions club points;
    } }
{
    season.apply(&Event::Deduct { club, points });
}
