//! The records of all clubs in a group, in one pass over the fixtures.

ghost use Rattle.std.specs.Prelude.{◌≡◌, ◌≢◌, ◌<◌, ℕ, length, IfOk};
ghost use Rattle.league_core.specs.game.Seasons.{IsLeague};
ghost use Rattle.league_core.specs.game.Sums.{Worth, worth_to, worth_among, if_played};
ghost use Rattle.league_core.specs.game.ClubSets.{clubs_in};
ghost use Rattle.tie_criteria.specs.inside.Records.{no_record, record_at, IsBounded, GrowsBy};
ghost use Rattle.tie_criteria.specs.inside.Records.{AddsMatch, AreRecords};

use crate::triple::Triple;
use league_core::{ClubSet, Fixture, OutOfMemory, Score, Season, Sheet};
use std::alloc::Global;

/// The record of each club of the sheet in the matches of the group, by the clubs' numbers.
pub fn records(
    alloc: Global,
    sheet: &Sheet,
    season: &Season,
    group: ClubSet,
) -> Result<Vec<Triple>, OutOfMemory>
    requires league { IsLeague sheet.now season.now }
    ensures { IfOk result
        (λ found. AreRecords sheet.now season.now (clubs_in group) found.items) }
{
    let mut found = vec![in alloc; Triple::NONE; sheet.clubs.len()]?;
    add_all(&mut found, sheet, season, group);
    Ok(found)
}

// Adds all matches of the group to records that have none yet.
fn add_all(found: &mut [Triple], sheet: &Sheet, season: &Season, group: ClubSet)
    requires league { IsLeague sheet.now season.now }
    requires clubs { length found.old ≡ length sheet.now.clubs }
    requires none { (club : ℕ) → record_at found.old club ≡ no_record }
    ensures { AreRecords sheet.now season.now (clubs_in group) found.new }
{
    let fixtures = sheet.fixtures.as_slice();
    let scores = season.scores();
    for i in 0..fixtures.len() {
        add_if_counted(found, group, fixtures[i], scores[i]);
    }
}

// Adds the match to the records of its two clubs, if it is played and both are of the group.
fn add_if_counted(found: &mut [Triple], group: ClubSet, fixture: Fixture, score: Option<Score>)
    requires different { fixture.home ≢ fixture.away }
    requires home { fixture.home < length found.old }
    requires away { fixture.away < length found.old }
    requires room { (club : ℕ) → club < length found.old
        → IsBounded 1000000 (record_at found.old club) }
    ensures { (club : ℕ) → club < length found.old
        → GrowsBy (λ worth. if_played (worth_among (clubs_in group) worth club) fixture score)
        (record_at found.old club) (record_at found.new club) }
{
    if let Some(score) = counted(group, fixture, score) {
        add(found, fixture, score);
    }
}

// The score, if it counts in the group.
fn counted(group: ClubSet, fixture: Fixture, score: Option<Score>) -> Option<Score>
    ensures { (worth : Worth) (club : ℕ)
        → if_played (worth_among (clubs_in group) worth club) fixture score
        ≡ if_played (worth_to worth club) fixture result }
{
    if group.has(fixture.home) && group.has(fixture.away) {
        score
    } else {
        None
    }
}

fn add(found: &mut [Triple], fixture: Fixture, score: Score)
    requires different { fixture.home ≢ fixture.away }
    requires home { fixture.home < length found.old }
    requires away { fixture.away < length found.old }
    requires room { (club : ℕ) → club < length found.old
        → IsBounded 1000000 (record_at found.old club) }
    ensures { AddsMatch fixture score found.old found.new }
{
    let home = found[fixture.home as usize].plus(score.home, score.away);
    let away = found[fixture.away as usize].plus(score.away, score.home);
    found[fixture.home as usize] = home;
    found[fixture.away as usize] = away;
}
