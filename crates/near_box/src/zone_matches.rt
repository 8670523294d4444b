//! What is left of the matches, from zone to zone of a season.

ghost use Rattle.std.specs.Prelude.{◌≡◌, length};
ghost use Rattle.league_core.specs.game.Seasons.{IsLeague};
ghost use Rattle.score_box.specs.inside.ZoneBoxViews.{HasFinish};
ghost use Rattle.near_box.specs.inside.ZoneMatches.{AreMatchesOfSeason, AreFilledIn, IsOfBox};
ghost use Rattle.near_box.specs.inside.ZoneMatches.{HaveResults, IsResultLeft};

use crate::left::{NOTHING, match_left, only_score};
use league_core::{Score, Season, Sheet};
use near_bound::{MatchLeft, PlayedPart, ZoneLeft};
use score_box::ZoneBox;

/// What all zones of a season share, and a place for each match, in the order of the sheet: played
/// ones have their result there, the others what the last zone left of them.
#[derive(Clone, Copy)]
pub struct ZoneMatches {
    played: PlayedPart,
    matches: [MatchLeft; 600],
}

impl ZoneMatches {
    /// Those of a season. Nothing is filled in for the open matches.
    pub fn of(sheet: &Sheet, season: &Season) -> ZoneMatches
        requires { IsLeague sheet.now season.now }
        ensures { AreMatchesOfSeason sheet.now season.now result }
    {
        ZoneMatches {
            played: PlayedPart::of(sheet, season),
            matches: results_of(sheet, season),
        }
    }

    /// Fills in what the box's zone leaves of the open matches.
    pub fn fill(&mut self, zone_box: &ZoneBox)
        requires has_finish { HasFinish zone_box.now }
        requires kept { AreMatchesOfSeason zone_box.now.sheet zone_box.now.season self.old }
        ensures kept { AreMatchesOfSeason zone_box.now.sheet zone_box.now.season self.new }
        ensures filled { AreFilledIn zone_box.now self.new }
    {
        let _sheet = zone_box.sheet();
        let scores = zone_box.season().scores();
        for i in 0..scores.len() {
            if scores[i].is_none() {
                self.matches[i] = match_left(zone_box.cell(i as u16));
            }
        }
    }

    /// What the zone leaves, once it is filled in.
    pub fn left<'k>(&'k self, zone_box: &'k ZoneBox) -> ZoneLeft<'k>
        requires kept { AreMatchesOfSeason zone_box.now.sheet zone_box.now.season self.now }
        requires filled { AreFilledIn zone_box.now self.now }
        ensures { IsOfBox zone_box.now result }
    {
        ZoneLeft {
            sheet: zone_box.sheet(),
            season: zone_box.season(),
            played: &self.played,
            matches: &self.matches[..zone_box.sheet().fixtures.len()],
            before: zone_box.before(),
            after: zone_box.after(),
        }
    }
}

// The results, each in the place of its match.
fn results_of(sheet: &Sheet, season: &Season) -> [MatchLeft; 600]
    requires { IsLeague sheet.now season.now }
    ensures long { length result ≡ 600 }
    ensures results { HaveResults season.now.scores result }
{
    let _fixtures = sheet.fixtures.len();
    let scores = season.scores();
    let mut matches = [NOTHING; 600];
    for i in 0..scores.len() {
        matches[i] = result_of(scores[i]);
    }
    matches
}

fn result_of(score: Option<Score>) -> MatchLeft
    ensures { IsResultLeft score result }
{
    match score {
        Some(score) => only_score(score),
        None => NOTHING,
    }
}
