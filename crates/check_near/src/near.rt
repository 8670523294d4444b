//! The near reason, over the domains and the marks of a zone.

ghost use Rattle.std.specs.Prelude.{◌≡◌, ◌<◌, ◌≤◌, List, length};
ghost use Rattle.std.specs.Prelude.{if◌then◌else◌, nat_lt};
ghost use Rattle.league_core.specs.declared.zone.Literal.{Literal};
ghost use Rattle.league_core.specs.game.Seasons.{IsLeague};
ghost use Rattle.league_core.specs.game.Questions.{IsQuestionOf};
ghost use Rattle.league_core.specs.search.Options.{options_in};
ghost use Rattle.near_laws.specs.Near.{has_near_reason};
ghost use Rattle.check_bounds.specs.inside.Trails.{AreMarks};
ghost use Rattle.check_bounds.specs.inside.Zones.{AreScoreDomainsOf};
ghost use Rattle.check_near.specs.inside.MatchesOver.{IsMatchOf, AreMatchesOf};

use check_bounds::{GoalRange, Marks, ScoreDomain, Trail};
use league_core::{Question, Season, Sheet};
use near_bound::{MatchLeft, PlayedPart, ZoneLeft, has_near};

// No score.
const NOTHING: MatchLeft = MatchLeft {
    home_win: false,
    draw: false,
    away_win: false,
    home_least: 0,
    home_most: 0,
    away_least: 0,
    away_most: 0,
};

/// Whether the near reason holds by the rival, by its number from 0, in the zone of the way: in a
/// few walks over the fixtures for each club concerned, and over at most 256 groups of rivals.
pub fn has_near_on(way: &Trail, question: &Question, rival: u8) -> bool
    requires question { IsQuestionOf way.now.sheet question.now }
    requires in_range { rival < length way.now.sheet.clubs }
    ensures { result
        ≡ has_near_reason way.now.sheet way.now.season question.now way.now.zone rival }
{
    has_near_over(
        way.sheet(),
        way.season(),
        question,
        way.domains(),
        way.marks(),
        rival,
    )
}

// Whether it holds in a zone that leaves these domains and has these marks.
fn has_near_over(
    sheet: &Sheet,
    season: &Season,
    question: &Question,
    domains: &[ScoreDomain],
    marks: Marks,
    rival: u8,
) -> bool
    requires league { IsLeague sheet.now season.now }
    requires many { length domains.now ≡ length sheet.now.fixtures }
    requires question { IsQuestionOf sheet.now question.now }
    requires in_range { rival < length sheet.now.clubs }
    ensures { (zone : List Literal)
        → AreScoreDomainsOf domains.now (options_in sheet.now season.now zone)
        → AreMarks marks zone
        → result ≡ has_near_reason sheet.now season.now question.now zone rival }
{
    let matches = matches_left(domains);
    let played = PlayedPart::of(sheet, season);
    let left = ZoneLeft {
        sheet,
        season,
        played: &played,
        matches: &matches[..domains.len()],
        before: marks.before,
        after: marks.after,
    };
    has_near(&left, question, rival)
}

// What is left of each fixture.
fn matches_left(domains: &[ScoreDomain]) -> [MatchLeft; 600]
    requires { length domains.now ≤ 600 }
    ensures long { length result ≡ 600 }
    ensures each { AreMatchesOf result domains.now (length domains.now) }
{
    let mut matches = [NOTHING; 600];
    for place in 0..domains.len() {
        matches[place] = match_left(&domains[place]);
    }
    matches
}

// The same scores in other words.
fn match_left(scope: &ScoreDomain) -> MatchLeft
    ensures { IsMatchOf result scope.now }
{
    MatchLeft {
        home_win: scope.home_win,
        draw: scope.draw,
        away_win: scope.away_win,
        home_least: least_of(scope.home),
        home_most: most_of(scope.home),
        away_least: least_of(scope.away),
        away_most: most_of(scope.away),
    }
}

// A range whose least is above every number of goals is empty; so is that from 1 to 0.
fn least_of(goals: GoalRange) -> u8
    ensures { result ≡ (if nat_lt 255 goals.least then 1 else goals.least) }
{
    if goals.least > 255 {
        1
    } else {
        goals.least as u8
    }
}

fn most_of(goals: GoalRange) -> u8
    ensures value { result ≡ (if nat_lt 255 goals.least then 0 else goals.most) }
    ensures few { goals.most ≤ 255 }
{
    if goals.least > 255 { 0 } else { goals.most }
}
