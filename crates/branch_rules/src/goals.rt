//! The tests of goals that split a zone in which each fixture has one outcome.

ghost use Rattle.std.specs.Prelude.{◌≡◌, ◌<◌, IfNone, IfSome, IsTrue, true, length};
ghost use Rattle.std.specs.Prelude.{Bool};
ghost use Rattle.league_core.specs.declared.season.Score.{Score};
ghost use Rattle.league_core.specs.search.Options.{has_one_outcome, has_one_score, is_single};
ghost use Rattle.league_core.specs.search.Splits.{are_outcomes_fixed};
ghost use Rattle.score_box.specs.declared.cell.Cell.{Cell};
ghost use Rattle.score_box.specs.inside.Cells.{IsScoreRangeOf, HasOneOutcome};
ghost use Rattle.score_box.specs.inside.ZoneBoxViews.{HasFinish};
ghost use Rattle.branch_rules.specs.inside.Choices.{IsGoalSplit, options_at_fixture};
ghost use Rattle.branch_rules.specs.inside.GoalTests.{DividesByGoals, HasOneAtMost, AreSame};

use crate::outcomes::sides_of;
use crate::rated::{Rated, better, test_of};
use league_core::{Fixture, Question, Test};
use score_box::{Cell, ScoreRange, ZoneBox};

/// The test of goals that is rated highest, of those that split the zone: in the widest range of
/// goals, matches of clubs level with the question's club before all others. None if each fixture
/// has one score, if each has one outcome.
pub fn goal_test(zone_box: &ZoneBox, question: &Question) -> Option<Test>
    requires has_finish { HasFinish zone_box.now }
    requires of_sheet { question.now.club < length zone_box.now.sheet.clubs }
    requires fixed { IsTrue
        (are_outcomes_fixed zone_box.now.sheet zone_box.now.season zone_box.now.zone) }
    ensures some { IfSome result (IsGoalSplit zone_box.now question.now) }
    ensures none { IfNone result (IsTrue
        (is_single zone_box.now.sheet zone_box.now.season zone_box.now.zone)) }
{
    let unplayed = zone_box.unplayed();
    let mut best = None;
    for i in 0..unplayed.len() {
        best = better(best, rated_goals(zone_box, question, unplayed[i]));
    }
    test_of(best)
}

// The test of a fixture's goals, if it has several scores.
fn rated_goals(zone_box: &ZoneBox, question: &Question, fixture: u16) -> Option<Rated>
    requires has_finish { HasFinish zone_box.now }
    requires of_sheet { question.now.club < length zone_box.now.sheet.clubs }
    requires in_range { fixture < length zone_box.now.season.scores }
    ensures some { IfSome result (λ one. IsGoalSplit zone_box.now question.now one.test) }
    ensures none { IfNone result (IsTrue (has_one_outcome (options_at_fixture zone_box.now fixture))
        → IsTrue (has_one_score (options_at_fixture zone_box.now fixture))) }
{
    let level = level_sides(zone_box, question, sides_of(zone_box, fixture));
    match goal_split(zone_box.cell(fixture), fixture) {
        Some(split) => Some(Rated {
            test: split.test,
            rate: split.rate.wrapping_add(level),
        }),
        None => None,
    }
}

// A hundred for each side that is level with the question's club at the least points, and for the
// club itself.
fn level_sides(zone_box: &ZoneBox, question: &Question, sides: Fixture) -> i32
    requires has_finish { HasFinish zone_box.now }
    requires of_sheet { question.now.club < length zone_box.now.sheet.clubs }
{
    let own = zone_box.low(question.club);
    let home = i32::from(has_least(zone_box, sides.home, own));
    let away = i32::from(has_least(zone_box, sides.away, own));
    let plays = i32::from(sides.home == question.club || sides.away == question.club);
    100 * (home + away + plays)
}

// So many are the least points of the club.
fn has_least(zone_box: &ZoneBox, club: u8, points: i32) -> bool
    requires { HasFinish zone_box.now }
{
    (club as usize) < zone_box.sheet().clubs.len() && zone_box.low(club) == points
}

// A test of goals that splits what the cell has left of its first outcome; none if that is one
// score.
fn goal_split(cell: &Cell, fixture: u16) -> Option<Rated>
    ensures some { IfSome result (λ one. DividesByGoals cell.now fixture one.test) }
    ensures none { IfNone result (HasOneOutcome cell.now → HasOneAtMost cell.now) }
{
    if let Some(goals) = cell.home_wins() {
        return split_of(goals, fixture);
    }
    if let Some(goals) = cell.draws() {
        return split_of(goals, fixture);
    }
    let goals = cell.away_wins()?;
    split_of(goals, fixture)
}

// The middle of the wider of two ranges; none if both have one number.
fn split_of(goals: ScoreRange, fixture: u16) -> Option<Rated>
    ensures some { IfSome result (λ one. (cell : Cell) (test : Score → Bool)
        → IsScoreRangeOf cell test goals → DividesByGoals cell fixture one.test) }
    ensures none { IfNone result (AreSame goals) }
{
    let home = goals.home_most.saturating_sub(goals.home_least);
    let away = goals.away_most.saturating_sub(goals.away_least);
    if home.max(away) == 0 {
        None
    } else if away <= home {
        let most = goals.home_least + home / 2;
        Some(Rated {
            test: Test::HomeMost { fixture, most },
            rate: i32::from(home),
        })
    } else {
        let most = goals.away_least + away / 2;
        Some(Rated {
            test: Test::AwayMost { fixture, most },
            rate: i32::from(away),
        })
    }
}
