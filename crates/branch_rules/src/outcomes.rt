//! The tests of outcomes that split a zone.

ghost use Rattle.std.specs.Prelude.{◌≡◌, ◌<◌, ◌&&◌, ◌||◌, false, IfNone, IfSome, IsTrue, length};
ghost use Rattle.std.specs.Prelude.{None};
ghost use Rattle.league_core.specs.game.Seasons.{IsSeasonOf};
ghost use Rattle.league_core.specs.search.Options.{has_one_outcome};
ghost use Rattle.league_core.specs.search.Splits.{are_outcomes_fixed};
ghost use Rattle.score_box.specs.inside.ZoneBoxViews.{HasFinish};
ghost use Rattle.branch_rules.specs.inside.Choices.{IsOutcomeSplit, options_at_fixture};
ghost use Rattle.branch_rules.specs.inside.Outcomes.{AreOutcomesOf};

use crate::left::Outcomes;
use crate::rated::{Rated, better};
use crate::rating::Rater;
use league_core::{ClubSet, Fixture, Question, Test};
use score_box::ZoneBox;

/// The test of an outcome that is rated highest, of those that split the zone; none if each fixture
/// has one outcome. A test that brings one of the barred rivals level is rated as if that were too
/// much.
pub fn outcome_test(zone_box: &ZoneBox, question: &Question, barred: ClubSet) -> Option<Rated>
    requires has_finish { HasFinish zone_box.now }
    requires of_sheet { question.now.club < length zone_box.now.sheet.clubs }
    ensures some { IfSome result (λ one. IsOutcomeSplit zone_box.now question.now one.test) }
    ensures none { IfNone result (IsTrue
        (are_outcomes_fixed zone_box.now.sheet zone_box.now.season zone_box.now.zone)) }
{
    let rater = Rater::of(zone_box, question, barred);
    let unplayed = zone_box.unplayed();
    let mut best = None;
    for i in 0..unplayed.len() {
        best = better_of(zone_box, question, &rater, best, unplayed[i]);
        if rater.is_beyond(best) {
            return best;
        }
    }
    best
}

// The best test so far, or a test of a fixture's outcome that is rated higher. If no such test can
// be, none is rated.
fn better_of(
    zone_box: &ZoneBox,
    question: &Question,
    rater: &Rater,
    best: Option<Rated>,
    fixture: u16,
) -> Option<Rated>
    requires has_finish { HasFinish zone_box.now }
    requires in_range { fixture < length zone_box.now.season.scores }
    requires splits { IfSome best (λ one. IsOutcomeSplit zone_box.now question.now one.test) }
    ensures some { IfSome result (λ one. IsOutcomeSplit zone_box.now question.now one.test) }
    ensures none { result ≡ None → (best ≡ None)
        × IsTrue (has_one_outcome (options_at_fixture zone_box.now fixture)) }
{
    let left = Outcomes::at(zone_box, fixture);
    if !left.parts_by_home() && !left.parts_by_draw() {
        return best;
    }
    if let Some(rated) = best {
        if rater.is_unbeaten(rated.rate, sides_of(zone_box, fixture)) {
            return best;
        }
    }
    better(
        best,
        rated_outcome(zone_box, question, rater, fixture, left),
    )
}

// The better of the two tests of a fixture's outcome; none if it has one outcome.
fn rated_outcome(
    zone_box: &ZoneBox,
    question: &Question,
    rater: &Rater,
    fixture: u16,
    left: Outcomes,
) -> Option<Rated>
    requires has_finish { HasFinish zone_box.now }
    requires in_range { fixture < length zone_box.now.season.scores }
    requires left { AreOutcomesOf (options_at_fixture zone_box.now fixture) left }
    ensures some { IfSome result (λ one. IsOutcomeSplit zone_box.now question.now one.test) }
    ensures none { IfNone result
        (IsTrue (has_one_outcome (options_at_fixture zone_box.now fixture))) }
{
    let home = rated_home(zone_box, question, rater, fixture, left);
    let draw = rated_draw(zone_box, question, rater, fixture, left);
    better(home, draw)
}

// The test of a home win, if it splits the zone.
fn rated_home(
    zone_box: &ZoneBox,
    question: &Question,
    rater: &Rater,
    fixture: u16,
    left: Outcomes,
) -> Option<Rated>
    requires has_finish { HasFinish zone_box.now }
    requires in_range { fixture < length zone_box.now.season.scores }
    requires left { AreOutcomesOf (options_at_fixture zone_box.now fixture) left }
    ensures some { IfSome result (λ one. IsOutcomeSplit zone_box.now question.now one.test) }
    ensures none { IfNone result ((left.wins && (left.draws || left.losses)) ≡ false) }
{
    if left.parts_by_home() {
        let rate = rater.rate(
            sides_of(zone_box, fixture),
            left,
            left.half_by_home(true),
            left.half_by_home(false),
            true,
        );
        let test = Test::Home { fixture };
        Some(Rated { test, rate })
    } else {
        None
    }
}

// The test of a draw, if it splits the zone.
fn rated_draw(
    zone_box: &ZoneBox,
    question: &Question,
    rater: &Rater,
    fixture: u16,
    left: Outcomes,
) -> Option<Rated>
    requires has_finish { HasFinish zone_box.now }
    requires in_range { fixture < length zone_box.now.season.scores }
    requires left { AreOutcomesOf (options_at_fixture zone_box.now fixture) left }
    ensures some { IfSome result (λ one. IsOutcomeSplit zone_box.now question.now one.test) }
    ensures none { IfNone result ((left.draws && (left.wins || left.losses)) ≡ false) }
{
    if left.parts_by_draw() {
        let rate = rater.rate(
            sides_of(zone_box, fixture),
            left,
            left.half_by_draw(true),
            left.half_by_draw(false),
            false,
        );
        let test = Test::Draw { fixture };
        Some(Rated { test, rate })
    } else {
        None
    }
}

/// The two sides of a fixture.
pub fn sides_of(zone_box: &ZoneBox, fixture: u16) -> Fixture
    requires { fixture < length zone_box.now.season.scores }
    ensures of_sheet { IsSeasonOf zone_box.now.sheet zone_box.now.season }
{
    let _season = zone_box.season();
    zone_box.sheet().fixtures.as_slice()[fixture as usize]
}
