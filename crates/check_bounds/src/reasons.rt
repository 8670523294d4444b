//! What a reason says, over the extremes and the marks of a zone.

ghost use Rattle.std.specs.Prelude.{◌≡◌, ◌&&◌, ◌<◌, ◌≤◌, length, int_lt, pos, neg_ℤ};
ghost use Rattle.std.specs.Prelude.{◌||◌, ◌≤ℤ◌, ◌*ℤ◌};
ghost use Rattle.std.specs.List.{list_all};
ghost use Rattle.std.specs.Int.{int_min, int_max};
ghost use Rattle.league_core.specs.game.Seasons.{IsLeague};
ghost use Rattle.league_core.specs.game.Sums.{has_club};
ghost use Rattle.league_core.specs.game.ClubSets.{clubs_in};
ghost use Rattle.league_core.specs.game.Questions.{IsQuestionOf};
ghost use Rattle.league_core.specs.search.PointRanges.{points_range};
ghost use Rattle.league_core.specs.search.Options.{has_option, has_one_outcome};
ghost use Rattle.check_bounds.specs.inside.Cells.{FitScoreDomains};
ghost use Rattle.check_bounds.specs.inside.Refutes as over;
ghost use Rattle.check_bounds.specs.inside.Refutes.{refutes_over, own_range, is_low, is_high};
ghost use Rattle.check_bounds.specs.inside.Refutes.{sure_over};

use crate::cells::Cells;
use crate::int_range::IntRange;
use crate::rivals::{has_members_in, is_decided, too_many};
use crate::step::Marks;
use crate::tie_rounds::sure_against;
use crate::total::points_of_set;
use league_core::{ClubSet, Question, Reason, Season};

/// Whether the reason holds in a zone that leaves these cells and has these marks.
pub fn holds_over(
    season: &Season,
    question: &Question,
    cells: &Cells,
    marks: Marks,
    reason: Reason,
) -> bool
    requires league { IsLeague cells.now.sheet season.now }
    requires question { IsQuestionOf cells.now.sheet question.now }
    ensures fit { FitScoreDomains cells.now.scopes cells.now.corners }
    ensures value { result ≡ (list_all has_option cells.now.corners
        && refutes_over cells.now.sheet season.now question.now cells.now.corners
        (has_club (clubs_in marks.before)) (has_club (clubs_in marks.after)) reason) }
{
    cells.have_scores() && refutes(season, question, cells, marks, reason)
}

// What the reason says, over cells and marks.
fn refutes(
    season: &Season,
    question: &Question,
    cells: &Cells,
    marks: Marks,
    reason: Reason,
) -> bool
    requires deductions { length season.now.deductions ≤ 24 }
    requires club { question.now.club < 32 }
    ensures { result ≡ refutes_over cells.now.sheet season.now question.now cells.now.corners
        (has_club (clubs_in marks.before)) (has_club (clubs_in marks.after)) reason }
{
    match reason {
        Reason::Count => too_many(cells.sheet(), question, marks.before, marks.after),
        Reason::Window => by_window(question, cells.points(season, question.club)),
        Reason::Low(set) => by_low(season, question, cells, marks.after, set),
        Reason::High(set) => by_high(season, question, cells, marks.before, set),
        Reason::Tie => by_tie(season, question, cells, marks),
    }
}

// The club's points miss the window.
fn by_window(question: &Question, own: IntRange) -> bool
    ensures { result
        ≡ (int_lt own.greatest question.now.low || int_lt question.now.high own.least) }
{
    own.greatest < i64::from(question.low) || i64::from(question.high) < own.least
}

// A floor cut: all of the set are marked after, and have too many points together.
fn by_low(season: &Season, question: &Question, cells: &Cells, after: ClubSet, set: ClubSet) -> bool
    requires deductions { length season.now.deductions ≤ 24 }
    requires club { question.now.club < 32 }
    ensures { result ≡ is_low (has_club (clubs_in after))
        (int_min question.now.high
        (own_range cells.now.sheet season.now question.now cells.now.corners).greatest)
        (points_range cells.now.sheet season.now cells.now.corners (clubs_in set))
        (clubs_in set) }
{
    let own = cells.points(season, question.club);
    let together = points_of_set(season, cells, set);
    has_members_in(set, after)
        && times(set.len(), lesser(question.high, own.greatest)) < together.least
}

// A ceiling cut: all of the set are marked before, and have too few points together.
fn by_high(
    season: &Season,
    question: &Question,
    cells: &Cells,
    before: ClubSet,
    set: ClubSet,
) -> bool
    requires deductions { length season.now.deductions ≤ 24 }
    requires club { question.now.club < 32 }
    ensures { result ≡ is_high (has_club (clubs_in before))
        (int_max question.now.low
        (own_range cells.now.sheet season.now question.now cells.now.corners).least)
        (points_range cells.now.sheet season.now cells.now.corners (clubs_in set))
        (clubs_in set) }
{
    let own = cells.points(season, question.club);
    let together = points_of_set(season, cells, set);
    has_members_in(set, before)
        && together.greatest < times(set.len(), greater(question.low, own.least))
}

fn lesser(bound: i32, points: i64) -> i64
    requires { (neg_ℤ (pos 200000) ≤ℤ points) × (points ≤ℤ pos 200000) }
    ensures value { result ≡ int_min bound points }
    ensures near { (neg_ℤ (pos 3000000000) ≤ℤ result) × (result ≤ℤ pos 3000000000) }
{
    i64::from(bound).min(points)
}

fn greater(bound: i32, points: i64) -> i64
    requires { (neg_ℤ (pos 200000) ≤ℤ points) × (points ≤ℤ pos 200000) }
    ensures value { result ≡ int_max bound points }
    ensures near { (neg_ℤ (pos 3000000000) ≤ℤ result) × (result ≤ℤ pos 3000000000) }
{
    i64::from(bound).max(points)
}

// The criteria: each fixture has one outcome, and marks and what is sure decide.
fn by_tie(season: &Season, question: &Question, cells: &Cells, marks: Marks) -> bool
    requires { question.now.club < 32 }
    ensures { result ≡ (list_all has_one_outcome cells.now.corners
        && over.is_decided cells.now.sheet question.now (has_club (clubs_in marks.before))
        (has_club (clubs_in marks.after))
        (sure_over cells.now.sheet season.now cells.now.corners question.now.club)) }
{
    if !cells.have_one_outcome() {
        return false;
    }
    let sure = sure_against(season, cells, question.club);
    is_decided(cells.sheet(), question, marks.before, marks.after, &sure)
}

fn times(count: u8, number: i64) -> i64
    requires { (neg_ℤ (pos 3000000000) ≤ℤ number) × (number ≤ℤ pos 3000000000) }
    ensures { result ≡ (pos count *ℤ number) }
{
    i64::from(count) * number
}
