//! How soon a test of an outcome is tried. No clause mentions the rating: whatever it says, a
//! choice is proper and due.
//!
//! First come tests of which one half breaks the bound of one marked rival alone, or brings a rival
//! to it that is known not to end level with the club. Of the others
//! those come first whose yes half brings no pressed rival exactly level with the club: if one is
//! level the criteria decide, and they are sure only when all outcomes are fixed. If the club's own
//! points may miss the window, its own matches come before all that.

ghost use Rattle.std.specs.Prelude.{pos, neg_ℤ, ◌<◌, ◌≤ℤ◌, ◌≢◌, IsTrue, None, length};
ghost use Rattle.score_box.specs.inside.ZoneBoxViews.{HasFinish};

use crate::bound_slack::BoundSlack;
use crate::left::Outcomes;
use crate::rated::Rated;
use league_core::{Claim, ClubSet, Fixture, Question};
use score_box::ZoneBox;

/// The rating of a test of which one half is refuted at once.
const REFUTES_A_HALF: i32 = 8;

/// The rating of a home win, if the match brings no marked rival to its bound.
const UNFELT_HOME_WIN: i32 = 5;

/// The least rating of the club's own matches if its points may miss the window.
const OWN_MATCH: i32 = 100_000;

/// What the tests of one zone are rated by.
#[derive(Clone, Copy)]
pub struct Rater<'a> {
    question: &'a Question,
    pressure: BoundSlack<'a>,
    before: ClubSet,
    after: ClubSet,
    excess: i32,
}

impl<'a> Rater<'a> {
    pub fn of(zone_box: &ZoneBox, question: &'a Question, barred: ClubSet) -> Rater<'a>
        requires has_finish { HasFinish zone_box.now }
        requires of_sheet { question.now.club < length zone_box.now.sheet.clubs }
    {
        let excess = match question.claim {
            Claim::Inside => zone_box.high(question.club).wrapping_sub(question.high),
            Claim::Outside => question.low.wrapping_sub(zone_box.low(question.club)),
        };
        Rater {
            question,
            pressure: BoundSlack::of(zone_box, question, barred),
            before: zone_box.before(),
            after: zone_box.after(),
            excess,
        }
    }

    /// Nothing that is known of rivals would make the choice another one, or a better one: one half
    /// is refuted at once, or the club's own points may miss the window.
    pub fn is_urgent(rate: i32) -> bool {
        REFUTES_A_HALF <= rate
    }

    /// No test whatever is rated higher than the best so far.
    pub fn is_beyond(&self, best: Option<Rated>) -> bool
        ensures { IsTrue result → best ≢ None }
    {
        match best {
            Some(one) => REFUTES_A_HALF <= one.rate && self.excess <= 0,
            None => false,
        }
    }

    /// No test of a match between these is rated higher.
    pub fn is_unbeaten(&self, rate: i32, sides: Fixture) -> bool {
        if REFUTES_A_HALF <= rate {
            !self.counts_own(sides)
        } else {
            UNFELT_HOME_WIN <= rate && !self.pressure.is_affected(sides)
        }
    }

    /// The rating of a test that leaves these outcomes if it holds, and those if not.
    pub fn rate(
        &self,
        sides: Fixture,
        left: Outcomes,
        yes: Outcomes,
        no: Outcomes,
        is_home: bool,
    ) -> i32 {
        if self.counts_own(sides) {
            return self.rate_own(sides, left, yes);
        }
        if !self.pressure.is_affected(sides) {
            return UNFELT_HOME_WIN - points_if(!is_home, 1);
        }
        let first = self.pressure.effect(sides, left, yes);
        let second = self.pressure.effect(sides, left, no);
        if first.violates || second.violates {
            return REFUTES_A_HALF;
        }
        points_if(!first.ties, 4) + points_if(second.ties, 2) + points_if(is_home, 1)
    }

    // The match is the club's own, and its points may miss the window.
    fn counts_own(&self, sides: Fixture) -> bool {
        self.excess > 0 && self.pressure.is_own(sides)
    }
}

impl<'a> Rater<'a> {
    // The rating of one of the club's own matches: how near its yes half brings the club to the
    // window, and whether the opponent's mark agrees.
    fn rate_own(&self, sides: Fixture, left: Outcomes, yes: Outcomes) -> i32 {
        let at_home = sides.home == self.question.club;
        let opponent = if at_home { sides.away } else { sides.home };
        let points = if at_home {
            yes.home_most()
        } else {
            yes.away_most()
        };
        let (moved, agrees) = match self.question.claim {
            Claim::Inside => (
                most_of(left, at_home).wrapping_sub(points),
                self.before.has(opponent),
            ),
            Claim::Outside => (
                points.wrapping_sub(least_of(left, at_home)),
                self.after.has(opponent),
            ),
        };
        OWN_MATCH + nearness(moved, self.wanted_step()) + points_if(agrees, 50)
    }

    // By how many points the next match is best moved.
    fn wanted_step(&self) -> i32 {
        match self.question.claim {
            Claim::Inside => match self.excess {
                1 | 2 | 4 => 2,
                _ => 3,
            },
            Claim::Outside => match self.excess {
                1 => 1,
                _ => 3,
            },
        }
    }
}

fn points_if(counts: bool, points: i32) -> i32
    requires { (pos 0 ≤ℤ points) × (points ≤ℤ pos 100) }
    ensures { (pos 0 ≤ℤ result) × (result ≤ℤ pos 100) }
{
    if counts { points } else { 0 }
}

// Less the farther a step is from the wanted one; least if it leads away.
fn nearness(step: i32, wanted: i32) -> i32
    ensures { (neg_ℤ (pos 5000) ≤ℤ result) × (result ≤ℤ pos 0) }
{
    if step <= 0 {
        return -5000;
    }
    if step == wanted {
        0
    } else if step.wrapping_sub(wanted) == 1 || wanted.wrapping_sub(step) == 1 {
        -100
    } else {
        -200
    }
}

fn most_of(left: Outcomes, at_home: bool) -> i32 {
    if at_home {
        left.home_most()
    } else {
        left.away_most()
    }
}

fn least_of(left: Outcomes, at_home: bool) -> i32 {
    if at_home {
        left.home_least()
    } else {
        left.away_least()
    }
}
