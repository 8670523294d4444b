//! What becomes of the rivals that a zone marks when a match has fewer outcomes. No clause mentions
//! it.

ghost use Rattle.std.specs.Prelude.{◌<◌, length};
ghost use Rattle.score_box.specs.inside.ZoneBoxViews.{HasFinish};

use crate::left::Outcomes;
use crate::slack_table::SlackTable;
use league_core::{Claim, ClubSet, Fixture, Question};
use score_box::{ZoneBox, own_least, own_most};

/// By how many points a match can move a bound of a club.
const MOST_OF_A_MATCH: i32 = 3;

/// The bounds of the club's points, and by how many points the least of each rival marked after it
/// may rise, and the most of each marked before it may fall, until it meets them; and the rivals
/// that cannot be level with it where they meet them.
#[derive(Clone, Copy)]
pub struct BoundSlack<'a> {
    question: &'a Question,
    high: i32,
    low: i32,
    rises: SlackTable,
    falls: SlackTable,
    most: i32,
    least: i32,
    barred: ClubSet,
}

/// What becomes of the marked rivals in a half.
#[derive(Clone, Copy)]
pub struct Effect {
    pub violates: bool,
    pub ties: bool,
}

/// By how many points a half raises the least of a club and lowers its most.
#[derive(Clone, Copy)]
struct Step {
    rise: i32,
    fall: i32,
}

impl<'a> BoundSlack<'a> {
    pub fn of(zone_box: &ZoneBox, question: &'a Question, barred: ClubSet) -> BoundSlack<'a>
        requires has_finish { HasFinish zone_box.now }
        requires of_sheet { question.now.club < length zone_box.now.sheet.clubs }
    {
        let most = own_most(zone_box, question);
        let least = own_least(zone_box, question);
        BoundSlack {
            question,
            high: zone_box.high(question.club),
            low: zone_box.low(question.club),
            rises: rises_of(zone_box, question, most),
            falls: falls_of(zone_box, question, least),
            most,
            least,
            barred,
        }
    }

    /// The question's club plays in the match.
    pub fn is_own(&self, sides: Fixture) -> bool {
        sides.home == self.question.club || sides.away == self.question.club
    }

    /// The match can bring a marked rival to its bound or past it.
    pub fn is_affected(&self, sides: Fixture) -> bool {
        self.is_own(sides) || self.is_near(sides.home) || self.is_near(sides.away)
    }

    fn is_near(&self, rival: u8) -> bool {
        self.rises.of(rival) <= MOST_OF_A_MATCH || self.falls.of(rival) <= MOST_OF_A_MATCH
    }

    /// What becomes of the rivals if of the outcomes that are left these remain. If one breaks its
    /// bound, it does not matter whether another is level.
    pub fn effect(&self, sides: Fixture, left: Outcomes, half: Outcomes) -> Effect {
        let home = Step::between(
            (left.home_least(), left.home_most()),
            (half.home_least(), half.home_most()),
        );
        let away = Step::between(
            (left.away_least(), left.away_most()),
            (half.away_least(), half.away_most()),
        );
        if sides.home == self.question.club {
            self.own_effect(home, sides.away, away)
        } else if sides.away == self.question.club {
            self.own_effect(away, sides.home, home)
        } else {
            let first = self.seen(sides.home, home);
            first.and(self.seen(sides.away, away))
        }
    }

    // The same in a match of the question's club against a rival.
    fn own_effect(&self, own: Step, rival: u8, step: Step) -> Effect {
        let most = self.high.wrapping_sub(own.fall);
        let least = self.low.wrapping_add(own.rise);
        let moved = Step {
            rise: self.most.wrapping_sub(most.min(self.question.high)),
            fall: least.max(self.question.low).wrapping_sub(self.least),
        };
        if moved.rise == 0 && moved.fall == 0 {
            return self.seen(rival, step);
        }
        let met = self.effect_of(self.rises.of(rival), self.falls.of(rival), step.and(moved));
        let rise = self.rises.least_other(rival);
        met.and(self.effect_of(rise, self.falls.least_other(rival), moved))
    }

    // What becomes of one rival, which this step brings nearer to bounds that stay where they are.
    // One that cannot be level there breaks its bound already where it meets it.
    fn seen(&self, rival: u8, step: Step) -> Effect {
        let effect = self.effect_of(self.rises.of(rival), self.falls.of(rival), step);
        Effect {
            violates: effect.violates || (effect.ties && self.barred.has(rival)),
            ties: effect.ties,
        }
    }

    fn effect_of(&self, rise: i32, fall: i32, step: Step) -> Effect {
        Effect {
            violates: rise < step.rise || fall < step.fall,
            ties: match self.question.claim {
                Claim::Inside => rise == step.rise,
                Claim::Outside => fall == step.fall,
            },
        }
    }
}

// By how many points the least of each rival marked after the club may rise until it meets this
// number.
fn rises_of(zone_box: &ZoneBox, question: &Question, most: i32) -> SlackTable
    requires { HasFinish zone_box.now }
{
    let clubs = zone_box.sheet().clubs.len() as u8;
    let mut rooms = SlackTable::unbounded();
    for club in zone_box.after().clubs() {
        if club != question.club && club < clubs {
            rooms.put(club, most.wrapping_sub(zone_box.low(club)));
        }
    }
    rooms
}

// By how many points the most of each rival marked before the club may fall until it meets this
// number.
fn falls_of(zone_box: &ZoneBox, question: &Question, least: i32) -> SlackTable
    requires { HasFinish zone_box.now }
{
    let clubs = zone_box.sheet().clubs.len() as u8;
    let mut rooms = SlackTable::unbounded();
    for club in zone_box.before().clubs() {
        if club != question.club && club < clubs {
            rooms.put(club, zone_box.high(club).wrapping_sub(least));
        }
    }
    rooms
}

impl Effect {
    fn and(self, other: Effect) -> Effect {
        Effect {
            violates: self.violates || other.violates,
            ties: self.ties || other.ties,
        }
    }
}

impl Step {
    // From the least and the most points that a side had left to those of a half.
    fn between(left: (i32, i32), half: (i32, i32)) -> Step {
        Step {
            rise: half.0.wrapping_sub(left.0),
            fall: left.1.wrapping_sub(half.1),
        }
    }

    fn and(self, other: Step) -> Step {
        Step {
            rise: self.rise.wrapping_add(other.rise),
            fall: self.fall.wrapping_add(other.fall),
        }
    }
}
