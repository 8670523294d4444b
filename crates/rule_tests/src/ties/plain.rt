//! The sure order and the reason of the criteria as they are said: each sum of a club lies between
//! the least and the greatest that the scores of its matches allow.

use crate::plain_boxes::is_option;
use league_core::{
    Claim, ClubSet, Fixture, Literal, Order, Question, Score, Season, Sheet, Sure, Test,
};
use std::alloc::{AllocError, Global};

/// The least and the greatest value of a sum.
type Range = (i32, i32);

/// Points, goal difference, goals, away goals, wins and away wins, in this order.
type Sums = [Range; 6];

/// A match that may end with this score, beside the others of its number.
#[derive(Clone, Copy)]
struct Ending {
    number: u16,
    home: u8,
    away: u8,
    score: Score,
}

/// What a zone leaves of a league: the endings of each match in turn.
#[derive(Drop)]
pub struct Left {
    endings: Vec<Ending>,
    matches: u16,
    all: ClubSet,
    ranks: Vec<u16>,
    deducted: Vec<u8>,
    overall_first: bool,
}

/// The sums that a step compares.
#[derive(Clone, Copy)]
enum Step {
    Points,
    FirstSums,
    Among(ClubSet),
}

impl Ending {
    fn outcome(&self) -> i32 {
        points(self.score.home, self.score.away)
    }

    fn sums_of(&self, club: u8) -> Sums {
        if self.home == club {
            values(self.score.home, self.score.away, 0)
        } else {
            values(self.score.away, self.score.home, 1)
        }
    }
}

fn points(scored: u8, conceded: u8) -> i32 {
    if scored == conceded {
        1
    } else {
        i32::from(scored > conceded).wrapping_mul(3)
    }
}

fn values(scored: u8, conceded: u8, away: i32) -> Sums {
    let difference = i32::from(scored).wrapping_sub(i32::from(conceded));
    let goals = i32::from(scored);
    let win = i32::from(scored > conceded);
    [
        single(points(scored, conceded)),
        single(difference),
        single(goals),
        single(goals.wrapping_mul(away)),
        single(win),
        single(win.wrapping_mul(away)),
    ]
}

fn single(value: i32) -> Range {
    (value, value)
}

fn wider(one: Range, other: Range) -> Range {
    (one.0.min(other.0), one.1.max(other.1))
}

fn added(one: Range, other: Range) -> Range {
    (one.0.wrapping_add(other.0), one.1.wrapping_add(other.1))
}

// Sum after sum: the first that does not leave the two level decides, or says nothing.
fn compare(rival: &[Range], club: &[Range]) -> Sure {
    for (theirs, ours) in rival.iter().zip(club) {
        if theirs.0 > ours.1 {
            return Sure::Above;
        }
        if theirs.1 < ours.0 {
            return Sure::Below;
        }
        if theirs.0 != theirs.1 || ours.0 != ours.1 {
            return Sure::Unknown;
        }
    }
    Sure::Level
}

fn are_apart(rival: &[Range], club: &[Range]) -> bool {
    rival
        .iter()
        .zip(club)
        .any(|(theirs, ours)| theirs.0 > ours.1 || theirs.1 < ours.0)
}

impl Left {
    pub fn of(
        alloc: Global,
        sheet: &Sheet,
        season: &Season,
        zone: &[Literal],
    ) -> Result<Left, AllocError> {
        let mut left = Left {
            endings: Vec::new(alloc),
            matches: 0,
            all: ClubSet::empty(),
            ranks: Vec::new(alloc),
            deducted: Vec::new(alloc),
            overall_first: sheet.order == Order::OverallFirst,
        };
        left.add_all(sheet, season, zone)?;
        Ok(left)
    }

    fn add_all(
        &mut self,
        sheet: &Sheet,
        season: &Season,
        zone: &[Literal],
    ) -> Result<(), AllocError> {
        self.deducted.extend_from_slice(season.deductions())?;
        self.add_clubs(sheet)?;
        for (fixture, played) in sheet.fixtures.as_slice().iter().zip(season.scores()) {
            self.add_match(sheet, *fixture, *played, zone)?;
        }
        Ok(())
    }

    fn add_clubs(&mut self, sheet: &Sheet) -> Result<(), AllocError> {
        for number in 0..24u8 {
            let club = sheet.clubs.as_slice().get(number as usize);
            self.all = self.all.with_if(club.is_some(), number);
            self.ranks.push(club.map_or(0, |club| club.rank))?;
        }
        Ok(())
    }

    fn add_match(
        &mut self,
        sheet: &Sheet,
        fixture: Fixture,
        played: Option<Score>,
        zone: &[Literal],
    ) -> Result<(), AllocError> {
        for code in 0..9u8 {
            let ending = Ending {
                number: self.matches,
                home: fixture.home,
                away: fixture.away,
                score: Score {
                    home: code / 3,
                    away: code % 3,
                },
            };
            if is_option(sheet, played, zone, ending.number, ending.score) {
                self.endings.push(ending)?;
            }
        }
        self.matches = self.matches.wrapping_add(1);
        Ok(())
    }

    pub fn has_finish(&self) -> bool {
        (0..self.matches).all(|number| self.endings.iter().any(|ending| ending.number == number))
    }

    pub fn has_one_outcome(&self) -> bool {
        self.endings.iter().all(|one| {
            self.endings.iter().all(|other| one.number != other.number
                || one.outcome() == other.outcome())
        })
    }

    /// What is sure of the rival against the club, if the zone has a finish and one outcome.
    pub fn sure(&self, rival: u8, club: u8) -> Sure {
        match self.decided(rival, club) {
            Ok(told) | Err(told) => told,
        }
    }

    fn decided(&self, rival: u8, club: u8) -> Result<Sure, Sure> {
        let mut group = self.level(Step::Points, self.all, rival, club)?;
        if self.overall_first {
            group = self.level(Step::FirstSums, group, rival, club)?;
        }
        for _ in 0..32u8 {
            let level = self.level(Step::Among(group), group, rival, club)?;
            if level == group {
                break;
            }
            group = level;
        }
        Ok(compare(&self.overall(rival), &self.overall(club)))
    }

    // The clubs of the group that surely share the club's sums, if the rival does; an error is the
    // answer if it does not, or if it is not sure of each whether it does.
    fn level(&self, step: Step, group: ClubSet, rival: u8, club: u8) -> Result<ClubSet, Sure> {
        let ours = self.ranges(step, club);
        let told = compare(&self.ranges(step, rival), &ours);
        if told != Sure::Level {
            return Err(told);
        }
        let mut level = ClubSet::empty();
        for other in 0..24u8 {
            let theirs = self.ranges(step, other);
            let is_level = compare(&theirs, &ours) == Sure::Level;
            if group.has(other) && !is_level && !are_apart(&theirs, &ours) {
                return Err(Sure::Unknown);
            }
            level = level.with_if(group.has(other) && is_level, other);
        }
        Ok(level)
    }

    // What the step compares; sums that it leaves out are none.
    fn ranges(&self, step: Step, club: u8) -> [Range; 3] {
        let none = single(0);
        match step {
            Step::Points => {
                let off = self.deducted.get(club as usize).copied().unwrap_or(0);
                let less = single(0i32.wrapping_sub(i32::from(off)));
                [added(self.sums(self.all, club)[0], less), none, none]
            }
            Step::FirstSums => {
                let sums = self.sums(self.all, club);
                [sums[1], sums[2], none]
            }
            Step::Among(group) => {
                let sums = self.sums(group, club);
                [sums[0], sums[1], sums[2]]
            }
        }
    }

    fn overall(&self, club: u8) -> Sums {
        let mut sums = self.sums(self.all, club);
        let rank = self.ranks.get(club as usize).copied().unwrap_or(0);
        sums.rotate_left(1);
        sums[5] = single(0i32.wrapping_sub(i32::from(rank)));
        sums
    }

    // The sums of the club over the matches among the group.
    fn sums(&self, group: ClubSet, club: u8) -> Sums {
        let mut total = [single(0); 6];
        for number in 0..self.matches {
            let found = self.sums_of(number, group, club);
            for sum in 0..6 {
                total[sum] = added(total[sum], found[sum]);
            }
        }
        total
    }

    fn sums_of(&self, number: u16, group: ClubSet, club: u8) -> Sums {
        let mut found = None;
        for ending in &self.endings {
            let is_among = group.has(ending.home) && group.has(ending.away);
            let is_own = ending.home == club || ending.away == club;
            if ending.number == number && is_among && is_own {
                let sums = ending.sums_of(club);
                found = Some(widened(found.unwrap_or(sums), sums));
            }
        }
        found.unwrap_or([single(0); 6])
    }

    /// Whether the criteria refute the question, if the zone has a finish.
    pub fn is_refuted(&self, question: &Question, zone: &[Literal]) -> bool {
        let (mut front, mut back, mut left, mut is_wrong) = (0u8, 0u8, 0u8, false);
        for rival in 0..24u8 {
            if self.all.has(rival) && rival != question.club {
                let told = self.sure(rival, question.club);
                let before = is_marked(zone, rival, true);
                let after = is_marked(zone, rival, false);
                front = front.wrapping_add(u8::from(before || told == Sure::Above));
                back = back.wrapping_add(u8::from(after || told == Sure::Below));
                left = left.wrapping_add(1);
                is_wrong |= after && told == Sure::Above || before && told == Sure::Below;
            }
        }
        let is_full = match question.claim {
            Claim::Inside => front >= question.line,
            Claim::Outside => back.wrapping_add(question.line) > left,
        };
        self.has_one_outcome() && (is_full || is_wrong)
    }
}

fn widened(one: Sums, other: Sums) -> Sums {
    let mut wide = one;
    for sum in 0..6 {
        wide[sum] = wider(one[sum], other[sum]);
    }
    wide
}

fn is_marked(zone: &[Literal], rival: u8, yes: bool) -> bool {
    zone.iter().any(|literal| literal.test == Test::Rival { club: rival } && literal.yes == yes)
}
