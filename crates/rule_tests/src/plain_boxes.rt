//! What a zone leaves, by trying every score: for leagues with few goals.

use league_core::{ClubSet, Fixture, Literal, Score, Season, Sheet, Test};

/// No score of a drawn league has so many goals on a side.
const MOST: u8 = 4;

/// The goals of a score are as the literal says, if it is of this fixture.
pub fn agrees(literal: &Literal, number: u16, score: Score) -> bool {
    match literal.test {
        Test::Home { fixture } => fixture != number || (score.home > score.away) == literal.yes,
        Test::Draw { fixture } => fixture != number || (score.home == score.away) == literal.yes,
        Test::HomeMost { fixture, most } => {
            fixture != number || (score.home <= most) == literal.yes
        }
        Test::AwayMost { fixture, most } => {
            fixture != number || (score.away <= most) == literal.yes
        }
        Test::Rival { .. } => true,
    }
}

fn may_end(sheet: &Sheet, played: Option<Score>, score: Score) -> bool {
    match played {
        Some(found) => found == score,
        None => score.home <= sheet.goal_limit && score.away <= sheet.goal_limit,
    }
}

/// The fixture may end so in the zone.
pub fn is_option(
    sheet: &Sheet,
    played: Option<Score>,
    zone: &[Literal],
    number: u16,
    score: Score,
) -> bool {
    may_end(sheet, played, score) && zone.iter().all(|literal| agrees(literal, number, score))
}

// Three points for a win, one for a draw, to the clubs of the set.
fn points(fixture: Fixture, score: Score, set: ClubSet) -> i32 {
    let (home, away) = if score.home > score.away {
        (3, 0)
    } else if score.home == score.away {
        (1, 1)
    } else {
        (0, 3)
    };
    let mut sum = 0i32;
    if set.has(fixture.home) {
        sum = sum.saturating_add(home);
    }
    if set.has(fixture.away) {
        sum = sum.saturating_add(away);
    }
    sum
}

/// What a fixture leaves: whether it has an option, options of how many outcomes, and the least and
/// the most points of the set.
#[derive(Clone, Copy)]
pub struct Left {
    pub some: bool,
    pub outcomes: u8,
    pub least: i32,
    pub most: i32,
}

fn tried(
    sheet: &Sheet,
    played: Option<Score>,
    zone: &[Literal],
    number: u16,
    fixture: Fixture,
    set: ClubSet,
) -> Left {
    let mut found = [false, false, false];
    let mut least = 9;
    let mut most = -9;
    for home in 0..MOST {
        for away in 0..MOST {
            let score = Score { home, away };
            if is_option(sheet, played, zone, number, score) {
                found[0] = found[0] || home > away;
                found[1] = found[1] || home == away;
                found[2] = found[2] || home < away;
                least = points(fixture, score, set).min(least);
                most = points(fixture, score, set).max(most);
            }
        }
    }
    let outcomes = u8::from(found[0]) + u8::from(found[1]) + u8::from(found[2]);
    Left {
        some: outcomes > 0,
        outcomes,
        least,
        most,
    }
}

/// What all fixtures leave together, deductions taken off.
#[derive(Clone, Copy)]
pub struct Sums {
    pub has_finish: bool,
    pub open_outcomes: usize,
    pub least: i32,
    pub most: i32,
}

pub fn sums_of(sheet: &Sheet, season: &Season, zone: &[Literal], set: ClubSet) -> Sums {
    let mut all = Sums {
        has_finish: true,
        open_outcomes: 0,
        least: 0,
        most: 0,
    };
    let matches = sheet.fixtures.as_slice().iter().zip(season.scores());
    for (number, (fixture, played)) in matches.enumerate() {
        let number = u16::try_from(number).unwrap_or(0);
        let left = tried(sheet, *played, zone, number, *fixture, set);
        all.has_finish = all.has_finish && left.some;
        all.open_outcomes = all
            .open_outcomes
            .saturating_add(usize::from(left.outcomes > 1));
        all.least = all.least.saturating_add(left.least);
        all.most = all.most.saturating_add(left.most);
    }
    for (club, off) in season.deductions().iter().enumerate() {
        if set.has(u8::try_from(club).unwrap_or(99)) {
            all.least = all.least.saturating_sub(i32::from(*off));
            all.most = all.most.saturating_sub(i32::from(*off));
        }
    }
    all
}
