//! How much is missing for a question to hold at a finish: 0 where nothing is.

use crate::standing::Standing;
use crate::tie_cost::{TieCosts, Weights};
use league_core::{ClubSet, Fixture};

/// What a finish costs, and what of it the criteria make for the rivals that are level with the
/// club on points.
#[derive(Clone, Copy)]
pub struct Cost {
    /// For as many rivals as are needed on the wanted side, those that cost least, what brings them
    /// there; and what brings the club into its window.
    pub total: u32,
    level: ClubSet,
    weights: Weights,
}

impl Cost {
    /// That of a finish whose points cost the least that `standing` says.
    pub fn of(ties: &TieCosts, standing: &Standing, least: u32) -> Cost {
        let mut weights = [0; 24];
        ties.note(standing.level(), &mut weights);
        Cost::with(standing, weights, least)
    }

    /// That of the finish where a match between these clubs has another score.
    pub fn after(&self, ties: &TieCosts, standing: &Standing, sides: Fixture, least: u32) -> Cost {
        let level = standing.level();
        let is_touched = level.has(sides.home) || level.has(sides.away) || ties.is_of_club(sides);
        if is_touched || level != self.level {
            Cost::of(ties, standing, least)
        } else {
            Cost::with(standing, self.weights, least)
        }
    }

    // With these weights of the rivals that are level. Each costs less than a point.
    fn with(standing: &Standing, weights: Weights, least: u32) -> Cost {
        let level = standing.level();
        let behind = behind_of(&weights, level);
        let left = standing
            .missing()
            .saturating_sub(level.without(behind).len());
        Cost {
            total: least_together(&weights, behind, left).saturating_add(least),
            level,
            weights,
        }
    }
}

// The rivals whose weight is not 0.
fn behind_of(weights: &Weights, level: ClubSet) -> ClubSet {
    let mut behind = ClubSet::empty();
    for rival in level.clubs() {
        if rival < 24 {
            behind = behind.with_if(0 < weights[rival as usize], rival);
        }
    }
    behind
}

// The least of the weights of these rivals together, so many of them, or all.
fn least_together(weights: &Weights, rivals: ClubSet, count: u8) -> u32 {
    if rivals.len() <= count {
        return sum_of(weights, rivals);
    }
    let mut left = rivals;
    let mut total: u32 = 0;
    for _ in 0..count {
        total = total.saturating_add(take_least(weights, &mut left));
    }
    total
}

fn sum_of(weights: &Weights, rivals: ClubSet) -> u32 {
    let mut total: u32 = 0;
    for rival in rivals.clubs() {
        if rival < 24 {
            total = total.saturating_add(weights[rival as usize]);
        }
    }
    total
}

// The least of their weights, whose rival leaves them.
fn take_least(weights: &Weights, rivals: &mut ClubSet) -> u32 {
    let mut least = u32::MAX;
    let mut first = ClubSet::empty();
    for rival in rivals.clubs() {
        if rival < 24 && weights[rival as usize] < least {
            least = weights[rival as usize];
            first = ClubSet::single(rival);
        }
    }
    *rivals = rivals.without(first);
    least
}
