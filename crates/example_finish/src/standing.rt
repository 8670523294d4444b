//! Where a club stands in a group of clubs.

ghost use Rattle.std.specs.Prelude.{◌≡◌, ◌<◌, ◌≤◌, ◌||◌, ◌&&◌, ◌==◌, ℕ, [], length};
ghost use Rattle.std.specs.List.{range_with_len};
ghost use Rattle.std.specs.Ordering.{is_lt, is_eq};
ghost use Rattle.league_core.specs.declared.sheet.Sheet.{Sheet};
ghost use Rattle.league_core.specs.game.Results.{Results};
ghost use Rattle.league_core.specs.game.Sheets.{IsWithinLimits, clubs_of};
ghost use Rattle.league_core.specs.game.Sums.{has_club};
ghost use Rattle.league_core.specs.game.Ranking.{place_of};
ghost use Rattle.league_core.specs.inside.LotsFor.{lots_for_claim, order_without_lots};
ghost use Rattle.league_core.specs.game.ClubSets.{clubs_in};
ghost use Rattle.example_finish.specs.inside.ProposedTotals.{by_criterion};
ghost use Rattle.example_finish.specs.inside.GroupStandings.{IsStandingOf, by_number_in};

use crate::criterion::Comparison;
use league_core::{Claim, ClubSet};

/// The clubs of a group that come before one of its clubs, and those level with it, itself among
/// them.
#[derive(Clone, Copy)]
pub struct Standing {
    pub ahead: ClubSet,
    pub level: ClubSet,
}

impl Standing {
    /// The clubs of the group around the club, by a comparison.
    pub fn by(comparison: &Comparison, group: ClubSet, club: u8) -> Standing
        ensures { IsStandingOf (by_criterion comparison.now.criterion
            comparison.now.sheet.now comparison.now.season.now comparison.now.table.now)
            (clubs_in group) club result }
    {
        let mut standing = Standing {
            ahead: ClubSet::empty(),
            level: ClubSet::empty(),
        };
        for other in group.clubs() {
            standing = standing.with(comparison, club, other);
        }
        standing
    }

    /// The first clubs, so many of them, around a club, by their points.
    pub fn by_points(points: &[i32], clubs: u8, club: u8) -> Standing
        requires few { clubs ≤ 24 }
        requires long { length points.now ≡ 24 }
        requires in_range { club < 24 }
        ensures { IsStandingOf (by_number_in points.now) (range_with_len 0 clubs) club result }
    {
        let mut standing = Standing {
            ahead: ClubSet::empty(),
            level: ClubSet::empty(),
        };
        for other in 0..clubs {
            standing = standing.with_points(points, club, other);
        }
        standing
    }

    /// Where a club stands that is the whole group.
    pub fn alone(group: ClubSet) -> Standing
        ensures ahead { clubs_in result.ahead ≡ [] }
        ensures level { result.level ≡ group }
    {
        Standing {
            ahead: ClubSet::empty(),
            level: group,
        }
    }

    /// The clubs ahead by this or by the next one, and those level by both.
    pub fn then(self, next: Standing) -> Standing
        ensures ahead { (x : ℕ) → has_club (clubs_in result.ahead) x
            ≡ (has_club (clubs_in self.ahead) x || has_club (clubs_in next.ahead) x) }
        ensures level { result.level ≡ next.level }
    {
        Standing {
            ahead: self.ahead.union(next.ahead),
            level: next.level,
        }
    }

    /// The place, from 1, of the club that these are around before the lots, with the lots that
    /// favour the claim.
    pub fn place(self, claim: Claim) -> u8
        ensures { (sheet : Sheet) (season : Results) (club : ℕ)
            → IsWithinLimits sheet → club < length sheet.clubs
            → IsStandingOf (order_without_lots sheet season) (clubs_of sheet) club self
            → result ≡ place_of sheet season (lots_for_claim (length sheet.clubs) club claim)
            club }
    {
        match claim {
            Claim::Inside => 1 + self.ahead.len(),
            Claim::Outside => self.ahead.union(self.level).len(),
        }
    }

    // With one more of the clubs, by their points.
    fn with_points(self, points: &[i32], club: u8, other: u8) -> Standing
        requires long { length points.now ≡ 24 }
        requires club { club < 24 }
        requires other { other < 24 }
        ensures ahead { (x : ℕ) → has_club (clubs_in result.ahead) x
            ≡ (has_club (clubs_in self.ahead) x
            || ((other == x) && is_lt (by_number_in points.now x club))) }
        ensures level { (x : ℕ) → has_club (clubs_in result.level) x
            ≡ (has_club (clubs_in self.level) x
            || ((other == x) && is_eq (by_number_in points.now x club))) }
    {
        let order = points[club as usize].cmp(&points[other as usize]);
        Standing {
            ahead: self.ahead.with_if(order.is_lt(), other),
            level: self.level.with_if(order.is_eq(), other),
        }
    }

    // With one more of the clubs.
    fn with(self, comparison: &Comparison, club: u8, other: u8) -> Standing
        requires { other < 32 }
        ensures ahead { (x : ℕ) → has_club (clubs_in result.ahead) x
            ≡ (has_club (clubs_in self.ahead) x || ((other == x)
            && is_lt (by_criterion comparison.now.criterion comparison.now.sheet.now
            comparison.now.season.now comparison.now.table.now x club))) }
        ensures level { (x : ℕ) → has_club (clubs_in result.level) x
            ≡ (has_club (clubs_in self.level) x || ((other == x)
            && is_eq (by_criterion comparison.now.criterion comparison.now.sheet.now
            comparison.now.season.now comparison.now.table.now x club))) }
    {
        let order = comparison.order(other, club);
        Standing {
            ahead: self.ahead.with_if(order.is_lt(), other),
            level: self.level.with_if(order.is_eq(), other),
        }
    }
}
