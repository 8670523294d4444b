//! How much a league may hold: the limits of a sheet, of a season and of what is asked of them.
//!
//! The definitions of specs/ have numbers of their own, in `specs/game/Limits.antt`, which
//! `constants_are_the_limits` ties to these: a constant that is changed here breaks that proof.

ghost use Rattle.std.specs.Prelude.{◌≡◌, pos, neg_ℤ};
ghost use Rattle.league_core.specs.game.Limits.{least_clubs, most_clubs, most_fixtures, most_lines};
ghost use Rattle.league_core.specs.game.Limits.{most_rank, most_goal_limit, most_budget};
ghost use Rattle.league_core.specs.game.Limits.{most_name_bytes, most_goals, most_deduction};
ghost use Rattle.league_core.specs.game.Limits.{least_points, most_points, most_events};
ghost use Rattle.league_core.specs.game.Limits.{most_finishes, set_width};

/// The clubs of a sheet are at least 2.
pub const LEAST_CLUBS: u8 = 2;
/// The clubs of a sheet are at most so many.
pub const MOST_CLUBS: u8 = 24;
/// The fixtures of a sheet are at most so many.
pub const MOST_FIXTURES: u16 = 600;
/// The lines of a sheet are at most so many.
pub const MOST_LINES: u8 = 4;
/// The greatest fixed rank of a club; the least is 1.
pub const MOST_RANK: u16 = 999;
/// The greatest goal limit of a sheet, for a side of a match not played yet; the least is 1.
pub const MOST_GOAL_LIMIT: u8 = 20;
/// The greatest node budget of a sheet; the least is 1.
pub const MOST_BUDGET: u32 = 50_000;
/// The bytes of a name are at most so many, and at least 1.
pub const MOST_NAME_BYTES: u8 = 40;
/// The goals of a side in a played match are at most so many.
pub const MOST_GOALS: u8 = 99;
/// The points taken off a club are at most so many.
pub const MOST_DEDUCTION: u8 = 99;
/// The points of a club are at most so many: three for each fixture of a full sheet.
pub const MOST_POINTS: u16 = 1800;
/// The events of a feed are at most so many.
pub const MOST_EVENTS: u32 = 100_000;
/// The finishes that a walk over all of them may have are at most so many.
pub const MOST_FINISHES: u32 = 10_000;
/// The clubs that a set of clubs can name are those below this number.
pub const SET_WIDTH: u8 = 32;

/// The constants are the numbers that the definitions state.
pub fn constants_are_the_limits()
    ensures two_clubs { LEAST_CLUBS ≡ least_clubs }
    ensures clubs { MOST_CLUBS ≡ most_clubs }
    ensures fixtures { MOST_FIXTURES ≡ most_fixtures }
    ensures lines { MOST_LINES ≡ most_lines }
    ensures rank { MOST_RANK ≡ most_rank }
    ensures goal_limit { MOST_GOAL_LIMIT ≡ most_goal_limit }
    ensures budget { MOST_BUDGET ≡ most_budget }
    ensures name_bytes { MOST_NAME_BYTES ≡ most_name_bytes }
    ensures goals { MOST_GOALS ≡ most_goals }
    ensures deduction { MOST_DEDUCTION ≡ most_deduction }
    ensures low { neg_ℤ (pos MOST_DEDUCTION) ≡ least_points }
    ensures high { pos MOST_POINTS ≡ most_points }
    ensures events { MOST_EVENTS ≡ most_events }
    ensures finishes { MOST_FINISHES ≡ most_finishes }
    ensures width { SET_WIDTH ≡ set_width }
{}
