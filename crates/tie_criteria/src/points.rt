//! A club's points: those of all its matches, less what is taken off.

ghost use Rattle.std.specs.Prelude.{◌≡◌, ◌<◌, ◌-ℤ◌, pos, length};
ghost use Rattle.league_core.specs.game.Seasons.{IsLeague};
ghost use Rattle.league_core.specs.game.Sums.{points_of};
ghost use Rattle.tie_criteria.specs.inside.Sums.{IsNear};

use crate::measure::Matches;
use crate::sums::sums_of;
use league_core::{Season, Sheet};

/// The club's points from the matches that are played, less its deduction; it may be negative.
pub fn points_of(sheet: &Sheet, season: &Season, club: u8) -> i32
    requires league { IsLeague sheet.now season.now }
    requires in_range { club < length sheet.now.clubs }
    ensures { result ≡ points_of sheet.now season.now club }
{
    let sums = sums_of(sheet, season, Matches::All, club);
    less(sums.points, season.deducted(club))
}

// So many points less those taken off.
fn less(points: i32, deducted: u8) -> i32
    requires { IsNear 1000000 points }
    ensures { result ≡ (points -ℤ pos deducted) }
{
    points - i32::from(deducted)
}
