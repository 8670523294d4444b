//! The points that a club can reach.

ghost use Rattle.std.specs.Prelude.{◌≡◌, ◌<◌, ◌≤ℤ◌, IfOk, length};
ghost use Rattle.league_core.specs.declared.question.Claim.TheVariants.{Inside};
ghost use Rattle.league_core.specs.game.Limits.{least_points, most_points};
ghost use Rattle.league_core.specs.game.Seasons.{IsLeague};
ghost use Rattle.qual_scores.specs.Bisections.{first_range};

use crate::point_range::PointRange;
use league_core::{ClubSet, OutOfMemory, Season, Sheet};
use score_box::{Played, ZoneBox};
use std::alloc::Global;

/// The least and the most points that a club can end with.
pub fn reach_of(
    alloc: Global,
    sheet: &Sheet,
    season: &Season,
    club: u8,
) -> Result<PointRange, OutOfMemory>
    requires league { IsLeague sheet.now season.now }
    requires of_sheet { club < length sheet.now.clubs }
    ensures first { IfOk result (λ range. range ≡ first_range sheet.now season.now club Inside) }
    ensures least { IfOk result (λ range. least_points ≤ℤ range.low) }
    ensures in_order { IfOk result (λ range. range.low ≤ℤ range.high) }
    ensures most { IfOk result (λ range. range.high ≤ℤ most_points) }
{
    let _results = season.deductions();
    let played = Played::of(alloc, sheet, season)?;
    let whole = ZoneBox::over(alloc, &played, &[])?;
    let range = whole.points(ClubSet::single(club));
    Ok(PointRange {
        low: range.least,
        high: range.most,
    })
}
