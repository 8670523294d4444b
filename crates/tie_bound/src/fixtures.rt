//! The fixtures of a box, with what is known of them.

ghost use Rattle.std.specs.Prelude.{◌≡◌, length};
ghost use Rattle.league_core.specs.game.Sheets.{IsWithinLimits};

use league_core::Fixture;
use score_box::ZoneBox;

/// The fixtures of the sheet: as many as the season has scores.
pub fn fixtures_of<'a>(zone_box: &'a ZoneBox<'_>) -> &'a [Fixture]
    ensures fixtures { result.now ≡ zone_box.now.sheet.fixtures }
    ensures many { length zone_box.now.season.scores ≡ length result.now }
    ensures limits { IsWithinLimits zone_box.now.sheet }
{
    let fixtures = zone_box.sheet().fixtures.as_slice();
    prove!(zone_box.season().scores().len() == fixtures.len());
    fixtures
}
