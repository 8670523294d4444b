//! Whether each match has one outcome.

ghost use Rattle.std.specs.Prelude.{◌≡◌};
ghost use Rattle.tie_bound.specs.inside.Boxes.{have_one_outcome};

use score_box::ZoneBox;

/// All open scores of each fixture have one outcome; a fixture without any is no exception.
pub fn has_one_outcome(zone_box: &ZoneBox) -> bool
    ensures { result ≡ have_one_outcome zone_box.now }
{
    zone_box.open_outcomes() == 0
}
