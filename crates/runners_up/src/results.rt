//! What the type of a season says of each of several.

ghost use Rattle.cup_laws.specs.inside.CupTruths.{AreCupResults};

use league_core::Season;

/// Each season has scores and deductions that may be.
pub fn have_results(seasons: &[Season])
    ensures { AreCupResults seasons.now }
{
    for group in 0..seasons.len() {
        let _scores = seasons[group].scores();
    }
}
