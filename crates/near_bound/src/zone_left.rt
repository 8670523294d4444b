//! What the test of the near reason looks at.

ghost use Rattle.std.specs.Prelude.{◌≡◌, List};
ghost use Rattle.league_core.specs.declared.zone.Literal.{Literal};
ghost use Rattle.league_core.specs.search.Options.{has_finish};
ghost use Rattle.near_bound.specs.inside.ZonesLeft.{StandsFor};

use crate::match_left::MatchLeft;
use crate::played::PlayedPart;
use league_core::{ClubSet, Season, Sheet};

/// What a zone leaves of each fixture, and the rivals that it marks.
#[derive(Clone, Copy)]
pub struct ZoneLeft<'a> {
    pub sheet: &'a Sheet,
    pub season: &'a Season,
    /// What the played matches of the season add up to.
    pub played: &'a PlayedPart,
    /// One for each fixture, in the order of the sheet.
    pub matches: &'a [MatchLeft],
    /// The rivals marked before the question's club.
    pub before: ClubSet,
    /// The rivals marked after it.
    pub after: ClubSet,
}

impl<'a> ZoneLeft<'a> {
    /// Each fixture has a score left.
    pub(crate) fn has_finish(&self) -> bool
        ensures { (zone : List Literal) → StandsFor self.now zone
            → result ≡ has_finish self.now.sheet.now self.now.season.now zone }
    {
        for i in 0..self.matches.len() {
            if !self.matches[i].has_score() {
                return false;
            }
        }
        true
    }
}
