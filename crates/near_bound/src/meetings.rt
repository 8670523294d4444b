//! Rivals that cannot meet a club with both of them on the points of a tie.

ghost use Rattle.std.specs.Prelude.{◌≡◌, ◌≢◌, ◌<◌, ◌+◌, ◌∷◌, [], ℕ, not, length, List};
ghost use Rattle.std.specs.Prelude.{slice_index_or};
ghost use Rattle.league_core.specs.declared.zone.Literal.{Literal};
ghost use Rattle.league_core.specs.search.Options.{has_option};
ghost use Rattle.near_bound.specs.inside.Ties.{IsTie, IsTieIn, fits_of, match_at};
ghost use Rattle.near_bound.specs.inside.GroupsLeft.{AreRivals};
ghost use Rattle.near_bound.specs.inside.FitEnds.{AreApartIfFit, AreRivalsSoFar, AreSides};

use crate::tie::Tie;
use league_core::ClubSet;

impl<'a> Tie<'a> {
    /// Of a club's able rivals those with which it has a match that has no score fit for both.
    pub fn apart_from(&self, club: u8, rivals: ClubSet) -> ClubSet
        requires tie { IsTie self.now }
        requires rivals { AreRivals self.now rivals club }
        ensures { AreApartIfFit self.now rivals club result }
    {
        let mut apart = ClubSet::empty();
        let open = self.left.played.open();
        for number in open {
            apart = self.with_match(apart, *number as usize, club);
        }
        apart.intersection(rivals)
    }

    // A match with one score at most lacks nothing for two clubs that have fit scores.
    fn with_match(&self, apart: ClubSet, fixture: usize, club: u8) -> ClubSet
        requires tie { IsTie self.now }
        requires of_sheet { fixture < length self.now.left.now.sheet.now.fixtures }
        requires in_range { club < length self.now.left.now.sheet.now.clubs }
        ensures { AreRivalsSoFar self.now club fixture apart
            → AreRivalsSoFar self.now club (fixture + 1) result }
    {
        if self.left.matches[fixture].has_one_at_most() {
            return apart;
        }
        let teams = self.match_of(fixture);
        if teams.home == club {
            return self.met(apart, fixture, club, teams.away);
        }
        if teams.away == club {
            return self.met(apart, fixture, club, teams.home);
        }
        apart
    }

    // With the rival in a match of the two, if it has no score that is fit for both.
    fn met(&self, apart: ClubSet, fixture: usize, club: u8, rival: u8) -> ClubSet
        requires tie { IsTie self.now }
        requires of_sheet { fixture < length self.now.left.now.sheet.now.fixtures }
        requires in_range { club < length self.now.left.now.sheet.now.clubs }
        requires rival_in_range { rival < length self.now.left.now.sheet.now.clubs }
        requires sides { AreSides (match_at self.now fixture) club rival }
        ensures { AreRivalsSoFar self.now club fixture apart
            → AreRivalsSoFar self.now club (fixture + 1) result }
    {
        let lacks = self.lacks_both(fixture, club, rival);
        apart.with_if(lacks, rival)
    }

    // A match of the two has no score that is fit for both.
    fn lacks_both(&self, fixture: usize, club: u8, rival: u8) -> bool
        requires tie { IsTie self.now }
        requires of_sheet { fixture < length self.now.left.now.sheet.now.fixtures }
        requires in_range { club < length self.now.left.now.sheet.now.clubs }
        requires rival_in_range { rival < length self.now.left.now.sheet.now.clubs }
        ensures { (zone : List Literal) → IsTieIn self.now zone → result ≡ not (has_option
            (slice_index_or (fits_of self.now zone (club ∷ rival ∷ [])) fixture [])) }
    {
        let shared = self.fit(fixture, club).shared(&self.fit(fixture, rival));
        !shared.has_score()
    }
}
