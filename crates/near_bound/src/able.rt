//! The clubs that can have the points of a tie, all found in one walk over the matches.

ghost use Rattle.std.specs.Prelude.{◌≡◌, ◌≢◌, ◌<◌, ◌+◌, ℕ, length, List};
ghost use Rattle.league_core.specs.declared.zone.Literal.{Literal};
ghost use Rattle.near_bound.specs.inside.Ties.{IsTie, IsTieIn, match_at};
ghost use Rattle.near_bound.specs.inside.AbleRivals.{is_able_in};
ghost use Rattle.near_bound.specs.inside.FitEnds.{AreClubsSoFar, ClubTakes, AreOthersKept};
ghost use Rattle.near_bound.specs.inside.FitEnds.{AreAllNear};
ghost use Rattle.near_bound.specs.inside.Levels.{AreAbleClubs};

use crate::points::{PointEnds, points_left};
use crate::tie::Tie;
use league_core::{ClubSet, Fixture};

/// The points that clubs can have by the scores that are fit for them, and the clubs for which some
/// match has no fit score.
#[derive(Clone, Copy)]
struct FitEnds {
    ends: [PointEnds; 32],
    lacking: ClubSet,
}

impl<'a> Tie<'a> {
    /// The clubs that can have the points, as far as one look tells.
    pub fn able_clubs(&self) -> ClubSet
        requires tie { IsTie self.now }
        ensures { AreAbleClubs self.now result }
    {
        let all = self.fit_ends();
        let clubs = ClubSet::empty().others(self.left.sheet.clubs.len() as u8);
        clubs.keep(|club| self.is_able_by(&all, club))
    }

    // A club can, as the walk over all matches tells.
    fn is_able_by(&self, all: &FitEnds, club: u8) -> bool
        requires tie { IsTie self.now }
        requires in_range { club < length self.now.left.now.sheet.now.clubs }
        requires walked { AreClubsSoFar self.now
            (length self.now.left.now.sheet.now.fixtures) all.now }
        ensures { (zone : List Literal) → IsTieIn self.now zone
            → result ≡ is_able_in self.now zone club }
    {
        if !self.has_in_range(club) {
            return false;
        }
        if all.lacking.has(club) {
            return false;
        }
        all.ends[club as usize].has(self.points)
    }

    // The points once all open matches are looked at.
    fn fit_ends(&self) -> FitEnds
        requires tie { IsTie self.now }
        ensures { AreClubsSoFar self.now (length self.now.left.now.sheet.now.fixtures) result }
    {
        let mut all = FitEnds {
            ends: self.ends,
            lacking: ClubSet::empty(),
        };
        let open = self.left.played.open();
        for number in open {
            self.take_match(&mut all, *number as usize);
        }
        all
    }

    // In a match that has one score at most, it is fit for each club that has the points in its
    // range.
    fn take_match(&self, all: &mut FitEnds, fixture: usize)
        requires tie { IsTie self.now }
        requires of_sheet { fixture < length self.now.left.now.sheet.now.fixtures }
        requires near { AreAllNear self.now 80000 all.old.ends }
        ensures takes { AreClubsSoFar self.now fixture all.old
            → AreClubsSoFar self.now (fixture + 1) all.new }
        ensures near { (bound : ℕ) → AreAllNear self.now bound all.old.ends
            → AreAllNear self.now (bound + 6) all.new.ends }
    {
        if self.left.matches[fixture].has_one_at_most() {
            return;
        }
        let match_of = self.match_of(fixture);
        self.take_side(all, fixture, match_of, match_of.home);
        self.take_side(all, fixture, match_of, match_of.away);
    }

    /// A match, of two different clubs of the sheet.
    pub(crate) fn match_of(&self, fixture: usize) -> Fixture
        requires tie { IsTie self.now }
        requires of_sheet { fixture < length self.now.left.now.sheet.now.fixtures }
        ensures is { result ≡ match_at self.now fixture }
        ensures home { result.home < length self.now.left.now.sheet.now.clubs }
        ensures away { result.away < length self.now.left.now.sheet.now.clubs }
        ensures apart { result.home ≢ result.away }
    {
        self.left.sheet.fixtures.as_slice()[fixture]
    }

    // With what is fit for one side of a match in the place of what is left there.
    fn take_side(&self, all: &mut FitEnds, fixture: usize, match_of: Fixture, club: u8)
        requires tie { IsTie self.now }
        requires of_sheet { fixture < length self.now.left.now.sheet.now.fixtures }
        requires match_is { match_of ≡ match_at self.now fixture }
        requires in_range { club < length self.now.left.now.sheet.now.clubs }
        requires near { AreAllNear self.now 90000 all.old.ends }
        ensures takes { ClubTakes self.now fixture club all.old all.new }
        ensures others { AreOthersKept club all.old all.new }
        ensures near { (bound : ℕ) → AreAllNear self.now bound all.old.ends
            → AreAllNear self.now (bound + 3) all.new.ends }
    {
        if self.is_roomy(club) {
            return;
        }
        if !self.has_in_range(club) {
            return;
        }
        let fit = self.fit(fixture, club);
        if fit.has_score() {
            let here = points_left(&self.left.matches[fixture], match_of, club);
            let kept = points_left(&fit, match_of, club);
            all.ends[club as usize] = all.ends[club as usize].exchanged(here, kept);
        } else {
            all.lacking = all.lacking.with_if(true, club);
        }
    }
}
