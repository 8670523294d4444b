//! What a box says of one club, and of the outcomes that are left.

ghost use Rattle.std.specs.Prelude.{◌≡◌, ◌<◌, ◌≤◌, ◌≤ℤ◌, ℕ, neg_ℤ, true, false, []};
ghost use Rattle.std.specs.Prelude.{◌∷◌, length, slice_index_or};
ghost use Rattle.league_core.specs.game.Limits.{most_points};
ghost use Rattle.league_core.specs.search.Options.{options_in};
ghost use Rattle.league_core.specs.search.PointRanges.{least_points_of, most_points_of};
ghost use Rattle.league_core.specs.game.ClubSets.{clubs_in};
ghost use Rattle.league_core.specs.game.Sums.{has_club, sum_among, sum_of, points_of};
ghost use Rattle.score_box.specs.inside.Totals.{AreTotals, AreTotalsNear};
ghost use Rattle.score_box.specs.inside.Boxes.{open_outcomes_in};
ghost use Rattle.score_box.specs.inside.Points.{most_taken_off, AreOutcomesAmong, AreOutcomesLeft};
ghost use Rattle.score_box.specs.declared.cell.Cell.{Cell};
ghost use Rattle.score_box.specs.inside.Cells.{IsCellOf};
ghost use Rattle.score_box.specs.inside.ZoneBoxViews.{HasFinish};
ghost use Rattle.score_box.specs.inside.Unplayed.{are_open_among, unplayed_in};

use super::ZoneBox;
use crate::points::OutcomesLeft;
use crate::totals::Totals;
use league_core::{ClubSet, Literal};

impl<'a> ZoneBox<'a> {
    /// The least points of a club, deductions taken off, if the zone has a finish. Clubs count from
    /// 0.
    pub fn low(&self, club: u8) -> i32
        requires has_finish { HasFinish self.now }
        requires in_range { club < length self.now.sheet.clubs }
        ensures value { result
            ≡ least_points_of self.now.sheet self.now.season self.now.zone (club ∷ []) }
        ensures within { (neg_ℤ most_taken_off ≤ℤ result) × (result ≤ℤ most_points) }
    {
        let off = i32::from(self.season.deducted(club));
        self.ends.lows[club as usize] - off
    }

    /// The most points of a club, deductions taken off, if the zone has a finish. Clubs count from
    /// 0.
    pub fn high(&self, club: u8) -> i32
        requires has_finish { HasFinish self.now }
        requires in_range { club < length self.now.sheet.clubs }
        ensures value { result
            ≡ most_points_of self.now.sheet self.now.season self.now.zone (club ∷ []) }
        ensures within { (neg_ℤ most_taken_off ≤ℤ result) × (result ≤ℤ most_points) }
    {
        let off = i32::from(self.season.deducted(club));
        self.ends.highs[club as usize] - off
    }

    /// What a club's played matches add up to; what the zone says does not count, nor do
    /// deductions. Clubs count from 0.
    pub fn totals(&self, club: u8) -> Totals
        requires in_range { club < length self.now.sheet.clubs }
        ensures sums { AreTotals
            (λ worth. sum_of worth self.now.sheet self.now.season club) result }
        ensures near { AreTotalsNear 153000 result }
    {
        self.tables.of_club(club)
    }

    /// A club's points from its played matches, less what is taken off: perhaps negative. Clubs
    /// count from 0.
    pub fn points_so_far(&self, club: u8) -> i32
        requires in_range { club < length self.now.sheet.clubs }
        ensures { result ≡ points_of self.now.sheet self.now.season club }
    {
        self.totals(club).points - i32::from(self.season.deducted(club))
    }

    /// What the played matches of a club add up to within a group of which it is one. Clubs count
    /// from 0.
    pub fn totals_among(&self, group: ClubSet, club: u8) -> Totals
        requires group { (member : ℕ) → has_club (clubs_in group) member ≡ true
            → member < length self.now.sheet.clubs }
        requires club { has_club (clubs_in group) club ≡ true }
        ensures sums { AreTotals
            (λ worth. sum_among (clubs_in group) worth self.now.sheet self.now.season club) result }
        ensures near { AreTotalsNear 5000000 result }
    {
        self.tables.of_group(group, club)
    }

    /// How many fixtures have options of several outcomes.
    pub fn open_outcomes(&self) -> usize
        ensures { result
            ≡ open_outcomes_in (options_in self.now.sheet self.now.season self.now.zone) }
    {
        self.ends.several
    }

    /// Which outcomes a fixture has left: whether its options have a home win, a draw, an away win.
    /// Fixtures count from 0.
    pub fn outcomes_left(&self, fixture: u16) -> OutcomesLeft
        requires { fixture < length self.now.season.scores }
        ensures among { AreOutcomesAmong
            (slice_index_or (options_in self.now.sheet self.now.season self.now.zone) fixture [])
            result }
        ensures of_cell { (cell : Cell) → IsCellOf cell
            (slice_index_or (options_in self.now.sheet self.now.season self.now.zone) fixture [])
            → AreOutcomesLeft cell result }
    {
        self.cells[fixture as usize].left()
    }

    /// The fixtures that are not played, by their numbers from 0, in order.
    pub fn unplayed(&self) -> &[u16]
        ensures { result.now ≡ unplayed_in self.now.season.scores }
    {
        self.open_matches.numbers.as_slice()
    }

    /// Both clubs of an open match are of the group. Places count from 0, in the order of
    /// `unplayed`.
    pub fn is_open_among(&self, place: usize, group: ClubSet) -> bool
        requires in_range { place < length (unplayed_in self.now.season.scores) }
        ensures { result ≡ are_open_among self.now group place }
    {
        self.open_matches.is_among(place, group)
    }

    /// The first place, from the one given on, of an open match whose two clubs are both of the
    /// group; if there is none, how many open matches there are.
    #[inline(always)]
    pub fn next_open_among(&self, from: usize, group: ClubSet) -> usize
        requires { from ≤ length (unplayed_in self.now.season.scores) }
        ensures from { from ≤ result }
        ensures within { result ≤ length (unplayed_in self.now.season.scores) }
        ensures before { (place : ℕ) → from ≤ place → place < result
            → are_open_among self.now group place ≡ false }
        ensures found { result < length (unplayed_in self.now.season.scores)
            → are_open_among self.now group result ≡ true }
    {
        self.open_matches.next_among(from, group)
    }

    /// The literals of the zone.
    pub fn zone(&self) -> &[Literal]
        ensures { result.now ≡ self.now.zone }
    {
        self.zone.as_slice()
    }
}
