//! The groups of the cup that a report is judged by.

ghost use Rattle.std.specs.Prelude.{◌≡◌, ◌<◌, IfSome, IsTrue, Some, length, slice_get};
ghost use Rattle.cup_sheet.specs.Cups.{clubs_together};
ghost use Rattle.cup_grammar.specs.PlacedGroups.{group_with, has_placed_club, placed_groups};
ghost use Rattle.cup_grammar.specs.CupDues.{may_be_listed};
ghost use Rattle.cup_check.specs.inside.CupSideCalls.{are_others};

use crate::place::GroupPlace;
use crate::report::CupReport;
use cup_groups::{club_count, group_start, listed_groups};
use league_core::Claim;

impl<'a> CupReport<'a> {
    /// How many groups the cup has.
    pub fn group_count(&self) -> u8
        ensures { result ≡ length self.now.basis.cup.groups }
    {
        self.cup.groups.len() as u8
    }

    /// How many clubs it has.
    pub fn clubs(&self) -> u8
        ensures { result ≡ clubs_together self.now.basis.cup.groups }
    {
        self.recall_invariant();
        club_count(self.cup)
    }

    /// The group with a number, from 0.
    pub fn group(&self, number: u8) -> GroupPlace<'a>
        requires { number < length self.now.basis.cup.groups }
        ensures { slice_get (placed_groups self.now.basis) number ≡ Some result }
    {
        GroupPlace {
            start: group_start(self.cup, number),
            sheet: &self.cup.groups.as_slice()[number as usize],
            season: &self.seasons[number as usize],
        }
    }

    /// The group in which a club of the cup plays.
    pub fn group_with(&self, club: u8) -> Option<GroupPlace<'a>>
        ensures value { result ≡ group_with (placed_groups self.now.basis) club }
        ensures has { IfSome result (λ group. IsTrue (has_placed_club group club)) }
    {
        self.recall_invariant();
        for number in 0..self.group_count() {
            let group = self.group(number);
            if group.has_club(club) {
                return Some(group);
            }
        }
        None
    }

    /// The numbers may be those of the list for a side of a club of this group.
    pub fn may_be_listed(&self, claim: Claim, mine: &GroupPlace, numbers: &[u8]) -> bool
        ensures { result ≡ may_be_listed self.now.basis claim mine.now numbers.now }
    {
        self.recall_invariant();
        numbers.len() == listed_groups(self.cup, claim) && self.are_others(mine, numbers)
    }

    // The numbers are those of groups of the cup, and none of them is this group's.
    fn are_others(&self, mine: &GroupPlace, numbers: &[u8]) -> bool
        ensures { result ≡ are_others self.now.basis mine.now numbers.now }
    {
        self.recall_invariant();
        for number in numbers {
            if self.group_count() <= *number {
                return false;
            }
            if self.group(*number).start.club == mine.start.club {
                return false;
            }
        }
        true
    }
}
