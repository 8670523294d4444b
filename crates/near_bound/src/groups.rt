//! Whether each group of clubs that may form on the points has a club on the wrong side.

ghost use Rattle.std.specs.Prelude.{◌≡◌, ◌||◌, ◌==◌, true, ℕ, List, Some};
ghost use Rattle.std.specs.List.{list_all};
ghost use Rattle.league_core.specs.declared.zone.Literal.{Literal};
ghost use Rattle.league_core.specs.game.ClubSets.{clubs_in};
ghost use Rattle.league_core.specs.game.Sums.{has_club};
ghost use Rattle.near_laws.specs.Groups.{groups_with};
ghost use Rattle.near_bound.specs.inside.Ties.{IsTie};
ghost use Rattle.near_bound.specs.inside.GroupsLeft.{AreWrongs, IsGroups, IsLeadTable};
ghost use Rattle.near_bound.specs.inside.GroupsLeft.{AreRivals, AreGroupsIn, AreAmong, MayForm};
ghost use Rattle.near_bound.specs.inside.GroupsLeft.{wrong_anyway, group_is_wrong, FindsWrong};

use crate::lead_table::LeadTable;
use crate::tie::Tie;
use crate::wrongs::{Wrongs, decide};
use league_core::ClubSet;

/// The groups that may form on the points of a tie: those of a club's able rivals that have all the
/// held ones, of which one is looked at first.
#[derive(Clone, Copy)]
pub struct Groups<'a> {
    pub tie: &'a Tie<'a>,
    pub club: u8,
    pub able: ClubSet,
    pub held: ClubSet,
    pub first: u8,
}

impl<'a> Groups<'a> {
    /// The groups of these clubs.
    pub fn new(tie: &'a Tie<'a>, club: u8, able: ClubSet, held: ClubSet, first: u8) -> Groups<'a>
        requires tie { IsTie tie.now }
        requires rivals { AreRivals tie.now able club }
        requires held { AreAmong held able }
        requires first { has_club (clubs_in held) first ≡ true }
        ensures is { IsGroups result }
        ensures tie { result.tie.now ≡ tie.now }
        ensures club { result.club ≡ club }
        ensures able { result.able ≡ able }
        ensures held { result.held ≡ held }
    {
        Groups {
            tie,
            club,
            able,
            held,
            first,
        }
    }

    /// Each of them has a rival that is surely wrong. The leads of a rival are taken when it is
    /// first looked at.
    pub fn are_all_wrong(&self, table: &mut LeadTable) -> bool
        requires groups { IsGroups self.now }
        requires kept { IsLeadTable self.now table.old }
        ensures value { (zone : List Literal) → AreGroupsIn self.now zone → result
            ≡ list_all (group_is_wrong self.now zone)
            (groups_with (has_club (clubs_in self.now.held)) (clubs_in self.now.able)) }
        ensures kept { IsLeadTable self.now table.new }
    {
        if self.is_wrong_by(table, self.first, self.able) {
            return true;
        }
        match self.wrong_among(table, self.held) {
            None => false,
            Some(wrong) => self.are_wrong_among(table, wrong, self.able),
        }
    }

    // Each group of these clubs has one, as the rival is in that of the held ones alone. If it is
    // so whoever joins, they are not looked at one by one. The club that takes most from its lead
    // joins first, since the groups with it are the likeliest to have no rival that is wrong.
    fn are_wrong_among(&self, table: &mut LeadTable, wrong: u8, clubs: ClubSet) -> bool
        requires groups { IsGroups self.now }
        requires kept { IsLeadTable self.now table.old }
        requires left { MayForm self.now clubs }
        requires wrong { FindsWrong self.now (clubs_in self.now.held) (Some wrong) }
        ensures value { (zone : List Literal) → AreGroupsIn self.now zone → result
            ≡ list_all (group_is_wrong self.now zone)
            (groups_with (has_club (clubs_in self.now.held)) (clubs_in clubs)) }
        ensures kept { IsLeadTable self.now table.new }
    {
        let loose = clubs.without(self.held);
        if loose.is_empty() {
            return true;
        }
        if self.is_wrong_by(table, wrong, clubs) {
            return true;
        }
        let club = table.of(wrong).worst_of(loose);
        let more = self.with_held(club);
        match more.wrong_among(table, more.held) {
            None => false,
            Some(other) => {
                more.are_wrong_among(table, other, clubs)
                    && self.are_wrong_among(table, wrong, clubs.without(ClubSet::single(club)))
            }
        }
    }

    // The groups with one club more that is held.
    fn with_held(&self, club: u8) -> Groups<'a>
        requires groups { IsGroups self.now }
        requires able { has_club (clubs_in self.now.able) club ≡ true }
        ensures is { IsGroups result }
        ensures tie { result.tie.now ≡ self.now.tie.now }
        ensures club { result.club ≡ self.now.club }
        ensures able { result.able ≡ self.now.able }
        ensures held { (other : ℕ) → has_club (clubs_in result.held) other
            ≡ (has_club (clubs_in self.now.held) other || (club == other)) }
    {
        Groups {
            held: self.held.with_if(true, club),
            ..*self
        }
    }

    // One of these held rivals that is wrong in the group of the held ones alone.
    fn wrong_among(&self, table: &mut LeadTable, rivals: ClubSet) -> Option<u8>
        requires groups { IsGroups self.now }
        requires kept { IsLeadTable self.now table.old }
        requires rivals { AreAmong rivals self.now.held }
        ensures finds { FindsWrong self.now (clubs_in rivals) result }
        ensures kept { IsLeadTable self.now table.new }
    {
        if rivals.is_empty() {
            return None;
        }
        let rival = rivals.first_club();
        if self.is_wrong_by(table, rival, self.held) {
            return Some(rival);
        }
        self.wrong_among(table, rivals.without(ClubSet::single(rival)))
    }

    fn is_wrong_by(&self, table: &mut LeadTable, rival: u8, clubs: ClubSet) -> bool
        requires groups { IsGroups self.now }
        requires kept { IsLeadTable self.now table.old }
        requires left { MayForm self.now clubs }
        requires rival { has_club (clubs_in self.now.held) rival ≡ true }
        ensures value { (zone : List Literal) → AreGroupsIn self.now zone → result
            ≡ wrong_anyway self.now zone (clubs_in clubs) rival }
        ensures kept { IsLeadTable self.now table.new }
    {
        self.take(table, rival);
        self.is_wrong(table.of(rival), rival, clubs)
    }

    // The rival's leads, if they are not there yet.
    fn take(&self, table: &mut LeadTable, rival: u8)
        requires groups { IsGroups self.now }
        requires kept { IsLeadTable self.now table.old }
        requires among { has_club (clubs_in self.now.able) rival ≡ true }
        ensures kept { IsLeadTable self.now table.new }
        ensures known { has_club (clubs_in table.new.known) rival ≡ true }
    {
        if !table.has(rival) {
            table.put(rival, Wrongs::of(self.tie, self.able, self.club, rival));
        }
    }

    fn is_wrong(&self, wrongs: &Wrongs, rival: u8, clubs: ClubSet) -> bool
        requires groups { IsGroups self.now }
        requires left { MayForm self.now clubs }
        requires rival { has_club (clubs_in self.now.held) rival ≡ true }
        requires wrongs { AreWrongs self.now.tie.now self.now.able self.now.club rival wrongs.now }
        ensures { (zone : List Literal) → AreGroupsIn self.now zone → result
            ≡ wrong_anyway self.now zone (clubs_in clubs) rival }
    {
        let sure = self.held.without(ClubSet::single(rival));
        let loose = clubs.without(self.held);
        decide(&wrongs.behind, sure, loose) || decide(&wrongs.ahead, sure, loose)
    }
}
