//! A club on a number of points, and the rivals with which it can be level there.

ghost use Rattle.std.specs.Prelude.{◌≡◌, ◌≢◌, ◌<◌, ◌&&◌, ◌||◌, true, ℕ, ℤ, List, [], length};
ghost use Rattle.std.specs.List.{list_any};
ghost use Rattle.league_core.specs.declared.zone.Literal.{Literal};
ghost use Rattle.league_core.specs.game.ClubSets.{clubs_in};
ghost use Rattle.league_core.specs.game.Sums.{has_club};
ghost use Rattle.league_core.specs.search.Options.{has_finish};
ghost use Rattle.near_laws.specs.Near.{cannot_both_have, are_all_groups_wrong, able_rivals};
ghost use Rattle.near_laws.specs.Fits.{is_able};
ghost use Rattle.near_bound.specs.declared.zone_left.ZoneLeft as lefts;
ghost use Rattle.near_bound.specs.inside.AllEnds.{AreAllEnds};
ghost use Rattle.near_bound.specs.inside.Points.{IsPoints};
ghost use Rattle.near_bound.specs.inside.ZonesLeft.{IsZoneLeft, StandsFor};
ghost use Rattle.near_bound.specs.inside.Ties.{IsTie, IsTieIn};
ghost use Rattle.near_bound.specs.inside.GroupsLeft.{AreAmong, AreRivals};
ghost use Rattle.near_bound.specs.inside.AbleRivals.{is_able_in, is_held_in, lacks_fit};
ghost use Rattle.near_bound.specs.inside.AbleRivals.{AreHeldRivals, AreAbleRivals};
ghost use Rattle.near_bound.specs.inside.Levels.{IsLevel, IsLevelOf, IsTableAt};
ghost use Rattle.near_bound.specs.inside.Levels.{AreAbleClubs, AreSurelyOn};

use crate::groups::Groups;
use crate::lead_table::LeadTable;
use crate::points::PointEnds;
use crate::tie::Tie;
use crate::zone_left::ZoneLeft;
use league_core::ClubSet;

/// As many rivals may be on the points or not, at most.
const MOST_LOOSE: u8 = 8;

/// A club on a number of points in a zone, and what is the same for each rival.
#[derive(Clone, Copy)]
pub struct Level<'a> {
    tie: Tie<'a>,
    club: u8,
    /// The clubs that can have the points.
    able: ClubSet,
    /// Those of them that are not the club.
    rivals: ClubSet,
    /// The rivals that have the points whatever happens.
    core: ClubSet,
    /// The rivals that cannot meet the club if both have the points.
    apart: ClubSet,
}

impl<'a> Level<'a> {
    /// The club on these points, with the points that each club can have.
    pub fn of(left: &'a ZoneLeft<'a>, ends: &[PointEnds; 32], points: i32, club: u8) -> Level<'a>
        requires left { IsZoneLeft left.now }
        requires ends { AreAllEnds left.now ends.now }
        requires points { IsPoints points }
        requires in_range { club < length left.now.sheet.now.clubs }
        ensures level { IsLevel result }
        ensures of { IsLevelOf left.now points club result }
    {
        let tie = Tie::new(left, points, ends);
        let able = tie.able_clubs();
        let rivals = rivals_among(&tie, able, club);
        let core = surely_on(&tie, rivals);
        let apart = tie.apart_from(club, rivals);
        Level {
            tie,
            club,
            able,
            rivals,
            core,
            apart,
        }
    }

    /// The club and the rival are not both on the points. What the table has are leads of this
    /// level.
    pub fn bars(&self, table: &mut LeadTable, rival: u8) -> bool
        requires level { IsLevel self.now }
        requires table { IsTableAt self.now table.old }
        requires in_range { rival < length self.now.tie.left.now.sheet.now.clubs }
        ensures value { (left : lefts.ZoneLeft) (points : ℤ) (club : ℕ) (zone : List Literal)
            → IsLevelOf left points club self.now → StandsFor left zone
            → has_finish left.sheet.now left.season.now zone ≡ true
            → result ≡ cannot_both_have left.sheet.now left.season.now zone points club rival }
        ensures table { IsTableAt self.now table.new }
    {
        self.bars_here(table, rival)
    }

    // They are not, by what the level keeps.
    fn bars_here(&self, table: &mut LeadTable, rival: u8) -> bool
        requires level { IsLevel self.now }
        requires table { IsTableAt self.now table.old }
        requires in_range { rival < length self.now.tie.left.now.sheet.now.clubs }
        ensures value { (zone : List Literal) → IsTieIn self.now.tie zone
            → result ≡ cannot_both_have self.now.tie.left.now.sheet.now
            self.now.tie.left.now.season.now zone self.now.tie.points self.now.club rival }
        ensures table { IsTableAt self.now table.new }
    {
        !self.is_able(self.club) || !self.is_able(rival) || self.bars_able(table, rival)
    }

    // The club can have the points.
    fn is_able(&self, club: u8) -> bool
        requires level { IsLevel self.now }
        requires in_range { club < length self.now.tie.left.now.sheet.now.clubs }
        ensures { (zone : List Literal) → IsTieIn self.now.tie zone
            → result ≡ is_able self.now.tie.left.now.sheet.now self.now.tie.left.now.season.now
            zone self.now.tie.points club }
    {
        self.able.has(club)
    }

    // An able rival of an able club: one that is held cannot meet the club, or all groups that may
    // form are wrong.
    fn bars_able(&self, table: &mut LeadTable, rival: u8) -> bool
        requires level { IsLevel self.now }
        requires table { IsTableAt self.now table.old }
        requires in_range { rival < length self.now.tie.left.now.sheet.now.clubs }
        ensures value { (zone : List Literal) → IsTieIn self.now.tie zone
            → is_able_in self.now.tie zone self.now.club ≡ true
            → result ≡ (list_any (λ other. is_held_in self.now.tie zone rival other
            && lacks_fit self.now.tie zone self.now.club other)
            (able_rivals self.now.tie.left.now.sheet.now self.now.tie.left.now.season.now zone
            self.now.tie.points self.now.club)
            || are_all_groups_wrong self.now.tie.left.now.sheet.now
            self.now.tie.left.now.season.now zone self.now.tie.points self.now.club rival) }
        ensures table { IsTableAt self.now table.new }
    {
        let held = self.held_with(rival);
        self.has_apart(held) || self.bars_groups(table, held, rival)
    }

    // One of these has no score left for a match with the club.
    fn has_apart(&self, held: ClubSet) -> bool
        requires level { IsLevel self.now }
        requires among { AreAmong held self.now.rivals }
        ensures { (zone : List Literal) → IsTieIn self.now.tie zone
            → is_able_in self.now.tie zone self.now.club ≡ true
            → result ≡ list_any (lacks_fit self.now.tie zone self.now.club) (clubs_in held) }
    {
        !held.intersection(self.apart).is_empty()
    }

    // The rivals that are on the points if this one is.
    fn held_with(&self, rival: u8) -> ClubSet
        requires level { IsLevel self.now }
        requires in_range { rival < length self.now.tie.left.now.sheet.now.clubs }
        ensures held { AreHeldRivals self.now.tie self.now.rivals rival result }
        ensures among { AreAmong result self.now.rivals }
    {
        self.core.with_if(self.rivals.has(rival), rival)
    }

    // Few enough rivals may be on the points or not, and each group that may form has one that is
    // surely wrong. Where none is held there may be no rival at all.
    fn bars_groups(&self, table: &mut LeadTable, held: ClubSet, rival: u8) -> bool
        requires level { IsLevel self.now }
        requires table { IsTableAt self.now table.old }
        requires held { AreHeldRivals self.now.tie self.now.rivals rival held }
        requires among { AreAmong held self.now.rivals }
        ensures value { (zone : List Literal) → IsTieIn self.now.tie zone
            → is_able_in self.now.tie zone self.now.club ≡ true
            → result ≡ are_all_groups_wrong self.now.tie.left.now.sheet.now
            self.now.tie.left.now.season.now zone self.now.tie.points self.now.club rival }
        ensures table { IsTableAt self.now table.new }
    {
        if held.is_empty() {
            return false;
        }
        let first = first_held(held, rival);
        self.rivals.without(held).len() <= MOST_LOOSE
            && Groups::new(&self.tie, self.club, self.rivals, held, first).are_all_wrong(table)
    }
}

// Of the able clubs those that are not the club.
fn rivals_among(tie: &Tie, able: ClubSet, club: u8) -> ClubSet
    requires tie { IsTie tie.now }
    requires in_range { club < length tie.now.left.now.sheet.now.clubs }
    requires able { AreAbleClubs tie.now able }
    ensures able { AreAbleRivals tie.now result club }
    ensures rivals { AreRivals tie.now result club }
{
    let clubs = tie.left.sheet.clubs.len() as u8;
    let others = ClubSet::single(club).others(clubs);
    able.intersection(others)
}

// Those of the rivals that have the points whatever happens.
fn surely_on(tie: &Tie, rivals: ClubSet) -> ClubSet
    requires tie { IsTie tie.now }
    requires of_sheet { (other : ℕ) → has_club (clubs_in rivals) other ≡ true
        → other < length tie.now.left.now.sheet.now.clubs }
    ensures core { AreSurelyOn tie.now rivals result }
    ensures among { AreAmong result rivals }
{
    rivals.keep(|other| tie.is_surely_on(other))
}

// The rival if it is held, else another one that is.
fn first_held(held: ClubSet, rival: u8) -> u8
    requires { clubs_in held ≢ [] }
    ensures { has_club (clubs_in held) result ≡ true }
{
    if held.has(rival) {
        rival
    } else {
        held.first_club()
    }
}
