//! The rivals on one side of a club, at the points at which they would meet it.

ghost use Rattle.std.specs.Prelude.{◌≡◌, ◌&&◌, ◌<◌, true, List, length};
ghost use Rattle.league_core.specs.declared.zone.Literal.{Literal};
ghost use Rattle.league_core.specs.game.ClubSets.{clubs_in};
ghost use Rattle.league_core.specs.game.Sums.{has_club};
ghost use Rattle.league_core.specs.search.Options.{has_finish};
ghost use Rattle.near_bound.specs.inside.Levels.{IsTableAt};
ghost use Rattle.near_bound.specs.inside.ZonesLeft.{StandsFor};
ghost use Rattle.near_box.specs.inside.Barred.{IsSide, IsLevelOfSide, AreClubsLeft, AreBarred};
ghost use Rattle.near_box.specs.inside.Barred.{is_barred_at};

use league_core::ClubSet;
use near_bound::{LeadTable, Level, PointEnds, ZoneLeft};

/// What a zone leaves, with the points of its clubs, and a club on some points.
#[derive(Clone, Copy)]
pub struct Side<'a> {
    pub left: &'a ZoneLeft<'a>,
    pub ends: &'a [PointEnds; 32],
    pub club: u8,
    pub points: i32,
}

/// Rivals that cannot end level with the club: of those that are pressed, and of those that one
/// match may bring level.
#[derive(Clone, Copy)]
pub struct SideSight {
    pub near: ClubSet,
    pub barred: ClubSet,
}

impl<'a> Side<'a> {
    /// What is seen of the rivals. Those that one match may bring level are looked at only if none
    /// of the others is barred. The table is a place for leads.
    pub fn seen(&self, table: &mut LeadTable, pressed: ClubSet, close: ClubSet) -> SideSight
        requires side { IsSide self.now }
        requires pressed { AreClubsLeft self.now.left.now pressed }
        requires close { AreClubsLeft self.now.left.now close }
        ensures { AreBarred self.now pressed result.near }
    {
        if pressed.is_empty() && close.is_empty() {
            let (near, barred) = (pressed, close);
            return SideSight { near, barred };
        }
        table.clear();
        let level = Level::of(self.left, self.ends, self.points, self.club);
        let near = self.barred_among(&level, table, pressed);
        let barred = self.barred_unless(&level, table, near, close);
        SideSight { near, barred }
    }

    // Those of the rivals that cannot end level with the club, if there are none already.
    fn barred_unless(
        &self,
        level: &Level,
        table: &mut LeadTable,
        near: ClubSet,
        rivals: ClubSet,
    ) -> ClubSet
        requires side { IsSide self.now }
        requires level { IsLevelOfSide self.now level.now }
        requires table { IsTableAt level.now table.old }
        requires rivals { AreClubsLeft self.now.left.now rivals }
    {
        if near.is_empty() {
            self.barred_among(level, table, rivals)
        } else {
            ClubSet::empty()
        }
    }

    // Those of the rivals that cannot end level with the club.
    fn barred_among(&self, level: &Level, table: &mut LeadTable, rivals: ClubSet) -> ClubSet
        requires side { IsSide self.now }
        requires level { IsLevelOfSide self.now level.now }
        requires table { IsTableAt level.now table.old }
        requires rivals { AreClubsLeft self.now.left.now rivals }
        ensures value { AreBarred self.now rivals result }
        ensures table { IsTableAt level.now table.new }
    {
        let clubs = self.left.sheet.clubs.len() as u8;
        let mut barred = ClubSet::empty();
        for rival in 0..clubs {
            let found = self.is_barred(level, table, rivals, rival);
            barred = barred.with_if(found, rival);
        }
        barred
    }

    fn is_barred(&self, level: &Level, table: &mut LeadTable, rivals: ClubSet, rival: u8) -> bool
        requires side { IsSide self.now }
        requires level { IsLevelOfSide self.now level.now }
        requires table { IsTableAt level.now table.old }
        requires in_range { rival < length self.now.left.now.sheet.now.clubs }
        ensures value { (zone : List Literal) → StandsFor self.now.left.now zone
            → has_finish self.now.left.now.sheet.now self.now.left.now.season.now zone ≡ true
            → result ≡ is_barred_at self.now zone rivals rival }
        ensures table { IsTableAt level.now table.new }
    {
        rivals.has(rival) && level.bars(table, rival)
    }
}
