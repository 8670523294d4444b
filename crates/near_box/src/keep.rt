//! The near tests of a zone, and what they are done with.

ghost use Rattle.std.specs.Prelude.{◌≡◌, true, [], IsTrue};
ghost use Rattle.league_core.specs.game.ClubSets.{clubs_in};
ghost use Rattle.league_core.specs.game.Questions.{IsQuestionOf};
ghost use Rattle.league_core.specs.game.Seasons.{IsLeague};
ghost use Rattle.league_core.specs.search.Zones.{is_zone_of};
ghost use Rattle.score_box.specs.inside.ZoneBoxViews.{HasFinish};
ghost use Rattle.near_box.specs.inside.Sights.{IsKeepOf, IsFirstNear, IsFirstOf, ArePressed};
ghost use Rattle.near_box.specs.inside.Sights.{AreRivalsOfBox};
ghost use Rattle.near_box.specs.inside.ZoneMatches.{AreFilledIn};

use crate::close::{close_ahead, close_behind};
use crate::ends::ends_of;
use crate::pressed::{pressed_from_ahead, pressed_from_behind};
use crate::side::{Side, SideSight};
use crate::zone_matches::ZoneMatches;
use league_core::{ClubSet, Question, Season, Sheet};
use near_bound::LeadTable;
use score_box::{ZoneBox, own_least, own_most};

/// What is seen of the rivals of a zone.
#[derive(Clone, Copy)]
pub struct NearSight {
    /// The first rival by which the near reason holds.
    pub near: Option<u8>,
    /// If it holds by none, rivals that one match may bring level with the club, but that cannot
    /// end level with it.
    pub barred: ClubSet,
}

/// What near tests of a season's zones are done with. No test takes memory.
#[derive(Clone, Copy)]
pub struct NearKeep {
    matches: ZoneMatches,
    behind: LeadTable,
    ahead: LeadTable,
}

/// Rivals on the two sides of the club.
#[derive(Clone, Copy)]
struct Rivals {
    behind: ClubSet,
    ahead: ClubSet,
}

impl NearKeep {
    /// For the zones of a season.
    pub fn of(sheet: &Sheet, season: &Season) -> NearKeep
        requires { IsLeague sheet.now season.now }
        ensures { IsKeepOf sheet.now season.now result }
    {
        NearKeep {
            matches: ZoneMatches::of(sheet, season),
            behind: LeadTable::new(),
            ahead: LeadTable::new(),
        }
    }

    /// The near tests in the zone of a box: of the rivals that are pressed, and if it holds by none
    /// of them, where they are asked for, of those that one match may bring level.
    pub fn look(&mut self, zone_box: &ZoneBox, question: &Question, asks_close: bool) -> NearSight
        requires has_finish { HasFinish zone_box.now }
        requires of_sheet { IsQuestionOf zone_box.now.sheet question.now }
        requires of_zone { IsTrue (is_zone_of zone_box.now.sheet zone_box.now.zone) }
        requires keep { IsKeepOf zone_box.now.sheet zone_box.now.season self.old }
        ensures near { IsFirstNear zone_box.now question.now result.near }
        ensures keep { IsKeepOf zone_box.now.sheet zone_box.now.season self.new }
    {
        let pressed = Rivals {
            behind: pressed_from_behind(zone_box, question),
            ahead: pressed_from_ahead(zone_box, question),
        };
        let close = close_if(asks_close, zone_box, question);
        if pressed.are_none() && close.are_none() {
            let (near, barred) = (None, ClubSet::empty());
            return NearSight { near, barred };
        }
        self.matches.fill(zone_box);
        self.seen(zone_box, question, pressed, close)
    }

    // The same, with what the zone leaves of the open matches filled in.
    fn seen(
        &mut self,
        zone_box: &ZoneBox,
        question: &Question,
        pressed: Rivals,
        close: Rivals,
    ) -> NearSight
        requires has_finish { HasFinish zone_box.now }
        requires of_sheet { IsQuestionOf zone_box.now.sheet question.now }
        requires of_zone { IsTrue (is_zone_of zone_box.now.sheet zone_box.now.zone) }
        requires keep { IsKeepOf zone_box.now.sheet zone_box.now.season self.old }
        requires filled { AreFilledIn zone_box.now self.old.matches }
        requires pressed { ArePressed zone_box.now question.now pressed }
        requires close { AreRivalsOfBox zone_box.now close }
        ensures near { IsFirstNear zone_box.now question.now result.near }
        ensures keep { IsKeepOf zone_box.now.sheet zone_box.now.season self.new }
    {
        let left = self.matches.left(zone_box);
        let ends = ends_of(zone_box);
        let behind = Side {
            left: &left,
            ends: &ends,
            club: question.club,
            points: own_most(zone_box, question),
        };
        let ahead = Side {
            left: &left,
            ends: &ends,
            club: question.club,
            points: own_least(zone_box, question),
        };
        let after = behind.seen(&mut self.behind, pressed.behind, close.behind);
        let before = ahead.seen(&mut self.ahead, pressed.ahead, close.ahead);
        both_seen(after, before)
    }
}

impl Rivals {
    fn are_none(self) -> bool
        ensures { result ≡ true → (clubs_in self.behind ≡ []) × (clubs_in self.ahead ≡ []) }
    {
        self.behind.is_empty() && self.ahead.is_empty()
    }
}

// Those that one match may bring level, if they are asked for.
fn close_if(asks: bool, zone_box: &ZoneBox, question: &Question) -> Rivals
    requires has_finish { HasFinish zone_box.now }
    requires of_sheet { IsQuestionOf zone_box.now.sheet question.now }
    requires of_zone { IsTrue (is_zone_of zone_box.now.sheet zone_box.now.zone) }
    ensures { AreRivalsOfBox zone_box.now result }
{
    if asks {
        Rivals {
            behind: close_behind(zone_box, question),
            ahead: close_ahead(zone_box, question),
        }
    } else {
        Rivals {
            behind: ClubSet::empty(),
            ahead: ClubSet::empty(),
        }
    }
}

// What is seen on both sides.
fn both_seen(after: SideSight, before: SideSight) -> NearSight
    ensures { IsFirstOf after.near before.near result.near }
{
    let found = after.near.union(before.near);
    if found.is_empty() {
        let (near, barred) = (None, after.barred.union(before.barred));
        NearSight { near, barred }
    } else {
        let (near, barred) = (Some(found.first_club()), ClubSet::empty());
        NearSight { near, barred }
    }
}
