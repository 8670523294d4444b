//! The reasons that need no search: whether one that is given holds in a box. No call takes memory.

ghost use Rattle.std.specs.Prelude.{◌≡◌, ◌<◌, ◌&&◌, ℕ, Bool, length};
ghost use Rattle.std.specs.List.{list_all};
ghost use Rattle.league_core.specs.declared.zone.Reason.TheVariants.{Count, Window, Low, High};
ghost use Rattle.league_core.specs.game.ClubSets.{clubs_in};
ghost use Rattle.league_core.specs.search.Reasons.{has_reason, has_member, times};
ghost use Rattle.score_box.specs.inside.Boxes.{IsSetOf};
ghost use Rattle.score_box.specs.inside.ZoneBoxViews.{HasFinish};

use crate::rivals::rivals_of;
use crate::tie::tie_reason;
use league_core::{Claim, ClubSet, Question, Reason};
use score_box::{ZoneBox, own_least, own_most};

/// The reason holds in the box: the zone has a finish, and the reason says that the question holds
/// nowhere there.
pub fn holds(zone_box: &ZoneBox, question: &Question, reason: &Reason) -> bool
    requires { question.now.club < length zone_box.now.sheet.clubs }
    ensures { result ≡ has_reason zone_box.now.sheet zone_box.now.season question.now
        zone_box.now.zone reason.now }
{
    zone_box.has_finish() && holds_in_finishes(zone_box, question, reason)
}

fn holds_in_finishes(zone_box: &ZoneBox, question: &Question, reason: &Reason) -> bool
    requires has_finish { HasFinish zone_box.now }
    requires of_sheet { question.now.club < length zone_box.now.sheet.clubs }
    ensures { result ≡ has_reason zone_box.now.sheet zone_box.now.season question.now
        zone_box.now.zone reason.now }
{
    match reason {
        Reason::Count => count_reason(zone_box, question),
        Reason::Window => window_reason(zone_box, question),
        Reason::Low(clubs) => low_reason(zone_box, question, *clubs),
        Reason::High(clubs) => high_reason(zone_box, question, *clubs),
        Reason::Tie => tie_reason(zone_box, question),
    }
}

/// So many rivals are marked on the other side that the claim fails: the reason `Count`.
pub fn count_reason(zone_box: &ZoneBox, question: &Question) -> bool
    requires { HasFinish zone_box.now }
    ensures { result
        ≡ has_reason zone_box.now.sheet zone_box.now.season question.now zone_box.now.zone Count }
{
    let rivals = rivals_of(zone_box.sheet(), question.club);
    match question.claim {
        Claim::Inside => question.line <= rivals.intersection(zone_box.before()).len(),
        Claim::Outside => {
            let clubs = zone_box.sheet().clubs.len() as u8;
            clubs.saturating_sub(question.line) <= rivals.intersection(zone_box.after()).len()
        }
    }
}

/// The club's points miss the window: the reason `Window`.
pub fn window_reason(zone_box: &ZoneBox, question: &Question) -> bool
    requires has_finish { HasFinish zone_box.now }
    requires of_sheet { question.now.club < length zone_box.now.sheet.clubs }
    ensures { result
        ≡ has_reason zone_box.now.sheet zone_box.now.season question.now zone_box.now.zone Window }
{
    zone_box.high(question.club) < question.low || question.high < zone_box.low(question.club)
}

/// These rivals cannot all stay within the club's most points: the reason `Low`.
pub fn low_reason(zone_box: &ZoneBox, question: &Question, clubs: ClubSet) -> bool
    requires has_finish { HasFinish zone_box.now }
    requires of_sheet { question.now.club < length zone_box.now.sheet.clubs }
    ensures { result ≡ has_reason zone_box.now.sheet zone_box.now.season question.now
        zone_box.now.zone (Low clubs) }
{
    are_some_of(clubs, zone_box.after())
        && times(clubs, own_most(zone_box, question)) < i64::from(zone_box.low_points(clubs))
}

/// These rivals cannot all come up to the club's least points: the reason `High`.
pub fn high_reason(zone_box: &ZoneBox, question: &Question, clubs: ClubSet) -> bool
    requires has_finish { HasFinish zone_box.now }
    requires of_sheet { question.now.club < length zone_box.now.sheet.clubs }
    ensures { result ≡ has_reason zone_box.now.sheet zone_box.now.season question.now
        zone_box.now.zone (High clubs) }
{
    are_some_of(clubs, zone_box.before())
        && i64::from(zone_box.high_points(clubs)) < times(clubs, own_least(zone_box, question))
}

// The clubs are one or more of the set, which has those that pass a test.
fn are_some_of(clubs: ClubSet, set: ClubSet) -> bool
    ensures { (test : ℕ → Bool) → IsSetOf set test
        → result ≡ (has_member (clubs_in clubs) && list_all test (clubs_in clubs)) }
{
    !clubs.is_empty() && clubs.without(set).is_empty()
}

// So many points for each of the clubs.
fn times(clubs: ClubSet, points: i32) -> i64
    ensures { result ≡ times (clubs_in clubs) points }
{
    i64::from(clubs.len()) * i64::from(points)
}
