//! Which rival a split takes.

ghost use Rattle.std.specs.Prelude.{◌≡◌, ◌<◌, ◌&&◌, ◌==◌, nat_lt, not, IfNone, IfSome, IsTrue};
ghost use Rattle.std.specs.Prelude.{◌⊎◌, ℕ, true, [], ◌≢◌, length};
ghost use Rattle.league_core.specs.declared.zone.Test.TheVariants.{Rival};
ghost use Rattle.league_core.specs.game.ClubSets.{clubs_in};
ghost use Rattle.league_core.specs.game.Sums.{has_club};
ghost use Rattle.league_core.specs.search.Zones.{is_marked};
ghost use Rattle.league_core.specs.search.Splits.{are_all_marked, is_proper};
ghost use Rattle.score_box.specs.inside.ZoneBoxViews.{HasFinish};

use league_core::{ClubSet, Question};
use score_box::{ZoneBox, own_least, own_most};

/// A rival that the zone does not mark; none if it marks each.
pub fn unmarked_rival(zone_box: &ZoneBox, question: &Question) -> Option<u8>
    requires has_finish { HasFinish zone_box.now }
    requires of_sheet { question.now.club < length zone_box.now.sheet.clubs }
    ensures some { IfSome result (λ club. IsTrue (is_proper zone_box.now.sheet
        zone_box.now.season question.now zone_box.now.zone (Rival club))) }
    ensures none { IfNone result
        (IsTrue (are_all_marked zone_box.now.sheet question.now zone_box.now.zone)) }
{
    let unmarked = unmarked_rivals(zone_box, question.club);
    if unmarked.is_empty() {
        None
    } else {
        Some(best_rival(zone_box, question, unmarked))
    }
}

// The rivals of a club that the zone does not mark.
fn unmarked_rivals(zone_box: &ZoneBox, club: u8) -> ClubSet
    requires { club < length zone_box.now.sheet.clubs }
    ensures { (rival : ℕ) → has_club (clubs_in result) rival
        ≡ (nat_lt rival (length zone_box.now.sheet.clubs)
        && not (rival == club) && not (is_marked zone_box.now.zone rival)) }
{
    let clubs = zone_box.sheet().clubs.len() as u8;
    let marked = zone_box.before().union(zone_box.after());
    ClubSet::single(club).others(clubs).without(marked)
}

// The rival of the set that is tried first: the one that ranks highest, the first in the sheet of
// those that rank as high.
fn best_rival(zone_box: &ZoneBox, question: &Question, rivals: ClubSet) -> u8
    requires has_finish { HasFinish zone_box.now }
    requires of_sheet { question.now.club < length zone_box.now.sheet.clubs }
    requires in_range { (rival : ℕ) → has_club (clubs_in rivals) rival ≡ true
        → rival < length zone_box.now.sheet.clubs }
    requires some { clubs_in rivals ≢ [] }
    ensures { has_club (clubs_in rivals) result ≡ true }
{
    let room = Slack::of(zone_box, question);
    let first = rivals.first_club();
    let mut best = room.ranked(zone_box, first);
    for rival in rivals.without(ClubSet::single(first)).clubs() {
        best = higher(best, room.ranked(zone_box, rival));
    }
    best.club
}

// A rival with its rank.
#[derive(Clone, Copy)]
struct Ranked {
    club: u8,
    rank: i32,
}

// The one that ranks higher; the best so far if they rank alike.
fn higher(best: Ranked, other: Ranked) -> Ranked
    ensures { (result ≡ best) ⊎ (result ≡ other) }
{
    if best.rank < other.rank { other } else { best }
}

// The points that a rival may have: no more after the club than the most that the club can have in
// its window, no fewer before it than the least.
#[derive(Clone, Copy)]
struct Slack {
    most: i32,
    least: i32,
}

impl Slack {
    fn of(zone_box: &ZoneBox, question: &Question) -> Slack
        requires has_finish { HasFinish zone_box.now }
        requires of_sheet { question.now.club < length zone_box.now.sheet.clubs }
    {
        Slack {
            most: own_most(zone_box, question),
            least: own_least(zone_box, question),
        }
    }

    // The greater the rank, the sooner a rival is tried: first those that alone cannot be on one of
    // the two sides of the club, then by points at the least and at the most together.
    fn ranked(self, zone_box: &ZoneBox, club: u8) -> Ranked
        requires has_finish { HasFinish zone_box.now }
        requires in_range { club < length zone_box.now.sheet.clubs }
        ensures { result.club ≡ club }
    {
        let low = zone_box.low(club);
        let high = zone_box.high(club);
        if self.most < low || high < self.least {
            let rank = i32::MAX;
            Ranked { club, rank }
        } else {
            let rank = low + high;
            Ranked { club, rank }
        }
    }
}
