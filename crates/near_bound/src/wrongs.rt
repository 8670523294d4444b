//! The leads that say whether a rival is on the wrong side of the club.

ghost use Rattle.std.specs.Prelude.{◌≡◌, ◌≢◌, ◌&&◌, Bool, true, ℕ, List, [], MatchOption};
ghost use Rattle.league_core.specs.declared.zone.Literal.{Literal};
ghost use Rattle.league_core.specs.game.ClubSets.{clubs_in};
ghost use Rattle.league_core.specs.game.Sums.{has_club};
ghost use Rattle.league_core.specs.game.HeadToHead.{by_first_difference};
ghost use Rattle.near_bound.specs.inside.Margins.{record_parts};
ghost use Rattle.near_bound.specs.inside.Decisions.{leads_anyway};
ghost use Rattle.near_bound.specs.declared.tie.Tie as ties;
ghost use Rattle.league_core.specs.declared.club_set.ClubSet as sets;
ghost use Rattle.near_bound.specs.inside.Ties.{IsTie, IsTieIn, fits_of};
ghost use Rattle.near_bound.specs.inside.PairLeads.{AreClubsOf, AreLeadsNear, HaveFits};
ghost use Rattle.near_bound.specs.inside.GroupsLeft.{IsMarkedLead, AreWrongs, AreOthers};
ghost use Rattle.near_bound.specs.inside.GroupsLeft.{AreRivals};

use crate::leads::Leads;
use crate::margin::Margin;
use crate::tie::Tie;
use league_core::ClubSet;
use std::cmp::Ordering;

/// A rival's leads over the club if it is marked after it, and the club's over the rival if it is
/// marked before.
#[derive(Clone, Copy)]
pub struct Wrongs {
    pub behind: Option<Leads>,
    pub ahead: Option<Leads>,
}

impl Wrongs {
    /// No leads.
    pub const NONE: Wrongs = Wrongs {
        behind: None,
        ahead: None,
    };

    /// Those of a rival.
    pub fn of(tie: &Tie, able: ClubSet, club: u8, rival: u8) -> Wrongs
        requires tie { IsTie tie.now }
        requires rivals { AreRivals tie.now able club }
        requires among { has_club (clubs_in able) rival ≡ true }
        ensures { AreWrongs tie.now able club rival result }
    {
        Wrongs {
            behind: leads_if(tie.left.after.has(rival), tie, able, rival, club),
            ahead: leads_if(tie.left.before.has(rival), tie, able, club, rival),
        }
    }

    /// Of some clubs one that takes most from the leads.
    pub fn worst_of(&self, clubs: ClubSet) -> u8
        requires { clubs_in clubs ≢ [] }
        ensures { has_club (clubs_in clubs) result ≡ true }
    {
        match &self.behind {
            Some(leads) => leads.worst_of(clubs),
            None => match &self.ahead {
                Some(leads) => leads.worst_of(clubs),
                None => clubs.first_club(),
            },
        }
    }
}

impl Leads {
    // One that takes most from these.
    fn worst_of(&self, clubs: ClubSet) -> u8
        requires { clubs_in clubs ≢ [] }
        ensures { has_club (clubs_in clubs) result ≡ true }
    {
        let mut worst = clubs.first_club();
        for club in clubs.clubs() {
            if is_less(self.against[club as usize], self.against[worst as usize]) {
                worst = club;
            }
        }
        worst
    }
}

fn is_less(lead: Option<Margin>, other: Option<Margin>) -> bool {
    match lead {
        None => false,
        Some(margin) => match other {
            None => true,
            Some(more) => by_records(&margin, &more).is_lt(),
        },
    }
}

// Less if the first record is less.
fn by_records(lead: &Margin, other: &Margin) -> Ordering
    ensures { result ≡ by_first_difference (record_parts other.now) (record_parts lead.now) }
{
    let by_goals = lead.goals.cmp(&other.goals);
    let by_difference = lead.difference.cmp(&other.difference).then(by_goals);
    lead.points.cmp(&other.points).then(by_difference)
}

fn leads_if(marked: bool, tie: &Tie, able: ClubSet, front: u8, back: u8) -> Option<Leads>
    requires tie { IsTie tie.now }
    requires clubs { AreClubsOf tie.now able front back }
    ensures { IsMarkedLead tie.now able front back marked result }
{
    if marked {
        Some(tie.leads(able, front, back))
    } else {
        None
    }
}

/// The leads, if there are some, decide in each group with the sure clubs and any of the loose
/// ones.
pub fn decide(leads: &Option<Leads>, sure: ClubSet, loose: ClubSet) -> bool
    requires { MatchOption leads.now (Unit {0}) AreLeadsNear }
    ensures { (tie : ties.Tie) (able : sets.ClubSet) (front back : ℕ) (marked : Bool)
        (zone : List Literal) → IsMarkedLead tie able front back marked leads.now
        → IsTieIn tie zone → HaveFits tie able front back zone
        → AreOthers able front back (clubs_in sure) → AreOthers able front back (clubs_in loose)
        → result ≡ (marked && leads_anyway tie.left.now.sheet.now (fits_of tie zone) front back
        (clubs_in sure) (clubs_in loose)) }
{
    match leads {
        None => false,
        Some(leads) => leads.decide(sure, loose),
    }
}
