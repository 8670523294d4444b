//! Whether the leads of one club over another decide in a group.

ghost use Rattle.std.specs.Prelude.{◌≡◌, ◌*◌, ◌+◌, ◌<◌, ◌&&◌, ◌||◌};
ghost use Rattle.std.specs.Prelude.{◌++◌, ◌∷◌, [], true, false, length};
ghost use Rattle.std.specs.Prelude.{Some, ℕ, ◌+ℤ◌};
ghost use Rattle.league_core.specs.game.ClubSets.{clubs_in};
ghost use Rattle.league_core.specs.game.HeadToHead.{by_first_difference};
ghost use Rattle.near_laws.specs.Leads.{by_lead, is_ahead_by, is_level_or_ahead_by, at_most};
ghost use Rattle.near_laws.specs.Leads.{added_leads, total_lead};
ghost use Rattle.near_laws.specs.SureLeads.{even_record, with_part};
ghost use Rattle.near_bound.specs.inside.Margins.{lead_by, record_parts, first_parts};
ghost use Rattle.near_bound.specs.inside.Margins.{overall_parts, IsLeadWithin, IsMarginWithin};
ghost use Rattle.near_bound.specs.inside.PairLeads.{AreLeadsNear};
ghost use Rattle.near_bound.specs.inside.Decisions.{third_lead, total_with, leads_decide_anyway};

use crate::leads::Leads;
use crate::margin::Margin;
use league_core::{ClubSet, Order};
use std::cmp::Ordering;

impl Leads {
    /// In each group with the sure clubs and any of the loose ones, the front club is surely ahead
    /// of the back one.
    pub fn decide(&self, sure: ClubSet, loose: ClubSet) -> bool
        requires { AreLeadsNear self.now }
        ensures { result ≡ leads_decide_anyway self.now (clubs_in sure) (clubs_in loose) }
    {
        match self.order {
            Order::HeadFirst => {
                is_above(self.total(sure, loose, false)) || self.decide_last(sure, loose)
            }
            Order::OverallFirst => {
                self.is_first_above()
                    || (self.is_first_from_zero() && self.decide_part(sure, loose))
            }
        }
    }

    // By the head-to-head of any part of the group, or by what comes last.
    fn decide_part(&self, sure: ClubSet, loose: ClubSet) -> bool
        requires { AreLeadsNear self.now }
        ensures { result ≡ (is_ahead_by (total_with true self.now (clubs_in sure) (clubs_in loose))
            || (is_level_or_ahead_by (total_with true self.now (clubs_in sure) (clubs_in loose))
            && is_ahead_by (with_part self.now.rank (lead_by overall_parts self.now.overall)))) }
    {
        is_above(self.total(sure, loose, true)) || self.decide_last(sure, loose)
    }

    // Any part of the group leaves the two level at the least, and what comes last decides.
    fn decide_last(&self, sure: ClubSet, loose: ClubSet) -> bool
        requires { AreLeadsNear self.now }
        ensures { result
            ≡ (is_level_or_ahead_by (total_with true self.now (clubs_in sure) (clubs_in loose))
            && is_ahead_by (with_part self.now.rank (lead_by overall_parts self.now.overall))) }
    {
        self.is_tail_above() && is_from_zero(self.total(sure, loose, true))
    }

    // The lead of the two alone with those by third clubs, of which none adds to it if they are
    // capped; the loose ones never do.
    fn total(&self, sure: ClubSet, loose: ClubSet, capped: bool) -> Option<Margin>
        requires { AreLeadsNear self.now }
        ensures { lead_by record_parts result
            ≡ total_with capped self.now (clubs_in sure) (clubs_in loose) }
    {
        let with_sure = self.added_to(self.pair, sure, capped);
        self.added_to(with_sure, loose, true)
    }

    // The lead with those by third clubs.
    fn added_to(&self, lead: Option<Margin>, thirds: ClubSet, capped: bool) -> Option<Margin>
        requires leads { AreLeadsNear self.now }
        requires near { IsLeadWithin 50000000 lead }
        ensures value { lead_by record_parts result ≡ total_lead (lead_by record_parts lead)
            (third_lead capped self.now) (clubs_in thirds) }
        ensures near { (bound : ℕ) → IsLeadWithin bound lead
            → IsLeadWithin (bound + 400000 * length (clubs_in thirds)) result }
    {
        let mut total = lead;
        for club in thirds.clubs() {
            total = with_record(total, self.third(club, capped));
        }
        total
    }

    fn third(&self, club: u8, capped: bool) -> Option<Margin>
        requires near { AreLeadsNear self.now }
        requires in_range { club < 32 }
        ensures value { lead_by record_parts result ≡ third_lead capped self.now club }
        ensures near { IsLeadWithin 400000 result }
    {
        let lead = self.against[club as usize];
        if capped { at_most_even(lead) } else { lead }
    }

    // In what comes last.
    fn is_tail_above(&self) -> bool
        ensures { result
            ≡ is_ahead_by (with_part self.now.rank (lead_by overall_parts self.now.overall)) }
    {
        match self.overall {
            None => true,
            Some(lead) => self.by_tail(&lead).is_lt(),
        }
    }

    fn by_tail(&self, lead: &Margin) -> Ordering
        ensures { result ≡ by_lead (overall_parts lead.now ++ self.now.rank ∷ []) }
    {
        let by_away_wins = 0.cmp(&lead.away_wins).then(0.cmp(&self.rank));
        let by_wins = 0.cmp(&lead.wins).then(by_away_wins);
        let by_away_goals = 0.cmp(&lead.away_goals).then(by_wins);
        let by_goals = 0.cmp(&lead.goals).then(by_away_goals);
        0.cmp(&lead.difference).then(by_goals)
    }

    fn is_first_above(&self) -> bool
        ensures { result ≡ is_ahead_by (lead_by first_parts self.now.overall) }
    {
        match self.overall {
            None => true,
            Some(lead) => by_first(&lead).is_lt(),
        }
    }

    fn is_first_from_zero(&self) -> bool
        ensures { result ≡ is_level_or_ahead_by (lead_by first_parts self.now.overall) }
    {
        match self.overall {
            None => true,
            Some(lead) => by_first(&lead).is_le(),
        }
    }
}

fn by_first(lead: &Margin) -> Ordering
    ensures { result ≡ by_lead (first_parts lead.now) }
{
    let by_goals = 0.cmp(&lead.goals);
    0.cmp(&lead.difference).then(by_goals)
}

// The record is above zero.
fn is_above(lead: Option<Margin>) -> bool
    ensures { result ≡ is_ahead_by (lead_by record_parts lead) }
{
    match lead {
        None => true,
        Some(lead) => by_record(&lead).is_lt(),
    }
}

// It is zero or above.
fn is_from_zero(lead: Option<Margin>) -> bool
    ensures { result ≡ is_level_or_ahead_by (lead_by record_parts lead) }
{
    match lead {
        None => true,
        Some(lead) => by_record(&lead).is_le(),
    }
}

fn by_record(lead: &Margin) -> Ordering
    ensures { result ≡ by_lead (record_parts lead.now) }
{
    let by_goals = 0.cmp(&lead.goals);
    let by_difference = 0.cmp(&lead.difference).then(by_goals);
    0.cmp(&lead.points).then(by_difference)
}

// The lesser of nothing and the record.
fn at_most_even(lead: Option<Margin>) -> Option<Margin>
    requires { IsLeadWithin 400000 lead }
    ensures value { lead_by record_parts result
        ≡ Some (at_most even_record (lead_by record_parts lead)) }
    ensures near { IsLeadWithin 400000 result }
{
    match lead {
        None => Some(Margin::NONE),
        Some(margin) => lesser_of_even(margin),
    }
}

fn lesser_of_even(margin: Margin) -> Option<Margin>
    requires { IsLeadWithin 400000 (Some margin) }
    ensures value { lead_by record_parts result
        ≡ Some (at_most even_record (Some (record_parts margin))) }
    ensures near { IsLeadWithin 400000 result }
{
    if by_even(&margin).is_lt() {
        Some(margin)
    } else {
        Some(Margin::NONE)
    }
}

// Less if nothing is more than the record.
fn by_even(lead: &Margin) -> Ordering
    ensures { result ≡ by_first_difference even_record (record_parts lead.now) }
{
    let by_goals = lead.goals.cmp(&0);
    let by_difference = lead.difference.cmp(&0).then(by_goals);
    lead.points.cmp(&0).then(by_difference)
}

// Both together in the parts of a head-to-head; the others stay.
fn with_record(lead: Option<Margin>, other: Option<Margin>) -> Option<Margin>
    requires near { IsLeadWithin 100000000 lead }
    requires other_near { IsLeadWithin 100000000 other }
    ensures value { lead_by record_parts result
        ≡ added_leads (lead_by record_parts lead) (lead_by record_parts other) }
    ensures near { (bound more : ℕ) → IsLeadWithin bound lead → IsLeadWithin more other
        → IsLeadWithin (bound + more) result }
{
    match lead {
        None => None,
        Some(margin) => match other {
            None => None,
            Some(more) => Some(with_parts(margin, &more)),
        },
    }
}

fn with_parts(margin: Margin, more: &Margin) -> Margin
    requires near { IsMarginWithin 100000000 margin }
    requires other_near { IsMarginWithin 100000000 more.now }
    ensures points { result.points ≡ margin.points +ℤ more.now.points }
    ensures difference { result.difference ≡ margin.difference +ℤ more.now.difference }
    ensures goals { result.goals ≡ margin.goals +ℤ more.now.goals }
    ensures away_goals { result.away_goals ≡ margin.away_goals }
    ensures wins { result.wins ≡ margin.wins }
    ensures away_wins { result.away_wins ≡ margin.away_wins }
{
    Margin {
        points: margin.points + more.points,
        difference: margin.difference + more.difference,
        goals: margin.goals + more.goals,
        ..margin
    }
}
