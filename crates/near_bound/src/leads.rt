//! The leads of one club over another.

ghost use Rattle.std.specs.Prelude.{◌≡◌, ◌≢◌, ◌+◌, ◌-ℤ◌, ◌<◌, ℕ, List, length};
ghost use Rattle.std.specs.Prelude.{pos, neg_ℤ, ◌∷◌, []};
ghost use Rattle.league_core.specs.declared.zone.Literal.{Literal};
ghost use Rattle.league_core.specs.game.Ahead.{rank_of};
ghost use Rattle.near_bound.specs.inside.Margins.{IsLeadWithin, IsMarginGap};
ghost use Rattle.near_bound.specs.inside.Ties.{IsTie, IsTieIn};
ghost use Rattle.near_bound.specs.inside.PairLeads.{AreClubsOf, HaveFits, AreLeadsIn, AreLeadsOf};
ghost use Rattle.near_bound.specs.inside.PairLeads.{AreLeadsNear, AreLeadsWithin, LeadsTake};
ghost use Rattle.near_bound.specs.inside.PairLeads.{IsFitForEach, IsLeastFor, AreStarts};
ghost use Rattle.near_bound.specs.inside.PairLeads.{AreStartsAgainst, played_in};
ghost use Rattle.near_bound.specs.inside.PlayedParts.{pair_margin};

use crate::margin::{Margin, added, least_margin};
use crate::match_left::MatchLeft;
use crate::sides::Sides;
use crate::tie::Tie;
use league_core::{ClubSet, Order};

/// The leads of the front club over the back one.
#[derive(Clone, Copy)]
pub struct Leads {
    /// Between the two alone; none if a match of the two has no fit score.
    pub pair: Option<Margin>,
    /// Over all matches of the two.
    pub overall: Option<Margin>,
    /// By the matches with each third club.
    pub against: [Option<Margin>; 32],
    /// By how much the front club's rank is the lower.
    pub rank: i32,
    pub order: Order,
}

impl<'a> Tie<'a> {
    /// The leads of one club over another; by third clubs those of the set alone.
    pub fn leads(&self, able: ClubSet, front: u8, back: u8) -> Leads
        requires tie { IsTie self.now }
        requires clubs { AreClubsOf self.now able front back }
        ensures is { (zone : List Literal) → IsTieIn self.now zone
            → HaveFits self.now able front back zone
            → AreLeadsIn self.now able front back zone result }
        ensures near { AreLeadsNear result }
        ensures of_tie { AreLeadsOf self.now front back result }
    {
        let mut leads = self.played_leads(able, front, back);
        let unplayed = self.left.played.open();
        for number in unplayed {
            self.add_match(&mut leads, *number as usize, able, front, back);
        }
        leads
    }

    // Those of the played matches.
    fn played_leads(&self, able: ClubSet, front: u8, back: u8) -> Leads
        requires tie { IsTie self.now }
        requires clubs { AreClubsOf self.now able front back }
        ensures { AreStarts self.now able front back result }
    {
        let played = self.left.played;
        Leads {
            pair: Some(self.played_lead((front, back), (back, front))),
            overall: Some(played.of_club(front).less(played.of_club(back))),
            against: self.played_against(able, front, back),
            rank: self.rank_lead(front, back),
            order: self.left.sheet.order,
        }
    }

    fn played_against(&self, able: ClubSet, front: u8, back: u8) -> [Option<Margin>; 32]
        requires tie { IsTie self.now }
        requires clubs { AreClubsOf self.now able front back }
        ensures { AreStartsAgainst self.now able front back result }
    {
        let mut against = [None; 32];
        for third in able.clubs() {
            against[third as usize] = Some(self.played_lead((front, third), (back, third)));
        }
        against
    }

    // What the one club has against a rival less what the other has against another.
    fn played_lead(&self, first: (u8, u8), second: (u8, u8)) -> Margin
        requires tie { IsTie self.now }
        requires first_club { first.0 < 24 }
        requires first_rival { first.1 < 24 }
        requires second_club { second.0 < 24 }
        requires second_rival { second.1 < 24 }
        ensures { IsMarginGap (pair_margin (played_in self.now) first.0 first.1)
            (pair_margin (played_in self.now) second.0 second.1) result }
    {
        let played = self.left.played;
        played
            .of_pair(first.0, first.1)
            .less(played.of_pair(second.0, second.1))
    }

    fn rank_lead(&self, front: u8, back: u8) -> i32
        ensures { result ≡ neg_ℤ (pos (rank_of self.now.left.now.sheet.now front))
            -ℤ neg_ℤ (pos (rank_of self.now.left.now.sheet.now back)) }
    {
        i32::from(self.left.sheet.rank_of(back)) - i32::from(self.left.sheet.rank_of(front))
    }

    // What is fit for both in a fixture; most are of one of the two alone.
    fn fit_both(&self, fixture: usize, front: u8, back: u8) -> MatchLeft
        requires tie { IsTie self.now }
        requires of_sheet { fixture < length self.now.left.now.sheet.now.fixtures }
        requires front { front < length self.now.left.now.sheet.now.clubs }
        requires back { back < length self.now.left.now.sheet.now.clubs }
        ensures { IsFitForEach self.now fixture (front ∷ back ∷ []) result }
    {
        let left = self.left.matches[fixture];
        if left.has_one_at_most() {
            return left;
        }
        if self.stays_out(fixture, front) {
            return self.fit(fixture, back);
        }
        let of_front = self.fit(fixture, front);
        if self.stays_out(fixture, back) {
            return of_front;
        }
        let of_back = self.fit(fixture, back);
        of_front.shared(&of_back)
    }

    // With one match more: what is fit for both in it is worked out once.
    fn add_match(&self, leads: &mut Leads, fixture: usize, able: ClubSet, front: u8, back: u8)
        requires tie { IsTie self.now }
        requires of_sheet { fixture < length self.now.left.now.sheet.now.fixtures }
        requires clubs { AreClubsOf self.now able front back }
        requires near { AreLeadsNear leads.old }
        ensures takes { LeadsTake self.now able front back fixture leads.old leads.new }
        ensures near { (bound : ℕ) → AreLeadsWithin bound leads.old
            → AreLeadsWithin (bound + 510) leads.new }
        ensures rank { leads.new.rank ≡ leads.old.rank }
        ensures order { leads.new.order ≡ leads.old.order }
    {
        let teams = self.left.sheet.fixtures.as_slice()[fixture];
        let sides = Sides::of(teams, front, back);
        if !sides.are_any() {
            return;
        }
        let fit = self.fit_both(fixture, front, back);
        let least = least_margin(&fit, teams, front, back);
        leads.overall = added(leads.overall, least);
        if sides.are_both() {
            leads.pair = added(leads.pair, least);
            return;
        }
        let third = sides.other(teams);
        if able.has(third) {
            let by_third = self.least_with(&fit, fixture, third, least, (front, back));
            leads.against[third as usize] = added(leads.against[third as usize], by_third);
        }
    }

    // The least margin over what is fit for a third club too, which plays one of the two. If there
    // is but one score it is the same.
    fn least_with(
        &self,
        fit: &MatchLeft,
        fixture: usize,
        third: u8,
        least: Option<Margin>,
        pair: (u8, u8),
    ) -> Option<Margin>
        requires tie { IsTie self.now }
        requires of_sheet { fixture < length self.now.left.now.sheet.now.fixtures }
        requires third { third < length self.now.left.now.sheet.now.clubs }
        requires apart { pair.0 ≢ pair.1 }
        requires fit { IsFitForEach self.now fixture (pair.0 ∷ pair.1 ∷ []) fit.now }
        requires least { IsLeastFor self.now fixture pair.0 pair.1 (pair.0 ∷ pair.1 ∷ []) least }
        requires near { IsLeadWithin 510 least }
        ensures least { IsLeastFor self.now fixture pair.0 pair.1 (pair.0 ∷ pair.1 ∷ third ∷ [])
            result }
        ensures near { IsLeadWithin 510 result }
    {
        if self.left.matches[fixture].has_one_at_most() {
            return least;
        }
        let teams = self.left.sheet.fixtures.as_slice()[fixture];
        let fit_all = fit.shared(&self.fit(fixture, third));
        least_margin(&fit_all, teams, pair.0, pair.1)
    }
}
