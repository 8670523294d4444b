//! Joint finishes in a report, score by score through all groups.

ghost use Rattle.std.specs.Prelude.{◌≡◌, ◌<◌, ◌≤◌, ◌+◌, ◌^◌, ℕ, List, Option, None, IfOk};
ghost use Rattle.std.specs.Prelude.{IfSome, IsTrue, false, get_or, is_some, length};
ghost use Rattle.league_core.specs.declared.season.Score.{Score};
ghost use Rattle.league_core.specs.declared.question.Claim.{Claim};
ghost use Rattle.cup_sheet.specs.CupFeeds.{joint_sheet};
ghost use Rattle.cup_sheet.specs.Cups.{clubs_together};
ghost use Rattle.cert_check.specs.ExpectedItems.{is_ending};
ghost use Rattle.cup_grammar.specs.PlacedGroups.{CupBasis};
ghost use Rattle.cup_grammar.specs.CupDues.{score, whole_joint_finish};
ghost use Rattle.cup_grammar.specs.CupExpected.{after_in_cup};
ghost use Rattle.cup_grammar.specs.inside.CupRowTruths.{counts_in_cup};
ghost use Rattle.cup_check.specs.inside.CupGoes.{GoesInCup, IsNextInCup};
ghost use Rattle.cup_check.specs.inside.JointCalls.{GoesOverGroup, GoesOverScore, HasScoresOver};
ghost use Rattle.cup_check.specs.inside.JointCalls.{after_cup_score_if};

use crate::claimed_side::ClaimedSide;
use crate::place::GroupPlace;
use crate::report::CupReport;
use cert_check::CheckStopAt;
use cup_grammar::CupToken;
use cup_text::CupLine;
use league_core::{Event, Listing, Score, Season};

impl<'a> CupReport<'a> {
    /// A joint finish after its head: a score for each fixture of the cup that has none, and lots
    /// with which the club is on the side.
    pub fn joint_finish(&self, from: usize, side: ClaimedSide) -> Result<usize, CheckStopAt>
        requires room { from ≤ length self.now.tokens }
        requires in_range { side.club < clubs_together self.now.basis.cup.groups }
        ensures { GoesInCup self.now from
            (whole_joint_finish self.now.basis side.claim side.club) result }
    {
        self.recall_invariant();
        let mut finishes = Listing::new(self.alloc);
        let mut at = from;
        for number in 0..self.group_count() {
            let (next, finish) = self.group_finish(at, &self.group(number))?;
            at = next;
            finishes.push(finish)?;
        }
        self.joint_lots(at, side, finishes.as_slice())
    }

    // The scores of a group, for each fixture that has none.
    fn group_finish(&self, from: usize, group: &GroupPlace) -> Result<(usize, Season), CheckStopAt>
        requires room { from ≤ length self.now.tokens }
        requires of_cup { group.now.sheet.goal_limit ≡ (joint_sheet self.now.basis.cup).goal_limit }
        ensures { GoesOverGroup self.now from group.now result }
    {
        let mut finish = group.season.copy(self.alloc)?;
        let mut at = from;
        for fixture in 0..group.fixtures() {
            at = self.take_score(at, group, fixture, &mut finish)?;
        }
        Ok((at, finish))
    }

    // Goes on over one fixture of a group: its score is read if it has none.
    fn take_score(
        &self,
        from: usize,
        group: &GroupPlace,
        fixture: u16,
        finish: &mut Season,
    ) -> Result<usize, CheckStopAt>
        requires room { from ≤ length self.now.tokens }
        requires of_cup { group.now.sheet.goal_limit ≡ (joint_sheet self.now.basis.cup).goal_limit }
        requires in_range { fixture < length finish.old.scores }
        requires fixtures { length finish.old.scores ≡ length group.now.sheet.fixtures }
        ensures goes { GoesOverScore self.now from group.now.start.fixture fixture
            finish.old.scores finish.new.scores result }
        ensures over { IfOk result (λ _. HasScoresOver finish.old finish.new) }
    {
        if finish.score(fixture).is_some() {
            return Ok(from);
        }
        let (at, token) = self.next(from)?;
        self.score_line(at, &token, group, fixture, finish)
    }

    // The score of a fixture in a line that counts.
    fn score_line(
        &self,
        at: usize,
        token: &CupToken,
        group: &GroupPlace,
        fixture: u16,
        finish: &mut Season,
    ) -> Result<usize, CheckStopAt>
        requires room { at + 1 < 2 ^ 64 }
        requires counted { IsTrue (counts_in_cup token.now) }
        requires of_cup { group.now.sheet.goal_limit ≡ (joint_sheet self.now.basis.cup).goal_limit }
        requires in_range { fixture < length finish.old.scores }
        requires fixtures { length finish.old.scores ≡ length group.now.sheet.fixtures }
        requires unplayed { is_some (get_or finish.old.scores fixture None) ≡ false }
        ensures goes { (from : ℕ) → IsNextInCup self.now from at token.now → GoesOverScore self.now
            from group.now.start.fixture fixture finish.old.scores finish.new.scores result }
        ensures over { IfOk result (λ _. HasScoresOver finish.old finish.new) }
    {
        match score_in(token, group, fixture) {
            Some(score) => {
                group.recall_place();
                finish.apply(&Event::Set { fixture, score });
                Ok(at + 1)
            }
            None => Err(CheckStopAt::BadLine(at)),
        }
    }
}

// The score that a line that counts gives to a fixture of a group.
fn score_in(token: &CupToken, group: &GroupPlace, fixture: u16) -> Option<Score>
    requires counted { IsTrue (counts_in_cup token.now) }
    requires in_range { fixture < length group.now.sheet.fixtures }
    ensures score { (basis : CupBasis) (claim : Claim) (club : ℕ)
        (ended left : List (Option Score))
        → group.now.sheet.goal_limit ≡ (joint_sheet basis.cup).goal_limit
        → length ended ≡ group.now.start.fixture + fixture
        → after_in_cup basis (score claim club ended left) token.now
        ≡ after_cup_score_if claim club ended left result }
    ensures within { IfSome result (λ it. IsTrue (is_ending group.now.sheet it)) }
{
    match token {
        CupToken::Proof(
            CupLine::Score {
                fixture: told,
                score,
            },
        ) => {
            if *told == group.cup_fixture(fixture) && group.may_end(*score) {
                Some(*score)
            } else {
                None
            }
        }
        _ => None,
    }
}
