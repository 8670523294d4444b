//! The lots that end a joint finish: with them the club has to be on the side.

ghost use Rattle.std.specs.Prelude.{◌≡◌, ◌<◌, ◌≤◌, ◌+◌, ◌^◌, ℕ, Some, IfOk, IfSome, IsTrue};
ghost use Rattle.std.specs.Prelude.{length};
ghost use Rattle.league_core.specs.game.Ranking.{are_lots};
ghost use Rattle.cup_sheet.specs.Cups.{AreSeasonsOf, clubs_together};
ghost use Rattle.cup_sheet.specs.Qualifying as meaning;
ghost use Rattle.cert_check.specs.ExpectedItems.{lots_if_drawn};
ghost use Rattle.cup_grammar.specs.declared.token.CupToken.{CupToken};
ghost use Rattle.cup_grammar.specs.CupDues.{is_on_claimed_side, lots, scores_of_groups};
ghost use Rattle.cup_grammar.specs.inside.CupRowTruths.{counts_in_cup};
ghost use Rattle.cup_check.specs.inside.CupGoes.{GoesInCup, IsNextInCup};
ghost use Rattle.cup_check.specs.inside.JointCalls.{HaveScoresOver, lots_of_cup_token};

use crate::claimed_side::ClaimedSide;
use crate::report::CupReport;
use cert_check::CheckStopAt;
use cup_finish::qualifies_at;
use cup_grammar::CupToken;
use cup_text::CupLine;
use league_core::{Claim, Lots, OutOfMemory, Season};

impl<'a> CupReport<'a> {
    /// The lots behind the scores: with them and these finishes the club has to be on the side.
    pub fn joint_lots(
        &self,
        from: usize,
        side: ClaimedSide,
        finishes: &[Season],
    ) -> Result<usize, CheckStopAt>
        requires room { from ≤ length self.now.tokens }
        requires in_range { side.club < clubs_together self.now.basis.cup.groups }
        requires over { HaveScoresOver self.now.basis.seasons finishes.now }
        ensures { GoesInCup self.now from
            (lots side.claim side.club (scores_of_groups finishes.now)) result }
    {
        let (at, token) = self.next(from)?;
        self.lots_line(at, &token, side, finishes)
    }

    // Lots in a line that counts.
    fn lots_line(
        &self,
        at: usize,
        token: &CupToken,
        side: ClaimedSide,
        finishes: &[Season],
    ) -> Result<usize, CheckStopAt>
        requires room { at + 1 < 2 ^ 64 }
        requires counted { IsTrue (counts_in_cup token.now) }
        requires in_range { side.club < clubs_together self.now.basis.cup.groups }
        requires over { HaveScoresOver self.now.basis.seasons finishes.now }
        ensures { (from : ℕ) → IsNextInCup self.now from at token.now → GoesInCup self.now from
            (lots side.claim side.club (scores_of_groups finishes.now)) result }
    {
        match self.cup_lots_in(token)? {
            Some(drawn) => self.end_with_lots(at, side, finishes, &drawn),
            None => Err(CheckStopAt::BadLine(at)),
        }
    }

    // The joint finish ends with lots that a line gave.
    fn end_with_lots(
        &self,
        at: usize,
        side: ClaimedSide,
        finishes: &[Season],
        drawn: &Lots,
    ) -> Result<usize, CheckStopAt>
        requires room { at + 1 < 2 ^ 64 }
        requires in_range { side.club < clubs_together self.now.basis.cup.groups }
        requires over { HaveScoresOver self.now.basis.seasons finishes.now }
        requires drawn { IsTrue (are_lots (clubs_together self.now.basis.cup.groups) drawn.now) }
        ensures { (from : ℕ) (token : CupToken) → IsNextInCup self.now from at token
            → lots_of_cup_token (clubs_together self.now.basis.cup.groups) token ≡ Some drawn.now
            → GoesInCup self.now from
            (lots side.claim side.club (scores_of_groups finishes.now)) result }
    {
        self.recall_invariant();
        if self.is_on_side(side, finishes, drawn)? {
            Ok(at + 1)
        } else {
            Err(CheckStopAt::NoProof(at))
        }
    }

    // The lots that a line that counts gives.
    fn cup_lots_in(&self, token: &CupToken) -> Result<Option<Lots>, OutOfMemory>
        requires { IsTrue (counts_in_cup token.now) }
        ensures lots { IfOk result (λ found. found
            ≡ lots_of_cup_token (clubs_together self.now.basis.cup.groups) token.now) }
        ensures drawn { IfOk result (λ found. IfSome found
            (λ it. IsTrue (are_lots (clubs_together self.now.basis.cup.groups) it))) }
    {
        match token {
            CupToken::Proof(CupLine::Lots(told)) => self.drawn(told.list.as_slice()),
            _ => Ok(None),
        }
    }

    // An order as lots, if it names each club of the cup once.
    fn drawn(&self, order: &[u8]) -> Result<Option<Lots>, OutOfMemory>
        ensures { IfOk result (λ found. found ≡ lots_if_drawn
            (are_lots (clubs_together self.now.basis.cup.groups) order.now) order.now) }
    {
        if order.len() != self.clubs() as usize {
            return Ok(None);
        }
        match Lots::new(Vec::from_slice(self.alloc, order)?) {
            Ok(lots) => Ok(Some(lots)),
            Err(_) => Ok(None),
        }
    }

    // Whether the club is on the side with these finishes and lots.
    fn is_on_side(
        &self,
        side: ClaimedSide,
        finishes: &[Season],
        drawn: &Lots,
    ) -> Result<bool, OutOfMemory>
        requires in_range { side.club < clubs_together self.now.basis.cup.groups }
        requires finishes { AreSeasonsOf self.now.basis.cup.groups finishes.now }
        requires drawn { IsTrue (are_lots (clubs_together self.now.basis.cup.groups) drawn.now) }
        ensures { IfOk result (λ is. is ≡ is_on_claimed_side side.claim
            (meaning.qualifies_at self.now.basis.cup finishes.now drawn.now side.club)) }
    {
        let qualifies = qualifies_at(self.alloc, self.cup, finishes, drawn, side.club)?;
        match side.claim {
            Claim::Inside => Ok(qualifies),
            Claim::Outside => Ok(!qualifies),
        }
    }
}
