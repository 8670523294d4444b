//! What stands for a side that is not refuted: a joint finish, or a tree on which the budget was
//! spent.

ghost use Rattle.std.specs.Prelude.{◌≡◌, ◌<◌, ◌≤◌, ◌+◌, ◌^◌, ℕ, IsTrue, length};
ghost use Rattle.cup_text.specs.CupRanges.{is_cup_line};
ghost use Rattle.cup_sheet.specs.Cups.{clubs_together};
ghost use Rattle.cup_grammar.specs.CupDues.{after_cup_part, after_cup_parts, after_joint_head};
ghost use Rattle.cup_grammar.specs.CupDues.{both_parts, finish_head, one_part};
ghost use Rattle.cup_grammar.specs.inside.CupParts.{is_token_in_range};
ghost use Rattle.cup_grammar.specs.inside.CupRowTruths.{counts_in_cup};
ghost use Rattle.cup_check.specs.inside.CupGoes.{GoesInCup, IsNextInCup};
ghost use Rattle.cup_check.specs.inside.CupSideCalls.{TakesNextInCup, claim_of_line};

use crate::claimed_side::{ClaimedSide, inside_of, outside_of};
use crate::report::CupReport;
use cert_check::{CheckStopAt, same_claim};
use cup_grammar::CupToken;
use cup_text::CupLine;
use league_core::Claim;

impl<'a> CupReport<'a> {
    /// A joint finish for a side from its head on.
    pub fn finish(&self, from: usize, side: ClaimedSide) -> Result<usize, CheckStopAt>
        requires room { from ≤ length self.now.tokens }
        requires in_range { side.club < clubs_together self.now.basis.cup.groups }
        ensures { GoesInCup self.now from (finish_head side.claim side.club) result }
    {
        let (at, token) = self.next(from)?;
        self.finish_token(at, &token, side)
    }

    // Goes on behind a line that counts: only a proof line may come.
    fn finish_token(
        &self,
        at: usize,
        token: &CupToken,
        side: ClaimedSide,
    ) -> Result<usize, CheckStopAt>
        requires within { at < length self.now.tokens }
        requires room { at + 1 < 2 ^ 64 }
        requires counted { IsTrue (counts_in_cup token.now) }
        requires ranges { IsTrue (is_token_in_range token.now) }
        requires in_range { side.club < clubs_together self.now.basis.cup.groups }
        ensures { (from : ℕ) → IsNextInCup self.now from at token.now
            → GoesInCup self.now from (finish_head side.claim side.club) result }
    {
        match token {
            CupToken::Proof(line) => self.finish_line(at, line, side),
            _ => Err(CheckStopAt::BadLine(at)),
        }
    }

    /// What stands for both sides of a club that is not settled. After a joint finish at which it
    /// qualifies only a tree may come.
    pub fn both_parts(&self, from: usize, club: u8) -> Result<usize, CheckStopAt>
        requires room { from ≤ length self.now.tokens }
        requires in_range { club < clubs_together self.now.basis.cup.groups }
        ensures { GoesInCup self.now from (both_parts club) result }
    {
        let (at, token) = self.next(from)?;
        self.first_token(at, &token, club)
    }

    // Goes on behind a line that counts: only a proof line may come.
    fn first_token(&self, at: usize, token: &CupToken, club: u8) -> Result<usize, CheckStopAt>
        requires within { at < length self.now.tokens }
        requires room { at + 1 < 2 ^ 64 }
        requires counted { IsTrue (counts_in_cup token.now) }
        requires ranges { IsTrue (is_token_in_range token.now) }
        requires in_range { club < clubs_together self.now.basis.cup.groups }
        ensures { (from : ℕ) → IsNextInCup self.now from at token.now
            → GoesInCup self.now from (both_parts club) result }
    {
        match token {
            CupToken::Proof(line) => self.first_part(at, line, club),
            _ => Err(CheckStopAt::BadLine(at)),
        }
    }

    // Goes on behind the head of the first part.
    fn first_part(&self, at: usize, line: &CupLine, club: u8) -> Result<usize, CheckStopAt>
        requires within { at < length self.now.tokens }
        requires room { at + 1 < 2 ^ 64 }
        requires in_range { club < clubs_together self.now.basis.cup.groups }
        requires ranges { IsTrue (is_cup_line line.now) }
        ensures { TakesNextInCup self.now (after_cup_parts self.now.basis club line.now) at result }
    {
        match claim_of(line) {
            Some(Claim::Inside) => {
                let behind = self.joint_finish(at + 1, inside_of(club))?;
                self.spent(behind)
            }
            Some(Claim::Outside) => Err(CheckStopAt::BadLine(at)),
            None => {
                let behind = self.spent_line(at, line)?;
                self.one_part(behind, outside_of(club))
            }
        }
    }

    // What stands for one side: a joint finish or a tree.
    fn one_part(&self, from: usize, side: ClaimedSide) -> Result<usize, CheckStopAt>
        requires room { from ≤ length self.now.tokens }
        requires in_range { side.club < clubs_together self.now.basis.cup.groups }
        ensures { GoesInCup self.now from (one_part side.claim side.club) result }
    {
        let (at, token) = self.next(from)?;
        self.part_token(at, &token, side)
    }

    // Goes on behind a line that counts: only a proof line may come.
    fn part_token(
        &self,
        at: usize,
        token: &CupToken,
        side: ClaimedSide,
    ) -> Result<usize, CheckStopAt>
        requires within { at < length self.now.tokens }
        requires room { at + 1 < 2 ^ 64 }
        requires counted { IsTrue (counts_in_cup token.now) }
        requires ranges { IsTrue (is_token_in_range token.now) }
        requires in_range { side.club < clubs_together self.now.basis.cup.groups }
        ensures { (from : ℕ) → IsNextInCup self.now from at token.now
            → GoesInCup self.now from (one_part side.claim side.club) result }
    {
        match token {
            CupToken::Proof(line) => self.part_line(at, line, side),
            _ => Err(CheckStopAt::BadLine(at)),
        }
    }

    // Goes on behind a head that may be of either kind.
    fn part_line(&self, at: usize, line: &CupLine, side: ClaimedSide) -> Result<usize, CheckStopAt>
        requires within { at < length self.now.tokens }
        requires room { at + 1 < 2 ^ 64 }
        requires in_range { side.club < clubs_together self.now.basis.cup.groups }
        requires ranges { IsTrue (is_cup_line line.now) }
        ensures { TakesNextInCup self.now
            (after_cup_part self.now.basis side.claim side.club line.now) at result }
    {
        match claim_of(line) {
            Some(_) => self.finish_line(at, line, side),
            None => self.spent_line(at, line),
        }
    }

    // Goes on behind the head of a joint finish.
    fn finish_line(
        &self,
        at: usize,
        line: &CupLine,
        side: ClaimedSide,
    ) -> Result<usize, CheckStopAt>
        requires within { at < length self.now.tokens }
        requires room { at + 1 < 2 ^ 64 }
        requires in_range { side.club < clubs_together self.now.basis.cup.groups }
        ensures { TakesNextInCup self.now
            (after_joint_head self.now.basis side.claim side.club line.now) at result }
    {
        match claim_of(line) {
            Some(claim) if same_claim(claim, side.claim) => self.joint_finish(at + 1, side),
            _ => Err(CheckStopAt::BadLine(at)),
        }
    }
}

// The claim of the head of a joint finish.
fn claim_of(line: &CupLine) -> Option<Claim>
    ensures { result ≡ claim_of_line line.now }
{
    match line {
        CupLine::Finish(claim) => Some(*claim),
        _ => None,
    }
}
