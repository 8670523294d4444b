//! What comes after the row of a line and a club, by its word.

ghost use Rattle.std.specs.Prelude.{◌≡◌, ◌<◌, ◌≤◌, ◌+◌, ◌^◌, [], ◌∷◌, IsTrue, IfOk, length};
ghost use Rattle.league_core.specs.game.Questions.{IsQuestionOf};
ghost use Rattle.league_core.specs.game.Questions as questions;
ghost use Rattle.league_core.specs.game.Sheets.{is_line};
ghost use Rattle.cert_check.specs.ExpectedItems.{tree_head, spent_head, finish_head, one_part};
ghost use Rattle.cert_check.specs.ExpectedItems.{both_parts};
ghost use Rattle.cert_check.specs.ExpectedItems as dues;
ghost use Rattle.cert_check.specs.inside.Calls.{Goes, head_of_token, GoesOverItem, GoesAfter};
ghost use Rattle.cert_check.specs.inside.Calls as calls;

use crate::expected::Head;
use crate::ranges::same_claim;
use crate::report::Report;
use crate::stop::CheckStopAt;
use crate::tree::TreeSpec;
use cert_text::ProofLine;
use league_core::limits::{MOST_DEDUCTION, MOST_POINTS};
use league_core::{Claim, Question};
use line_tokens::{RowWord, Token, TreeKind};

/// A part of a report that was read: an item, or several.
#[derive(Clone, Copy)]
pub struct PartRead {
    /// The position after its last line.
    pub next: usize,
    /// How many of its rows are unsettled.
    pub unsettled: u32,
}

impl PartRead {
    /// This and a later one together.
    pub fn and(self, later: PartRead) -> PartRead
        requires { self.unsettled + later.unsettled < 2 ^ 32 }
        ensures next { result.next ≡ later.next }
        ensures unsettled { result.unsettled ≡ self.unsettled + later.unsettled }
    {
        PartRead {
            next: later.next,
            unsettled: self.unsettled + later.unsettled,
        }
    }
}

impl<'a> Report<'a> {
    /// The item of a line and a club: its row, and what its word asks for.
    pub fn item(&self, from: usize, line: u8, club: u8) -> Result<PartRead, CheckStopAt>
        requires room { from ≤ length self.now.tokens }
        requires in_range { club < length self.now.basis.sheet.clubs }
        requires line { IsTrue (is_line (length self.now.basis.sheet.clubs) line) }
        ensures goes { GoesOverItem self.now from line club result }
        ensures few { IfOk result (λ found. found.unsettled ≤ 1) }
    {
        let (at, word) = self.verdict_row(from, line, club)?;
        let next = self.behind(at, line, club, word)?;
        let unsettled = unsettled_in(word);
        Ok(PartRead { next, unsettled })
    }

    fn behind(&self, from: usize, line: u8, club: u8, word: RowWord) -> Result<usize, CheckStopAt>
        requires room { from ≤ length self.now.tokens }
        requires in_range { club < length self.now.basis.sheet.clubs }
        requires line { IsTrue (is_line (length self.now.basis.sheet.clubs) line) }
        ensures { GoesAfter self.now from (dues.dues_of_word line club word) result }
    {
        let inside = full_question(club, line, Claim::Inside);
        let outside = full_question(club, line, Claim::Outside);
        match word {
            RowWord::Clinched => self.refutation(from, outside),
            RowWord::Lost => self.refutation(from, inside),
            RowWord::Possible => self.two_examples(from, inside, outside),
            RowWord::Unsettled => self.both_parts(from, line, club),
        }
    }

    fn two_examples(
        &self,
        from: usize,
        inside: Question,
        outside: Question,
    ) -> Result<usize, CheckStopAt>
        requires room { from ≤ length self.now.tokens }
        requires inside { IsQuestionOf self.now.basis.sheet inside }
        requires outside { IsQuestionOf self.now.basis.sheet outside }
        ensures { GoesAfter self.now from (finish_head inside ∷ finish_head outside ∷ []) result }
    {
        let at = self.finish(from, inside)?;
        self.finish(at, outside)
    }

    fn refutation(&self, from: usize, question: Question) -> Result<usize, CheckStopAt>
        requires room { from ≤ length self.now.tokens }
        requires question { IsQuestionOf self.now.basis.sheet question }
        ensures { Goes self.now from (tree_head question) result }
    {
        let (at, token) = self.next(from)?;
        match head_of(&token, question.claim) {
            Some(Head::RefutedTree) => self.tree(at + 1, refutation_of(question)),
            Some(Head::SpentTree) => Err(CheckStopAt::BadLine(at)),
            Some(Head::Example) => Err(CheckStopAt::BadLine(at)),
            None => Err(CheckStopAt::BadLine(at)),
        }
    }

    fn spent(&self, from: usize, question: Question) -> Result<usize, CheckStopAt>
        requires room { from ≤ length self.now.tokens }
        requires question { IsQuestionOf self.now.basis.sheet question }
        ensures { Goes self.now from (spent_head question) result }
    {
        let (at, token) = self.next(from)?;
        match head_of(&token, question.claim) {
            Some(Head::RefutedTree) => Err(CheckStopAt::BadLine(at)),
            Some(Head::SpentTree) => self.tree(at + 1, spent_of(question)),
            Some(Head::Example) => Err(CheckStopAt::BadLine(at)),
            None => Err(CheckStopAt::BadLine(at)),
        }
    }

    fn finish(&self, from: usize, question: Question) -> Result<usize, CheckStopAt>
        requires room { from ≤ length self.now.tokens }
        requires question { IsQuestionOf self.now.basis.sheet question }
        ensures { Goes self.now from (finish_head question) result }
    {
        let (at, token) = self.next(from)?;
        match head_of(&token, question.claim) {
            Some(Head::RefutedTree) => Err(CheckStopAt::BadLine(at)),
            Some(Head::SpentTree) => Err(CheckStopAt::BadLine(at)),
            Some(Head::Example) => self.example(at + 1, question),
            None => Err(CheckStopAt::BadLine(at)),
        }
    }

    fn one_part(&self, from: usize, question: Question) -> Result<usize, CheckStopAt>
        requires room { from ≤ length self.now.tokens }
        requires question { IsQuestionOf self.now.basis.sheet question }
        ensures { Goes self.now from (one_part question) result }
    {
        let (at, token) = self.next(from)?;
        match head_of(&token, question.claim) {
            Some(Head::RefutedTree) => Err(CheckStopAt::BadLine(at)),
            Some(Head::SpentTree) => self.tree(at + 1, spent_of(question)),
            Some(Head::Example) => self.example(at + 1, question),
            None => Err(CheckStopAt::BadLine(at)),
        }
    }

    // After an example of inside only a spent tree of outside may come.
    fn both_parts(&self, from: usize, line: u8, club: u8) -> Result<usize, CheckStopAt>
        requires room { from ≤ length self.now.tokens }
        requires in_range { club < length self.now.basis.sheet.clubs }
        requires line { IsTrue (is_line (length self.now.basis.sheet.clubs) line) }
        ensures { Goes self.now from (both_parts line club) result }
    {
        let inside = full_question(club, line, Claim::Inside);
        let outside = full_question(club, line, Claim::Outside);
        let (at, token) = self.next(from)?;
        match head_of(&token, Claim::Inside) {
            Some(Head::RefutedTree) => Err(CheckStopAt::BadLine(at)),
            Some(Head::SpentTree) => {
                let behind = self.tree(at + 1, spent_of(inside))?;
                self.one_part(behind, outside)
            }
            Some(Head::Example) => {
                let behind = self.example(at + 1, inside)?;
                self.spent(behind, outside)
            }
            None => Err(CheckStopAt::BadLine(at)),
        }
    }
}

fn unsettled_in(word: RowWord) -> u32
    ensures { result ≡ calls.unsettled_in word }
{
    match word {
        RowWord::Unsettled => 1,
        _ => 0,
    }
}

fn refutation_of(question: Question) -> TreeSpec
    ensures { result ≡ record { kind = TreeKind.Refutation; question = question } }
{
    TreeSpec {
        kind: TreeKind::Refutation,
        question,
    }
}

fn spent_of(question: Question) -> TreeSpec
    ensures { result ≡ record { kind = TreeKind.Spent; question = question } }
{
    TreeSpec {
        kind: TreeKind::Spent,
        question,
    }
}

/// The question whether a club ends on one side of a line, whatever its points.
pub fn full_question(club: u8, line: u8, claim: Claim) -> Question
    ensures { result ≡ questions.full_question club line claim }
{
    Question {
        club,
        line,
        claim,
        low: -i32::from(MOST_DEDUCTION),
        high: i32::from(MOST_POINTS),
    }
}

/// Which head of the claim a line is.
pub fn head_of(token: &Token, claim: Claim) -> Option<Head>
    ensures { result ≡ head_of_token claim token.now }
{
    match token {
        Token::Proof(line) => head_in(line, claim),
        _ => None,
    }
}

fn head_in(line: &ProofLine, claim: Claim) -> Option<Head>
    ensures { result ≡ dues.head_in claim line.now }
{
    match line {
        ProofLine::Tree(told) => if_of_claim(claim, *told, Head::RefutedTree),
        ProofLine::Spent(told) => if_of_claim(claim, *told, Head::SpentTree),
        ProofLine::Finish(told) => if_of_claim(claim, *told, Head::Example),
        _ => None,
    }
}

fn if_of_claim(claim: Claim, told: Claim, head: Head) -> Option<Head>
    ensures { result ≡ dues.if_of_claim claim told head }
{
    if same_claim(told, claim) {
        Some(head)
    } else {
        None
    }
}
