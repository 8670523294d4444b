//! Examples in a report, score by score, and the lots that end them.

ghost use Rattle.std.specs.Prelude.{◌≡◌, ◌<◌, ◌≤◌, List, Option, IsTrue, IfOk, IfSome, length};
ghost use Rattle.league_core.specs.game.Seasons.{IsSeasonOf};
ghost use Rattle.league_core.specs.game.Questions.{IsQuestionOf, holds_at};
ghost use Rattle.league_core.specs.game.Questions as questions;
ghost use Rattle.league_core.specs.game.Ranking.{are_lots};
ghost use Rattle.league_core.specs.game.Sums as sums;
ghost use Rattle.line_tokens.specs.Tokens.{counts};
ghost use Rattle.cert_check.specs.ExpectedItems.{after, score, lots, whole_example};
ghost use Rattle.cert_check.specs.ExpectedItems as dues;
ghost use Rattle.cert_check.specs.inside.Calls.{Goes, GoesOverFixture, after_score_if};
ghost use Rattle.cert_check.specs.inside.Calls.{lots_of_token, IsOver};

use crate::ranges::is_ending;
use crate::report::Report;
use crate::stop::CheckStopAt;
use cert_text::ProofLine;
use final_rank::place;
use league_core::{Event, Lots, OutOfMemory, Question, Score, Season};
use line_tokens::Token;
use tie_criteria::points_of;

impl<'a> Report<'a> {
    /// An example after its head: a score for each fixture that the season has none for, and lots
    /// with which the question holds.
    pub fn example(&self, from: usize, question: Question) -> Result<usize, CheckStopAt>
        requires room { from ≤ length self.now.tokens }
        requires question { IsQuestionOf self.now.basis.sheet question }
        ensures { Goes self.now from (whole_example self.now.basis question) result }
    {
        let mut finish = self.season.copy(self.alloc)?;
        let mut at = from;
        for fixture in 0..self.fixtures() {
            at = self.take_fixture(at, fixture, &mut finish)?;
        }
        self.lots(at, question, &finish)
    }

    // Goes on over one fixture: its score is read if it has none.
    fn take_fixture(
        &self,
        from: usize,
        fixture: u16,
        finish: &mut Season,
    ) -> Result<usize, CheckStopAt>
        requires room { from ≤ length self.now.tokens }
        requires in_range { fixture < length finish.old.scores }
        ensures goes { GoesOverFixture self.now from fixture finish.old.scores finish.new.scores
            result }
        ensures over { IfOk result (λ _. IsOver fixture finish.old finish.new) }
    {
        if finish.score(fixture).is_some() {
            return Ok(from);
        }
        let (at, token) = self.next(from)?;
        match self.score_in(&token, fixture) {
            Some(score) => {
                self.recall_invariant();
                finish.apply(&Event::Set { fixture, score });
                Ok(at + 1)
            }
            None => Err(CheckStopAt::BadLine(at)),
        }
    }

    /// The score that a line that counts gives to a fixture.
    pub fn score_in(&self, token: &Token, fixture: u16) -> Option<Score>
        requires { IsTrue (counts token.now) }
        ensures score { (question : Question) (ended left : List (Option Score))
            → fixture ≡ length ended
            → after self.now.basis (score question ended left) token.now
            ≡ after_score_if question ended left result }
        ensures within { IfSome result
            (λ it. IsTrue (dues.is_ending self.now.basis.sheet it)) }
    {
        match token {
            Token::Proof(
                ProofLine::Score {
                    fixture: told,
                    score,
                },
            ) => {
                if *told == fixture && is_ending(self.sheet, *score) {
                    Some(*score)
                } else {
                    None
                }
            }
            _ => None,
        }
    }

    fn lots(&self, from: usize, question: Question, finish: &Season) -> Result<usize, CheckStopAt>
        requires room { from ≤ length self.now.tokens }
        requires question { IsQuestionOf self.now.basis.sheet question }
        requires of_sheet { IsSeasonOf self.now.basis.sheet finish.now }
        requires deductions { finish.now.deductions ≡ self.now.basis.season.deductions }
        ensures { Goes self.now from (lots question finish.now.scores) result }
    {
        let (at, token) = self.next(from)?;
        match self.lots_in(&token)? {
            Some(drawn) => {
                if self.holds(question, finish, &drawn)? {
                    Ok(at + 1)
                } else {
                    Err(CheckStopAt::NoProof(at))
                }
            }
            None => Err(CheckStopAt::BadLine(at)),
        }
    }

    /// The lots that a line that counts gives.
    pub fn lots_in(&self, token: &Token) -> Result<Option<Lots>, OutOfMemory>
        requires { IsTrue (counts token.now) }
        ensures lots { IfOk result (λ found.
            found ≡ lots_of_token (length self.now.basis.sheet.clubs) token.now) }
        ensures drawn { IfOk result (λ found. IfSome found
            (λ it. IsTrue (are_lots (length self.now.basis.sheet.clubs) it))) }
    {
        match token {
            Token::Proof(ProofLine::Lots(told)) => self.drawn(told.list.as_slice()),
            _ => Ok(None),
        }
    }

    fn drawn(&self, order: &[u8]) -> Result<Option<Lots>, OutOfMemory>
        ensures { IfOk result (λ found. found ≡ dues.lots_if_drawn
            (are_lots (length self.now.basis.sheet.clubs) order.now) order.now) }
    {
        if order.len() != self.sheet.clubs.len() {
            return Ok(None);
        }
        match Lots::new(Vec::from_slice(self.alloc, order)?) {
            Ok(lots) => Ok(Some(lots)),
            Err(_) => Ok(None),
        }
    }

    fn holds(&self, question: Question, finish: &Season, drawn: &Lots) -> Result<bool, OutOfMemory>
        requires question { IsQuestionOf self.now.basis.sheet question }
        requires of_sheet { IsSeasonOf self.now.basis.sheet finish.now }
        requires drawn { IsTrue (are_lots (length self.now.basis.sheet.clubs) drawn.now) }
        ensures { IfOk result (λ holds.
            holds ≡ holds_at self.now.basis.sheet question finish.now drawn.now) }
    {
        let place = place(self.alloc, self.sheet, finish, drawn, question.club)?;
        let on_side = question.claim.is_on_side(place <= question.line);
        Ok(self.is_in_window(question, finish) && on_side)
    }

    fn is_in_window(&self, question: Question, finish: &Season) -> bool
        requires question { IsQuestionOf self.now.basis.sheet question }
        requires of_sheet { IsSeasonOf self.now.basis.sheet finish.now }
        ensures { result ≡ questions.is_in_window question
            (sums.points_of self.now.basis.sheet finish.now question.club) }
    {
        question.is_in_window(points_of(self.sheet, finish, question.club))
    }
}
