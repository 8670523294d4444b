//! A tree on which the budget was spent, about the group of a club.

ghost use Rattle.std.specs.Prelude.{◌≡◌, ◌<◌, ◌≤◌, ◌+◌, ◌^◌, ℕ, IsTrue, length};
ghost use Rattle.cup_text.specs.CupRanges.{is_cup_line, is_key_of_kind};
ghost use Rattle.cup_text.specs.declared.cup_line.CupLine.TheVariants.{Spent};
ghost use Rattle.cup_grammar.specs.CupDues.{spent_head};
ghost use Rattle.cup_grammar.specs.inside.CupParts.{is_token_in_range};
ghost use Rattle.cup_grammar.specs.inside.CupRowTruths.{counts_in_cup};
ghost use Rattle.cup_check.specs.inside.CupGoes.{GoesInCup, IsNextInCup};
ghost use Rattle.cup_check.specs.inside.CupSideCalls.{TakesSpentInCup};

use crate::keys::key_of;
use crate::report::CupReport;
use crate::walk::GroupTreeSpec;
use cert_check::CheckStopAt;
use cup_grammar::CupToken;
use cup_groups::KindQuestion;
use cup_sheet::GroupKind;
use cup_text::{CupKey, CupLine};
use line_tokens::TreeKind;

impl<'a> CupReport<'a> {
    /// A tree on which the budget was spent from its head on.
    pub fn spent(&self, from: usize) -> Result<usize, CheckStopAt>
        requires room { from ≤ length self.now.tokens }
        ensures { GoesInCup self.now from spent_head result }
    {
        let (at, token) = self.next(from)?;
        self.spent_token(at, &token)
    }

    // Goes on behind a line that counts: only a proof line may come.
    fn spent_token(&self, at: usize, token: &CupToken) -> Result<usize, CheckStopAt>
        requires within { at < length self.now.tokens }
        requires room { at + 1 < 2 ^ 64 }
        requires counted { IsTrue (counts_in_cup token.now) }
        requires ranges { IsTrue (is_token_in_range token.now) }
        ensures { (from : ℕ) → IsNextInCup self.now from at token.now
            → GoesInCup self.now from spent_head result }
    {
        match token {
            CupToken::Proof(line) => self.spent_line(at, line),
            _ => Err(CheckStopAt::BadLine(at)),
        }
    }

    /// Goes on behind a line that has to be its head.
    pub fn spent_line(&self, at: usize, line: &CupLine) -> Result<usize, CheckStopAt>
        requires within { at < length self.now.tokens }
        requires room { at + 1 < 2 ^ 64 }
        requires ranges { IsTrue (is_cup_line line.now) }
        ensures { TakesSpentInCup self.now line.now at result }
    {
        match line {
            CupLine::Spent { kind, club, key } => self.spent_tree(at, *kind, *club, key),
            _ => Err(CheckStopAt::BadLine(at)),
        }
    }

    // Goes on behind a head of this kind, club and key.
    fn spent_tree(
        &self,
        at: usize,
        kind: GroupKind,
        club: u8,
        key: &Option<CupKey>,
    ) -> Result<usize, CheckStopAt>
        requires within { at < length self.now.tokens }
        requires room { at + 1 < 2 ^ 64 }
        requires key { IsTrue (is_key_of_kind kind key.now) }
        ensures { TakesSpentInCup self.now (Spent kind club key.now) at result }
    {
        match self.group_with(club) {
            Some(group) => {
                let question = KindQuestion {
                    kind,
                    club: group.own_club(club),
                    key: key_of(kind, key),
                };
                self.tree(
                    at + 1,
                    &group,
                    GroupTreeSpec {
                        kind: TreeKind::Spent,
                        question,
                    },
                )
            }
            None => Err(CheckStopAt::BadLine(at)),
        }
    }
}
