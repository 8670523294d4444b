//! What refutes a side of a club: a key, a list of other groups, and then trees.

ghost use Rattle.std.specs.Prelude.{◌≡◌, ◌<◌, ◌≤◌, ℕ, IsTrue, length};
ghost use Rattle.std.specs.Prelude.{◌+◌, ◌^◌, Some};
ghost use Rattle.club_keys.specs.inside.KeyEnds.{key_parts};
ghost use Rattle.cup_grammar.specs.PlacedGroups.{group_with, has_placed_club, placed_groups};
ghost use Rattle.cup_grammar.specs.CupDues.{after_groups_in, groups_line, key_line};
ghost use Rattle.cup_grammar.specs.inside.CupParts.{is_token_in_range};
ghost use Rattle.cup_grammar.specs.inside.CupRowTruths.{counts_in_cup};
ghost use Rattle.cup_check.specs.inside.CupGoes.{GoesInCup, IsNextInCup};
ghost use Rattle.cup_check.specs.inside.CupSideCalls.{TakesNextInCup};

use crate::claimed_side::ClaimedSide;
use crate::keys::key_in;
use crate::place::GroupPlace;
use crate::report::CupReport;
use cert_check::CheckStopAt;
use club_keys::ClubKey;
use cup_grammar::CupToken;
use cup_text::CupLine;

impl<'a> CupReport<'a> {
    /// What refutes a side, from the line of its key on.
    pub fn refuted_side(&self, from: usize, side: ClaimedSide) -> Result<usize, CheckStopAt>
        requires { from ≤ length self.now.tokens }
        ensures { GoesInCup self.now from (key_line side.claim side.club) result }
    {
        let (at, token) = self.next(from)?;
        self.key_line(at, &token, side)
    }

    // Goes on behind a line that has to be the key.
    fn key_line(&self, at: usize, token: &CupToken, side: ClaimedSide) -> Result<usize, CheckStopAt>
        requires within { at < length self.now.tokens }
        requires room { at + 1 < 2 ^ 64 }
        requires counted { IsTrue (counts_in_cup token.now) }
        requires ranges { IsTrue (is_token_in_range token.now) }
        ensures { (from : ℕ) → IsNextInCup self.now from at token.now
            → GoesInCup self.now from (key_line side.claim side.club) result }
    {
        match key_in(token) {
            Some(key) => self.groups_line(at + 1, side, key),
            None => Err(CheckStopAt::BadLine(at)),
        }
    }

    // The list of other groups, and the trees behind it.
    fn groups_line(
        &self,
        from: usize,
        side: ClaimedSide,
        key: ClubKey,
    ) -> Result<usize, CheckStopAt>
        requires { from ≤ length self.now.tokens }
        ensures { GoesInCup self.now from
            (groups_line side.claim side.club (key_parts key)) result }
    {
        let (at, token) = self.next(from)?;
        self.list_token(at, &token, side, key)
    }

    // Goes on behind a line that counts, if it is one of a proof.
    fn list_token(
        &self,
        at: usize,
        token: &CupToken,
        side: ClaimedSide,
        key: ClubKey,
    ) -> Result<usize, CheckStopAt>
        requires within { at < length self.now.tokens }
        requires room { at + 1 < 2 ^ 64 }
        requires counted { IsTrue (counts_in_cup token.now) }
        ensures { (from : ℕ) → IsNextInCup self.now from at token.now → GoesInCup self.now from
            (groups_line side.claim side.club (key_parts key)) result }
    {
        match token {
            CupToken::Proof(line) => self.list_line(at, line, side, key),
            _ => Err(CheckStopAt::BadLine(at)),
        }
    }

    // Goes on behind a line that has to be the list of groups.
    fn list_line(
        &self,
        at: usize,
        line: &CupLine,
        side: ClaimedSide,
        key: ClubKey,
    ) -> Result<usize, CheckStopAt>
        requires within { at < length self.now.tokens }
        requires room { at + 1 < 2 ^ 64 }
        ensures { TakesNextInCup self.now (after_groups_in self.now.basis side.claim side.club
            (key_parts key) (group_with (placed_groups self.now.basis) side.club) line.now) at
            result }
    {
        match self.group_with(side.club) {
            Some(mine) => self.listed(at, line, side, key, &mine),
            None => Err(CheckStopAt::BadLine(at)),
        }
    }

    // The same, for a club of this group.
    fn listed(
        &self,
        at: usize,
        line: &CupLine,
        side: ClaimedSide,
        key: ClubKey,
        mine: &GroupPlace,
    ) -> Result<usize, CheckStopAt>
        requires within { at < length self.now.tokens }
        requires room { at + 1 < 2 ^ 64 }
        requires has { IsTrue (has_placed_club mine.now side.club) }
        ensures { TakesNextInCup self.now (after_groups_in self.now.basis side.claim side.club
            (key_parts key) (Some mine.now) line.now) at result }
    {
        match line {
            CupLine::Groups(groups) => {
                let numbers = groups.list.as_slice();
                if self.may_be_listed(side.claim, mine, numbers) {
                    self.side_trees(at + 1, side, key, mine, numbers)
                } else {
                    Err(CheckStopAt::BadLine(at))
                }
            }
            _ => Err(CheckStopAt::BadLine(at)),
        }
    }
}
