//! The trees that refute a side of a club: two about it, and those about the clubs of the groups
//! that are listed, in the order due.

ghost use Rattle.std.specs.Prelude.{◌≡◌, ◌<◌, ◌≤◌, ℕ, IsTrue, length};
ghost use Rattle.std.specs.Prelude.{◌+◌, ◌^◌, nat_lt};
ghost use Rattle.std.specs.List.{flat_map, list_all};
ghost use Rattle.club_keys.specs.inside.KeyEnds.{key_parts};
ghost use Rattle.cup_groups.specs.inside.KindQuestions.{group_question_of};
ghost use Rattle.cup_grammar.specs.PlacedGroups.{CupBasis, groups_at, has_placed_club};
ghost use Rattle.cup_grammar.specs.PlacedGroups.{placed_groups};
ghost use Rattle.cup_grammar.specs.CupDues.{others_due, side_trees_due, tree_head};
ghost use Rattle.cup_grammar.specs.CupExpected.{after_in_cup};
ghost use Rattle.cup_grammar.specs.inside.CupRowTruths.{counts_in_cup};
ghost use Rattle.cup_check.specs.inside.CupGoes.{GoesAfterInCup, GoesInCup, IsNextInCup};
ghost use Rattle.cup_check.specs.inside.CupSideCalls.{after_tree_head_if};

use crate::claimed_side::ClaimedSide;
use crate::place::GroupPlace;
use crate::report::CupReport;
use crate::walk::GroupTreeSpec;
use cert_check::CheckStopAt;
use club_keys::ClubKey;
use cup_grammar::CupToken;
use cup_groups::{KindQuestion, nearer_kind, others_kind, place_kind};
use cup_sheet::GroupKind;
use cup_text::CupLine;
use league_core::Claim;
use line_tokens::TreeKind;

impl<'a> CupReport<'a> {
    /// The trees about the club, and then those about the clubs of the groups of these numbers.
    pub fn side_trees(
        &self,
        from: usize,
        side: ClaimedSide,
        key: ClubKey,
        mine: &GroupPlace,
        numbers: &[u8],
    ) -> Result<usize, CheckStopAt>
        requires room { from ≤ length self.now.tokens }
        requires has { IsTrue (has_placed_club mine.now side.club) }
        requires numbers { IsTrue (list_all
            (λ number. nat_lt number (length (placed_groups self.now.basis))) numbers.now) }
        ensures { GoesAfterInCup self.now from (side_trees_due side.claim side.club (key_parts key)
            mine.now (groups_at (placed_groups self.now.basis) numbers.now)) result }
    {
        let own = mine.own_club(side.club);
        let place = question_of(place_kind(side.claim), own, key);
        let at = self.tree_head(from, mine, place)?;
        let nearer = question_of(nearer_kind(side.claim), own, key);
        let behind = self.tree_head(at, mine, nearer)?;
        self.other_trees(behind, side.claim, key, numbers)
    }

    // The trees about the clubs of the groups of these numbers.
    fn other_trees(
        &self,
        from: usize,
        claim: Claim,
        key: ClubKey,
        numbers: &[u8],
    ) -> Result<usize, CheckStopAt>
        requires room { from ≤ length self.now.tokens }
        requires numbers { IsTrue (list_all
            (λ number. nat_lt number (length (placed_groups self.now.basis))) numbers.now) }
        ensures { GoesAfterInCup self.now from (flat_map (others_due claim (key_parts key))
            (groups_at (placed_groups self.now.basis) numbers.now)) result }
    {
        self.recall_invariant();
        let mut at = from;
        for number in numbers {
            at = self.group_trees(at, claim, key, &self.group(*number))?;
        }
        Ok(at)
    }

    // The trees about the clubs of one group.
    fn group_trees(
        &self,
        from: usize,
        claim: Claim,
        key: ClubKey,
        group: &GroupPlace,
    ) -> Result<usize, CheckStopAt>
        requires { from ≤ length self.now.tokens }
        ensures { GoesAfterInCup self.now from (others_due claim (key_parts key) group.now) result }
    {
        let mut at = from;
        for club in 0..group.clubs() {
            at = self.tree_head(at, group, question_of(others_kind(claim), club, key))?;
        }
        Ok(at)
    }

    // A refutation about a group from its head on.
    fn tree_head(
        &self,
        from: usize,
        group: &GroupPlace,
        question: KindQuestion,
    ) -> Result<usize, CheckStopAt>
        requires room { from ≤ length self.now.tokens }
        requires in_range { question.club < length group.now.sheet.clubs }
        ensures { GoesInCup self.now from
            (tree_head group.now (group_question_of question)) result }
    {
        let (at, token) = self.next(from)?;
        self.head_line(at, &token, group, question)
    }

    // Goes on behind a line that has to be the head.
    fn head_line(
        &self,
        at: usize,
        token: &CupToken,
        group: &GroupPlace,
        question: KindQuestion,
    ) -> Result<usize, CheckStopAt>
        requires within { at < length self.now.tokens }
        requires room { at + 1 < 2 ^ 64 }
        requires counted { IsTrue (counts_in_cup token.now) }
        requires in_range { question.club < length group.now.sheet.clubs }
        ensures { (from : ℕ) → IsNextInCup self.now from at token.now → GoesInCup self.now from
            (tree_head group.now (group_question_of question)) result }
    {
        if is_tree_head(token, group, &question) {
            self.tree(
                at + 1,
                group,
                GroupTreeSpec {
                    kind: TreeKind::Refutation,
                    question,
                },
            )
        } else {
            Err(CheckStopAt::BadLine(at))
        }
    }
}

// A line that counts is the head of a refutation of this question.
fn is_tree_head(token: &CupToken, group: &GroupPlace, question: &KindQuestion) -> bool
    requires counted { IsTrue (counts_in_cup token.now) }
    requires in_range { question.now.club < length group.now.sheet.clubs }
    ensures { (basis : CupBasis) → after_in_cup basis
        (tree_head group.now (group_question_of question.now)) token.now
        ≡ after_tree_head_if group.now (group_question_of question.now) result }
{
    match token {
        CupToken::Proof(CupLine::Tree { kind, club }) => {
            *kind == question.kind && *club == group.cup_club(question.club)
        }
        _ => false,
    }
}

fn question_of(kind: GroupKind, club: u8, key: ClubKey) -> KindQuestion
    ensures { result ≡ record { kind = kind; club = club; key = key } }
{
    KindQuestion { kind, club, key }
}
