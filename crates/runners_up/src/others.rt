//! Whether another group can have a candidate on the far side of a key.

ghost use Rattle.std.specs.Prelude.{◌≡◌, IfOk};
ghost use Rattle.league_core.specs.game.Seasons.{IsLeague};
ghost use Rattle.club_keys.specs.inside.KeyEnds.{key_parts};
ghost use Rattle.cup_groups.specs.inside.KindQuestions.{group_question_of};
ghost use Rattle.runners_up.specs.inside.GroupsAsked.{other_question, IsGroupAsked};
ghost use Rattle.runners_up.specs.inside.GroupsAsked.{asked_together, IsClubNoted};

use club_keys::ClubKey;
use cup_groups::KindQuestion;
use cup_sheet::{GroupKind, GroupReason};
use depth_search::{CaseNode, SearchEnd};
use group_search::solve_group;
use league_core::{Claim, OutOfMemory, Season, Sheet};
use std::alloc::{AllocError, Global};
use tree_arena::Example;

/// A question on which the budget was spent, and the nodes of the tree, all of them new.
#[derive(Drop)]
pub struct SpentQuestion {
    pub question: KindQuestion,
    pub nodes: Vec<CaseNode<GroupReason>>,
}

/// Whether a group can end with a candidate whose key is no less, for missing, or no greater, for
/// qualifying.
#[derive(Drop)]
pub enum GroupAsked {
    /// It can: an end with such a candidate.
    Shown(Example),
    /// It cannot: the nodes of a refutation for each club, by their numbers in the group.
    Refuted(Vec<Vec<CaseNode<GroupReason>>>),
    /// The budget was spent on the question about one of its clubs, and no club can be seen so.
    Spent(SpentQuestion),
}

// What is known of the clubs so far.
#[derive(Drop)]
struct ClubsAsked {
    trees: Vec<Vec<CaseNode<GroupReason>>>,
    spent: Option<SpentQuestion>,
}

/// Asks one club of the group after another, until one is found.
pub fn ask_group(
    alloc: Global,
    sheet: &Sheet,
    season: &Season,
    claim: Claim,
    key: &ClubKey,
) -> Result<GroupAsked, OutOfMemory>
    requires { IsLeague sheet.now season.now }
    ensures { IfOk result (IsGroupAsked sheet.now season.now claim (key_parts key.now)) }
{
    let _played = season.scores();
    let mut asked = ClubsAsked {
        trees: Vec::new(alloc),
        spent: None,
    };
    for club in 0..sheet.clubs.len() as u8 {
        let question = other_question(claim, key, club);
        let end = solve_group(alloc, sheet, season, &question)?;
        if let Some(example) = asked.note(question, end)? {
            return Ok(GroupAsked::Shown(example));
        }
    }
    Ok(asked.end())
}

impl ClubsAsked {
    // Keeps what one club more came to, and hands an example back.
    fn note(
        &mut self,
        question: KindQuestion,
        end: SearchEnd<Example, GroupReason>,
    ) -> Result<Option<Example>, AllocError>
        ensures { IfOk result (IsClubNoted question end self.old.trees.items self.old.spent
            self.new.trees.items self.new.spent) }
    {
        match end {
            SearchEnd::Won(example) => Ok(Some(example)),
            SearchEnd::Refuted(nodes) => {
                self.trees.push(nodes)?;
                Ok(None)
            }
            SearchEnd::Spent(nodes) => {
                self.spent = Some(SpentQuestion { question, nodes });
                Ok(None)
            }
        }
    }

    // What all clubs together come to.
    fn end(self) -> GroupAsked
        ensures { result ≡ asked_together self.trees self.spent }
    {
        let ClubsAsked { trees, spent } = self;
        match spent {
            Some(spent) => GroupAsked::Spent(spent),
            None => GroupAsked::Refuted(trees),
        }
    }
}

// Whether the club can be its group's candidate so.
fn other_question(claim: Claim, key: &ClubKey, club: u8) -> KindQuestion
    ensures value { group_question_of result ≡ other_question claim (key_parts key.now) club }
    ensures club { result.club ≡ club }
{
    let kind = match claim {
        Claim::Outside => GroupKind::SecondAtLeast,
        Claim::Inside => GroupKind::SecondAtMost,
    };
    KindQuestion {
        kind,
        club,
        key: *key,
    }
}
