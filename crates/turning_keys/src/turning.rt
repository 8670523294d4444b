//! The search for the key on which it turns.

ghost use Rattle.std.specs.Prelude.{◌≡◌, ◌<◌, IfOk, IfSome, length};
ghost use Rattle.league_core.specs.game.Seasons.{IsLeague};
ghost use Rattle.club_keys.specs.inside.KeyEnds.{key_parts};
ghost use Rattle.cup_sheet.specs.CupLimits.{direct_places};
ghost use Rattle.cup_sheet.specs.KeyBounds.{IsTurningKey};
ghost use Rattle.turning_keys.specs.inside.KeyEndings.{IsKeyEnd, IsExampleAt};
ghost use Rattle.turning_keys.specs.inside.TurningSearches.{IsReachedTo};

use crate::find::find_key;
use crate::halve::Reached;
use crate::key_part::far_key;
use crate::sought::Sought;
use club_keys::ClubKey;
use cup_groups::KindQuestion;
use cup_sheet::GroupReason;
use depth_search::{CaseNode, SearchEnd};
use group_search::solve_group;
use league_core::{Claim, OutOfMemory, Season, Sheet};
use std::alloc::Global;
use tree_arena::Example;

/// What the search for a turning key comes to.
#[derive(Drop)]
pub enum KeyEnd {
    /// The key; how the club is the candidate with just this key, unless it cannot be one; and the
    /// nodes of a tree that refutes each key farther in.
    Found {
        key: ClubKey,
        example: Option<Example>,
        nodes: Vec<CaseNode<GroupReason>>,
    },
    /// The budget was spent on this question, on the way to it: the nodes of the tree.
    Spent {
        question: KindQuestion,
        nodes: Vec<CaseNode<GroupReason>>,
    },
}

/// Looks for the key on which it turns whether a club, by its number in the group from 0, is on one
/// side. Each question has the whole budget of the sheet.
pub fn turning_key(
    alloc: Global,
    sheet: &Sheet,
    season: &Season,
    claim: Claim,
    club: u8,
) -> Result<KeyEnd, OutOfMemory>
    requires league { IsLeague sheet.now season.now }
    requires in_range { club < length sheet.now.clubs }
    ensures { IfOk result (IsKeyEnd sheet.now season.now claim club) }
{
    let _scores = season.scores();
    let sought = Sought { claim, club };
    let key = far_key(claim);
    let question = sought.halving(&key);
    match solve_group(alloc, sheet, season, &question)? {
        SearchEnd::Won(example) => {
            let reached = Reached {
                key,
                known: 0,
                example,
            };
            candidate_key(alloc, sheet, season, sought, reached)
        }
        SearchEnd::Refuted(_) => last_question(alloc, sheet, season, sought, key, None),
        SearchEnd::Spent(nodes) => Ok(KeyEnd::Spent { question, nodes }),
    }
}

// Of a club that can be the candidate.
fn candidate_key(
    alloc: Global,
    sheet: &Sheet,
    season: &Season,
    sought: Sought,
    first: Reached,
) -> Result<KeyEnd, OutOfMemory>
    requires league { IsLeague sheet.now season.now }
    requires in_range { sought.club < length sheet.now.clubs }
    requires none { first.known ≡ 0 }
    requires reached { IsReachedTo sheet.now season.now sought.claim sought.club first }
    ensures { IfOk result (IsKeyEnd sheet.now season.now sought.claim sought.club) }
{
    let _scores = season.scores();
    let mut reached = first;
    match find_key(alloc, sheet, season, sought, &mut reached)? {
        Some(spent) => Ok(KeyEnd::Spent {
            question: spent.question,
            nodes: spent.nodes,
        }),
        None => {
            let example = Some(reached.example);
            last_question(alloc, sheet, season, sought, reached.key, example)
        }
    }
}

// That no key is farther in than the turning key.
fn last_question(
    alloc: Global,
    sheet: &Sheet,
    season: &Season,
    sought: Sought,
    key: ClubKey,
    example: Option<Example>,
) -> Result<KeyEnd, OutOfMemory>
    requires league { IsLeague sheet.now season.now }
    requires in_range { sought.club < length sheet.now.clubs }
    requires turning { IsTurningKey direct_places sheet.now season.now sought.claim sought.club
        (key_parts key) }
    requires example { IsExampleAt sheet.now season.now sought.claim sought.club (key_parts key)
        example }
    ensures { IfOk result (IsKeyEnd sheet.now season.now sought.claim sought.club) }
{
    let question = sought.nearer(&key);
    match solve_group(alloc, sheet, season, &question)? {
        SearchEnd::Won(_) => unreachable!(),
        SearchEnd::Refuted(nodes) => Ok(KeyEnd::Found {
            key,
            example,
            nodes,
        }),
        SearchEnd::Spent(nodes) => Ok(KeyEnd::Spent { question, nodes }),
    }
}
