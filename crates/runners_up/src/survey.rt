//! What all other groups come to, for a key.

ghost use Rattle.std.specs.Prelude.{◌<◌, ◌↔◌, IfOk, IsTrue, OnOk, length};
ghost use Rattle.club_keys.specs.inside.KeyEnds.{key_parts};
ghost use Rattle.cup_sheet.specs.Cups.{IsCup, AreSeasonsOf};
ghost use Rattle.runners_up.specs.inside.GroupSurveys.{AreGroupsEnough, IsGroupNoted};
ghost use Rattle.runners_up.specs.inside.GroupSurveys.{IsSurveyOver};
ghost use Rattle.runners_up.specs.inside.JointEnds.{AreGroupEnds};

use crate::others::{GroupAsked, SpentQuestion, ask_group};
use club_keys::ClubKey;
use cup_groups::{listed_groups, shown_groups};
use cup_sheet::{Cup, GroupReason};
use depth_search::CaseNode;
use league_core::{Claim, OutOfMemory, Season};
use std::alloc::{AllocError, Global};
use tree_arena::Example;

/// What is asked of all groups but one: a candidate with a key no less than this one, for missing,
/// or no greater, for qualifying.
#[derive(Drop)]
pub struct FarSide {
    pub claim: Claim,
    pub key: ClubKey,
    /// The number of the group that is not asked, from 0.
    pub mine: u8,
}

/// A group that cannot end with a candidate on the far side of the key.
#[derive(Drop)]
pub struct EmptyGroup {
    /// Its number, from 0.
    pub group: u8,
    /// The nodes of a refutation for each of its clubs, by their numbers there.
    pub trees: Vec<Vec<CaseNode<GroupReason>>>,
}

/// A group with a question on which the budget was spent.
#[derive(Drop)]
pub struct OpenGroup {
    /// Its number, from 0.
    pub group: u8,
    pub spent: SpentQuestion,
}

/// What the groups but one come to, as far as they were asked.
#[derive(Drop)]
pub struct GroupSurvey {
    /// An end of each group.
    pub ends: Vec<Example>,
    /// The groups whose end has a candidate on the far side, in their order.
    pub shown: Vec<u8>,
    /// Those that cannot end so, in their order.
    pub listed: Vec<EmptyGroup>,
    /// One of those of which it is not known.
    pub unknown: Option<OpenGroup>,
}

/// Asks each group but one, until it is known which side they show. The ends are those of all
/// groups; a group that can end with a candidate on the far side has its end changed to such a one.
pub fn survey_groups(
    alloc: Global,
    cup: &Cup,
    seasons: &[Season],
    sought: &FarSide,
    ends: Vec<Example>,
) -> Result<GroupSurvey, OutOfMemory>
    requires cup { IsCup cup.now }
    requires seasons { AreSeasonsOf cup.now.groups seasons.now }
    requires ends { AreGroupEnds cup.now.groups seasons.now ends.items }
    ensures { IfOk result (IsSurveyOver cup.now seasons.now sought.now.claim
        (key_parts sought.now.key) sought.now.mine ends.items) }
{
    let groups = cup.groups.as_slice();
    let mut survey = GroupSurvey {
        ends,
        shown: Vec::new(alloc),
        listed: Vec::new(alloc),
        unknown: None,
    };
    for group in 0..groups.len() as u8 {
        if survey.has_enough(cup, sought.claim) {
            return Ok(survey);
        }
        if group != sought.mine {
            let at = group as usize;
            let asked = ask_group(alloc, &groups[at], &seasons[at], sought.claim, &sought.key)?;
            survey.note(group, asked)?;
        }
    }
    Ok(survey)
}

impl GroupSurvey {
    // As many groups are shown as show the side, or as many are listed as refute it.
    fn has_enough(&self, cup: &Cup, claim: Claim) -> bool
        requires { IsCup cup.now }
        ensures { IsTrue result ↔ AreGroupsEnough cup.now claim (length self.now.shown.items)
            (length self.now.listed.items) }
    {
        self.shown.len() >= shown_groups(cup, claim)
            || self.listed.len() >= listed_groups(cup, claim)
    }

    // Keeps what one group more came to.
    fn note(&mut self, group: u8, asked: GroupAsked) -> Result<(), AllocError>
        requires { group < length self.old.ends.items }
        ensures { OnOk result (IsGroupNoted group asked self.old self.new) }
    {
        match asked {
            GroupAsked::Shown(end) => {
                self.ends[group as usize] = end;
                self.shown.push(group)?;
            }
            GroupAsked::Refuted(trees) => self.listed.push(EmptyGroup { group, trees })?,
            GroupAsked::Spent(spent) => self.unknown = Some(OpenGroup { group, spent }),
        }
        Ok(())
    }
}
