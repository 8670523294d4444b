//! A worker on one season, which keeps the box and the flow of a cut between pieces.

ghost use Rattle.std.specs.Prelude.{◌≡◌, ◌↔◌, ◌≤◌, ◌++◌, IfOk, OnOk, IsTrue, length, take};
ghost use Rattle.league_core.specs.game.Questions.{IsQuestionOf};
ghost use Rattle.league_core.specs.search.Zones.{IsZoneFor, is_zone_of};
ghost use Rattle.league_core.specs.search.Options.{has_finish};
ghost use Rattle.reason_core.specs.inside.Findings.{IsTrueFinding};
ghost use Rattle.branch_rules.specs.inside.Found.{IsFoundIn};

use crate::search::find_with;
use flow_bound::FlowKeep;
use league_core::{Literal, OutOfMemory, Question};
use reason_core::{Finding, Solver};
use score_box::{Played, ZoneBox};
use std::alloc::Global;
use std::marker::Model;

/// Works on zones of one season. From one zone to the next the box goes back to the prefix that
/// both share, and on from there, and a search for a cut begins with the flow of the one before.
/// Contracts see the sheet and the season.
#[derive(Drop)]
pub struct ZoneSolver<'a> {
    alloc: Global,
    zone_box: ZoneBox<'a>,
    keep: FlowKeep,
}

impl<'a> Model for ZoneSolver<'a> {
    ghost use Rattle.score_box.specs.inside.PlayedViews.{PlayedView};

    ghost Value = { PlayedView };

    ghost view = { λ w. record { sheet = w.zone_box.sheet; season = w.zone_box.season } };
}

impl<'a> ZoneSolver<'a> {
    /// A worker on the season that the tables are of.
    pub fn new(alloc: Global, played: &'a Played<'a>) -> Result<ZoneSolver<'a>, OutOfMemory>
        ensures { IfOk result (λ worker. worker ≡ played.now) }
    {
        let zone_box = ZoneBox::over(alloc, played, &[])?;
        Ok(ZoneSolver {
            alloc,
            zone_box,
            keep: FlowKeep::new(),
        })
    }
}

impl<'a> Solver for ZoneSolver<'a> {
    ghost sheet = { λ worker. worker.sheet };

    ghost season = { λ worker. worker.season };

    fn solve(&mut self, question: &Question, zone: &[Literal]) -> Result<Finding, OutOfMemory>
        requires of_sheet { IsQuestionOf self.old.sheet question.now }
        requires of_zone { IsZoneFor self.old.sheet question.now zone.now }
        requires has_finish { IsTrue
            (has_finish self.old.sheet self.old.season zone.now) }
        ensures found { IfOk result (IsTrueFinding self.old.sheet self.old.season
            question.now zone.now) }
        ensures first { IfOk result (IsFoundIn self.old.sheet self.old.season
            question.now zone.now) }
        ensures same_sheet { self.new.sheet ≡ self.old.sheet }
        ensures same_season { self.new.season ≡ self.old.season }
    {
        move_to(&mut self.zone_box, zone)?;
        find_with(self.alloc, &self.zone_box, question, &mut self.keep)
    }
}

/// Moves the box to another zone: back to the prefix that both share, and on from there.
pub fn move_to(zone_box: &mut ZoneBox, zone: &[Literal]) -> Result<(), OutOfMemory>
    requires { IsTrue (is_zone_of zone_box.old.sheet zone.now) }
    ensures ok { OnOk result (zone_box.new ≡ record zone_box.old { zone = zone.now }) }
    ensures sheet { zone_box.new.sheet ≡ zone_box.old.sheet }
    ensures season { zone_box.new.season ≡ zone_box.old.season }
{
    let common = common_prefix(zone_box.zone(), zone);
    go_back(zone_box, common);
    go_on(zone_box, &zone[common..])
}

// How many literals the two zones share as a prefix.
fn common_prefix(zone: &[Literal], other: &[Literal]) -> usize
    ensures one { result ≤ length zone.now }
    ensures two { result ≤ length other.now }
    ensures same { take result zone.now ≡ take result other.now }
{
    let most = zone.len().min(other.len());
    for k in 0..most {
        if !are_same(&zone[k], &other[k]) {
            return k;
        }
    }
    most
}

fn are_same(literal: &Literal, other: &Literal) -> bool
    ensures { IsTrue result ↔ (literal.now ≡ other.now) }
{
    literal == other
}

// Takes literals off the box until so many are left.
fn go_back(zone_box: &mut ZoneBox, left: usize)
    requires { left ≤ length zone_box.old.zone }
    ensures { zone_box.new ≡ record zone_box.old { zone = take left zone_box.old.zone } }
{
    while left < zone_box.zone().len() {
        zone_box.uncut();
    }
}

// Puts literals at the end of the box's zone.
fn go_on(zone_box: &mut ZoneBox, literals: &[Literal]) -> Result<(), OutOfMemory>
    requires { IsTrue (is_zone_of zone_box.old.sheet literals.now) }
    ensures ok { OnOk result
        (zone_box.new ≡ record zone_box.old { zone = zone_box.old.zone ++ literals.now }) }
    ensures sheet { zone_box.new.sheet ≡ zone_box.old.sheet }
    ensures season { zone_box.new.season ≡ zone_box.old.season }
{
    for literal in literals {
        zone_box.cut(*literal)?;
    }
    Ok(())
}
