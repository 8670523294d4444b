//! One sheet with all clubs and fixtures of a cup.

ghost use Rattle.std.specs.Prelude.{◌≡◌, ◌≤◌, ◌+◌, ◌++◌, IfOk, length, map};
ghost use Rattle.league_core.specs.game.Sheets.{IsWithinLimits};
ghost use Rattle.cup_sheet.specs.Cups.{IsCup, clubs_of_groups, clubs_together};
ghost use Rattle.cup_sheet.specs.CupFeeds.{fixture_in_cup, fixtures_from, joint_sheet};
ghost use Rattle.cup_sheet.specs.CupFeeds as feeds;
ghost use Rattle.cup_feed.specs.inside.GroupLimits.{AreWithinLimits};

use cup_sheet::Cup;
use league_core::{Club, Fixture, Listing, Order, OutOfMemory, Sheet};
use std::alloc::Global;

/// The sheet of the cup's feed. Its clubs and fixtures have the numbers of the cup; there is no
/// table of it.
pub fn joint_sheet(alloc: Global, cup: &Cup) -> Result<Sheet, OutOfMemory>
    requires { IsCup cup.now }
    ensures value { IfOk result (λ sheet. sheet ≡ joint_sheet cup.now) }
    ensures clubs { IfOk result (λ sheet. length sheet.clubs ≤ 72) }
    ensures fixtures { IfOk result (λ sheet. length sheet.fixtures ≤ 720) }
{
    let groups = cup.groups.as_slice();
    let clubs = joint_clubs(alloc, groups)?;
    let fixtures = joint_fixtures(alloc, groups)?;
    Ok(Sheet {
        name: cup.name.copy(alloc)?,
        clubs,
        fixtures,
        lines: Listing::new(alloc),
        goal_limit: goal_limit_of(groups),
        budget: budget_of(groups),
        order: Order::HeadFirst,
    })
}

// The goal limit of all groups, which is that of the first.
fn goal_limit_of(groups: &[Sheet]) -> u8
    ensures { result ≡ feeds.goal_limit_of groups.now }
{
    match groups.first() {
        Some(group) => group.goal_limit,
        None => 0,
    }
}

fn budget_of(groups: &[Sheet]) -> u32
    ensures { result ≡ feeds.budget_of_groups groups.now }
{
    match groups.first() {
        Some(group) => group.budget,
        None => 0,
    }
}

fn joint_clubs(alloc: Global, groups: &[Sheet]) -> Result<Listing<Club>, OutOfMemory>
    ensures { IfOk result (λ clubs. clubs ≡ clubs_of_groups groups.now) }
{
    let mut clubs = Listing::new(alloc);
    for group in groups {
        clubs = with_clubs(alloc, clubs, group.clubs.as_slice())?;
    }
    Ok(clubs)
}

fn with_clubs(
    alloc: Global,
    clubs: Listing<Club>,
    more: &[Club],
) -> Result<Listing<Club>, OutOfMemory>
    ensures { IfOk result (λ all. all ≡ clubs ++ more.now) }
{
    let mut all = clubs;
    for club in more {
        all.push(club.copy(alloc)?)?;
    }
    Ok(all)
}

fn joint_fixtures(alloc: Global, groups: &[Sheet]) -> Result<Listing<Fixture>, OutOfMemory>
    requires limits { AreWithinLimits groups.now }
    requires few { clubs_together groups.now ≤ 255 }
    ensures { IfOk result (λ fixtures. fixtures ≡ fixtures_from 0 groups.now) }
{
    let mut fixtures = Listing::new(alloc);
    let mut first = 0_u8;
    for group in groups {
        fixtures = with_fixtures(fixtures, first, group)?;
        first += group.clubs.len() as u8;
    }
    Ok(fixtures)
}

// The fixtures, and those of a group whose first club has this number in the cup.
fn with_fixtures(
    fixtures: Listing<Fixture>,
    first: u8,
    group: &Sheet,
) -> Result<Listing<Fixture>, OutOfMemory>
    requires limits { IsWithinLimits group.now }
    requires few { first + length group.now.clubs ≤ 255 }
    ensures { IfOk result
        (λ all. all ≡ fixtures ++ map (fixture_in_cup first) group.now.fixtures) }
{
    let mut all = fixtures;
    for fixture in group.fixtures.as_slice() {
        all.push(in_cup(first, *fixture))?;
    }
    Ok(all)
}

fn in_cup(first: u8, fixture: Fixture) -> Fixture
    requires home { first + fixture.home ≤ 255 }
    requires away { first + fixture.away ≤ 255 }
    ensures { result ≡ fixture_in_cup first fixture }
{
    Fixture {
        home: first + fixture.home,
        away: first + fixture.away,
    }
}
