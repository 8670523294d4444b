//! A league's sheet so far.

ghost use Rattle.std.specs.Prelude.{◌≡◌, ◌≤◌, ◌<◌, ◌==◌, ◌∷◌, ◌++◌, [], false, IfOk, IfSome};
ghost use Rattle.std.specs.Prelude.{IsTrue, length};
ghost use Rattle.std.specs.List.{list_any};
ghost use Rattle.league_core.specs.game.Limits.{most_budget, most_clubs, most_fixtures};
ghost use Rattle.league_core.specs.game.Limits.{most_goal_limit, most_lines};
ghost use Rattle.league_core.specs.game.Sheets.{IsWithinLimits, is_club, is_fixture, is_line};
ghost use Rattle.league_core.specs.game.Sheets.{is_name};
ghost use Rattle.fixture_sheet.specs.inside.Calls.{Answers};
ghost use Rattle.fixture_sheet.specs.Records.{club_added, club_named, fixture_added, has_name};
ghost use Rattle.fixture_sheet.specs.Records.{has_few_clubs, is_past_clubs, line_added};
ghost use Rattle.fixture_sheet.specs.Records.{sheet_begun};

use crate::club_number::{club_named, has_name};
use crate::fault::{RecordStop, SheetFault};
use league_core::limits::{MOST_CLUBS, MOST_FIXTURES, MOST_LINES};
use league_core::{Club, Fixture, Listing, Name, Order, OutOfMemory, Sheet};
use std::alloc::Global;
use std::marker::Model;

/// A sheet that is not whole. Contracts see the sheet, which is within all limits but for the two
/// clubs that may still be missing.
#[derive(Drop)]
pub struct Draft {
    sheet: Sheet,
}

impl Model for Draft {
    ghost use Rattle.league_core.specs.declared.sheet.Sheet.{Sheet};
    ghost use Rattle.fixture_sheet.specs.inside.Drafts.{IsDraft};

    ghost Value = { Sheet };

    ghost view = { λ draft. draft.sheet };

    ghost invariant = { λ draft. IsDraft draft.sheet };
}

impl Draft {
    /// A sheet with nothing but its league.
    pub(crate) fn begin(
        alloc: Global,
        name: &str,
        goal_limit: u8,
        budget: u32,
        order: Order,
    ) -> Result<Draft, OutOfMemory>
        requires named { IsTrue (is_name name.now) }
        requires goals { (1 ≤ goal_limit) × (goal_limit ≤ most_goal_limit) }
        requires nodes { (1 ≤ budget) × (budget ≤ most_budget) }
        ensures { IfOk result (λ draft. draft ≡ sheet_begun name.now goal_limit budget order) }
    {
        let sheet = Sheet {
            name: Name::new(String::from_str(alloc, name)?),
            clubs: Listing::new(alloc),
            fixtures: Listing::new(alloc),
            lines: Listing::new(alloc),
            goal_limit,
            budget,
            order,
        };
        Ok(Draft { sheet })
    }

    /// Whether there are not two clubs yet.
    pub(crate) fn has_few_clubs(&self) -> bool
        ensures { result ≡ has_few_clubs self.now }
    {
        self.sheet.clubs.len() < 2
    }

    /// Whether a match or a line came already.
    pub(crate) fn is_past_clubs(&self) -> bool
        ensures { result ≡ is_past_clubs self.now }
    {
        0 < self.sheet.fixtures.len() || 0 < self.sheet.lines.len()
    }

    /// The number of the club that a field names, from 0.
    pub(crate) fn club_named(&self, name: &[u8]) -> Option<u8>
        ensures place { result ≡ club_named self.now name.now }
        ensures within { IfSome result (λ club. club < length self.now.clubs) }
    {
        club_named(&self.sheet, name)
    }

    /// Adds a club.
    pub(crate) fn add_club(
        self,
        alloc: Global,
        name: &str,
        rank: u16,
    ) -> Result<Draft, RecordStop<SheetFault>>
        requires is { IsTrue (is_club (record { name = name.now; rank = rank })) }
        requires first { is_past_clubs self ≡ false }
        ensures { Answers (club_added self (record { name = name.now; rank = rank })) result }
    {
        if has_name(&self.sheet, name) {
            return Err(RecordStop::Fault(SheetFault::ClubTwice));
        }
        if usize::from(MOST_CLUBS) <= self.sheet.clubs.len() {
            return Err(RecordStop::Fault(SheetFault::TooMany));
        }
        Ok(self.with_club(alloc, name, rank)?)
    }

    fn with_club(self, alloc: Global, name: &str, rank: u16) -> Result<Draft, OutOfMemory>
        requires is { IsTrue (is_club (record { name = name.now; rank = rank })) }
        requires fresh { has_name self name.now ≡ false }
        requires room { length self.clubs < most_clubs }
        requires first { is_past_clubs self ≡ false }
        ensures { IfOk result (λ draft. draft
            ≡ record self { clubs = self.clubs ++ record { name = name.now; rank = rank } ∷ [] }) }
    {
        let Draft { mut sheet } = self;
        let name = Name::new(String::from_str(alloc, name)?);
        sheet.clubs.push(Club { name, rank })?;
        Ok(Draft { sheet })
    }

    /// Adds a fixture.
    pub(crate) fn add_fixture(self, fixture: Fixture) -> Result<Draft, RecordStop<SheetFault>>
        requires home { fixture.home < length self.clubs }
        requires away { fixture.away < length self.clubs }
        ensures { Answers (fixture_added self fixture) result }
    {
        if fixture.home == fixture.away {
            return Err(RecordStop::Fault(SheetFault::SelfMatch));
        }
        if usize::from(MOST_FIXTURES) <= self.sheet.fixtures.len() {
            return Err(RecordStop::Fault(SheetFault::TooMany));
        }
        Ok(self.with_fixture(fixture)?)
    }

    fn with_fixture(self, fixture: Fixture) -> Result<Draft, OutOfMemory>
        requires is { IsTrue (is_fixture (length self.clubs) fixture) }
        requires room { length self.fixtures < most_fixtures }
        ensures { IfOk result (λ draft. draft
            ≡ record self { fixtures = self.fixtures ++ fixture ∷ [] }) }
    {
        let Draft { mut sheet } = self;
        sheet.fixtures.push(fixture)?;
        Ok(Draft { sheet })
    }

    /// Adds a line.
    pub(crate) fn add_line(self, line: u32) -> Result<Draft, RecordStop<SheetFault>>
        ensures { Answers (line_added self line) result }
    {
        if !is_line(self.sheet.clubs.len(), line) {
            return Err(RecordStop::Fault(SheetFault::LineRange));
        }
        let line = line as u8;
        if has_line(self.sheet.lines.as_slice(), line) {
            return Err(RecordStop::Fault(SheetFault::LineTwice));
        }
        if usize::from(MOST_LINES) <= self.sheet.lines.len() {
            return Err(RecordStop::Fault(SheetFault::TooMany));
        }
        Ok(self.with_line(line)?)
    }

    fn with_line(self, line: u8) -> Result<Draft, OutOfMemory>
        requires is { IsTrue (is_line (length self.clubs) line) }
        requires fresh { list_any (λ other. other == line) self.lines ≡ false }
        requires room { length self.lines < most_lines }
        ensures { IfOk result (λ draft. draft ≡ record self { lines = self.lines ++ line ∷ [] }) }
    {
        let Draft { mut sheet } = self;
        sheet.lines.push(line)?;
        Ok(Draft { sheet })
    }

    /// The sheet, which is whole now.
    pub(crate) fn into_sheet(self) -> Sheet
        requires { has_few_clubs self ≡ false }
        ensures value { result ≡ self }
        ensures limits { IsWithinLimits result }
    {
        let Draft { sheet } = self;
        sheet
    }
}

fn is_line(clubs: usize, line: u32) -> bool
    ensures { result ≡ is_line clubs line }
{
    1 <= line && (line as usize) < clubs
}

fn has_line(lines: &[u8], line: u8) -> bool
    ensures { result ≡ list_any (λ other. other == line) lines.now }
{
    lines.iter().any(|other| *other == line)
}
