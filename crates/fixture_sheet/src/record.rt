//! What a record makes of a league's sheet so far.

ghost use Rattle.std.specs.Prelude.{◌≡◌, ◌≤◌, IfOk, IfSome};
ghost use Rattle.league_core.specs.game.Limits.{most_budget};
ghost use Rattle.league_core.specs.game.Sheets.{IsWithinLimits};
ghost use Rattle.fixture_sheet.specs.inside.Calls.{Answers, KeepsLimits};
ghost use Rattle.fixture_sheet.specs.Records.{budget_of, club_taken, fault_at_end, later_taken};
ghost use Rattle.fixture_sheet.specs.Records.{league_taken, line_taken, match_taken, order_in};
ghost use Rattle.fixture_sheet.specs.Records.{refusal_of_no_record, season_taken, sheet_rules};

use crate::draft::Draft;
use crate::fault::{RecordStop, SheetFault};
use crate::fields::Fields;
use crate::name::name_of;
use crate::number::{number_within, number_written};
use crate::progress::{Progress, SheetSoFar, so_far};
use league_core::limits::{MOST_BUDGET, MOST_GOAL_LIMIT, MOST_RANK};
use league_core::{Fixture, Order, Sheet};
use std::alloc::Global;

impl SheetSoFar for Draft {
    type Whole = Sheet;

    type Fault = SheetFault;

    ghost rules = { sheet_rules };

    ghost is_sound = { λ draft. Unit {0} };

    ghost is_whole = { IsWithinLimits };

    // `league,NAME,L`, `league,NAME,L,B` or `league,NAME,L,B,ORDER`.
    fn first_record(alloc: Global, fields: &Fields) -> Result<Draft, RecordStop<SheetFault>>
        ensures answer { Answers (league_taken fields.now) result }
        ensures sound { IfOk result (λ draft. Unit {0}) }
    {
        if !fields.is_kind(b"league") {
            return Err(RecordStop::Fault(SheetFault::NoLeague));
        }
        if fields.len() < 3 || 5 < fields.len() {
            return Err(RecordStop::Fault(SheetFault::WrongWidth));
        }
        let Some(name) = name_of(fields.at(1)) else {
            return Err(RecordStop::Fault(SheetFault::BadField));
        };
        let Some(goal_limit) = number_within(1, u32::from(MOST_GOAL_LIMIT), fields.at(2)) else {
            return Err(RecordStop::Fault(SheetFault::BadField));
        };
        let Some(budget) = budget_of(fields) else {
            return Err(RecordStop::Fault(SheetFault::BadField));
        };
        let Some(order) = order_in(fields) else {
            return Err(RecordStop::Fault(SheetFault::BadField));
        };
        Ok(Draft::begin(alloc, name, goal_limit as u8, budget, order)?)
    }

    fn later_record(
        self,
        alloc: Global,
        fields: &Fields,
    ) -> Result<Progress<Draft, Sheet>, RecordStop<SheetFault>>
        ensures answer { Answers (later_taken self fields.now) result }
        ensures limits { KeepsLimits (λ draft. Unit {0}) IsWithinLimits result }
    {
        if fields.is_kind(b"club") {
            so_far(club_record(alloc, self, fields))
        } else if fields.is_kind(b"match") {
            so_far(match_record(self, fields))
        } else if fields.is_kind(b"line") {
            so_far(line_record(self, fields))
        } else if fields.is_kind(b"season") {
            Ok(Progress::Whole(season_record(self, fields)?))
        } else {
            Err(RecordStop::Fault(SheetFault::UnknownRecord))
        }
    }

    fn refusal_of_no_record(draft: &Option<Draft>) -> SheetFault
        ensures { result ≡ refusal_of_no_record draft.now }
    {
        match draft {
            None => SheetFault::NoLeague,
            Some(_) => SheetFault::UnknownRecord,
        }
    }

    fn fault_at_end(draft: &Option<Draft>) -> SheetFault
        ensures { result ≡ fault_at_end draft.now }
    {
        match draft {
            None => SheetFault::NoLeague,
            Some(_) => SheetFault::NoSeason,
        }
    }
}

fn budget_of(fields: &Fields) -> Option<u32>
    ensures value { result ≡ budget_of fields.now }
    ensures range { IfSome result (λ budget. (1 ≤ budget) × (budget ≤ most_budget)) }
{
    if fields.len() == 3 {
        Some(2000)
    } else {
        number_within(1, MOST_BUDGET, fields.at(3))
    }
}

fn order_in(fields: &Fields) -> Option<Order>
    ensures { result ≡ order_in fields.now }
{
    if fields.len() < 5 {
        return Some(Order::HeadFirst);
    }
    let word = fields.at(4);
    if word == b"head_first".as_slice() {
        Some(Order::HeadFirst)
    } else if word == b"overall_first".as_slice() {
        Some(Order::OverallFirst)
    } else {
        None
    }
}

// `club,NAME,RANK`.
fn club_record(
    alloc: Global,
    draft: Draft,
    fields: &Fields,
) -> Result<Draft, RecordStop<SheetFault>>
    ensures { Answers (club_taken draft fields.now) result }
{
    if draft.is_past_clubs() {
        return Err(RecordStop::Fault(SheetFault::UnknownRecord));
    }
    if fields.len() != 3 {
        return Err(RecordStop::Fault(SheetFault::WrongWidth));
    }
    let Some(name) = name_of(fields.at(1)) else {
        return Err(RecordStop::Fault(SheetFault::BadField));
    };
    let Some(rank) = number_within(1, u32::from(MOST_RANK), fields.at(2)) else {
        return Err(RecordStop::Fault(SheetFault::BadField));
    };
    draft.add_club(alloc, name, rank as u16)
}

// `match,HOME,AWAY`.
fn match_record(draft: Draft, fields: &Fields) -> Result<Draft, RecordStop<SheetFault>>
    ensures { Answers (match_taken draft fields.now) result }
{
    if draft.has_few_clubs() {
        return Err(RecordStop::Fault(SheetFault::TooFewClubs));
    }
    if fields.len() != 3 {
        return Err(RecordStop::Fault(SheetFault::WrongWidth));
    }
    let Some(home) = draft.club_named(fields.at(1)) else {
        return Err(RecordStop::Fault(SheetFault::UnknownClub));
    };
    let Some(away) = draft.club_named(fields.at(2)) else {
        return Err(RecordStop::Fault(SheetFault::UnknownClub));
    };
    draft.add_fixture(Fixture { home, away })
}

// `line,K`.
fn line_record(draft: Draft, fields: &Fields) -> Result<Draft, RecordStop<SheetFault>>
    ensures { Answers (line_taken draft fields.now) result }
{
    if draft.has_few_clubs() {
        return Err(RecordStop::Fault(SheetFault::TooFewClubs));
    }
    if fields.len() != 2 {
        return Err(RecordStop::Fault(SheetFault::WrongWidth));
    }
    let Some(line) = number_written(fields.at(1)) else {
        return Err(RecordStop::Fault(SheetFault::BadField));
    };
    draft.add_line(line)
}

// `season`.
fn season_record(draft: Draft, fields: &Fields) -> Result<Sheet, RecordStop<SheetFault>>
    ensures answer { Answers (season_taken draft fields.now) result }
    ensures limits { IfOk result (λ sheet. IsWithinLimits sheet) }
{
    if draft.has_few_clubs() {
        return Err(RecordStop::Fault(SheetFault::TooFewClubs));
    }
    if fields.len() != 1 {
        return Err(RecordStop::Fault(SheetFault::WrongWidth));
    }
    Ok(draft.into_sheet())
}
