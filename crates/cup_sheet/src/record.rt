//! What a record makes of the cup so far.

ghost use Rattle.std.specs.Prelude.{◌≡◌, IfOk};
ghost use Rattle.fixture_sheet.specs.inside.Calls.{Answers, KeepsLimits};
ghost use Rattle.cup_sheet.specs.Cups.{IsCup};
ghost use Rattle.cup_sheet.specs.CupRecords.{cup_club_taken, cup_fault_at_end, cup_later_taken};
ghost use Rattle.cup_sheet.specs.CupRecords.{cup_match_taken, cup_refusal_of_no_record, cup_rules};
ghost use Rattle.cup_sheet.specs.CupRecords.{cup_season_taken, cup_taken, group_taken, is_quota};
ghost use Rattle.cup_sheet.specs.CupDrafts.{IsCupDraft};

use crate::cup::{Cup, CupDraft, CupHead};
use crate::draft::{
    add_club, add_fixture, add_group, begin, group_count, into_cup, is_begun, is_last_short,
    is_last_without_matches, last_club_named,
};
use crate::fault::CupFault;
use fixture_sheet::{
    Fields, Progress, RecordStop, SheetSoFar, name_of, number_within, number_written, so_far,
};
use league_core::limits::{MOST_BUDGET, MOST_GOAL_LIMIT, MOST_RANK};
use league_core::{Fixture, Name, OutOfMemory};
use std::alloc::Global;

impl SheetSoFar for CupDraft {
    type Whole = Cup;

    type Fault = CupFault;

    ghost rules = { cup_rules };

    ghost is_sound = { IsCupDraft };

    ghost is_whole = { IsCup };

    // `cup,NAME,L,B,Q`.
    fn first_record(alloc: Global, fields: &Fields) -> Result<CupDraft, RecordStop<CupFault>>
        ensures answer { Answers (cup_taken fields.now) result }
        ensures sound { IfOk result (λ draft. IsCupDraft draft) }
    {
        if !fields.is_kind(b"cup") {
            return Err(RecordStop::Fault(CupFault::NoCup));
        }
        if fields.len() != 5 {
            return Err(RecordStop::Fault(CupFault::WrongWidth));
        }
        let Some(name) = name_of(fields.at(1)) else {
            return Err(RecordStop::Fault(CupFault::BadField));
        };
        let Some(goal_limit) = number_within(1, u32::from(MOST_GOAL_LIMIT), fields.at(2)) else {
            return Err(RecordStop::Fault(CupFault::BadField));
        };
        let Some(budget) = number_within(1, MOST_BUDGET, fields.at(3)) else {
            return Err(RecordStop::Fault(CupFault::BadField));
        };
        let Some(quota) = number_written(fields.at(4)) else {
            return Err(RecordStop::Fault(CupFault::BadField));
        };
        let name = copied(alloc, name)?;
        let goal_limit = goal_limit as u8;
        Ok(begin(
            alloc,
            CupHead {
                name,
                goal_limit,
                budget,
                quota,
            },
        ))
    }

    fn later_record(
        self,
        alloc: Global,
        fields: &Fields,
    ) -> Result<Progress<CupDraft, Cup>, RecordStop<CupFault>>
        requires { IsCupDraft self }
        ensures answer { Answers (cup_later_taken self fields.now) result }
        ensures limits { KeepsLimits IsCupDraft IsCup result }
    {
        if fields.is_kind(b"group") {
            so_far(group_record(alloc, self, fields))
        } else if fields.is_kind(b"club") {
            so_far(club_record(alloc, self, fields))
        } else if fields.is_kind(b"match") {
            so_far(match_record(self, fields))
        } else if fields.is_kind(b"season") {
            Ok(Progress::Whole(season_record(self, fields)?))
        } else {
            Err(RecordStop::Fault(CupFault::UnknownRecord))
        }
    }

    fn refusal_of_no_record(draft: &Option<CupDraft>) -> CupFault
        ensures { result ≡ cup_refusal_of_no_record draft.now }
    {
        match draft {
            None => CupFault::NoCup,
            Some(_) => CupFault::UnknownRecord,
        }
    }

    fn fault_at_end(draft: &Option<CupDraft>) -> CupFault
        ensures { result ≡ cup_fault_at_end draft.now }
    {
        match draft {
            None => CupFault::NoCup,
            Some(_) => CupFault::NoSeason,
        }
    }
}

fn copied(alloc: Global, name: &str) -> Result<Name, OutOfMemory>
    ensures { IfOk result (λ copy. copy ≡ name.now) }
{
    Ok(Name::new(String::from_str(alloc, name)?))
}

// `group,NAME`.
fn group_record(
    alloc: Global,
    draft: CupDraft,
    fields: &Fields,
) -> Result<CupDraft, RecordStop<CupFault>>
    requires { IsCupDraft draft }
    ensures answer { Answers (group_taken draft fields.now) result }
    ensures sound { IfOk result (λ more. IsCupDraft more) }
{
    if is_last_short(&draft) {
        return Err(RecordStop::Fault(CupFault::TooFewClubs));
    }
    if fields.len() != 2 {
        return Err(RecordStop::Fault(CupFault::WrongWidth));
    }
    let Some(name) = name_of(fields.at(1)) else {
        return Err(RecordStop::Fault(CupFault::BadField));
    };
    add_group(alloc, draft, name)
}

// `club,NAME,RANK`.
fn club_record(
    alloc: Global,
    draft: CupDraft,
    fields: &Fields,
) -> Result<CupDraft, RecordStop<CupFault>>
    requires { IsCupDraft draft }
    ensures answer { Answers (cup_club_taken draft fields.now) result }
    ensures sound { IfOk result (λ more. IsCupDraft more) }
{
    if !is_last_without_matches(&draft) {
        return Err(RecordStop::Fault(CupFault::UnknownRecord));
    }
    if fields.len() != 3 {
        return Err(RecordStop::Fault(CupFault::WrongWidth));
    }
    let Some(name) = name_of(fields.at(1)) else {
        return Err(RecordStop::Fault(CupFault::BadField));
    };
    let Some(rank) = number_within(1, u32::from(MOST_RANK), fields.at(2)) else {
        return Err(RecordStop::Fault(CupFault::BadField));
    };
    add_club(alloc, draft, name, rank as u16)
}

// `match,HOME,AWAY`.
fn match_record(draft: CupDraft, fields: &Fields) -> Result<CupDraft, RecordStop<CupFault>>
    requires { IsCupDraft draft }
    ensures answer { Answers (cup_match_taken draft fields.now) result }
    ensures sound { IfOk result (λ more. IsCupDraft more) }
{
    if !is_begun(&draft) {
        return Err(RecordStop::Fault(CupFault::UnknownRecord));
    }
    if is_last_short(&draft) {
        return Err(RecordStop::Fault(CupFault::TooFewClubs));
    }
    if fields.len() != 3 {
        return Err(RecordStop::Fault(CupFault::WrongWidth));
    }
    let Some(home) = last_club_named(&draft, fields.at(1)) else {
        return Err(RecordStop::Fault(CupFault::UnknownClub));
    };
    let Some(away) = last_club_named(&draft, fields.at(2)) else {
        return Err(RecordStop::Fault(CupFault::UnknownClub));
    };
    add_fixture(draft, Fixture { home, away })
}

// `season`.
fn season_record(draft: CupDraft, fields: &Fields) -> Result<Cup, RecordStop<CupFault>>
    requires { IsCupDraft draft }
    ensures answer { Answers (cup_season_taken draft fields.now) result }
    ensures limits { IfOk result (λ cup. IsCup cup) }
{
    if is_last_short(&draft) {
        return Err(RecordStop::Fault(CupFault::TooFewClubs));
    }
    if fields.len() != 1 {
        return Err(RecordStop::Fault(CupFault::WrongWidth));
    }
    if group_count(&draft) < 2 {
        return Err(RecordStop::Fault(CupFault::TooFewGroups));
    }
    if !is_quota(group_count(&draft), draft.head.quota) {
        return Err(RecordStop::Fault(CupFault::QuotaRange));
    }
    Ok(into_cup(draft)?)
}

fn is_quota(groups: usize, quota: u32) -> bool
    ensures { result ≡ is_quota groups quota }
{
    1 <= quota && (quota as usize) < groups
}
