//! The cup so far.

ghost use Rattle.std.specs.Prelude.{◌≡◌, ◌≤◌, false, true, IfOk, IfSome, IsTrue, length};
ghost use Rattle.std.specs.Prelude.{option_and_then};
ghost use Rattle.league_core.specs.declared.sheet.Sheet.{Sheet};
ghost use Rattle.league_core.specs.game.Sheets.{is_club, is_name};
ghost use Rattle.fixture_sheet.specs.Records.{club_named, has_name};
ghost use Rattle.fixture_sheet.specs.inside.Calls.{Answers};
ghost use Rattle.cup_sheet.specs.CupLimits.{least_groups};
ghost use Rattle.cup_sheet.specs.CupRecords.{club_added_to, cup_begun, cup_of, fixture_added_to};
ghost use Rattle.cup_sheet.specs.CupRecords.{group_added, groups_so_far, is_last_short};
ghost use Rattle.cup_sheet.specs.CupRecords.{does_last, is_begun, is_last_without_matches};
ghost use Rattle.cup_sheet.specs.CupRecords.{is_named_before, is_quota};
ghost use Rattle.cup_sheet.specs.Cups.{IsCup};
ghost use Rattle.cup_sheet.specs.CupDrafts.{IsCupDraft, IsHead, IsLastClub};

use crate::cup::{Cup, CupDraft, CupHead};
use crate::fault::CupFault;
use crate::group::{group_begun, is_named, is_named_in, with_club, with_fixture, with_group};
use fixture_sheet::{RecordStop, club_named};
use league_core::{Fixture, Listing, OutOfMemory, Sheet};
use std::alloc::Global;

const LEAST_GROUP_CLUBS: usize = 3;

const MOST_GROUP_CLUBS: usize = 6;

const MOST_GROUP_FIXTURES: usize = 60;

const MOST_GROUPS: usize = 12;

/// A cup with no group yet.
pub(crate) fn begin(alloc: Global, head: CupHead) -> CupDraft
    requires { IsHead head }
    ensures value { result ≡ cup_begun head }
    ensures sound { IsCupDraft result }
{
    CupDraft {
        head,
        groups: Listing::new(alloc),
        group: None,
    }
}

/// Whether a group was begun.
pub(crate) fn is_begun(draft: &CupDraft) -> bool
    ensures { result ≡ is_begun draft.now }
{
    draft.group.is_some()
}

/// Whether the group begun last has fewer than three clubs.
pub(crate) fn is_last_short(draft: &CupDraft) -> bool
    ensures { result ≡ is_last_short draft.now }
{
    match &draft.group {
        Some(group) => group.clubs.len() < LEAST_GROUP_CLUBS,
        None => false,
    }
}

/// Whether a group was begun, and no match of it came yet.
pub(crate) fn is_last_without_matches(draft: &CupDraft) -> bool
    ensures { result ≡ is_last_without_matches draft.now }
{
    match &draft.group {
        Some(group) => group.fixtures.len() == 0,
        None => false,
    }
}

/// How many groups there are, the one begun last among them.
pub(crate) fn group_count(draft: &CupDraft) -> usize
    requires { IsCupDraft draft.now }
    ensures { result ≡ length (groups_so_far draft.now) }
{
    match &draft.group {
        Some(_) => draft.groups.len() + 1,
        None => draft.groups.len(),
    }
}

/// Begins a group. The one before is complete.
pub(crate) fn add_group(
    alloc: Global,
    draft: CupDraft,
    name: &str,
) -> Result<CupDraft, RecordStop<CupFault>>
    requires named { IsTrue (is_name name.now) }
    requires complete { is_last_short draft ≡ false }
    requires sound { IsCupDraft draft }
    ensures answer { Answers (group_added draft name.now) result }
    ensures sound { IfOk result (λ more. IsCupDraft more) }
{
    if MOST_GROUPS <= group_count(&draft) {
        return Err(RecordStop::Fault(CupFault::TooMany));
    }
    let CupDraft {
        head,
        groups,
        group,
    } = draft;
    let next = group_begun(alloc, name, head.goal_limit, head.budget)?;
    Ok(CupDraft {
        head,
        groups: with_group(groups, group)?,
        group: Some(next),
    })
}

/// Whether a club of this name stands already, in whatever group.
pub(crate) fn is_named_before(draft: &CupDraft, name: &str) -> bool
    ensures { result ≡ is_named_before draft.now name.now }
{
    is_named_in(draft.groups.as_slice(), name) || is_named_last(&draft.group, name)
}

fn is_named_last(group: &Option<Sheet>, name: &str) -> bool
    ensures { result ≡ does_last (λ group. has_name group name.now) group.now }
{
    match group {
        Some(group) => is_named(group, name),
        None => false,
    }
}

/// Adds a club to the group begun last.
pub(crate) fn add_club(
    alloc: Global,
    draft: CupDraft,
    name: &str,
    rank: u16,
) -> Result<CupDraft, RecordStop<CupFault>>
    requires is { IsTrue (is_club (record { name = name.now; rank = rank })) }
    requires first { is_last_without_matches draft ≡ true }
    requires sound { IsCupDraft draft }
    ensures answer { Answers
        (club_added_to draft draft.group (record { name = name.now; rank = rank })) result }
    ensures sound { IfOk result (λ more. IsCupDraft more) }
{
    if is_named_before(&draft, name) {
        return Err(RecordStop::Fault(CupFault::ClubTwice));
    }
    let CupDraft {
        head,
        groups,
        group,
    } = draft;
    let Some(group) = group else {
        return Err(RecordStop::Fault(CupFault::UnknownRecord));
    };
    if MOST_GROUP_CLUBS <= group.clubs.len() {
        return Err(RecordStop::Fault(CupFault::TooMany));
    }
    let group = Some(with_club(alloc, group, name, rank)?);
    Ok(CupDraft {
        head,
        groups,
        group,
    })
}

/// The number in its group of the club that a field names, in the group begun last.
pub(crate) fn last_club_named(draft: &CupDraft, field: &[u8]) -> Option<u8>
    requires { IsCupDraft draft.now }
    ensures place { result
        ≡ option_and_then (λ group. club_named group field.now) draft.now.group }
    ensures within { IfSome result (λ club. IsLastClub draft.now club) }
{
    match &draft.group {
        Some(group) => club_named(group, field),
        None => None,
    }
}

/// Adds a fixture to the group begun last.
pub(crate) fn add_fixture(
    draft: CupDraft,
    fixture: Fixture,
) -> Result<CupDraft, RecordStop<CupFault>>
    requires home { IsLastClub draft fixture.home }
    requires away { IsLastClub draft fixture.away }
    requires begun { is_begun draft ≡ true }
    requires sound { IsCupDraft draft }
    ensures answer { Answers (fixture_added_to draft draft.group fixture) result }
    ensures sound { IfOk result (λ more. IsCupDraft more) }
{
    if fixture.home == fixture.away {
        return Err(RecordStop::Fault(CupFault::SelfMatch));
    }
    let CupDraft {
        head,
        groups,
        group,
    } = draft;
    let Some(group) = group else {
        return Err(RecordStop::Fault(CupFault::UnknownRecord));
    };
    if MOST_GROUP_FIXTURES <= group.fixtures.len() {
        return Err(RecordStop::Fault(CupFault::TooMany));
    }
    let group = Some(with_fixture(group, fixture)?);
    Ok(CupDraft {
        head,
        groups,
        group,
    })
}

/// The cup, which is whole now.
pub(crate) fn into_cup(draft: CupDraft) -> Result<Cup, OutOfMemory>
    requires complete { is_last_short draft ≡ false }
    requires groups { least_groups ≤ length (groups_so_far draft) }
    requires quota { is_quota (length (groups_so_far draft)) draft.head.quota ≡ true }
    requires sound { IsCupDraft draft }
    ensures value { IfOk result (λ cup. cup ≡ cup_of draft) }
    ensures limits { IfOk result (λ cup. IsCup cup) }
{
    let CupDraft {
        head,
        groups,
        group,
    } = draft;
    Ok(Cup {
        name: head.name,
        groups: with_group(groups, group)?,
        quota: head.quota as u8,
    })
}
