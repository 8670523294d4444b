//! A node of a group's tree as a line.

ghost use Rattle.std.specs.Prelude.{◌≡◌, ◌<◌, ◌≤◌, ◌+◌, ℕ, All, IfOk, map};
ghost use Rattle.league_core.specs.game.ClubSets.{clubs_in};
ghost use Rattle.cup_sheet.specs.CupLimits.{most_cup_clubs};
ghost use Rattle.cup_text.specs.GroupNodeLines.{test_in_cup, clubs_in_cup, reason_in_cup};
ghost use Rattle.cup_text.specs.GroupNodeLines.{leaf_in_cup};
ghost use Rattle.cup_rows.specs.inside.GroupTreeLines.{IsCupTestWithin};

use cert_text::ClubList;
use cup_groups::GroupStart;
use cup_sheet::GroupReason;
use cup_text::{CupLeaf, CupReason};
use league_core::{ClubSet, Listing, OutOfMemory, Reason, Test};
use std::alloc::Global;

/// A test by the numbers of the cup.
pub(crate) fn test_in_cup(start: GroupStart, test: Test) -> Test
    requires { IsCupTestWithin start test }
    ensures { result ≡ test_in_cup start test }
{
    match test {
        Test::Home { fixture } => Test::Home {
            fixture: start.fixture + fixture,
        },
        Test::Draw { fixture } => Test::Draw {
            fixture: start.fixture + fixture,
        },
        Test::HomeMost { fixture, most } => Test::HomeMost {
            fixture: start.fixture + fixture,
            most,
        },
        Test::AwayMost { fixture, most } => Test::AwayMost {
            fixture: start.fixture + fixture,
            most,
        },
        Test::Rival { club } => Test::Rival {
            club: start.club + club,
        },
    }
}

/// A reason by the numbers of the cup.
pub(crate) fn leaf_in_cup(
    alloc: Global,
    start: GroupStart,
    reason: GroupReason,
) -> Result<CupLeaf, OutOfMemory>
    requires { start.club ≤ most_cup_clubs }
    ensures { IfOk result (λ leaf. leaf ≡ leaf_in_cup start reason) }
{
    match reason {
        GroupReason::Plain(why) => Ok(CupLeaf::Plain(reason_in_cup(alloc, start, why)?)),
        GroupReason::In(why) => Ok(CupLeaf::In(reason_in_cup(alloc, start, why)?)),
        GroupReason::Out(why) => Ok(CupLeaf::Out(reason_in_cup(alloc, start, why)?)),
        GroupReason::ByKey => Ok(CupLeaf::ByKey),
    }
}

fn reason_in_cup(alloc: Global, start: GroupStart, reason: Reason) -> Result<CupReason, OutOfMemory>
    requires { start.club ≤ most_cup_clubs }
    ensures { IfOk result (λ shown. shown ≡ reason_in_cup start reason) }
{
    match reason {
        Reason::Count => Ok(CupReason::Count),
        Reason::Window => Ok(CupReason::Window),
        Reason::Low(cut) => Ok(CupReason::Low(clubs_in_cup(alloc, start.club, cut)?)),
        Reason::High(cut) => Ok(CupReason::High(clubs_in_cup(alloc, start.club, cut)?)),
        Reason::Tie => Ok(CupReason::Tie),
    }
}

// The clubs of a cut, the first club of the group having this number in the cup.
#[tactic(auto, using(crate::proofs::MemberLemmas::few_numbers))]
fn clubs_in_cup(alloc: Global, first: u8, cut: ClubSet) -> Result<ClubList, OutOfMemory>
    requires { first ≤ most_cup_clubs }
    ensures { IfOk result (λ list. list ≡ clubs_in_cup first (clubs_in cut)) }
{
    let clubs = members(alloc, cut)?;
    let numbers = numbers_in_cup(alloc, first, clubs.as_slice())?;
    Ok(ClubList {
        list: Listing::from_vec(numbers),
    })
}

// The clubs of a set in the order of their numbers.
fn members(alloc: Global, set: ClubSet) -> Result<Vec<u8>, OutOfMemory>
    ensures { IfOk result (λ clubs. clubs.items ≡ clubs_in set) }
{
    let mut clubs = Vec::new(alloc);
    for club in set.clubs() {
        clubs.push(club)?;
    }
    Ok(clubs)
}

fn numbers_in_cup(alloc: Global, first: u8, clubs: &[u8]) -> Result<Vec<u8>, OutOfMemory>
    requires first { first ≤ most_cup_clubs }
    requires clubs { All (λ (club : ℕ). club < 32) clubs.now }
    ensures { IfOk result (λ all. all.items ≡ map (λ club. first + club) clubs.now) }
{
    let mut numbers = Vec::new(alloc);
    for club in clubs {
        numbers.push(first + *club)?;
    }
    Ok(numbers)
}
