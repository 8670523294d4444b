//! What is written of a club after what is found of it: a word, and lines.

ghost use Rattle.std.specs.Prelude.{◌≡◌, true, false, All, IfOk, IsTrue};
ghost use Rattle.cup_sheet.specs.Cups.{IsCup, AreSeasonsOf};
ghost use Rattle.cup_text.specs.CupRanges.{is_cup_line};
ghost use Rattle.cup_answers.specs.CupTexts.{ShowsInCup};
ghost use Rattle.cup_rows.specs.inside.FoundClubs.{IsFoundClub};
ghost use Rattle.cup_rows.specs.inside.VerdictLines.{word_of_finding};

use crate::verdict::verdict_lines;
use answer_rows::Word;
use cup_groups::seat_of;
use cup_sheet::Cup;
use cup_text::CupLine;
use league_core::{OutOfMemory, Season};
use runners_up::{ClubFinding, have_results};
use std::alloc::Global;

/// A club with what is known of it.
#[derive(Drop)]
pub struct FoundClub {
    /// Its number in the cup, from 0.
    pub club: u8,
    pub finding: ClubFinding,
}

/// The word for what is found.
pub fn word_of_finding(finding: &ClubFinding) -> Word
    ensures { result ≡ word_of_finding finding.now }
{
    match finding {
        ClubFinding::Clinched(_) => Word::Clinched,
        ClubFinding::Lost(_) => Word::Lost,
        ClubFinding::Possible { .. } => Word::Possible,
        ClubFinding::Unsettled { .. } => Word::Unsettled,
    }
}

/// The lines after the word, which can all be written: a refutation if proofs are asked for, joint
/// finishes and trees on which the budget was spent always.
pub fn finding_lines(
    alloc: Global,
    proofs: bool,
    cup: &Cup,
    seasons: &[Season],
    found: &FoundClub,
) -> Result<Vec<CupLine>, OutOfMemory>
    requires cup { IsCup cup.now }
    requires seasons { AreSeasonsOf cup.now.groups seasons.now }
    requires found { IsFoundClub cup.now seasons.now found.now }
    ensures shown { IfOk result (λ lines. ShowsInCup proofs cup.now seasons.now found.now.club
        (word_of_finding found.now.finding) lines.items) }
    ensures forms { IfOk result (λ lines. All (λ line. IsTrue (is_cup_line line)) lines.items) }
{
    if proofs {
        all_lines(alloc, cup, seasons, found)
    } else {
        lines_without_proofs(alloc, cup, seasons, found)
    }
}

fn lines_without_proofs(
    alloc: Global,
    cup: &Cup,
    seasons: &[Season],
    found: &FoundClub,
) -> Result<Vec<CupLine>, OutOfMemory>
    requires cup { IsCup cup.now }
    requires seasons { AreSeasonsOf cup.now.groups seasons.now }
    requires found { IsFoundClub cup.now seasons.now found.now }
    ensures shown { IfOk result (λ lines. ShowsInCup false cup.now seasons.now found.now.club
        (word_of_finding found.now.finding) lines.items) }
    ensures forms { IfOk result (λ lines. All (λ line. IsTrue (is_cup_line line)) lines.items) }
{
    match found.finding {
        ClubFinding::Clinched(_) | ClubFinding::Lost(_) => Ok(Vec::new(alloc)),
        ClubFinding::Possible { .. } | ClubFinding::Unsettled { .. } => {
            all_lines(alloc, cup, seasons, found)
        }
    }
}

fn all_lines(
    alloc: Global,
    cup: &Cup,
    seasons: &[Season],
    found: &FoundClub,
) -> Result<Vec<CupLine>, OutOfMemory>
    requires cup { IsCup cup.now }
    requires seasons { AreSeasonsOf cup.now.groups seasons.now }
    requires found { IsFoundClub cup.now seasons.now found.now }
    ensures shown { IfOk result (λ lines. ShowsInCup true cup.now seasons.now found.now.club
        (word_of_finding found.now.finding) lines.items) }
    ensures forms { IfOk result (λ lines. All (λ line. IsTrue (is_cup_line line)) lines.items) }
{
    have_results(seasons);
    let seat = seat_of(cup, found.club).unwrap();
    let lines = verdict_lines(alloc, cup, seasons, &seat, &found.finding)?;
    Ok(lines)
}
