//! The verdicts on all clubs of a cup.

ghost use Rattle.std.specs.Prelude.{◌<◌, IfOk};
ghost use Rattle.cup_sheet.specs.Cups.{AreSeasonsOf, IsCup, clubs_together};
ghost use Rattle.cup_verdicts.specs.CupVerdicts.{AreCupVerdicts, IsCupVerdict};

use answer_rows::Word;
use cup_groups::club_count;
use cup_rows::{FoundClub, finding_lines, word_of_finding};
use cup_sheet::Cup;
use cup_sides::club_finding;
use cup_text::CupLine;
use league_core::{OutOfMemory, Season};
use std::alloc::Global;

/// The verdict on a club.
#[derive(Drop)]
pub struct CupVerdict {
    /// Its number in the cup, from 0.
    pub club: u8,
    pub word: Word,
    /// The lines that show the word, as `groups` writes them with proofs.
    pub proof: Vec<CupLine>,
}

/// The verdict on each club of the cup, in the order of the sheet, from a season of each group.
pub fn cup_verdicts(
    alloc: Global,
    cup: &Cup,
    seasons: &[Season],
) -> Result<Vec<CupVerdict>, OutOfMemory>
    requires cup { IsCup cup.now }
    requires seasons { AreSeasonsOf cup.now.groups seasons.now }
    ensures { IfOk result (λ verdicts. AreCupVerdicts cup.now seasons.now
        (clubs_together cup.now.groups) verdicts.items) }
{
    let mut verdicts = Vec::new(alloc);
    for club in 0..club_count(cup) {
        verdicts.push(verdict_on(alloc, cup, seasons, club)?)?;
    }
    Ok(verdicts)
}

fn verdict_on(
    alloc: Global,
    cup: &Cup,
    seasons: &[Season],
    club: u8,
) -> Result<CupVerdict, OutOfMemory>
    requires cup { IsCup cup.now }
    requires seasons { AreSeasonsOf cup.now.groups seasons.now }
    requires in_range { club < clubs_together cup.now.groups }
    ensures { IfOk result (IsCupVerdict cup.now seasons.now club) }
{
    let finding = club_finding(alloc, cup, seasons, club)?;
    let found = FoundClub { club, finding };
    let proof = finding_lines(alloc, true, cup, seasons, &found)?;
    let word = word_of_finding(&found.finding);
    Ok(CupVerdict { club, word, proof })
}
