//! The search for the two numbers.

ghost use Rattle.std.specs.Prelude.{◌≡◌, IfOk};
ghost use Rattle.league_core.specs.declared.question.Claim.TheVariants.{Inside, Outside};
ghost use Rattle.league_core.specs.game.Seasons.{IsLeague};
ghost use Rattle.league_core.specs.game.Questions.{IsQuestionOf, full_question};
ghost use Rattle.qual_scores.specs.Bounds.{AreRightScores, IsRightBound};
ghost use Rattle.qual_scores.specs.inside.Searching.{IsNarrowed, IsFirstReach};

use crate::point_range::PointRange;
use crate::reach::reach_of;
use crate::window::{ScoreQuery, WindowAnswer, ask_window};
use answer_rows::{Bound, Score2};
use cert_text::ProofLine;
use league_core::{Claim, OutOfMemory, Season, Sheet};
use std::alloc::Global;

/// The possible and the guaranteed qualification score of a club, by its number from 0, and a line,
/// which is how many first places it asks for, in points less what is taken off the club. Each
/// window question has the whole budget of the sheet.
pub fn scores(
    alloc: Global,
    sheet: &Sheet,
    season: &Season,
    club: u8,
    line: u8,
) -> Result<Score2, OutOfMemory>
    requires league { IsLeague sheet.now season.now }
    requires of_sheet { IsQuestionOf sheet.now (full_question club line Inside) }
    ensures { IfOk result (AreRightScores sheet.now season.now club line) }
{
    let reach = reach_of(alloc, sheet, season, club)?;
    let pqs = possible_score(alloc, sheet, season, club, line, reach)?;
    let gqs = guaranteed_score(alloc, sheet, season, club, line, reach)?;
    Ok(Score2 { pqs, gqs })
}

// The window at the upper end comes first, which says whether there is a number at all.
fn possible_score(
    alloc: Global,
    sheet: &Sheet,
    season: &Season,
    club: u8,
    line: u8,
    reach: PointRange,
) -> Result<Bound, OutOfMemory>
    requires league { IsLeague sheet.now season.now }
    requires of_sheet { IsQuestionOf sheet.now (full_question club line Inside) }
    requires reach { IsFirstReach sheet.now season.now club reach }
    ensures { IfOk result (IsRightBound sheet.now season.now club line Inside) }
{
    let claim = Claim::Inside;
    let sought = ScoreQuery { club, line, claim };
    match ask_window(alloc, sheet, season, sought, reach.high)? {
        WindowAnswer::NotAbove => halved(alloc, sheet, season, sought, reach),
        WindowAnswer::Above => Ok(Bound::None),
        WindowAnswer::Spent(spent) => Ok(between(reach, spent)),
    }
}

// Nobody has more points than it can reach, so the upper end needs no window.
fn guaranteed_score(
    alloc: Global,
    sheet: &Sheet,
    season: &Season,
    club: u8,
    line: u8,
    reach: PointRange,
) -> Result<Bound, OutOfMemory>
    requires league { IsLeague sheet.now season.now }
    requires of_sheet { IsQuestionOf sheet.now (full_question club line Inside) }
    requires reach { IsFirstReach sheet.now season.now club reach }
    ensures { IfOk result (IsRightBound sheet.now season.now club line Outside) }
{
    let claim = Claim::Outside;
    let sought = ScoreQuery { club, line, claim };
    let high = (reach.high + 1).max(0);
    halved(alloc, sheet, season, sought, PointRange { low: 0, high })
}

// Halves the range until one number is left, or the budget of a window question is spent.
fn halved(
    alloc: Global,
    sheet: &Sheet,
    season: &Season,
    sought: ScoreQuery,
    first: PointRange,
) -> Result<Bound, OutOfMemory>
    requires league { IsLeague sheet.now season.now }
    requires of_sheet { IsQuestionOf sheet.now
        (full_question sought.club sought.line sought.claim) }
    requires narrowed { IsNarrowed sheet.now season.now sought first }
    ensures { IfOk result
        (IsRightBound sheet.now season.now sought.club sought.line sought.claim) }
{
    let mut range = first;
    while range.low < range.high {
        let middle = range.middle();
        match ask_window(alloc, sheet, season, sought, middle)? {
            WindowAnswer::NotAbove => range.high = middle,
            WindowAnswer::Above => range.low = middle + 1,
            WindowAnswer::Spent(spent) => return Ok(between(range, spent)),
        }
    }
    Ok(Bound::Known(range.low))
}

fn between(range: PointRange, spent: Vec<ProofLine>) -> Bound
    ensures { result ≡ Bound.Between range.low range.high spent }
{
    let PointRange { low, high } = range;
    Bound::Between { low, high, spent }
}
