//! What a report's lines may say besides the nodes of trees.

ghost use Rattle.std.specs.Prelude.{◌≡◌, ◌<◌, length};
ghost use Rattle.league_core.specs.game.Sheets.{IsWithinLimits};
ghost use Rattle.line_tokens.specs.LineRanges.{same_claim};
ghost use Rattle.cert_check.specs.ExpectedItems as dues;

use crate::expected::ReportKind;
use league_core::{Claim, Question, Score, Sheet};
use line_tokens::is_wide_reason_for;
use wide_lines::WideReason;

/// An unplayed match may end so.
pub fn is_ending(sheet: &Sheet, score: Score) -> bool
    ensures { result ≡ dues.is_ending sheet.now score }
{
    score.home <= sheet.goal_limit && score.away <= sheet.goal_limit
}

/// A leaf of a tree for the question may have this reason, in a report of this kind.
pub fn may_refute(kind: ReportKind, sheet: &Sheet, question: &Question, reason: WideReason) -> bool
    requires limits { IsWithinLimits sheet.now }
    requires in_range { question.now.club < length sheet.now.clubs }
    ensures { result ≡ dues.may_refute kind sheet.now question.now reason }
{
    may_have(kind, reason) && is_wide_reason_for(sheet, question, reason)
}

// Near leaves stand in wide reports alone.
fn may_have(kind: ReportKind, reason: WideReason) -> bool
    ensures { result ≡ dues.may_have kind reason }
{
    match reason {
        WideReason::Plain(_) => true,
        WideReason::Near(_) => kind == ReportKind::Wide,
    }
}

/// Both claims are the same.
pub fn same_claim(claim: Claim, other: Claim) -> bool
    ensures { result ≡ same_claim claim other }
{
    match claim {
        Claim::Inside => other == Claim::Inside,
        Claim::Outside => other == Claim::Outside,
    }
}
