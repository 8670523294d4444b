//! Whether a finish is an example of a question, with lots that show it.

ghost use Rattle.std.specs.Prelude.{◌≡◌, ◌<◌, ◌&&◌, int_le, IfNone, IfOk, IfSome, IsTrue, List};
ghost use Rattle.std.specs.Prelude.{ℕ, length, nat_le};
ghost use Rattle.league_core.specs.game.Seasons.{IsLeague};
ghost use Rattle.league_core.specs.game.Questions.{holds_at, is_in_window};
ghost use Rattle.league_core.specs.inside.LotsFor.{lots_for_claim};
ghost use Rattle.league_core.specs.game.Ranking.{are_lots, is_inside};
ghost use Rattle.league_core.specs.game.Sums.{points_of};
ghost use Rattle.league_core.specs.search.Proposals.{proposed_finish};
ghost use Rattle.score_box.specs.inside.ZoneBoxViews.{HasFinish};
ghost use Rattle.example_finish.specs.inside.ProposalViews.{sheet_asked, finish_asked};
ghost use Rattle.example_finish.specs.inside.ProposedPoints.{ArePointsOver, ArePointsNear};

use crate::lead::{stand_by_points, stand_in};
use crate::proposed::Proposed;
use final_rank::{lots_for, place, points};
use league_core::{Claim, Finish, Lots, OutOfMemory, Question, Season, Sheet};
use score_box::ZoneBox;
use std::alloc::Global;

/// Lots with which the question holds at the finish; none exactly when it holds with no lots. The
/// lots that favour the claim are tried: no others can do better.
pub fn try_example(
    alloc: Global,
    sheet: &Sheet,
    question: &Question,
    finish: &Finish,
) -> Result<Option<Lots>, OutOfMemory>
    requires league { IsLeague sheet.now finish.now }
    requires in_range { question.now.club < length sheet.now.clubs }
    ensures lots { IfOk result (λ found. IfSome found (λ lots. lots
        ≡ lots_for_claim (length sheet.now.clubs) question.now.club question.now.claim)) }
    ensures drawn { IfOk result (λ found. IfSome found (λ lots.
        IsTrue (are_lots (length sheet.now.clubs) lots))) }
    ensures found { IfOk result (λ found. IfSome found (λ lots.
        IsTrue (holds_at sheet.now question.now finish.now lots))) }
    ensures absent { IfOk result (λ found. IfNone found ((lots : List ℕ) →
        ¬ IsTrue (holds_at sheet.now question.now finish.now lots))) }
{
    let season = finish.as_season();
    let lots = lots_for(
        alloc,
        sheet.clubs.len() as u8,
        question.club,
        question.claim,
    )?;
    if holds(alloc, sheet, question, season, &lots)? {
        Ok(Some(lots))
    } else {
        Ok(None)
    }
}

// The question holds at a season that is played to its end, with these lots.
fn holds(
    alloc: Global,
    sheet: &Sheet,
    question: &Question,
    season: &Season,
    lots: &Lots,
) -> Result<bool, OutOfMemory>
    requires league { IsLeague sheet.now season.now }
    requires drawn { IsTrue (are_lots (length sheet.now.clubs) lots.now) }
    requires in_range { question.now.club < length sheet.now.clubs }
    ensures { IfOk result (λ holds. holds
        ≡ holds_at sheet.now question.now season.now lots.now) }
{
    let points = points(alloc, sheet, season)?;
    let place = place(alloc, sheet, season, lots, question.club)?;
    let in_window = question.is_in_window(points[question.club as usize]);
    Ok(in_window && question.claim.is_on_side(place <= question.line))
}

/// The proposed finish of the box's zone is an example of the question with the lots that favour
/// the claim; with no lots it is one otherwise. It takes no memory, and looks at the fixtures that
/// are not played alone.
pub fn is_example(zone_box: &ZoneBox, question: &Question) -> bool
    requires has_finish { HasFinish zone_box.now }
    requires of_sheet { question.now.club < length zone_box.now.sheet.clubs }
    ensures { result ≡ holds_at zone_box.now.sheet question.now
        (proposed_finish zone_box.now.sheet zone_box.now.season question.now zone_box.now.zone)
        (lots_for_claim (length zone_box.now.sheet.clubs) question.now.club
        question.now.claim) }
{
    let proposed = Proposed::of(zone_box, question);
    let points = proposed.points_over();
    has_points_in_window(&proposed, &points)
        && question.claim.is_on_side(is_inside(&proposed, &points))
}

// The club's points are in the question's window.
fn has_points_in_window(proposed: &Proposed, points: &[i32]) -> bool
    requires long { length points.now ≡ 24 }
    requires near { ArePointsNear 1000000 points.now }
    requires points { ArePointsOver (sheet_asked proposed.now) (finish_asked proposed.now)
        points.now }
    ensures { result ≡ is_in_window proposed.now.question
        (points_of (sheet_asked proposed.now) (finish_asked proposed.now)
        proposed.now.question.club) }
{
    let _sheet = proposed.sheet();
    let question = proposed.question();
    question.is_in_window(points[question.club as usize])
}

// The club is inside the line, with the lots that favour the claim. If its points alone say so,
// nothing else is looked at.
fn is_inside(proposed: &Proposed, points: &[i32]) -> bool
    requires long { length points.now ≡ 24 }
    requires points { ArePointsOver (sheet_asked proposed.now) (finish_asked proposed.now)
        points.now }
    ensures { result ≡ is_inside (sheet_asked proposed.now) (finish_asked proposed.now)
        (lots_for_claim (length (sheet_asked proposed.now).clubs) proposed.now.question.club
        proposed.now.question.claim) proposed.now.question.club proposed.now.question.line }
{
    let _sheet = proposed.sheet();
    let question = proposed.question();
    let tier = stand_by_points(proposed, points);
    if question.line <= tier.ahead.len() {
        return false;
    }
    if tier.ahead.union(tier.level).len() <= question.line {
        return true;
    }
    let near = stand_in(proposed, tier.level, question.club);
    tier.then(near).place(question.claim) <= question.line
}
