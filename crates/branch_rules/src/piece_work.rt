//! One piece of work, with a copy of the piece.

ghost use Rattle.std.specs.Prelude.{IfOk, IsTrue};
ghost use Rattle.league_core.specs.game.Seasons.{IsLeague};
ghost use Rattle.league_core.specs.game.Questions.{IsQuestionOf};
ghost use Rattle.league_core.specs.search.Zones.{IsZoneFor};
ghost use Rattle.league_core.specs.search.Options.{has_finish};
ghost use Rattle.branch_rules.specs.inside.Works.{IsWorkOf};
ghost use Rattle.branch_rules.specs.inside.Found.{IsFoundIn};

use crate::search::find_with;
use flow_bound::FlowKeep;
use league_core::{OutOfMemory, Sheet};
use reason_core::{Done, Finding, Piece};
use score_box::ZoneBox;
use std::alloc::Global;

/// What is found in the piece, with a copy of the piece. It is never left undone.
pub fn work(alloc: Global, sheet: &Sheet, piece: &Piece) -> Result<Done, OutOfMemory>
    requires league { IsLeague sheet.now piece.now.season }
    requires of_sheet { IsQuestionOf sheet.now piece.now.question }
    requires of_zone { IsZoneFor sheet.now piece.now.question piece.now.zone.literals }
    requires has_finish { IsTrue (has_finish sheet.now piece.now.season piece.now.zone.literals) }
    ensures { IfOk result (IsWorkOf sheet.now piece.now) }
{
    work_with(alloc, sheet, piece, &mut FlowKeep::new())
}

/// The same as [`work`], with cuts sought from what an earlier search left in the keep, whatever
/// that was.
pub fn work_with(
    alloc: Global,
    sheet: &Sheet,
    piece: &Piece,
    keep: &mut FlowKeep,
) -> Result<Done, OutOfMemory>
    requires league { IsLeague sheet.now piece.now.season }
    requires of_sheet { IsQuestionOf sheet.now piece.now.question }
    requires of_zone { IsZoneFor sheet.now piece.now.question piece.now.zone.literals }
    requires has_finish { IsTrue (has_finish sheet.now piece.now.season piece.now.zone.literals) }
    ensures { IfOk result (IsWorkOf sheet.now piece.now) }
{
    let finding = find_in(alloc, sheet, piece, keep)?;
    let copy = piece.copy(alloc)?;
    Ok(Done::of(copy, finding))
}

// What is found in a piece, over a box of its own.
fn find_in(
    alloc: Global,
    sheet: &Sheet,
    piece: &Piece,
    keep: &mut FlowKeep,
) -> Result<Finding, OutOfMemory>
    requires league { IsLeague sheet.now piece.now.season }
    requires of_sheet { IsQuestionOf sheet.now piece.now.question }
    requires of_zone { IsZoneFor sheet.now piece.now.question piece.now.zone.literals }
    requires has_finish { IsTrue (has_finish sheet.now piece.now.season piece.now.zone.literals) }
    ensures { IfOk result (IsFoundIn sheet.now piece.now.season piece.now.question
        piece.now.zone.literals) }
{
    let zone_box = ZoneBox::of(alloc, sheet, &piece.season, &piece.zone)?;
    find_with(alloc, &zone_box, &piece.question, keep)
}
