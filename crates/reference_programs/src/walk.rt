//! The walk: each finish is met once, for all clubs together.

ghost use Rattle.std.specs.Prelude.{◌≡◌, length, IfOk, OnOk, IsTrue};
ghost use Rattle.league_core.specs.game.Seasons.{IsLeague};
ghost use Rattle.reference_programs.specs.inside.Walks.{HasFewFinishes};
ghost use Rattle.league_core.specs.game.Finishes.{is_played};
ghost use Rattle.reference_programs.specs.inside.Reaches.{AreReaches, TakesFinish};
ghost use Rattle.reference_programs.specs.inside.Reaches.{first_reaches_of};

use crate::odometer::{first_finish, next_finish};
use crate::reach::Reach;
use final_rank::{PlaceRange, spans};
use league_core::{OutOfMemory, Season, Sheet};
use std::alloc::Global;

/// What each club can reach over all finishes of the season, in the sheet's order. They are at most
/// `MOST_FINISHES`.
pub fn reaches(alloc: Global, sheet: &Sheet, season: &Season) -> Result<Vec<Reach>, OutOfMemory>
    requires league { IsLeague sheet.now season.now }
    requires few { HasFewFinishes sheet.now season.now }
    ensures { IfOk result (λ found. AreReaches sheet.now season.now found.items) }
{
    let mut finish = first_finish(alloc, sheet, season)?;
    let mut found = first_reaches(alloc, sheet, &finish)?;
    'finishes: while next_finish(sheet, season, &mut finish) {
        let spans = spans(alloc, sheet, &finish)?;
        take_finish(alloc, &mut found, &spans, &finish)?;
    }
    Ok(found)
}

// The reaches of all clubs over one finish.
fn first_reaches(alloc: Global, sheet: &Sheet, finish: &Season) -> Result<Vec<Reach>, OutOfMemory>
    requires league { IsLeague sheet.now finish.now }
    requires played { IsTrue (is_played finish.now) }
    ensures { IfOk result (λ found. found.items ≡ first_reaches_of sheet.now finish.now) }
{
    let spans = spans(alloc, sheet, finish)?;
    let mut found = Vec::new(alloc);
    for span in &spans {
        found.push(Reach::of(alloc, *span, finish)?)?;
    }
    Ok(found)
}

// One finish more for each club.
fn take_finish(
    alloc: Global,
    reaches: &mut [Reach],
    spans: &[PlaceRange],
    finish: &Season,
) -> Result<(), OutOfMemory>
    requires as_many { length spans.now ≡ length reaches.old }
    requires played { IsTrue (is_played finish.now) }
    ensures { OnOk result (TakesFinish reaches.old reaches.new spans.now finish.now) }
{
    for club in 0..reaches.len() {
        reaches[club].take(alloc, spans[club], finish)?;
    }
    Ok(())
}
