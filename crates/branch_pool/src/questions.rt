//! What is kept of all questions, seat by seat.

ghost use Rattle.std.specs.Prelude.{◌≡◌, ◌<◌, ◌++◌, length, map, take, drop, All, IfOk};
ghost use Rattle.std.specs.Prelude.{◌↔◌, [], IsTrue, OnOk};
ghost use Rattle.league_core.specs.game.Seasons.{IsLeague};
ghost use Rattle.branch_pool.specs.inside.States.{new_seat};
ghost use Rattle.branch_pool.specs.inside.Steps.{seat_changed, seat_recalled};
ghost use Rattle.branch_pool.specs.inside.QuestionStates.{IsUncut, MayBeCarried, tree_for};

use crate::question_state::QuestionState;
use league_core::{OutOfMemory, Question, Season, Sheet};
use score_box::{Played, ZoneBox};
use std::alloc::Global;
use tree_arena::Tree;
use tree_reuse::retarget_by;

pub fn new_seats(alloc: Global, questions: &[Question]) -> Result<Vec<QuestionState>, OutOfMemory>
    ensures { IfOk result (λ seats. seats.items ≡ map new_seat questions.now) }
{
    let mut seats = Vec::new(alloc);
    for question in questions {
        seats.push(QuestionState::new(alloc, *question)?)?;
    }
    Ok(seats)
}

pub fn recall_seats(seats: &mut Vec<QuestionState>)
    ensures { seats.new.items ≡ map seat_recalled seats.old.items }
{
    for place in 0..seats.len() {
        let seat = &mut seats[place];
        seat.recall();
    }
}

/// Each tree is one open leaf.
pub fn are_uncut(seats: &[QuestionState]) -> bool
    ensures { IsTrue result ↔ All IsUncut seats.now }
{
    seats.iter().all(|seat| seat.tree.is_one_open_leaf())
}

/// Each question goes on in another season with its tree as it is, which is one open leaf.
pub fn change_uncut(sheet: &Sheet, season: &Season, seats: &mut Vec<QuestionState>)
    requires { All IsUncut seats.old.items }
    ensures { seats.new.items ≡ map (seat_changed sheet.now season.now) seats.old.items }
{
    for place in 0..seats.len() {
        let seat = &mut seats[place];
        seat.change_uncut(sheet, season);
    }
}

/// The tree of each question for another season, if that is to be made.
pub fn trees_for(
    alloc: Global,
    sheet: &Sheet,
    season: &Season,
    seats: &[QuestionState],
) -> Result<Vec<Option<Tree>>, OutOfMemory>
    requires league { IsLeague sheet.now season.now }
    requires ready { All (MayBeCarried sheet.now) seats.now }
    ensures { IfOk result (λ trees. trees.items ≡ map (tree_for sheet.now season.now) seats.now) }
{
    let played = Played::of(alloc, sheet, season)?;
    let mut zone_box = ZoneBox::over(alloc, &played, &[])?;
    trees_by(alloc, &mut zone_box, seats)
}

fn trees_by(
    alloc: Global,
    zone_box: &mut ZoneBox,
    seats: &[QuestionState],
) -> Result<Vec<Option<Tree>>, OutOfMemory>
    requires root { zone_box.old.zone ≡ [] }
    requires ready { All (MayBeCarried zone_box.old.sheet) seats.now }
    ensures { IfOk result (λ trees.
        trees.items ≡ map (tree_for zone_box.old.sheet zone_box.old.season) seats.now) }
{
    let mut trees = Vec::new(alloc);
    trees.reserve(seats.len())?;
    for seat in seats {
        trees.push(tree_for(alloc, zone_box, seat)?)?;
    }
    Ok(trees)
}

// The tree of a question for the season of a box without a literal, if that is to be made.
#[tactic(auto, using(crate::proofs::UncutLemmas::none_left, crate::proofs::UncutLemmas::some_left))]
fn tree_for(
    alloc: Global,
    zone_box: &mut ZoneBox,
    seat: &QuestionState,
) -> Result<Option<Tree>, OutOfMemory>
    requires root { zone_box.old.zone ≡ [] }
    requires ready { MayBeCarried zone_box.old.sheet seat.now }
    ensures tree { IfOk result (λ tree.
        tree ≡ tree_for zone_box.old.sheet zone_box.old.season seat.now) }
    ensures same { OnOk result (zone_box.new ≡ zone_box.old) }
{
    if seat.tree.is_one_open_leaf() {
        return Ok(None);
    }
    let tree = retarget_by(alloc, zone_box, &seat.question, &seat.tree)?;
    Ok(Some(tree))
}

/// Each question goes on in another season, with the tree that was made for it.
pub fn change_seats(
    sheet: &Sheet,
    season: &Season,
    trees: &mut Vec<Option<Tree>>,
    seats: &mut Vec<QuestionState>,
)
    requires { trees.old.items ≡ map (tree_for sheet.now season.now) seats.old.items }
    ensures { seats.new.items ≡ map (seat_changed sheet.now season.now) seats.old.items }
{
    for place in 0..seats.len() {
        let seat = &mut seats[place];
        seat.change(sheet, season, &mut trees[place]);
    }
}
