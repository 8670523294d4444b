//! Lots with which a club ends as its group's candidate.
//!
//! If some lots leave the club there, one club is before it, and so some lots do in which that club
//! is drawn first and the club right after it.

ghost use Rattle.std.specs.Prelude.{◌≡◌, ◌≢◌, ◌<◌, ◌+◌, ◌++◌, ℕ, List, IfOk, IfSome, IsTrue, None};
ghost use Rattle.std.specs.Prelude.{OnOk, filter, length};
ghost use Rattle.std.specs.List.{range_with_len};
ghost use Rattle.league_core.specs.game.Seasons.{IsLeague};
ghost use Rattle.league_core.specs.game.Ranking.{are_lots, place_of};
ghost use Rattle.cup_sheet.specs.CupLimits.{direct_places};
ghost use Rattle.group_search.specs.inside.SecondLots.{second_lots, is_neither, IsCandidateBy};

use cup_groups::DIRECT_PLACES;
use final_rank::{place, worst_place};
use league_core::{Lots, OutOfMemory, Season, Sheet};
use std::alloc::{AllocError, Global};

/// Lots with which the club, by its number from 0, ends as the candidate at a finish; none exactly
/// if no lots leave it there.
pub(crate) fn candidate_lots(
    alloc: Global,
    sheet: &Sheet,
    finish: &Season,
    club: u8,
) -> Result<Option<Lots>, OutOfMemory>
    requires league { IsLeague sheet.now finish.now }
    requires in_range { club < length sheet.now.clubs }
    ensures found { IfOk result
        (λ answer. IfSome answer (IsCandidateBy sheet.now finish.now club)) }
    ensures absent { IfOk result (λ answer. answer ≡ None → (lots : List ℕ)
        → IsTrue (are_lots (length sheet.now.clubs) lots)
        → place_of sheet.now finish.now lots club ≢ direct_places + 1) }
{
    if worst_place(alloc, sheet, finish, club)? <= DIRECT_PLACES {
        return Ok(None);
    }
    lots_by_turns(alloc, sheet, finish, club)
}

// Each other club is drawn first in its turn.
fn lots_by_turns(
    alloc: Global,
    sheet: &Sheet,
    finish: &Season,
    club: u8,
) -> Result<Option<Lots>, OutOfMemory>
    requires league { IsLeague sheet.now finish.now }
    requires in_range { club < length sheet.now.clubs }
    ensures found { IfOk result
        (λ answer. IfSome answer (IsCandidateBy sheet.now finish.now club)) }
    ensures absent { IfOk result (λ answer. answer ≡ None → (lots : List ℕ)
        → place_of sheet.now finish.now lots club ≢ direct_places + 1) }
{
    for first in 0..sheet.clubs.len() as u8 {
        if let Some(lots) = lots_with_first(alloc, sheet, finish, first, club)? {
            return Ok(Some(lots));
        }
    }
    Ok(None)
}

// The lots with one club first and the other right after it, if these leave it at the place.
fn lots_with_first(
    alloc: Global,
    sheet: &Sheet,
    finish: &Season,
    first: u8,
    club: u8,
) -> Result<Option<Lots>, OutOfMemory>
    requires league { IsLeague sheet.now finish.now }
    requires first { first < length sheet.now.clubs }
    requires in_range { club < length sheet.now.clubs }
    ensures found { IfOk result
        (λ answer. IfSome answer (IsCandidateBy sheet.now finish.now club)) }
    ensures absent { IfOk result (λ answer. answer ≡ None → first ≢ club
        → place_of sheet.now finish.now (second_lots (length sheet.now.clubs) first club) club
        ≢ direct_places + 1) }
{
    if first == club {
        return Ok(None);
    }
    let lots = second_lots(alloc, sheet.clubs.len() as u8, first, club)?;
    if place(alloc, sheet, finish, &lots, club)? == DIRECT_PLACES + 1 {
        Ok(Some(lots))
    } else {
        Ok(None)
    }
}

// The one club first, the other right after it, then the rest of all clubs.
fn second_lots(alloc: Global, clubs: u8, first: u8, club: u8) -> Result<Lots, OutOfMemory>
    requires first { first < clubs }
    requires in_range { club < clubs }
    requires different { first ≢ club }
    ensures value { IfOk result (λ lots. lots ≡ second_lots clubs first club) }
    ensures drawn { IfOk result (λ lots. IsTrue (are_lots clubs lots)) }
{
    let order = drawn_second(alloc, clubs, first, club)?;
    Ok(Lots::new(order).unwrap())
}

fn drawn_second(alloc: Global, clubs: u8, first: u8, club: u8) -> Result<Vec<u8>, AllocError>
    ensures { IfOk result (λ order. order.items ≡ second_lots clubs first club) }
{
    let mut order = Vec::new(alloc);
    order.push(first)?;
    order.push(club)?;
    push_rest(&mut order, clubs, first, club)?;
    Ok(order)
}

// Adds the clubs but these two at the end, in the order of their numbers.
fn push_rest(order: &mut Vec<u8>, clubs: u8, first: u8, club: u8) -> Result<(), AllocError>
    ensures { OnOk result (order.new.items ≡ order.old.items
        ++ filter (is_neither first club) (range_with_len 0 clubs)) }
{
    for other in 0..clubs {
        if is_neither(first, club, other) {
            order.push(other)?;
        }
    }
    Ok(())
}

fn is_neither(first: u8, club: u8, other: u8) -> bool
    ensures { result ≡ is_neither first club other }
{
    other != first && other != club
}
