//! Which open matches a walk changes.

use crate::board::{Board, OpenMatch};
use crate::start::has_window;
use league_core::{ClubSet, OutOfMemory, Question};
use std::alloc::Global;

/// The places of the open matches that can matter. Without a window these are the matches of the
/// rivals that can still come level with the club, whose own results stand as they are; with one
/// they are all.
pub fn live_matches(
    alloc: Global,
    board: &Board,
    question: &Question,
) -> Result<Vec<u16>, OutOfMemory> {
    let has_window = has_window(question);
    let live = live_clubs(board, question);
    let mut found = Vec::new(alloc);
    for place in 0..board.count() {
        if let Some(open) = board.at(place) {
            let is_live = live.has(open.sides.home) || live.has(open.sides.away);
            if has_window || is_live && !open.is_of(question.club) {
                found.push(place)?;
            }
        }
    }
    Ok(found)
}

/// The places of the club's own open matches.
pub fn own_matches(alloc: Global, board: &Board, club: u8) -> Result<Vec<u16>, OutOfMemory> {
    let mut found = Vec::new(alloc);
    for place in 0..board.count() {
        if let Some(open) = board.at(place) {
            if open.is_of(club) {
                found.push(place)?;
            }
        }
    }
    Ok(found)
}

// The clubs that can come to the club's points, by matches that are not against it.
fn live_clubs(board: &Board, question: &Question) -> ClubSet {
    let points = board.row(question.club).points;
    let ranges = ranges_of(board, question.club);
    let mut live = ClubSet::empty();
    for rival in 0..24 {
        let (least, room) = ranges[rival as usize];
        let is_live = least <= points && points <= least.saturating_add(room);
        live = live.with_if(is_live, rival);
    }
    live
}

// The least points of each rival, with its results against the club, and how many more it can take.
fn ranges_of(board: &Board, club: u8) -> [(i32, i32); 24] {
    let mut ranges = [(0, 0); 24];
    for rival in 0..24 {
        ranges[rival as usize] = (board.row(rival).points, 0);
    }
    for place in 0..board.count() {
        widen_by(&mut ranges, board, place, club);
    }
    ranges
}

// Takes an open match out of what its sides have, unless it is the club's.
fn widen_by(ranges: &mut [(i32, i32); 24], board: &Board, place: u16, club: u8) {
    if let Some(open) = board.at(place) {
        if !open.is_of(club) {
            widen(ranges, &open, open.sides.home);
            widen(ranges, &open, open.sides.away);
        }
    }
}

fn widen(ranges: &mut [(i32, i32); 24], open: &OpenMatch, side: u8) {
    if side < 24 {
        let (least, room) = ranges[side as usize];
        let won = open.points_of(side);
        ranges[side as usize] = (least.saturating_sub(won), room.saturating_add(3));
    }
}
