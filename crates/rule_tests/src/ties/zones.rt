//! Zones that leave each match an outcome and ranges of goals.

use super::leagues::Game;
use league_core::{Listing, Literal, OutOfMemory, Test, Zone};
use std::alloc::Global;

/// The zone of these matches, with marks of rivals: before the club of a question, or not.
pub fn zone_of(alloc: Global, games: &[Game], marks: &[(u8, bool)]) -> Result<Zone, OutOfMemory> {
    let mut literals = Listing::new(alloc);
    add_all(&mut literals, games, marks)?;
    Ok(Zone { literals })
}

fn add_all(
    literals: &mut Listing<Literal>,
    games: &[Game],
    marks: &[(u8, bool)],
) -> Result<(), OutOfMemory> {
    add_games(literals, games)?;
    for (club, yes) in marks {
        add(literals, Test::Rival { club: *club }, *yes)?;
    }
    Ok(())
}

fn add_games(literals: &mut Listing<Literal>, games: &[Game]) -> Result<(), OutOfMemory> {
    let mut fixture = 0u16;
    for (_, _, outcome, home, away) in games {
        add_outcome(literals, fixture, *outcome)?;
        add_home(literals, fixture, home.0, home.1)?;
        add_away(literals, fixture, away.0, away.1)?;
        fixture = fixture.wrapping_add(1);
    }
    Ok(())
}

fn add_outcome(
    literals: &mut Listing<Literal>,
    fixture: u16,
    outcome: char,
) -> Result<(), OutOfMemory> {
    if matches!(outcome, 'H' | 'A') {
        add(literals, Test::Home { fixture }, outcome == 'H')?;
    }
    if matches!(outcome, 'D' | 'A') {
        add(literals, Test::Draw { fixture }, outcome == 'D')?;
    }
    Ok(())
}

// Goals of the home side from the least to the most.
fn add_home(
    literals: &mut Listing<Literal>,
    fixture: u16,
    least: u8,
    most: u8,
) -> Result<(), OutOfMemory> {
    add(literals, Test::HomeMost { fixture, most }, true)?;
    if least == 0 {
        return Ok(());
    }
    let most = least - 1;
    add(literals, Test::HomeMost { fixture, most }, false)
}

// Goals of the away side from the least to the most.
fn add_away(
    literals: &mut Listing<Literal>,
    fixture: u16,
    least: u8,
    most: u8,
) -> Result<(), OutOfMemory> {
    add(literals, Test::AwayMost { fixture, most }, true)?;
    if least == 0 {
        return Ok(());
    }
    let most = least - 1;
    add(literals, Test::AwayMost { fixture, most }, false)
}

fn add(literals: &mut Listing<Literal>, test: Test, yes: bool) -> Result<(), OutOfMemory> {
    literals.push(Literal { test, yes })
}
