//! Tickets that may be given back any number of times, and what was found in their pieces.

ghost use Rattle.std.specs.Prelude.{◌≡◌, IfOk};
ghost use Rattle.league_core.specs.game.Sheets.{IsWithinLimits};
ghost use Rattle.reason_core.specs.inside.Dones.{IsFor, IsTrueDone};

use crate::eligibility::done_of;
use branch_pool::{Gave, Pool, Ticket};
use league_core::{OutOfMemory, Reason, Season, Sheet, Test};
use reason_core::{Done, Piece};
use std::alloc::Global;

/// What a ticket says.
#[derive(Drop)]
pub struct Held {
    pub number: u64,
    pub epoch: u64,
    pub place: u16,
    pub piece: Piece,
}

/// What was found in a piece; of an example the finish.
#[derive(Drop)]
pub enum Found {
    Nothing,
    Refuted(Reason),
    Split(Test),
    Won(Season),
}

pub fn held_of(ticket: Ticket) -> Held {
    let Ticket {
        number,
        epoch,
        place,
        piece,
    } = ticket;
    Held {
        number,
        epoch,
        place,
        piece,
    }
}

fn ticket_of(alloc: Global, held: &Held) -> Result<Ticket, OutOfMemory>
    ensures { IfOk result (λ ticket. ticket.piece ≡ held.now.piece) }
{
    let piece = held.piece.copy(alloc)?;
    Ok(Ticket {
        number: held.number,
        epoch: held.epoch,
        place: held.place,
        piece,
    })
}

fn found_in(alloc: Global, done: &Done) -> Result<Found, OutOfMemory> {
    Ok(match done {
        Done::Undone => Found::Nothing,
        Done::Refuted(_, reason) => Found::Refuted(*reason),
        Done::Split(_, literal) => Found::Split(literal.test),
        Done::Won(_, finish, _) => Found::Won(finish.as_season().copy(alloc)?),
    })
}

fn done_if(
    alloc: Global,
    sheet: &Sheet,
    piece: &Piece,
    is_worked: bool,
) -> Result<Done, OutOfMemory>
    requires { IsWithinLimits sheet.now }
    ensures is_for { IfOk result (λ done. IsFor done piece.now) }
    ensures sound { IfOk result (IsTrueDone sheet.now) }
{
    if !is_worked {
        return Ok(Done::Undone);
    }
    done_of(alloc, sheet, piece)
}

/// Gives a pool a ticket like this one, worked on or not, and says what was found.
pub fn give_to(
    alloc: Global,
    pool: &mut Pool,
    held: &Held,
    is_worked: bool,
) -> Result<(Gave, Found), OutOfMemory> {
    let done = done_if(alloc, pool.sheet(), &held.piece, is_worked)?;
    let found = found_in(alloc, &done)?;
    let gave = give_done(alloc, pool, held, done)?;
    Ok((gave, found))
}

fn give_done(alloc: Global, pool: &mut Pool, held: &Held, done: Done) -> Result<Gave, OutOfMemory>
    requires is_for { IsFor done held.now.piece }
    requires sound { IsTrueDone pool.old.sheet done }
{
    let ticket = ticket_of(alloc, held)?;
    Ok(pool.give(ticket, done))
}
