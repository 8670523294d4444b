//! What the ranking answers for a league beside the plain program.

ghost use Rattle.league_core.specs.game.Seasons.{IsLeague};

use crate::plain::{Entrant, Plain};
use final_rank::{PlaceRange, place, spans, table};
use league_core::Lots;
use sample_leagues::{Draws, Sample};
use std::alloc::Global;
use std::cmp::Ordering;
use std::process::Abort;
use std::test::Fail;

/// How many clubs stand before a club, and how many are level with it, itself among them.
#[derive(Clone, Copy)]
pub struct Counted {
    before: u8,
    level: u8,
}

impl Counted {
    /// The place with the best lots.
    pub fn best(&self) -> u8 {
        self.before.wrapping_add(1)
    }

    /// The place with the worst.
    pub fn worst(&self) -> u8 {
        self.before.wrapping_add(self.level)
    }
}

pub fn count_around(plain: &Plain, club: Entrant) -> Counted {
    let mut counted = Counted {
        before: 0,
        level: 0,
    };
    for rival in &plain.clubs {
        match plain.order(*rival, club) {
            Ordering::Less => counted.before = counted.before.wrapping_add(1),
            Ordering::Equal => counted.level = counted.level.wrapping_add(1),
            Ordering::Greater => {}
        }
    }
    counted
}

fn compare_spans(rt: &impl Abort, plain: &Plain, found: &[PlaceRange], round: u32) {
    assert_eq!(rt; found.len(), plain.clubs.len(), "league {round}");
    for (club, span) in plain.clubs.iter().zip(found) {
        let counted = count_around(plain, *club);
        let is_same = span.best == counted.best() && span.worst == counted.worst();
        assert!(rt; is_same, "league {round}");
    }
}

fn check_spans(
    rt: &impl Abort,
    alloc: Global,
    sample: &Sample,
    plain: &Plain,
    round: u32,
) -> Result<(), Fail>
    requires { IsLeague sample.now.sheet sample.now.season }
{
    let found = spans(alloc, &sample.sheet, &sample.season)?;
    compare_spans(rt, plain, found.as_slice(), round);
    Ok(())
}

/// Compares the places of all clubs of a league, with the best and with the worst lots.
pub fn check_drawn_spans(
    rt: &impl Abort,
    alloc: Global,
    sample: &Sample,
    round: u32,
) -> Result<(), Fail>
    requires { IsLeague sample.now.sheet sample.now.season }
{
    let plain = Plain::of(alloc, &sample.sheet, &sample.season)?;
    check_spans(rt, alloc, sample, &plain, round)
}

// Numbers that begin with a drawn one and go on upwards or downwards.
fn drawn_order(draws: &mut Draws, clubs: usize, order: &mut Vec<u8>) -> Result<(), Fail> {
    let count = u8::try_from(clubs).unwrap_or(0).max(1);
    let first = draws.below(count);
    for step in 0..count {
        order.push(((u16::from(first) + u16::from(step)) % u16::from(count)) as u8)?;
    }
    if draws.flip() {
        order.reverse();
    }
    Ok(())
}

fn drawn_lots(alloc: Global, draws: &mut Draws, clubs: usize) -> Result<Lots, Fail> {
    let mut order = Vec::new(alloc);
    drawn_order(draws, clubs, &mut order)?;
    Ok(Lots::new(order).ok().ok_or("no lots")?)
}

// The place by comparing the club with each other one: those before it, and of those level with it
// the ones whose lots come first.
fn plain_place(plain: &Plain, lots: &Lots, club: Entrant) -> u8 {
    let lot = lot_of(lots, club.club);
    let mut place = 1u8;
    for rival in &plain.clubs {
        let order = plain.order(*rival, club);
        let is_earlier = lot_of(lots, rival.club) < lot;
        if order.is_lt() || order.is_eq() && is_earlier {
            place = place.wrapping_add(1);
        }
    }
    place
}

fn lot_of(lots: &Lots, club: u8) -> usize {
    lots.order()
        .iter()
        .position(|drawn| *drawn == club)
        .unwrap_or(99)
}

fn check_place(
    rt: &impl Abort,
    alloc: Global,
    sample: &Sample,
    lots: &Lots,
    club: u8,
    wanted: u8,
) -> Result<(), Fail>
    requires { IsLeague sample.now.sheet sample.now.season }
{
    assert!(rt; lots.order().len() == sample.sheet.clubs.len());
    assert!(rt; (club as usize) < sample.sheet.clubs.len());
    let here = place(alloc, &sample.sheet, &sample.season, lots, club)?;
    assert_eq!(rt; here, wanted);
    Ok(())
}

// The club of that place in the table.
fn stands_at(table: &[u8], place: u8) -> Option<u8> {
    table.get(usize::from(place).wrapping_sub(1)).copied()
}

fn check_places(
    rt: &impl Abort,
    alloc: Global,
    sample: &Sample,
    plain: &Plain,
    lots: &Lots,
    table: &[u8],
    round: u32,
) -> Result<(), Fail>
    requires { IsLeague sample.now.sheet sample.now.season }
{
    for club in &plain.clubs {
        let wanted = plain_place(plain, lots, *club);
        check_place(rt, alloc, sample, lots, club.club, wanted)?;
        assert!(rt;
            stands_at(table, wanted) == Some(club.club),
            "league {round}"
        );
    }
    Ok(())
}

fn check_table(
    rt: &impl Abort,
    alloc: Global,
    sample: &Sample,
    plain: &Plain,
    lots: &Lots,
    round: u32,
) -> Result<(), Fail>
    requires { IsLeague sample.now.sheet sample.now.season }
{
    assert!(rt; lots.order().len() == sample.sheet.clubs.len());
    let found = table(alloc, &sample.sheet, &sample.season, lots)?;
    check_places(rt, alloc, sample, plain, lots, found.as_slice(), round)
}

fn check_lots(
    rt: &impl Abort,
    alloc: Global,
    sample: &Sample,
    lots: &Lots,
    round: u32,
) -> Result<(), Fail>
    requires { IsLeague sample.now.sheet sample.now.season }
{
    let plain = Plain::of(alloc, &sample.sheet, &sample.season)?;
    check_table(rt, alloc, sample, &plain, lots, round)
}

/// Compares places and the table under drawn lots.
pub fn check_drawn_lots(
    rt: &impl Abort,
    alloc: Global,
    draws: &mut Draws,
    sample: &Sample,
    round: u32,
) -> Result<(), Fail>
    requires { IsLeague sample.now.sheet sample.now.season }
{
    let lots = drawn_lots(alloc, draws, sample.sheet.clubs.len())?;
    check_lots(rt, alloc, sample, &lots, round)
}
