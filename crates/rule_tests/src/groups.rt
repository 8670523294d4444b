//! Drawn groups of drawn leagues: their blocks, records and sums beside the plain program.

ghost use Rattle.std.specs.Prelude.{◌<◌, ◌≤◌, ℕ, IsTrue};
ghost use Rattle.league_core.specs.game.Seasons.{IsLeague};
ghost use Rattle.league_core.specs.game.Sums.{has_club};
ghost use Rattle.league_core.specs.game.ClubSets.{clubs_in};
ghost use Rattle.tie_criteria.specs.inside.Groups.{IsGroupOf};

use crate::plain::{Entrant, Group, Plain, has};
use league_core::ClubSet;
use sample_leagues::{Draws, Sample};
use std::alloc::Global;
use std::process::Abort;
use std::test::Fail;
use tie_criteria::{MiniTable, Row, Triple, refine, tail_of, triple_of};

fn drawn_group(draws: &mut Draws, clubs: u8) -> ClubSet
    requires { clubs ≤ 32 }
    ensures { (club : ℕ) → IsTrue (has_club (clubs_in result) club) → club < clubs }
{
    let left_out = ClubSet {
        bits: u32::from(draws.below(255)) & u32::from(draws.below(255)),
    };
    left_out.others(clubs)
}

// The place of the one block that has the club.
fn block_of(blocks: &[ClubSet], club: u8) -> Option<usize> {
    if blocks.iter().filter(|block| block.has(club)).count() == 1 {
        blocks.iter().position(|block| block.has(club))
    } else {
        None
    }
}

fn check_block(
    rt: &impl Abort,
    plain: &Plain,
    group: Group,
    club: Entrant,
    rival: Entrant,
    blocks: &[ClubSet],
) {
    let here = block_of(blocks, club.club);
    assert!(rt; here.is_some());
    let wanted = plain.order_of_level(group, club, rival);
    assert!(rt; here.cmp(&block_of(blocks, rival.club)) == wanted);
}

fn check_blocks(rt: &impl Abort, plain: &Plain, group: Group, blocks: &[ClubSet]) {
    for club in &plain.clubs {
        for rival in &plain.clubs {
            if has(group, club.club) && has(group, rival.club) {
                check_block(rt, plain, group, *club, *rival, blocks);
            }
        }
    }
}

fn is_record(plain: &Plain, group: Group, club: Entrant, triple: Triple) -> bool {
    let wanted = plain.among(group, club);
    triple.points == wanted.points
        && triple.difference == wanted.difference
        && triple.scored == wanted.goals
}

fn check_sums(rt: &impl Abort, sample: &Sample, plain: &Plain, club: Entrant)
    requires { IsLeague sample.now.sheet sample.now.season }
{
    assert!(rt; (club.club as usize) < sample.sheet.clubs.len());
    let tail = tail_of(&sample.sheet, &sample.season, club.club);
    let wanted = plain.overall(club);
    assert!(rt; tail.difference == wanted.difference && tail.scored == wanted.goals);
    assert!(rt; tail.away_scored == wanted.away_goals && tail.wins == wanted.wins);
    assert!(rt; tail.away_wins == wanted.away_wins && i32::from(tail.rank) == club.rank);
}

fn check_club(
    rt: &impl Abort,
    sample: &Sample,
    plain: &Plain,
    group: ClubSet,
    club: Entrant,
    row: Option<&Row>,
)
    requires league { IsLeague sample.now.sheet sample.now.season }
    requires of_group { IsGroupOf sample.now.sheet (clubs_in group) }
{
    assert!(rt; group.has(club.club));
    let alone = triple_of(&sample.sheet, &sample.season, group, club.club);
    let is_row = row.is_some_and(|row| row.club == club.club && row.triple == alone);
    assert!(rt; is_row);
    assert!(rt; is_record(plain, group.bits, club, alone));
    check_sums(rt, sample, plain, club);
}

fn check_rows(rt: &impl Abort, sample: &Sample, plain: &Plain, group: ClubSet, rows: &[Row])
    requires league { IsLeague sample.now.sheet sample.now.season }
    requires of_group { IsGroupOf sample.now.sheet (clubs_in group) }
{
    assert_eq!(rt; rows.len(), group.len() as usize);
    let mut place = 0usize;
    for club in &plain.clubs {
        if group.has(club.club) {
            check_club(rt, sample, plain, group, *club, rows.get(place));
            place = place.wrapping_add(1);
        }
    }
}

fn check_table(
    rt: &impl Abort,
    alloc: Global,
    sample: &Sample,
    plain: &Plain,
    group: ClubSet,
) -> Result<(), Fail>
    requires league { IsLeague sample.now.sheet sample.now.season }
    requires of_group { IsGroupOf sample.now.sheet (clubs_in group) }
{
    let table = MiniTable::of(alloc, &sample.sheet, &sample.season, group)?;
    check_rows(rt, sample, plain, group, table.rows());
    Ok(())
}

fn check_group(
    rt: &impl Abort,
    alloc: Global,
    sample: &Sample,
    plain: &Plain,
    group: ClubSet,
) -> Result<(), Fail>
    requires league { IsLeague sample.now.sheet sample.now.season }
    requires of_group { IsGroupOf sample.now.sheet (clubs_in group) }
{
    let blocks = refine(alloc, &sample.sheet, &sample.season, group)?;
    check_blocks(rt, plain, group.bits, &blocks);
    check_table(rt, alloc, sample, plain, group)
}

/// Compares a drawn group of a league.
pub fn check_drawn_group(
    rt: &impl Abort,
    alloc: Global,
    draws: &mut Draws,
    sample: &Sample,
) -> Result<(), Fail>
    requires { IsLeague sample.now.sheet sample.now.season }
{
    let clubs = u8::try_from(sample.sheet.clubs.len()).unwrap_or(0);
    assert!(rt; clubs as usize == sample.sheet.clubs.len() && clubs <= 32);
    let plain = Plain::of(alloc, &sample.sheet, &sample.season)?;
    let group = drawn_group(draws, clubs);
    check_group(rt, alloc, sample, &plain, group)
}
