//! Reaches over every finish of drawn leagues, beside the plain program.

ghost use Rattle.league_core.specs.game.Seasons.{IsLeague};

use crate::plain::{Entrant, Plain};
use crate::ranking::count_around;
use reference_programs::{Reach, finish_count, reaches};
use sample_leagues::Sample;
use std::alloc::Global;
use std::process::Abort;
use std::test::Fail;

// The least and the greatest place over all finishes and lots.
fn plain_reach(plain: &mut Plain, count: u32, club: Entrant) -> Result<(u8, u8), Fail> {
    let (mut best, mut worst) = (u8::MAX, 0u8);
    for number in 0..count {
        plain.end(number)?;
        let counted = count_around(plain, club);
        best = best.min(counted.best());
        worst = worst.max(counted.worst());
    }
    Ok((best, worst))
}

fn compare_reaches(
    rt: &impl Abort,
    plain: &mut Plain,
    count: u32,
    found: &[Reach],
    round: u32,
) -> Result<(), Fail> {
    assert_eq!(rt; count, plain.finishes(), "league {round}");
    assert_eq!(rt; found.len(), plain.clubs.len(), "league {round}");
    for (place, reach) in found.iter().enumerate() {
        compare_reach(rt, plain, count, place, reach, round)?;
    }
    Ok(())
}

fn compare_reach(
    rt: &impl Abort,
    plain: &mut Plain,
    count: u32,
    place: usize,
    reach: &Reach,
    round: u32,
) -> Result<(), Fail> {
    let club = plain.clubs.get(place).copied().ok_or("no club")?;
    let (best, worst) = plain_reach(plain, count, club)?;
    assert!(rt;
        reach.best == best && reach.worst == worst,
        "league {round}"
    );
    Ok(())
}

fn check_reaches(
    rt: &impl Abort,
    alloc: Global,
    sample: &Sample,
    plain: &mut Plain,
    round: u32,
) -> Result<(), Fail>
    requires { IsLeague sample.now.sheet sample.now.season }
{
    let Some(count) = finish_count(&sample.sheet, &sample.season) else {
        return Err("too many finishes".into());
    };
    let found = reaches(alloc, &sample.sheet, &sample.season)?;
    compare_reaches(rt, plain, count, found.as_slice(), round)
}

/// Compares the reaches of a league.
pub fn check_drawn_reaches(
    rt: &impl Abort,
    alloc: Global,
    sample: &Sample,
    round: u32,
) -> Result<(), Fail>
    requires { IsLeague sample.now.sheet sample.now.season }
{
    let mut plain = Plain::of(alloc, &sample.sheet, &sample.season)?;
    check_reaches(rt, alloc, sample, &mut plain, round)
}
