//! Drawn leagues, as text.

ghost use Rattle.std.specs.Prelude.{◌≤◌};

use crate::draws::Draws;
use std::alloc::Global;
use std::io;
use std::io::Write;

/// A league of so many clubs and matches, in either order of the criteria. Scores are low and ranks
/// tie, so that clubs are often level; some have points deducted. At most `open` matches are open.
pub fn drawn_league(
    alloc: Global,
    draws: &mut Draws,
    clubs: u8,
    matches: u8,
    open: u8,
) -> io::Result<Vec<u8>>
    requires some { 2 ≤ clubs }
{
    let mut text = Vec::new(alloc);
    let order = if draws.flip() {
        "head_first"
    } else {
        "overall_first"
    };
    write!(text, "league,Drawn,1,2000,{order}\n")?;
    for club in 0..clubs {
        let rank = draws.below(3);
        write!(text, "club,C{club},{}\n", rank + 1)?;
    }
    for _ in 0..matches {
        let home = draws.below(clubs);
        let step = draws.below(clubs - 1);
        let away = (u16::from(home) + 1 + u16::from(step)) % u16::from(clubs);
        write!(text, "match,C{home},C{away}\n")?;
    }
    text.extend_from_slice(b"line,1\nseason\n")?;
    push_results(&mut text, draws, matches, open)?;
    push_deductions(&mut text, draws, clubs)?;
    Ok(text)
}

fn push_results(text: &mut Vec<u8>, draws: &mut Draws, matches: u8, open: u8) -> io::Result<()> {
    let mut left = open;
    for played in 0..matches {
        let number = u16::from(played) + 1;
        let (home, away) = (draws.below(3), draws.below(3));
        if draws.flip() && 0 < left {
            left -= 1;
        } else {
            write!(text, "result,{number},{home},{away}\n")?;
        }
    }
    Ok(())
}

fn push_deductions(text: &mut Vec<u8>, draws: &mut Draws, clubs: u8) -> io::Result<()> {
    for club in 0..clubs {
        let points = draws.below(3);
        if draws.below(4) == 0 {
            write!(text, "deduct,C{club},{points}\n")?;
        }
    }
    Ok(())
}
