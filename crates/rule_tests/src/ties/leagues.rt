//! Leagues of four clubs, A to D, as text.

ghost use Rattle.std.specs.Prelude.{IfOk};
ghost use Rattle.league_core.specs.game.Seasons.{IsLeague};

use crate::drawn_boxes::league_in;
use league_core::Order;
use sample_leagues::Sample;
use std::alloc::Global;
use std::io;
use std::io::Write;
use std::test::Fail;

/// Home and away club; H, D or A for the outcome, another letter for none; the least and the most
/// goals of the home side, and those of the away side.
pub type Game = (u8, u8, char, (u8, u8), (u8, u8));

fn word_of(order: Order) -> &'static str {
    match order {
        Order::HeadFirst => "head_first",
        Order::OverallFirst => "overall_first",
    }
}

fn name_of(club: u8) -> &'static str {
    match club {
        0 => "A",
        1 => "B",
        2 => "C",
        _ => "D",
    }
}

fn write_league(text: &mut Vec<u8>, order: Order, games: &[Game]) -> io::Result<()> {
    let word = word_of(order);
    write!(text, "league,Group,9,1,{word}\n")?;
    text.extend_from_slice(b"club,A,1\nclub,B,2\nclub,C,3\nclub,D,4\n")?;
    for game in games {
        let (home, away) = (name_of(game.0), name_of(game.1));
        write!(text, "match,{home},{away}\n")?;
    }
    Ok(text.extend_from_slice(b"season\n")?)
}

fn text_of(alloc: Global, order: Order, games: &[Game]) -> Result<Vec<u8>, Fail> {
    let mut text = Vec::new(alloc);
    write_league(&mut text, order, games)?;
    Ok(text)
}

/// The league of these matches, none of which is played.
pub fn league_of(alloc: Global, order: Order, games: &[Game]) -> Result<Sample, Fail>
    ensures { IfOk result (λ sample. IsLeague sample.sheet sample.season) }
{
    let text = text_of(alloc, order, games)?;
    league_in(alloc, &text)
}
