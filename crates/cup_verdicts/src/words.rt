//! The words of a cup of which nothing is played, worked by hand: each club can win its group, and
//! each can come in last in it.

ghost use Rattle.cup_sheet.specs.Cups.{IsCup};

use crate::verdicts::{CupVerdict, cup_verdicts};
use answer_rows::Word;
use cup_feed::{joint_sheet, seasons_of};
use cup_sheet::{Cup, read_cup};
use league_core::Season;
use port_core::{LineReader, MemSource};
use std::alloc::Global;
use std::test::Fail;

const CUP: &[u8] = b"cup,Mini,1,200,1\ngroup,One\nclub,A,1\nclub,B,2\nclub,C,3\nmatch,A,B\n\
    match,A,C\nmatch,B,C\ngroup,Two\nclub,D,4\nclub,E,5\nclub,F,6\nmatch,D,E\nmatch,D,F\n\
    match,E,F\nseason\n";

// How many verdicts there are, if each is open and shown.
fn open_clubs(alloc: Global, cup: &Cup) -> Result<usize, Fail>
    requires { IsCup cup.now }
{
    let sheet = joint_sheet(alloc, cup)?;
    let season = Season::unplayed(alloc, sheet.clubs.len(), sheet.fixtures.len())?;
    let seasons = seasons_of(alloc, cup, &season)?;
    let verdicts = cup_verdicts(alloc, cup, seasons.as_slice())?;
    for verdict in verdicts.as_slice() {
        if !is_open(verdict) {
            return Err("a club is not open".into());
        }
    }
    Ok(verdicts.len())
}

fn is_open(verdict: &CupVerdict) -> bool {
    matches!(verdict.word, Word::Possible) && !verdict.proof.is_empty()
}

fn told(alloc: Global) -> Result<usize, Fail> {
    let mut source = MemSource::new(Vec::from_slice(alloc, CUP)?, 1024, Vec::new(alloc));
    let mut reader = LineReader::new(alloc)?;
    match read_cup(alloc, &mut reader, &mut source) {
        Ok(cup) => open_clubs(alloc, &cup),
        Err(_) => Err("no cup".into()),
    }
}

#[test]
fn an_unplayed_cup_is_open_for_each_club(rt: HostRuntime) -> Result<(), Fail> {
    assert!(rt; told(rt.alloc())? == 6);
    Ok(())
}
