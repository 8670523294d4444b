//! The answer of a cup on its way to the sink: the row of the ask, and the items of all clubs.

ghost use Rattle.answer_rows.specs.Parts.{IsMadeOf};
ghost use Rattle.answer_rows.specs.inside.Outputs.{CountsPut, PutsSomeText};
ghost use Rattle.cup_sheet.specs.Cups.{IsCup, AreSeasonsOf};
ghost use Rattle.std.specs.Prelude.{All};
ghost use Rattle.cup_answers.specs.CupTexts.{IsCupItemText, IsGroupsText};
ghost use Rattle.cup_rows.specs.inside.FoundClubs.{AreFoundClubs, IsFoundClub, found_clubs};

use crate::found::FoundClub;
use crate::put::put_cup_item;
use answer_rows::{OutputStop, put_ask};
use cup_sheet::Cup;
use league_core::Season;
use port_core::Sink;
use std::alloc::Global;

/// What is known of a cup after so many events.
#[derive(Drop)]
pub struct CupAnswer {
    pub epoch: u64,
    /// All clubs, in the order of the cup.
    pub clubs: Vec<FoundClub>,
}

/// Writes the row of the ask and the item of each club, with refutations if proofs are asked for.
/// After a stop a prefix of an answer went out, perhaps nothing.
pub fn put_cup_answer<K: Sink>(
    alloc: Global,
    proofs: bool,
    cup: &Cup,
    seasons: &[Season],
    answer: &CupAnswer,
    sink: &mut K,
) -> Result<(), OutputStop>
    requires cup { IsCup cup.now }
    requires seasons { AreSeasonsOf cup.now.groups seasons.now }
    requires found { AreFoundClubs cup.now seasons.now answer.now.clubs.items }
    ensures text { PutsSomeText (IsGroupsText proofs cup.now seasons.now answer.now.epoch)
        (K.holds sink.old) (K.holds sink.new) result }
    ensures counts { CountsPut (K.faults sink.old) (K.faults sink.new) result }
{
    match put_ask(alloc, answer.epoch, sink) {
        Ok(()) => put_items(alloc, proofs, cup, seasons, answer.clubs.as_slice(), sink),
        Err(stop) => Err(stop),
    }
}

fn put_items<K: Sink>(
    alloc: Global,
    proofs: bool,
    cup: &Cup,
    seasons: &[Season],
    clubs: &[FoundClub],
    sink: &mut K,
) -> Result<(), OutputStop>
    requires cup { IsCup cup.now }
    requires seasons { AreSeasonsOf cup.now.groups seasons.now }
    requires found { All (IsFoundClub cup.now seasons.now) clubs.now }
    ensures text { PutsSomeText
        (IsMadeOf (IsCupItemText proofs cup.now seasons.now) (found_clubs clubs.now))
        (K.holds sink.old) (K.holds sink.new) result }
    ensures counts { CountsPut (K.faults sink.old) (K.faults sink.new) result }
{
    for found in clubs {
        match put_cup_item(alloc, proofs, cup, seasons, found, sink) {
            Ok(()) => {}
            Err(stop) => return Err(stop),
        }
    }
    Ok(())
}
