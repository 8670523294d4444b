//! The mode `groups`: the asks of a cup are answered.

ghost use Rattle.std.specs.Prelude.{IfOk};
ghost use Rattle.cup_sheet.specs.Cups.{AreSeasonsOf, IsCup};
ghost use Rattle.cup_rows.specs.inside.FoundClubs.{AreFoundClubs};

use answer_rows::OutputStop;
use cup_groups::club_count;
use cup_rows::{CupAnswer, FoundClub, put_cup_answer};
use cup_sheet::Cup;
use cup_sides::club_finding;
use cup_turns::CupAnswers;
use league_core::{OutOfMemory, Season};
use port_core::Sink;
use std::alloc::Global;

/// The answers of the mode `groups`, with refutations if proofs are asked for. All clubs are
/// searched before the first row goes out.
#[derive(Clone, Copy)]
pub struct GroupAnswers {
    pub proofs: bool,
}

impl CupAnswers for GroupAnswers {
    ghost use Rattle.futmax_main.specs.CupModes.{IsGroupsAnswer};
    ghost use Rattle.cup_decided.proofs.CupAnswerLemmas.{cup_has_answer};

    ghost answers = { λ own. IsGroupsAnswer own.proofs };

    fn put<K: Sink>(
        &self,
        alloc: Global,
        cup: &Cup,
        seasons: &[Season],
        epoch: u64,
        sink: &mut K,
    ) -> Result<(), OutputStop> {
        match find_clubs(alloc, cup, seasons) {
            Ok(clubs) => {
                let answer = CupAnswer { epoch, clubs };
                put_cup_answer(alloc, self.proofs, cup, seasons, &answer, sink)
            }
            Err(_) => Err(OutputStop::OutOfMemory),
        }
    }

    ghost answered = { λ own played is.
        cup_has_answer own.proofs played.cup played.seasons played.epoch is.cup is.of_groups
        is.results };
}

// What is found of each club, in the order of the cup.
fn find_clubs(alloc: Global, cup: &Cup, seasons: &[Season]) -> Result<Vec<FoundClub>, OutOfMemory>
    requires cup { IsCup cup.now }
    requires seasons { AreSeasonsOf cup.now.groups seasons.now }
    ensures { IfOk result (λ clubs. AreFoundClubs cup.now seasons.now clubs.items) }
{
    let mut clubs = Vec::new(alloc);
    for club in 0..club_count(cup) {
        let finding = club_finding(alloc, cup, seasons, club)?;
        clubs.push(FoundClub { club, finding })?;
    }
    Ok(clubs)
}
