//! What answers the asks of a cup.

ghost use Rattle.std.specs.Prelude.{ℕ, List, IsTrue, All};
ghost use Rattle.league_core.specs.game.Results.{Results, are_results};
ghost use Rattle.cup_sheet.specs.Cups.{AreSeasonsOf, IsCup};
ghost use Rattle.answer_rows.specs.inside.Outputs.{CountsPut, PutsSomeText};
ghost use Rattle.cup_turns.specs.CupCourses.{CupPlayed, IsPlayedCup};

use answer_rows::OutputStop;
use cup_sheet::Cup;
use league_core::Season;
use port_core::Sink;
use std::alloc::Global;

/// A way to answer the asks of a cup.
pub trait CupAnswers {
    // Which texts answer an ask about what was played of a cup.
    ghost answers: { Self → CupPlayed → List ℕ → Type 0 };

    /// Writes the answer of an ask: `seasons` has a season for each group of the cup, in their
    /// order, and `epoch` is how many events came before.
    fn put<K: Sink>(
        &self,
        alloc: Global,
        cup: &Cup,
        seasons: &[Season],
        epoch: u64,
        sink: &mut K,
    ) -> Result<(), OutputStop>
        requires cup { IsCup cup.now }
        requires of_groups { AreSeasonsOf cup.now.groups seasons.now }
        requires results { All (λ (season : Results). IsTrue (are_results season)) seasons.now }
        ensures text { PutsSomeText
            (answers self.now (record { cup = cup.now; seasons = seasons.now; epoch = epoch }))
            (K.holds sink.old) (K.holds sink.new) result }
        ensures counts { CountsPut (K.faults sink.old) (K.faults sink.new) result };

    // Each ask has an answer.
    ghost answered: { (own : Self) (played : CupPlayed) → IsPlayedCup played
        → (text : List ℕ) × answers own played text };
}
