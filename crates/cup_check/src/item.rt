//! What comes after the row of a club, by its word.

ghost use Rattle.std.specs.Prelude.{◌≡◌, ◌<◌, ◌≤◌, [], ◌∷◌, IfOk, length};
ghost use Rattle.cup_sheet.specs.Cups.{clubs_together};
ghost use Rattle.cert_check.specs.inside.Calls as calls;
ghost use Rattle.cup_grammar.specs.CupDues.{club_row, finish_head};
ghost use Rattle.cup_grammar.specs.CupExpected.{dues_of_cup_word};
ghost use Rattle.cup_check.specs.inside.CupGoes.{GoesAfterInCup, GoesOverCup};

use crate::claimed_side::{ClaimedSide, inside_of, outside_of};
use crate::report::CupReport;
use cert_check::{CheckStopAt, PartRead};
use line_tokens::RowWord;

impl<'a> CupReport<'a> {
    /// The item of a club: its row, and what its word asks for.
    pub fn item(&self, from: usize, club: u8) -> Result<PartRead, CheckStopAt>
        requires room { from ≤ length self.now.tokens }
        requires in_range { club < clubs_together self.now.basis.cup.groups }
        ensures goes { GoesOverCup self.now from (club_row club ∷ []) result }
        ensures few { IfOk result (λ found. found.unsettled ≤ 1) }
    {
        let (at, word) = self.club_row(from, club)?;
        let next = self.behind(at, club, word)?;
        let unsettled = unsettled_in(word);
        Ok(PartRead { next, unsettled })
    }

    // What the word asks for.
    fn behind(&self, from: usize, club: u8, word: RowWord) -> Result<usize, CheckStopAt>
        requires room { from ≤ length self.now.tokens }
        requires in_range { club < clubs_together self.now.basis.cup.groups }
        ensures { GoesAfterInCup self.now from (dues_of_cup_word club word) result }
    {
        match word {
            RowWord::Clinched => self.refuted_side(from, outside_of(club)),
            RowWord::Lost => self.refuted_side(from, inside_of(club)),
            RowWord::Possible => self.two_finishes(from, inside_of(club), outside_of(club)),
            RowWord::Unsettled => self.both_parts(from, club),
        }
    }

    // A joint finish for each side.
    fn two_finishes(
        &self,
        from: usize,
        inside: ClaimedSide,
        outside: ClaimedSide,
    ) -> Result<usize, CheckStopAt>
        requires room { from ≤ length self.now.tokens }
        requires inside { inside.club < clubs_together self.now.basis.cup.groups }
        requires outside { outside.club < clubs_together self.now.basis.cup.groups }
        ensures { GoesAfterInCup self.now from (finish_head inside.claim inside.club
            ∷ finish_head outside.claim outside.club ∷ []) result }
    {
        let at = self.finish(from, inside)?;
        self.finish(at, outside)
    }
}

fn unsettled_in(word: RowWord) -> u32
    ensures { result ≡ calls.unsettled_in word }
{
    match word {
        RowWord::Unsettled => 1,
        _ => 0,
    }
}
