//! What clubs are compared by, and the comparison.

ghost use Rattle.std.specs.Prelude.{◌≡◌};
ghost use Rattle.score_box.specs.inside.Totals.{totals_at};
ghost use Rattle.example_finish.specs.inside.ProposedTotals.{by_criterion};

use league_core::{Season, Sheet};
use score_box::Totals;
use std::cmp::Ordering;
use tie_criteria::{Tail, Triple};

/// What two clubs are compared by, the greater first.
#[derive(Clone, Copy)]
pub enum Criterion {
    /// Points, then difference, then goals.
    Record,
    /// Difference, then goals.
    Goals,
    /// Difference, goals, away goals, wins and away wins, then the lower rank.
    Overall,
}

/// A criterion over a table of sums by the clubs' numbers.
#[derive(Clone, Copy)]
pub struct Comparison<'a> {
    pub criterion: Criterion,
    pub sheet: &'a Sheet,
    pub season: &'a Season,
    pub table: &'a [Totals],
}

impl<'a> Comparison<'a> {
    /// `Less` if the club comes before the other.
    pub fn order(&self, club: u8, other: u8) -> Ordering
        ensures { result ≡ by_criterion self.now.criterion self.now.sheet.now
            self.now.season.now self.now.table.now club other }
    {
        let one = totals_at(self.table, club);
        let two = totals_at(self.table, other);
        match self.criterion {
            Criterion::Record => record_of(&one).order(&record_of(&two)),
            Criterion::Goals => record_of(&one).order_by_goals(&record_of(&two)),
            Criterion::Overall => {
                let tail = tail_of(&one, self.sheet.rank_of(club));
                tail.order(&tail_of(&two, self.sheet.rank_of(other)))
            }
        }
    }
}

/// The sums at a club's number.
pub fn totals_at(table: &[Totals], club: u8) -> Totals
    ensures { result ≡ totals_at table.now club }
{
    table.get(club as usize).copied().unwrap_or(Totals::NONE)
}

fn record_of(totals: &Totals) -> Triple
    ensures { result ≡ record {
      points = totals.now.points;
      difference = totals.now.difference;
      scored = totals.now.goals;
    } }
{
    Triple {
        points: totals.points,
        difference: totals.difference,
        scored: totals.goals,
    }
}

fn tail_of(totals: &Totals, rank: u16) -> Tail
    ensures { result ≡ record {
      difference = totals.now.difference;
      scored = totals.now.goals;
      away_scored = totals.now.away_goals;
      wins = totals.now.wins;
      away_wins = totals.now.away_wins;
      rank = rank;
    } }
{
    Tail {
        difference: totals.difference,
        scored: totals.goals,
        away_scored: totals.away_goals,
        wins: totals.wins,
        away_wins: totals.away_wins,
        rank,
    }
}
