//! Which outcomes a cell has left, looked up once for all that rests on them.

ghost use Rattle.std.specs.Prelude.{◌≡◌, ◌||◌, not, pos, neg_ℤ, ◌≤ℤ◌, List};
ghost use Rattle.league_core.specs.declared.season.Score.{Score};
ghost use Rattle.score_box.specs.declared.cell.Cell.{Cell};
ghost use Rattle.score_box.specs.inside.Cells.{IsCellOf};
ghost use Rattle.score_box.specs.inside.Points.{AreOutcomesLeft, IsPointsOf, beyond_sides};

use super::PointRange;
use super::outcomes::{MatchPoints, least_of, most_of};
use crate::cell::Cell;

/// Whether a cell has a home win, a draw, an away win.
#[derive(Clone, Copy)]
pub struct OutcomesLeft {
    pub home_win: bool,
    pub draw: bool,
    pub away_win: bool,
}

impl OutcomesLeft {
    /// The outcomes that the cell has a score of, however it keeps them.
    pub fn of(cell: &Cell) -> OutcomesLeft
        ensures { AreOutcomesLeft cell.now result }
    {
        let home_win = cell.home_wins().is_some();
        let draw = cell.draws().is_some();
        let away_win = cell.away_wins().is_some();
        OutcomesLeft {
            home_win,
            draw,
            away_win,
        }
    }

    /// The cell has no score.
    pub fn are_none(self) -> bool
        ensures { result ≡ not (self.home_win || self.draw || self.away_win) }
    {
        !(self.home_win || self.draw || self.away_win)
    }

    /// What the cell leaves to the sides that count; nothing if no score is left.
    pub fn points(self, home: bool, away: bool) -> MatchPoints
        ensures { (cell : Cell) → AreOutcomesLeft cell self → IsPointsOf cell home away result }
    {
        if self.are_none() {
            MatchPoints::NONE
        } else {
            MatchPoints {
                least: least_of(self.home_win, self.draw, self.away_win, home, away),
                most: most_of(self.home_win, self.draw, self.away_win, home, away),
            }
        }
    }

    /// What the cell leaves both sides together, beyond what it leaves each of them alone.
    pub(crate) fn beyond(self) -> PointRange
        ensures beyond { (cell : Cell) (options : List Score) → AreOutcomesLeft cell self
            → IsCellOf cell options
            → (result.least ≡ beyond_sides (λ range. range.least) options)
            × (result.most ≡ beyond_sides (λ range. range.greatest) options) }
        ensures near { (cell : Cell) → AreOutcomesLeft cell self
            → ((neg_ℤ (pos 6) ≤ℤ result.least) × (result.least ≤ℤ pos 6))
            × ((neg_ℤ (pos 6) ≤ℤ result.most) × (result.most ≤ℤ pos 6)) }
    {
        let both = self.points(true, true);
        let alone = self.worth();
        PointRange {
            least: i32::from(both.least)
                - i32::from(alone.home.least)
                - i32::from(alone.away.least),
            most: i32::from(both.most) - i32::from(alone.home.most) - i32::from(alone.away.most),
        }
    }
}
