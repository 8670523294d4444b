//! What each choice of outcomes comes to, in a table.

ghost use Rattle.std.specs.Prelude.{◌≡◌, ◌||◌, not, if◌then◌else◌};
ghost use Rattle.score_box.specs.declared.cell.Cell.{Cell};
ghost use Rattle.score_box.specs.inside.Cells.{at_most_one};
ghost use Rattle.score_box.specs.inside.Points.{AreOutcomesLeft, AreWorth};

use super::left::OutcomesLeft;
use super::outcomes::MatchPoints;

/// What a fixture leaves each of its sides alone; `empty` is 1 if it has no score left, `several`
/// if it has scores of several outcomes, and else they are 0. They are as wide as the counts that
/// they are added to: so a row is read number by number, and not taken apart out of one word.
#[derive(Clone, Copy)]
pub struct Worth {
    pub home: MatchPoints,
    pub away: MatchPoints,
    pub empty: usize,
    pub several: usize,
}

// By the outcomes that are left: 1 for a home win, 2 for a draw and 4 for an away win, added.
static WORTHS: [Worth; 8] = [
    Worth {
        home: MatchPoints { least: 0, most: 0 },
        away: MatchPoints { least: 0, most: 0 },
        empty: 1,
        several: 0,
    },
    Worth {
        home: MatchPoints { least: 3, most: 3 },
        away: MatchPoints { least: 0, most: 0 },
        empty: 0,
        several: 0,
    },
    Worth {
        home: MatchPoints { least: 1, most: 1 },
        away: MatchPoints { least: 1, most: 1 },
        empty: 0,
        several: 0,
    },
    Worth {
        home: MatchPoints { least: 1, most: 3 },
        away: MatchPoints { least: 0, most: 1 },
        empty: 0,
        several: 1,
    },
    Worth {
        home: MatchPoints { least: 0, most: 0 },
        away: MatchPoints { least: 3, most: 3 },
        empty: 0,
        several: 0,
    },
    Worth {
        home: MatchPoints { least: 0, most: 3 },
        away: MatchPoints { least: 0, most: 3 },
        empty: 0,
        several: 1,
    },
    Worth {
        home: MatchPoints { least: 0, most: 1 },
        away: MatchPoints { least: 1, most: 3 },
        empty: 0,
        several: 1,
    },
    Worth {
        home: MatchPoints { least: 0, most: 3 },
        away: MatchPoints { least: 0, most: 3 },
        empty: 0,
        several: 1,
    },
];

impl OutcomesLeft {
    /// What the cell comes to.
    pub(crate) fn worth(self) -> Worth
        ensures points { (cell : Cell) → AreOutcomesLeft cell self → AreWorth cell result }
        ensures empty { result.empty
            ≡ (if not (self.home_win || self.draw || self.away_win) then 1 else 0) }
        ensures several { result.several
            ≡ (if not (at_most_one self.home_win self.draw self.away_win) then 1 else 0) }
    {
        row_of(self.home_win, self.draw, self.away_win)
    }
}

fn row_of(home_win: bool, draw: bool, away_win: bool) -> Worth
    ensures home_least { result.home.least
        ≡ (if away_win then 0 else if draw then 1 else if home_win then 3 else 0) }
    ensures home_most { result.home.most ≡ (if home_win then 3 else if draw then 1 else 0) }
    ensures away_least { result.away.least
        ≡ (if home_win then 0 else if draw then 1 else if away_win then 3 else 0) }
    ensures away_most { result.away.most ≡ (if away_win then 3 else if draw then 1 else 0) }
    ensures empty { result.empty ≡ (if not (home_win || draw || away_win) then 1 else 0) }
    ensures several { result.several ≡ (if not (at_most_one home_win draw away_win) then 1 else 0) }
{
    let number = usize::from(home_win) + 2 * usize::from(draw) + 4 * usize::from(away_win);
    WORTHS[number]
}
