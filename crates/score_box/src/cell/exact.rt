//! The outcomes that a cell keeps. A cell of a box keeps those alone that it has a score of, so
//! that a look shows which ones are left.

ghost use Rattle.std.specs.Prelude.{◌≡◌, ◌&&◌, IsTrue};
ghost use Rattle.league_core.specs.declared.season.Score.{Score};
ghost use Rattle.league_core.specs.game.Finishes.{same_score};
ghost use Rattle.league_core.specs.search.Zones.{is_as_said, is_of_score, passes};
ghost use Rattle.score_box.specs.inside.Cells.{allows, IsExactCell};
ghost use Rattle.score_box.specs.inside.Points.{AreOutcomesLeft};

use super::Cell;
use crate::points::OutcomesLeft;
use league_core::{Literal, Score, Test};

impl Cell {
    /// This score alone, and its outcome alone.
    pub(crate) fn played(score: Score) -> Cell
        ensures scores { (other : Score) → allows result other ≡ same_score score other }
        ensures exact { IsExactCell result }
    {
        Cell {
            home_win: score.home > score.away,
            draw: score.home == score.away,
            away_win: score.home < score.away,
            home_least: score.home,
            home_most: score.home,
            away_least: score.away,
            away_most: score.away,
        }
    }

    /// The outcomes that an exact cell has left.
    pub(crate) fn left(&self) -> OutcomesLeft
        requires { IsExactCell self.now }
        ensures { AreOutcomesLeft self.now result }
    {
        OutcomesLeft {
            home_win: self.home_win,
            draw: self.draw,
            away_win: self.away_win,
        }
    }

    /// Drops the outcomes that the cell has no score of.
    pub(crate) fn mend(&mut self)
        ensures scores { (score : Score) → allows self.new score ≡ allows self.old score }
        ensures exact { IsExactCell self.new }
    {
        let left = OutcomesLeft::of(self);
        self.home_win = left.home_win;
        self.draw = left.draw;
        self.away_win = left.away_win;
    }

    /// Leaves the scores of an exact cell that make a literal of its fixture's score true. A cut by
    /// an outcome drops outcomes alone, so that nothing is to be mended.
    pub(crate) fn cut_exact(&mut self, literal: &Literal)
        requires of_score { IsTrue (is_of_score literal.now.test) }
        requires exact { IsExactCell self.old }
        ensures scores { (score : Score) → allows self.new score ≡ (allows self.old score
            && is_as_said literal.now.yes (passes literal.now.test score)) }
        ensures exact { IsExactCell self.new }
    {
        match literal.test {
            Test::Home { .. } => self.cut_home_win(literal.yes),
            Test::Draw { .. } => self.cut_draw(literal.yes),
            _ => {
                self.cut(literal);
                self.mend();
            }
        }
    }
}
