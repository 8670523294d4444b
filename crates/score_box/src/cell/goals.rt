//! The goals of the scores in a cell, outcome by outcome. Here a cell is shown to have a score of
//! an outcome, or none: whether it is empty, or has one score alone, is read off from that.

ghost use Rattle.std.specs.Prelude.{◌≡◌, IsTrue, ◌↔◌, MatchOption, IfSome};
ghost use Rattle.league_core.specs.declared.season.Score.{Score};
ghost use Rattle.league_core.specs.search.Options.{score_of, is_home_win, is_draw, is_away_win};
ghost use Rattle.score_box.specs.inside.Cells.{allows, IsAllowed, AllowsNone, IsScoreRangeOf, IsAt};
ghost use Rattle.score_box.specs.inside.Cells.{IsEmptyCell, HasOneScore, HasOneOutcome};
ghost use Rattle.score_box.specs.inside.Cells.{at_most_one};

use super::Cell;
use league_core::Score;

/// The least and the most goals of each side over the scores of one outcome.
#[derive(Clone, Copy, Debug, PartialEq, Eq)]
pub struct ScoreRange {
    pub home_least: u8,
    pub home_most: u8,
    pub away_least: u8,
    pub away_most: u8,
}

impl ScoreRange {
    /// All the goals are those of this score.
    pub fn are_of(&self, score: &Score) -> bool
        ensures { IsTrue result ↔ IsAt score.now self.now }
    {
        self.home_least == score.home
            && self.home_most == score.home
            && self.away_least == score.away
            && self.away_most == score.away
    }
}

impl Cell {
    /// The goals of the home wins in the cell; `None` if it has none. The widest win is one of
    /// them.
    pub fn home_wins(&self) -> Option<ScoreRange>
        ensures goals { MatchOption result (AllowsNone self.now is_home_win)
            (IsScoreRangeOf self.now is_home_win) }
        ensures widest { IfSome result
            (λ goals. IsAllowed self.now is_home_win (score_of goals.home_most goals.away_least)) }
    {
        if self.home_win
            && self.home_least <= self.home_most
            && self.away_least <= self.away_most
            && self.away_least < self.home_most
        {
            Some(ScoreRange {
                home_least: self.home_least.max(self.away_least + 1),
                home_most: self.home_most,
                away_least: self.away_least,
                away_most: self.away_most.min(self.home_most - 1),
            })
        } else {
            None
        }
    }

    /// The goals of the draws in the cell; `None` if it has none. The least of them is one.
    pub fn draws(&self) -> Option<ScoreRange>
        ensures goals { MatchOption result (AllowsNone self.now is_draw)
            (IsScoreRangeOf self.now is_draw) }
        ensures least { IfSome result
            (λ goals. IsAllowed self.now is_draw (score_of goals.home_least goals.away_least)) }
    {
        let least = self.home_least.max(self.away_least);
        let most = self.home_most.min(self.away_most);
        if self.draw && least <= most {
            Some(ScoreRange {
                home_least: least,
                home_most: most,
                away_least: least,
                away_most: most,
            })
        } else {
            None
        }
    }

    /// The goals of the away wins in the cell; `None` if it has none. The widest win is one of
    /// them.
    pub fn away_wins(&self) -> Option<ScoreRange>
        ensures goals { MatchOption result (AllowsNone self.now is_away_win)
            (IsScoreRangeOf self.now is_away_win) }
        ensures widest { IfSome result
            (λ goals. IsAllowed self.now is_away_win (score_of goals.home_least goals.away_most)) }
    {
        if self.away_win
            && self.home_least <= self.home_most
            && self.away_least <= self.away_most
            && self.home_least < self.away_most
        {
            Some(ScoreRange {
                home_least: self.home_least,
                home_most: self.home_most.min(self.away_most - 1),
                away_least: self.away_least.max(self.home_least + 1),
                away_most: self.away_most,
            })
        } else {
            None
        }
    }

    /// A score that is left, or none.
    pub fn first(&self) -> Option<Score>
        ensures { MatchOption result (IsEmptyCell self.now)
            (λ score. IsTrue (allows self.now score)) }
    {
        if let Some(goals) = self.home_wins() {
            return Some(Score {
                home: goals.home_most,
                away: goals.away_least,
            });
        }
        if let Some(goals) = self.draws() {
            return Some(Score {
                home: goals.home_least,
                away: goals.away_least,
            });
        }
        let goals = self.away_wins()?;
        Some(Score {
            home: goals.home_least,
            away: goals.away_most,
        })
    }

    /// No score is left.
    pub fn is_empty(&self) -> bool
        ensures { IsTrue result ↔ IsEmptyCell self.now }
    {
        self.first().is_none()
    }

    /// One score alone is left.
    pub fn is_single(&self) -> bool
        ensures { IsTrue result ↔ HasOneScore self.now }
    {
        match self.first() {
            Some(score) => self.has_no_other(&score),
            None => false,
        }
    }

    /// All scores that are left have one outcome; a cell without any is no exception.
    pub fn has_one_outcome(&self) -> bool
        ensures { IsTrue result ↔ HasOneOutcome self.now }
    {
        let home_wins = self.home_wins().is_some();
        let draws = self.draws().is_some();
        let away_wins = self.away_wins().is_some();
        at_most_one(home_wins, draws, away_wins)
    }

    fn has_no_other(&self, score: &Score) -> bool
        ensures { IsTrue result
            ↔ ((other : Score) → IsTrue (allows self.now other) → score.now ≡ other) }
    {
        let home = are_at(self.home_wins(), score);
        let draws = are_at(self.draws(), score);
        let away = are_at(self.away_wins(), score);
        home & draws & away
    }
}

// The goals of an outcome, if it has any, are those of the score alone.
fn are_at(goals: Option<ScoreRange>, score: &Score) -> bool
    ensures { IsTrue result ↔ IfSome goals (IsAt score.now) }
{
    match goals {
        Some(ends) => ends.are_of(score),
        None => true,
    }
}

fn at_most_one(first: bool, second: bool, third: bool) -> bool
    ensures { result ≡ at_most_one first second third }
{
    !(first && second) && !(first && third) && !(second && third)
}
