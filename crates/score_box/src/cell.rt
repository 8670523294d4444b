//! The scores that are still open for one fixture. Each call takes a fixed number of steps.

ghost use Rattle.std.specs.Prelude.{◌≡◌, ◌&&◌, nat_le, IsTrue, ◌↔◌, true, false, if◌then◌else◌};
ghost use Rattle.league_core.specs.declared.season.Score.{Score};
ghost use Rattle.league_core.specs.game.Finishes.{same_score};
ghost use Rattle.league_core.specs.search.Zones.{passes, is_as_said, is_of_score};
ghost use Rattle.league_core.specs.search.Options.{is_home_win, is_draw};
ghost use Rattle.score_box.specs.inside.Cells.{allows, is_within, keeps_outcome, IsEmptyCell};
ghost use Rattle.score_box.specs.inside.Cells.{with_outcomes};

mod exact;
mod goals;

pub use goals::ScoreRange;
use league_core::{Literal, Score, Test};

/// A set of scores: those whose outcome is kept and whose goals are in the two ranges. Contracts
/// see the set.
#[derive(Clone, Copy, Debug)]
pub struct Cell {
    home_win: bool,
    draw: bool,
    away_win: bool,
    home_least: u8,
    home_most: u8,
    away_least: u8,
    away_most: u8,
}

impl Cell {
    /// Every score with at most so many goals on each side.
    pub fn any(goal_limit: u8) -> Cell
        ensures { (score : Score) → allows result score
            ≡ (nat_le score.home goal_limit && nat_le score.away goal_limit) }
    {
        Cell {
            home_win: true,
            draw: true,
            away_win: true,
            home_least: 0,
            home_most: goal_limit,
            away_least: 0,
            away_most: goal_limit,
        }
    }

    /// This score alone, whatever the goal limit.
    pub fn only(score: Score) -> Cell
        ensures { (other : Score) → allows result other ≡ same_score score other }
    {
        Cell {
            home_win: true,
            draw: true,
            away_win: true,
            home_least: score.home,
            home_most: score.home,
            away_least: score.away,
            away_most: score.away,
        }
    }

    /// No score.
    pub fn none() -> Cell
        ensures { IsEmptyCell result }
    {
        let mut cell = Cell::any(0);
        cell.cut_all();
        cell
    }

    /// The cell has this score.
    pub fn allows(&self, score: &Score) -> bool
        ensures { result ≡ allows self.now score.now }
    {
        is_within(self.home_least, self.home_most, score.home)
            && is_within(self.away_least, self.away_most, score.away)
            && self.keeps_outcome(score)
    }

    /// Leaves the scores that make a literal of this fixture's score true.
    pub fn cut(&mut self, literal: &Literal)
        requires { IsTrue (is_of_score literal.now.test) }
        ensures { (score : Score) → allows self.new score ≡ (allows self.old score
            && is_as_said literal.now.yes (passes literal.now.test score)) }
    {
        match literal.test {
            Test::Home { .. } => self.cut_home_win(literal.yes),
            Test::Draw { .. } => self.cut_draw(literal.yes),
            Test::HomeMost { most, .. } => self.cut_home_most(most, literal.yes),
            Test::AwayMost { most, .. } => self.cut_away_most(most, literal.yes),
            Test::Rival { .. } => unreachable!(),
        }
    }

    fn keeps_outcome(&self, score: &Score) -> bool
        ensures { result ≡ keeps_outcome self.now score.now }
    {
        if score.home > score.away {
            self.home_win
        } else if score.home == score.away {
            self.draw
        } else {
            self.away_win
        }
    }

    fn cut_home_win(&mut self, yes: bool)
        ensures scores { (score : Score) → allows self.new score
            ≡ (allows self.old score && is_as_said yes (is_home_win score)) }
        ensures outcomes { self.new ≡ (if yes then with_outcomes true false false self.old
            else with_outcomes false true true self.old) }
    {
        if yes {
            self.draw = false;
            self.away_win = false;
        } else {
            self.home_win = false;
        }
    }

    fn cut_draw(&mut self, yes: bool)
        ensures scores { (score : Score) → allows self.new score
            ≡ (allows self.old score && is_as_said yes (is_draw score)) }
        ensures outcomes { self.new ≡ (if yes then with_outcomes false true false self.old
            else with_outcomes true false true self.old) }
    {
        if yes {
            self.home_win = false;
            self.away_win = false;
        } else {
            self.draw = false;
        }
    }

    fn cut_home_most(&mut self, most: u8, yes: bool)
        ensures { (score : Score) → allows self.new score
            ≡ (allows self.old score && is_as_said yes (nat_le score.home most)) }
    {
        if yes {
            self.home_most = self.home_most.min(most);
        } else if most < u8::MAX {
            self.home_least = self.home_least.max(most + 1);
        } else {
            self.cut_all();
        }
    }

    fn cut_away_most(&mut self, most: u8, yes: bool)
        ensures { (score : Score) → allows self.new score
            ≡ (allows self.old score && is_as_said yes (nat_le score.away most)) }
    {
        if yes {
            self.away_most = self.away_most.min(most);
        } else if most < u8::MAX {
            self.away_least = self.away_least.max(most + 1);
        } else {
            self.cut_all();
        }
    }

    // Leaves no score.
    fn cut_all(&mut self)
        ensures empty { IsEmptyCell self.new }
    {
        self.home_win = false;
        self.draw = false;
        self.away_win = false;
    }
}

fn is_within(least: u8, most: u8, goals: u8) -> bool
    ensures { result ≡ is_within least most goals }
{
    least <= goals && goals <= most
}
