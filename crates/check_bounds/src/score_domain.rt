//! The scores with which a fixture may still end: which outcomes, and how many goals a side.

ghost use Rattle.std.specs.Prelude.{◌≡◌, ◌&&◌, ℕ, nat_le, IsTrue, IfSome, Some, ◌==◌};
ghost use Rattle.league_core.specs.declared.season.Score.{Score};
ghost use Rattle.league_core.specs.game.Finishes.{may_end, same_score};
ghost use Rattle.league_core.specs.search.Zones.{passes, is_as_said, is_of_score};
ghost use Rattle.league_core.specs.search.Options.{is_home_win, is_draw};
ghost use Rattle.check_bounds.specs.inside.ScoreDomains.{is_goals_of, is_left};

use league_core::{Literal, Score, Test};

/// A range of goals; none if the least is above the most.
#[derive(Clone, Copy)]
pub struct GoalRange {
    pub least: u16,
    pub most: u8,
}

/// The scores that are left: those of an outcome that is left, with goals in both ranges.
#[derive(Clone, Copy)]
pub struct ScoreDomain {
    pub home_win: bool,
    pub draw: bool,
    pub away_win: bool,
    pub home: GoalRange,
    pub away: GoalRange,
}

impl ScoreDomain {
    /// What the season leaves of a fixture: its score if it was played, any up to the goal limit if
    /// it was not.
    pub fn of(played: Option<Score>, goal_limit: u8) -> ScoreDomain
        ensures { (score : Score) → is_left result score ≡ may_end goal_limit played (Some score) }
    {
        match played {
            Some(score) => ScoreDomain::all(
                GoalRange::only(score.home),
                GoalRange::only(score.away),
            ),
            None => ScoreDomain::all(GoalRange::up_to(goal_limit), GoalRange::up_to(goal_limit)),
        }
    }

    // Every outcome, with goals in these ranges.
    fn all(home: GoalRange, away: GoalRange) -> ScoreDomain
        ensures { (score : Score) → is_left result score
            ≡ (is_goals_of home score.home && is_goals_of away score.away) }
    {
        ScoreDomain {
            home_win: true,
            draw: true,
            away_win: true,
            home,
            away,
        }
    }

    /// The one score that is left if each side has one number of goals and no outcome was cut, as
    /// of a match that was played.
    pub fn only_score(&self) -> Option<Score>
        ensures { IfSome result (λ only.
            (score : Score) → is_left self.now score ≡ same_score only score) }
    {
        if self.is_uncut() && self.home.is_one() && self.away.is_one() {
            Some(Score {
                home: self.home.most,
                away: self.away.most,
            })
        } else {
            None
        }
    }

    // Every outcome is left.
    fn is_uncut(&self) -> bool
        ensures { result ≡ (self.now.home_win && self.now.draw && self.now.away_win) }
    {
        self.home_win && self.draw && self.away_win
    }

    /// Leaves the scores that make a literal of the fixture's score true.
    pub fn cut(&mut self, literal: &Literal)
        requires { IsTrue (is_of_score literal.now.test) }
        ensures { (score : Score) → is_left self.new score
            ≡ (is_left self.old score
            && is_as_said literal.now.yes (passes literal.now.test score)) }
    {
        match literal.test {
            Test::Home { .. } => self.cut_home_win(literal.yes),
            Test::Draw { .. } => self.cut_draw(literal.yes),
            Test::HomeMost { most, .. } => self.cut_home(most, literal.yes),
            Test::AwayMost { most, .. } => self.cut_away(most, literal.yes),
            Test::Rival { .. } => unreachable!(),
        }
    }

    fn cut_home_win(&mut self, yes: bool)
        ensures { (score : Score) → is_left self.new score
            ≡ (is_left self.old score && is_as_said yes (is_home_win score)) }
    {
        if yes {
            self.draw = false;
            self.away_win = false;
        } else {
            self.home_win = false;
        }
    }

    fn cut_draw(&mut self, yes: bool)
        ensures { (score : Score) → is_left self.new score
            ≡ (is_left self.old score && is_as_said yes (is_draw score)) }
    {
        if yes {
            self.home_win = false;
            self.away_win = false;
        } else {
            self.draw = false;
        }
    }

    fn cut_home(&mut self, most: u8, yes: bool)
        ensures { (score : Score) → is_left self.new score
            ≡ (is_left self.old score && is_as_said yes (nat_le score.home most)) }
    {
        self.home = self.home.cut(most, yes);
    }

    fn cut_away(&mut self, most: u8, yes: bool)
        ensures { (score : Score) → is_left self.new score
            ≡ (is_left self.old score && is_as_said yes (nat_le score.away most)) }
    {
        self.away = self.away.cut(most, yes);
    }
}

impl GoalRange {
    fn only(goals: u8) -> GoalRange
        ensures { (number : ℕ) → is_goals_of result number ≡ (goals == number) }
    {
        GoalRange {
            least: u16::from(goals),
            most: goals,
        }
    }

    // It has one number of goals, its most.
    fn is_one(&self) -> bool
        ensures { result ≡ (self.now.least == self.now.most) }
    {
        self.least == u16::from(self.most)
    }

    fn up_to(limit: u8) -> GoalRange
        ensures { (number : ℕ) → is_goals_of result number ≡ nat_le number limit }
    {
        GoalRange {
            least: 0,
            most: limit,
        }
    }

    // Those of at most so many; with `yes` false, those of more.
    fn cut(self, most: u8, yes: bool) -> GoalRange
        ensures { (number : ℕ) → is_goals_of result number
            ≡ (is_goals_of self number && is_as_said yes (nat_le number most)) }
    {
        if yes {
            GoalRange {
                least: self.least,
                most: self.most.min(most),
            }
        } else {
            GoalRange {
                least: self.least.max(u16::from(most) + 1),
                most: self.most,
            }
        }
    }
}
