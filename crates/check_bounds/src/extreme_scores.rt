//! The few scores that bound all others that a fixture may still end with: for each outcome that is
//! left, those with the fewest and the most goals of each side, and with the least and the greatest
//! lead. Whatever a ranking looks at, it is least at one of them and greatest at another.

ghost use Rattle.std.specs.Prelude.{◌≡◌, ◌++◌, ◌≤◌, ◌+◌, ℕ, List, [], ◌∷◌, length, MatchOption};
ghost use Rattle.league_core.specs.declared.season.Score.{Score};
ghost use Rattle.league_core.specs.search.Options.{score_of};
ghost use Rattle.check_bounds.specs.inside.ExtremeScores.{CanWin, AreWinsOf, CanDraw, AreDrawsOf};
ghost use Rattle.check_bounds.specs.inside.ExtremeScores.{home_extremes, away_extremes};
ghost use Rattle.check_bounds.specs.inside.ExtremeScores.{draw_extremes};
ghost use Rattle.check_bounds.specs.inside.ExtremeScores.{extremes_if, AreExtremesOf};
ghost use Rattle.check_bounds.specs.inside.ScoreDomains.{IsScoreDomainOf};

use crate::score_domain::{GoalRange, ScoreDomain};
use league_core::Score;
use std::marker::Model;

/// The ends of the goals of a winner and a loser.
#[derive(Clone, Copy)]
pub struct Wins {
    pub won_least: u8,
    pub won_most: u8,
    pub lost_least: u8,
    pub lost_most: u8,
    /// The least goals with which the winner beats the loser's most.
    pub near: u8,
}

/// The ends of the goals of both sides of a draw.
#[derive(Clone, Copy)]
pub struct Draws {
    pub least: u8,
    pub most: u8,
}

/// How a side with these goals can win against one with those.
pub fn wins_of(winner: GoalRange, loser: GoalRange) -> Option<Wins>
    ensures { MatchOption result ((won lost : ℕ) → CanWin winner loser won lost → ⊥)
        (AreWinsOf winner loser) }
{
    let won_least = winner.least.max(loser.least.saturating_add(1));
    if won_least > u16::from(winner.most) || loser.least > u16::from(loser.most) {
        return None;
    }
    let lost_most = loser.most.min(winner.most - 1);
    Some(Wins {
        won_least: won_least as u8,
        won_most: winner.most,
        lost_least: loser.least as u8,
        lost_most,
        near: (won_least as u8).max(lost_most + 1),
    })
}

/// How sides with these goals can draw.
pub fn draws_of(home: GoalRange, away: GoalRange) -> Option<Draws>
    ensures { MatchOption result ((goals : ℕ) → CanDraw home away goals → ⊥)
        (AreDrawsOf home away) }
{
    let least = home.least.max(away.least);
    let most = home.most.min(away.most);
    if least > u16::from(most) {
        return None;
    }
    Some(Draws {
        least: least as u8,
        most,
    })
}

/// At most ten scores. Contracts see their list.
#[derive(Drop)]
pub struct ExtremeScores {
    scores: [Score; 10],
    count: usize,
}

impl Model for ExtremeScores {
    ghost use Rattle.std.specs.Prelude.{List, take, ◌≤◌};
    ghost use Rattle.league_core.specs.declared.season.Score.{Score};

    ghost Value = { List Score };

    ghost view = { λ c. take c.count c.scores };

    ghost invariant = { λ c. c.count ≤ 10 };
}

impl ExtremeScores {
    fn none() -> ExtremeScores
        ensures { result ≡ [] }
    {
        ExtremeScores {
            scores: [Score { home: 0, away: 0 }; 10],
            count: 0,
        }
    }

    pub fn as_slice(&self) -> &[Score]
        ensures { result.now ≡ self.now }
    {
        &self.scores[..self.count]
    }

    /// The same once more.
    pub fn copied(&self) -> ExtremeScores
        ensures { result ≡ self.now }
    {
        ExtremeScores {
            scores: self.scores,
            count: self.count,
        }
    }

    fn only(score: Score) -> ExtremeScores
        ensures { result ≡ score ∷ [] }
    {
        ExtremeScores {
            scores: [score; 10],
            count: 1,
        }
    }

    /// The extremes of what is left: at most ten, and one if one score is all that is left.
    pub fn of(scope: &ScoreDomain) -> ExtremeScores
        ensures { (options : List Score) → IsScoreDomainOf scope.now options
            → AreExtremesOf result options }
    {
        match scope.only_score() {
            Some(score) => ExtremeScores::only(score),
            None => ExtremeScores::of_outcomes(scope),
        }
    }

    // Those of each outcome, one after the other.
    fn of_outcomes(scope: &ScoreDomain) -> ExtremeScores
        ensures { (options : List Score) → IsScoreDomainOf scope.now options
            → AreExtremesOf result options }
    {
        let mut corners = ExtremeScores::none();
        corners.push_home_if(scope.home_win, wins_of(scope.home, scope.away));
        corners.push_draws_if(scope.draw, draws_of(scope.home, scope.away));
        corners.push_away_if(scope.away_win, wins_of(scope.away, scope.home));
        corners
    }

    fn push(&mut self, home: u8, away: u8)
        requires { length self.old ≤ 9 }
        ensures { self.new ≡ self.old ++ score_of home away ∷ [] }
    {
        self.scores[self.count] = Score { home, away };
        self.count += 1;
    }

    fn push_home_if(&mut self, left: bool, wins: Option<Wins>)
        requires { length self.old ≤ 6 }
        ensures corners { self.new ≡ self.old ++ extremes_if left home_extremes wins }
        ensures few { length self.new ≤ length self.old + 4 }
    {
        if let Some(wins) = wins
            && left
        {
            self.push(wins.won_least, wins.lost_least);
            self.push(wins.won_most, wins.lost_least);
            self.push(wins.won_most, wins.lost_most);
            self.push(wins.near, wins.lost_most);
        }
    }

    fn push_draws_if(&mut self, left: bool, draws: Option<Draws>)
        requires { length self.old ≤ 8 }
        ensures corners { self.new ≡ self.old ++ extremes_if left draw_extremes draws }
        ensures few { length self.new ≤ length self.old + 2 }
    {
        if let Some(draws) = draws
            && left
        {
            self.push(draws.least, draws.least);
            self.push(draws.most, draws.most);
        }
    }

    fn push_away_if(&mut self, left: bool, wins: Option<Wins>)
        requires { length self.old ≤ 6 }
        ensures corners { self.new ≡ self.old ++ extremes_if left away_extremes wins }
        ensures few { length self.new ≤ length self.old + 4 }
    {
        if let Some(wins) = wins
            && left
        {
            self.push(wins.lost_least, wins.won_least);
            self.push(wins.lost_least, wins.won_most);
            self.push(wins.lost_most, wins.won_most);
            self.push(wins.lost_most, wins.near);
        }
    }
}
