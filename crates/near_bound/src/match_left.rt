//! What is left of a match.

ghost use Rattle.std.specs.Prelude.{◌≡◌, true, false, ◌&&◌, nat_le, List, MatchOption};
ghost use Rattle.league_core.specs.declared.season.Score.{Score};
ghost use Rattle.league_core.specs.search.Options.{is_home_win, is_draw, is_away_win};
ghost use Rattle.league_core.specs.search.Options.{has_option};
ghost use Rattle.near_bound.specs.inside.MatchesLeft.{is_score_left, turned, IsWorstIfAny};
ghost use Rattle.near_bound.specs.inside.MatchesLeft.{IsWorstFor, IsNothing, IsLeftOf, HasAny};

use league_core::Score;

/// A set of scores: those whose outcome is left and whose goals are in the two ranges. If no
/// outcome is left, or the least goals of a side are above its most, there is none.
#[derive(Clone, Copy, Debug)]
pub struct MatchLeft {
    pub home_win: bool,
    pub draw: bool,
    pub away_win: bool,
    pub home_least: u8,
    pub home_most: u8,
    pub away_least: u8,
    pub away_most: u8,
}

impl MatchLeft {
    /// Of the scores that are left the worst for a side: the one with the least goal difference,
    /// and of several with one difference that with the most goals, or the fewest.
    pub(crate) fn worst(&self, away: bool, many: bool) -> Option<Score>
        ensures { MatchOption result (IsNothing self.now) (IsWorstFor self.now away many) }
    {
        if away {
            match self.turned().worst_at_home(many) {
                None => None,
                Some(score) => Some(Score {
                    home: score.away,
                    away: score.home,
                }),
            }
        } else {
            self.worst_at_home(many)
        }
    }

    /// Some score is left.
    pub(crate) fn has_score(&self) -> bool
        ensures { (options : List Score) → IsLeftOf self.now options
            → result ≡ has_option options }
    {
        self.worst_at_home(false).is_some()
    }

    /// A win of the home side is left.
    pub(crate) fn has_home_win(&self) -> bool
        ensures { HasAny self.now is_home_win result }
    {
        self.lowest_win(false).is_some()
    }

    pub(crate) fn has_draw(&self) -> bool
        ensures { HasAny self.now is_draw result }
    {
        self.worst_draw(false).is_some()
    }

    pub(crate) fn has_away_win(&self) -> bool
        ensures { HasAny self.now is_away_win result }
    {
        self.highest_defeat(false).is_some()
    }

    // The scores with their sides exchanged.
    fn turned(&self) -> MatchLeft
        ensures { (score : Score) → is_score_left result (turned score)
            ≡ is_score_left self.now score }
    {
        MatchLeft {
            home_win: self.away_win,
            draw: self.draw,
            away_win: self.home_win,
            home_least: self.away_least,
            home_most: self.away_most,
            away_least: self.home_least,
            away_most: self.home_most,
        }
    }

    // A defeat if one is left, or else a draw, or else a win.
    fn worst_at_home(&self, many: bool) -> Option<Score>
        ensures { MatchOption result (IsNothing self.now) (IsWorstFor self.now false many) }
    {
        match self.highest_defeat(many) {
            Some(score) => Some(score),
            None => match self.worst_draw(many) {
                Some(score) => Some(score),
                None => self.lowest_win(many),
            },
        }
    }

    fn has_goals(&self) -> bool
        ensures { result ≡ (nat_le self.now.home_least self.now.home_most
            && nat_le self.now.away_least self.now.away_most) }
    {
        self.home_least <= self.home_most && self.away_least <= self.away_most
    }

    // The home side's highest defeat: no other has its goal difference.
    fn highest_defeat(&self, many: bool) -> Option<Score>
        ensures { IsWorstIfAny self.now many is_away_win result }
    {
        let is_open = self.away_win && self.home_least < self.away_most;
        if is_open && self.has_goals() {
            Some(Score {
                home: self.home_least,
                away: self.away_most,
            })
        } else {
            None
        }
    }

    fn worst_draw(&self, many: bool) -> Option<Score>
        ensures { IsWorstIfAny self.now many is_draw result }
    {
        let least = self.home_least.max(self.away_least);
        let most = self.home_most.min(self.away_most);
        if self.draw && least <= most {
            let goals = if many { most } else { least };
            Some(Score {
                home: goals,
                away: goals,
            })
        } else {
            None
        }
    }

    // The home side's lowest win, with the most goals or the fewest.
    fn lowest_win(&self, many: bool) -> Option<Score>
        ensures { IsWorstIfAny self.now many is_home_win result }
    {
        let is_open = self.home_win && self.away_least < self.home_most;
        if !is_open || !self.has_goals() {
            return None;
        }
        if many {
            let away = self.away_most.min(self.home_most - 1);
            Some(Score {
                home: self.home_least.max(away + 1),
                away,
            })
        } else {
            let home = self.home_least.max(self.away_least + 1);
            Some(Score {
                home,
                away: self.away_most.min(home - 1),
            })
        }
    }
}
