//! A finish: a season in which every fixture has a score.

ghost use Rattle.std.specs.Prelude.{◌≡◌, ◌↔◌, IfOk, IfErr, IsTrue, is_ok, is_some};
ghost use Rattle.std.specs.List.{list_all};
ghost use Rattle.league_core.specs.game.Finishes.{is_played, may_end, may_all_end, IsFinishOf};

use crate::season::{Score, Season};
use crate::sheet::Sheet;
use std::marker::Model;

/// A season that is played to its end. Contracts see that season.
#[derive(Drop)]
pub struct Finish {
    season: Season,
}

impl Model for Finish {
    ghost use Rattle.league_core.specs.game.Results.{Results};

    ghost Value = { Results };

    ghost use Rattle.std.specs.Prelude.{IsTrue};
    ghost use Rattle.league_core.specs.game.Finishes.{is_played};

    ghost view = { λ finish. finish.season };

    ghost invariant = { λ finish. IsTrue (is_played finish.season) };
}

impl Finish {
    /// The season as a finish. If a fixture has no score the season is handed back.
    pub fn of_season(season: Season) -> Result<Finish, Season>
        ensures ok { IfOk result (λ finish. finish ≡ season) }
        ensures err { IfErr result (λ back. back ≡ season) }
        ensures played { IsTrue (is_ok result) ↔ IsTrue (is_played season) }
    {
        if all_played(season.scores()) {
            Ok(Finish { season })
        } else {
            Err(season)
        }
    }

    /// The season that it is, as it ends.
    pub fn as_season(&self) -> &Season
        ensures season { result.now ≡ self.now }
        ensures played { IsTrue (is_played result.now) }
    {
        &self.season
    }

    /// The season may end like this: what it has played stays, nothing else passes the sheet's goal
    /// limit, and the same points are taken off.
    pub fn is_of(&self, sheet: &Sheet, season: &Season) -> bool
        ensures { IsTrue result ↔ IsFinishOf sheet.now season.now self.now }
    {
        same_deductions(self.season.deductions(), season.deductions())
            && all_may_end(sheet.goal_limit, season.scores(), self.season.scores())
    }
}

fn same_deductions(points: &[u8], others: &[u8]) -> bool
    ensures { IsTrue result ↔ (points.now ≡ others.now) }
{
    points == others
}

fn all_may_end(limit: u8, season: &[Option<Score>], finish: &[Option<Score>]) -> bool
    ensures { IsTrue result ↔ IsTrue (may_all_end limit season.now finish.now) }
{
    if season.len() != finish.len() {
        return false;
    }
    for fixture in 0..season.len() {
        if !one_may_end(limit, season[fixture], finish[fixture]) {
            return false;
        }
    }
    true
}

fn one_may_end(limit: u8, played: Option<Score>, ended: Option<Score>) -> bool
    ensures { result ≡ may_end limit played ended }
{
    match (played, ended) {
        (_, None) => false,
        (Some(played), Some(ended)) => played == ended,
        (None, Some(ended)) => ended.home <= limit && ended.away <= limit,
    }
}

fn all_played(scores: &[Option<Score>]) -> bool
    ensures { result ≡ list_all is_some scores.now }
{
    scores.iter().all(|score| score.is_some())
}
