//! Which outcomes a fixture has left, and what points they bring.

ghost use Rattle.std.specs.Prelude.{◌≡◌, ◌&&◌, ◌||◌, ◌<◌, length};

use score_box::ZoneBox;

/// The outcomes that a fixture has left.
#[derive(Clone, Copy)]
pub struct Outcomes {
    pub wins: bool,
    pub draws: bool,
    pub losses: bool,
}

impl Outcomes {
    ghost use Rattle.branch_rules.specs.inside.Choices.{options_at_fixture};
    ghost use Rattle.branch_rules.specs.inside.Outcomes.{AreOutcomesOf};

    /// Those of a fixture in the box's zone.
    pub fn at(zone_box: &ZoneBox, fixture: u16) -> Outcomes
        requires { fixture < length zone_box.now.season.scores }
        ensures { AreOutcomesOf (options_at_fixture zone_box.now fixture) result }
    {
        let left = zone_box.outcomes_left(fixture);
        Outcomes {
            wins: left.home_win,
            draws: left.draw,
            losses: left.away_win,
        }
    }

    /// A home win is left, and something else.
    pub fn parts_by_home(self) -> bool
        ensures { result ≡ (self.wins && (self.draws || self.losses)) }
    {
        self.wins && (self.draws || self.losses)
    }

    /// A draw is left, and something else.
    pub fn parts_by_draw(self) -> bool
        ensures { result ≡ (self.draws && (self.wins || self.losses)) }
    {
        self.draws && (self.wins || self.losses)
    }

    /// The home wins alone, or all but them.
    pub fn half_by_home(self, yes: bool) -> Outcomes {
        Outcomes {
            wins: self.wins && yes,
            draws: self.draws && !yes,
            losses: self.losses && !yes,
        }
    }

    /// The draws alone, or all but them.
    pub fn half_by_draw(self, yes: bool) -> Outcomes {
        Outcomes {
            wins: self.wins && !yes,
            draws: self.draws && yes,
            losses: self.losses && !yes,
        }
    }

    pub fn home_least(self) -> i32 {
        least_points(self.losses, self.draws)
    }

    pub fn home_most(self) -> i32 {
        most_points(self.wins, self.draws)
    }

    pub fn away_least(self) -> i32 {
        least_points(self.wins, self.draws)
    }

    pub fn away_most(self) -> i32 {
        most_points(self.losses, self.draws)
    }
}

fn least_points(loses: bool, draws: bool) -> i32 {
    if loses {
        0
    } else if draws {
        1
    } else {
        3
    }
}

fn most_points(wins: bool, draws: bool) -> i32 {
    if wins {
        3
    } else if draws {
        1
    } else {
        0
    }
}
