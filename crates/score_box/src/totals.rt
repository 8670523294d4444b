//! What matches add up to for one club, by each of the six measures that a ranking counts.

ghost use Rattle.std.specs.Prelude.{◌≡◌, ◌≤ℤ◌, pos, false, if◌then◌else◌};
ghost use Rattle.league_core.specs.game.Sums.{match_points};
ghost use Rattle.score_box.specs.inside.Totals.{AreTogether, AreTotalsNear, TotalsGrowBy};

/// A row of totals: three points for a win and one for a draw, goals scored less goals let in,
/// goals scored, those of them that were scored away, wins, and those of them away from home.
/// Deductions do not count here.
#[derive(Clone, Copy, Debug, PartialEq, Eq)]
pub struct Totals {
    pub points: i32,
    pub difference: i32,
    pub goals: i32,
    pub away_goals: i32,
    pub wins: i32,
    pub away_wins: i32,
}

impl Totals {
    /// The row of no match.
    pub const NONE: Totals = Totals {
        points: 0,
        difference: 0,
        goals: 0,
        away_goals: 0,
        wins: 0,
        away_wins: 0,
    };

    /// The row with one match more, seen from one of its sides.
    pub fn plus(&self, scored: u8, conceded: u8, away: bool) -> Totals
        requires { AreTotalsNear 1000000 self.now }
        ensures { TotalsGrowBy (λ worth. worth scored conceded away) self.now result }
    {
        let goals = i32::from(scored);
        let wins = one_if(scored > conceded);
        Totals {
            points: self.points + points_for(scored, conceded),
            difference: self.difference + goals - i32::from(conceded),
            goals: self.goals + goals,
            away_goals: self.away_goals + only_if(away, goals),
            wins: self.wins + wins,
            away_wins: self.away_wins + only_if(away, wins),
        }
    }
}

impl Totals {
    /// Both rows together.
    pub fn with(&self, other: &Totals) -> Totals
        requires near { AreTotalsNear 100000000 self.now }
        requires other_near { AreTotalsNear 100000000 other.now }
        ensures { AreTogether self.now other.now result }
    {
        Totals {
            points: self.points + other.points,
            difference: self.difference + other.difference,
            goals: self.goals + other.goals,
            away_goals: self.away_goals + other.away_goals,
            wins: self.wins + other.wins,
            away_wins: self.away_wins + other.away_wins,
        }
    }
}

// Three for a win, one for a draw.
fn points_for(scored: u8, conceded: u8) -> i32
    ensures value { result ≡ match_points scored conceded false }
    ensures within { (pos 0 ≤ℤ result) × (result ≤ℤ pos 3) }
{
    if scored > conceded {
        3
    } else if scored == conceded {
        1
    } else {
        0
    }
}

fn one_if(counts: bool) -> i32
    ensures value { result ≡ (if counts then pos 1 else pos 0) }
    ensures within { (pos 0 ≤ℤ result) × (result ≤ℤ pos 1) }
{
    i32::from(counts)
}

fn only_if(counts: bool, amount: i32) -> i32
    requires { (pos 0 ≤ℤ amount) × (amount ≤ℤ pos 255) }
    ensures value { result ≡ (if counts then amount else pos 0) }
    ensures within { (pos 0 ≤ℤ result) × (result ≤ℤ pos 255) }
{
    if counts { amount } else { 0 }
}
