//! The points of one fixture: three for a win, one to each side for a draw, by the outcomes that
//! its cell has left.

ghost use Rattle.std.specs.Prelude.{◌≡◌, if◌then◌else◌};
ghost use Rattle.league_core.specs.search.PointRanges.{won_points, drawn_points};
ghost use Rattle.score_box.specs.inside.Points.{least_of_three, most_of_three};

/// The least and the most points that a fixture gives to the sides that count.
#[derive(Clone, Copy, Debug, PartialEq, Eq)]
pub struct MatchPoints {
    pub least: u8,
    pub most: u8,
}

impl MatchPoints {
    pub(super) const NONE: MatchPoints = MatchPoints { least: 0, most: 0 };
}

pub(super) fn least_of(wins: bool, draws: bool, losses: bool, home: bool, away: bool) -> u8
    ensures { result ≡ least_of_three wins draws losses home away }
{
    points_if(wins, win_points(home), 3)
        .min(points_if(draws, draw_points(home, away), 3))
        .min(points_if(losses, win_points(away), 3))
}

pub(super) fn most_of(wins: bool, draws: bool, losses: bool, home: bool, away: bool) -> u8
    ensures { result ≡ most_of_three wins draws losses home away }
{
    points_if(wins, win_points(home), 0)
        .max(points_if(draws, draw_points(home, away), 0))
        .max(points_if(losses, win_points(away), 0))
}

fn points_if(possible: bool, points: u8, otherwise: u8) -> u8
    ensures { result ≡ (if possible then points else otherwise) }
{
    if possible { points } else { otherwise }
}

fn win_points(counts: bool) -> u8
    ensures { result ≡ won_points counts }
{
    if counts { 3 } else { 0 }
}

fn draw_points(home: bool, away: bool) -> u8
    ensures { result ≡ drawn_points home away }
{
    u8::from(home) + u8::from(away)
}
