//! Two bytes for a score or none, so that seasons are compared at memory speed.

ghost use Rattle.std.specs.Prelude.{◌≡◌, IsTrue};
ghost use Rattle.league_core.specs.game.Results.{is_score_or_none};
ghost use Rattle.league_core.specs.inside.ScoreCodes.{score_code};

use crate::season::Score;

/// The code of a score, or of none.
pub fn score_code(score: Option<Score>) -> u16
    requires { IsTrue (is_score_or_none score) }
    ensures { result ≡ score_code score }
{
    match score {
        None => u16::MAX,
        Some(score) => u16::from(score.home) * 256 + u16::from(score.away),
    }
}
