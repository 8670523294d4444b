//! How many finishes a season has, as far as they are few enough to be walked.

ghost use Rattle.std.specs.Prelude.{◌≡◌, ◌≤◌, SomeIff};
ghost use Rattle.league_core.specs.inside.FinishList.{ways_to_end};
ghost use Rattle.reference_programs.specs.inside.Walks.{count_of_finishes, HasFewFinishes};

use league_core::limits::MOST_FINISHES;
use league_core::{Score, Season, Sheet};

/// The number of the season's finishes, if it is at most `MOST_FINISHES`.
pub fn finish_count(sheet: &Sheet, season: &Season) -> Option<u32>
    ensures { SomeIff result (HasFewFinishes sheet.now season.now)
        (count_of_finishes sheet.now season.now) }
{
    let mut count = 1;
    for played in season.scores() {
        count *= ways_to_end(sheet.goal_limit, *played);
        let is_over = count > MOST_FINISHES;
        if is_over {
            return None;
        }
    }
    Some(count)
}

// In how many ways a fixture may end that has this score, or none.
fn ways_to_end(limit: u8, played: Option<Score>) -> u32
    ensures value { result ≡ ways_to_end limit played }
    ensures within { result ≤ 65536 }
{
    let sides = u32::from(limit) + 1;
    match played {
        Some(_) => 1,
        None => sides * sides,
    }
}
