//! What one fixture adds to the excess of a set beyond what it adds to each of its clubs alone.

ghost use Rattle.std.specs.Prelude.{◌≡◌, ◌≤◌};
ghost use Rattle.flow_bound.specs.inside.Fixtures.{surplus_left, surplus_of_all};

use crate::cut::Cut;
use score_box::OutcomesLeft;

/// What both clubs of a match get together beyond what each gets alone, by the outcomes that are
/// left: with two wins three points, one of which a draw gives back.
pub fn surplus_of(left: OutcomesLeft, cut: Cut) -> u8
    ensures value { result ≡ surplus_left cut left.home_win left.draw left.away_win }
    ensures small { result ≤ 3 }
{
    if left.home_win && left.away_win {
        if left.draw { surplus_of_all(cut) } else { 3 }
    } else if left.draw && (left.home_win || left.away_win) {
        1
    } else {
        0
    }
}

// If all three outcomes are left: least points come by draws, most points by wins.
fn surplus_of_all(cut: Cut) -> u8
    ensures value { result ≡ surplus_of_all cut }
    ensures small { result ≤ 3 }
{
    match cut {
        Cut::Floor => 2,
        Cut::Ceiling => 3,
    }
}
