//! Whether the numbers of a proof line are such as its form has.

ghost use Rattle.std.specs.Prelude.{◌≡◌};
ghost use Rattle.std.specs.List.{list_all};
ghost use Rattle.cert_text.specs.Ranges.{is_club_number, are_points, is_test_in_range};
ghost use Rattle.cert_text.specs.Ranges.{is_set_in_range, is_reason_in_range, is_in_range};
ghost use Rattle.cert_text.specs.Ranges.{is_goal_bound};
ghost use Rattle.cert_text.specs.Ranges as ranges;

use crate::proof_line::ProofLine;
use league_core::limits::{MOST_CLUBS, MOST_DEDUCTION, MOST_FIXTURES, MOST_GOALS, MOST_POINTS};
use league_core::{ClubSet, Reason, Test};

/// The test that `write_line` asks for: the line's numbers are in the ranges of its form. What a
/// sheet or a question allows is not asked.
pub fn has_form(line: &ProofLine) -> bool
    ensures { result ≡ is_in_range line.now }
{
    match line {
        ProofLine::Tree(_) => true,
        ProofLine::Spent(_) => true,
        ProofLine::SpentWindow { low, high, .. } => are_within(*low) && are_within(*high),
        ProofLine::Split(test) => is_test_within(*test),
        ProofLine::NewSplit(test) => is_test_within(*test),
        ProofLine::Leaf(reason) => is_reason_within(*reason),
        ProofLine::NewLeaf(reason) => is_reason_within(*reason),
        ProofLine::OpenLeaf => true,
        ProofLine::Finish(_) => true,
        ProofLine::Score { fixture, score } => {
            *fixture < MOST_FIXTURES && score.home <= MOST_GOALS && score.away <= MOST_GOALS
        }
        ProofLine::Lots(lots) => are_clubs(lots.list.as_slice()),
    }
}

fn are_within(points: i32) -> bool
    ensures { result ≡ are_points points }
{
    -i32::from(MOST_DEDUCTION) <= points && points <= i32::from(MOST_POINTS)
}

fn is_test_within(test: Test) -> bool
    ensures { result ≡ is_test_in_range test }
{
    is_test_below(test, MOST_FIXTURES, MOST_CLUBS)
}

/// The test is of one of so many fixtures or clubs, and its bound on goals is one that a score can
/// miss.
pub fn is_test_below(test: Test, fixtures: u16, clubs: u8) -> bool
    ensures { result ≡ ranges.is_test_below fixtures clubs test }
{
    match test {
        Test::Home { fixture } => fixture < fixtures,
        Test::Draw { fixture } => fixture < fixtures,
        Test::HomeMost { fixture, most } => fixture < fixtures && is_missed(most),
        Test::AwayMost { fixture, most } => fixture < fixtures && is_missed(most),
        Test::Rival { club } => club < clubs,
    }
}

// A score can miss the bound on goals.
fn is_missed(most: u8) -> bool
    ensures { result ≡ is_goal_bound most }
{
    most <= MOST_GOALS - 1
}

fn is_reason_within(reason: Reason) -> bool
    ensures { result ≡ is_reason_in_range reason }
{
    match reason {
        Reason::Count => true,
        Reason::Window => true,
        Reason::Low(set) => is_cut_within(set),
        Reason::High(set) => is_cut_within(set),
        Reason::Tie => true,
    }
}

fn is_cut_within(set: ClubSet) -> bool
    ensures { result ≡ is_set_in_range set }
{
    !set.is_empty() && set.without(ClubSet::first(MOST_CLUBS)).is_empty()
}

fn are_clubs(clubs: &[u8]) -> bool
    ensures { result ≡ list_all is_club_number clubs.now }
{
    clubs.iter().all(|club| *club < MOST_CLUBS)
}
