//! How many fixtures stand in the way of a reason: those without a score, and those whose outcome
//! is open.

ghost use Rattle.std.specs.Prelude.{◌≡◌, ◌+◌, ◌≤◌};
ghost use Rattle.league_core.specs.search.Options.{has_option, has_one_outcome};
ghost use Rattle.check_bounds.specs.inside.OpenCounts.{AreOpenCounts, AreExchanged, IsAmong, fails};

use crate::extreme_scores::ExtremeScores;
use crate::outcomes::{has_score, is_one_outcome};

/// How many fixtures have no score left, and how many have scores of more than one outcome.
#[derive(Clone, Copy)]
pub struct OpenCounts {
    pub without_score: usize,
    pub undecided: usize,
}

impl OpenCounts {
    /// Those with these extremes.
    pub fn of(corners: &[ExtremeScores]) -> OpenCounts
        ensures { AreOpenCounts corners.now result }
    {
        let mut loose = OpenCounts {
            without_score: 0,
            undecided: 0,
        };
        for own in corners {
            loose.without_score += failed(has_score(own));
            loose.undecided += failed(is_one_outcome(own.as_slice()));
        }
        loose
    }

    /// With other extremes of one fixture.
    pub fn exchanged(self, old: &ExtremeScores, new: &ExtremeScores) -> OpenCounts
        requires { IsAmong old.now self }
        ensures { AreExchanged self old.now new.now result }
    {
        let (was, now) = (old.as_slice(), new.as_slice());
        OpenCounts {
            without_score: exchanged(self.without_score, has_score(old), has_score(new)),
            undecided: exchanged(self.undecided, is_one_outcome(was), is_one_outcome(now)),
        }
    }
}

// A count in which one answer takes the place of another.
fn exchanged(count: usize, was: bool, now: bool) -> usize
    requires counted { fails was ≤ count }
    requires few { count ≤ 600 }
    ensures { result + fails was ≡ count + fails now }
{
    count - failed(was) + failed(now)
}

fn failed(passed: bool) -> usize
    ensures { result ≡ fails passed }
{
    if passed { 0 } else { 1 }
}
