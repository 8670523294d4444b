//! A side of a club, as a row of a report or a part of it claims it.

ghost use Rattle.std.specs.Prelude.{◌≡◌};

use league_core::Claim;

/// A side of a club, by the club's number in the cup from 0.
#[derive(Clone, Copy)]
pub struct ClaimedSide {
    pub claim: Claim,
    pub club: u8,
}

/// The side on which the club qualifies.
pub fn inside_of(club: u8) -> ClaimedSide
    ensures { result ≡ record { claim = Claim.Inside; club = club } }
{
    ClaimedSide {
        claim: Claim::Inside,
        club,
    }
}

/// The side on which it does not.
pub fn outside_of(club: u8) -> ClaimedSide
    ensures { result ≡ record { claim = Claim.Outside; club = club } }
{
    ClaimedSide {
        claim: Claim::Outside,
        club,
    }
}
