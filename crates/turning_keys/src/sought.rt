//! The questions of a search for a turning key.

ghost use Rattle.std.specs.Prelude.{◌≡◌};
ghost use Rattle.club_keys.specs.inside.KeyEnds.{key_parts};
ghost use Rattle.cup_groups.specs.inside.KindQuestions.{group_question_of};
ghost use Rattle.turning_keys.specs.inside.TurningQuestions as asked;

use club_keys::ClubKey;
use cup_groups::KindQuestion;
use cup_sheet::GroupKind;
use league_core::Claim;

/// The turning key that is sought: of a side, for a club by its number in the group, from 0.
#[derive(Clone, Copy)]
pub(crate) struct Sought {
    pub claim: Claim,
    pub club: u8,
}

impl Sought {
    /// Whether the club can be the candidate with a key no farther out than this.
    pub(crate) fn halving(&self, key: &ClubKey) -> KindQuestion
        ensures question { group_question_of result
            ≡ asked.halving_question self.now.claim self.now.club (key_parts key.now) }
        ensures club { result.club ≡ self.now.club }
    {
        match self.claim {
            Claim::Outside => about(GroupKind::SecondAtMost, self.club, key),
            Claim::Inside => about(GroupKind::SecondAtLeast, self.club, key),
        }
    }

    /// Whether it can be with a key that is farther in.
    pub(crate) fn nearer(&self, key: &ClubKey) -> KindQuestion
        ensures question { group_question_of result
            ≡ asked.nearer_question self.now.claim self.now.club (key_parts key.now) }
        ensures club { result.club ≡ self.now.club }
    {
        match self.claim {
            Claim::Outside => about(GroupKind::SecondLess, self.club, key),
            Claim::Inside => about(GroupKind::SecondMore, self.club, key),
        }
    }
}

// The question of a kind about a club and a key.
fn about(kind: GroupKind, club: u8, key: &ClubKey) -> KindQuestion
    ensures kind { result.kind ≡ kind }
    ensures club { result.club ≡ club }
    ensures key { key_parts result.key ≡ key_parts key.now }
{
    KindQuestion {
        kind,
        club,
        key: *key,
    }
}
