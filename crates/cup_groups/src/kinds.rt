//! What is asked for a side of a club, and of how many other groups an answer has to be known.

ghost use Rattle.std.specs.Prelude.{◌≡◌};
ghost use Rattle.cup_sheet.specs.CupAnswers as sheets;
ghost use Rattle.cup_sheet.specs.Cups.{IsCup};
ghost use Rattle.cup_sheet.specs.KeyBounds as bounds;

use cup_sheet::{Cup, GroupKind};
use league_core::Claim;

/// What is asked of a club's place, for a side.
pub fn place_kind(claim: Claim) -> GroupKind
    ensures { result ≡ bounds.place_kind claim }
{
    match claim {
        Claim::Inside => GroupKind::Top,
        Claim::Outside => GroupKind::Below,
    }
}

/// What shows that no key is nearer than the one on which a side turns.
pub fn nearer_kind(claim: Claim) -> GroupKind
    ensures { result ≡ bounds.nearer_kind claim }
{
    match claim {
        Claim::Inside => GroupKind::SecondMore,
        Claim::Outside => GroupKind::SecondLess,
    }
}

/// What is asked of the clubs of other groups.
pub fn others_kind(claim: Claim) -> GroupKind
    ensures { result ≡ bounds.others_kind claim }
{
    match claim {
        Claim::Inside => GroupKind::SecondAtMost,
        Claim::Outside => GroupKind::SecondAtLeast,
    }
}

/// How many other groups with a candidate on the far side show a side.
pub fn shown_groups(cup: &Cup, claim: Claim) -> usize
    requires { IsCup cup.now }
    ensures { result ≡ sheets.shown_groups cup.now claim }
{
    match claim {
        Claim::Outside => usize::from(cup.quota),
        Claim::Inside => cup.groups.len() - usize::from(cup.quota),
    }
}

/// How many other groups without a candidate on the far side refute a side.
pub fn listed_groups(cup: &Cup, claim: Claim) -> usize
    requires { IsCup cup.now }
    ensures { result ≡ sheets.listed_groups cup.now claim }
{
    match claim {
        Claim::Outside => cup.groups.len() - usize::from(cup.quota),
        Claim::Inside => usize::from(cup.quota),
    }
}
