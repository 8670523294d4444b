//! Keys in the lines of a report on a cup.

ghost use Rattle.std.specs.Prelude.{◌≡◌, ◌<◌, ℕ, IsTrue, length, option_map, pos};
ghost use Rattle.std.specs.Prelude.{slice_index_or};
ghost use Rattle.league_core.specs.declared.question.Claim.{Claim};
ghost use Rattle.cup_text.specs.CupRanges.{is_key_of_kind};
ghost use Rattle.cup_text.specs.declared.cup_line.CupKey.{CupKey};
ghost use Rattle.club_keys.specs.inside.KeyEnds.{key_parts};
ghost use Rattle.cup_groups.specs.inside.KindQuestions.{asked_key};
ghost use Rattle.cup_grammar.specs.PlacedGroups.{CupBasis};
ghost use Rattle.cup_grammar.specs.CupDues.{key_line, key_of_head};
ghost use Rattle.cup_grammar.specs.CupExpected.{after_in_cup};
ghost use Rattle.cup_grammar.specs.inside.CupParts.{is_token_in_range};
ghost use Rattle.cup_grammar.specs.inside.CupRowTruths.{counts_in_cup};
ghost use Rattle.cup_check.specs.inside.CupSideCalls.{after_key_if};

use club_keys::ClubKey;
use cup_grammar::CupToken;
use cup_sheet::GroupKind;
use cup_text::{CupKey, CupLine};

/// So many parts has a key in a line.
pub const CUP_KEY_PARTS: usize = 7;

/// The key that a line that counts has for refutations.
pub fn key_in(token: &CupToken) -> Option<ClubKey>
    requires counted { IsTrue (counts_in_cup token.now) }
    requires ranges { IsTrue (is_token_in_range token.now) }
    ensures { (basis : CupBasis) (claim : Claim) (club : ℕ) → after_in_cup basis
        (key_line claim club) token.now ≡ after_key_if claim club result }
{
    match token {
        CupToken::Proof(CupLine::KeyLine(key)) => Some(key_with(key.parts.as_slice())),
        _ => None,
    }
}

/// The key of a head; a kind about the place alone looks at none.
pub fn key_of(kind: GroupKind, key: &Option<CupKey>) -> ClubKey
    requires { IsTrue (is_key_of_kind kind key.now) }
    ensures { asked_key kind (key_parts result)
        ≡ key_of_head (option_map (λ (it : CupKey). it.parts) key.now) }
{
    match key {
        Some(key) => key_with(key.parts.as_slice()),
        None => key_with(&[0; CUP_KEY_PARTS]),
    }
}

// The key with these parts.
fn key_with(parts: &[i32]) -> ClubKey
    requires { length parts.now ≡ CUP_KEY_PARTS }
    ensures { key_parts result ≡ parts.now }
{
    ClubKey {
        points: part_at(parts, 0),
        difference: part_at(parts, 1),
        goals: part_at(parts, 2),
        away_goals: part_at(parts, 3),
        wins: part_at(parts, 4),
        away_wins: part_at(parts, 5),
        by_rank: part_at(parts, 6),
    }
}

fn part_at(parts: &[i32], place: usize) -> i32
    requires { place < length parts.now }
    ensures { result ≡ slice_index_or parts.now place (pos 0) }
{
    parts[place]
}
