//! The JSON values of lines, part by part.

ghost use Rattle.std.specs.Prelude.{◌≡◌, ◌∷◌, [], codes, IfOk, Some};
ghost use Rattle.serde_json.specs.View.{view};
ghost use Rattle.cert_text.specs.Lines.{clubs, number_in_text, test_parts, whole, word};
ghost use Rattle.cert_text.specs.Lines as lines;
ghost use Rattle.cert_text.specs.inside.Values.{parts_value};
ghost use Rattle.cup_text.specs.CupLines.{head_parts};
ghost use Rattle.cup_text.specs.CupLines as texts;
ghost use Rattle.cup_text.specs.CupValues.{cup_line_value, value_with_key};

use crate::cup_line::{CupKey, CupLine};
use crate::leaf_value::{key_value, leaf_value, list_value};
use cup_sheet::GroupKind;
use league_core::{Claim, Score, Test};
use serde_json::{Value, json};
use std::alloc::{AllocError, Global};

/// The array that stands for the line.
pub fn line_value(alloc: Global, line: &CupLine) -> Result<Value, AllocError>
    ensures { IfOk result (λ value. view value ≡ cup_line_value line.now) }
{
    match line {
        CupLine::Finish(claim) => words_value(alloc, "finish", claim_word(*claim)),
        CupLine::Score { fixture, score } => score_value(alloc, *fixture, *score),
        CupLine::Lots(lots) => listed_value(alloc, "lots", lots.list.as_slice()),
        CupLine::Spent { kind, club, key } => spent_value(alloc, *kind, *club, key),
        CupLine::Split(test) => test_value(alloc, "split", *test),
        CupLine::NewSplit(test) => test_value(alloc, "new_split", *test),
        CupLine::Leaf(leaf) => leaf_value(alloc, "leaf", leaf),
        CupLine::NewLeaf(leaf) => leaf_value(alloc, "new_leaf", leaf),
        CupLine::OpenLeaf => json!(in alloc; ["open"]),
        CupLine::KeyLine(key) => key_line_value(alloc, key),
        CupLine::Groups(groups) => listed_value(alloc, "groups", groups.list.as_slice()),
        CupLine::Tree { kind, club } => head_value(alloc, "group_tree", *kind, *club),
    }
}

fn claim_word(claim: Claim) -> &'static str
    ensures { result.now ≡ lines.claim_word claim }
{
    match claim {
        Claim::Inside => "inside",
        Claim::Outside => "outside",
    }
}

fn kind_word(kind: GroupKind) -> &'static str
    ensures { result.now ≡ texts.kind_word kind }
{
    match kind {
        GroupKind::Top => "top",
        GroupKind::Below => "below",
        GroupKind::SecondLess => "second_less",
        GroupKind::SecondAtLeast => "second_at_least",
        GroupKind::SecondMore => "second_more",
        GroupKind::SecondAtMost => "second_at_most",
    }
}

fn words_value(alloc: Global, first: &str, second: &str) -> Result<Value, AllocError>
    ensures { IfOk result
        (λ value. view value ≡ parts_value (word first.now ∷ word second.now ∷ [])) }
{
    json!(in alloc; [first, second])
}

fn score_value(alloc: Global, fixture: u16, score: Score) -> Result<Value, AllocError>
    ensures { IfOk result (λ value. view value ≡ parts_value (word (codes "score")
        ∷ whole (number_in_text fixture) ∷ whole score.home ∷ whole score.away ∷ [])) }
{
    json!(in alloc; ["score", u64::from(fixture) + 1, score.home, score.away])
}

// Clubs or groups after the name of their line.
fn listed_value(alloc: Global, name: &str, numbers: &[u8]) -> Result<Value, AllocError>
    ensures { IfOk result
        (λ value. view value ≡ parts_value (word name.now ∷ clubs numbers.now ∷ [])) }
{
    let list = list_value(alloc, numbers)?;
    json!(in alloc; [name, list])
}

// The head of a tree without a key.
fn head_value(alloc: Global, name: &str, kind: GroupKind, club: u8) -> Result<Value, AllocError>
    ensures { IfOk result (λ value. view value ≡ parts_value (head_parts name.now kind club)) }
{
    json!(in alloc; [name, kind_word(kind), u64::from(club) + 1])
}

fn spent_value(
    alloc: Global,
    kind: GroupKind,
    club: u8,
    key: &Option<CupKey>,
) -> Result<Value, AllocError>
    ensures { IfOk result (λ value. view value
        ≡ value_with_key (head_parts (codes "group_spent") kind club) key.now) }
{
    match key {
        None => head_value(alloc, "group_spent", kind, club),
        Some(key) => {
            let key = key_value(alloc, key)?;
            json!(in alloc; ["group_spent", kind_word(kind), u64::from(club) + 1, key])
        }
    }
}

fn key_line_value(alloc: Global, key: &CupKey) -> Result<Value, AllocError>
    ensures { IfOk result
        (λ value. view value ≡ value_with_key (word (codes "key") ∷ []) (Some key.now)) }
{
    let key = key_value(alloc, key)?;
    json!(in alloc; ["key", key])
}

fn test_value(alloc: Global, name: &str, test: Test) -> Result<Value, AllocError>
    ensures { IfOk result
        (λ value. view value ≡ parts_value (word name.now ∷ test_parts test)) }
{
    match test {
        Test::Home { fixture } => numbered_value(alloc, name, "home", fixture),
        Test::Draw { fixture } => numbered_value(alloc, name, "draw", fixture),
        Test::HomeMost { fixture, most } => bounded_value(alloc, name, "hg", fixture, most),
        Test::AwayMost { fixture, most } => bounded_value(alloc, name, "ag", fixture, most),
        Test::Rival { club } => numbered_value(alloc, name, "rival", u16::from(club)),
    }
}

// A kind of test with the fixture or the club that it is of.
fn numbered_value(alloc: Global, name: &str, kind: &str, number: u16) -> Result<Value, AllocError>
    ensures { IfOk result (λ value. view value ≡ parts_value
        (word name.now ∷ word kind.now ∷ whole (number_in_text number) ∷ [])) }
{
    json!(in alloc; [name, kind, u64::from(number) + 1])
}

// A kind of test with its fixture and a bound on goals.
fn bounded_value(
    alloc: Global,
    name: &str,
    kind: &str,
    fixture: u16,
    most: u8,
) -> Result<Value, AllocError>
    ensures { IfOk result (λ value. view value ≡ parts_value
        (word name.now ∷ word kind.now ∷ whole (number_in_text fixture) ∷ whole most ∷ [])) }
{
    json!(in alloc; [name, kind, u64::from(fixture) + 1, most])
}
