//! The JSON values of proof lines, part by part.

ghost use Rattle.std.specs.Prelude.{◌≡◌, ◌∷◌, [], codes, IfOk, IsTrue};
ghost use Rattle.serde_json.specs.View.{view};
ghost use Rattle.league_core.specs.game.ClubSets.{clubs_in};
ghost use Rattle.cert_text.specs.Lines as lines;
ghost use Rattle.cert_text.specs.Lines.{word, whole, points, parts_of, test_parts, reason_parts};
ghost use Rattle.cert_text.specs.Lines.{number_in_text};
ghost use Rattle.cert_text.specs.inside.Values as values;
ghost use Rattle.cert_text.specs.inside.Values.{parts_value};
ghost use Rattle.cert_text.specs.inside.Widths.{is_set_kept, is_reason_kept, is_line_kept};

use crate::proof_line::ProofLine;
use league_core::{Claim, ClubSet, Reason, Score, Test};
use serde_json::{Value, json};
use std::alloc::{AllocError, Global};

/// The array that stands for the line.
pub fn line_value(alloc: Global, line: &ProofLine) -> Result<Value, AllocError>
    ensures value { IfOk result (λ value. view value ≡ parts_value (parts_of line.now)) }
    ensures kept { IsTrue (is_line_kept line.now) }
{
    match line {
        ProofLine::Tree(claim) => words_value(alloc, "tree", claim_word(*claim)),
        ProofLine::Spent(claim) => words_value(alloc, "spent", claim_word(*claim)),
        ProofLine::SpentWindow { claim, low, high } => window_value(alloc, *claim, *low, *high),
        ProofLine::Split(test) => test_value(alloc, "split", *test),
        ProofLine::NewSplit(test) => test_value(alloc, "new_split", *test),
        ProofLine::Leaf(reason) => reason_value(alloc, "leaf", *reason),
        ProofLine::NewLeaf(reason) => reason_value(alloc, "new_leaf", *reason),
        ProofLine::OpenLeaf => json!(in alloc; ["open"]),
        ProofLine::Finish(claim) => words_value(alloc, "finish", claim_word(*claim)),
        ProofLine::Score { fixture, score } => score_value(alloc, *fixture, *score),
        ProofLine::Lots(lots) => lots_value(alloc, lots.list.as_slice()),
    }
}

fn claim_word(claim: Claim) -> &'static str
    ensures { result.now ≡ lines.claim_word claim }
{
    match claim {
        Claim::Inside => "inside",
        Claim::Outside => "outside",
    }
}

fn words_value(alloc: Global, first: &str, second: &str) -> Result<Value, AllocError>
    ensures { IfOk result
        (λ value. view value ≡ parts_value (word first.now ∷ word second.now ∷ [])) }
{
    json!(in alloc; [first, second])
}

fn window_value(alloc: Global, claim: Claim, low: i32, high: i32) -> Result<Value, AllocError>
    ensures { IfOk result (λ value. view value ≡ parts_value (word (codes "spent")
        ∷ word (lines.claim_word claim) ∷ points low ∷ points high ∷ [])) }
{
    json!(in alloc; ["spent", claim_word(claim), low, high])
}

fn score_value(alloc: Global, fixture: u16, score: Score) -> Result<Value, AllocError>
    ensures { IfOk result (λ value. view value ≡ parts_value (word (codes "score")
        ∷ whole (number_in_text fixture) ∷ whole score.home ∷ whole score.away ∷ [])) }
{
    json!(in alloc; ["score", u64::from(fixture) + 1, score.home, score.away])
}

fn test_value(alloc: Global, name: &str, test: Test) -> Result<Value, AllocError>
    ensures { IfOk result
        (λ value. view value ≡ parts_value (word name.now ∷ test_parts test)) }
{
    match test {
        Test::Home { fixture } => numbered_value(alloc, name, "home", fixture),
        Test::Draw { fixture } => numbered_value(alloc, name, "draw", fixture),
        Test::HomeMost { fixture, most } => bounded_value(alloc, name, "hg", fixture, most),
        Test::AwayMost { fixture, most } => bounded_value(alloc, name, "ag", fixture, most),
        Test::Rival { club } => numbered_value(alloc, name, "rival", u16::from(club)),
    }
}

// A kind of test with the fixture or the club that it is of.
fn numbered_value(alloc: Global, name: &str, kind: &str, number: u16) -> Result<Value, AllocError>
    ensures { IfOk result (λ value. view value ≡ parts_value
        (word name.now ∷ word kind.now ∷ whole (number_in_text number) ∷ [])) }
{
    json!(in alloc; [name, kind, u64::from(number) + 1])
}

// A kind of test with its fixture and a bound on goals.
fn bounded_value(
    alloc: Global,
    name: &str,
    kind: &str,
    fixture: u16,
    most: u8,
) -> Result<Value, AllocError>
    ensures { IfOk result (λ value. view value ≡ parts_value
        (word name.now ∷ word kind.now ∷ whole (number_in_text fixture) ∷ whole most ∷ [])) }
{
    json!(in alloc; [name, kind, u64::from(fixture) + 1, most])
}

fn reason_value(alloc: Global, name: &str, reason: Reason) -> Result<Value, AllocError>
    ensures value { IfOk result
        (λ value. view value ≡ parts_value (word name.now ∷ reason_parts reason)) }
    ensures kept { IsTrue (is_reason_kept reason) }
{
    match reason {
        Reason::Count => words_value(alloc, name, "count"),
        Reason::Window => words_value(alloc, name, "window"),
        Reason::Low(set) => cut_value(alloc, name, "low", set),
        Reason::High(set) => cut_value(alloc, name, "high", set),
        Reason::Tie => words_value(alloc, name, "tie"),
    }
}

fn cut_value(alloc: Global, name: &str, cut: &str, set: ClubSet) -> Result<Value, AllocError>
    ensures value { IfOk result (λ value. view value
        ≡ parts_value (word name.now ∷ word cut.now ∷ lines.clubs (clubs_in set) ∷ [])) }
    ensures kept { IsTrue (is_set_kept set) }
{
    let listed = listed(alloc, set)?;
    let clubs = clubs_value(alloc, listed.as_slice())?;
    json!(in alloc; [name, cut, clubs])
}

fn lots_value(alloc: Global, lots: &[u8]) -> Result<Value, AllocError>
    ensures { IfOk result (λ value. view value
        ≡ parts_value (word (codes "lots") ∷ lines.clubs lots.now ∷ [])) }
{
    let clubs = clubs_value(alloc, lots)?;
    json!(in alloc; ["lots", clubs])
}

// The clubs of a set in the order of their numbers.
fn listed(alloc: Global, set: ClubSet) -> Result<Vec<u8>, AllocError>
    ensures { IfOk result (λ clubs. clubs.items ≡ clubs_in set) }
{
    let mut clubs = Vec::new(alloc);
    for club in set.clubs() {
        clubs.push(club)?;
    }
    Ok(clubs)
}

// The clubs as a list of numbers from 1.
fn clubs_value(alloc: Global, clubs: &[u8]) -> Result<Value, AllocError>
    ensures { IfOk result (λ value. view value ≡ values.clubs_value clubs.now) }
{
    let mut numbers = Vec::new(alloc);
    for club in clubs {
        numbers.push(Value::from(u64::from(*club) + 1))?;
    }
    Ok(Value::Array(numbers))
}
