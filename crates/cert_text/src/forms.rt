//! Which proof line a JSON value has the form of, form by form.

ghost use Rattle.std.specs.Prelude.{◌≡◌, IfOk};
ghost use Rattle.serde_json.specs.View.{view};
ghost use Rattle.cert_text.specs.Forms.{home_test_in, draw_test_in, home_most_test_in};
ghost use Rattle.cert_text.specs.Forms.{away_most_test_in, rival_test_in, test_named, test_in};
ghost use Rattle.cert_text.specs.Forms.{test_below_in};
ghost use Rattle.cert_text.specs.Forms.{cut_set_in, bare_reason_named, reason_named, reason_in};
ghost use Rattle.cert_text.specs.Forms.{tree_head_in, window_head_in, spent_head_in};
ghost use Rattle.cert_text.specs.Forms.{finish_head_in, score_line_in, lots_line_in};
ghost use Rattle.cert_text.specs.Forms.{node_line_named, line_named, line_of_value};

use crate::places::{claim, club, clubs, ends, fixture, number, points, set, word};
use crate::proof_line::{ClubList, ProofLine};
use league_core::limits::{MOST_CLUBS, MOST_FIXTURES, MOST_GOALS};
use league_core::{ClubSet, Listing, OutOfMemory, Reason, Score, Test};
use serde_json::Value;
use std::alloc::Global;

/// The line that the value has the form of; `None` if it has none of the forms.
pub fn line_of(alloc: Global, value: &Value) -> Result<Option<ProofLine>, OutOfMemory>
    ensures { IfOk result (λ found. found ≡ line_of_value (view value.now)) }
{
    match word(value, 0) {
        Some(name) => named_line(alloc, value, name),
        None => Ok(None),
    }
}

// The line whose first word this is.
fn named_line(alloc: Global, value: &Value, name: &str) -> Result<Option<ProofLine>, OutOfMemory>
    ensures { IfOk result (λ found. found ≡ line_named name.now (view value.now)) }
{
    if name == "tree" {
        Ok(tree_head(value))
    } else if name == "spent" {
        Ok(spent_head(value))
    } else if name == "finish" {
        Ok(finish_head(value))
    } else if name == "score" {
        Ok(score_line(value))
    } else if name == "lots" {
        lots_line(alloc, value)
    } else {
        named_node(alloc, value, name)
    }
}

fn tree_head(value: &Value) -> Option<ProofLine>
    ensures { result ≡ tree_head_in (view value.now) }
{
    if ends(value, 2) {
        Some(ProofLine::Tree(claim(value, 1)?))
    } else {
        None
    }
}

fn spent_head(value: &Value) -> Option<ProofLine>
    ensures { result ≡ spent_head_in (view value.now) }
{
    if ends(value, 2) {
        Some(ProofLine::Spent(claim(value, 1)?))
    } else {
        window_head(value)
    }
}

fn window_head(value: &Value) -> Option<ProofLine>
    ensures { result ≡ window_head_in (view value.now) }
{
    if ends(value, 4) {
        let claim = claim(value, 1)?;
        let low = points(value, 2)?;
        let high = points(value, 3)?;
        Some(ProofLine::SpentWindow { claim, low, high })
    } else {
        None
    }
}

fn finish_head(value: &Value) -> Option<ProofLine>
    ensures { result ≡ finish_head_in (view value.now) }
{
    if ends(value, 2) {
        Some(ProofLine::Finish(claim(value, 1)?))
    } else {
        None
    }
}

fn score_line(value: &Value) -> Option<ProofLine>
    ensures { result ≡ score_line_in (view value.now) }
{
    if ends(value, 4) {
        let fixture = fixture(value, 1, MOST_FIXTURES)?;
        let home = number(value, 2, 0, u64::from(MOST_GOALS))? as u8;
        let away = number(value, 3, 0, u64::from(MOST_GOALS))? as u8;
        let score = Score { home, away };
        Some(ProofLine::Score { fixture, score })
    } else {
        None
    }
}

fn lots_line(alloc: Global, value: &Value) -> Result<Option<ProofLine>, OutOfMemory>
    ensures { IfOk result (λ found. found ≡ lots_line_in (view value.now)) }
{
    if !ends(value, 2) {
        return Ok(None);
    }
    match clubs(alloc, value, 1, MOST_CLUBS)? {
        Some(clubs) => Ok(Some(ProofLine::Lots(ClubList {
            list: Listing::from_vec(clubs),
        }))),
        None => Ok(None),
    }
}

// A node of a tree, by the first word of its line.
fn named_node(alloc: Global, value: &Value, name: &str) -> Result<Option<ProofLine>, OutOfMemory>
    ensures { IfOk result (λ found. found ≡ node_line_named name.now (view value.now)) }
{
    if name == "split" {
        Ok(test(value).map(ProofLine::Split))
    } else if name == "new_split" {
        Ok(test(value).map(ProofLine::NewSplit))
    } else if name == "leaf" {
        Ok(reason(alloc, value)?.map(ProofLine::Leaf))
    } else if name == "new_leaf" {
        Ok(reason(alloc, value)?.map(ProofLine::NewLeaf))
    } else if name == "open" && ends(value, 1) {
        Ok(Some(ProofLine::OpenLeaf))
    } else {
        Ok(None)
    }
}

// The test of a line that has one.
fn test(value: &Value) -> Option<Test>
    ensures { result ≡ test_in (view value.now) }
{
    test_below(value, MOST_FIXTURES, MOST_CLUBS)
}

/// The test of a line that has one, of one of so many fixtures or clubs.
pub fn test_below(value: &Value, fixtures: u16, clubs: u8) -> Option<Test>
    ensures { result ≡ test_below_in fixtures clubs (view value.now) }
{
    named_test(value, word(value, 1)?, fixtures, clubs)
}

fn named_test(value: &Value, name: &str, fixtures: u16, clubs: u8) -> Option<Test>
    ensures { result ≡ test_named fixtures clubs name.now (view value.now) }
{
    if name == "home" {
        home_win(value, fixtures)
    } else if name == "draw" {
        drawn(value, fixtures)
    } else if name == "hg" {
        home_most(value, fixtures)
    } else if name == "ag" {
        away_most(value, fixtures)
    } else if name == "rival" {
        rival(value, clubs)
    } else {
        None
    }
}

fn home_win(value: &Value, fixtures: u16) -> Option<Test>
    ensures { result ≡ home_test_in fixtures (view value.now) }
{
    if ends(value, 3) {
        let fixture = fixture(value, 2, fixtures)?;
        Some(Test::Home { fixture })
    } else {
        None
    }
}

fn drawn(value: &Value, fixtures: u16) -> Option<Test>
    ensures { result ≡ draw_test_in fixtures (view value.now) }
{
    if ends(value, 3) {
        let fixture = fixture(value, 2, fixtures)?;
        Some(Test::Draw { fixture })
    } else {
        None
    }
}

fn home_most(value: &Value, fixtures: u16) -> Option<Test>
    ensures { result ≡ home_most_test_in fixtures (view value.now) }
{
    if ends(value, 4) {
        let fixture = fixture(value, 2, fixtures)?;
        let most = number(value, 3, 0, u64::from(MOST_GOALS) - 1)? as u8;
        Some(Test::HomeMost { fixture, most })
    } else {
        None
    }
}

fn away_most(value: &Value, fixtures: u16) -> Option<Test>
    ensures { result ≡ away_most_test_in fixtures (view value.now) }
{
    if ends(value, 4) {
        let fixture = fixture(value, 2, fixtures)?;
        let most = number(value, 3, 0, u64::from(MOST_GOALS) - 1)? as u8;
        Some(Test::AwayMost { fixture, most })
    } else {
        None
    }
}

fn rival(value: &Value, clubs: u8) -> Option<Test>
    ensures { result ≡ rival_test_in clubs (view value.now) }
{
    if ends(value, 3) {
        let club = club(value, 2, clubs)?;
        Some(Test::Rival { club })
    } else {
        None
    }
}

// The reason of a line that has one.
fn reason(alloc: Global, value: &Value) -> Result<Option<Reason>, OutOfMemory>
    ensures { IfOk result (λ found. found ≡ reason_in (view value.now)) }
{
    match word(value, 1) {
        Some(name) => named_reason(alloc, value, name),
        None => Ok(None),
    }
}

fn named_reason(alloc: Global, value: &Value, name: &str) -> Result<Option<Reason>, OutOfMemory>
    ensures { IfOk result (λ found. found ≡ reason_named name.now (view value.now)) }
{
    if name == "low" {
        Ok(cut_set(alloc, value)?.map(Reason::Low))
    } else if name == "high" {
        Ok(cut_set(alloc, value)?.map(Reason::High))
    } else {
        Ok(bare_reason(value, name))
    }
}

// The set of a cut, in the last place.
fn cut_set(alloc: Global, value: &Value) -> Result<Option<ClubSet>, OutOfMemory>
    ensures { IfOk result (λ found. found ≡ cut_set_in (view value.now)) }
{
    if ends(value, 3) {
        set(alloc, value, 2)
    } else {
        Ok(None)
    }
}

// A reason that is one word.
fn bare_reason(value: &Value, name: &str) -> Option<Reason>
    ensures { result ≡ bare_reason_named name.now (view value.now) }
{
    if !ends(value, 2) {
        None
    } else if name == "count" {
        Some(Reason::Count)
    } else if name == "window" {
        Some(Reason::Window)
    } else if name == "tie" {
        Some(Reason::Tie)
    } else {
        None
    }
}
