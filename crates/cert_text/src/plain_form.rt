//! Proof lines out of their own texts, those that `write_line` gives, byte by byte. The reader of
//! JSON sets up 16,384 bytes for each text, and nearly all lines of a report are such texts.

ghost use Rattle.std.specs.Prelude.{◌≡◌, Some, IfOk, IfSome, codes};
ghost use Rattle.cert_text.specs.Forms.{line_in};
ghost use Rattle.cert_text.specs.inside.PlainForms.{text_named};

use crate::plain_node::node_in_line;
use crate::plain_number::{behind, clubs_at_end, is_all, number};
use crate::proof_line::{ClubList, ProofLine, marked_line};
use league_core::limits::{MOST_CLUBS, MOST_FIXTURES, MOST_GOALS};
use league_core::{Claim, Listing, OutOfMemory, Score};
use std::alloc::Global;

/// The line whose own text this is. It may find nothing in another text of a line, nor in a form
/// that few lines have.
pub fn plain_line(alloc: Global, text: &[u8]) -> Result<Option<ProofLine>, OutOfMemory>
    ensures { IfOk result (λ found. IfSome found (λ line. line_in text.now ≡ Some line)) }
{
    if let Some(node) = node_in_line(text) {
        Ok(Some(marked_line(node)))
    } else if let Some(rest) = behind(text, b"[\"score\"") {
        Ok(score_line(rest))
    } else if let Some(rest) = behind(text, b"[\"lots\"") {
        lots_line(alloc, rest)
    } else {
        Ok(head_line(text))
    }
}

fn score_line(text: &[u8]) -> Option<ProofLine>
    ensures { IfSome result (λ line. line_in (text_named (codes "score") text.now) ≡ Some line) }
{
    let (fixture, rest) = number(text, 1, MOST_FIXTURES)?;
    let (home, rest) = number(rest, 0, u16::from(MOST_GOALS))?;
    let (away, rest) = number(rest, 0, u16::from(MOST_GOALS))?;
    if !is_all(rest, b"]") {
        return None;
    }
    Some(ProofLine::Score {
        fixture: fixture - 1,
        score: Score {
            home: home as u8,
            away: away as u8,
        },
    })
}

fn lots_line(alloc: Global, text: &[u8]) -> Result<Option<ProofLine>, OutOfMemory>
    ensures { IfOk result (λ found. IfSome found (λ line.
        line_in (text_named (codes "lots") text.now) ≡ Some line)) }
{
    match clubs_at_end(alloc, text, MOST_CLUBS)? {
        Some(clubs) => Ok(Some(ProofLine::Lots(ClubList {
            list: Listing::from_vec(clubs),
        }))),
        None => Ok(None),
    }
}

// The head of an example or of a refutation.
fn head_line(text: &[u8]) -> Option<ProofLine>
    ensures { IfSome result (λ line. line_in text.now ≡ Some line) }
{
    if is_all(text, b"[\"finish\",\"inside\"]") {
        Some(ProofLine::Finish(Claim::Inside))
    } else if is_all(text, b"[\"finish\",\"outside\"]") {
        Some(ProofLine::Finish(Claim::Outside))
    } else if is_all(text, b"[\"tree\",\"inside\"]") {
        Some(ProofLine::Tree(Claim::Inside))
    } else if is_all(text, b"[\"tree\",\"outside\"]") {
        Some(ProofLine::Tree(Claim::Outside))
    } else {
        None
    }
}
