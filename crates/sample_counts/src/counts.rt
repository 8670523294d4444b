//! Verdicts of a sample league, counted by their words.

ghost use Rattle.std.specs.Prelude.{◌≡◌, IfOk, count_by};
ghost use Rattle.sample_counts.specs.SampleCounts.{IsCountOfSample, counts_of, is_word, has_word};

use crate::sample_pool::sample_pool;
use answer_rows::{Verdict, Word};
use league_core::OutOfMemory;
use std::alloc::Global;
use verdict_run::{finish, verdicts};

/// How many verdicts have each word.
#[derive(Clone, Copy, Debug, PartialEq, Eq)]
pub struct Counts {
    pub clinched: u64,
    pub lost: u64,
    pub possible: u64,
    pub unsettled: u64,
}

/// Works on the league of a seed as far as its budget goes, and counts the words of its verdicts,
/// 36 of them.
pub fn count_sample(alloc: Global, seed: u64) -> Result<Counts, OutOfMemory>
    ensures { IfOk result (IsCountOfSample seed) }
{
    let pool = finish(alloc, sample_pool(alloc, seed)?)?;
    let verdicts = verdicts(alloc, &pool)?;
    Ok(counts_of(verdicts.as_slice()))
}

fn counts_of(verdicts: &[Verdict]) -> Counts
    ensures { result ≡ counts_of verdicts.now }
{
    Counts {
        clinched: count_of(verdicts, Word::Clinched),
        lost: count_of(verdicts, Word::Lost),
        possible: count_of(verdicts, Word::Possible),
        unsettled: count_of(verdicts, Word::Unsettled),
    }
}

fn count_of(verdicts: &[Verdict], word: Word) -> u64
    ensures { result ≡ count_by (has_word word) verdicts.now }
{
    verdicts
        .iter()
        .filter(|verdict| is_word(verdict.word, word))
        .count() as u64
}

fn is_word(one: Word, other: Word) -> bool
    ensures { result ≡ is_word one other }
{
    matches!(
        (one, other),
        (Word::Clinched, Word::Clinched)
            | (Word::Lost, Word::Lost)
            | (Word::Possible, Word::Possible)
            | (Word::Unsettled, Word::Unsettled)
    )
}
