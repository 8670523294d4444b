//! A step for the clubs of a group: what a table of sums says of each of them against the one.

ghost use Rattle.std.specs.Prelude.{◌≡◌, ◌<◌, ℕ, true, ◌&&◌, ◌||◌, length};
ghost use Rattle.std.specs.List.{list_all};
ghost use Rattle.league_core.specs.declared.sure.Sure.TheVariants.{Unknown};
ghost use Rattle.league_core.specs.game.Sums.{has_club};
ghost use Rattle.league_core.specs.game.ClubSets.{clubs_in};
ghost use Rattle.league_core.specs.search.SureOrder.{sure_by_ranges, is_level, is_apart};
ghost use Rattle.tie_bound.specs.inside.Answers.{ranges_of, by_table, by_overall_table};
ghost use Rattle.tie_bound.specs.inside.Answers.{is_sure_by, IsStepIn};

use crate::answer_sets::Answers;
use crate::order::{are_apart, by_overall, by_parts};
use crate::parts::Parts;
use crate::sums::{Sums, row, sums_at};
use league_core::{ClubSet, Sheet, Sure};

/// The answers after a step for the clubs of a group, and whether it is sure of each of them if it
/// shares the one's parts.
#[derive(Clone, Copy)]
pub struct Taken {
    pub answers: Answers,
    pub is_sure: bool,
}

/// Takes these parts for the clubs of a group, by a table of sums.
#[inline(always)]
pub fn take_parts(answers: Answers, parts: Parts, table: &[Sums], group: ClubSet, club: u8) -> Taken
    requires { (member : ℕ) → has_club (clubs_in group) member ≡ true
        → member < length table.now }
    ensures answers { IsStepIn (clubs_in group) (by_table parts table.now club) answers
        result.answers }
    ensures sure { result.is_sure ≡ list_all (is_sure_by parts table.now club) (clubs_in group) }
{
    let own = *sums_at(table, club);
    let mut said = Answers::open();
    let mut is_sure = true;
    for rival in group.clubs() {
        let sums = row(table, rival);
        let answer = by_parts(parts, sums, &own);
        is_sure = stays_sure(is_sure, answer, parts, sums, &own);
        said = said.with(rival, answer);
    }
    Taken {
        answers: answers.then_in(group, said),
        is_sure,
    }
}

// It was sure so far, and it is sure of another club whether it shares the club's parts.
fn stays_sure(is_sure: bool, answer: Sure, parts: Parts, other: &Sums, club: &Sums) -> bool
    requires { answer
        ≡ sure_by_ranges (ranges_of parts other.now) (ranges_of parts club.now) }
    ensures { result ≡ (is_sure
        && (is_level (sure_by_ranges (ranges_of parts other.now) (ranges_of parts club.now))
        || is_apart (ranges_of parts other.now) (ranges_of parts club.now))) }
{
    match answer {
        Sure::Unknown => is_sure && are_apart(parts, other, club),
        _ => is_sure,
    }
}

/// Takes the sums over all matches, and the ranks, for the clubs of a group.
pub fn take_overall(
    answers: Answers,
    sheet: &Sheet,
    overall: &[Sums],
    group: ClubSet,
    club: u8,
) -> Answers
    ensures { IsStepIn (clubs_in group) (by_overall_table sheet.now overall.now club) answers
        result }
{
    let own = sums_at(overall, club);
    let own_rank = sheet.rank_of(club);
    let mut said = Answers::open();
    for rival in group.clubs() {
        let rank = sheet.rank_of(rival);
        let answer = by_overall(sums_at(overall, rival), own, rank, own_rank);
        said = said.with(rival, answer);
    }
    answers.then_in(group, said)
}

/// If nothing has decided yet for the clubs of a group, nothing is sure.
pub fn leave_open(answers: Answers, group: ClubSet) -> Answers
    ensures { IsStepIn (clubs_in group) (λ rival. Unknown) answers result }
{
    answers.then_in(group, Answers::open())
}
