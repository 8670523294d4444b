//! Rivals on the wrong side: by the marks of a zone, as sets, and by what is sure of them.

ghost use Rattle.std.specs.Prelude.{◌≡◌, ◌&&◌, ◌<◌, ◌≤◌, ℕ, nat_lt, IsTrue, length};
ghost use Rattle.std.specs.Prelude.{count_by, ◌||◌};
ghost use Rattle.std.specs.List.{list_all};
ghost use Rattle.league_core.specs.game.Sums.{has_club};
ghost use Rattle.league_core.specs.game.ClubSets.{clubs_in};
ghost use Rattle.league_core.specs.search.Zones.{others_of};
ghost use Rattle.league_core.specs.search.Zones.{rivals_of};
ghost use Rattle.league_core.specs.declared.sure.Sure.{Sure};
ghost use Rattle.league_core.specs.search.SureOrder as order;
ghost use Rattle.league_core.specs.search.Reasons as reasons;
ghost use Rattle.check_bounds.specs.inside.Steps.{sure_at};
ghost use Rattle.check_bounds.specs.inside.Refutes as over;

use league_core::{Claim, ClubSet, Question, Sheet, Sure};

/// The set has a club, and all of its clubs are marked.
pub fn has_members_in(set: ClubSet, marked: ClubSet) -> bool
    ensures { result
        ≡ (reasons.has_member (clubs_in set)
        && list_all (has_club (clubs_in marked)) (clubs_in set)) }
{
    !set.is_empty() && set.without(marked).is_empty()
}

/// Too many rivals are of the one set for a place inside the line, or of the other for one outside.
pub fn too_many(sheet: &Sheet, question: &Question, front: ClubSet, back: ClubSet) -> bool
    requires few { length sheet.now.clubs ≤ 24 }
    requires club { question.now.club < 32 }
    ensures { result ≡ reasons.too_many sheet.now question.now (has_club (clubs_in front))
        (has_club (clubs_in back)) question.now.claim }
{
    let clubs = sheet.clubs.len() as u8;
    match question.claim {
        Claim::Inside => question.line <= rivals_in(sheet, question, front),
        Claim::Outside => clubs.saturating_sub(question.line) <= rivals_in(sheet, question, back),
    }
}

// How many of the question's rivals are of the set.
fn rivals_in(sheet: &Sheet, question: &Question, chosen: ClubSet) -> u8
    requires few { length sheet.now.clubs ≤ 24 }
    requires club { question.now.club < 32 }
    ensures { result ≡ count_by (has_club (clubs_in chosen))
        (rivals_of sheet.now question.now.club) }
{
    count_rivals(sheet.clubs.len() as u8, question.club, chosen)
}

// How many of the other clubs are of the set.
fn count_rivals(clubs: u8, club: u8, chosen: ClubSet) -> u8
    requires few { clubs ≤ 24 }
    requires club { club < 32 }
    ensures { result ≡ count_by (has_club (clubs_in chosen)) (others_of clubs club) }
{
    ClubSet::first(clubs)
        .without(ClubSet::single(club))
        .intersection(chosen)
        .len()
}

/// The marks and what is sure of the rivals decide against the question.
pub fn is_decided(
    sheet: &Sheet,
    question: &Question,
    before: ClubSet,
    after: ClubSet,
    sure: &[Sure; 32],
) -> bool
    requires few { length sheet.now.clubs ≤ 24 }
    requires club { question.now.club < 32 }
    ensures { (known : ℕ → Sure)
        → ((rival : ℕ) → IsTrue (has_club (rivals_of sheet.now question.now.club) rival)
        → sure_at sure.now rival ≡ known rival)
        → result ≡ over.is_decided sheet.now question.now (has_club (clubs_in before))
        (has_club (clubs_in after)) known }
{
    let above = those_above(sure);
    let below = those_below(sure);
    let front = before.union(above);
    let back = after.union(below);
    let not_after = after.intersection(above);
    let not_before = before.intersection(below);
    let wrong = not_after.union(not_before);
    too_many(sheet, question, front, back) || 0 < rivals_in(sheet, question, wrong)
}

fn those_above(sure: &[Sure; 32]) -> ClubSet
    ensures { (club : ℕ) → has_club (clubs_in result) club
        ≡ (nat_lt club 32 && order.is_above (sure_at sure.now club)) }
{
    ClubSet::first(32).keep(|club| is_above(sure[club as usize]))
}

fn those_below(sure: &[Sure; 32]) -> ClubSet
    ensures { (club : ℕ) → has_club (clubs_in result) club
        ≡ (nat_lt club 32 && order.is_below (sure_at sure.now club)) }
{
    ClubSet::first(32).keep(|club| is_below(sure[club as usize]))
}

fn is_above(sure: Sure) -> bool
    ensures { result ≡ order.is_above sure }
{
    match sure {
        Sure::Above => true,
        Sure::Below => false,
        Sure::Level => false,
        Sure::Unknown => false,
    }
}

fn is_below(sure: Sure) -> bool
    ensures { result ≡ order.is_below sure }
{
    match sure {
        Sure::Above => false,
        Sure::Below => true,
        Sure::Level => false,
        Sure::Unknown => false,
    }
}
