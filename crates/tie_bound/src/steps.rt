//! The steps of the sure order in a box, each over a table of its own: what the definition says of
//! the clubs of a group against the one.

ghost use Rattle.std.specs.Prelude.{◌≡◌, ◌<◌, ℕ, true, IsTrue, length};
ghost use Rattle.league_core.specs.game.Sums.{has_club};
ghost use Rattle.league_core.specs.game.ClubSets.{clubs_in};
ghost use Rattle.league_core.specs.search.SureOrder.{by_record_ranges, are_all_sure};
ghost use Rattle.league_core.specs.search.SureOrder.{by_first_sum_ranges, are_all_sure_overall};
ghost use Rattle.league_core.specs.search.SureOrder.{by_overall_ranges};
ghost use Rattle.tie_bound.specs.inside.Boxes.{options_in_box, have_one_outcome};
ghost use Rattle.tie_bound.specs.inside.Answers.{IsStepIn, AreByPoints};

use crate::answer_sets::Answers;
use crate::answers::by_points;
use crate::parts::Parts;
use crate::selected::put_sums_for;
use crate::sums::Sums;
use crate::table::{put_sums_among, put_sums_over};
use crate::taken::{Taken, take_overall, take_parts};
use league_core::ClubSet;
use score_box::ZoneBox;

/// The answers of the sheet's clubs by points, from the sums over all matches.
#[inline(never)]
pub fn by_all_matches(zone_box: &ZoneBox, club: u8) -> Answers
    requires { IsTrue (have_one_outcome zone_box.now) }
    ensures { AreByPoints zone_box.now club result }
{
    let mut table = [Sums::NONE; 24];
    put_sums_over(&mut table, zone_box);
    by_points(zone_box, &table, club)
}

/// Takes the head-to-head record for the clubs of a group.
pub fn take_records(answers: Answers, zone_box: &ZoneBox, group: ClubSet, club: u8) -> Taken
    requires outcomes { IsTrue (have_one_outcome zone_box.now) }
    requires group { (member : ℕ) → has_club (clubs_in group) member ≡ true
        → member < length zone_box.now.sheet.clubs }
    ensures answers { IsStepIn (clubs_in group) (λ rival. by_record_ranges zone_box.now.sheet
        (options_in_box zone_box.now) (clubs_in group) rival club) answers result.answers }
    ensures sure { result.is_sure ≡ are_all_sure zone_box.now.sheet
        (options_in_box zone_box.now) (clubs_in group) club }
{
    let _sheet = zone_box.sheet();
    let mut table = [Sums::NONE; 24];
    put_sums_among(&mut table, zone_box, group);
    take_parts(answers, Parts::Record, &table, group, club)
}

/// Takes difference and goals over all matches.
#[inline(never)]
pub fn take_first_sums(answers: Answers, zone_box: &ZoneBox, group: ClubSet, club: u8) -> Taken
    requires outcomes { IsTrue (have_one_outcome zone_box.now) }
    requires group { (member : ℕ) → has_club (clubs_in group) member ≡ true
        → member < length zone_box.now.sheet.clubs }
    ensures answers { IsStepIn (clubs_in group) (λ rival. by_first_sum_ranges zone_box.now.sheet
        (options_in_box zone_box.now) rival club) answers result.answers }
    ensures sure { result.is_sure ≡ are_all_sure_overall zone_box.now.sheet
        (options_in_box zone_box.now) (clubs_in group) club }
{
    let _sheet = zone_box.sheet();
    let mut table = [Sums::NONE; 24];
    put_sums_for(&mut table, zone_box, group, club);
    take_parts(answers, Parts::FirstSums, &table, group, club)
}

/// Takes what decides last: the other sums over all matches, and the ranks.
#[inline(never)]
pub fn take_last(answers: Answers, zone_box: &ZoneBox, group: ClubSet, club: u8) -> Answers
    requires outcomes { IsTrue (have_one_outcome zone_box.now) }
    requires group { (member : ℕ) → has_club (clubs_in group) member ≡ true
        → member < length zone_box.now.sheet.clubs }
    ensures { IsStepIn (clubs_in group) (λ rival. by_overall_ranges zone_box.now.sheet
        (options_in_box zone_box.now) rival club) answers result }
{
    let mut table = [Sums::NONE; 24];
    put_sums_for(&mut table, zone_box, group, club);
    take_overall(answers, zone_box.sheet(), &table, group, club)
}
