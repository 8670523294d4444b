//! The two calls. They differ in the cut that they seek, and in the level that it counts from.

ghost use Rattle.std.specs.Prelude.{◌≡◌, ◌<◌, ◌≤ℤ◌, ◌^◌, pos, neg_ℤ, false, None};
ghost use Rattle.std.specs.Prelude.{IfOk, IfSome, IsTrue, OnErr, length};
ghost use Rattle.league_core.specs.declared.club_set.ClubSet.{ClubSet};
ghost use Rattle.league_core.specs.declared.zone.Reason.TheVariants.{Low, High};
ghost use Rattle.score_box.specs.inside.Points.{most_taken_off};
ghost use Rattle.score_box.specs.inside.ZoneBoxViews.{HasFinish, HasReason};
ghost use Rattle.league_core.specs.search.Reasons.{has_reason};
ghost use Rattle.league_core.specs.search.Zones.{marked_after, marked_before};
ghost use Rattle.score_box.specs.inside.Boxes.{IsSetOf};
ghost use Rattle.flow_bound.specs.inside.Cuts.{excess_for, level_for, marked_for, reason_for};
ghost use Rattle.flow_bound.specs.inside.Excess.{IsChosen, IsLeftOpen, high_excess};
ghost use Rattle.flow_bound.specs.inside.Excess.{low_excess};

use crate::choice::choose;
use crate::cut::Cut;
use crate::keep::FlowKeep;
use crate::tally::own_entries;
use league_core::{ClubSet, OutOfMemory, Question};
use score_box::{ZoneBox, own_least, own_most};
use std::alloc::Global;

/// A set of rivals that makes a floor cut of the box, or none if no set does.
///
/// If a rival makes one alone, the first such rival in the sheet is returned. Otherwise the set is
/// the least of those with the greatest excess. Either way each set of greatest excess has its
/// clubs. Memory is needed only if neither a rival alone nor dropping the rivals that add nothing
/// decides.
pub fn low_cut(
    alloc: Global,
    zone_box: &ZoneBox,
    question: &Question,
) -> Result<Option<ClubSet>, OutOfMemory>
    requires has_finish { HasFinish zone_box.now }
    requires of_sheet { question.now.club < length zone_box.now.sheet.clubs }
    ensures found { IfOk result (λ answer. IfSome answer (λ set.
        HasReason zone_box.now question.now (Low set))) }
    ensures absent { IfOk result (λ answer. answer ≡ None → (set : ClubSet) →
        has_reason zone_box.now.sheet zone_box.now.season question.now zone_box.now.zone (Low set)
        ≡ false) }
    ensures chosen { IfOk result (λ answer. IfSome answer
        (IsChosen (marked_after zone_box.now.zone)
        (low_excess zone_box.now.sheet zone_box.now.season question.now zone_box.now.zone))) }
    ensures spared { OnErr result (IsLeftOpen (marked_after zone_box.now.zone)
        (low_excess zone_box.now.sheet zone_box.now.season question.now zone_box.now.zone)) }
{
    low_cut_from(alloc, zone_box, question, &mut FlowKeep::new())
}

/// The set of [`low_cut`], sought from what an earlier search left in the keep, whatever that was.
pub fn low_cut_from(
    alloc: Global,
    zone_box: &ZoneBox,
    question: &Question,
    keep: &mut FlowKeep,
) -> Result<Option<ClubSet>, OutOfMemory>
    requires has_finish { HasFinish zone_box.now }
    requires of_sheet { question.now.club < length zone_box.now.sheet.clubs }
    ensures found { IfOk result (λ answer. IfSome answer (λ set.
        HasReason zone_box.now question.now (Low set))) }
    ensures absent { IfOk result (λ answer. answer ≡ None → (set : ClubSet) →
        has_reason zone_box.now.sheet zone_box.now.season question.now zone_box.now.zone (Low set)
        ≡ false) }
    ensures chosen { IfOk result (λ answer. IfSome answer
        (IsChosen (marked_after zone_box.now.zone)
        (low_excess zone_box.now.sheet zone_box.now.season question.now zone_box.now.zone))) }
    ensures spared { OnErr result (IsLeftOpen (marked_after zone_box.now.zone)
        (low_excess zone_box.now.sheet zone_box.now.season question.now zone_box.now.zone)) }
{
    cut_from(alloc, zone_box, question, Cut::Floor, keep)
}

/// A set of rivals that makes a ceiling cut of the box, or none if no set does; chosen as in
/// [`low_cut`].
pub fn high_cut(
    alloc: Global,
    zone_box: &ZoneBox,
    question: &Question,
) -> Result<Option<ClubSet>, OutOfMemory>
    requires has_finish { HasFinish zone_box.now }
    requires of_sheet { question.now.club < length zone_box.now.sheet.clubs }
    ensures found { IfOk result (λ answer. IfSome answer (λ set.
        HasReason zone_box.now question.now (High set))) }
    ensures absent { IfOk result (λ answer. answer ≡ None → (set : ClubSet) →
        has_reason zone_box.now.sheet zone_box.now.season question.now zone_box.now.zone (High set)
        ≡ false) }
    ensures chosen { IfOk result (λ answer. IfSome answer
        (IsChosen (marked_before zone_box.now.zone)
        (high_excess zone_box.now.sheet zone_box.now.season question.now zone_box.now.zone))) }
    ensures spared { OnErr result (IsLeftOpen (marked_before zone_box.now.zone)
        (high_excess zone_box.now.sheet zone_box.now.season question.now zone_box.now.zone)) }
{
    high_cut_from(alloc, zone_box, question, &mut FlowKeep::new())
}

/// The set of [`high_cut`], sought from what an earlier search left in the keep, whatever that was.
pub fn high_cut_from(
    alloc: Global,
    zone_box: &ZoneBox,
    question: &Question,
    keep: &mut FlowKeep,
) -> Result<Option<ClubSet>, OutOfMemory>
    requires has_finish { HasFinish zone_box.now }
    requires of_sheet { question.now.club < length zone_box.now.sheet.clubs }
    ensures found { IfOk result (λ answer. IfSome answer (λ set.
        HasReason zone_box.now question.now (High set))) }
    ensures absent { IfOk result (λ answer. answer ≡ None → (set : ClubSet) →
        has_reason zone_box.now.sheet zone_box.now.season question.now zone_box.now.zone (High set)
        ≡ false) }
    ensures chosen { IfOk result (λ answer. IfSome answer
        (IsChosen (marked_before zone_box.now.zone)
        (high_excess zone_box.now.sheet zone_box.now.season question.now zone_box.now.zone))) }
    ensures spared { OnErr result (IsLeftOpen (marked_before zone_box.now.zone)
        (high_excess zone_box.now.sheet zone_box.now.season question.now zone_box.now.zone)) }
{
    cut_from(alloc, zone_box, question, Cut::Ceiling, keep)
}

// A set that makes such a cut.
fn cut_from(
    alloc: Global,
    zone_box: &ZoneBox,
    question: &Question,
    cut: Cut,
    keep: &mut FlowKeep,
) -> Result<Option<ClubSet>, OutOfMemory>
    requires has_finish { HasFinish zone_box.now }
    requires of_sheet { question.now.club < length zone_box.now.sheet.clubs }
    ensures found { IfOk result (λ answer. IfSome answer (λ set.
        HasReason zone_box.now question.now (reason_for cut set))) }
    ensures absent { IfOk result (λ answer. answer ≡ None → (set : ClubSet) →
        has_reason zone_box.now.sheet zone_box.now.season question.now zone_box.now.zone
        (reason_for cut set) ≡ false) }
    ensures chosen { IfOk result (λ answer. IfSome answer
        (IsChosen (marked_for cut zone_box.now.zone) (excess_for cut zone_box.now.sheet
        zone_box.now.season question.now zone_box.now.zone))) }
    ensures spared { OnErr result (IsLeftOpen (marked_for cut zone_box.now.zone) (excess_for cut
        zone_box.now.sheet zone_box.now.season question.now zone_box.now.zone)) }
{
    let rivals = rivals_for(zone_box, cut);
    if rivals.is_empty() {
        return Ok(None);
    }
    let level = level_for(zone_box, question, cut);
    let alone = own_entries(zone_box, cut, level);
    let chosen = choose(alloc, zone_box, cut, &alone, rivals, keep)?;
    Ok(chosen)
}

fn rivals_for(zone_box: &ZoneBox, cut: Cut) -> ClubSet
    ensures { IsSetOf result (marked_for cut zone_box.now.zone) }
{
    match cut {
        Cut::Floor => zone_box.after(),
        Cut::Ceiling => zone_box.before(),
    }
}

fn level_for(zone_box: &ZoneBox, question: &Question, cut: Cut) -> i64
    requires has_finish { HasFinish zone_box.now }
    requires of_sheet { question.now.club < length zone_box.now.sheet.clubs }
    ensures value { result ≡ level_for cut zone_box.now.sheet zone_box.now.season question.now
        zone_box.now.zone }
    ensures least { neg_ℤ most_taken_off ≤ℤ result }
    ensures most { result ≤ℤ pos (2 ^ 31) }
{
    match cut {
        Cut::Floor => -i64::from(own_most(zone_box, question)),
        Cut::Ceiling => i64::from(own_least(zone_box, question)),
    }
}
