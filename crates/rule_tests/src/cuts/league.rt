//! Leagues of six clubs, A to F, and the cuts of their zones.

ghost use Rattle.std.specs.Prelude.{◌<◌, length, IfOk};
ghost use Rattle.league_core.specs.game.Seasons.{IsLeague};

use crate::drawn_boxes::league_in;
use flow_bound::{FlowKeep, high_cut, high_cut_from, low_cut, low_cut_from};
use league_core::{ClubSet, Listing, Literal, Question, Zone};
use sample_leagues::{Sample, is_of_sheet};
use score_box::ZoneBox;
use std::alloc::Global;
use std::process::Abort;
use std::test::Fail;

const SIX: &[u8] = b"league,Six,3\nclub,A,1\nclub,B,2\nclub,C,3\nclub,D,4\nclub,E,5\nclub,F,6\n";

/// What both calls answer, the floor cut first.
pub type Cuts = (Option<ClubSet>, Option<ClubSet>);

fn text_of(alloc: Global, matches: &[u8]) -> Result<Vec<u8>, Fail> {
    let mut text = Vec::from_slice(alloc, SIX)?;
    text.extend_from_slice(matches)?;
    Ok(text)
}

fn six_clubs(alloc: Global, matches: &[u8]) -> Result<Sample, Fail>
    ensures { IfOk result (λ sample. IsLeague sample.sheet sample.season) }
{
    let text = text_of(alloc, matches)?;
    league_in(alloc, &text)
}

/// Both cuts over a box; none if its zone has no finish.
pub fn cuts_over(
    alloc: Global,
    zone_box: &ZoneBox,
    question: &Question,
) -> Result<Option<Cuts>, Fail>
    requires { question.now.club < length zone_box.now.sheet.clubs }
{
    if !zone_box.has_finish() {
        return Ok(None);
    }
    let low = low_cut(alloc, zone_box, question)?;
    Ok(Some((low, high_cut(alloc, zone_box, question)?)))
}

/// The same, from what the keep holds.
pub fn cuts_from(
    alloc: Global,
    zone_box: &ZoneBox,
    question: &Question,
    keep: &mut FlowKeep,
) -> Result<Option<Cuts>, Fail>
    requires { question.now.club < length zone_box.now.sheet.clubs }
{
    if !zone_box.has_finish() {
        return Ok(None);
    }
    let low = low_cut_from(alloc, zone_box, question, keep)?;
    Ok(Some((low, high_cut_from(alloc, zone_box, question, keep)?)))
}

fn cuts_in(
    rt: &impl Abort,
    alloc: Global,
    sample: &Sample,
    zone: &Zone,
    question: &Question,
    keep: &mut FlowKeep,
) -> Result<Option<Cuts>, Fail>
    requires { IsLeague sample.now.sheet sample.now.season }
{
    assert!(rt; is_of_sheet(&sample.sheet, zone.literals.as_slice()));
    assert!(rt; (question.club as usize) < sample.sheet.clubs.len());
    let zone_box = ZoneBox::of(alloc, &sample.sheet, &sample.season, zone)?;
    cuts_from(alloc, &zone_box, question, keep)
}

fn cuts_after(
    rt: &impl Abort,
    alloc: Global,
    sample: &Sample,
    literals: &[Literal],
    question: &Question,
    keep: &mut FlowKeep,
) -> Result<Option<Cuts>, Fail>
    requires { IsLeague sample.now.sheet sample.now.season }
{
    let zone = Zone {
        literals: Listing::from_vec(literals.to_vec(alloc)?),
    };
    cuts_in(rt, alloc, sample, &zone, question, keep)
}

/// Both cuts in the zone of these literals, in the league of these matches and results, sought from
/// what the keep holds; none if the zone has no finish.
pub fn cuts_of(
    rt: &impl Abort,
    alloc: Global,
    matches: &[u8],
    literals: &[Literal],
    question: &Question,
    keep: &mut FlowKeep,
) -> Result<Option<Cuts>, Fail> {
    let sample = six_clubs(alloc, matches)?;
    cuts_after(rt, alloc, &sample, literals, question, keep)
}
