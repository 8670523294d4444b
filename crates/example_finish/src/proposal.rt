//! The proposed finish of a zone.

ghost use Rattle.std.specs.Prelude.{◌≡◌, ◌<◌, [], IfOk, Some, length, slice_index_or};
ghost use Rattle.league_core.specs.declared.question.Question.{Question};
ghost use Rattle.league_core.specs.search.Options.{options_in};
ghost use Rattle.league_core.specs.search.Proposals.{first_option, proposed_finish};
ghost use Rattle.score_box.specs.inside.ZoneBoxViews.{HasFinish};
ghost use Rattle.example_finish.specs.inside.Wished.{AreWishesOf, has_wish};

use crate::option::first_option;
use crate::wishes::Wishes;
use league_core::{Event, Finish, Fixture, OutOfMemory, Question, Score, Season};
use score_box::ZoneBox;
use std::alloc::Global;

/// The proposed finish of the box's zone: each fixture takes the first of its options.
pub fn propose(
    alloc: Global,
    zone_box: &ZoneBox,
    question: &Question,
) -> Result<Finish, OutOfMemory>
    requires has_finish { HasFinish zone_box.now }
    requires of_sheet { question.now.club < length zone_box.now.sheet.clubs }
    ensures { IfOk result (λ finish. finish
        ≡ proposed_finish zone_box.now.sheet zone_box.now.season question.now zone_box.now.zone) }
{
    let wishes = Wishes::of(zone_box, question);
    let mut season = zone_box.season().copy(alloc)?;
    take_options(&mut season, zone_box, wishes);
    Ok(Finish::of_season(season).unwrap())
}

// Gives each fixture that is not played the first of its options. A match that is played has its
// score for its one option already.
fn take_options(season: &mut Season, zone_box: &ZoneBox, wishes: Wishes)
    requires has_finish { HasFinish zone_box.now }
    requires season_is { season.old ≡ zone_box.now.season }
    ensures { (question : Question) → AreWishesOf zone_box.now.zone question wishes → season.new
        ≡ proposed_finish zone_box.now.sheet zone_box.now.season question zone_box.now.zone }
{
    let fixtures = zone_box.sheet().fixtures.as_slice();
    let _played = zone_box.season().scores();
    let unplayed = zone_box.unplayed();
    for i in 0..unplayed.len() {
        let fixture = unplayed[i];
        let score = option_of(zone_box, wishes, fixture, fixtures[fixture as usize]);
        season.apply(&Event::Set { fixture, score });
    }
}

/// The first option of one fixture, whose sides these are.
#[inline(always)]
pub fn option_of(zone_box: &ZoneBox, wishes: Wishes, fixture: u16, sides: Fixture) -> Score
    requires has_finish { HasFinish zone_box.now }
    requires in_range { fixture < length zone_box.now.season.scores }
    ensures { first_option (has_wish wishes.near sides.home wishes.claim)
        (has_wish wishes.near sides.away wishes.claim)
        (slice_index_or (options_in zone_box.now.sheet zone_box.now.season zone_box.now.zone)
        fixture []) ≡ Some result }
{
    let cell = zone_box.cell(fixture);
    first_option(cell, wishes.has(sides.home), wishes.has(sides.away)).unwrap()
}
