//! The near reason by a rival.

ghost use Rattle.std.specs.Prelude.{◌≡◌, ◌<◌, true, ◌&&◌, ◌||◌, List, length};
ghost use Rattle.league_core.specs.declared.zone.Literal.{Literal};
ghost use Rattle.league_core.specs.game.Questions.{IsQuestionOf};
ghost use Rattle.near_laws.specs.Near.{has_near_reason, refutes_by_near, is_pressed_from_behind};
ghost use Rattle.near_laws.specs.Near.{is_pressed_from_ahead, cannot_both_have};
ghost use Rattle.league_core.specs.search.Options.{has_finish};
ghost use Rattle.league_core.specs.search.PointRanges as ranges;
ghost use Rattle.near_bound.specs.inside.AllEnds.{AreAllEnds};
ghost use Rattle.near_bound.specs.inside.ZonesLeft.{IsZoneLeft, StandsFor};

use crate::all_ends::all_ends;
use crate::lead_table::LeadTable;
use crate::level::Level;
use crate::points::PointEnds;
use crate::zone_left::ZoneLeft;
use league_core::Question;

/// The near reason holds by this rival, by its number from 0.
pub fn has_near(left: &ZoneLeft, question: &Question, rival: u8) -> bool
    requires left { IsZoneLeft left.now }
    requires question { IsQuestionOf left.now.sheet.now question.now }
    requires in_range { rival < length left.now.sheet.now.clubs }
    ensures { (zone : List Literal) → StandsFor left.now zone → result
        ≡ has_near_reason left.now.sheet.now left.now.season.now question.now zone rival }
{
    left.has_finish() && has_near_by(left, &all_ends(left), question, rival)
}

fn is_pressed_from_behind(
    left: &ZoneLeft,
    ends: &[PointEnds; 32],
    question: &Question,
    rival: u8,
) -> bool
    requires left { IsZoneLeft left.now }
    requires ends { AreAllEnds left.now ends.now }
    requires question { IsQuestionOf left.now.sheet.now question.now }
    requires in_range { rival < length left.now.sheet.now.clubs }
    ensures { (zone : List Literal) → StandsFor left.now zone → result
        ≡ is_pressed_from_behind left.now.sheet.now left.now.season.now question.now zone rival }
{
    left.after.has(rival) && own_most(left, ends, question) <= ends[rival as usize].least
}

fn is_pressed_from_ahead(
    left: &ZoneLeft,
    ends: &[PointEnds; 32],
    question: &Question,
    rival: u8,
) -> bool
    requires left { IsZoneLeft left.now }
    requires ends { AreAllEnds left.now ends.now }
    requires question { IsQuestionOf left.now.sheet.now question.now }
    requires in_range { rival < length left.now.sheet.now.clubs }
    ensures { (zone : List Literal) → StandsFor left.now zone → result
        ≡ is_pressed_from_ahead left.now.sheet.now left.now.season.now question.now zone rival }
{
    left.before.has(rival) && ends[rival as usize].most <= own_least(left, ends, question)
}

// No more points than these can the club have in its window.
fn own_most(left: &ZoneLeft, ends: &[PointEnds; 32], question: &Question) -> i32
    requires left { IsZoneLeft left.now }
    requires ends { AreAllEnds left.now ends.now }
    requires question { IsQuestionOf left.now.sheet.now question.now }
    ensures { (zone : List Literal) → StandsFor left.now zone → result
        ≡ ranges.own_most left.now.sheet.now left.now.season.now question.now zone }
{
    question.high.min(ends[question.club as usize].most)
}

// No fewer points than these can it have.
fn own_least(left: &ZoneLeft, ends: &[PointEnds; 32], question: &Question) -> i32
    requires left { IsZoneLeft left.now }
    requires ends { AreAllEnds left.now ends.now }
    requires question { IsQuestionOf left.now.sheet.now question.now }
    ensures { (zone : List Literal) → StandsFor left.now zone → result
        ≡ ranges.own_least left.now.sheet.now left.now.season.now question.now zone }
{
    question.low.max(ends[question.club as usize].least)
}

// It does by the points of the clubs.
fn has_near_by(left: &ZoneLeft, ends: &[PointEnds; 32], question: &Question, rival: u8) -> bool
    requires left { IsZoneLeft left.now }
    requires ends { AreAllEnds left.now ends.now }
    requires question { IsQuestionOf left.now.sheet.now question.now }
    requires in_range { rival < length left.now.sheet.now.clubs }
    ensures { (zone : List Literal) → StandsFor left.now zone
        → has_finish left.now.sheet.now left.now.season.now zone ≡ true → result
        ≡ refutes_by_near left.now.sheet.now left.now.season.now question.now zone rival }
{
    is_near_from_behind(left, ends, question, rival)
        || is_near_from_ahead(left, ends, question, rival)
}

// The rival is pressed from behind, and cannot have the club's points with it.
fn is_near_from_behind(
    left: &ZoneLeft,
    ends: &[PointEnds; 32],
    question: &Question,
    rival: u8,
) -> bool
    requires left { IsZoneLeft left.now }
    requires ends { AreAllEnds left.now ends.now }
    requires question { IsQuestionOf left.now.sheet.now question.now }
    requires in_range { rival < length left.now.sheet.now.clubs }
    ensures { (zone : List Literal) → StandsFor left.now zone
        → has_finish left.now.sheet.now left.now.season.now zone ≡ true → result
        ≡ (is_pressed_from_behind left.now.sheet.now left.now.season.now question.now zone rival
        && cannot_both_have left.now.sheet.now left.now.season.now zone
        (ranges.own_most left.now.sheet.now left.now.season.now question.now zone)
        question.now.club rival) }
{
    let points = own_most(left, ends, question);
    is_pressed_from_behind(left, ends, question, rival)
        && cannot_both_be_on(left, ends, points, question.club, rival)
}

// The rival is pressed from ahead, and cannot.
fn is_near_from_ahead(
    left: &ZoneLeft,
    ends: &[PointEnds; 32],
    question: &Question,
    rival: u8,
) -> bool
    requires left { IsZoneLeft left.now }
    requires ends { AreAllEnds left.now ends.now }
    requires question { IsQuestionOf left.now.sheet.now question.now }
    requires in_range { rival < length left.now.sheet.now.clubs }
    ensures { (zone : List Literal) → StandsFor left.now zone
        → has_finish left.now.sheet.now left.now.season.now zone ≡ true → result
        ≡ (is_pressed_from_ahead left.now.sheet.now left.now.season.now question.now zone rival
        && cannot_both_have left.now.sheet.now left.now.season.now zone
        (ranges.own_least left.now.sheet.now left.now.season.now question.now zone)
        question.now.club rival) }
{
    let points = own_least(left, ends, question);
    is_pressed_from_ahead(left, ends, question, rival)
        && cannot_both_be_on(left, ends, points, question.club, rival)
}

// The club and the rival are not both on the points.
fn cannot_both_be_on(
    left: &ZoneLeft,
    ends: &[PointEnds; 32],
    points: i32,
    club: u8,
    rival: u8,
) -> bool
    requires left { IsZoneLeft left.now }
    requires ends { AreAllEnds left.now ends.now }
    requires in_range { club < length left.now.sheet.now.clubs }
    requires rival_in_range { rival < length left.now.sheet.now.clubs }
    ensures { (zone : List Literal) → StandsFor left.now zone
        → has_finish left.now.sheet.now left.now.season.now zone ≡ true
        → result ≡ cannot_both_have left.now.sheet.now left.now.season.now zone points club rival }
{
    Level::of(left, ends, points, club).bars(&mut LeadTable::new(), rival)
}
