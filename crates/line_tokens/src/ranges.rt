//! What the lines of a tree may name, for a sheet and a question.

ghost use Rattle.std.specs.Prelude.{◌≡◌, ◌<◌, length};
ghost use Rattle.league_core.specs.game.ClubSets.{clubs_in};
ghost use Rattle.league_core.specs.game.Sheets.{IsWithinLimits};
ghost use Rattle.league_core.specs.search.Zones.{is_test_of, is_of_rival};
ghost use Rattle.cert_text.specs.TreeLines as tree_lines;
ghost use Rattle.line_tokens.specs.LineRanges as ranges;

use cert_text::is_test_below;
use league_core::limits::{MOST_CLUBS, MOST_FIXTURES};
use league_core::{ClubSet, Question, Reason, Sheet, Test};
use wide_lines::WideReason;

/// A tree for the question may split by this test.
pub fn is_test_for(sheet: &Sheet, question: &Question, test: Test) -> bool
    ensures { result ≡ tree_lines.is_test_for sheet.now question.now test }
{
    is_test_below(test, MOST_FIXTURES, MOST_CLUBS)
        && is_of_sheet(sheet, test)
        && !is_of_rival(question.club, test)
}

fn is_of_sheet(sheet: &Sheet, test: Test) -> bool
    ensures { result ≡ is_test_of sheet.now test }
{
    match test {
        Test::Home { fixture } => (fixture as usize) < sheet.fixtures.len(),
        Test::Draw { fixture } => (fixture as usize) < sheet.fixtures.len(),
        Test::HomeMost { fixture, .. } => (fixture as usize) < sheet.fixtures.len(),
        Test::AwayMost { fixture, .. } => (fixture as usize) < sheet.fixtures.len(),
        Test::Rival { club } => (club as usize) < sheet.clubs.len(),
    }
}

fn is_of_rival(rival: u8, test: Test) -> bool
    ensures { result ≡ is_of_rival rival test }
{
    match test {
        Test::Rival { club } => club == rival,
        _ => false,
    }
}

/// A leaf of a tree for the question may have this reason.
pub fn is_reason_for(sheet: &Sheet, question: &Question, reason: Reason) -> bool
    requires limits { IsWithinLimits sheet.now }
    requires in_range { question.now.club < length sheet.now.clubs }
    ensures { result ≡ ranges.is_reason_for sheet.now question.now reason }
{
    match reason {
        Reason::Count => true,
        Reason::Window => true,
        Reason::Low(set) => is_set_for(sheet, question, set),
        Reason::High(set) => is_set_for(sheet, question, set),
        Reason::Tie => true,
    }
}

/// A leaf of a wide tree for the question may have this reason.
pub fn is_wide_reason_for(sheet: &Sheet, question: &Question, reason: WideReason) -> bool
    requires limits { IsWithinLimits sheet.now }
    requires in_range { question.now.club < length sheet.now.clubs }
    ensures { result ≡ ranges.is_wide_reason_for sheet.now question.now reason }
{
    match reason {
        WideReason::Plain(reason) => is_reason_for(sheet, question, reason),
        WideReason::Near(club) => is_test_for(sheet, question, Test::Rival { club }),
    }
}

fn is_set_for(sheet: &Sheet, question: &Question, set: ClubSet) -> bool
    requires limits { IsWithinLimits sheet.now }
    requires in_range { question.now.club < length sheet.now.clubs }
    ensures { result ≡ ranges.is_set_for sheet.now question.now (clubs_in set) }
{
    let rivals = ClubSet::first(sheet.clubs.len() as u8).without(ClubSet::single(question.club));
    !set.is_empty() && set.without(rivals).is_empty()
}
