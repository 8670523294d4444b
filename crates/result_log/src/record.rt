//! What a record of the feed tells. No call takes memory.

ghost use Rattle.std.specs.Prelude.{◌≡◌, ◌≢◌, ◌≤◌, ◌<◌, ◌∷◌, [], IfOk, IfSome, Ok, length, nat_le};
ghost use Rattle.std.specs.Prelude.{not};
ghost use Rattle.league_core.specs.game.Seasons.{IsSeasonOf};
ghost use Rattle.fixture_sheet.specs.Texts.{only_if};
ghost use Rattle.result_log.specs.Records.{IsEntryAt, entry_of, club_in, entry_in_fields};
ghost use Rattle.result_log.specs.Records.{event_tests};
ghost use Rattle.result_log.specs.Records.{fixture_in, names_a_club, has_fixture, has_goals};
ghost use Rattle.result_log.specs.Records.{has_points, has_result, number_in_field, score_in};
ghost use Rattle.result_log.specs.Records.{value_unless};
ghost use Rattle.league_core.specs.game.Limits.{most_deduction, most_events};

use crate::entry::Entry;
use crate::fault::FeedFault;
use crate::kind::Kind;
use fixture_sheet::{Fields, club_named, number_within};
use league_core::limits::{MOST_DEDUCTION, MOST_EVENTS, MOST_GOALS};
use league_core::{Event, Score, Season, Sheet};

/// The entry that a record is, in the season of the events before it, of which there were so
/// many; or the first refusal in the order of the tests. `proofs` is a record only if `proofs`
/// is true.
pub fn read_event(
    sheet: &Sheet,
    season: &Season,
    events: u64,
    fields: &Fields,
    proofs: bool,
) -> Result<Entry, FeedFault>
    requires of_sheet { IsSeasonOf sheet.now season.now }
    requires clubs { length sheet.now.clubs ≤ 255 }
    requires numbers { length sheet.now.fixtures ≤ 65535 }
    ensures value { result ≡ entry_of sheet.now season.now events proofs fields.now }
    ensures is_entry { IfOk result (λ entry. IsEntryAt season.now events proofs entry) }
    ensures never { result ≢ Ok Entry.End }
{
    let Some(kind) = Kind::of(fields, proofs) else {
        return Err(FeedFault::UnknownRecord);
    };
    if fields.len() != kind.width() {
        return Err(FeedFault::WrongWidth);
    }
    match kind {
        Kind::Result => read_result(sheet, season, events, fields),
        Kind::Fix => read_fix(sheet, season, events, fields),
        Kind::Void => read_void(sheet, season, events, fields),
        Kind::Deduct => read_deduct(sheet, events, fields),
        Kind::Ask => Ok(Entry::Ask),
        Kind::Proofs => Ok(Entry::Proofs),
    }
}

// `result,F,H,A`.
fn read_result(
    sheet: &Sheet,
    season: &Season,
    events: u64,
    fields: &Fields,
) -> Result<Entry, FeedFault>
    requires of_sheet { IsSeasonOf sheet.now season.now }
    requires numbers { length sheet.now.fixtures ≤ 65535 }
    ensures { result ≡ value_unless
        (event_tests sheet.now season.now events fields.now Kind.Result)
        (entry_in_fields sheet.now fields.now Kind.Result) }
{
    let Some(fixture) = fixture_of(sheet, fields) else {
        return Err(FeedFault::UnknownFixture);
    };
    let Some(score) = score_of(fields) else {
        return Err(FeedFault::BadGoals);
    };
    if season.score(fixture).is_some() {
        return Err(FeedFault::AlreadyPlayed);
    }
    change(events, Event::Set { fixture, score })
}

// `fix,F,H,A`.
fn read_fix(
    sheet: &Sheet,
    season: &Season,
    events: u64,
    fields: &Fields,
) -> Result<Entry, FeedFault>
    requires of_sheet { IsSeasonOf sheet.now season.now }
    requires numbers { length sheet.now.fixtures ≤ 65535 }
    ensures { result ≡ value_unless
        (event_tests sheet.now season.now events fields.now Kind.Fix)
        (entry_in_fields sheet.now fields.now Kind.Fix) }
{
    let Some(fixture) = fixture_of(sheet, fields) else {
        return Err(FeedFault::UnknownFixture);
    };
    let Some(score) = score_of(fields) else {
        return Err(FeedFault::BadGoals);
    };
    change_played(season, events, fixture, Event::Set { fixture, score })
}

// `void,F`.
fn read_void(
    sheet: &Sheet,
    season: &Season,
    events: u64,
    fields: &Fields,
) -> Result<Entry, FeedFault>
    requires of_sheet { IsSeasonOf sheet.now season.now }
    requires numbers { length sheet.now.fixtures ≤ 65535 }
    ensures { result ≡ value_unless
        (event_tests sheet.now season.now events fields.now Kind.Void)
        (entry_in_fields sheet.now fields.now Kind.Void) }
{
    let Some(fixture) = fixture_of(sheet, fields) else {
        return Err(FeedFault::UnknownFixture);
    };
    change_played(season, events, fixture, Event::Clear { fixture })
}

// `deduct,CLUB,P`.
fn read_deduct(sheet: &Sheet, events: u64, fields: &Fields) -> Result<Entry, FeedFault>
    requires { length sheet.now.clubs ≤ 255 }
    ensures { result ≡ value_unless
        ((not (names_a_club sheet.now fields.now), FeedFault.UnknownClub)
        ∷ (not (has_points fields.now), FeedFault.BadPoints)
        ∷ (nat_le most_events events, FeedFault.LogFull) ∷ [])
        (entry_in_fields sheet.now fields.now Kind.Deduct) }
{
    let Some(club) = club_of(sheet, fields) else {
        return Err(FeedFault::UnknownClub);
    };
    let Some(points) = points_of(fields) else {
        return Err(FeedFault::BadPoints);
    };
    change(events, Event::Deduct { club, points })
}

// The club that the second field names.
fn club_of(sheet: &Sheet, fields: &Fields) -> Option<u8>
    requires { length sheet.now.clubs ≤ 255 }
    ensures { result
        ≡ only_if (names_a_club sheet.now fields.now) (club_in sheet.now fields.now) }
{
    club_named(sheet, fields.at(1))
}

// The points of the third field.
fn points_of(fields: &Fields) -> Option<u8>
    ensures value { result ≡ only_if (has_points fields.now) (number_in_field 2 fields.now) }
    ensures within { IfSome result (λ points. points ≤ most_deduction) }
{
    match number_within(0, u32::from(MOST_DEDUCTION), fields.at(2)) {
        Some(points) => Some(points as u8),
        None => None,
    }
}

/// The fixture of the second field, by its number from 0.
pub fn fixture_of(sheet: &Sheet, fields: &Fields) -> Option<u16>
    requires { length sheet.now.fixtures ≤ 65535 }
    ensures value { result ≡ only_if (has_fixture sheet.now fields.now) (fixture_in fields.now) }
    ensures within { IfSome result (λ fixture. fixture < length sheet.now.fixtures) }
{
    let fixtures = sheet.fixtures.len() as u32;
    match number_within(1, fixtures, fields.at(1)) {
        Some(number) => Some((number - 1) as u16),
        None => None,
    }
}

// The score of the third and the fourth field.
fn score_of(fields: &Fields) -> Option<Score>
    ensures { result ≡ only_if (has_goals fields.now) (score_in fields.now) }
{
    let home = number_within(0, u32::from(MOST_GOALS), fields.at(2))?;
    let away = number_within(0, u32::from(MOST_GOALS), fields.at(3))?;
    Some(Score {
        home: home as u8,
        away: away as u8,
    })
}

// An event on a fixture that has to have a score.
fn change_played(
    season: &Season,
    events: u64,
    fixture: u16,
    event: Event,
) -> Result<Entry, FeedFault>
    requires { fixture < length season.now.scores }
    ensures { result ≡ value_unless
        ((not (has_result season.now fixture), FeedFault.NotPlayed)
        ∷ (nat_le most_events events, FeedFault.LogFull) ∷ []) (Entry.Change event) }
{
    if season.score(fixture).is_none() {
        return Err(FeedFault::NotPlayed);
    }
    change(events, event)
}

// The event, if there is room for it.
fn change(events: u64, event: Event) -> Result<Entry, FeedFault>
    ensures { result ≡ value_unless ((nat_le most_events events, FeedFault.LogFull) ∷ [])
        (Entry.Change event) }
{
    if u64::from(MOST_EVENTS) <= events {
        return Err(FeedFault::LogFull);
    }
    Ok(Entry::Change(event))
}
