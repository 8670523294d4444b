//! A league of twelve clubs that a number gives.

ghost use Rattle.std.specs.Prelude.{◌≡◌, ◌<◌, ℕ, IfOk, length, map};
ghost use Rattle.std.specs.List.{range_with_len};
ghost use Rattle.league_core.specs.game.Sheets.{IsWithinLimits};
ghost use Rattle.league_core.specs.game.Seasons.{AreEventsOf};
ghost use Rattle.sample_counts.specs.Samples.{sample_club, sample_fixture, sample_sheet};
ghost use Rattle.sample_counts.specs.Samples.{sample_name, first_of, second_of, is_first_at_home};
ghost use Rattle.sample_counts.specs.Samples.{sample_events, digit};

use crate::draws::Draws;
use league_core::{Club, Event, Fixture, Listing, Name, Order, OutOfMemory, Score, Sheet};
use std::alloc::Global;

/// The sheet of twelve clubs that play a double round, and the results of its first nineteen rounds
/// with scores drawn from the seed. The last three rounds, 18 matches, stay open.
pub fn make_sample(alloc: Global, seed: u64) -> Result<(Sheet, Vec<Event>), OutOfMemory>
    ensures sheet { IfOk result (λ sample. sample.0 ≡ sample_sheet) }
    ensures events { IfOk result (λ sample. sample.1.items ≡ sample_events seed) }
    ensures limits { IfOk result (λ sample. IsWithinLimits sample.0) }
    ensures of_sheet { IfOk result (λ sample. AreEventsOf sample.0 sample.1.items) }
{
    let sheet = make_sheet(alloc)?;
    let events = results(alloc, seed)?;
    Ok((sheet, events))
}

fn make_sheet(alloc: Global) -> Result<Sheet, OutOfMemory>
    ensures { IfOk result (λ sheet. sheet ≡ sample_sheet) }
{
    let name = String::from_str(alloc, "Sample")?;
    let clubs = clubs(alloc)?;
    let fixtures = fixtures(alloc)?;
    let lines = Vec::from_slice(alloc, &[1, 4, 9])?;
    Ok(Sheet {
        name: Name::new(name),
        clubs,
        fixtures,
        lines: Listing::from_vec(lines),
        goal_limit: 5,
        budget: 200,
        order: Order::HeadFirst,
    })
}

fn clubs(alloc: Global) -> Result<Listing<Club>, OutOfMemory>
    ensures { IfOk result (λ clubs. clubs ≡ map sample_club (range_with_len 0 12)) }
{
    let mut clubs = Listing::new(alloc);
    for club in 0..12 {
        clubs.push(club_of(alloc, club)?)?;
    }
    Ok(clubs)
}

fn club_of(alloc: Global, club: u8) -> Result<Club, OutOfMemory>
    requires { club < 12 }
    ensures { IfOk result (λ made. made ≡ sample_club club) }
{
    let mut name = String::from_str(alloc, "T")?;
    let number = club + 1;
    name.push((b'0' + number / 10) as char)?;
    name.push((b'0' + number % 10) as char)?;
    Ok(Club {
        name: Name::new(name),
        rank: u16::from(number),
    })
}

fn fixtures(alloc: Global) -> Result<Listing<Fixture>, OutOfMemory>
    ensures { IfOk result (λ fixtures. fixtures ≡ map sample_fixture (range_with_len 0 132)) }
{
    let mut fixtures = Listing::new(alloc);
    for number in 0..132 {
        fixtures.push(fixture_of(number))?;
    }
    Ok(fixtures)
}

// The fixture of a number from 0: six a round, eleven rounds a half.
fn fixture_of(number: u8) -> Fixture
    ensures { result ≡ sample_fixture number }
{
    let (half, turn, pair) = (number / 66, number / 6 % 11, number % 6);
    let first = (turn + pair) % 11;
    let second = second_of(turn, pair);
    if (half + turn) % 2 == 0 {
        Fixture {
            home: first,
            away: second,
        }
    } else {
        Fixture {
            home: second,
            away: first,
        }
    }
}

// The last club stays in the first pair of each round.
fn second_of(turn: u8, pair: u8) -> u8
    requires turn { turn < 11 }
    requires pair { pair < 6 }
    ensures { result ≡ second_of turn pair }
{
    if pair == 0 {
        11
    } else {
        (turn + 11 - pair) % 11
    }
}

fn results(alloc: Global, seed: u64) -> Result<Vec<Event>, OutOfMemory>
    ensures { IfOk result (λ events. events.items ≡ sample_events seed) }
{
    let mut draws = Draws { state: seed };
    let mut events = Vec::new(alloc);
    for fixture in 0..114 {
        let home = draws.draw();
        let away = draws.draw();
        let score = Score { home, away };
        events.push(Event::Set { fixture, score })?;
    }
    Ok(events)
}
