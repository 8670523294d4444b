//! One number for a list of events.

ghost use Rattle.std.specs.Prelude.{◌≡◌, ◌+◌, ◌*◌, ◌<◌, ◌≤◌, All, IsTrue, length};
ghost use Rattle.league_core.specs.inside.Codes.{has_code};
ghost use Rattle.league_core.specs.game.Limits.{most_events};
ghost use Rattle.epoch_cancel.specs.inside.Packs.{code_of, pack_of};

use league_core::{Event, Score};

/// What one epoch counts for in the word.
pub(crate) const EPOCH: u64 = 4_294_967_296;

const FIRST_CLEAR: u64 = 8_000_000;

const FIRST_DEDUCT: u64 = 9_000_000;

/// The word of these events: the epoch in the upper 32 bits, the last event's code in the lower 32.
pub fn pack(log: &[Event]) -> u64
    requires few { length log.now ≤ most_events }
    requires codes { All (λ event. IsTrue (has_code event)) log.now }
    ensures value { result ≡ pack_of log.now }
{
    match log.last() {
        Some(last) => word_of(log.len() as u64, last),
        None => 0,
    }
}

pub(crate) fn word_of(epoch: u64, last: &Event) -> u64
    requires few { epoch ≤ most_events }
    requires code { IsTrue (has_code last.now) }
    ensures value { result ≡ epoch * 4294967296 + code_of last.now }
{
    epoch * EPOCH + code(last)
}

fn code(event: &Event) -> u64
    requires code { IsTrue (has_code event.now) }
    ensures value { result ≡ code_of event.now }
    ensures within { result < 4294967296 }
{
    match event {
        Event::Set { fixture, score } => set_code(*fixture, score),
        Event::Clear { fixture } => FIRST_CLEAR + u64::from(*fixture),
        Event::Deduct { club, points } => {
            FIRST_DEDUCT + u64::from(*club) * 100 + u64::from(*points)
        }
    }
}

fn set_code(fixture: u16, score: &Score) -> u64
    ensures value { result ≡ 1 + fixture * 10000 + score.now.home * 100 + score.now.away }
{
    1 + u64::from(fixture) * 10_000 + u64::from(score.home) * 100 + u64::from(score.away)
}
