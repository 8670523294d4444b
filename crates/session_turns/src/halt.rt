//! Where a round of the feed halts, and what the ask there is about.

ghost use Rattle.std.specs.Prelude.{◌≡◌, ◌≢◌, Ok};
ghost use Rattle.result_log.specs.inside.Readings.{answer_as};
ghost use Rattle.plain_rounds.specs.inside.Rounds.{IsNoEvent, close_of};
ghost use Rattle.what_if.specs.Steps.{forget};
ghost use Rattle.session_turns.specs.inside.Halts.{about_at};
ghost use Rattle.session_turns.specs.inside.RoundHalts.{halt_at, halt_of};

use branch_pool::Pool;
use plain_rounds::{ParsedRound, Round, RoundEnd, end_of};
use result_log::{Entry, FeedStop};
use what_if::{Step, Steps};

/// Where a round of the feed halted, and the fixture that it halted at an ask about, if it did.
#[derive(Drop)]
pub struct Halt {
    pub pool: Pool,
    pub end: RoundEnd,
    pub about: Option<u16>,
}

/// A round of entries is about no match.
pub fn halt_of(round: Round) -> Halt
    ensures { result ≡ halt_of round }
{
    let Round { pool, end } = round;
    let about = None;
    Halt { pool, end, about }
}

/// A round of steps halts at what its last step asks about.
pub fn halt_of_steps(round: ParsedRound<Step>) -> Halt
    requires over { IsNoEvent (answer_as forget round.last) }
    requires proofs { answer_as forget round.last ≢ Ok Entry.Proofs }
    ensures halt { result ≡ halt_at round.pool result.end (about_at round.last) }
    ensures end { close_of result.end ≡ answer_as forget round.last }
{
    let ParsedRound { pool, last } = round;
    let about = about_at(last);
    let end = end_of::<Steps>(last);
    Halt { pool, end, about }
}

// The fixture of a `when` that was told last.
fn about_at(last: Result<Step, FeedStop>) -> Option<u16>
    ensures { result ≡ about_at last }
{
    match last {
        Ok(Step::When(fixture)) => Some(fixture),
        Ok(Step::Entry(_)) | Err(_) => None,
    }
}
