//! Which question comes next.

ghost use Rattle.std.specs.Prelude.{◌≡◌, ◌<◌, ◌≤◌, ◌+◌, IfNone, IfSome, drop, false, length};
ghost use Rattle.std.specs.Prelude.{position};
ghost use Rattle.branch_pool.specs.inside.States.{has_work, is_workable, most_questions};
ghost use Rattle.branch_pool.specs.inside.Calls.{is_untouched, next_place};

use crate::pool::Pool;
use crate::question_state::QuestionState;
use league_core::Sheet;

impl Pool {
    // The question that comes next. Each is looked at once at most: one that is untouched has work,
    // so none stands before the first that has; and those before which none had work at the last
    // look are not looked at again.
    pub(crate) fn next_place(&mut self) -> Option<u16>
        ensures same { self.new ≡ self.old }
        ensures next { result ≡ next_place self.old }
        ensures none { IfNone result (has_work self.old ≡ false) }
    {
        let Some(first) = self.first_workable() else {
            self.work_from = self.seats.len();
            return None;
        };
        self.work_from = first;
        match untouched_among(&self.sheet, &self.seats[first..]) {
            Some(more) => Some((first + more) as u16),
            None => Some(first as u16),
        }
    }

    fn first_workable(&self) -> Option<usize>
        ensures place { result ≡ position (is_workable self.now.sheet) self.now.seats }
        ensures within { IfSome result (λ place. place < most_questions) }
        ensures in_range { IfSome result (λ place. place < length self.now.seats) }
    {
        match workable_among(&self.sheet, &self.seats[self.work_from..]) {
            Some(more) => Some(self.work_from + more),
            None => None,
        }
    }
}

fn workable_among(sheet: &Sheet, seats: &[QuestionState]) -> Option<usize>
    ensures place { result ≡ position (is_workable sheet.now) seats.now }
    ensures in_range { IfSome result (λ place. place < length seats.now) }
{
    seats.iter().position(|seat| seat.is_workable(sheet))
}

fn untouched_among(sheet: &Sheet, seats: &[QuestionState]) -> Option<usize>
    ensures place { result ≡ position (is_untouched sheet.now) seats.now }
    ensures in_range { IfSome result (λ place. place < length seats.now) }
{
    seats.iter().position(|seat| seat.is_untouched(sheet))
}

/// The one place or the other, whichever is earlier.
pub fn earlier_of(place: usize, other: u16) -> usize
    ensures one { result ≤ place }
    ensures other { result ≤ other }
{
    if place < other as usize {
        place
    } else {
        other as usize
    }
}
