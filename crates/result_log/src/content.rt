//! What one line tells.

ghost use Rattle.std.specs.Prelude.{IfOk, IfSome};
ghost use Rattle.result_log.specs.inside.Calls.{AnswersContent};
ghost use Rattle.result_log.specs.inside.Readings.{MayBeReadIn, MayBeTold};
ghost use Rattle.result_log.specs.Feeds.{parsed_in};

use crate::fault::{ContentStop, FeedFault};
use crate::reading::{Reading, SeasonSoFar};
use fixture_sheet::{FieldsStop, fields_of};
use std::alloc::Global;

/// What the content of a line tells, none if no field is left of it, or the first refusal.
pub(crate) fn content_parsed<R: Reading>(
    alloc: Global,
    reading: &R,
    at: &SeasonSoFar<'_>,
    content: &[u8],
) -> Result<Option<R::Parsed>, ContentStop>
    requires { MayBeReadIn at.now.sheet.now at.now.season.now }
    ensures answer { AnswersContent
        (parsed_in (R.tells reading.now at.now.sheet.now at.now.season.now at.now.events)
        content.now) result }
    ensures may_be { IfOk result (λ found. IfSome found (λ told.
        MayBeTold at.now.season.now at.now.events (R.entry told))) }
{
    match fields_of(alloc, content) {
        Ok(Some(fields)) => match reading.read(at, &fields) {
            Ok(told) => Ok(Some(told)),
            Err(fault) => Err(ContentStop::Fault(fault)),
        },
        Ok(None) => Ok(None),
        Err(FieldsStop::InnerReturn) => Err(ContentStop::Fault(FeedFault::UnknownRecord)),
        Err(FieldsStop::OutOfMemory) => Err(ContentStop::OutOfMemory),
    }
}
