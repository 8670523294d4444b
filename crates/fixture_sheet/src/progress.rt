//! A sheet so far, of whatever kind, and what came of a record.

ghost use Rattle.std.specs.Prelude.{◌≡◌, IfOk, IfSome, Option};
ghost use Rattle.fixture_sheet.specs.Readings.{SheetRules, content_taken_by, record_taken};
ghost use Rattle.fixture_sheet.specs.inside.Calls.{Answers, KeepsLimits, as_progress};

use crate::fault::{FieldsStop, RecordStop};
use crate::fields::{Fields, fields_of};
use std::alloc::Global;

/// What came of a record: the sheet so far, none before its first record, or the whole sheet.
#[derive(Drop)]
pub enum Progress<D, W> {
    SoFar(Option<D>),
    Whole(W),
}

/// A sheet so far, which records make whole.
pub trait SheetSoFar: Sized + Drop {
    type Whole;

    type Fault;

    // What records make of it, and what holds of it so far, and of the whole.
    ghost rules: { SheetRules Self Self.Whole Self.Fault };

    ghost is_sound: { Self → Type 0 };

    ghost is_whole: { Self.Whole → Type 0 };

    /// What the first record begins, or its first refusal.
    fn first_record(alloc: Global, fields: &Fields) -> Result<Self, RecordStop<Self::Fault>>
        ensures answer { Answers (rules.first fields.now) result }
        ensures sound { IfOk result is_sound };

    /// What a later record makes of it, or its first refusal.
    fn later_record(
        self,
        alloc: Global,
        fields: &Fields,
    ) -> Result<Progress<Self, Self::Whole>, RecordStop<Self::Fault>>
        requires { is_sound self }
        ensures answer { Answers (rules.later self fields.now) result }
        ensures limits { KeepsLimits is_sound is_whole result };

    /// Why a line that is no record is refused.
    fn refusal_of_no_record(draft: &Option<Self>) -> Self::Fault
        ensures { result ≡ rules.no_record draft.now };

    /// Why a sheet is refused if its input ends here.
    fn fault_at_end(draft: &Option<Self>) -> Self::Fault
        ensures { result ≡ rules.at_end draft.now };
}

/// Takes the content of a line. A content of empty fields changes nothing. On a refusal, and if
/// memory runs out, the sheet so far is dropped.
pub fn take_content<D: SheetSoFar>(
    alloc: Global,
    draft: Option<D>,
    content: &[u8],
) -> Result<Progress<D, D::Whole>, RecordStop<D::Fault>>
    requires { IfSome draft D.is_sound }
    ensures answer { Answers (content_taken_by D.rules draft content.now) result }
    ensures limits { KeepsLimits D.is_sound D.is_whole result }
{
    match fields_of(alloc, content) {
        Ok(Some(fields)) => take_record(alloc, draft, &fields),
        Ok(None) => Ok(Progress::SoFar(draft)),
        Err(FieldsStop::InnerReturn) => { Err(RecordStop::Fault(D::refusal_of_no_record(&draft))) }
        Err(FieldsStop::OutOfMemory) => Err(RecordStop::OutOfMemory),
    }
}

/// Takes a record. Its first refusal is returned, in the order of the tests. On a refusal, and if
/// memory runs out, the sheet so far is dropped.
pub fn take_record<D: SheetSoFar>(
    alloc: Global,
    draft: Option<D>,
    fields: &Fields,
) -> Result<Progress<D, D::Whole>, RecordStop<D::Fault>>
    requires { IfSome draft D.is_sound }
    ensures answer { Answers (record_taken D.rules draft fields.now) result }
    ensures limits { KeepsLimits D.is_sound D.is_whole result }
{
    match draft {
        None => so_far(D::first_record(alloc, fields)),
        Some(draft) => draft.later_record(alloc, fields),
    }
}

/// The reading goes on with this sheet, if a record was not refused.
pub fn so_far<D, W, F>(draft: Result<D, RecordStop<F>>) -> Result<Progress<D, W>, RecordStop<F>>
    ensures { result ≡ as_progress draft }
{
    match draft {
        Ok(draft) => Ok(Progress::SoFar(Some(draft))),
        Err(stop) => Err(stop),
    }
}
