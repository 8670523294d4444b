//! The rows of a saved text: that of an item, and the one after the items.

ghost use Rattle.std.specs.Prelude.{◌≡◌, ◌<◌, ◌==◌, ◌&&◌, IfOk, length};
ghost use Rattle.std.specs.Prelude.{bytes_eq, codes, string_bytes, decimal};
ghost use Rattle.fixture_sheet.specs.Fields.{field};
ghost use Rattle.cert_text.specs.Lines.{claim_word};
ghost use Rattle.pool_save.specs.SavedReadings.{is_row_of, is_end_row};

use fixture_sheet::Fields;
use league_core::{Claim, OutOfMemory, Question, Sheet};
use std::alloc::{AllocError, Global};

/// The fields are the row of the question's item.
pub fn is_row_of(
    alloc: Global,
    sheet: &Sheet,
    question: &Question,
    fields: &Fields,
) -> Result<bool, OutOfMemory>
    requires in_range { question.now.club < length sheet.now.clubs }
    ensures { IfOk result (λ is. is ≡ is_row_of sheet.now question.now fields.now) }
{
    let line = decimal_of(alloc, u64::from(question.line))?;
    let name = sheet.clubs.as_slice()[question.club as usize].name.as_str();
    Ok(is_about(fields, line.as_str(), name, question.claim))
}

// The fields are a row about this line, this club and this claim.
fn is_about(fields: &Fields, line: &str, name: &str, claim: Claim) -> bool
    ensures { result ≡ ((length fields.now == 4) && bytes_eq (field 0 fields.now) (codes "saved")
        && bytes_eq (field 1 fields.now) line.now && bytes_eq (field 2 fields.now) name.now
        && bytes_eq (field 3 fields.now) (claim_word claim)) }
{
    fields.len() == 4
        && fields.is_kind(b"saved")
        && fields.at(1) == line.as_bytes()
        && fields.at(2) == name.as_bytes()
        && is_claim(fields.at(3), claim)
}

fn is_claim(text: &[u8], claim: Claim) -> bool
    ensures { result ≡ bytes_eq text.now (claim_word claim) }
{
    match claim {
        Claim::Inside => text == b"inside".as_slice(),
        Claim::Outside => text == b"outside".as_slice(),
    }
}

fn decimal_of(alloc: Global, number: u64) -> Result<String, OutOfMemory>
    ensures { IfOk result (λ text. string_bytes text ≡ decimal number) }
{
    let text: Result<String, AllocError> = format!(in alloc; "{number}");
    Ok(text?)
}

/// The fields are the row after the items.
pub fn is_end_row(fields: &Fields) -> bool
    ensures { result ≡ is_end_row fields.now }
{
    fields.len() == 1 && fields.is_kind(b"saved_end")
}
