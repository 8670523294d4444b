//! The kinds of records, by their first field.

ghost use Rattle.std.specs.Prelude.{◌≡◌};
ghost use Rattle.fixture_sheet.specs.Fields.{field};
ghost use Rattle.result_log.specs.Records.{kind_of, width_of};

use fixture_sheet::Fields;

/// What a record is for.
#[derive(Clone, Copy)]
pub enum Kind {
    /// `result,F,H,A`: fixture F, which had no score, ended H:A.
    Result,
    /// `fix,F,H,A`: fixture F, which had a score, has H:A in truth.
    Fix,
    /// `void,F`: fixture F, which had a score, counts as not played.
    Void,
    /// `deduct,CLUB,P`: the club has P points taken off in all.
    Deduct,
    /// `ask`: an answer is asked for now.
    Ask,
    /// `proofs`: the feed ends, and proofs follow.
    Proofs,
}

impl Kind {
    /// The kind of a record, if it is one. `proofs` is a record only if proofs may follow.
    pub fn of(fields: &Fields, proofs: bool) -> Option<Kind>
        ensures { result ≡ kind_of proofs (field 0 fields.now) }
    {
        if fields.is_kind(b"result") {
            Some(Kind::Result)
        } else if fields.is_kind(b"fix") {
            Some(Kind::Fix)
        } else if fields.is_kind(b"void") {
            Some(Kind::Void)
        } else if fields.is_kind(b"deduct") {
            Some(Kind::Deduct)
        } else if fields.is_kind(b"ask") {
            Some(Kind::Ask)
        } else if fields.is_kind(b"proofs") && proofs {
            Some(Kind::Proofs)
        } else {
            None
        }
    }

    /// How many fields the record has.
    pub fn width(self) -> usize
        ensures { result ≡ width_of self }
    {
        match self {
            Kind::Result | Kind::Fix => 4,
            Kind::Deduct => 3,
            Kind::Void => 2,
            Kind::Ask | Kind::Proofs => 1,
        }
    }
}
