//! A reading of a feed: what its records tell.

ghost use Rattle.std.specs.Prelude.{◌≡◌, ℕ, List, Result, IfOk};
ghost use Rattle.league_core.specs.declared.sheet.Sheet.{Sheet};
ghost use Rattle.league_core.specs.game.Results.{Results};
ghost use Rattle.result_log.specs.declared.entry.Entry.{Entry};
ghost use Rattle.result_log.specs.declared.fault.FeedFault.{FeedFault};
ghost use Rattle.result_log.specs.inside.Readings.{MayBeReadIn, MayBeTold};

use crate::entry::Entry;
use crate::fault::FeedFault;
use fixture_sheet::Fields;
use league_core::{Season, Sheet};

/// The season that the next record is read in, and how many events it took.
#[derive(Clone, Copy)]
pub struct SeasonSoFar<'a> {
    pub sheet: &'a Sheet,
    pub season: &'a Season,
    pub events: u64,
}

/// A way to read a feed: what each record tells, which as an entry it is.
pub trait Reading {
    type Parsed: Copy;

    // What a record tells in this season of a sheet, after so many events, or the first refusal;
    // and what is told as an entry.
    ghost tells: { Self → Sheet → Results → ℕ → List (List ℕ) → Result Self.Parsed FeedFault };

    ghost entry: { Self.Parsed → Entry };

    /// What a record tells, or the first refusal.
    fn read(&self, at: &SeasonSoFar<'_>, fields: &Fields) -> Result<Self::Parsed, FeedFault>
        requires { MayBeReadIn at.now.sheet.now at.now.season.now }
        ensures value { result
            ≡ tells self.now at.now.sheet.now at.now.season.now at.now.events fields.now }
        ensures may_be { IfOk result (λ told.
            MayBeTold at.now.season.now at.now.events (entry told)) };

    /// What is told as an entry.
    fn as_entry(told: Self::Parsed) -> Entry
        ensures { result ≡ entry told };

    /// What the end of the input tells.
    fn end() -> Self::Parsed
        ensures { entry result ≡ Entry.End };
}
