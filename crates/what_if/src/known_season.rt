//! A season, and what is known of the questions about it before anything is asked of a match.

ghost use Rattle.std.specs.Prelude.{◌≡◌, ◌↔◌, IfSome, IsTrue};
ghost use Rattle.league_core.specs.game.Seasons.{IsSeasonOf};
ghost use Rattle.league_core.specs.game.Sheets.{IsWithinLimits};
ghost use Rattle.what_if.specs.inside.SeasonParts.{AreTrueParts, IsInSeason};

use crate::season_part::{InSeason, SeasonPart};
use league_core::{Claim, Question, Season, Sheet};
use score_box::Played;
use std::marker::Model;

/// The tables of a season, and for each question what is known of it there. Contracts see the sheet
/// and the season.
#[derive(Drop)]
pub(crate) struct KnownSeason<'a> {
    played: &'a Played<'a>,
    parts: Vec<SeasonPart>,
}

impl<'a> Model for KnownSeason<'a> {
    ghost use Rattle.score_box.specs.inside.PlayedViews.{PlayedView};
    ghost use Rattle.what_if.specs.inside.SeasonParts.{AreTrueParts};

    ghost Value = { PlayedView };

    ghost view = { λ known. known.played.now };

    ghost invariant = { λ known. AreTrueParts known.played.now.sheet known.played.now.season
        known.parts.items };
}

impl<'a> KnownSeason<'a> {
    /// The tables, and what is known.
    pub fn new(played: &'a Played<'a>, parts: Vec<SeasonPart>) -> KnownSeason<'a>
        requires { AreTrueParts played.now.sheet played.now.season parts.items }
        ensures { result ≡ played.now }
    {
        KnownSeason { played, parts }
    }

    /// The tables.
    pub fn played(&self) -> &'a Played<'a>
        ensures { result.now ≡ self.now }
    {
        self.played
    }

    /// The sheet that these are tables of.
    pub fn sheet(&self) -> &'a Sheet
        ensures sheet { result.now ≡ self.now.sheet }
        ensures limits { IsWithinLimits result.now }
    {
        self.played.sheet()
    }

    /// The season that these are tables of.
    pub fn season(&self) -> &'a Season
        ensures season { result.now ≡ self.now.season }
        ensures of_sheet { IsSeasonOf self.now.sheet result.now }
    {
        self.played.season()
    }

    /// What is known of a question in the season, where something is.
    pub fn known(&self, question: &Question) -> Option<&InSeason>
        ensures { IfSome result (λ known.
            IsInSeason self.now.sheet self.now.season question.now known.now) }
    {
        let at = place_of(self.played.sheet(), question);
        if self.parts.len() <= at {
            return None;
        }
        let part = &self.parts[at];
        if is_same(&part.question, question) {
            Some(&part.known)
        } else {
            None
        }
    }
}

fn is_same(question: &Question, other: &Question) -> bool
    ensures { IsTrue result ↔ (question.now ≡ other.now) }
{
    question == other
}

// Where a question comes, if all are there: line by line and club by club, `Outside` before
// `Inside`.
fn place_of(sheet: &Sheet, question: &Question) -> usize {
    let mut row = usize::from(question.club);
    for line in sheet.lines.as_slice() {
        if *line == question.line {
            break;
        }
        row = row.saturating_add(sheet.clubs.len());
    }
    let place = row.saturating_mul(2);
    match question.claim {
        Claim::Outside => place,
        Claim::Inside => place.saturating_add(1),
    }
}
