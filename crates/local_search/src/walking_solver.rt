//! A solver that walks for an example where another has had many zones of one question.

ghost use Rattle.std.specs.Prelude.{◌≡◌, IfOk, IfSome, IsTrue, List};
ghost use Rattle.league_core.specs.declared.zone.Literal.{Literal};
ghost use Rattle.league_core.specs.game.Questions.{IsQuestionOf};
ghost use Rattle.league_core.specs.search.Zones.{IsZoneFor};
ghost use Rattle.league_core.specs.search.Options.{has_finish};
ghost use Rattle.reason_core.specs.inside.Findings.{IsTrueFinding};

use crate::board::Board;
use crate::example::walk_on;
use league_core::{Literal, OutOfMemory, Question, Season, Sheet};
use reason_core::{Finding, Solver};
use score_box::Played;
use std::alloc::Global;
use std::marker::Model;

/// Another solver, with a short walk once a question has had 100 zones in a row, and a long one
/// once it has had 200: most questions are settled before, and of the others many have examples
/// that no proposed finish is. Most of these come early in a walk, and one that finds none is to
/// cost little beside the zones before it. Contracts see the sheet and the season.
#[derive(Drop)]
pub struct WalkingSolver<'a, W: Solver> {
    alloc: Global,
    sheet: &'a Sheet,
    season: &'a Season,
    inner: W,
    latest: Option<Question>,
    zones: u32,
    board: Option<Board>,
}

impl<'a, W: Solver> Model for WalkingSolver<'a, W> {
    ghost use Rattle.std.specs.Prelude.{◌≡◌};
    ghost use Rattle.league_core.specs.game.Seasons.{IsLeague};
    ghost use Rattle.local_search.specs.inside.WalkedViews.{WalkedView};

    ghost Value = { WalkedView };

    ghost view = { λ s. record { sheet = s.sheet.now; season = s.season.now } };

    ghost invariant = { λ s. (W.sheet s.inner ≡ s.sheet.now) × (W.season s.inner ≡ s.season.now)
        × IsLeague s.sheet.now s.season.now };
}

impl<'a, W: Solver> WalkingSolver<'a, W> {
    /// A solver round another of the season that the tables are of.
    pub fn new(alloc: Global, played: &'a Played<'a>, inner: W) -> WalkingSolver<'a, W>
        requires sheet { W.sheet inner ≡ played.now.sheet }
        requires season { W.season inner ≡ played.now.season }
        ensures { result ≡ record { sheet = played.now.sheet; season = played.now.season } }
    {
        let sheet = played.sheet();
        let season = played.season();
        WalkingSolver {
            alloc,
            sheet,
            season,
            inner,
            latest: None,
            zones: 0,
            board: None,
        }
    }

    // Counts a zone of a question; gives whether a walk is due.
    fn count(&mut self, question: &Question) -> bool
        ensures { self.new ≡ self.old }
    {
        if self.latest == Some(*question) {
            self.zones = self.zones.saturating_add(1);
        } else {
            self.latest = Some(*question);
            self.zones = 1;
        }
        self.zones == 100 || self.zones == 200
    }

    // The board of the season, which is made for the first walk.
    fn begun(&mut self) -> Result<Board, OutOfMemory>
        ensures { self.new ≡ self.old }
    {
        let board = match &self.board {
            Some(board) => board.copy(self.alloc)?,
            None => Board::of(self.alloc, self.sheet, self.season)?,
        };
        if self.board.is_none() {
            self.board = Some(board.copy(self.alloc)?);
        }
        Ok(board)
    }

    // The example of a walk over the board of the season.
    fn walked(&self, question: &Question, board: Board) -> Result<Option<Finding>, OutOfMemory>
        requires { IsQuestionOf self.now.sheet question.now }
        ensures { IfOk result (λ found. IfSome found (λ finding. (zone : List Literal)
            → IsTrueFinding self.now.sheet self.now.season question.now zone finding)) }
    {
        let trials = trials_at(self.zones, board.count());
        match walk_on(self.alloc, self.sheet, self.season, question, board, trials)? {
            Some((finish, lots)) => Ok(Some(Finding::Won(finish, lots))),
            None => Ok(None),
        }
    }
}

impl<'a, W: Solver> Solver for WalkingSolver<'a, W> {
    ghost sheet = { λ solver. solver.sheet };

    ghost season = { λ solver. solver.season };

    fn solve(&mut self, question: &Question, zone: &[Literal]) -> Result<Finding, OutOfMemory>
        requires of_sheet { IsQuestionOf self.old.sheet question.now }
        requires of_zone { IsZoneFor self.old.sheet question.now zone.now }
        requires has_finish { IsTrue
            (has_finish self.old.sheet self.old.season zone.now) }
        ensures found { IfOk result (IsTrueFinding self.old.sheet self.old.season
            question.now zone.now) }
        ensures same_sheet { self.new.sheet ≡ self.old.sheet }
        ensures same_season { self.new.season ≡ self.old.season }
    {
        if self.count(question) {
            let board = self.begun()?;
            if let Some(finding) = self.walked(question, board)? {
                return Ok(finding);
            }
        }
        self.inner.solve(question, zone)
    }
}

// The trials of a walk where a question has had so many zones in a row, and so many matches are
// open: the more there are, the later examples come in a long walk.
fn trials_at(zones: u32, open: u16) -> u32 {
    if zones < 200 {
        250
    } else {
        u32::from(open) * 50 + 400
    }
}
