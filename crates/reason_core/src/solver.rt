//! Whoever does one piece of work.

ghost use Rattle.std.specs.Prelude.{◌≡◌, IfOk, IsTrue};
ghost use Rattle.league_core.specs.declared.sheet.Sheet.{Sheet};
ghost use Rattle.league_core.specs.game.Results.{Results};
ghost use Rattle.league_core.specs.game.Questions.{IsQuestionOf};
ghost use Rattle.league_core.specs.search.Zones.{IsZoneFor};
ghost use Rattle.league_core.specs.search.Options.{has_finish};
ghost use Rattle.reason_core.specs.inside.Findings.{IsTrueFinding};

use crate::finding::Finding;
use league_core::{Literal, OutOfMemory, Question};

/// Works on zones of one season of a sheet, for any question.
pub trait Solver {
    // The sheet, and the season of it, that the work is about.
    ghost sheet: { Self → Sheet };

    ghost season: { Self → Results };

    /// Finds what is true of the question in the zone. What the solver keeps for itself may change.
    fn solve(&mut self, question: &Question, zone: &[Literal]) -> Result<Finding, OutOfMemory>
        requires of_sheet { IsQuestionOf (sheet self.old) question.now }
        requires of_zone { IsZoneFor (sheet self.old) question.now zone.now }
        requires has_finish { IsTrue (has_finish (sheet self.old) (season self.old) zone.now) }
        ensures found { IfOk result
            (IsTrueFinding (sheet self.old) (season self.old) question.now zone.now) }
        ensures same_sheet { sheet self.new ≡ sheet self.old }
        ensures same_season { season self.new ≡ season self.old };
}
