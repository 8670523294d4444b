//! What all parts of one round have in common.

ghost use Rattle.std.specs.Prelude.{List};
ghost use Rattle.atomic_table.specs.Seated.{TableId};
ghost use Rattle.league_core.specs.declared.sheet.Sheet.{Sheet};
ghost use Rattle.league_core.specs.declared.question.Question.{Question};

use std::marker::Brand;
use std::sync::ledger::Ledger;

/// Names the things of one round: its ledger of changes, the table of its word, its sheet, and its
/// questions. Locks, fronts and badges of one round have the same.
pub trait Job: Ledger {
    // The table of the word that announces changes.
    ghost table: { TableId };

    ghost sheet: { Sheet };

    ghost questions: { List Question };
}

impl Job for Brand {
    ghost use Rattle.std.specs.Prelude.{[]};
    ghost use Rattle.pool_lock.specs.inside.Brands.{no_table, no_sheet};

    ghost table = { no_table };

    ghost sheet = { no_sheet };

    ghost questions = { [] };
}
