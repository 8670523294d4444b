//! The law of tables: a function that does nothing.

ghost use Rattle.answer_laws.specs.inside.TableLaws.{EachSeasonHasATable};

/// Each season has a table, whatever lots are drawn.
pub fn each_season_has_a_table()
    ensures { EachSeasonHasATable }
{}
