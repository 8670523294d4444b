//! A law of the definitions, as the contract of a function that does nothing.

ghost use Rattle.fixture_sheet.specs.inside.Laws.{LinesAreOneRecord};

/// csv reads the text of a line whole: nothing of it is left after its one record.
pub fn a_line_is_one_record()
    ensures { LinesAreOneRecord }
{}
