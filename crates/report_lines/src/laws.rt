//! Laws: functions that do nothing, each with a law as its contract.

ghost use Rattle.report_lines.specs.inside.WrittenLines.{WrittenLinesAreTokens};
ghost use Rattle.report_lines.specs.inside.WrittenLines.{WrittenLinesReadBack};
ghost use Rattle.report_lines.specs.inside.WrittenReports.{WrittenReportsReadBack};

/// The text of a proof line is read as that line, and a report has it as that line.
pub fn written_lines_read_back()
    ensures reads { WrittenLinesReadBack }
    ensures tokens { WrittenLinesAreTokens }
{}

/// The bytes of an answer with proofs, rows as csv writes them and proof lines with their line
/// feeds, are read as the lines that were written.
pub fn written_reports_read_back()
    ensures { WrittenReportsReadBack }
{}
