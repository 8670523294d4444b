//! Laws of the definitions that the calls of this crate are stated with. Each is the contract of a
//! function that does nothing.

ghost use Rattle.port_core.specs.inside.LineSplits.{LinesAreTheOnlySplit, LinesSplitInput};
ghost use Rattle.port_core.specs.Ports.{AppendsInTurn};

/// The lines of an input joined are the input; each line ends at its one LF, and only the last may
/// lack it.
pub fn lines_split_the_input()
    ensures { LinesSplitInput }
{}

/// No other list of such lines joins to the input.
pub fn lines_are_the_only_split()
    ensures { LinesAreTheOnlySplit }
{}

/// Two texts appended in turn are their joined text appended at once.
pub fn appends_in_turn()
    ensures { AppendsInTurn }
{}
