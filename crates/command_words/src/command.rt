//! What the words of a command say.

/// What the program was started for, with what its answers depend on.
#[derive(Clone, Copy, Debug, PartialEq, Eq)]
pub enum Mode {
    /// At each ask, the verdict of every club for every line; with `proofs`, refutations after
    /// those that they show.
    Verdicts { proofs: bool },
    /// At each ask, the table of the matches played so far.
    Table,
    /// At each ask, how many points are enough and how few can still do.
    Scores,
    /// At each match that is asked about, what its outcome would decide.
    WhatIf,
    /// No ask is answered; at the end the trees of all questions are written as a saved text.
    Save,
    /// A saved text goes on: the asks of the feed before it are not answered, and each ask of the
    /// feed after it is answered as `Verdicts` does.
    Resume { proofs: bool },
    /// At each ask, the verdicts by one thread, with wide reasons in their trees.
    Decide { proofs: bool },
    /// A report of `Verdicts` is checked, or a `wide` one, of `Decide`.
    Check { wide: bool },
    /// At each ask of a cup, the verdict of every club; with `proofs`, what shows it after those
    /// that it shows.
    Groups { proofs: bool },
    /// A report of `Groups` is checked.
    GroupsCheck,
    /// The verdicts of the league that this number gives are counted. No input is read.
    Sample { seed: u64 },
}

/// A mode, and how many workers it may have. An option that a mode does not use has no effect.
#[derive(Clone, Copy, Debug, PartialEq, Eq)]
pub struct Command {
    pub mode: Mode,
    /// From 1 to 8.
    pub workers: u8,
}
