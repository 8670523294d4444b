//! What a run has from its start.

ghost use Rattle.std.specs.Prelude.{◌<◌, ◌≤◌};

use command_words::Mode;
use std::alloc::Global;

/// What a run has from its start: where it runs, what it is for, and how many workers it may have.
#[derive(Drop)]
pub struct Setup<'a, R, G> {
    pub rt: &'a R,
    pub alloc: Global,
    pub mode: Mode,
    pub workers: u8,
    pub gate: &'a G,
    ghost some: { 0 < workers },
    ghost few: { workers ≤ 8 },
}
