//! A round of the feed as the mode reads it.

ghost use Rattle.std.specs.Prelude.{◌≡◌, IfOk, OnErr};
ghost use Rattle.result_log.specs.inside.Rounds.{spot_of};
ghost use Rattle.session_turns.specs.inside.RoundHalts.{HaltsRound, StarvesRound};
ghost use Rattle.session_turns.specs.inside.Turns.{IsLive};

use crate::setup::Setup;
use branch_pool::Pool;
use command_words::Mode;
use league_core::{OutOfMemory, Sheet};
use plain_rounds::{read_parsed, read_round};
use port_core::{LineReader, Source};
use session_turns::{Halt, halt_of, halt_of_steps};
use std::sync::Wait;
use std::thread::Threads;
use what_if::Steps;
use worker_gate::{Gate, run_round};

/// Reads the feed on to the next ask, its end or a stop. In the mode `verdicts` workers work on the
/// pool meanwhile; in the mode `whatif` an ask may be about a match.
pub fn next_round<R: Threads + Wait + Sync, S: Source + Send, G: Gate + Sync>(
    setup: &Setup<'_, R, G>,
    sheet: &Sheet,
    pool: Pool,
    reader: &mut LineReader,
    source: &mut S,
) -> Result<Halt, OutOfMemory>
    requires live { IsLive setup.now.mode pool }
    requires of_pool { sheet.now ≡ pool.sheet }
    ensures ok { IfOk result (HaltsRound S.left S.reads setup.now.mode pool
        (spot_of reader.old (S.left source.old) (S.ended source.old) (S.faults source.old))
        (spot_of reader.new (S.left source.new) (S.ended source.new) (S.faults source.new))
        source.old source.new) }
    ensures err { OnErr result (StarvesRound S.left S.reads setup.now.mode pool
        (spot_of reader.old (S.left source.old) (S.ended source.old) (S.faults source.old))
        (spot_of reader.new (S.left source.new) (S.ended source.new) (S.faults source.new))
        source.old source.new) }
{
    let alloc = setup.alloc;
    match setup.mode {
        Mode::Verdicts { .. } => {
            let (workers, gate) = (setup.workers, setup.gate);
            let round = run_round(setup.rt, alloc, sheet, pool, reader, source, workers, gate)?;
            Ok(halt_of(round))
        }
        Mode::WhatIf => {
            let round = read_parsed(alloc, &Steps, pool, reader, source)?;
            Ok(halt_of_steps(round))
        }
        Mode::Table
        | Mode::Scores
        | Mode::Save
        | Mode::Resume { .. }
        | Mode::Decide { .. }
        | Mode::Check { .. }
        | Mode::Groups { .. }
        | Mode::GroupsCheck
        | Mode::Sample { .. } => Ok(halt_of(read_round(alloc, pool, reader, source)?)),
    }
}
