//! The opening of a session that goes on from a saved text: a feed, whose asks are not answered, up
//! to the record `proofs`, and then the saved text.

ghost use Rattle.std.specs.Prelude.{◌≡◌, ℕ, Bool, false, List, IfOk, Option};
ghost use Rattle.port_core.specs.Readers.{stream_of};
ghost use Rattle.command_words.specs.declared.command.Mode.TheVariants.{Resume};
ghost use Rattle.session_turns.specs.Courses.{course_from, course_from_saved, first_origin};
ghost use Rattle.pool_save.specs.SavedReadings.{nothing_saved};
ghost use Rattle.run_ends.specs.inside.Ways.{Path};
ghost use Rattle.session_turns.specs.Texts.{session_kind};
ghost use Rattle.session_turns.specs.inside.SavedStops.{EndsBefore, stop_of_save};
ghost use Rattle.session_turns.specs.inside.TurnReads.{FeedOpens, HasComeTo, HasComeToSaved};
ghost use Rattle.session_turns.specs.inside.TurnReads.{SavedOpens};
ghost use Rattle.session_turns.specs.inside.Turns.{CountsOpening, FeedGives, IsLive, IsUnworked};
ghost use Rattle.session_turns.specs.inside.Turns.{SavedGives};

use branch_pool::Pool;
use league_core::OutOfMemory;
use plain_rounds::read_parsed;
use pool_save::{SaveStop, read_saved, take_up};
use port_core::{LineReader, Source};
use result_log::{Entries, Entry};
use run_ends::{InputStop, stop_of_feed, stop_of_read, unsaved};
use std::alloc::Global;

/// Reads the feed and the saved text after it, and goes on from its trees. If the source fails, a
/// line is refused or memory runs out, the pool is gone.
pub fn open_saved<S: Source>(
    alloc: Global,
    pool: Pool,
    reader: &mut LineReader,
    source: &mut S,
) -> Result<Pool, InputStop>
    requires live { IsLive (Resume false) pool }
    requires unworked { IsUnworked pool }
    ensures way { (proofs : Bool) (input : Option (List ℕ)) (ended : Bool)
        (old now : Option (List ℕ))
        → Path (session_kind (Resume proofs)) input ended
        (stream_of reader.old (S.left source.old))
        (S.ended source.old) reader.old.position
        (course_from (Resume proofs) (first_origin pool.sheet) pool.log) old now
        → SavedGives (Resume proofs) input ended (stream_of reader.new (S.left source.new))
        (S.ended source.new) reader.new.position (S.left source.new) old now result }
    ensures last { (proofs : Bool) (first : S)
        → HasComeTo S.left S.reads (Resume proofs) first reader.old source.old
        (first_origin pool.sheet) pool.log
        → SavedOpens S.left S.reads (Resume proofs) first reader.new source.new result }
    ensures live { IfOk result (IsLive (Resume false)) }
    ensures counts { CountsOpening (S.faults source.old) (S.faults source.new) result }
{
    let pool = read_first_feed(alloc, pool, reader, source)?;
    take_saved(alloc, pool, reader, source)
}

// Reads the feed up to the record `proofs`, and tells the pool each event as it comes.
fn read_first_feed<S: Source>(
    alloc: Global,
    pool: Pool,
    reader: &mut LineReader,
    source: &mut S,
) -> Result<Pool, InputStop>
    requires live { IsLive (Resume false) pool }
    requires unworked { IsUnworked pool }
    ensures way { (proofs : Bool) (input : Option (List ℕ)) (ended : Bool)
        (old now : Option (List ℕ))
        → Path (session_kind (Resume proofs)) input ended
        (stream_of reader.old (S.left source.old))
        (S.ended source.old) reader.old.position
        (course_from (Resume proofs) (first_origin pool.sheet) pool.log) old now
        → FeedGives (Resume proofs) input ended (stream_of reader.new (S.left source.new))
        (S.ended source.new) reader.new.position (S.left source.new) old now result }
    ensures last { (proofs : Bool) (first : S)
        → HasComeTo S.left S.reads (Resume proofs) first reader.old source.old
        (first_origin pool.sheet) pool.log
        → FeedOpens S.left S.reads (Resume proofs) first reader.new source.new result }
    ensures live { IfOk result (IsLive (Resume false)) }
    ensures unworked { IfOk result IsUnworked }
    ensures counts { CountsOpening (S.faults source.old) (S.faults source.new) result }
{
    let mut live = pool;
    'rounds: loop {
        let entries = Entries { proofs: true };
        let Ok(round) = read_parsed(alloc, &entries, live, reader, source) else {
            return Err(InputStop::OutOfMemory);
        };
        match round.last {
            Ok(Entry::Ask) => live = round.pool,
            Ok(Entry::Proofs) => return Ok(round.pool),
            Ok(Entry::End) => return Err(end_before(reader)),
            Ok(Entry::Change(_)) => unreachable!(),
            Err(stop) => return Err(stop_of_feed(stop)),
        }
    }
}

// The end of the input, where a saved text has to come.
fn end_before(reader: &LineReader) -> InputStop
    ensures { EndsBefore reader.now.position result }
{
    match reader.number().checked_add(1) {
        Some(number) => unsaved(number),
        // No input is so long.
        None => InputStop::OutOfMemory,
    }
}

// Reads the saved text, and takes up its trees.
fn take_saved<S: Source>(
    alloc: Global,
    pool: Pool,
    reader: &mut LineReader,
    source: &mut S,
) -> Result<Pool, InputStop>
    requires live { IsLive (Resume false) pool }
    requires unworked { IsUnworked pool }
    ensures way { (proofs : Bool) (input : Option (List ℕ)) (ended : Bool)
        (old now : Option (List ℕ))
        → Path (session_kind (Resume proofs)) input ended
        (stream_of reader.old (S.left source.old))
        (S.ended source.old) reader.old.position
        (course_from_saved (Resume proofs) pool.sheet pool.log nothing_saved) old now
        → SavedGives (Resume proofs) input ended (stream_of reader.new (S.left source.new))
        (S.ended source.new) reader.new.position (S.left source.new) old now result }
    ensures last { (proofs : Bool) (first : S)
        → HasComeToSaved S.left S.reads (Resume proofs) first reader.old source.old pool.sheet
        pool.log
        → SavedOpens S.left S.reads (Resume proofs) first reader.new source.new result }
    ensures live { IfOk result (IsLive (Resume false)) }
    ensures counts { CountsOpening (S.faults source.old) (S.faults source.new) result }
{
    match read_saved(alloc, pool.sheet(), reader, source) {
        Ok(trees) => match take_up(pool, trees) {
            Ok(next) => Ok(next),
            Err(OutOfMemory) => Err(InputStop::OutOfMemory),
        },
        Err(stop) => Err(stop_of_save(stop)),
    }
}

// Why no saved text is given.
fn stop_of_save(stop: SaveStop) -> InputStop
    ensures { result ≡ stop_of_save stop }
{
    match stop {
        SaveStop::BadSave { number } => unsaved(number),
        SaveStop::Read(stop) => stop_of_read(stop),
        SaveStop::OutOfMemory => InputStop::OutOfMemory,
    }
}
