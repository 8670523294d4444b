//! What a worker does by itself: it looks at the word, and waits for nobody.

ghost use Rattle.std.specs.Prelude.{◌≡◌};
ghost use Rattle.epoch_cancel.specs.inside.Seats.{IsCancelled, Looks};

use crate::code::EPOCH;
use crate::seats::Eye;
use crate::view::Look;
use crate::word::EpochWord;

/// Loads the word once. The answer is its epoch.
pub fn look(word: &EpochWord, eye: &mut Eye) -> u64
    requires seat { eye.old.table ≡ word.now }
    ensures moves { Looks eye.old eye.new }
    ensures value { result ≡ eye.new.newest }
{
    word.table.shared.load::<Look>(&mut eye.seat, 0) / EPOCH
}

/// Loads the word once. If its epoch is greater than the one given, work of the given one is out of
/// date, and the answer is the word's epoch.
pub fn cancelled(word: &EpochWord, eye: &mut Eye, epoch: u64) -> Option<u64>
    requires seat { eye.old.table ≡ word.now }
    ensures moves { Looks eye.old eye.new }
    ensures answer { IsCancelled result epoch eye.new.newest }
{
    let newest = look(word, eye);
    if epoch < newest { Some(newest) } else { None }
}
