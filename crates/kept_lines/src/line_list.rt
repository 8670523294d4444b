//! The lines of a report, kept until they are judged.

ghost use Rattle.std.specs.Prelude.{◌≡◌, ◌<◌, ◌≤◌, ◌+◌, [], ◌∷◌, ◌++◌, length, IfOk, OnOk};
ghost use Rattle.std.specs.Prelude.{ℕ, ◌≢◌, OnErr, slice_index_or};
ghost use Rattle.kept_lines.specs.LineLists.{line_number_at, text_at};
ghost use Rattle.kept_lines.specs.inside.LineBlocks.{IsFilled, block_length, lines_of_blocks};

use crate::line_block::LineBlock;
use league_core::OutOfMemory;
use std::alloc::Global;
use std::marker::Model;
use std::mem;

// How many lines a block has.
const BLOCK: usize = 4096;

/// The lines of a report in their order, each with its number in the input. Contracts see numbers
/// and bytes.
///
/// They are kept in blocks, of which only the latest has free room. A report of 64 MB takes at most
/// 1.6 times its bytes, whatever its lines are (measured by `checks/memory`). Numbers go up to
/// 4,294,967,295; what goes beyond is refused, as where memory is exhausted.
#[derive(Drop)]
pub struct LineList {
    alloc: Global,
    full: Vec<LineBlock>,
    latest: LineBlock,
    count: usize,
}

impl Model for LineList {
    ghost use Rattle.std.specs.Prelude.{List};
    ghost use Rattle.kept_lines.specs.LineLists.{NumberedLine};
    ghost use Rattle.kept_lines.specs.inside.LineBlocks.{IsFilled, lines_of_blocks};

    ghost Value = { List NumberedLine };

    ghost view = { λ list. lines_of_blocks list.full.items list.latest };

    ghost invariant = { λ list.
        IsFilled list.full.items list.latest list.count };
}

impl LineList {
    /// The empty list.
    pub fn new(alloc: Global) -> Result<LineList, OutOfMemory>
        ensures { IfOk result (λ list. list ≡ []) }
    {
        Ok(LineList {
            alloc,
            full: Vec::new(alloc),
            latest: LineBlock::new(alloc),
            count: 0,
        })
    }

    /// Adds a line at the end. After a refusal the list is as before.
    pub fn add(&mut self, number: u64, text: &[u8]) -> Result<(), OutOfMemory>
        ensures ok { OnOk result
            (self.new ≡ self.old ++ record { number = number; text = text.now } ∷ []) }
        ensures err { OnErr result (self.new ≡ self.old) }
    {
        let Some(count) = self.count.checked_add(1) else {
            return Err(OutOfMemory);
        };
        make_room(self.alloc, &mut self.full, &mut self.latest)?;
        self.latest.add(number, text)?;
        self.count = count;
        Ok(())
    }

    /// How many lines there are.
    pub fn len(&self) -> usize
        ensures { result ≡ length self.now }
    {
        self.count
    }

    /// The number of the line at a position, from 0.
    pub fn number(&self, at: usize) -> u64
        requires { at < length self.now }
        ensures { result ≡ line_number_at self.now at }
    {
        let block = block_with(self.full.as_slice(), &self.latest, at / BLOCK);
        block.number(at % BLOCK)
    }

    /// The bytes of the line at a position, from 0.
    pub fn text(&self, at: usize) -> &[u8]
        requires { at < length self.now }
        ensures { result.now ≡ text_at self.now at }
    {
        let block = block_with(self.full.as_slice(), &self.latest, at / BLOCK);
        block.text(at % BLOCK)
    }
}

// Closes the latest block if it is full, and begins one behind it.
fn make_room(
    alloc: Global,
    full: &mut Vec<LineBlock>,
    latest: &mut LineBlock,
) -> Result<(), OutOfMemory>
    ensures kept { (count : ℕ) → IsFilled full.old.items latest.old count
        → IsFilled full.new.items latest.new count }
    ensures same { lines_of_blocks full.new.items latest.new
        ≡ lines_of_blocks full.old.items latest.old }
    ensures ok { OnOk result (length latest.new ≢ block_length) }
{
    if latest.len() == BLOCK {
        full.reserve(1)?;
        latest.close();
        let closed = mem::replace(latest, LineBlock::new(alloc));
        full.push_reserved(closed);
    }
    Ok(())
}

// The block that so many full ones stand before.
fn block_with<'a>(full: &'a [LineBlock], latest: &'a LineBlock, at: usize) -> &'a LineBlock
    ensures { result.now ≡ slice_index_or full.now at latest.now }
{
    if at < full.len() { &full[at] } else { latest }
}
