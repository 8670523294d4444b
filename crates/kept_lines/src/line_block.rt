//! Some lines of a report, in little more memory than their bytes: each behind a head of one byte,
//! or of nine.

ghost use Rattle.std.specs.Prelude.{◌≡◌, ◌<◌, ◌≤◌, ◌+◌, ◌*◌, [], ◌∷◌, ◌++◌, length, OnOk};
ghost use Rattle.std.specs.Prelude.{OnErr, slice_range};
ghost use Rattle.kept_lines.specs.LineLists.{line_number_at, text_at};
ghost use Rattle.kept_lines.specs.inside.LineBlocks as line_blocks;
ghost use Rattle.kept_lines.specs.inside.LineBlocks.{AreLineMarks, AreLinesKept, WritesLine};
ghost use Rattle.kept_lines.specs.inside.LineBlocks.{head_of_line, stride};

use crate::line_head::{LineHead, LinePlace, head_at, write_head};
use league_core::OutOfMemory;
use std::alloc::Global;
use std::marker::Model;

// How many lines each mark is for.
const STRIDE: usize = 8;

// Where the first line begins.
const FIRST: LinePlace = LinePlace {
    start: 0,
    number: 0,
};

/// Lines in their order, each with its number. Contracts see numbers and bytes.
///
/// A text is found from the mark before it, a number from the first line on. There is room for
/// 4,294,967,295 bytes and for numbers up to that; what goes beyond is refused, as where memory is
/// exhausted.
#[derive(Drop)]
pub struct LineBlock {
    bytes: Vec<u8>,
    // Where the first line begins and each eighth from it.
    marks: Vec<u32>,
    count: usize,
    // The number of the last line.
    last: u32,
}

impl Model for LineBlock {
    ghost use Rattle.std.specs.Prelude.{◌≡◌, List};
    ghost use Rattle.kept_lines.specs.LineLists.{NumberedLine};
    ghost use Rattle.kept_lines.specs.inside.LineBlocks.{AreLinesKept, last_number, lines_in};

    ghost Value = { List NumberedLine };

    ghost view = { λ block. lines_in block.count block.bytes.items };

    ghost invariant = { λ block.
        AreLinesKept block.bytes.items block.marks.items block.count
        × (last_number block.count block.bytes.items ≡ block.last) };
}

impl LineBlock {
    /// No lines.
    pub fn new(alloc: Global) -> LineBlock
        ensures { result ≡ [] }
    {
        LineBlock {
            bytes: Vec::new(alloc),
            marks: Vec::new(alloc),
            count: 0,
            last: 0,
        }
    }

    /// Adds a line at the end. After a refusal the lines are as before.
    pub fn add(&mut self, number: u64, text: &[u8]) -> Result<(), OutOfMemory>
        ensures ok { OnOk result
            (self.new ≡ self.old ++ record { number = number; text = text.now } ∷ []) }
        ensures err { OnErr result (self.new ≡ self.old) }
    {
        let Ok(number) = u32::try_from(number) else {
            return Err(OutOfMemory);
        };
        mark_end(&mut self.marks, self.bytes.as_slice(), self.count)?;
        write_line(&mut self.bytes, self.last, number, text)?;
        self.count += 1;
        self.last = number;
        Ok(())
    }

    /// Gives back the room that is free.
    pub fn close(&mut self)
        ensures { self.new ≡ self.old }
    {
        self.bytes.shrink_to_fit();
        self.marks.shrink_to_fit();
    }

    /// How many lines there are.
    pub fn len(&self) -> usize
        ensures { result ≡ length self.now }
    {
        self.count
    }

    /// The number of the line at a position, from 0.
    pub fn number(&self, at: usize) -> u64
        requires { at < length self.now }
        ensures { result ≡ line_number_at self.now at }
    {
        let bytes = self.bytes.as_slice();
        u64::from(head_at(bytes, place_after(bytes, FIRST, at)).number)
    }

    /// The bytes of the line at a position, from 0.
    pub fn text(&self, at: usize) -> &[u8]
        requires { at < length self.now }
        ensures { result.now ≡ text_at self.now at }
    {
        let head = text_head(self.bytes.as_slice(), self.marks.as_slice(), at);
        part_between(self.bytes.as_slice(), head.text, head.end)
    }
}

// Marks the end of so many lines, if it is a place that has a mark and none yet.
fn mark_end(marks: &mut Vec<u32>, bytes: &[u8], count: usize) -> Result<(), OutOfMemory>
    requires { AreLinesKept bytes.now marks.old.items count }
    ensures kept { AreLinesKept bytes.now marks.new.items count }
    ensures ok { OnOk result (count < stride * length marks.new.items) }
{
    if marks.len() <= count / STRIDE {
        let Ok(start) = u32::try_from(bytes.len()) else {
            return Err(OutOfMemory);
        };
        marks.push(start)?;
    }
    Ok(())
}

// Puts a line with its head behind the bytes.
fn write_line(bytes: &mut Vec<u8>, last: u32, number: u32, text: &[u8]) -> Result<(), OutOfMemory>
    ensures ok { OnOk result (WritesLine bytes.old.items bytes.new.items last number text.now) }
    ensures err { OnErr result (bytes.new.items ≡ bytes.old.items) }
{
    let Ok(long) = u32::try_from(text.len()) else {
        return Err(OutOfMemory);
    };
    let before = bytes.len();
    write_head(bytes, last, number, long)?;
    match bytes.extend_from_slice(text) {
        Ok(()) => Ok(()),
        Err(_) => {
            bytes.truncate(before);
            Err(OutOfMemory)
        }
    }
}

// Where the text of the line at a position begins and ends; the number is not that of the line.
fn text_head(bytes: &[u8], marks: &[u32], at: usize) -> LineHead
    requires marks { AreLineMarks bytes.now marks.now }
    requires in_range { at < stride * length marks.now }
    requires within { (head_of_line bytes.now at).end ≤ length bytes.now }
    ensures text { result.text ≡ (head_of_line bytes.now at).text }
    ensures end { result.end ≡ (head_of_line bytes.now at).end }
{
    let from = LinePlace {
        start: marks[at / STRIDE] as usize,
        number: 0,
    };
    head_at(bytes, place_after(bytes, from, at % STRIDE))
}

// The place so many lines behind another.
fn place_after(bytes: &[u8], from: LinePlace, count: usize) -> LinePlace
    requires { (line_blocks.place_after count from bytes.now).start ≤ length bytes.now }
    ensures { result ≡ line_blocks.place_after count from bytes.now }
{
    let mut place = from;
    for _ in 0..count {
        let head = head_at(bytes, place);
        place = LinePlace {
            start: head.end,
            number: head.number,
        };
    }
    place
}

fn part_between(bytes: &[u8], start: usize, end: usize) -> &[u8]
    requires in_order { start ≤ end }
    requires within { end ≤ length bytes.now }
    ensures { result.now ≡ slice_range bytes.now start end }
{
    &bytes[start..end]
}
