//! Small steps on pieces of bytes, each on its own so that a caller sees the bytes and no
//! bookkeeping.

ghost use Rattle.std.specs.Prelude.{◌≡◌, ◌+◌, ◌-◌, ◌<◌, ◌≤◌, ◌++◌, IfNone, IfSome, drop, length};
ghost use Rattle.std.specs.Prelude.{slice_index, take};
ghost use Rattle.memchr.specs.Find.{IsFirst, IsFirstByte, Passes, is_byte};
ghost use Rattle.port_core.specs.Lines.{HasNoLineFeed, line_feed};
ghost use Rattle.port_core.specs.inside.Buffers.{part};

use memchr::memchr;
use std::simd::prelude::*;

// Most lines end among so many bytes, which are searched at once.
const NEAR: usize = 32;

/// Puts `text` at the start.
pub fn copy_to_start(into: &mut [u8], text: &[u8])
    requires { length text.now ≤ length into.old }
    ensures { take (length text.now) into.new ≡ text.now }
{
    into[..text.len()].copy_from_slice(text);
}

// Moves the bytes from one place up to another down to a third place, if they do not stand there.
fn move_down(bytes: &mut [u8], from: usize, to: usize, at: usize)
    requires order { (at ≤ from) × (from ≤ to) }
    requires within { to ≤ length bytes.old }
    ensures moved { take (at + (to - from)) bytes.new
        ≡ take at bytes.old ++ part from to bytes.old }
    ensures rest { drop to bytes.new ≡ drop to bytes.old }
{
    if from == at {
        return;
    }
    bytes.copy_within(from..to, at);
}

/// Moves two parts of the bytes to the start, the second behind the first. Each is given by where
/// it begins and where it ends.
#[inline(never)]
pub fn gather(bytes: &mut [u8], first: (usize, usize), second: (usize, usize))
    requires order { (first.0 ≤ first.1) × (first.1 ≤ second.0) × (second.0 ≤ second.1) }
    requires within { second.1 ≤ length bytes.old }
    ensures { take ((first.1 - first.0) + (second.1 - second.0)) bytes.new
        ≡ part first.0 first.1 bytes.old ++ part second.0 second.1 bytes.old }
{
    move_down(bytes, first.0, first.1, 0);
    move_down(bytes, second.0, second.1, first.1 - first.0);
}

/// The place of the first LF.
#[inline(always)]
pub fn find_line_feed(bytes: &[u8]) -> Option<usize>
    ensures none { IfNone result (HasNoLineFeed bytes.now) }
    ensures within { IfSome result (λ place. place < length bytes.now) }
    ensures front { IfSome result (λ place. HasNoLineFeed (take place bytes.now)) }
    ensures found { IfSome result (λ place. slice_index bytes.now place ≡ line_feed) }
{
    if NEAR <= bytes.len() {
        if let Some(place) = find_near(bytes) {
            return Some(place);
        }
    }
    find_far(bytes)
}

// The place of the first LF among the nearest bytes.
#[inline(always)]
fn find_near(bytes: &[u8]) -> Option<usize>
    requires { NEAR ≤ length bytes.now }
    ensures { IsFirst (Passes (is_byte line_feed) bytes.now) 0 NEAR result }
{
    let marks = u8x32::from_slice(bytes)
        .simd_eq(u8x32::splat(b'\n'))
        .to_bitmask();
    if marks == 0 {
        return None;
    }
    Some(marks.trailing_zeros() as usize)
}

// The place of the first LF, wherever it is.
#[inline(never)]
fn find_far(bytes: &[u8]) -> Option<usize>
    ensures { IsFirstByte (is_byte line_feed) bytes.now result }
{
    memchr(b'\n', bytes)
}
