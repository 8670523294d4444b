//! The heads of lines that are kept one after another: what a line's number and length are.

ghost use Rattle.std.specs.Prelude.{◌≡◌, ◌<◌, ◌≤◌, ◌+◌, ◌^◌, ◌%◌, ◌++◌, ◌∷◌, [], IfSome, OnErr};
ghost use Rattle.std.specs.Prelude.{OnOk, length};
ghost use Rattle.std.specs.Int.{w32, to_le_bytes};
ghost use Rattle.kept_lines.specs.inside.LineHeads as line_heads;
ghost use Rattle.kept_lines.specs.inside.LineHeads.{WritesHead, length_said, near_head, step_said};

use league_core::OutOfMemory;

/// Where a line begins, and the number of the line before it.
#[derive(Clone, Copy)]
pub struct LinePlace {
    pub start: usize,
    pub number: u32,
}

/// A line's number, and where its text begins and ends.
#[derive(Clone, Copy)]
pub struct LineHead {
    pub number: u32,
    pub text: usize,
    pub end: usize,
}

// The first byte of a head that says number and length in full.
const FAR: u8 = 255;

/// What the head at a place says.
pub fn head_at(bytes: &[u8], place: LinePlace) -> LineHead
    requires { (line_heads.head_at bytes.now place).end ≤ length bytes.now }
    ensures { result ≡ line_heads.head_at bytes.now place }
{
    let byte = bytes[place.start];
    if byte < FAR {
        near_head(byte, place)
    } else {
        let text = place.start + 9;
        LineHead {
            number: long_number(bytes, place.start + 1),
            text,
            end: text + long_number(bytes, place.start + 5) as usize,
        }
    }
}

// What a byte alone says.
fn near_head(byte: u8, place: LinePlace) -> LineHead
    requires { place.start < 2 ^ 63 }
    ensures { result ≡ line_heads.near_head byte place }
{
    let (step, long) = if byte < 128 {
        (1, byte)
    } else {
        (2 + (byte - 128) / 16, (byte - 128) % 16)
    };
    let text = place.start + 1;
    LineHead {
        number: place.number.wrapping_add(u32::from(step)),
        text,
        end: text + long as usize,
    }
}

// The number that four bytes say, the lowest first.
fn long_number(bytes: &[u8], at: usize) -> u32
    requires { at + 4 ≤ length bytes.now }
    ensures { result ≡ line_heads.long_number bytes.now at }
{
    u32::from_le_bytes([bytes[at], bytes[at + 1], bytes[at + 2], bytes[at + 3]])
}

/// Puts a head behind the bytes: of a line with this number and so long, behind one with the
/// number `last`.
pub fn write_head(bytes: &mut Vec<u8>, last: u32, number: u32, long: u32) -> Result<(), OutOfMemory>
    ensures ok { OnOk result (WritesHead bytes.old.items bytes.new.items last number long) }
    ensures err { OnErr result (bytes.new.items ≡ bytes.old.items) }
{
    match near_byte(number.wrapping_sub(last), long) {
        Some(byte) => bytes.push(byte)?,
        None => bytes.extend_from_slice(&far_bytes(number, long))?,
    }
    Ok(())
}

// The byte that alone says such a step and length, if one does.
fn near_byte(step: u32, long: u32) -> Option<u8>
    ensures { IfSome result
        (λ byte. (byte < 255) × (step_said byte ≡ step) × (length_said byte ≡ long)) }
{
    if step == 1 && long < 128 {
        Some(long as u8)
    } else if step >= 2 && step <= 8 && long < 16 {
        Some((128 + (step - 2) * 16 + long) as u8)
    } else {
        None
    }
}

// The head that says number and length in full.
fn far_bytes(number: u32, long: u32) -> [u8; 9]
    ensures { result ≡ 255 ∷ to_le_bytes w32 number ++ to_le_bytes w32 long }
{
    let [n0, n1, n2, n3] = number.to_le_bytes();
    let [l0, l1, l2, l3] = long.to_le_bytes();
    [FAR, n0, n1, n2, n3, l0, l1, l2, l3]
}
