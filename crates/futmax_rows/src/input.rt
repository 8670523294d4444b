//! The lines of an input as a case writes them.

ghost use Rattle.std.specs.Prelude.{◌<◌, IfSome};

use std::io;

/// The first and the last number of `1..9`; of `7`, that one twice.
pub fn span_of(text: &str) -> Option<(u64, u64)> {
    let (first, last) = text.split_once("..").unwrap_or((text, text));
    Some((first.parse().ok()?, last.parse().ok()?))
}

/// Adds the lines of a text from one number to another, counted from 1.
pub fn add_span(input: &mut Vec<u8>, text: &[u8], span: (u64, u64)) -> io::Result<()> {
    let (first, last) = span;
    let mut number = 0u64;
    for line in text.split_inclusive(|byte| *byte == b'\n') {
        number = number.saturating_add(1);
        if first <= number && number <= last {
            input.extend_from_slice(line)?;
        }
    }
    Ok(())
}

/// Adds what a line of a case stands for.
pub fn add_line(input: &mut Vec<u8>, line: &str) -> io::Result<()> {
    let (count, text) = repeated(line).ok_or(io::ErrorKind::InvalidInput)?;
    for _ in 0..count {
        add_text(input, text)?;
    }
    Ok(())
}

// How many times a text stands, and the text.
fn repeated(line: &str) -> Option<(u64, &str)> {
    let Some(rest) = line.strip_prefix('*') else {
        return Some((1, line));
    };
    let (count, text) = rest.split_once(' ')?;
    Some((count.parse().ok()?, text))
}

fn add_text(input: &mut Vec<u8>, text: &str) -> io::Result<()> {
    let mut has_end = true;
    for (at, part) in text.split('\\').enumerate() {
        if at == 0 {
            input.extend_from_slice(part.as_bytes())?;
        } else if part.is_empty() {
            has_end = false;
        } else {
            let (byte, rest) = unescaped(part.as_bytes()).ok_or(io::ErrorKind::InvalidInput)?;
            input.push(byte)?;
            input.extend_from_slice(rest)?;
        }
    }
    if has_end {
        input.push(b'\n')?;
    }
    Ok(())
}

// The byte that is meant by what comes after a backslash, and the rest.
fn unescaped(part: &[u8]) -> Option<(u8, &[u8])> {
    match part {
        [b'r', rest @ ..] => Some((b'\r', rest)),
        [b'x', high, low, rest @ ..] => Some((digit_of(*high)? * 16 + digit_of(*low)?, rest)),
        _ => None,
    }
}

fn digit_of(byte: u8) -> Option<u8>
    ensures { IfSome result (λ digit. digit < 16) }
{
    match byte {
        b'0'..=b'9' => Some(byte - b'0'),
        b'a'..=b'f' => Some(byte - b'a' + 10),
        _ => None,
    }
}
