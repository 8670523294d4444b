//! What counts of a line, and which lines are passed over.

ghost use Rattle.std.specs.Prelude.{◌≡◌, ◌≤◌, ◌==◌, drop, length, take, if◌then◌else◌};
ghost use Rattle.port_core.specs.Contents.{is_skipped, without_mark, without_return};
ghost use Rattle.port_core.specs.inside.Buffers.{part};

/// From where up to where the text counts: without one CR at its end and, if it begins the input,
/// without the byte order mark.
pub fn content_of(text: &[u8], is_first: bool) -> (usize, usize)
    ensures value { part result.0 result.1 text.now
        ≡ (if is_first then without_mark (without_return text.now) else without_return text.now) }
    ensures order { result.0 ≤ result.1 }
    ensures within { result.1 ≤ length text.now }
{
    let to = end_of(text);
    let from = if is_first { start_of(&text[..to]) } else { 0 };
    (from, to)
}

// Where the text ends without one CR.
fn end_of(text: &[u8]) -> usize
    ensures value { take result text.now ≡ without_return text.now }
    ensures within { result ≤ length text.now }
{
    if text.ends_with(b"\r") {
        text.len() - 1
    } else {
        text.len()
    }
}

// Where the text starts without the byte order mark.
fn start_of(text: &[u8]) -> usize
    ensures value { drop result text.now ≡ without_mark text.now }
    ensures within { result ≤ length text.now }
{
    if text.starts_with(b"\xef\xbb\xbf") {
        3
    } else {
        0
    }
}

/// Nothing, or a comment.
pub fn is_skipped(content: &[u8]) -> bool
    ensures { result ≡ is_skipped content.now }
{
    match content.first() {
        None => true,
        Some(byte) => *byte == b'#',
    }
}
