//! Names in a field: 1 to 40 bytes of UTF-8, none below 32 and none of 127.

ghost use Rattle.std.specs.Prelude.{◌≡◌, option_map};
ghost use Rattle.std.specs.List.{list_all};
ghost use Rattle.league_core.specs.game.Sheets.{is_name, is_name_byte};
ghost use Rattle.fixture_sheet.specs.Texts.{name_of, text_of};

use league_core::limits::MOST_NAME_BYTES;

/// The field as a name, if it is one: 1 to 40 bytes of UTF-8, none below 32 and none of 127.
pub fn name_of(text: &[u8]) -> Option<&str>
    ensures { option_map (λ name. name.now) result ≡ name_of text.now }
{
    if is_name(text) { text_of(text) } else { None }
}

/// The field as text, if it is UTF-8.
pub fn text_of(bytes: &[u8]) -> Option<&str>
    ensures { option_map (λ text. text.now) result ≡ text_of bytes.now }
{
    match str::from_utf8(bytes) {
        Ok(text) => Some(text),
        Err(_) => None,
    }
}

fn is_name(text: &[u8]) -> bool
    ensures { result ≡ is_name text.now }
{
    1 <= text.len() && text.len() <= usize::from(MOST_NAME_BYTES) && has_name_bytes(text)
}

fn has_name_bytes(text: &[u8]) -> bool
    ensures { result ≡ list_all is_name_byte text.now }
{
    text.iter().all(|byte| is_name_byte(*byte))
}

fn is_name_byte(byte: u8) -> bool
    ensures { result ≡ is_name_byte byte }
{
    32 <= byte && byte != 127
}
