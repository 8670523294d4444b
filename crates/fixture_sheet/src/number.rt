//! Numbers in a field: 1 to 6 ASCII digits, leading zeros accepted.

ghost use Rattle.std.specs.Prelude.{◌≡◌, ◌≤◌, IfSome, IsTrue};
ghost use Rattle.std.specs.List.{list_all};
ghost use Rattle.std.specs.Char.{is_ascii_digit};
ghost use Rattle.std.specs.Str.Parse.{digits_value};
ghost use Rattle.fixture_sheet.specs.Texts.{is_number, number_written, number_within};

/// The number that a field of 1 to 6 digits writes, if it is one from `least` to `most`; leading
/// zeros are taken.
pub fn number_within(least: u32, most: u32, text: &[u8]) -> Option<u32>
    ensures value { result ≡ number_within least most text.now }
    ensures range { IfSome result (λ number. (least ≤ number) × (number ≤ most)) }
{
    let number = number_written(text)?;
    if least <= number && number <= most {
        Some(number)
    } else {
        None
    }
}

/// The number that a field writes, if it has 1 to 6 ASCII digits; leading zeros are taken.
pub fn number_written(text: &[u8]) -> Option<u32>
    ensures { result ≡ number_written text.now }
{
    if is_number(text) {
        Some(value_of(text))
    } else {
        None
    }
}

fn is_number(text: &[u8]) -> bool
    ensures { result ≡ is_number text.now }
{
    1 <= text.len() && text.len() <= 6 && has_digits(text)
}

fn has_digits(text: &[u8]) -> bool
    ensures { result ≡ list_all is_ascii_digit text.now }
{
    text.iter().all(|byte| byte.is_ascii_digit())
}

fn value_of(text: &[u8]) -> u32
    requires { IsTrue (is_number text.now) }
    ensures { result ≡ digits_value 10 text.now }
{
    let mut value = 0;
    for byte in text {
        value = value * 10 + u32::from(*byte - b'0');
    }
    value
}
