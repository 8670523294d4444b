//! The clubs of a sheet by their names: a walk over 24 at most.

ghost use Rattle.std.specs.Prelude.{◌≡◌, ◌≤◌, ◌<◌, IfSome, length, position, bytes_eq};
ghost use Rattle.std.specs.List.{list_any};
ghost use Rattle.league_core.specs.declared.sheet.Club.{Club};
ghost use Rattle.fixture_sheet.specs.Records.{club_named, has_name};

use crate::name::text_of;
use league_core::{Club, Sheet};

/// The number of the club that a field names, from 0; none if no club has that name.
pub fn club_named(sheet: &Sheet, field: &[u8]) -> Option<u8>
    requires { length sheet.now.clubs ≤ 255 }
    ensures place { result ≡ club_named sheet.now field.now }
    ensures within { IfSome result (λ club. club < length sheet.now.clubs) }
{
    match place_of(sheet.clubs.as_slice(), text_of(field)?) {
        Some(club) => Some(club as u8),
        None => None,
    }
}

fn place_of(clubs: &[Club], name: &str) -> Option<usize>
    ensures place { result ≡ position (λ (club : Club). bytes_eq name.now club.name) clubs.now }
    ensures within { IfSome result (λ place. place < length clubs.now) }
{
    clubs.iter().position(|club| name == club.name.as_str())
}

/// Whether a club of the sheet has this name.
pub(crate) fn has_name(sheet: &Sheet, name: &str) -> bool
    ensures { result ≡ has_name sheet.now name.now }
{
    is_among(sheet.clubs.as_slice(), name)
}

fn is_among(clubs: &[Club], name: &str) -> bool
    ensures { result ≡ list_any (λ (club : Club). bytes_eq name.now club.name) clubs.now }
{
    clubs.iter().any(|club| name == club.name.as_str())
}
