//! Literals that name fixtures and clubs of a sheet alone.

ghost use Rattle.std.specs.Prelude.{◌≡◌, length};
ghost use Rattle.league_core.specs.declared.sheet.Sheet.{Sheet};
ghost use Rattle.league_core.specs.search.Zones.{is_zone_of, is_test_of};

use league_core::{Literal, Sheet, Test};

/// Whether a test is of one of so many fixtures or clubs.
pub fn is_below(test: &Test, fixtures: usize, clubs: usize) -> bool
    ensures { (sheet : Sheet) → length sheet.fixtures ≡ fixtures → length sheet.clubs ≡ clubs
        → result ≡ is_test_of sheet test.now }
{
    match test {
        Test::Home { fixture }
        | Test::Draw { fixture }
        | Test::HomeMost { fixture, .. }
        | Test::AwayMost { fixture, .. } => (*fixture as usize) < fixtures,
        Test::Rival { club } => (*club as usize) < clubs,
    }
}

/// Whether a zone is one of the sheet.
pub fn is_of_sheet(sheet: &Sheet, zone: &[Literal]) -> bool
    ensures { result ≡ is_zone_of sheet.now zone.now }
{
    let fixtures = sheet.fixtures.len();
    let clubs = sheet.clubs.len();
    zone.iter()
        .all(|literal| is_below(&literal.test, fixtures, clubs))
}
