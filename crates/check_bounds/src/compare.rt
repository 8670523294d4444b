//! Two clubs by their sums: what is sure of a rival against the club.

ghost use Rattle.std.specs.Prelude.{◌≡◌};
ghost use Rattle.league_core.specs.search.SureOrder as order;
ghost use Rattle.league_core.specs.search.SureOrder.{sure_by_range, sure_then, is_apart};
ghost use Rattle.check_bounds.specs.inside.IntRanges as ranges;
ghost use Rattle.check_bounds.specs.inside.IntRanges.{as_sum_range, ranges_at};
ghost use Rattle.check_bounds.specs.inside.Steps.{sure_by_tables, is_level_by_tables};
ghost use Rattle.check_bounds.specs.inside.Steps.{is_sure_by_tables};

use crate::int_range::IntRange;
use league_core::Sure;

fn by_range(rival: IntRange, club: IntRange) -> Sure
    ensures { result ≡ sure_by_range (as_sum_range rival) (as_sum_range club) }
{
    if club.greatest < rival.least {
        Sure::Above
    } else if rival.greatest < club.least {
        Sure::Below
    } else if rival.least == rival.greatest && club.least == club.greatest {
        Sure::Level
    } else {
        Sure::Unknown
    }
}

/// If one step leaves the two level, the next decides.
pub fn then(first: Sure, next: Sure) -> Sure
    ensures { result ≡ sure_then first next }
{
    match first {
        Sure::Above => Sure::Above,
        Sure::Below => Sure::Below,
        Sure::Level => next,
        Sure::Unknown => Sure::Unknown,
    }
}

/// If the answer is level, the tables decide; else it stays, and no table is looked at.
pub fn then_by(answer: Sure, tables: &[[IntRange; 32]], club: u8, rival: u8) -> Sure
    ensures { result ≡ sure_then answer (sure_by_tables tables.now club rival) }
{
    match answer {
        Sure::Above => Sure::Above,
        Sure::Below => Sure::Below,
        Sure::Level => by_tables(tables, club, rival),
        Sure::Unknown => Sure::Unknown,
    }
}

/// What the table has at the club's number; past the last one a sum without a match.
pub fn range_at(table: &[IntRange; 32], club: u8) -> IntRange
    ensures { result ≡ ranges.range_at table.now club }
{
    table.get(club as usize).copied().unwrap_or(IntRange::ZERO)
}

/// The rival against the club by these tables, the first one first.
pub fn by_tables(tables: &[[IntRange; 32]], club: u8, rival: u8) -> Sure
    ensures { result ≡ sure_by_tables tables.now club rival }
{
    if tables.is_empty() {
        return Sure::Level;
    }
    let first = by_range(range_at(&tables[0], rival), range_at(&tables[0], club));
    then(first, by_tables(&tables[1..], club, rival))
}

fn are_apart(tables: &[[IntRange; 32]], club: u8, other: u8) -> bool
    ensures { result ≡ is_apart (ranges_at tables.now other) (ranges_at tables.now club) }
{
    if tables.is_empty() {
        return false;
    }
    let own = range_at(&tables[0], club);
    let found = range_at(&tables[0], other);
    own.greatest < found.least || found.greatest < own.least || are_apart(&tables[1..], club, other)
}

/// The answer is that the two are level.
pub fn is_level_answer(answer: Sure) -> bool
    ensures { result ≡ order.is_level answer }
{
    match answer {
        Sure::Level => true,
        Sure::Above => false,
        Sure::Below => false,
        Sure::Unknown => false,
    }
}

/// The other club is surely level with the club by these tables.
pub fn is_level(tables: &[[IntRange; 32]], club: u8, other: u8) -> bool
    ensures { result ≡ is_level_by_tables tables.now club other }
{
    is_level_answer(by_tables(tables, club, other))
}

/// It is sure whether it is.
pub fn is_sure(tables: &[[IntRange; 32]], club: u8, other: u8) -> bool
    ensures { result ≡ is_sure_by_tables tables.now club other }
{
    is_level(tables, club, other) || are_apart(tables, club, other)
}
