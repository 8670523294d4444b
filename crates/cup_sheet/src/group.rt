//! The groups of a cup while its records come.

ghost use Rattle.std.specs.Prelude.{◌≡◌, ◌++◌, ◌∷◌, [], IfOk, bytes_eq, option_to_list};
ghost use Rattle.std.specs.List.{list_any};
ghost use Rattle.league_core.specs.declared.sheet.Club.{Club};
ghost use Rattle.league_core.specs.declared.sheet.Sheet.{Sheet};
ghost use Rattle.fixture_sheet.specs.Records.{has_name, sheet_begun};

use league_core::{Club, Fixture, Listing, Name, Order, OutOfMemory, Sheet};
use std::alloc::Global;

/// A group with nothing but its name.
pub(crate) fn group_begun(
    alloc: Global,
    name: &str,
    goal_limit: u8,
    budget: u32,
) -> Result<Sheet, OutOfMemory>
    ensures { IfOk result (λ group. group
        ≡ sheet_begun name.now goal_limit budget Order.HeadFirst) }
{
    Ok(Sheet {
        name: Name::new(String::from_str(alloc, name)?),
        clubs: Listing::new(alloc),
        fixtures: Listing::new(alloc),
        lines: Listing::new(alloc),
        goal_limit,
        budget,
        order: Order::HeadFirst,
    })
}

/// The groups, with one more that is complete, if there is one.
pub(crate) fn with_group(
    groups: Listing<Sheet>,
    group: Option<Sheet>,
) -> Result<Listing<Sheet>, OutOfMemory>
    ensures { IfOk result (λ all. all ≡ groups ++ option_to_list group) }
{
    let mut all = groups;
    match group {
        Some(group) => {
            all.push(group)?;
            Ok(all)
        }
        None => Ok(all),
    }
}

/// The group with one club more.
pub(crate) fn with_club(
    alloc: Global,
    group: Sheet,
    name: &str,
    rank: u16,
) -> Result<Sheet, OutOfMemory>
    ensures { IfOk result (λ more. more
        ≡ record group { clubs = group.clubs ++ record { name = name.now; rank = rank } ∷ [] }) }
{
    let mut group = group;
    let name = Name::new(String::from_str(alloc, name)?);
    group.clubs.push(Club { name, rank })?;
    Ok(group)
}

/// The group with one fixture more.
pub(crate) fn with_fixture(group: Sheet, fixture: Fixture) -> Result<Sheet, OutOfMemory>
    ensures { IfOk result (λ more. more
        ≡ record group { fixtures = group.fixtures ++ fixture ∷ [] }) }
{
    let mut group = group;
    group.fixtures.push(fixture)?;
    Ok(group)
}

/// Whether a club of any of the groups has this name.
pub(crate) fn is_named_in(groups: &[Sheet], name: &str) -> bool
    ensures { result ≡ list_any (λ group. has_name group name.now) groups.now }
{
    groups.iter().any(|group| is_named(group, name))
}

/// Whether a club of the group has this name.
pub(crate) fn is_named(group: &Sheet, name: &str) -> bool
    ensures { result ≡ has_name group.now name.now }
{
    is_among(group.clubs.as_slice(), name)
}

fn is_among(clubs: &[Club], name: &str) -> bool
    ensures { result ≡ list_any (λ (club : Club). bytes_eq name.now club.name) clubs.now }
{
    clubs.iter().any(|club| name == club.name.as_str())
}
