//! The matches of a season that are not played, each with its two clubs as a set.

ghost use Rattle.std.specs.Prelude.{◌≡◌, ◌<◌, ◌≤◌, ◌++◌, IfOk, true, [], ◌∷◌, length};
ghost use Rattle.std.specs.Prelude.{if◌then◌else◌, slice_index_or};
ghost use Rattle.std.specs.List.{All};
ghost use Rattle.league_core.specs.declared.club_set.ClubSet.{ClubSet};
ghost use Rattle.league_core.specs.declared.sheet.Fixture.{Fixture};
ghost use Rattle.league_core.specs.game.Limits.{most_fixtures};
ghost use Rattle.score_box.specs.inside.Boxes.{IsSetOf};
ghost use Rattle.score_box.specs.inside.Ends.{IsMatch};
ghost use Rattle.score_box.specs.inside.OpenSides.{AreSidesOf, NoneBetween, are_of_group, is_side};
ghost use Rattle.score_box.specs.inside.Unplayed.{is_unplayed, unplayed_in};

mod among;

use among::{lies_within, next_within};
use league_core::{ClubSet, Fixture, OutOfMemory, Score};
use std::alloc::Global;

/// The matches without a score in the order of the sheet: the numbers of their fixtures, from 0,
/// and the two clubs of each.
#[derive(Drop)]
pub struct OpenMatches {
    pub numbers: Vec<u16>,
    pub sides: Vec<ClubSet>,
}

impl OpenMatches {
    /// The matches that have no score among these.
    pub fn of(
        alloc: Global,
        fixtures: &[Fixture],
        scores: &[Option<Score>],
    ) -> Result<OpenMatches, OutOfMemory>
        requires many { length fixtures.now ≡ length scores.now }
        requires few { length fixtures.now ≤ most_fixtures }
        requires matches { All IsMatch fixtures.now }
        ensures numbers { IfOk result (λ found. found.numbers.items ≡ unplayed_in scores.now) }
        ensures sides { IfOk result
            (λ found. AreSidesOf fixtures.now found.numbers.items found.sides.items) }
    {
        let numbers = unplayed_fixtures(alloc, scores)?;
        let sides = sides_of(alloc, fixtures, &numbers)?;
        Ok(OpenMatches { numbers, sides })
    }

    pub fn copy(&self, alloc: Global) -> Result<OpenMatches, OutOfMemory>
        ensures numbers { IfOk result (λ found. found.numbers.items ≡ self.now.numbers.items) }
        ensures sides { IfOk result (λ found. found.sides.items ≡ self.now.sides.items) }
    {
        let numbers = Vec::from_slice(alloc, &self.numbers)?;
        let sides = Vec::from_slice(alloc, &self.sides)?;
        Ok(OpenMatches { numbers, sides })
    }

    /// Both clubs of the match at a place are of the group.
    pub fn is_among(&self, place: usize, group: ClubSet) -> bool
        requires in_range { place < length self.now.sides.items }
        ensures { (match : Fixture)
            → ((d : ClubSet) → IsSetOf (slice_index_or self.now.sides.items place d)
            (is_side match))
            → result ≡ are_of_group group match }
    {
        lies_within(self.sides[place], group)
    }

    /// The first place, from the one given on, of a match whose two clubs are both of the group; if
    /// there is none, how many matches there are.
    #[inline(always)]
    pub fn next_among(&self, from: usize, group: ClubSet) -> usize
        requires { from ≤ length self.now.sides.items }
        ensures from { from ≤ result }
        ensures within { result ≤ length self.now.sides.items }
        ensures before { NoneBetween self.now.sides.items group from result }
        ensures found { result < length self.now.sides.items → (match : Fixture)
            → ((d : ClubSet) → IsSetOf (slice_index_or self.now.sides.items result d)
            (is_side match))
            → are_of_group group match ≡ true }
    {
        next_within(&self.sides, from, group)
    }
}

// The fixtures without a score, in order.
fn unplayed_fixtures(alloc: Global, scores: &[Option<Score>]) -> Result<Vec<u16>, OutOfMemory>
    requires { length scores.now ≤ most_fixtures }
    ensures { IfOk result (λ found. found.items ≡ unplayed_in scores.now) }
{
    let mut found = Vec::new(alloc);
    for fixture in 0..scores.len() {
        push_if(&mut found, is_unplayed(scores[fixture]), fixture as u16)?;
    }
    Ok(found)
}

fn is_unplayed(played: Option<Score>) -> bool
    ensures { result ≡ is_unplayed played }
{
    played.is_none()
}

fn push_if(found: &mut Vec<u16>, keep: bool, fixture: u16) -> Result<(), OutOfMemory>
    ensures { IfOk result (λ _. found.new.items
        ≡ found.old.items ++ (if keep then fixture ∷ [] else [])) }
{
    if keep {
        found.push(fixture)?;
    }
    Ok(())
}

// The clubs of the fixtures of these numbers, in their order.
fn sides_of(
    alloc: Global,
    fixtures: &[Fixture],
    numbers: &[u16],
) -> Result<Vec<ClubSet>, OutOfMemory>
    requires matches { All IsMatch fixtures.now }
    requires in_range { All (λ number. number < length fixtures.now) numbers.now }
    ensures { IfOk result (λ sides. AreSidesOf fixtures.now numbers.now sides.items) }
{
    let mut sides = Vec::with_capacity(alloc, numbers.len())?;
    for number in numbers {
        sides.push(pair(&fixtures[*number as usize]))?;
    }
    Ok(sides)
}

fn pair(fixture: &Fixture) -> ClubSet
    requires { IsMatch fixture.now }
    ensures { IsSetOf result (is_side fixture.now) }
{
    ClubSet::single(fixture.home).with_if(true, fixture.away)
}
