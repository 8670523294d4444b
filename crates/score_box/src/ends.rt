//! What the fixtures of a box come to for each club alone, kept as numbers, and moved on when the
//! cell of a fixture changes.

ghost use Rattle.std.specs.Prelude.{◌≡◌, ◌<◌, ◌≤◌, ◌+◌, ◌==◌, ℕ, pos, ◌+ℤ◌, ◌-ℤ◌, ◌≤ℤ◌};
ghost use Rattle.std.specs.Prelude.{List, [], ◌∷◌, length, slice_set, slice_index_or};
ghost use Rattle.std.specs.Prelude.{if◌then◌else◌};
ghost use Rattle.std.specs.List.{All};
ghost use Rattle.league_core.specs.declared.season.Score.{Score};
ghost use Rattle.league_core.specs.game.Limits.{most_fixtures};
ghost use Rattle.league_core.specs.search.Options.{options_in};
ghost use Rattle.league_core.specs.search.PointRanges.{total_of};
ghost use Rattle.league_core.specs.game.Results.{Results};
ghost use Rattle.league_core.specs.game.Seasons.{IsLeague};
ghost use Rattle.league_core.specs.game.Sheets.{IsWithinLimits};
ghost use Rattle.score_box.specs.declared.cell.Cell.{Cell};
ghost use Rattle.score_box.specs.inside.Cells.{IsCellOf, IsExactCell};
ghost use Rattle.score_box.specs.inside.Boxes.{AreCellsOf, HasOptions, open_outcomes_in};
ghost use Rattle.score_box.specs.inside.Ends.{AreEnds, HasEndsOfCells, HasEndsAt, IsMatch};
ghost use Rattle.score_box.specs.inside.Ends.{MovesRanges, end_at};
ghost use Rattle.score_box.specs.inside.Points.{AreWorth, left_to};
ghost use Rattle.score_box.specs.inside.Totals.{AreTables, AreTotalsNear, totals_at};
ghost use Rattle.score_box.specs.inside.Unplayed.{unplayed_in};

use crate::cell::Cell;
use crate::points::{OutcomesLeft, Worth};
use crate::tables::Tables;
use league_core::{Fixture, Sheet};

/// The least and the most match points of each club, by the clubs' numbers; how many fixtures have
/// no score left, and how many have scores of several outcomes.
#[derive(Clone, Copy)]
pub struct Ends {
    pub lows: [i32; 24],
    pub highs: [i32; 24],
    pub empty: usize,
    pub several: usize,
}

impl Ends {
    /// The ends of these cells: what the table has of the fixtures that are played, and a walk over
    /// the others. Before any literal no fixture is without a score.
    pub fn of(sheet: &Sheet, cells: &[Cell], unplayed: &[u16], tables: &Tables) -> Ends
        requires limits { IsWithinLimits sheet.now }
        requires many { length sheet.now.fixtures ≡ length cells.now }
        requires some { HasOptions cells.now }
        requires in_range { All (λ number. number < length sheet.now.fixtures) unplayed.now }
        requires few { length unplayed.now ≤ most_fixtures }
        requires clubs { length tables.now.clubs.items ≡ 24 }
        requires near { (club : ℕ) → club < 24
            → AreTotalsNear 153000 (totals_at tables.now.clubs.items club) }
        ensures { (season : Results) → IsLeague sheet.now season
            → AreCellsOf cells.now (options_in sheet.now season [])
            → unplayed.now ≡ unplayed_in season.scores
            → AreTables sheet.now.fixtures season.scores tables.now.clubs.items
            tables.now.pairs.items
            → AreEnds sheet.now.fixtures (options_in sheet.now season []) result }
    {
        let points = points_won(tables);
        let mut lows = points;
        let mut highs = points;
        add_left(
            &mut lows,
            &mut highs,
            sheet.fixtures.as_slice(),
            cells,
            unplayed,
        );
        Ends {
            lows,
            highs,
            empty: 0,
            several: several_outcomes(cells),
        }
    }
}

// The points of each club from its played matches.
fn points_won(tables: &Tables) -> [i32; 24]
    requires clubs { length tables.now.clubs.items ≡ 24 }
    requires near { (club : ℕ) → club < 24
        → AreTotalsNear 153000 (totals_at tables.now.clubs.items club) }
    ensures many { length result ≡ 24 }
    ensures value { (club : ℕ) → club < 24
        → end_at result club ≡ (totals_at tables.now.clubs.items club).points }
{
    let mut points = [0; 24];
    for club in 0..24 {
        points[club as usize] = tables.of_club(club).points;
    }
    points
}

// Adds what the fixtures of these numbers leave each club.
fn add_left(
    lows: &mut [i32],
    highs: &mut [i32],
    fixtures: &[Fixture],
    cells: &[Cell],
    numbers: &[u16],
)
    requires many { length fixtures.now ≡ length cells.now }
    requires matches { All IsMatch fixtures.now }
    requires some { HasOptions cells.now }
    requires in_range { All (λ number. number < length fixtures.now) numbers.now }
    requires few { length numbers.now ≤ most_fixtures }
    requires lows { length lows.old ≡ 24 }
    requires highs { length highs.old ≡ 24 }
    requires low { (club : ℕ) → ((pos 0 -ℤ pos 153000) ≤ℤ end_at lows.old club)
        × (end_at lows.old club ≤ℤ pos 153000) }
    requires high { (club : ℕ) → ((pos 0 -ℤ pos 153000) ≤ℤ end_at highs.old club)
        × (end_at highs.old club ≤ℤ pos 153000) }
    ensures { (options : List (List Score)) → AreCellsOf cells.now options → (club : ℕ)
        → (end_at lows.new club ≡ end_at lows.old club
        +ℤ total_of (λ k. (left_to (club ∷ []) fixtures.now options k).least) numbers.now)
        × (end_at highs.new club ≡ end_at highs.old club
        +ℤ total_of (λ k. (left_to (club ∷ []) fixtures.now options k).greatest) numbers.now) }
{
    let empty = Cell::none();
    let none = OutcomesLeft::of(&empty).worth();
    for i in 0..numbers.len() {
        let number = numbers[i] as usize;
        let left = cells[number].left();
        move_ranges(lows, highs, fixtures[number], none, left.worth());
    }
}

fn several_outcomes(cells: &[Cell]) -> usize
    requires { HasOptions cells.now }
    ensures { (options : List (List Score)) → AreCellsOf cells.now options
        → result ≡ open_outcomes_in options }
{
    let mut count = 0;
    for cell in cells {
        count += cell.left().worth().several;
    }
    count
}

/// Puts a cell in the place of another, and moves the ends on.
pub fn replace(cells: &mut [Cell], ends: &mut Ends, fixtures: &[Fixture], number: u16, cell: Cell)
    requires many { length fixtures.now ≡ length cells.old }
    requires few { length fixtures.now ≤ most_fixtures }
    requires matches { All IsMatch fixtures.now }
    requires in_range { number < length cells.old }
    requires ends { HasEndsOfCells fixtures.now cells.old ends.old }
    requires exact { IsExactCell cell }
    ensures cells { cells.new ≡ slice_set cells.old number cell }
    ensures ends { (options : List (List Score)) (after : List Score)
        → AreCellsOf cells.old options → AreEnds fixtures.now options ends.old
        → IsCellOf cell after → AreEnds fixtures.now (slice_set options number after) ends.new }
{
    let was = cells[number as usize];
    move_ends(ends, fixtures, number, &was, &cell);
    cells[number as usize] = cell;
}

// Moves the ends on when a fixture has another cell.
fn move_ends(ends: &mut Ends, fixtures: &[Fixture], number: u16, was: &Cell, now: &Cell)
    requires few { length fixtures.now ≤ most_fixtures }
    requires matches { All IsMatch fixtures.now }
    requires in_range { number < length fixtures.now }
    requires ends { HasEndsAt fixtures.now number was.now ends.old }
    requires exact_was { IsExactCell was.now }
    requires exact_now { IsExactCell now.now }
    ensures { (options : List (List Score)) (after : List Score)
        → length options ≡ length fixtures.now → AreEnds fixtures.now options ends.old
        → IsCellOf was.now (slice_index_or options number []) → IsCellOf now.now after
        → AreEnds fixtures.now (slice_set options number after) ends.new }
{
    let before = was.left().worth();
    let after = now.left().worth();
    move_ranges(
        &mut ends.lows,
        &mut ends.highs,
        fixtures[number as usize],
        before,
        after,
    );
    ends.empty = moved_count(ends.empty, before.empty, after.empty);
    ends.several = moved_count(ends.several, before.several, after.several);
}

// A count to which one number is added in place of another.
fn moved_count(count: usize, was: usize, now: usize) -> usize
    requires few { count ≤ most_fixtures }
    requires counted { was ≤ count }
    requires one { now ≤ 1 }
    ensures { result + was ≡ count + now }
{
    count + now - was
}

// Moves the numbers of a match's two clubs, from what its cell left them to what it leaves now.
fn move_ranges(lows: &mut [i32], highs: &mut [i32], fixture: Fixture, before: Worth, after: Worth)
    requires fixture { IsMatch fixture }
    requires lows { length lows.old ≡ 24 }
    requires highs { length highs.old ≡ 24 }
    requires low { (club : ℕ) → ((pos 0 -ℤ pos 200000) ≤ℤ end_at lows.old club)
        × (end_at lows.old club ≤ℤ pos 200000) }
    requires high { (club : ℕ) → ((pos 0 -ℤ pos 200000) ≤ℤ end_at highs.old club)
        × (end_at highs.old club ≤ℤ pos 200000) }
    ensures { (was now : Cell) → AreWorth was before → AreWorth now after
        → MovesRanges fixture was now lows.old lows.new highs.old highs.new }
{
    move_one(lows, fixture.home, before.home.least, after.home.least);
    move_one(lows, fixture.away, before.away.least, after.away.least);
    move_one(highs, fixture.home, before.home.most, after.home.most);
    move_one(highs, fixture.away, before.away.most, after.away.most);
}

fn move_one(numbers: &mut [i32], club: u8, was: u8, now: u8)
    requires in_range { club < length numbers.old }
    requires low { (other : ℕ) → (pos 0 -ℤ pos 1000000) ≤ℤ end_at numbers.old other }
    requires high { (other : ℕ) → end_at numbers.old other ≤ℤ pos 1000000 }
    ensures { (other : ℕ) → end_at numbers.new other ≡ (end_at numbers.old other
        +ℤ (if club == other then pos now -ℤ pos was else pos 0)) }
{
    numbers[club as usize] += i32::from(now) - i32::from(was);
}
