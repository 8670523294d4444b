//! What is sure of the rivals of a club: by points, then by the criteria among those level.

ghost use Rattle.std.specs.Prelude.{◌≡◌, ◌<◌, ◌∷◌, [], ℕ, filter, IsTrue, IsFalse};
ghost use Rattle.std.specs.List.{list_all};
ghost use Rattle.league_core.specs.declared.sure.Sure.TheVariants.{Unknown};
ghost use Rattle.league_core.specs.declared.sheet.Order.TheVariants.{OverallFirst};
ghost use Rattle.league_core.specs.game.ClubSets.{clubs_in};
ghost use Rattle.league_core.specs.game.Sums.{has_club};
ghost use Rattle.league_core.specs.search.Zones.{rivals_of};
ghost use Rattle.league_core.specs.search.SureOrder.{record_ranges, first_sum_ranges, sure_within};
ghost use Rattle.league_core.specs.search.SureOrder.{sure_by, sure_by_ranges};
ghost use Rattle.check_bounds.specs.inside.Tables.{HoldRanges};
ghost use Rattle.check_bounds.specs.inside.Walks.{sum_ranges};
ghost use Rattle.check_bounds.specs.inside.Steps.{sure_at, sure_by_tables, is_level_by_tables};
ghost use Rattle.check_bounds.specs.inside.Steps.{is_sure_by_tables, IsNoneLevel, TakesNext};
ghost use Rattle.check_bounds.specs.inside.Steps.{TakesNextIn};
ghost use Rattle.check_bounds.specs.inside.Refutes.{sure_over};

use crate::cells::Cells;
use crate::compare::{is_level, is_level_answer, is_sure, then, then_by};
use crate::int_range::IntRange;
use crate::records::Records;
use crate::table::ranks_of;
use crate::term::Measure;
use crate::total::points_table;
use league_core::{ClubSet, Order, Season, Sure};

// The head-to-head records in a group: points, goal difference, goals.
fn records_of(cells: &Cells, group: ClubSet) -> [[IntRange; 32]; 3]
    ensures { HoldRanges result
        (record_ranges cells.now.sheet cells.now.corners (clubs_in group)) }
{
    let Records {
        points,
        difference,
        goals,
    } = cells.records(group);
    [points, difference, goals]
}

// Goal difference and goals over all matches.
fn first_sums_of(cells: &Cells) -> [[IntRange; 32]; 2]
    ensures { HoldRanges result (first_sum_ranges cells.now.sheet cells.now.corners) }
{
    [cells.sums(Measure::Difference), cells.sums(Measure::Goals)]
}

// Each answer that is level takes what these tables say.
fn step(answers: &mut [Sure; 32], tables: &[[IntRange; 32]], club: u8)
    ensures { TakesNext answers.old answers.new (sure_by_tables tables.now club) }
{
    for rival in 0..32u8 {
        let answer = answers[rival as usize];
        answers[rival as usize] = then_by(answer, tables, club, rival);
    }
}

// Each answer that is level becomes unknown.
fn leave_unknown(answers: &mut [Sure; 32])
    ensures { TakesNext answers.old answers.new (λ rival. Unknown) }
{
    for rival in 0..32 {
        answers[rival] = then(answers[rival], Sure::Unknown);
    }
}

// The clubs of the group that are surely level with the club.
fn level_in(group: ClubSet, tables: &[[IntRange; 32]], club: u8) -> ClubSet
    ensures { clubs_in result ≡ filter (is_level_by_tables tables.now club) (clubs_in group) }
{
    group.keep(|other| is_level(tables, club, other))
}

// Of each club of the group it is sure whether it is.
fn are_all_sure(group: ClubSet, tables: &[[IntRange; 32]], club: u8) -> bool
    ensures { result ≡ list_all (is_sure_by_tables tables.now club) (clubs_in group) }
{
    group.keep(|other| !is_sure(tables, club, other)).is_empty()
}

// The group has no other club.
fn is_alone(group: ClubSet, club: u8) -> bool
    requires { club < 32 }
    ensures { result ≡ list_all (has_club (club ∷ [])) (clubs_in group) }
{
    group.without(ClubSet::single(club)).is_empty()
}

// A rival of the set has an answer that is level.
fn has_level(answers: &[Sure; 32], rivals: ClubSet) -> bool
    ensures { IsFalse result → IsNoneLevel (clubs_in rivals) answers.now }
{
    for rival in 0..32u8 {
        if rivals.has(rival) && is_level_answer(answers[rival as usize]) {
            return true;
        }
    }
    false
}

// The sums over all matches by these measures, one after the other, and then the fixed ranks, among
// the clubs of a group. If no rival is level any more there is nothing to decide.
fn take_sums(answers: &mut [Sure; 32], kinds: &[Measure], cells: &Cells, group: ClubSet, club: u8)
    requires { club < 32 }
    ensures { TakesNextIn (clubs_in group) club answers.old answers.new (λ rival. sure_by_ranges
        (sum_ranges cells.now.sheet cells.now.corners kinds.now rival)
        (sum_ranges cells.now.sheet cells.now.corners kinds.now club)) }
{
    if !has_level(answers, group.without(ClubSet::single(club))) {
        return;
    }
    if kinds.is_empty() {
        step(answers, &[ranks_of(cells.sheet())], club);
        return;
    }
    let table = cells.sums_in(kinds[0], group.with_if(true, club));
    step(answers, &[table], club);
    take_sums(answers, &kinds[1..], cells, group, club);
}

// The criteria within a group with the head-to-head first, which is taken so many times at most.
// In a group that has no rival there is nothing to decide.
fn take_rounds(times: u8, answers: &mut [Sure; 32], cells: &Cells, group: ClubSet, club: u8)
    requires { club < 32 }
    ensures { TakesNextIn (clubs_in group) club answers.old answers.new (λ rival.
        sure_within times cells.now.sheet cells.now.corners (clubs_in group) rival club) }
{
    if times == 0 {
        return;
    }
    if is_alone(group, club) {
        return;
    }
    let records = records_of(cells, group);
    step(answers, &records, club);
    if !are_all_sure(group, &records, club) {
        leave_unknown(answers);
        return;
    }
    let level = level_in(group, &records, club);
    if level.len() == group.len() {
        let kinds = [
            Measure::Difference,
            Measure::Goals,
            Measure::AwayGoals,
            Measure::Wins,
            Measure::AwayWins,
        ];
        take_sums(answers, &kinds, cells, group, club);
    } else {
        take_rounds(times - 1, answers, cells, level, club);
    }
}

// The criteria within a group, in the sheet's order.
fn take_criteria(answers: &mut [Sure; 32], cells: &Cells, group: ClubSet, club: u8)
    requires { club < 32 }
    ensures { TakesNextIn (clubs_in group) club answers.old answers.new (λ rival.
        sure_by cells.now.sheet.order cells.now.sheet cells.now.corners (clubs_in group)
        rival club) }
{
    match cells.sheet().order {
        Order::HeadFirst => take_rounds(group.len(), answers, cells, group, club),
        Order::OverallFirst => take_overall(answers, cells, group, club),
    }
}

// Difference and goals over all matches first, and then the records among those that share them.
fn take_overall(answers: &mut [Sure; 32], cells: &Cells, group: ClubSet, club: u8)
    requires { club < 32 }
    ensures { TakesNextIn (clubs_in group) club answers.old answers.new (λ rival.
        sure_by OverallFirst cells.now.sheet cells.now.corners (clubs_in group) rival club) }
{
    let first = first_sums_of(cells);
    step(answers, &first, club);
    if !are_all_sure(group, &first, club) {
        leave_unknown(answers);
        return;
    }
    let level = level_in(group, &first, club);
    take_rounds(level.len(), answers, cells, level, club);
}

/// What is sure of each rival against the club, by their numbers. If no rival is on the club's
/// points, these decide.
pub fn sure_against(season: &Season, cells: &Cells, club: u8) -> [Sure; 32]
    requires { club < 32 }
    ensures { (rival : ℕ) → IsTrue (has_club (rivals_of cells.now.sheet club) rival)
        → sure_at result rival
        ≡ sure_over cells.now.sheet season.now cells.now.corners club rival }
{
    let points = [points_table(season, cells)];
    let mut answers = [Sure::Level; 32];
    step(&mut answers, &points, club);
    let clubs = cells.sheet().clubs.len() as u8;
    let group = level_in(ClubSet::first(clubs), &points, club);
    if is_alone(group, club) {
        return answers;
    }
    take_criteria(&mut answers, cells, group, club);
    answers
}
