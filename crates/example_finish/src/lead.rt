//! Where a club stands in the proposed finish, among clubs on one number of points.

ghost use Rattle.std.specs.Prelude.{◌≡◌, ◌≤◌, ◌||◌, ◌==◌, ℕ, IsTrue, length};
ghost use Rattle.league_core.specs.declared.sheet.Order.TheVariants.{OverallFirst};
ghost use Rattle.league_core.specs.game.Sheets.{clubs_of};
ghost use Rattle.league_core.specs.game.Sums.{has_club};
ghost use Rattle.league_core.specs.game.ClubSets.{clubs_in};
ghost use Rattle.league_core.specs.game.HeadToHead.{by_head_to_head};
ghost use Rattle.league_core.specs.game.Ahead.{by_overall, by_first_sums, lead_in, standing_by};
ghost use Rattle.league_core.specs.game.Ahead.{standing_in};
ghost use Rattle.tie_criteria.specs.inside.Groups.{IsGroupOf};
ghost use Rattle.example_finish.specs.inside.ProposalViews.{sheet_asked, finish_asked};
ghost use Rattle.example_finish.specs.inside.ProposedPoints.{ArePointsOver};
ghost use Rattle.example_finish.specs.inside.GroupStandings.{IsStandingOf, next_after};
ghost use Rattle.example_finish.specs.inside.GroupStandings.{by_points_in};

use crate::criterion::{Comparison, Criterion};
use crate::proposed::Proposed;
use crate::standing::Standing;
use league_core::{ClubSet, Order};

/// Among all clubs, by their points.
pub fn stand_by_points(proposed: &Proposed, points: &[i32]) -> Standing
    requires long { length points.now ≡ 24 }
    requires points { ArePointsOver (sheet_asked proposed.now) (finish_asked proposed.now)
        points.now }
    ensures { IsStandingOf (by_points_in (sheet_asked proposed.now) (finish_asked proposed.now))
        (clubs_of (sheet_asked proposed.now)) proposed.now.question.club result }
{
    let clubs = proposed.sheet().clubs.len() as u8;
    Standing::by_points(points, clubs, proposed.question().club)
}

/// Among the clubs of the group, by the criteria in the sheet's order. The sums over all matches
/// are made only when they are asked for.
pub fn stand_in(proposed: &Proposed, group: ClubSet, club: u8) -> Standing
    requires of_group { IsGroupOf (sheet_asked proposed.now) (clubs_in group) }
    requires among { IsTrue (has_club (clubs_in group) club) }
    ensures { IsStandingOf (standing_in (sheet_asked proposed.now) (finish_asked proposed.now)
        (clubs_in group)) (clubs_in group) club result }
{
    match proposed.sheet().order {
        Order::HeadFirst => lead(proposed, group, club),
        Order::OverallFirst => stand_overall_first(proposed, group, club),
    }
}

// By difference and goals over all matches, then among the clubs that share them.
fn stand_overall_first(proposed: &Proposed, group: ClubSet, club: u8) -> Standing
    requires of_group { IsGroupOf (sheet_asked proposed.now) (clubs_in group) }
    requires among { IsTrue (has_club (clubs_in group) club) }
    ensures { IsStandingOf (standing_by OverallFirst (sheet_asked proposed.now)
        (finish_asked proposed.now) (clubs_in group)) (clubs_in group) club result }
{
    let outer = by_goals(proposed, group, club);
    let inner = lead(proposed, outer.level, club);
    outer.then(inner)
}

// By the record in the group, then by what decides after it.
#[cycle(lead)]
fn lead(proposed: &Proposed, group: ClubSet, club: u8) -> Standing
    requires of_group { IsGroupOf (sheet_asked proposed.now) (clubs_in group) }
    requires among { IsTrue (has_club (clubs_in group) club) }
    ensures { IsStandingOf (lead_in (sheet_asked proposed.now) (finish_asked proposed.now)
        (clubs_in group)) (clubs_in group) club result }
{
    if group.len() == 1 {
        return Standing::alone(group);
    }
    let outer = by_record(proposed, group, club);
    let inner = after_record(proposed, group, outer.level, club);
    outer.then(inner)
}

// Among the clubs that the record leaves level: by the sums over all matches if these are the whole
// group, else by their own record.
#[cycle(lead)]
fn after_record(proposed: &Proposed, group: ClubSet, level: ClubSet, club: u8) -> Standing
    requires of_group { IsGroupOf (sheet_asked proposed.now) (clubs_in level) }
    requires among { IsTrue (has_club (clubs_in level) club) }
    requires few { length (clubs_in level) ≤ length (clubs_in group) }
    ensures { IsStandingOf (next_after (length (clubs_in level) == length (clubs_in group))
        (sheet_asked proposed.now) (finish_asked proposed.now) (clubs_in level))
        (clubs_in level) club result }
{
    if level.len() == group.len() {
        by_overall(proposed, level, club)
    } else {
        lead(proposed, level, club)
    }
}

fn by_record(proposed: &Proposed, group: ClubSet, club: u8) -> Standing
    requires of_group { IsGroupOf (sheet_asked proposed.now) (clubs_in group) }
    requires among { IsTrue (has_club (clubs_in group) club) }
    ensures { IsStandingOf (by_head_to_head (sheet_asked proposed.now)
        (finish_asked proposed.now) (clubs_in group)) (clubs_in group) club result }
{
    let table = proposed.totals_among(group);
    let comparison = Comparison {
        criterion: Criterion::Record,
        sheet: proposed.sheet(),
        season: proposed.season(),
        table: &table,
    };
    Standing::by(&comparison, group, club)
}

fn by_goals(proposed: &Proposed, group: ClubSet, club: u8) -> Standing
    requires of_group { IsGroupOf (sheet_asked proposed.now) (clubs_in group) }
    requires among { IsTrue (has_club (clubs_in group) club) }
    ensures { IsStandingOf (by_first_sums (sheet_asked proposed.now)
        (finish_asked proposed.now)) (clubs_in group) club result }
{
    let all = proposed.totals_over(group);
    let comparison = Comparison {
        criterion: Criterion::Goals,
        sheet: proposed.sheet(),
        season: proposed.season(),
        table: &all,
    };
    Standing::by(&comparison, group, club)
}

fn by_overall(proposed: &Proposed, group: ClubSet, club: u8) -> Standing
    requires of_group { IsGroupOf (sheet_asked proposed.now) (clubs_in group) }
    requires among { IsTrue (has_club (clubs_in group) club) }
    ensures { IsStandingOf (by_overall (sheet_asked proposed.now)
        (finish_asked proposed.now)) (clubs_in group) club result }
{
    let all = proposed.totals_over(group);
    let comparison = Comparison {
        criterion: Criterion::Overall,
        sheet: proposed.sheet(),
        season: proposed.season(),
        table: &all,
    };
    Standing::by(&comparison, group, club)
}
