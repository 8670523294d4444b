//! The table of a group: its clubs in the order of the sheet, each with its record in the group.
//!
//! It takes one pass over the fixtures for the whole group.

ghost use Rattle.std.specs.Prelude.{◌≡◌, IfOk, OnOk, if◌then◌else◌, [], ◌∷◌, ◌++◌, map};
ghost use Rattle.league_core.specs.game.Seasons.{IsLeague};
ghost use Rattle.league_core.specs.game.Sums.{has_club};
ghost use Rattle.league_core.specs.game.ClubSets.{clubs_in};
ghost use Rattle.tie_criteria.specs.inside.Groups.{IsGroupOf};

use crate::records::records;
use crate::triple::{Triple, triple_at};
use league_core::{ClubSet, OutOfMemory, Season, Sheet};
use std::alloc::Global;
use std::marker::Model;

/// A club of a group and its record there.
#[derive(Clone, Copy, Debug, PartialEq, Eq)]
pub struct Row {
    pub club: u8,
    pub triple: Triple,
}

/// The rows of a group's clubs. Contracts see them in the order of the sheet.
#[derive(Drop)]
pub struct MiniTable {
    rows: Vec<Row>,
}

impl Model for MiniTable {
    ghost use Rattle.std.specs.Prelude.{List};
    ghost use Rattle.tie_criteria.specs.declared.mini_table.Row.{Row};

    ghost Value = { List Row };

    ghost view = { λ table. table.rows.items };
}

impl MiniTable {
    ghost use Rattle.tie_criteria.specs.inside.MiniTables.{row_of};

    /// The table of the group from the matches that are played.
    pub fn of(
        alloc: Global,
        sheet: &Sheet,
        season: &Season,
        group: ClubSet,
    ) -> Result<MiniTable, OutOfMemory>
        requires league { IsLeague sheet.now season.now }
        requires of_group { IsGroupOf sheet.now (clubs_in group) }
        ensures { IfOk result (λ table. table
            ≡ map (row_of sheet.now season.now (clubs_in group)) (clubs_in group)) }
    {
        let found = records(alloc, sheet, season, group)?;
        let mut rows = Vec::new(alloc);
        for club in 0..32 {
            add_row(&mut rows, group, club, triple_at(&found, club))?;
        }
        Ok(MiniTable { rows })
    }

    /// A row for each club of the group, in the order of the sheet.
    pub fn rows(&self) -> &[Row]
        ensures { result.now ≡ self.now }
    {
        self.rows.as_slice()
    }
}

// Adds the club's row, if the club is of the group.
fn add_row(rows: &mut Vec<Row>, group: ClubSet, club: u8, triple: Triple) -> Result<(), OutOfMemory>
    ensures { OnOk result (rows.new.items ≡ rows.old.items
        ++ (if has_club (clubs_in group) club
        then record { club = club; triple = triple } ∷ [] else [])) }
{
    if group.has(club) {
        rows.push(Row { club, triple })?;
        return Ok(());
    }
    Ok(())
}
