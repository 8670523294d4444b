//! An item gone over by the grammar alone: where its lines end.

ghost use Rattle.std.specs.Prelude.{◌≡◌, ◌<◌, ◌≤◌, ◌+◌, ◌++◌, ◌^◌, ℕ, [], ◌∷◌, IfOk};
ghost use Rattle.std.specs.Prelude.{OnOk, length};
ghost use Rattle.cert_check.specs.Machine.{with_unsettled};
ghost use Rattle.par_check.specs.Outlines.{OutlinesItem, left_by};

use crate::item_due::{DueAfter, ItemDue, ItemRow};
use crate::item_line::due_after;
use cert_check::{CheckStopAt, PartRead, Report};
use league_core::OutOfMemory;
use line_tokens::Token;
use std::alloc::Global;
use std::collections::VecDeque;

/// The lines of an item from a position on, each believed where it may come.
pub fn outline(
    alloc: Global,
    report: &Report,
    row: ItemRow,
    from: usize,
) -> Result<PartRead, CheckStopAt>
    requires room { from ≤ length report.now.tokens }
    requires few { length report.now.tokens < 2 ^ 32 }
    requires in_range { row.club < length report.now.basis.sheet.clubs }
    ensures { OutlinesItem report.now row from result }
{
    let mut left = first_due(alloc)?;
    let mut unsettled: u32 = 0;
    for at in from..report.len() {
        let Some(due) = left.pop_front() else {
            return Ok(PartRead {
                next: at,
                unsettled,
            });
        };
        let token = report.token(at)?;
        match due_after(report, row, due, &token)? {
            Some(more) => put_first(&mut left, more)?,
            None => return Err(CheckStopAt::BadLine(at)),
        }
        unsettled += unsettled_in(&token);
    }
    match left.pop_front() {
        None => Ok(PartRead {
            next: report.len(),
            unsettled,
        }),
        Some(_) => Err(CheckStopAt::Short),
    }
}

fn first_due(alloc: Global) -> Result<VecDeque<ItemDue>, OutOfMemory>
    ensures { IfOk result (λ left. left.items ≡ ItemDue.Row ∷ []) }
{
    let mut left = VecDeque::new(alloc);
    left.push_front(ItemDue::Row)?;
    Ok(left)
}

// Puts what a line leaves due before all else.
fn put_first(left: &mut VecDeque<ItemDue>, more: DueAfter) -> Result<(), OutOfMemory>
    ensures { OnOk result (left.new.items ≡ left_by more ++ left.old.items) }
{
    match more {
        DueAfter::Nothing => {}
        DueAfter::One(it) => left.push_front(it)?,
        DueAfter::Two(first, second) => {
            left.push_front(second)?;
            left.push_front(first)?;
        }
    }
    Ok(())
}

// 1 if the line is the row of an unsettled club.
fn unsettled_in(token: &Token) -> u32
    ensures counted { (unsettled : ℕ)
        → with_unsettled unsettled token.now ≡ unsettled + result }
    ensures one { result ≤ 1 }
{
    match token {
        Token::Row(fields) => {
            if fields.at(3) == b"unsettled".as_slice() {
                1
            } else {
                0
            }
        }
        _ => 0,
    }
}
