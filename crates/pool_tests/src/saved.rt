//! Saved texts, read to their trees or to their first bad line, and taken up, by hand. Three clubs;
//! a match of the last two is open. Lines count from 1. The questions are whether C can be inside,
//! outside, and the same of X and Y. The budget is one node.

ghost use Rattle.std.specs.Prelude.{IfOk};
ghost use Rattle.league_core.specs.game.Sheets.{IsWithinLimits};
ghost use Rattle.answer_rows.specs.AskedQuestions.{questions_of};
ghost use Rattle.pool_save.specs.SavedTexts.{AreAskedTrees};

use crate::help::{answer_at, finished, pool_of_sheet, units_at};
use answer_rows::questions;
use branch_pool::Answer;
use league_core::{Sheet, TreeNode};
use pool_save::{SaveStop, item_lines, item_row, read_saved, take_up};
use port_core::{LineReader, MemSource};
use sample_leagues::sample_of;
use std::alloc::Global;
use std::fmt::Write;
use std::test::Fail;
use tree_arena::Tree;

const LEAGUE: &[u8] = b"league,Idle,1,1\nclub,C,1\nclub,X,2\nclub,Y,3\nmatch,X,Y\nline,1\nseason\n";

// A tree's nodes: a split, a refuted leaf, an open one; - for no tree.
fn write_tree(text: &mut String, tree: &Option<Tree>) -> Result<(), Fail> {
    let Some(tree) = tree else {
        write!(text, "- ")?;
        return Ok(());
    };
    for node in tree.nodes()?.as_slice() {
        match node {
            TreeNode::Split { .. } => write!(text, "s")?,
            TreeNode::Refuted { .. } => write!(text, "x")?,
            TreeNode::Open | TreeNode::Lent(_) => write!(text, "o")?,
        }
    }
    write!(text, " ")?;
    Ok(())
}

fn read_text(
    alloc: Global,
    sheet: &Sheet,
    text: &[u8],
) -> Result<Result<Vec<Option<Tree>>, SaveStop>, Fail>
    requires { IsWithinLimits sheet.now }
    ensures { IfOk result (λ read. IfOk read (λ trees.
        AreAskedTrees sheet.now (questions_of sheet.now) trees.items)) }
{
    let mut reader = LineReader::new(alloc)?;
    let mut source = MemSource::new(text.to_vec(alloc)?, 7, Vec::new(alloc));
    Ok(read_saved(alloc, sheet, &mut reader, &mut source))
}

fn told_of(alloc: Global, sheet: &Sheet, text: &[u8]) -> Result<String, Fail>
    requires { IsWithinLimits sheet.now }
{
    let mut told = String::new(alloc);
    match read_text(alloc, sheet, text)? {
        Ok(trees) => {
            for tree in trees.as_slice() {
                write_tree(&mut told, tree)?;
            }
        }
        Err(SaveStop::BadSave { number }) => write!(told, "bad {number}")?,
        Err(SaveStop::Read(_)) => write!(told, "stopped")?,
        Err(SaveStop::OutOfMemory) => return Err("no memory".into()),
    }
    Ok(told)
}

fn told(alloc: Global, text: &str) -> Result<String, Fail> {
    let sample = sample_of(alloc, LEAGUE).ok_or("no league")?;
    told_of(alloc, &sample.sheet, text.as_bytes())
}

#[test]
fn saved_texts_are_read_to_their_trees_or_first_bad_line(rt: HostRuntime) -> Result<(), Fail> {
    let alloc = rt.alloc();
    for (text, wanted) in [
        ("saved_end\n", "- - - - - - "),
        (
            "saved,1,C,inside\n[\"split\",\"rival\",2]\n[\"leaf\",\"count\"]\n\
             [\"split\",\"rival\",3]\n[\"leaf\",\"count\"]\n[\"leaf\",\"low\",[2,3]]\n\
             saved_end\nask\n",
            "sxsxx - - - - - ",
        ),
        (
            "saved,1,C,inside\n[\"open\"]\n,\nsaved,1,X,outside\n[\"new_leaf\",\"tie\"]\nsaved_end",
            "o - - x - - ",
        ),
        // The rival is asked again; the club itself; no line of a tree; a claim too many.
        (
            "saved,1,C,inside\n[\"split\",\"rival\",2]\n[\"leaf\",\"count\"]\n\
             [\"split\",\"rival\",2]\n",
            "bad 4",
        ),
        ("saved,1,C,inside\n[\"split\",\"rival\",1]\n", "bad 2"),
        ("saved,1,C,inside\nverdict,1,C,lost\n", "bad 2"),
        ("saved,1,C,inside,1\n[\"open\"]\nsaved_end\n", "bad 1"),
        // An item twice, items in another order, no such line, no end.
        ("saved,1,C,inside\n[\"open\"]\nsaved,1,C,inside\n", "bad 3"),
        ("saved,1,X,inside\n[\"open\"]\nsaved,1,C,outside\n", "bad 3"),
        ("saved,2,C,inside\n", "bad 1"),
        ("saved,1,C,inside\n[\"open\"]\n", "bad 3"),
        ("", "bad 1"),
    ] {
        let found = told(alloc, text)?;
        assert!(rt; found.as_str() == wanted, "{text}: {found}");
    }
    Ok(())
}

// How far the question is whether C can be inside, and how many nodes of its tree are new, when the
// work is done of a pool that went on from the trees of a text.
fn worked(
    alloc: Global,
    sheet: &Sheet,
    trees: Vec<Option<Tree>>,
) -> Result<(Option<Answer>, Option<u32>), Fail>
    requires limits { IsWithinLimits sheet.now }
    requires asked { AreAskedTrees sheet.now (questions_of sheet.now) trees.items }
{
    let pool = pool_of_sheet(alloc, sheet)?;
    let pool = finished(alloc, take_up(pool, trees)?)?;
    Ok((answer_at(&pool, 0), units_at(&pool, 0)))
}

fn resumed(alloc: Global, text: &str) -> Result<(Option<Answer>, Option<u32>), Fail> {
    let sample = sample_of(alloc, LEAGUE).ok_or("no league")?;
    match read_text(alloc, &sample.sheet, text.as_bytes())? {
        Ok(trees) => worked(alloc, &sample.sheet, trees),
        Err(_) => Err("no trees".into()),
    }
}

#[test]
fn a_pool_goes_on_from_saved_trees(rt: HostRuntime) -> Result<(), Fail> {
    let alloc = rt.alloc();
    // X or Y is before C; with neither, the two take two points together, and C has none.
    let tree = "saved,1,C,inside\n[\"split\",\"rival\",2]\n[\"leaf\",\"count\"]\n\
                [\"split\",\"rival\",3]\n[\"leaf\",\"count\"]\n";
    for (rest, wanted, units) in [
        (
            "[\"leaf\",\"low\",[2,3]]\nsaved_end\n",
            Answer::Refuted,
            0u32,
        ),
        // A leaf whose reason does not hold is opened, and refuted anew.
        ("[\"leaf\",\"tie\"]\nsaved_end\n", Answer::Refuted, 1),
        ("[\"open\"]\nsaved_end\n", Answer::Refuted, 1),
    ] {
        let text = format!(in alloc; "{tree}{rest}")?;
        let found = resumed(alloc, text.as_str())?;
        assert!(rt; found.0 == Some(wanted) && found.1 == Some(units), "{rest}");
    }
    // Without a tree, or with one open leaf, one node more does not do.
    for text in ["saved_end\n", "saved,1,C,inside\n[\"open\"]\nsaved_end\n"] {
        let found = resumed(alloc, text)?;
        assert!(rt;
            found.0 == Some(Answer::Spent) && found.1 == Some(1),
            "{text}"
        );
    }
    Ok(())
}

// The row of the item of the first question, and how many lines its tree has.
fn first_item(alloc: Global, sheet: &Sheet, tree: &Tree) -> Result<(Vec<u8>, usize), Fail>
    requires { IsWithinLimits sheet.now }
{
    let asked = questions(alloc, sheet)?;
    let Some(question) = asked.first() else {
        return Err("no question".into());
    };
    if usize::from(question.club) >= sheet.clubs.len() {
        return Err("no club".into());
    }
    let lines = item_lines(alloc, tree)?;
    Ok((item_row(alloc, sheet, question)?, lines.len()))
}

fn rewritten(alloc: Global, text: &str) -> Result<(Vec<u8>, usize), Fail> {
    let sample = sample_of(alloc, LEAGUE).ok_or("no league")?;
    let Ok(trees) = read_text(alloc, &sample.sheet, text.as_bytes())? else {
        return Err("no trees".into());
    };
    match trees.first() {
        Some(Some(tree)) => first_item(alloc, &sample.sheet, tree),
        _ => Err("no tree".into()),
    }
}

#[test]
fn an_item_is_written_as_it_was_read(rt: HostRuntime) -> Result<(), Fail> {
    let alloc = rt.alloc();
    let text = "saved,1,C,inside\n[\"split\",\"rival\",2]\n[\"leaf\",\"count\"]\n\
                [\"open\"]\nsaved_end\n";
    let (row, lines) = rewritten(alloc, text)?;
    assert!(rt; row.as_slice() == b"saved,1,C,inside\n".as_slice());
    assert_eq!(rt; lines, 3);
    Ok(())
}
