//! Rows of the program: runs cases from standard input, and prints what came of each.
//!
//! A case is a head, the lines of an input, and an end:
//!
//!     == futmax verdicts | piece 1 | read fails 7
//!     league,Tiny,1
//!     ==
//!
//! The head has the words of the command, and then what is not as usual. `piece N`: a call of a
//! device moves at most N bytes. `read fails N`, `write fails N`: the Nth call fails. `room N`: the
//! sink takes N bytes. `cut N`: the input ends after its line N. For `1..9` in place of a number
//! the case is run with each number in turn. `fields`: rows that show an example are left out;
//! `outline`: they end before their second comma or bracket.
//!
//! In an input `\r` is a CR, `\xff` the byte with these two digits, and `\` at the end of a line
//! takes away its LF; `*600 TEXT` is the line `TEXT` so many times, and `>1..18` stands for lines 1
//! to 18 of the last case that has no such line. What stands between two cases is passed over.
#![tactic(auto)]

mod answer;
mod case;
mod input;

use answer::print_answer;
use case::Case;
use std::alloc::Global;
use std::io;
use std::sync::Wait;
use std::thread::Threads;

fn main(rt: HostRuntime) -> io::Result<()> {
    let mut case = None;
    let mut whole = Vec::new(rt.alloc());
    for line in rt.lines(rt.alloc()) {
        case = take_line(&rt, case, &mut whole, line?.as_str())?;
    }
    Ok(())
}

// The case that the next line stands in, if it does in one; `whole` is the input of the last case
// that took no lines of another.
fn take_line(
    rt: &(impl Threads + Wait + Print + Sync + Alloc<A = Global>),
    mut case: Option<Case>,
    whole: &mut Vec<u8>,
    line: &str,
) -> io::Result<Option<Case>> {
    if let Some(head) = line.strip_prefix("== ") {
        println!(rt; "{line}")?;
        return Ok(Some(Case::new(rt.alloc(), head)?));
    }
    if line != "==" {
        if let Some(case) = &mut case {
            case.add_line(whole, line)?;
        }
        return Ok(case);
    }
    if let Some(case) = &case {
        print_answer(rt, case)?;
        if case.is_whole {
            *whole = case.input.clone()?;
        }
    }
    Ok(None)
}
