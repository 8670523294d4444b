//! A search over a toy kind, its trees worked by hand. A zone is split by whether the home side of
//! the first undecided fixture wins, then by whether it is drawn; it is refuted if a fixture is
//! drawn, and if all are decided it is an example, or refuted too if the toy says so.

use depth_search::{CaseNode, Kind, SearchEnd, ZoneLook, work_through};
use league_core::{Literal, OutOfMemory, Test};
use std::alloc::Global;
use std::fmt::Write;
use std::test::Fail;

// So many fixtures; whether a zone in which all are decided is an example; how often it has looked.
#[derive(Drop)]
struct Toy {
    fixtures: u16,
    is_won: bool,
    looks: u32,
}

// What is known of a fixture in a zone.
#[derive(Clone, Copy, PartialEq, Eq)]
enum Known {
    Nothing,
    NoHomeWin,
    Decided,
    Drawn,
}

fn known_of(zone: &[Literal], fixture: u16) -> Known {
    let mut known = Known::Nothing;
    for literal in zone {
        known = match (literal.test, literal.yes) {
            (Test::Home { fixture: other }, true) if other == fixture => Known::Decided,
            (Test::Home { fixture: other }, false) if other == fixture => Known::NoHomeWin,
            (Test::Draw { fixture: other }, true) if other == fixture => Known::Drawn,
            (Test::Draw { fixture: other }, false) if other == fixture => Known::Decided,
            _ => known,
        };
    }
    known
}

impl Kind for Toy {
    type Reason = u16;

    type Example = u16;

    ghost Subject = { Unit {0} };

    ghost subject = { λ _. tt };

    ghost fits = { λ _ _. Unit {0} };

    ghost shows = { λ _ _. Unit {0} };

    ghost refutes = { λ _ _ _. Unit {0} };

    ghost splits = { λ _ _ _. Unit {0} };

    // It has looked once for each unit.
    fn look(&mut self, zone: &[Literal], spent: u32) -> Result<ZoneLook<u16, u16>, OutOfMemory> {
        if spent != self.looks {
            return Ok(ZoneLook::Refuted(u16::MAX));
        }
        self.looks = spent.saturating_add(1);
        for fixture in 0..self.fixtures {
            match known_of(zone, fixture) {
                Known::Nothing => return Ok(ZoneLook::Split(Test::Home { fixture })),
                Known::NoHomeWin => return Ok(ZoneLook::Split(Test::Draw { fixture })),
                Known::Drawn => return Ok(ZoneLook::Refuted(fixture)),
                Known::Decided => {}
            }
        }
        if self.is_won {
            Ok(ZoneLook::Won(self.fixtures))
        } else {
            Ok(ZoneLook::Refuted(self.fixtures))
        }
    }
}

fn write_node(text: &mut String, node: &CaseNode<u16>) -> Result<(), Fail> {
    match node {
        CaseNode::Split(Test::Home { fixture }) => write!(text, "h{fixture} ")?,
        CaseNode::Split(Test::Draw { fixture }) => write!(text, "d{fixture} ")?,
        CaseNode::Split(_) => write!(text, "? ")?,
        CaseNode::Refuted(fixture) => write!(text, "x{fixture} ")?,
        CaseNode::Open => write!(text, "o ")?,
    }
    Ok(())
}

// A search's end: a word, then the nodes, a split as h or d with its fixture, a reason as x.
fn told(alloc: Global, fixtures: u16, is_won: bool, budget: u32) -> Result<String, Fail> {
    let looks = 0;
    let mut toy = Toy {
        fixtures,
        is_won,
        looks,
    };
    let mut text = String::new(alloc);
    let nodes = match work_through(alloc, &mut toy, budget)? {
        SearchEnd::Won(fixtures) => {
            write!(text, "won {fixtures} ")?;
            return Ok(text);
        }
        SearchEnd::Refuted(nodes) => nodes,
        SearchEnd::Spent(nodes) => {
            write!(text, "spent ")?;
            nodes
        }
    };
    for node in nodes.as_slice() {
        write_node(&mut text, node)?;
    }
    Ok(text)
}

// One fixture: five nodes if nothing is an example. Two fixtures: in both halves where the first is
// decided stands the tree of the second, so the whole has thirteen nodes.
#[test]
fn trees_of_a_toy_kind_are_as_worked_by_hand(rt: HostRuntime) -> Result<(), Fail> {
    let alloc = rt.alloc();
    for (fixtures, is_won, budget, wanted) in [
        (0u16, false, 0u32, "spent o "),
        (0, false, 1, "x0 "),
        (0, true, 1, "won 0 "),
        (1, true, 1, "spent h0 o o "),
        (1, true, 2, "won 1 "),
        (1, false, 3, "spent h0 x1 d0 o o "),
        (1, false, 4, "spent h0 x1 d0 x0 o "),
        (1, false, 5, "h0 x1 d0 x0 x1 "),
        (1, false, 9, "h0 x1 d0 x0 x1 "),
        (2, false, 2, "spent h0 h1 o o o "),
        (2, false, 13, "h0 h1 x2 d1 x1 x2 d0 x0 h1 x2 d1 x1 x2 "),
    ] {
        let found = told(alloc, fixtures, is_won, budget)?;
        assert!(rt; found.as_str() == wanted, "{fixtures} {budget}: {found}");
    }
    Ok(())
}
