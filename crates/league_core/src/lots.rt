//! The drawing of lots: one order of all clubs, which decides if no criterion does.

ghost use Rattle.std.specs.Prelude.{◌≡◌, ◌↔◌, length, IfOk, IfErr, IsTrue, is_ok};
ghost use Rattle.std.specs.List.{list_all, range_with_len};
ghost use Rattle.league_core.specs.game.Ranking.{are_lots};
ghost use Rattle.league_core.specs.game.Sums.{has_club};

use std::marker::Model;

/// An order of the clubs 0, 1 and so on, each named once. The first in the lots wins them.
#[derive(Drop)]
pub struct Lots {
    order: Vec<u8>,
}

impl Model for Lots {
    ghost use Rattle.std.specs.Prelude.{List, ℕ};

    ghost Value = { List ℕ };

    ghost use Rattle.std.specs.Prelude.{IsTrue, length};
    ghost use Rattle.league_core.specs.game.Ranking.{are_lots};

    ghost view = { λ lots. lots.order.items };

    ghost invariant = { λ lots. IsTrue (are_lots (length lots.order.items) lots.order.items) };
}

impl Lots {
    /// The list as lots. If it does not name each of the clubs from 0 to its length once, it is
    /// handed back.
    pub fn new(order: Vec<u8>) -> Result<Lots, Vec<u8>>
        ensures ok { IfOk result (λ lots. lots ≡ order.items) }
        ensures err { IfErr result (λ back. back ≡ order) }
        ensures named { IsTrue (is_ok result) ↔ IsTrue (are_lots (length order.items) order.items) }
    {
        if names_all(order.as_slice()) {
            Ok(Lots { order })
        } else {
            Err(order)
        }
    }

    /// The clubs from the first in the lots to the last.
    pub fn order(&self) -> &[u8]
        ensures order { result.now ≡ self.now }
        ensures named { IsTrue (are_lots (length result.now) result.now) }
    {
        self.order.as_slice()
    }
}

fn names(order: &[u8], club: usize) -> bool
    ensures { result ≡ has_club order.now club }
{
    order.iter().any(|drawn| *drawn as usize == club)
}

fn names_all(order: &[u8]) -> bool
    ensures { result ≡ list_all (has_club order.now) (range_with_len 0 (length order.now)) }
{
    (0..order.len()).all(|club| names(order, club))
}
