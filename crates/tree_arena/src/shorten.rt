//! Lists of literals that are cut back.

ghost use Rattle.std.specs.Prelude.{◌≡◌, ◌≤◌, length, take};

use league_core::{Listing, Literal};

/// Back to so many literals.
pub fn shorten(literals: &mut Listing<Literal>, depth: usize)
    requires { depth ≤ length literals.old }
    ensures { literals.new ≡ take depth literals.old }
{
    while literals.len() > depth {
        literals.pop();
    }
}
