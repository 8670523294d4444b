//! The way from the root to the zone that is due.

ghost use Rattle.std.specs.Prelude.{◌≡◌, [], ◌∷◌, if◌then◌else◌, IfOk};
ghost use Rattle.league_core.specs.inside.Pending.{pending_of};

use league_core::{Literal, OutOfMemory};

/// Goes on to the next half that is due: the last yes of the way becomes a no. False if no half is
/// due.
pub fn next_half(path: &mut Vec<Literal>) -> Result<bool, OutOfMemory>
    ensures { IfOk result (λ found. pending_of path.old.items
        ≡ (if found then path.new.items ∷ pending_of path.new.items else [])) }
{
    while let Some(last) = path.pop() {
        if last.yes {
            path.push(Literal {
                test: last.test,
                yes: false,
            })?;
            return Ok(true);
        }
    }
    Ok(false)
}
