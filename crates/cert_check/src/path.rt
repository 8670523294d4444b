//! The way from a tree's root to the zone that is due. A yes literal on it stands for a half that
//! is still due, so the way is all that has to be kept.

ghost use Rattle.std.specs.Prelude.{◌≡◌, [], ◌∷◌, Bool, true, IsTrue, if◌then◌else◌, IfOk};
ghost use Rattle.std.specs.List.{list_all};
ghost use Rattle.league_core.specs.declared.zone.Test.{Test};
ghost use Rattle.league_core.specs.search.Zones.{is_zone_of};
ghost use Rattle.league_core.specs.inside.Pending.{pending_of};
ghost use Rattle.cert_check.specs.inside.Calls.{IsInSeasonOf};

use check_bounds::Trail;
use league_core::{Literal, OutOfMemory};

/// Goes on to the next half that is due: the last yes of the way becomes a no. False if no half is
/// due.
pub fn next_half(path: &mut Trail) -> Result<bool, OutOfMemory>
    requires { IsTrue (is_zone_of path.old.sheet path.old.zone) }
    ensures due { IfOk result (λ found. pending_of path.old.zone
        ≡ (if found then path.new.zone ∷ pending_of path.new.zone else [])) }
    ensures same { IfOk result (λ _. IsInSeasonOf path.old path.new) }
    ensures tests { IfOk result (λ _. (test : Test → Bool)
        → list_all (λ it. test it.test) path.old.zone ≡ true
        → list_all (λ it. test it.test) path.new.zone ≡ true) }
{
    while let Some(last) = path.back() {
        if last.yes {
            path.go(Literal {
                test: last.test,
                yes: false,
            })?;
            return Ok(true);
        }
    }
    Ok(false)
}
