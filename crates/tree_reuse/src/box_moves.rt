//! A box on the way through a tree: it takes up a literal going down, and gives it back coming up.

ghost use Rattle.std.specs.Prelude.{◌≡◌, ◌≤◌, [], length, take, IfOk};

use league_core::OutOfMemory;
use score_box::{Played, ZoneBox};
use std::alloc::Global;

/// The box at the root.
pub fn root_box<'a>(alloc: Global, played: &Played<'a>) -> Result<ZoneBox<'a>, OutOfMemory>
    ensures { IfOk result (λ zone_box. zone_box ≡ record {
      sheet = played.now.sheet;
      season = played.now.season;
      zone = [];
    }) }
{
    ZoneBox::over(alloc, played, &[])
}

/// Back to so many literals.
pub fn back_to(zone_box: &mut ZoneBox, depth: usize)
    requires { depth ≤ length zone_box.old.zone }
    ensures { zone_box.new ≡ record zone_box.old { zone = take depth zone_box.old.zone } }
{
    while depth < zone_box.zone().len() {
        zone_box.uncut();
    }
}
