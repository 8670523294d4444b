//! A pool goes on from saved trees.

ghost use Rattle.std.specs.Prelude.{◌≡◌, IfOk};
ghost use Rattle.branch_pool.specs.inside.States.{out_count};
ghost use Rattle.pool_save.specs.SavedTexts.{AreAskedTrees};
ghost use Rattle.pool_save.specs.inside.TakingUp.{TakesUp};

use branch_pool::Pool;
use league_core::OutOfMemory;
use tree_arena::Tree;

/// Each question that has a tree goes on from what the season leaves of it, whoever made the tree,
/// in place of its own, and no unit of it is used. If memory runs out, the pool is gone.
pub fn take_up(pool: Pool, trees: Vec<Option<Tree>>) -> Result<Pool, OutOfMemory>
    requires home { out_count pool.loans ≡ 0 }
    requires asked { AreAskedTrees pool.sheet pool.questions trees.items }
    ensures taken { IfOk result (λ new. TakesUp pool trees.items new) }
    ensures home { IfOk result (λ new. out_count new.loans ≡ 0) }
{
    pool.adopt_all(trees)
}
