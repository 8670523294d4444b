//! What is left of a ticket that was given back, and of what was found there.

ghost use Rattle.std.specs.Prelude.{◌≡◌};
ghost use Rattle.branch_pool.specs.inside.Steps.{example_in};

use crate::question_state::Loan;
use league_core::{Season, Zone};
use reason_core::Finding;
use tree_arena::Example;

/// What a pool no longer needs when a ticket comes back, to be dropped where nobody waits for it.
#[derive(Drop)]
pub struct Discarded {
    /// A season: that of the ticket, or one that was kept in exchange for it.
    pub season: Option<Season>,
    /// The zone of the ticket.
    pub zone: Zone,
    /// The example that was found, if it is not kept.
    pub example: Option<Example>,
    /// What was out under the ticket's number, if that came home.
    pub loan: Option<Loan>,
}

/// The example that was found, if one was.
pub fn example_of(finding: Option<Finding>) -> Option<Example>
    ensures { result ≡ example_in finding }
{
    match finding {
        Some(Finding::Won(finish, lots)) => Some(Example { finish, lots }),
        Some(Finding::Refuted(_)) => None,
        Some(Finding::Split(_)) => None,
        None => None,
    }
}
