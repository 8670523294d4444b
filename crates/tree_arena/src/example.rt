//! What ends the search for an example.

use league_core::{Finish, Lots};

/// A finish with a drawing of lots, at which a question holds.
#[derive(Drop)]
pub struct Example {
    pub finish: Finish,
    pub lots: Lots,
}
