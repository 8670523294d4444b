//! The place of the one who reports.

use crate::job::Job;
use std::marker::Model;
use std::sync::ledger::Share;

/// Reports events to the lock of its job, of which it is the only front.
///
/// Contracts see it as the list of the events that were reported to the pool.
#[derive(Drop)]
pub struct Front<J: Job> {
    pub(crate) inner: epoch_cancel::Front,
    pub(crate) share: Share<J>,
}

impl<J: Job> Model for Front<J> {
    ghost use Rattle.std.specs.Prelude.{◌≡◌, List, length};
    ghost use Rattle.league_core.specs.declared.season.Event.{Event};

    ghost Value = { List Event };

    ghost view = { λ front. front.inner.list };

    ghost invariant = { λ front.
        (front.inner.table ≡ J.table) × (J.parts ≡ 1) × (front.share.parts ≡ 1)
        × (front.share.amount ≡ length front.inner.list) };
}
