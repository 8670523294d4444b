//! The place of one worker.

ghost use Rattle.std.specs.Prelude.{◌≡◌, All, IfOk};
ghost use Rattle.pool_lock.specs.inside.Badges.{badges_for, says_over};

use crate::job::Job;
use branch_pool::{Discarded, Took};
use epoch_cancel::Eye;
use league_core::{OutOfMemory, Season};
use std::alloc::Global;
use std::marker::{Model, PhantomData};
use std::mem;

/// A worker's badge of the lock of its job.
///
/// Contracts see its eye: the events that it has seen, how often it has looked at the word, and the
/// newest epoch that it found there. Beside that they see whether it is the only badge of its lock,
/// and whether the lock's last answer to a taking by it was that all is over.
#[derive(Drop)]
pub struct WorkBadge<J: Job> {
    pub(crate) eye: Eye,
    // The season of the ticket given back last, for the next one.
    pub(crate) spare: Option<Season>,
    is_sole: bool,
    is_over: bool,
    of: PhantomData<J>,
}

impl<J: Job> Model for WorkBadge<J> {
    ghost use Rattle.std.specs.Prelude.{◌≡◌};
    ghost use Rattle.pool_lock.specs.inside.Badges.{BadgeView};

    ghost Value = { BadgeView };

    ghost view = { λ badge. record {
      table = badge.eye.table;
      list = badge.eye.list;
      loads = badge.eye.loads;
      newest = badge.eye.newest;
      is_sole = badge.is_sole;
      is_over = badge.is_over;
    } };

    ghost invariant = { λ badge. badge.eye.table ≡ J.table };
}

impl<J: Job> WorkBadge<J> {
    /// It is the only badge of its lock.
    pub fn is_sole(&self) -> bool
        ensures { result ≡ self.now.is_sole }
    {
        self.is_sole
    }

    // Notes whether an answer to a taking says that all is over.
    pub(crate) fn note(&mut self, took: &Took)
        ensures { self.new ≡ record self.old { is_over = says_over took.now } }
    {
        self.is_over = match took {
            Took::Over => true,
            Took::Lent(_) | Took::Rest | Took::OutOfMemory => false,
        };
    }

    // Keeps the season of what a ticket left, in exchange for the one that it kept before.
    pub(crate) fn keep(&mut self, left: Discarded) -> Discarded
        ensures { self.new ≡ self.old }
    {
        let mut left = left;
        mem::swap(&mut self.spare, &mut left.season);
        left
    }
}

// A badge for each eye, in their order.
pub fn badges_of<J: Job>(alloc: Global, eyes: Vec<Eye>) -> Result<Vec<WorkBadge<J>>, OutOfMemory>
    requires { All (λ eye. eye.table ≡ J.table) eyes.items }
    ensures { IfOk result (λ badges. badges.items ≡ badges_for eyes.items) }
{
    let is_sole = eyes.len() == 1;
    let mut badges = Vec::new(alloc);
    for eye in eyes {
        badges.push(WorkBadge {
            eye,
            spare: None,
            is_sole,
            is_over: false,
            of: PhantomData,
        })?;
    }
    Ok(badges)
}
