//! What is seen of a pool and of two tickets at the end of a round.

use branch_pool::{Answer, Gave, Pool};
use league_core::{Event, TreeNode};
use std::test::Fail;

/// What is seen of a round, all of it plain values.
#[derive(Clone, Copy)]
pub struct Round {
    /// What became of the two tickets, if they were given back.
    pub gave: Option<(Gave, Gave)>,
    /// How far the first two questions are, if two are asked.
    pub first_two: Option<(Answer, Answer)>,
    /// How far the two after them are, if four are asked.
    pub last_two: Option<(Answer, Answer)>,
    /// How many numbers are out.
    pub out: u64,
    /// How many events the log has.
    pub logged: usize,
    /// The log is the one event that was to be reported.
    pub is_told: bool,
    /// There are four trees, each of which is one leaf that is open.
    pub are_open: bool,
}

/// What is seen of the pool of a round, if this became of its tickets.
pub fn seen(
    pool: &Pool,
    gave: Result<Option<(Gave, Gave)>, Fail>,
    event: Event,
) -> Result<Round, Fail> {
    Ok(Round {
        gave: gave?,
        first_two: first_two(pool),
        last_two: last_two(pool),
        out: pool.out(),
        logged: pool.log().len(),
        is_told: pool.log() == [event].as_slice(),
        are_open: are_all_open(pool)?,
    })
}

fn first_two(pool: &Pool) -> Option<(Answer, Answer)> {
    if pool.questions().len() < 2 {
        return None;
    }
    Some((pool.answer(0), pool.answer(1)))
}

fn last_two(pool: &Pool) -> Option<(Answer, Answer)> {
    if pool.questions().len() != 4 {
        return None;
    }
    Some((pool.answer(2), pool.answer(3)))
}

fn are_all_open(pool: &Pool) -> Result<bool, Fail> {
    if pool.questions().len() != 4 {
        return Ok(false);
    }
    for place in 0..4u16 {
        let nodes = pool.tree(place).nodes()?;
        if nodes.as_slice() != [TreeNode::Open].as_slice() {
            return Ok(false);
        }
    }
    Ok(true)
}
