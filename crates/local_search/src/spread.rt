//! How many rivals have so many points.

use league_core::limits::MOST_DEDUCTION;
use league_core::{Claim, OutOfMemory};
use std::alloc::Global;

/// More numbers of points than a club can have, with all deductions.
const HEIGHTS: usize = 2000;

/// For each number of points, how many rivals have it.
#[derive(Drop)]
pub struct Spread {
    counts: Vec<u8>,
}

impl Spread {
    /// That of no rival.
    pub fn empty(alloc: Global) -> Result<Spread, OutOfMemory> {
        Ok(Spread {
            counts: vec![in alloc; 0; HEIGHTS]?,
        })
    }

    /// One rival more has these points.
    pub fn join(&mut self, points: i32) {
        let at = height_of(points);
        if at < self.counts.len() {
            self.counts[at] = self.counts[at].saturating_add(1);
        }
    }

    /// One rival less has these points.
    pub fn leave(&mut self, points: i32) {
        let at = height_of(points);
        if at < self.counts.len() {
            self.counts[at] = self.counts[at].saturating_sub(1);
        }
    }

    /// What brings so many rivals level with a club of these points, those that are nearest on the
    /// wrong side: for a place inside above it. If that is more than `most`, some number that is.
    pub fn cost(&self, points: i32, claim: Claim, rivals: u8, most: u32) -> u32 {
        let mut left = u32::from(rivals);
        let mut total: u32 = 0;
        for short in 1..HEIGHTS as i32 {
            let all = total.saturating_add(cost_of(short).saturating_mul(left));
            if left == 0 || most < all {
                return all;
            }
            let there = u32::from(self.at(beyond(points, claim, short))).min(left);
            total = total.saturating_add(cost_of(short).saturating_mul(there));
            left = left.saturating_sub(there);
        }
        total
    }

    fn at(&self, points: i32) -> u8 {
        self.counts.get(height_of(points)).copied().unwrap_or(0)
    }
}

// So many points to the wrong side.
fn beyond(points: i32, claim: Claim, short: i32) -> i32 {
    match claim {
        Claim::Inside => points.saturating_add(short),
        Claim::Outside => points.saturating_sub(short),
    }
}

// Where a number of points is counted.
fn height_of(points: i32) -> usize {
    points.saturating_add(i32::from(MOST_DEDUCTION)).max(0) as usize
}

fn cost_of(short: i32) -> u32 {
    (short.max(0) as u32)
        .saturating_mul(1000)
        .saturating_add(400)
}
