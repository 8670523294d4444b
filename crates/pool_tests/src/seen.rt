//! What was met in drawn lists of steps.

use branch_pool::{Answer, Gave};

/// How often each of these was met.
#[derive(Clone, Copy, Debug)]
pub struct Seen {
    pub kept: u32,
    pub stale: u32,
    pub rest: u32,
    pub over: u32,
    pub won: u32,
    pub refuted: u32,
    pub spent: u32,
    /// Splits by the score of a fixture of which a result came.
    pub decided: u32,
}

pub fn none_seen() -> Seen {
    Seen {
        kept: 0,
        stale: 0,
        rest: 0,
        over: 0,
        won: 0,
        refuted: 0,
        spent: 0,
        decided: 0,
    }
}

impl Seen {
    pub fn gave(&mut self, gave: Gave) {
        match gave {
            Gave::Kept => self.kept = self.kept.saturating_add(1),
            Gave::Stale { .. } => self.stale = self.stale.saturating_add(1),
        }
    }

    pub fn answer(&mut self, answer: Answer) {
        match answer {
            Answer::Won => self.won = self.won.saturating_add(1),
            Answer::Refuted => self.refuted = self.refuted.saturating_add(1),
            Answer::Spent => self.spent = self.spent.saturating_add(1),
            Answer::NotYet => {}
        }
    }

    pub fn none(&mut self, goes_on: bool) {
        if goes_on {
            self.rest = self.rest.saturating_add(1);
        } else {
            self.over = self.over.saturating_add(1);
        }
    }

    pub fn add(&mut self, other: Seen) {
        self.kept = self.kept.saturating_add(other.kept);
        self.stale = self.stale.saturating_add(other.stale);
        self.rest = self.rest.saturating_add(other.rest);
        self.over = self.over.saturating_add(other.over);
        self.won = self.won.saturating_add(other.won);
        self.refuted = self.refuted.saturating_add(other.refuted);
        self.spent = self.spent.saturating_add(other.spent);
        self.decided = self.decided.saturating_add(other.decided);
    }

    /// Each of them but decided splits was met so often at the least.
    pub fn has_each(&self, least: u32) -> bool {
        let gave = self.kept.min(self.stale);
        let none = self.rest.min(self.over);
        let answer = self.won.min(self.refuted).min(self.spent);
        least <= gave.min(none).min(answer)
    }
}
