//! The finish at which a walk begins: one that favours the claim.

use crate::board::{Board, OpenMatch};
use league_core::limits::{MOST_DEDUCTION, MOST_POINTS};
use league_core::{Claim, ClubSet, Question, Score};

/// Who is favoured where a walk begins, and the goal limit.
#[derive(Clone, Copy)]
pub struct Start<'a> {
    question: &'a Question,
    favoured: ClubSet,
    limit: u8,
}

impl<'a> Start<'a> {
    /// Favours the rivals that are likely before the club: for a place inside one less than the
    /// line, for one outside as many as it says. Likely are those with the most points, half of
    /// what they can still take counted in. In the board all open matches end 0:0.
    pub fn of(board: &Board, question: &'a Question, clubs: u8, limit: u8) -> Start<'a> {
        let count = match question.claim {
            Claim::Inside => question.line.saturating_sub(1),
            Claim::Outside => question.line,
        };
        let rivals = rivals_of(question, clubs);
        let keys = keys_of(board);
        let mut favoured = ClubSet::empty();
        for rival in 0..24 {
            let is_likely = rivals.has(rival) && count_before(&keys, rivals, rival) < count;
            favoured = favoured.with_if(is_likely, rival);
        }
        Start {
            question,
            favoured,
            limit,
        }
    }

    /// Gives each open match the score that it has where the walk begins.
    pub fn set(&self, board: &mut Board) {
        let club = self.question.club;
        let drawn = number_of(&board.open_counts(), club);
        let played = board.row(club).points.saturating_sub(drawn);
        for place in 0..board.count() {
            if let Some(open) = board.at(place) {
                board.put(place, self.score_of(&open));
            }
        }
        if has_window(self.question) {
            self.set_own(board, played);
        }
    }

    // The club's own matches end for the claim, the others for the favoured clubs.
    fn score_of(&self, open: &OpenMatch) -> Score {
        let (home, away) = (open.sides.home, open.sides.away);
        let is_inside = self.question.claim == Claim::Inside;
        if home == self.question.club {
            return self.wide(is_inside);
        }
        if away == self.question.club {
            return self.wide(!is_inside);
        }
        match (self.favoured.has(home), self.favoured.has(away)) {
            (true, true) => Score { home: 1, away: 0 },
            (false, false) => Score { home: 0, away: 0 },
            (is_home, _) => self.wide(is_home),
        }
    }

    // The widest win of one side.
    fn wide(&self, is_home: bool) -> Score {
        if is_home {
            Score {
                home: self.limit,
                away: 0,
            }
        } else {
            Score {
                home: 0,
                away: self.limit,
            }
        }
    }

    // The club's own results, so that its points come to the window: first those against clubs that
    // are not favoured.
    fn set_own(&self, board: &mut Board, played: i32) {
        let end = match self.question.claim {
            Claim::Inside => self.question.high,
            Claim::Outside => self.question.low,
        };
        let left = end.saturating_sub(played);
        let left = self.set_own_against(board, left, false);
        self.set_own_against(board, left, true);
    }

    // The results against the favoured clubs, or against the others, with so many points wanted;
    // gives how many are wanted after them.
    fn set_own_against(&self, board: &mut Board, wanted: i32, favoured: bool) -> i32 {
        let club = self.question.club;
        let mut left = wanted;
        for place in 0..board.count() {
            if let Some(open) = board.at(place) {
                let is_own = open.is_of(club);
                if is_own && self.favoured.has(open.opponent(club)) == favoured {
                    let won = self.points_for(left);
                    board.put(place, self.own_score(won, open.sides.home == club));
                    left = left.saturating_sub(won);
                }
            }
        }
        left
    }

    // The points of the next own result, where so many are wanted. For a place inside none is to be
    // too many.
    fn points_for(&self, wanted: i32) -> i32 {
        let win = match self.question.claim {
            Claim::Inside => 3,
            Claim::Outside => 2,
        };
        if win <= wanted { 3 } else { wanted.clamp(0, 1) }
    }

    fn own_score(&self, points: i32, is_home: bool) -> Score {
        match points {
            3 => self.wide(is_home),
            1 => Score { home: 0, away: 0 },
            _ => self.wide(!is_home),
        }
    }
}

/// The question asks for points that not every finish gives.
pub fn has_window(question: &Question) -> bool {
    -i32::from(MOST_DEDUCTION) < question.low || question.high < i32::from(MOST_POINTS)
}

/// All clubs of the sheet but that of the question.
pub fn rivals_of(question: &Question, clubs: u8) -> ClubSet {
    let mut rivals = ClubSet::empty();
    for rival in 0..24 {
        rivals = rivals.with_if(rival < clubs && rival != question.club, rival);
    }
    rivals
}

// Twice the points of each club and three for each match that it has open, where these count as
// drawn.
fn keys_of(board: &Board) -> [i32; 24] {
    let mut keys = board.open_counts();
    for club in 0..24 {
        let points = board.row(club).points.saturating_mul(2);
        keys[club as usize] = points.saturating_add(keys[club as usize]);
    }
    keys
}

// How many rivals have a greater key, or the same and a lower number.
fn count_before(keys: &[i32; 24], rivals: ClubSet, rival: u8) -> u8 {
    let own = number_of(keys, rival);
    let mut before: u8 = 0;
    for other in 0..24 {
        let key = number_of(keys, other);
        if rivals.has(other) && (own < key || own == key && other < rival) {
            before = before.saturating_add(1);
        }
    }
    before
}

fn number_of(numbers: &[i32; 24], club: u8) -> i32 {
    numbers.get(club as usize).copied().unwrap_or(0)
}
