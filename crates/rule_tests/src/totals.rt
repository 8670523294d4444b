//! What matches come to, and how the rules compare it.

use std::cmp::Ordering;

/// A match that was played.
#[derive(Clone, Copy)]
pub struct Played {
    pub home: u8,
    pub away: u8,
    pub home_goals: i32,
    pub away_goals: i32,
}

/// What a club's matches come to.
#[derive(Clone, Copy)]
pub struct Total {
    pub points: i32,
    pub difference: i32,
    pub goals: i32,
    pub away_goals: i32,
    pub wins: i32,
    pub away_wins: i32,
}

impl Total {
    pub fn none() -> Total {
        Total {
            points: 0,
            difference: 0,
            goals: 0,
            away_goals: 0,
            wins: 0,
            away_wins: 0,
        }
    }

    /// Adds a match of the club, if it is one.
    pub fn take(&mut self, played: &Played, club: u8) {
        if played.home == club {
            self.add(played.home_goals, played.away_goals);
        }
        if played.away == club {
            self.add(played.away_goals, played.home_goals);
            self.away_goals = self.away_goals.wrapping_add(played.away_goals);
            if played.away_goals > played.home_goals {
                self.away_wins = self.away_wins.wrapping_add(1);
            }
        }
    }

    fn add(&mut self, scored: i32, conceded: i32) {
        if scored > conceded {
            self.points = self.points.wrapping_add(3);
            self.wins = self.wins.wrapping_add(1);
        }
        if scored == conceded {
            self.points = self.points.wrapping_add(1);
        }
        self.difference = self.difference.wrapping_add(scored.wrapping_sub(conceded));
        self.goals = self.goals.wrapping_add(scored);
    }
}

/// `Less` if the first is the better: by points, difference and goals.
pub fn by_meetings(ours: Total, theirs: Total) -> Ordering {
    theirs.points.cmp(&ours.points).then(by_goals(ours, theirs))
}

/// By difference and goals.
pub fn by_goals(ours: Total, theirs: Total) -> Ordering {
    theirs
        .difference
        .cmp(&ours.difference)
        .then(theirs.goals.cmp(&ours.goals))
}

/// By all but points.
pub fn by_everything(ours: Total, theirs: Total) -> Ordering {
    by_goals(ours, theirs)
        .then(theirs.away_goals.cmp(&ours.away_goals))
        .then(theirs.wins.cmp(&ours.wins))
        .then(theirs.away_wins.cmp(&ours.away_wins))
}
