//! What rivals cost that are level with a club on points: by the first criterion that puts them on
//! the wrong side of it.

use crate::board::Board;
use crate::lead::{Lead, Record};
use league_core::{Claim, ClubSet, Fixture, Order, Question, Sheet};

/// What each club costs, by its number.
pub type Weights = [u32; 24];

/// The criteria at one finish, for the club of a question.
#[derive(Clone, Copy)]
pub struct TieCosts<'a> {
    board: &'a Board,
    sheet: &'a Sheet,
    question: &'a Question,
}

impl<'a> TieCosts<'a> {
    pub fn of(board: &'a Board, sheet: &'a Sheet, question: &'a Question) -> TieCosts<'a> {
        TieCosts {
            board,
            sheet,
            question,
        }
    }

    /// One of the clubs is that of the question.
    pub fn is_of_club(&self, sides: Fixture) -> bool {
        sides.home == self.question.club || sides.away == self.question.club
    }

    /// Notes what each of the rivals costs, all level with the club on points. One that no
    /// criterion tells from the club costs nothing, since lots go with the claim.
    pub fn note(&self, rivals: ClubSet, weights: &mut Weights) {
        match self.sheet.order {
            Order::HeadFirst => self.note_by_head(rivals, weights),
            Order::OverallFirst => {
                let level = self.note_by_goals(rivals, weights);
                self.note_by_head(level, weights);
            }
        }
    }

    // By the record in the group, again in each smaller group that it leaves level; then by all
    // matches.
    fn note_by_head(&self, rivals: ClubSet, weights: &mut Weights) {
        let mut group = rivals;
        for _ in 0..24 {
            let level = self.note_by_records(group, weights);
            if level == group {
                self.note_by_sums(group, weights);
                return;
            }
            group = level;
        }
    }

    // By the record among the rivals and the club; gives those that it leaves level.
    fn note_by_records(&self, rivals: ClubSet, weights: &mut Weights) -> ClubSet {
        let own = self.record(rivals, self.question.club);
        let mut level = ClubSet::empty();
        for rival in rivals.clubs() {
            let lead = Lead::in_group(&self.record(rivals, rival), &own);
            level = level.union(self.note_one(rival, lead, weights));
        }
        level
    }

    // By difference and goals over all matches; gives those that they leave level.
    fn note_by_goals(&self, rivals: ClubSet, weights: &mut Weights) -> ClubSet {
        let own = self.board.row(self.question.club);
        let mut level = ClubSet::empty();
        for rival in rivals.clubs() {
            let lead = Lead::in_goals(&self.board.row(rival), &own);
            level = level.union(self.note_one(rival, lead, weights));
        }
        level
    }

    // By the sums over all matches and the rank.
    fn note_by_sums(&self, rivals: ClubSet, weights: &mut Weights) {
        let own = self.board.row(self.question.club);
        let own_rank = self.sheet.rank_of(self.question.club);
        for rival in rivals.clubs() {
            let ranks = (self.sheet.rank_of(rival), own_rank);
            let lead = Lead::in_all(&self.board.row(rival), &own, ranks);
            self.note_one(rival, lead, weights);
        }
    }

    // Notes what a rival costs; gives the rival, if nothing leads.
    fn note_one(&self, rival: u8, lead: Option<Lead>, weights: &mut Weights) -> ClubSet {
        let mut level = ClubSet::empty();
        if rival < 24 {
            weights[rival as usize] = self.weight_of(lead);
            level = level.with_if(lead.is_none(), rival);
        }
        level
    }

    // What the matches of a club against the rivals and the question's club add up to.
    fn record(&self, rivals: ClubSet, club: u8) -> Record {
        let mut record = self.board.pair(club, self.question.club);
        for rival in rivals.clubs() {
            record = record.with(&self.board.pair(club, rival));
        }
        record
    }

    // The weight of a lead to the wrong side.
    fn weight_of(&self, lead: Option<Lead>) -> u32 {
        match (lead, self.question.claim) {
            (Some(lead), Claim::Inside) if lead.is_ahead => lead.weight,
            (Some(lead), Claim::Outside) if !lead.is_ahead => lead.weight,
            _ => 0,
        }
    }
}
