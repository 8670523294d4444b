//! Leads that are taken once.

ghost use Rattle.std.specs.Prelude.{◌≡◌, ◌<◌, ◌||◌, ◌==◌, ℕ, set, length};
ghost use Rattle.league_core.specs.declared.club_set.ClubSet as sets;
ghost use Rattle.league_core.specs.game.ClubSets.{clubs_in};
ghost use Rattle.league_core.specs.game.Sums.{has_club};
ghost use Rattle.near_bound.specs.declared.tie.Tie as ties;
ghost use Rattle.near_bound.specs.inside.GroupsLeft.{IsLeadTableOf, wrongs_listed};

use crate::wrongs::Wrongs;
use league_core::ClubSet;

/// A place for the leads of rivals, kept so that no memory is taken for them: what is in it is of
/// one level.
#[derive(Clone, Copy)]
pub struct LeadTable {
    known: ClubSet,
    wrongs: [Wrongs; 32],
}

impl LeadTable {
    /// Without a lead.
    pub fn new() -> LeadTable
        ensures { (tie : ties.Tie) (able : sets.ClubSet) (club : ℕ)
            → IsLeadTableOf tie able club result }
    {
        LeadTable {
            known: ClubSet::empty(),
            wrongs: [Wrongs::NONE; 32],
        }
    }

    /// Forgets all leads.
    pub fn clear(&mut self)
        ensures { (tie : ties.Tie) (able : sets.ClubSet) (club : ℕ)
            → IsLeadTableOf tie able club self.new }
    {
        self.known = ClubSet::empty();
    }

    pub(crate) fn has(&self, rival: u8) -> bool
        ensures { result ≡ has_club (clubs_in self.now.known) rival }
    {
        self.known.has(rival)
    }

    pub(crate) fn put(&mut self, rival: u8, wrongs: Wrongs)
        requires { rival < 32 }
        ensures known { (other : ℕ) → has_club (clubs_in self.new.known) other
            ≡ (has_club (clubs_in self.old.known) other || (rival == other)) }
        ensures wrongs { self.new.wrongs ≡ set self.old.wrongs rival wrongs }
    {
        self.known = self.known.with_if(true, rival);
        self.wrongs[rival as usize] = wrongs;
    }

    pub(crate) fn of(&self, rival: u8) -> &Wrongs
        requires { rival < 32 }
        ensures { result.now ≡ wrongs_listed self.now.wrongs rival }
    {
        &self.wrongs[rival as usize]
    }
}
