//! Which clubs the proposed finish wishes points.

ghost use Rattle.std.specs.Prelude.{◌<◌, ◌≡◌, false, length, slice_index_or};
ghost use Rattle.example_finish.specs.inside.Wished.{AreWished, AreWishesOf, has_wish};

use league_core::{Claim, ClubSet, Question};
use score_box::ZoneBox;

/// The question's club with the rivals that the zone marks on its side of the claim: they are
/// wished points for a place inside the line, and all others for a place outside it.
#[derive(Clone, Copy)]
pub struct Wishes {
    pub near: ClubSet,
    pub claim: Claim,
}

impl Wishes {
    /// The wishes for a question in the zone of a box.
    pub fn of(zone_box: &ZoneBox, question: &Question) -> Wishes
        requires { question.now.club < length zone_box.now.sheet.clubs }
        ensures { AreWishesOf zone_box.now.zone question.now result }
    {
        let own = own_club(zone_box, question);
        let marked = match question.claim {
            Claim::Inside => zone_box.before(),
            Claim::Outside => zone_box.after(),
        };
        Wishes {
            near: marked.with_if(true, own),
            claim: question.claim,
        }
    }

    /// The club, by its number from 0, is wished points.
    pub fn has(self, club: u8) -> bool
        ensures { result ≡ has_wish self.near club self.claim }
    {
        match self.claim {
            Claim::Inside => self.near.has(club),
            Claim::Outside => !self.near.has(club),
        }
    }
}

impl Wishes {
    /// Whether the club of each number, from 0, is wished points: a table, since many matches ask.
    pub fn table(self) -> [bool; 24]
        ensures { AreWished self result }
    {
        let mut table = [false; 24];
        for club in 0..24u8 {
            table[club as usize] = self.has(club);
        }
        table
    }
}

/// The table says so of the club.
pub fn is_wished(table: &[bool], club: u8) -> bool
    requires { club < length table.now }
    ensures { result ≡ slice_index_or table.now club false }
{
    table[club as usize]
}

// The question's club, of which a set has room.
fn own_club(zone_box: &ZoneBox, question: &Question) -> u8
    requires { question.now.club < length zone_box.now.sheet.clubs }
    ensures club { result ≡ question.now.club }
    ensures within { result < 32 }
{
    let _sheet = zone_box.sheet();
    question.club
}
