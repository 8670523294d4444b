//! The word: how it is made with its seats, and what stands in it at the end.

ghost use Rattle.std.specs.Prelude.{◌≡◌, ◌+◌, ◌<◌, ◌≤◌, All, IfOk, IsTrue, length, replicate};
ghost use mathlib.Core.List.{IsPrefix};
ghost use Rattle.league_core.specs.inside.Codes.{has_code};
ghost use Rattle.league_core.specs.game.Limits.{most_events};
ghost use Rattle.epoch_cancel.specs.inside.Packs.{pack_of};
ghost use Rattle.epoch_cancel.specs.inside.Seats.{new_eye, seat_of};

use crate::code::pack;
use crate::seats::{Eye, Front, Owner};
use crate::view::{Fresh, Law, Note, Told, View};
use atomic_table::Table;
use league_core::{Event, OutOfMemory};
use std::alloc::Global;
use std::marker::Model;
use std::snapshot::Snapshot;

/// One number that says which epoch it is, for threads that read it without a lock. Contracts see
/// it as the table that it stands in.
#[derive(Drop)]
pub struct EpochWord {
    pub(crate) table: Table<(), View, Snapshot<Vec<Event>>, Law, Global>,
}

impl Model for EpochWord {
    ghost use Rattle.std.specs.Prelude.{◌≡◌};
    ghost use Rattle.atomic_table.specs.Seated.{TableId, table_id_coded};

    ghost Value = { TableId };

    ghost coded = { table_id_coded };

    ghost view = { λ word. word.table.shared.table_id };

    ghost invariant = { λ word.
        (word.table.shared.table_id.words ≡ 1) × (word.table.shared.table_id.slots ≡ 0) };
}

impl EpochWord {
    /// The word of these events with all its seats, each of which knows them: one that stores, one
    /// for whoever reports, and as many for workers as `eyes` says.
    pub fn new(
        alloc: Global,
        log: &[Event],
        eyes: u8,
    ) -> Result<(EpochWord, Owner, Front, Vec<Eye>), OutOfMemory>
        requires few { length log.now ≤ most_events }
        requires codes { All (λ event. IsTrue (has_code event)) log.now }
        ensures owner { IfOk result (λ made. made.1 ≡ seat_of made.0 log.now) }
        ensures front { IfOk result (λ made. made.2 ≡ seat_of made.0 log.now) }
        ensures eyes { IfOk result
            (λ made. made.3.items ≡ replicate eyes (new_eye made.0 log.now)) }
    {
        let (word, mut owner) = EpochWord::begin(alloc, log)?;
        let front = word.front_of(&mut owner);
        let eyes = word.eyes_of(alloc, &mut owner, eyes)?;
        Ok((word, owner, front, eyes))
    }

    fn begin(alloc: Global, log: &[Event]) -> Result<(EpochWord, Owner), OutOfMemory>
        requires few { length log.now ≤ most_events }
        requires codes { All (λ event. IsTrue (has_code event)) log.now }
        ensures { IfOk result (λ made. made.1 ≡ seat_of made.0 log.now) }
    {
        // the table is told its first events by a key without a lifetime
        let copy = Vec::from_slice(alloc, log)?;
        let key = Snapshot::of(&copy);
        let (table, seat) = Table::of_words(alloc, &[pack(log)], &key)?;
        let owner = Owner {
            seat,
            count: log.len() as u64,
        };
        Ok((EpochWord { table }, owner))
    }

    fn front_of(&self, owner: &mut Owner) -> Front
        requires seat { owner.old.table ≡ self.now }
        ensures front { result ≡ owner.old }
        ensures same { owner.new ≡ owner.old }
    {
        Front {
            seat: self.table.shared.split_seat::<Fresh>(&mut owner.seat),
        }
    }

    fn eye_of(&self, owner: &mut Owner) -> Eye
        requires seat { owner.old.table ≡ self.now }
        ensures eye { result ≡ new_eye self.now owner.old.list }
        ensures same { owner.new ≡ owner.old }
    {
        Eye {
            seat: self.table.shared.split_seat::<Fresh>(&mut owner.seat),
        }
    }

    fn eyes_of(&self, alloc: Global, owner: &mut Owner, eyes: u8) -> Result<Vec<Eye>, OutOfMemory>
        requires seat { owner.old.table ≡ self.now }
        ensures eyes { IfOk result
            (λ made. made.items ≡ replicate eyes (new_eye self.now owner.old.list)) }
        ensures same { IfOk result (λ _. owner.new ≡ owner.old) }
    {
        let mut made = Vec::new(alloc);
        for _ in 0..eyes {
            made.push(self.eye_of(owner))?;
        }
        Ok(made)
    }

    /// What stands in the word at the end, when no other thread has a part in it: the pack of the
    /// owner's events, which begin with those of the front.
    pub fn close(self, owner: Owner, mut front: Front) -> u64
        requires owner { owner.table ≡ self }
        requires front { front.table ≡ self }
        ensures value { result ≡ pack_of owner.list }
        ensures begins { IsPrefix front.list owner.list }
    {
        let mut seat = owner.seat;
        let note = self.table.shared.split_seat::<Note>(&mut front.seat);
        self.table.shared.join_seat::<Told>(&mut seat, note);
        let closed = self.table.close_with(seat);
        let word = closed.word(0);
        closed.free();
        word
    }
}
