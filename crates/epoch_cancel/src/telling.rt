//! What the one who stores tells the others, while no other thread has the owner's seat.

ghost use Rattle.std.specs.Prelude.{◌≡◌, ◌+◌, ◌<◌, IsTrue, length};
ghost use mathlib.Core.List.{IsPrefix};
ghost use Rattle.league_core.specs.inside.Codes.{has_code};
ghost use Rattle.league_core.specs.game.Limits.{most_events};
ghost use Rattle.epoch_cancel.specs.inside.Seats.{seat_told};

use crate::code::word_of;
use crate::seats::{Eye, Front, Owner};
use crate::view::{Compare, Longer, Note, Store, Told};
use crate::word::EpochWord;
use league_core::Event;

/// Stores the word of one event more, and tells the reporter of it.
pub fn tell(word: &EpochWord, owner: &mut Owner, front: &mut Front, event: &Event)
    requires seats { (owner.old.table ≡ word.now) × (front.old.table ≡ word.now) }
    requires level { length front.old.list ≡ length owner.old.list }
    requires room { length owner.old.list < most_events }
    requires code { IsTrue (has_code event.now) }
    ensures equal { front.old.list ≡ owner.old.list }
    ensures owner { owner.new ≡ seat_told owner.old event.now }
    ensures front { front.new ≡ seat_told front.old event.now }
{
    let shared = &word.table.shared;
    let next = word_of(owner.count + 1, event);
    shared.store::<Store>(&mut owner.seat, 0, next);
    owner.count += 1;
    let note = shared.split_seat::<Note>(&mut owner.seat);
    shared.join_seat::<Longer>(&mut front.seat, note);
    shared.load::<Compare>(&mut front.seat, 0);
}

/// Brings a worker up to all events that there were. What it knew was a prefix of them.
pub fn seen(word: &EpochWord, owner: &mut Owner, eye: &mut Eye)
    requires seats { (owner.old.table ≡ word.now) × (eye.old.table ≡ word.now) }
    ensures begins { IsPrefix eye.old.list owner.old.list }
    ensures owner { owner.new ≡ owner.old }
    ensures eye { eye.new ≡ record eye.old { list = owner.old.list } }
{
    let shared = &word.table.shared;
    let known = shared.split_seat::<Note>(&mut eye.seat);
    shared.join_seat::<Told>(&mut owner.seat, known);
    shared.load::<Compare>(&mut owner.seat, 0);
    let all = shared.split_seat::<Note>(&mut owner.seat);
    shared.join_seat::<Longer>(&mut eye.seat, all);
}
