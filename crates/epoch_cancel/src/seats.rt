//! The seats at the word: who stores it, who reports, and who looks.

use crate::view::View;
use atomic_table::Seat;
use std::marker::Model;

/// The seat that stores the word. There is one. Contracts see it as `SeatView`.
#[derive(Drop)]
pub struct Owner {
    pub(crate) seat: Seat<(), View>,
    // how many events there were
    pub(crate) count: u64,
}

impl Model for Owner {
    ghost use Rattle.std.specs.Prelude.{◌≡◌, true, length};
    ghost use Rattle.epoch_cancel.specs.inside.Seats.{SeatView, seat_of};

    ghost Value = { SeatView };

    ghost view = { λ owner. seat_of owner.seat.table_id owner.seat.me.0.list };

    ghost invariant = { λ owner.
        (owner.seat.me.0.owns ≡ true) × (owner.count ≡ length owner.seat.me.0.list) };
}

/// The seat of whoever reports events. Contracts see it as `SeatView`.
#[derive(Drop)]
pub struct Front {
    pub(crate) seat: Seat<(), View>,
}

impl Model for Front {
    ghost use Rattle.std.specs.Prelude.{◌≡◌, false};
    ghost use Rattle.epoch_cancel.specs.inside.Seats.{SeatView, seat_of};

    ghost Value = { SeatView };

    ghost view = { λ front. seat_of front.seat.table_id front.seat.me.0.list };

    ghost invariant = { λ front. front.seat.me.0.owns ≡ false };
}

/// A worker's seat. Contracts see it as `EyeView`.
#[derive(Drop)]
pub struct Eye {
    pub(crate) seat: Seat<(), View>,
}

impl Model for Eye {
    ghost use Rattle.std.specs.Prelude.{◌≡◌, false};
    ghost use Rattle.epoch_cancel.specs.inside.Seats.{EyeView};

    ghost Value = { EyeView };

    ghost view = { λ eye. record {
      table = eye.seat.table_id;
      list = eye.seat.me.0.list;
      loads = eye.seat.me.0.loads;
      newest = eye.seat.me.0.newest;
    } };

    ghost invariant = { λ eye. eye.seat.me.0.owns ≡ false };
}
