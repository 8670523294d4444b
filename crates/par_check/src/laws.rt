//! The laws of the cut: functions that do nothing, each with a law as its contract.

ghost use Rattle.std.specs.Prelude.{◌≡◌};
ghost use Rattle.par_check.specs.FirstStops.{TheFirstStopIsTold};
ghost use Rattle.par_check.specs.Shapes.{ShapesSuffice};

/// The first stop of a report, each item judged for itself, is where reading it stops.
pub fn the_first_stop_is_told()
    ensures { TheFirstStopIsTold }
{}

/// The grammar needs of what is due its shape alone.
pub fn shapes_suffice()
    ensures { ShapesSuffice }
{}
