//! The laws of turning keys: functions that do nothing, with the laws as their contracts.

ghost use Rattle.turning_keys.specs.inside.TurningLaws.{HalfwayKeysAreWithin};
ghost use Rattle.turning_keys.specs.inside.TurningLaws.{TurningKeysAreWithin, TurningKeysExist};

/// Whatever a search comes to, there is a key on which it turns for each side and each club.
pub fn turning_keys_exist()
    ensures { TurningKeysExist }
{}

/// The parts of that key, and of the keys that are asked about on the way to it, are such as lines
/// have.
pub fn turning_keys_are_within()
    ensures turning { TurningKeysAreWithin }
    ensures halfway { HalfwayKeysAreWithin }
{}
