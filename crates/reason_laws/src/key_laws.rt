//! The law of keys: a function that does nothing, with laws as its contract.
//!
//! The statements are in `specs/inside/KeyLaws.antt`.

ghost use Rattle.reason_laws.specs.inside.KeyLaws.{KeyPartsAreInTheirRange, KeysLieBetween};

/// What a zone leaves of a club's key bounds the key at each of its members, part by part and as
/// keys are compared.
pub fn keys_lie_between()
    ensures parts { KeyPartsAreInTheirRange }
    ensures keys { KeysLieBetween }
{}
