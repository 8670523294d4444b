//! The laws of keys: functions that do nothing, each with laws as its contract.
//!
//! The statements are in `specs/inside/KeyLaws.antt`.

ghost use Rattle.club_keys.specs.inside.KeyLaws.{KeysAreAboveOrBelow, KeysAreFromThemselves};
ghost use Rattle.club_keys.specs.inside.KeyLaws.{KeysAreFromLesserOnes, KeysAreOneIfFromEachOther};
ghost use Rattle.club_keys.specs.inside.KeyLaws.{EndsMeetInSingleZones, KeysMeetInSingleZones};

/// Keys stand in one order: of two the one is greater, or the other is as great or greater.
pub fn keys_are_in_order()
    ensures apart { KeysAreAboveOrBelow }
    ensures itself { KeysAreFromThemselves }
    ensures along { KeysAreFromLesserOnes }
    ensures one { KeysAreOneIfFromEachOther }
{}

/// If each fixture has one option, the low key of a club is its high key, and its key at each
/// finish of the zone.
pub fn single_zones_have_one_key()
    ensures ends { EndsMeetInSingleZones }
    ensures finish { KeysMeetInSingleZones }
{}
