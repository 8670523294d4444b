//! The laws of trees of cases: functions that do nothing, each with a law as its contract.

ghost use Rattle.depth_search.specs.inside.Laws.{RefutedCasesLeaveNothing};
ghost use Rattle.depth_search.specs.inside.Decided.{DecidedKind, EachZoneIsDecided};

use crate::kind::Kind;

/// A kind of question of which each zone is decided, told to proofs alone.
pub trait Decided {
    type Example;

    type Reason;

    ghost kind: { DecidedKind Self.Example Self.Reason };
}

/// If a finish is an example in a zone only if it is one in a half of it, and in no zone with a
/// reason, then it is none at the root of a tree whose leaves are all refuted.
pub fn refuted_cases_leave_nothing<K: Kind>(_kind: &K)
    ensures { RefutedCasesLeaveNothing (K.refutes (K.subject _kind.now))
        (K.splits (K.subject _kind.now)) }
{}

/// For any kind of example and any kind of reason: if a zone in which nothing is left to split has
/// one of both, and any other can be split into lighter ones, then each zone has an example or a
/// tree of cases whose leaves are all refuted.
pub fn each_zone_is_decided<K: Decided>()
    ensures { EachZoneIsDecided K.kind }
{}
