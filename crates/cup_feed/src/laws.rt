//! The laws of a cup's feed: functions that do nothing, with laws as their contracts.
//!
//! The statements are in `specs/inside/FeedLaws.antt`.

ghost use Rattle.cup_feed.specs.inside.FeedLaws.{CupNumbersComeBack, GroupResultsMayBe};
ghost use Rattle.cup_feed.specs.inside.FeedLaws.{GroupsHaveSeasonsAfter, NumbersComeBack};

/// After any feed of a cup each of its groups has a season.
pub fn feeds_give_seasons()
    ensures seasons { GroupsHaveSeasonsAfter }
    ensures results { GroupResultsMayBe }
{}

/// Clubs have one number in the cup and one in their group.
pub fn numbers_go_both_ways()
    ensures from_group { NumbersComeBack }
    ensures from_cup { CupNumbersComeBack }
{}
