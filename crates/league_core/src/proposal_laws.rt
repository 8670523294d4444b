//! The laws of proposed finishes: functions that do nothing, each with laws as contract.
//!
//! The statements are in `specs/laws/ProposalLaws.antt`.

ghost use Rattle.league_core.specs.laws.ProposalLaws.{OptionOrderIsTotal, OptionOrderTellsApart};
ghost use Rattle.league_core.specs.laws.ProposalLaws.{OptionsHaveAFirst, FirstOptionIsFirst};
ghost use Rattle.league_core.specs.laws.ProposalLaws.{FirstOptionIsOfTheSet};
ghost use Rattle.league_core.specs.laws.ProposalLaws.{ProposedFinishIsInTheBox};
ghost use Rattle.league_core.specs.laws.ProposalLaws.{ProposedFinishIsAFinish};

/// The order in which scores are proposed is total and has no ties: the third step fixes the sum
/// of the goals, and the fourth those at home.
pub fn option_order_is_total()
    ensures total { OptionOrderIsTotal }
    ensures apart { OptionOrderTellsApart }
{}

/// Of any options one is first, and it is one of them. Only which scores they are counts.
pub fn options_have_one_first()
    ensures some { OptionsHaveAFirst }
    ensures first { FirstOptionIsFirst }
    ensures set { FirstOptionIsOfTheSet }
{}

/// If a zone has a finish, what is proposed is a finish, and meets all the zone's tests of scores.
pub fn proposed_finishes_are_finishes()
    ensures in_box { ProposedFinishIsInTheBox }
    ensures finish { ProposedFinishIsAFinish }
{}
